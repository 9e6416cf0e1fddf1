//! Boards on one thread, and with readers on threads of their own.
ghost use Rattle.std.specs.Prelude.{◌≡◌, false};

use ghs_shared::board::{Board, Publisher, Reader};
use ghs_shared::progress::Progress;
use std::alloc::Global;
use std::process::Abort;
use std::test::*;
use std::thread;

fn at(commits: u64) -> Progress
    ensures { (result.commits ≡ commits) × (result.halted ≡ false) }
{
    Progress {
        commits,
        halted: false,
    }
}

const NINE_AND_ENDED: Progress = Progress {
    commits: 9,
    halted: true,
};

/// A read finds this.
fn reads(rt: &impl Abort, board: &Board, reader: &mut Reader, progress: Progress)
    requires { reader.old.table ≡ board.now }
    ensures { reader.new.table ≡ reader.old.table }
{
    assert_eq!(rt; board.read(reader), progress);
}

/// A read beside the publisher finds this.
fn reads_beside(
    rt: &impl Abort,
    alloc: Global,
    board: &Board,
    reader: &mut Reader,
    publisher: &mut Publisher,
    progress: Progress,
)
    requires reader { reader.old.table ≡ board.now }
    requires publisher { publisher.old.table ≡ board.now }
    ensures reader { reader.new.table ≡ reader.old.table }
    ensures publisher { publisher.new ≡ publisher.old }
{
    let read = board.read_beside(alloc, reader, publisher);
    let found = read.expect(rt, "a read");
    assert_eq!(rt; found, progress);
}

#[test]
fn a_read_loads_what_was_published_last(rt: HostRuntime) -> Result<(), Fail> {
    let alloc = rt.alloc();
    let (board, mut publisher, mut reader) = Board::open(alloc, at(0))?;
    reads(&rt, &board, &mut reader, at(0));
    publisher.publish(7, false);
    reads_beside(&rt, alloc, &board, &mut reader, &mut publisher, at(7));
    let mut second = board.split(alloc, &mut reader)?;
    publisher.publish(9, true);
    reads(&rt, &board, &mut second, NINE_AND_ENDED);
    reads_beside(
        &rt,
        alloc,
        &board,
        &mut reader,
        &mut publisher,
        NINE_AND_ENDED,
    );
    assert!(rt; publisher.last() == NINE_AND_ENDED);
    Ok(())
}

#[test]
fn readers_are_split_and_joined(rt: HostRuntime) -> Result<(), Fail> {
    let alloc = rt.alloc();
    let (board, mut publisher, mut reader) = Board::open(alloc, at(3))?;
    let mut second = board.split(alloc, &mut reader)?;
    publisher.publish(4, false);
    reads(&rt, &board, &mut second, at(4));
    board.join(&mut reader, second);
    reads(&rt, &board, &mut reader, at(4));
    publisher.publish(9, true);
    reads(&rt, &board, &mut reader, NINE_AND_ENDED);
    Ok(())
}

/// Reads until a read says that the run has ended. Whether no part fell, and the last commits are these.
fn rises_to(board: &Board, reader: &mut Reader, commits: u64) -> bool
    requires { reader.old.table ≡ board.now }
{
    let mut last = at(0);
    for _ in 0..u64::MAX {
        let found = board.read(reader);
        if found.commits < last.commits || (last.halted && !found.halted) {
            return false;
        }
        last = found;
        if last.halted {
            break;
        }
    }
    last.commits == commits
}

/// Publishes 1 commit, 2, up to 1,000, with which the run ends.
fn raise(publisher: &mut Publisher) {
    for commits in 1..1001u64 {
        let last = publisher.last();
        if last.commits <= commits && !last.halted {
            publisher.publish(commits, commits == 1000);
        }
    }
}

#[test]
fn two_readers_beside_a_publisher(rt: HostRuntime) -> Result<(), Fail> {
    let alloc = rt.alloc();
    let (board, mut publisher, mut reader) = Board::open(alloc, at(0))?;
    let mut second = board.split(alloc, &mut reader)?;
    let board = &board;
    let readers = || -> (bool, bool)
        requires { (reader.table ≡ board.now) × (second.table ≡ board.now) }
    {
        thread::join(
            &rt,
            || -> bool
                requires { reader.table ≡ board.now }
            { rises_to(board, &mut reader, 1000) },
            || -> bool
                requires { second.table ≡ board.now }
            { rises_to(board, &mut second, 1000) },
        )
    };
    let (rises, ()) = thread::join(&rt, readers, move || raise(&mut publisher));
    assert_eq!(rt; rises, (true, true));
    Ok(())
}
