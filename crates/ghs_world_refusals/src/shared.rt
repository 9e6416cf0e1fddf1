//! What threads share: boards and queues of numbers.
ghost use Rattle.std.specs.Prelude.{◌≡◌};

use ghs_refusing::orders::{Turn, order, refuse, turn_of};
use ghs_shared::board::Board;
use ghs_shared::progress::Progress;
use ghs_shared::queue::{CloseFault, ReadyPass, ReadyQueue};
use std::alloc::Global;
use std::process::Abort;
use std::sync::Wait;
use std::test::Fail;

const FIRST: Progress = Progress {
    commits: 7,
    halted: false,
};

fn open_board(alloc: Global, k: usize) -> Turn {
    order(alloc, k);
    turn_of(alloc, k, &Board::open(alloc, FIRST))
}

fn open_queue(alloc: Global, k: usize) -> Turn {
    order(alloc, k);
    turn_of(alloc, k, &ReadyQueue::open(alloc, 8, 2))
}

/// To split a reader off, and to read beside the publisher takes no memory.
fn take_none_of_a_board(rt: &impl Abort, alloc: Global) {
    let (board, mut publisher, mut reader) = Board::open(alloc, FIRST).expect(rt, "a board");
    order(alloc, 1);
    assert!(rt; board.split(alloc, &mut reader).is_ok());
    let read = board.read_beside(alloc, &mut reader, &mut publisher);
    assert!(rt; read.is_ok());
    order(alloc, 0);
}

/// To split a pass off takes no memory.
fn take_none_of_a_queue(rt: &impl Abort, alloc: Global) {
    let (queue, mut pass) = ReadyQueue::open(alloc, 8, 2).expect(rt, "a queue");
    order(alloc, 1);
    assert!(rt; pass.shares() == 2);
    assert!(rt; queue.split(alloc, &mut pass).is_ok());
    order(alloc, 0);
}

const NUMBERS: [u32; 3] = [3, 1, 2];

fn put<R: Wait + Abort>(rt: &R, queue: &ReadyQueue, pass: &mut ReadyPass, number: u32)
    requires { pass.old.name ≡ queue.now.name }
    ensures { pass.new.name ≡ pass.old.name }
{
    assert!(rt; queue.put(rt, pass, number).is_ok());
}

fn put_numbers<R: Wait + Abort>(rt: &R, queue: &ReadyQueue, pass: &mut ReadyPass)
    requires { pass.old.name ≡ queue.now.name }
    ensures { pass.new.name ≡ pass.old.name }
{
    put(rt, queue, pass, 3);
    put(rt, queue, pass, 1);
    put(rt, queue, pass, 2);
}

fn assert_numbers(rt: &impl Abort, rest: &[u32]) {
    assert!(rt; rest == NUMBERS.as_slice());
}

/// Queue and pass come back with the same numbers, and are closed then.
fn close_again<R: Wait + Abort>(
    rt: &R,
    alloc: Global,
    queue: ReadyQueue,
    pass: ReadyPass,
    fault: CloseFault,
)
    requires { pass.name ≡ queue.name }
{
    assert!(rt; fault == CloseFault::Memory && pass.shares() == 2);
    let rest = queue.close(rt, alloc, pass).ok().expect(rt, "the numbers");
    assert_numbers(rt, &rest);
}

fn close<R: Wait + Abort>(rt: &R, alloc: Global, k: usize) -> Turn {
    let (queue, mut pass) = ReadyQueue::open(alloc, 8, 2).expect(rt, "a queue");
    put_numbers(rt, &queue, &mut pass);
    order(alloc, k);
    let answer = queue.close(rt, alloc, pass);
    let turn = turn_of(alloc, k, &answer);
    match answer {
        Ok(rest) => assert_numbers(rt, &rest),
        Err((queue, pass, fault)) => close_again(rt, alloc, queue, pass, fault),
    }
    turn
}

#[test]
fn shared(host: HostRuntime) -> Result<(), Fail> {
    let (rt, alloc) = (&host, host.alloc());
    take_none_of_a_board(rt, alloc);
    take_none_of_a_queue(rt, alloc);
    refuse(rt, alloc, "Board::open", |k| open_board(alloc, k))?;
    refuse(rt, alloc, "ReadyQueue::open", |k| open_queue(alloc, k))?;
    refuse(rt, alloc, "ReadyQueue::close", |k| close(rt, alloc, k))
}
