//! Queues on one thread, and between two threads that put and two that take.
ghost use Rattle.std.specs.Prelude.{◌≡◌};

use ghs_shared::queue::{CloseFault, Full, ReadyPass, ReadyQueue};
use std::alloc::{AllocError, Global};
use std::process::Abort;
use std::sync::Wait;
use std::test::*;
use std::thread;
use std::thread::Threads;

fn assert_put(rt: &impl Abort, found: Result<(), Full>, put: Result<(), Full>) {
    assert_eq!(rt; found, put);
}

/// A number is put, or the queue is full.
fn puts<R: Wait + Abort>(
    rt: &R,
    queue: &ReadyQueue,
    pass: &mut ReadyPass,
    number: u32,
    put: Result<(), Full>,
)
    requires { pass.old.name ≡ queue.now.name }
    ensures { (pass.new.name ≡ pass.old.name) × (pass.new.shares ≡ pass.old.shares) }
{
    let found = queue.put(rt, pass, number);
    assert_put(rt, found, put);
}

/// This number is taken, or none.
fn takes<R: Wait + Abort>(rt: &R, queue: &ReadyQueue, pass: &mut ReadyPass, number: Option<u32>)
    requires { pass.old.name ≡ queue.now.name }
    ensures { (pass.new.name ≡ pass.old.name) × (pass.new.shares ≡ pass.old.shares) }
{
    let found = queue.take(rt, pass);
    assert_eq!(rt; found, number);
}

/// Two numbers fill the queue and leave it, one of them twice; then a third stands in it.
fn fill_and_empty<R: Wait + Abort>(rt: &R, queue: &ReadyQueue, pass: &mut ReadyPass)
    requires { pass.old.name ≡ queue.now.name }
    ensures { (pass.new.name ≡ pass.old.name) × (pass.new.shares ≡ pass.old.shares) }
{
    puts(rt, queue, pass, 3, Ok(()));
    puts(rt, queue, pass, 3, Ok(()));
    puts(rt, queue, pass, 5, Err(Full(5)));
    takes(rt, queue, pass, Some(3));
    takes(rt, queue, pass, Some(3));
    takes(rt, queue, pass, None);
    puts(rt, queue, pass, 5, Ok(()));
}

fn assert_one_stands<R: Wait + Abort>(rt: &R, queue: &ReadyQueue, pass: &mut ReadyPass)
    requires { pass.old.name ≡ queue.now.name }
    ensures { pass.new ≡ pass.old }
{
    let found = queue.len(rt, pass);
    assert!(rt; found == 1);
}

/// The queue closes, and so many numbers stand in it.
fn closes<R: Wait + Abort>(
    rt: &R,
    alloc: Global,
    queue: ReadyQueue,
    pass: ReadyPass,
    count: usize,
) -> Vec<u32>
    requires { pass.name ≡ queue.name }
{
    let Ok(rest) = queue.close(rt, alloc, pass) else {
        panic!(rt; "no share was missing")
    };
    assert!(rt; rest.len() == count);
    rest
}

#[test]
fn a_queue_of_two(rt: HostRuntime) -> Result<(), Fail> {
    let alloc = rt.alloc();
    let (queue, mut pass) = ReadyQueue::open(alloc, 2, 2)?;
    fill_and_empty(&rt, &queue, &mut pass);
    let mut other = queue.split(alloc, &mut pass)?;
    // a pass with one of two shares is answered in the same way
    takes(&rt, &queue, &mut other, Some(5));
    fill_and_empty(&rt, &queue, &mut other);
    assert_one_stands(&rt, &queue, &mut other);
    let Err((queue, mut pass, fault)) = queue.close(&rt, alloc, pass) else {
        panic!(rt; "a share was missing")
    };
    assert!(rt; fault == CloseFault::PassMissing);
    queue.join(&mut pass, other);
    assert!(rt; pass.shares() == 2);
    let rest = closes(&rt, alloc, queue, pass, 1);
    assert!(rt; rest.as_slice() == [5].as_slice());
    Ok(())
}

/// Puts each number from the first to before the end, however often the queue is full.
fn put_all<R: Wait>(
    rt: &R,
    queue: &ReadyQueue,
    mut pass: ReadyPass,
    from: u32,
    end: u32,
) -> ReadyPass
    requires { pass.name ≡ queue.now.name }
    ensures { (result.name ≡ pass.name) × (result.shares ≡ pass.shares) }
{
    for number in from..end {
        for _ in rt.forever() {
            if queue.put(rt, &mut pass, number).is_ok() {
                break;
            }
            thread::yield_now();
        }
    }
    pass
}

/// Takes so many numbers, however often the queue is empty.
fn take_some<R: Wait>(
    rt: &R,
    alloc: Global,
    queue: &ReadyQueue,
    mut pass: ReadyPass,
    count: usize,
) -> (ReadyPass, Result<Vec<u32>, AllocError>)
    requires { pass.name ≡ queue.now.name }
    ensures { (result.0.name ≡ pass.name) × (result.0.shares ≡ pass.shares) }
{
    let mut taken = Vec::new(alloc);
    for _ in rt.forever() {
        if taken.len() >= count {
            break;
        }
        match queue.take(rt, &mut pass) {
            Some(number) => {
                if taken.push(number).is_err() {
                    return (pass, Err(AllocError));
                }
            }
            None => thread::yield_now(),
        }
    }
    (pass, Ok(taken))
}

/// A queue closes with a hundred thousand numbers in it.
#[test]
fn a_long_queue_closes(rt: HostRuntime) -> Result<(), Fail> {
    let alloc = rt.alloc();
    let (queue, pass) = ReadyQueue::open(alloc, 100_000, 1)?;
    let pass = put_all(&rt, &queue, pass, 1, 100_001);
    closes(&rt, alloc, queue, pass, 100_000);
    Ok(())
}

/// Two threads put 1 to 1,000 and 1,001 to 2,000.
fn put_by_two<R: Threads + Wait + Sync>(
    rt: &R,
    queue: &ReadyQueue,
    first: ReadyPass,
    second: ReadyPass,
) -> (ReadyPass, ReadyPass)
    requires { (first.name ≡ queue.now.name) × (second.name ≡ queue.now.name) × (first.shares ≡ 1) × (second.shares ≡ 1) }
    ensures { (result.0.name ≡ queue.now.name) × (result.1.name ≡ queue.now.name) × (result.0.shares ≡ 1) × (result.1.shares ≡ 1) }
{
    thread::join(
        rt,
        move || -> ReadyPass
            requires { (first.name ≡ queue.now.name) × (first.shares ≡ 1) }
            ensures { (result.name ≡ queue.entry.now.name) × (result.shares ≡ 1) }
        { put_all(rt, queue, first, 1, 1001) },
        move || -> ReadyPass
            requires { (second.name ≡ queue.now.name) × (second.shares ≡ 1) }
            ensures { (result.name ≡ queue.entry.now.name) × (result.shares ≡ 1) }
        { put_all(rt, queue, second, 1001, 2001) },
    )
}

/// Two threads take 900 and 1,095 numbers.
fn take_by_two<R: Threads + Wait + Sync>(
    rt: &R,
    alloc: Global,
    queue: &ReadyQueue,
    third: ReadyPass,
    fourth: ReadyPass,
) -> (
    (ReadyPass, Result<Vec<u32>, AllocError>),
    (ReadyPass, Result<Vec<u32>, AllocError>),
)
    requires { (third.name ≡ queue.now.name) × (fourth.name ≡ queue.now.name) × (third.shares ≡ 1) × (fourth.shares ≡ 1) }
    ensures { (result.0.0.name ≡ queue.now.name) × (result.1.0.name ≡ queue.now.name) × (result.0.0.shares ≡ 1) × (result.1.0.shares ≡ 1) }
{
    thread::join(
        rt,
        move || -> (ReadyPass, Result<Vec<u32>, AllocError>)
            requires { (third.name ≡ queue.now.name) × (third.shares ≡ 1) }
            ensures { (result.0.name ≡ queue.entry.now.name) × (result.0.shares ≡ 1) }
        { take_some(rt, alloc, queue, third, 900) },
        move || -> (ReadyPass, Result<Vec<u32>, AllocError>)
            requires { (fourth.name ≡ queue.now.name) × (fourth.shares ≡ 1) }
            ensures { (result.0.name ≡ queue.entry.now.name) × (result.0.shares ≡ 1) }
        { take_some(rt, alloc, queue, fourth, 1095) },
    )
}

/// Two threads put 1 to 1,000 and 1,001 to 2,000, and two others take 900 and 1,095 of them.
fn exchange<R: Threads + Wait + Sync>(
    rt: &R,
    alloc: Global,
    queue: &ReadyQueue,
    passes: (ReadyPass, ReadyPass, ReadyPass, ReadyPass),
) -> (ReadyPass, Result<(Vec<u32>, Vec<u32>), AllocError>)
    requires putters { (passes.0.name ≡ queue.now.name) × (passes.1.name ≡ queue.now.name) × (passes.0.shares ≡ 1) × (passes.1.shares ≡ 1) }
    requires takers { (passes.2.name ≡ queue.now.name) × (passes.3.name ≡ queue.now.name) × (passes.2.shares ≡ 1) × (passes.3.shares ≡ 1) }
    ensures { (result.0.name ≡ queue.now.name) × (result.0.shares ≡ 4) }
{
    let (first, second, third, fourth) = passes;
    let putters = move || -> (ReadyPass, ReadyPass)
        requires { (first.name ≡ queue.now.name) × (second.name ≡ queue.now.name) × (first.shares ≡ 1) × (second.shares ≡ 1) }
        ensures { (result.0.name ≡ queue.entry.now.name) × (result.1.name ≡ queue.entry.now.name) × (result.0.shares ≡ 1) × (result.1.shares ≡ 1) }
    { put_by_two(rt, queue, first, second) };
    let takers = move || -> (
        (ReadyPass, Result<Vec<u32>, AllocError>),
        (ReadyPass, Result<Vec<u32>, AllocError>),
    )
        requires { (third.name ≡ queue.now.name) × (fourth.name ≡ queue.now.name) × (third.shares ≡ 1) × (fourth.shares ≡ 1) }
        ensures { (result.0.0.name ≡ queue.entry.now.name) × (result.1.0.name ≡ queue.entry.now.name) × (result.0.0.shares ≡ 1) × (result.1.0.shares ≡ 1) }
    { take_by_two(rt, alloc, queue, third, fourth) };
    let ((mut pass, second), ((third, one), (fourth, two))) = thread::join(rt, putters, takers);
    queue.join(&mut pass, second);
    queue.join(&mut pass, third);
    queue.join(&mut pass, fourth);
    match (one, two) {
        (Ok(one), Ok(two)) => (pass, Ok((one, two))),
        _ => (pass, Err(AllocError)),
    }
}

/// The numbers are 1 to 2,000, in some order.
fn are_all_once(rt: &impl Abort, mut all: Vec<u32>) -> Result<(), AllocError> {
    all.sort()?;
    assert!(rt; all.len() == 2000);
    for (place, number) in all.iter().enumerate() {
        assert_eq!(rt; *number as usize, place + 1);
    }
    Ok(())
}

#[test]
fn each_number_passes_once(rt: HostRuntime) -> Result<(), Fail> {
    let alloc = rt.alloc();
    let (queue, mut pass) = ReadyQueue::open(alloc, 8, 4)?;
    let second = queue.split(alloc, &mut pass)?;
    let third = queue.split(alloc, &mut pass)?;
    let fourth = queue.split(alloc, &mut pass)?;
    let (pass, taken) = exchange(&rt, alloc, &queue, (pass, second, third, fourth));
    let (mut all, two) = taken?;
    let rest = closes(&rt, alloc, queue, pass, 5);
    all.extend_from_slice(&two)?;
    all.extend_from_slice(&rest)?;
    are_all_once(&rt, all)?;
    Ok(())
}
