//! Calls of which one allocation is refused.
use std::alloc::Global;
use std::test::Fail;

/// The most allocations that a call of these tests makes.
const MOST: usize = 1 << 12;

/// Bytes that no allocator has: this word and a small number.
const WORD: usize = 1 << 62;

/// Orders that the k-th allocation from here on be refused, or none where `k` is 0. It asks for more memory than there is,
/// which every allocator refuses; the one of `bench/refuse.c` takes the size as an order. Under any other nothing else
/// happens, and the tests see calls that succeed at once.
pub fn order(alloc: Global, k: usize) {
    let _: Result<Vec<u8>, _> = Vec::with_capacity(alloc, WORD + k % MOST);
}

/// Whether the order for the k-th allocation still stands. It is taken back.
fn is_left(alloc: Global, k: usize) -> bool {
    let mut left = false;
    for _ in 0..k {
        let asked: Result<Vec<u8>, _> = Vec::with_capacity(alloc, 1);
        left = left || asked.is_err();
    }
    order(alloc, 0);
    left
}

/// Whether the allocator is one that takes orders.
fn takes_orders(alloc: Global) -> bool {
    order(alloc, 1);
    is_left(alloc, 1)
}

/// How a call went whose k-th allocation was to be refused.
#[derive(Clone, Copy, Debug, Drop, PartialEq, Eq)]
pub enum Turn {
    /// It was refused memory.
    Refused,
    /// It was refused memory, and did without.
    Spared,
    /// It has no such allocation.
    Whole,
}

/// How a call went, by its answer; the order behind it is taken back.
pub fn turn_of<T, E>(alloc: Global, k: usize, answer: &Result<T, E>) -> Turn {
    let left = is_left(alloc, k);
    match answer {
        Err(_) => Turn::Refused,
        Ok(_) if left => Turn::Whole,
        Ok(_) => Turn::Spared,
    }
}

/// How often calls were refused memory, and how often they did without.
#[derive(Clone, Copy, Debug, Drop, PartialEq, Eq)]
pub struct Count {
    pub refused: usize,
    pub spared: usize,
}

pub const NONE: Count = Count {
    refused: 0,
    spared: 0,
};

/// Makes a call with its first allocation refused, with its second, and so on until there is no such allocation, and counts
/// on. Under an allocator that takes no orders the call has to succeed at once.
pub fn refuse_each<F: FnMut(usize) -> Turn>(
    alloc: Global,
    count: &mut Count,
    mut call: F,
) -> Result<(), Fail>
    requires { F.IsAlwaysCallable call }
{
    if !takes_orders(alloc) {
        return match call(1) {
            Turn::Spared => Ok(()),
            _ => Err(Fail::new("a call failed")),
        };
    }
    for k in 1..MOST {
        match call(k) {
            Turn::Refused => count.refused = count.refused.saturating_add(1),
            Turn::Spared => count.spared = count.spared.saturating_add(1),
            Turn::Whole => return Ok(()),
        }
    }
    Err(Fail::new("a call without end"))
}

/// Prints how often a call was refused memory. Where the allocator takes orders, something has to have been.
pub fn tell<R: Print>(rt: &R, alloc: Global, name: &str, count: Count) -> Result<(), Fail> {
    if count.refused == 0 && takes_orders(alloc) {
        return Err(Fail::new("nothing was refused"));
    }
    println!(rt; "refused {name} {} {}", count.refused, count.spared)?;
    Ok(())
}

/// Makes a call with each of its allocations refused, and prints how often it was refused memory.
pub fn refuse<R: Print, F: FnMut(usize) -> Turn>(
    rt: &R,
    alloc: Global,
    name: &str,
    call: F,
) -> Result<(), Fail>
    requires { F.IsAlwaysCallable call }
{
    let mut count = NONE;
    refuse_each(alloc, &mut count, call)?;
    tell(rt, alloc, name, count)
}
