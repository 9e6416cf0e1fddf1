//! What a queue is made of.
ghost use Rattle.std.specs.Prelude.{◌≡◌, ◌-◌, ◌≤◌, [], IfOk};
ghost use Rattle.std.specs.VecDeque.{deque_len, deque_capacity};

use crate::place::Place;
use std::alloc::{AllocError, Global};
use std::collections::VecDeque;

/// Messages that wait, and whether there is memory for more. Most queues never have two at a time, so what is behind a
/// first message lies elsewhere, once there is room for it. Before them stands the place of the far end.
#[derive(Debug, Drop)]
pub(crate) enum Line<M> {
    /// Nothing waits, and there is room for one.
    Empty(Place),
    /// One message waits, and there is no room.
    One(Place, M),
    /// Nothing waits. There is room for one, and elsewhere, where nothing waits either, for more behind it.
    EmptyBeside(Place, Box<VecDeque<M>>),
    /// A first message, and what waits behind it.
    OneBeside(Place, M, Box<VecDeque<M>>),
}

/// No message, and room for `additional`.
pub(crate) fn room_behind<M: Drop>(
    alloc: Global,
    additional: usize,
) -> Result<Box<VecDeque<M>>, AllocError>
    ensures none { IfOk result (λ b. b.value.items ≡ []) }
    ensures room { IfOk result (λ b. additional ≤ deque_capacity b.value - deque_len b.value) }
{
    let mut messages = VecDeque::new(alloc);
    messages.reserve(additional)?;
    Ok(Box::new(alloc, messages)?)
}
