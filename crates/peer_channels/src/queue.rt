//! One list of messages.
ghost use Rattle.std.specs.Prelude.{◌≡◌, ℕ, ◌+◌, ◌-◌, ◌<◌, ◌≤◌, ◌^◌, [], length, slice_get, OnOk, OnErr};
ghost use Rattle.std.specs.Option.{option_map};
ghost use Rattle.peer_channels.specs.Queue.{QueueState, Slot, pushed, taken, requeued};

use crate::line::{Line, room_behind};
use crate::place::Place;
use std::alloc::{AllocError, Global};
use std::marker::Model;
use std::mem;

/// Messages that wait, the first come first, and the place of the queue at the far end of the link. Its room is for
/// how many more there is memory. The first message stands in the queue itself, so that a queue in which no second one
/// waits takes no memory of its own. One tag says whether there is a first message and whether there is memory for more,
/// and the place fills the gap behind it: so a queue of messages of five words of four bytes takes 32 bytes.
#[derive(Debug, Drop)]
pub struct Queue<M> {
    line: Line<M>,
}

const _: () = prove!(mem::size_of::<Queue<[u32; 5]>>() == 32);

impl<M> Model for Queue<M> {
    ghost use Rattle.peer_channels.specs.Queue.{Slot, in_line, far_of_line, IsLine};

    ghost Value = { Slot M };

    ghost view = { λ q. record { queue = in_line q.line; far = far_of_line q.line } };

    ghost invariant = { λ q. IsLine q.line };
}

impl<M: Drop> Queue<M> {
    /// No message, and room for one. The queue at the far end stands at `far`.
    pub fn new(far: u32) -> Queue<M>
        requires { far < 2 ^ 24 }
        ensures list { result.queue.list ≡ [] }
        ensures far { result.far ≡ far }
    {
        Queue {
            line: Line::Empty(Place::of(far)),
        }
    }

    /// Where the queue at the far end of the link stands.
    pub fn far(&self) -> u32
        ensures { result ≡ self.now.far }
    {
        match &self.line {
            Line::Empty(far)
            | Line::One(far, _)
            | Line::EmptyBeside(far, _)
            | Line::OneBeside(far, _, _) => far.get(),
        }
    }

    /// How many messages wait.
    pub fn len(&self) -> u64
        ensures { result ≡ length self.now.queue.list }
    {
        match &self.line {
            Line::OneBeside(_, _, rest) => 1 + rest.len() as u64,
            Line::One(_, _) => 1,
            _ => 0,
        }
    }

    /// The first message.
    pub fn first(&self) -> Option<&M>
        ensures { option_map (λ m. m.now) result ≡ slice_get self.now.queue.list 0 }
    {
        match &self.line {
            Line::OneBeside(_, first, _) | Line::One(_, first) => Some(first),
            _ => None,
        }
    }

    /// Makes room for `additional` messages.
    pub fn reserve(&mut self, alloc: Global, additional: usize) -> Result<(), AllocError>
        ensures list { self.new.queue.list ≡ self.old.queue.list }
        ensures room { OnOk result (additional ≤ self.new.queue.room) }
        ensures kept { self.old.queue.room ≤ self.new.queue.room }
        ensures full { OnErr result (self.old.queue.room < additional) }
        ensures far { self.new.far ≡ self.old.far }
    {
        match &mut self.line {
            Line::OneBeside(_, _, rest) => rest.reserve(additional)?,
            Line::One(far, _) => {
                let far = *far;
                if additional > 0 {
                    let rest = room_behind(alloc, additional)?;
                    if let Line::One(_, first) = mem::replace(&mut self.line, Line::Empty(far)) {
                        self.line = Line::OneBeside(far, first, rest);
                    }
                }
            }
            Line::EmptyBeside(_, rest) => {
                if additional > 1 {
                    rest.reserve(additional - 1)?;
                }
            }
            Line::Empty(far) => {
                let far = *far;
                if additional > 1 {
                    self.line = Line::EmptyBeside(far, room_behind(alloc, additional - 1)?);
                }
            }
        }
        Ok(())
    }

    /// One message more, the last.
    pub fn push(&mut self, message: M)
        requires { 0 < self.old.queue.room }
        ensures queue { self.new.queue ≡ pushed self.old.queue message }
        ensures far { self.new.far ≡ self.old.far }
    {
        match &mut self.line {
            Line::OneBeside(_, _, rest) => rest.push_back_reserved(message),
            Line::One(_, _) => unreachable!(),
            Line::EmptyBeside(far, _) => {
                let far = *far;
                if let Line::EmptyBeside(_, rest) = mem::replace(&mut self.line, Line::Empty(far)) {
                    self.line = Line::OneBeside(far, message, rest);
                }
            }
            Line::Empty(far) => {
                let far = *far;
                self.line = Line::One(far, message);
            }
        }
    }

    /// Takes the first message out.
    pub fn take_front(&mut self) -> Option<M>
        ensures first { result ≡ slice_get self.old.queue.list 0 }
        ensures left { self.new.queue ≡ taken self.old.queue }
        ensures far { self.new.far ≡ self.old.far }
    {
        match &mut self.line {
            Line::OneBeside(far, first, rest) => {
                let far = *far;
                if let Some(second) = rest.pop_front() {
                    return Some(mem::replace(first, second));
                }
                match mem::replace(&mut self.line, Line::Empty(far)) {
                    Line::OneBeside(_, first, rest) => {
                        self.line = Line::EmptyBeside(far, rest);
                        Some(first)
                    }
                    _ => None,
                }
            }
            Line::One(far, _) => {
                let far = *far;
                match mem::replace(&mut self.line, Line::Empty(far)) {
                    Line::One(_, first) => Some(first),
                    _ => None,
                }
            }
            _ => None,
        }
    }

    /// The first message goes to the end.
    pub fn requeue(&mut self)
        ensures queue { self.new.queue ≡ requeued self.old.queue }
        ensures far { self.new.far ≡ self.old.far }
    {
        if let Line::OneBeside(_, first, rest) = &mut self.line {
            if let Some(second) = rest.pop_front() {
                rest.push_back_reserved(mem::replace(first, second));
            }
        }
    }
}
