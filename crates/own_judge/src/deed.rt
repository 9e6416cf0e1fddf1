//! What a node does with its work, and whether two nodes do the same.
ghost use Rattle.own_book.specs.Sends.{Sending};
ghost use Rattle.own_book.specs.Answer.{are_sends};
ghost use Rattle.own_judge.specs.Deed.{agree, deed_in, deed_of, is_deferred, is_same, same_sends, spelled};
ghost use Rattle.std.specs.Prelude.{◌≡◌, IfOk, map, true};

use crate::question::spelled;
use ghs_node::delta::{Delta, Fate};
use ghs_node::message::Message;
use own_book::sends::{Posted, posts_of, same_at_ports};
use own_book::variables::says_halted;
use std::alloc::{AllocError, Global};
use std::marker::Model;

/// What a node does: whether it defers the message, what it sends in order, and whether it halts.
#[derive(Drop)]
pub struct Deed {
    waits: bool,
    sends: Vec<Posted>,
    halts: bool,
}

impl Model for Deed {
    ghost use Rattle.own_judge.specs.Deed.{DeedState};

    ghost Value = { DeedState };

    ghost view = { λ d. record { waits = d.waits; sends = d.sends.items; halts = d.halts } };
}

impl Deed {
    /// What the proved node does. Refusal: out of memory.
    pub fn of_delta(alloc: Global, delta: &Delta) -> Result<Deed, AllocError>
        ensures { IfOk result (λ deed. deed ≡ deed_of delta.now) }
    {
        Ok(Deed {
            waits: is_deferred(delta.fate),
            sends: posted(alloc, delta.sends.as_slice())?,
            halts: delta.halts,
        })
    }

    /// What an answer does, whose node was in the state `before` and is then in the state `after`. Refusal: out of memory.
    ///
    /// ```text
    /// let deed = Deed::of_answer(alloc, b"halted=no", b"halted=yes", false, b"0>accept")?;
    /// // it sends accept at port 0, and halts
    /// ```
    pub fn of_answer(
        alloc: Global,
        before: &[u8],
        after: &[u8],
        waits: bool,
        sends: &[u8],
    ) -> Result<Deed, AllocError>
        requires { are_sends sends.now ≡ true }
        ensures { IfOk result (λ deed. deed ≡ deed_in before.now after.now waits sends.now) }
    {
        Ok(Deed {
            waits,
            sends: posts_of(alloc, sends)?,
            halts: says_halted(after) && !says_halted(before),
        })
    }

    /// Whether the node defers the message.
    pub fn waits(&self) -> bool
        ensures { result ≡ self.now.waits }
    {
        self.waits
    }

    /// What it sends, in order.
    pub fn sends(&self) -> &[Posted]
        ensures { result.now ≡ self.now.sends }
    {
        self.sends.as_slice()
    }

    /// Whether it halts.
    pub fn halts(&self) -> bool
        ensures { result ≡ self.now.halts }
    {
        self.halts
    }
}

/// Whether both do the same; the order among ports is free. Refusal: out of memory.
pub fn agree(one: Deed, other: Deed) -> Result<bool, AllocError>
    ensures { IfOk result (λ same. same ≡ agree one other) }
{
    if one.waits != other.waits || one.halts != other.halts {
        return Ok(false);
    }
    send_the_same(one.sends, other.sends)
}

/// Whether the same goes out at each port.
fn send_the_same(one: Vec<Posted>, other: Vec<Posted>) -> Result<bool, AllocError>
    ensures { IfOk result (λ same. same ≡ same_sends one.items other.items) }
{
    same_at_ports(one, other)
}

fn is_deferred(fate: Fate) -> bool
    ensures { result ≡ is_deferred fate }
{
    match fate {
        Fate::Consumed => false,
        Fate::Requeued => true,
    }
}

/// Messages with their ports, as answers spell them.
fn posted(alloc: Global, sends: &[(u32, Message)]) -> Result<Vec<Posted>, AllocError>
    ensures { IfOk result (λ list. list.items ≡ map spelled sends.now) }
{
    let mut list = Vec::with_capacity(alloc, sends.len())?;
    for (port, message) in sends {
        list.push(Posted::new(*port, spelled(alloc, message)?))?;
    }
    Ok(list)
}
