//! Reactions made ready: what an answer does, by numbers, so that no event reads its text again.
ghost use Rattle.own_book.specs.Answer.{IsReadable, are_kinds, said_by};
ghost use Rattle.own_book.specs.Entry.{Entry};
ghost use Rattle.own_rules.specs.Ready.{AnswersSo, AreReady, IsReady, price};
ghost use Rattle.std.specs.Option.{option_map};
ghost use Rattle.std.specs.Prelude.{IfOk, IfSome, Some, slice_get, true, ◌-◌, ◌≡◌, ◌≤◌};

use crate::deed::reaction_fault;
use crate::node::{Allowance, Message};
use crate::places::{asked_for, lookup_at};
use crate::texts::Texts;
use own_book::answer::{Answer, read_answer};
use own_book::book::Book;
use std::alloc::{AllocError, Global};

/// What a reaction does on each node that has so many ports at least, and can pay for it.
#[derive(Drop)]
pub(crate) struct Ready {
    pub ports: u32,
    pub after: usize,
    pub waits: bool,
    pub sends: Vec<(u32, Message)>,
}

impl Ready {
    /// What a node with this allowance pays for it.
    pub(crate) fn price(&self, left: Allowance) -> u64
        ensures { result ≡ price left self.now }
    {
        let sent = self.sends.len() as u64;
        if self.waits && left.deferrals {
            sent + 1
        } else {
            sent
        }
    }

    /// What is left of an allowance that pays for it.
    pub(crate) fn paid_from(&self, left: Allowance) -> Allowance
        requires { price left self.now ≤ left.messages }
        ensures { result ≡ record left { messages = left.messages - price left self.now } }
    {
        Allowance {
            messages: left.messages - self.price(left) as u32,
            ..left
        }
    }
}

/// What each answer of a book does, where it is ready. Refusal: out of memory.
pub(crate) fn ready_of(
    alloc: Global,
    kinds: &[u8],
    texts: &Texts,
    book: &Book,
) -> Result<Vec<Option<Ready>>, AllocError>
    requires { are_kinds kinds.now ≡ true }
    ensures { IfOk result (λ all. AreReady texts.now kinds.now book.now all.items) }
{
    let mut all = Vec::new(alloc);
    for index in 0..book.len() {
        all.push(ready_at(alloc, kinds, texts, book, index)?)?;
    }
    Ok(all)
}

/// What the answer at a place does, where it is ready. Refusal: out of memory.
fn ready_at(
    alloc: Global,
    kinds: &[u8],
    texts: &Texts,
    book: &Book,
    index: usize,
) -> Result<Option<Ready>, AllocError>
    requires { are_kinds kinds.now ≡ true }
    ensures { IfOk result (λ it. IfSome it (λ ready. (e : Entry) → slice_get book.now index ≡ Some e → AnswersSo texts.now kinds.now e ready)) }
{
    let Some((_, answer)) = book.entry(index) else {
        return Ok(None);
    };
    let Some(lookup) = lookup_at(texts, book, index) else {
        return Ok(None);
    };
    ready_by(alloc, kinds, texts, read_answer(asked_for(lookup), answer))
}

/// What an answer does, if it is a reaction without a fault. Refusal: out of memory.
fn ready_by(
    alloc: Global,
    kinds: &[u8],
    texts: &Texts,
    answer: Option<Answer>,
) -> Result<Option<Ready>, AllocError>
    requires kinds { are_kinds kinds.now ≡ true }
    requires answer { IfSome answer IsReadable }
    ensures { IfOk result (λ it. IfSome it (IsReady texts.now kinds.now (option_map said_by answer.entry))) }
{
    let Some(answer) = answer else {
        return Ok(None);
    };
    let Answer::Reaction {
        state,
        waits,
        sends,
    } = answer
    else {
        return Ok(None);
    };
    let numbered = texts.numbered(alloc, sends)?;
    let ports = ports_in(numbered.as_slice());
    if reaction_fault(kinds, ports, state, sends).is_some() {
        return Ok(None);
    }
    Ok(Some(Ready {
        ports,
        after: texts.number(state),
        waits,
        sends: numbered,
    }))
}

/// One more than the greatest port, as far as that has 32 bits.
fn ports_in(sends: &[(u32, Message)]) -> u32 {
    let mut ports = 0;
    for (port, _) in sends {
        ports = ports.max(port.saturating_add(1));
    }
    ports
}
