//! What a node does by an answer of the book.
ghost use Rattle.own_book.specs.declared.answer_fault.AnswerFault.TheVariants as faults;
ghost use Rattle.own_book.specs.Answer.{IsReadable, are_kinds, are_sends, said_by, sends_in};
ghost use Rattle.own_rules.specs.Deed.{cost, deed_said as deed_of_saying, left_then, paid as paid_from, reaction_fault as fault_of_reaction};
ghost use Rattle.own_rules.specs.Done.{AreSends, done_by};
ghost use Rattle.std.specs.Option.{option_map};
ghost use Rattle.std.specs.Prelude.{IfSome, length, true, ◌≡◌};

use crate::node::{Allowance, Reason};
use own_book::answer::{Answer, next_sent};
use own_book::answer_fault::AnswerFault;
use own_book::sends::sends_fault;
use own_book::variables::says_asleep;

/// What a node does: it goes on in this state, and has then this allowance left; or it stops. Its texts are those of the
/// answer.
#[derive(Clone, Copy, Drop)]
pub(crate) enum Done<'a> {
    GoesOn {
        after: &'a [u8],
        waits: bool,
        sends: &'a [u8],
        left: Allowance,
    },
    Stops(Reason),
}

/// What a node of so many ports with this allowance does by an answer.
pub(crate) fn done_by_answer<'a>(
    kinds: &[u8],
    ports: u32,
    left: Allowance,
    answer: Option<Answer<'a>>,
) -> Done<'a>
    requires kinds { are_kinds kinds.now ≡ true }
    requires answer { IfSome answer IsReadable }
    ensures done { done_by result ≡ deed_of_saying kinds.now ports left (option_map said_by answer.entry) }
    ensures sends { AreSends result }
{
    match answer {
        Some(
            Answer::Reaction {
                state,
                waits,
                sends,
            },
        ) => match reaction_fault(kinds, ports, state, sends) {
            Some(fault) => Done::Stops(Reason::Fails(fault)),
            None => paid(left, state, waits, sends),
        },
        Some(Answer::GivesUp(_)) => Done::Stops(Reason::Fails(AnswerFault::GivesUp)),
        _ => Done::Stops(Reason::Fails(AnswerFault::Garbled)),
    }
}

/// Why a reaction is none of a node, if so.
pub(crate) fn reaction_fault(
    kinds: &[u8],
    ports: u32,
    after: &[u8],
    sends: &[u8],
) -> Option<AnswerFault>
    requires kinds { are_kinds kinds.now ≡ true }
    requires sends { are_sends sends.now ≡ true }
    ensures { result ≡ fault_of_reaction kinds.now ports after.now (sends_in sends.now) }
{
    if says_asleep(after) {
        return Some(AnswerFault::StillAsleep);
    }
    sends_fault(kinds, ports, sends)
}

/// A reaction without a fault.
fn paid<'a>(left: Allowance, after: &'a [u8], waits: bool, sends: &'a [u8]) -> Done<'a>
    requires { are_sends sends.now ≡ true }
    ensures done { done_by result ≡ paid_from left after.entry.now waits (sends_in sends.entry.now) }
    ensures sends { AreSends result }
{
    match left_then(left, waits, sends) {
        Some(left) => Done::GoesOn {
            after,
            waits,
            sends,
            left,
        },
        None => Done::Stops(Reason::Spent),
    }
}

/// The allowance of a node once it has sent these, and deferred a message or not; none where that goes beyond it.
fn left_then(left: Allowance, waits: bool, sends: &[u8]) -> Option<Allowance>
    requires { are_sends sends.now ≡ true }
    ensures { result ≡ left_then left (cost left waits (sends_in sends.now)) }
{
    if !(waits && left.deferrals) {
        return left_behind(left, sends);
    }
    if left.messages == 0 {
        return None;
    }
    let less = Allowance {
        messages: left.messages - 1,
        ..left
    };
    left_behind(less, sends)
}

/// The same once it has sent these.
fn left_behind(most: Allowance, sends: &[u8]) -> Option<Allowance>
    requires { are_sends sends.now ≡ true }
    ensures { result ≡ left_then most (length (sends_in sends.now)) }
{
    let mut left = most;
    let mut rest = sends;
    'sends: while let Some((_, after)) = next_sent(rest) {
        if left.messages == 0 {
            return None;
        }
        left.messages -= 1;
        rest = after;
    }
    Some(left)
}
