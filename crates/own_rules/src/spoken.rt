//! The words of a book.
ghost use Rattle.own_book.specs.Parts.{closed as closed_of, cut_at, parts_at};
ghost use Rattle.own_rules.specs.Done.{done_by};
ghost use Rattle.own_rules.specs.Words.{carried_in, fault_word, mark_at, mark_in, reason_word, row_at, says_text, value_among, value_if, variable_in, variables_at, variables_in, verdict_word, word_at, word_said};
ghost use Rattle.std.specs.Prelude.{IfNone, IfOk, IfSome, None, Some, codes, slice_get, unwrap_or, ◌++◌, ◌≡◌, ◌∷◌, []};

use crate::deed::Done;
use crate::node::{Message, Node, Reason, State};
use crate::protocol::{Chosen, Playing, Told, lookup_at};
use crate::rulebook::Rulebook;
use own_book::answer_fault::AnswerFault;
use own_book::parts::cut;
use peer_machine::work::Work;
use peer_words::spoken::{Spoken, Touched};
use peer_words::value::{Said, Saying, Value, Word};
use std::alloc::{AllocError, Global};

impl<'a, J: Chosen> Spoken for Told<'a, J> {
    ghost use Rattle.own_rules.specs.Kept.{keeps, kinds_named};
    ghost use Rattle.own_rules.specs.Words.{touched_by, words_of};
    ghost use Rattle.std.specs.Prelude.{◌≡◌, codes};

    ghost words = { words_of J.book };

    ghost touched = { touched_by };

    fn name() -> Word<'static>
        ensures { result ≡ codes "own" }
    {
        Word::of(b"own")
    }

    fn says<'s>(
        alloc: Global,
        set: &'s Playing<'a>,
        message: &Message,
    ) -> Result<Saying<'s>, AllocError> {
        says(alloc, set.rules, set.rules.text(message.text))
    }

    fn kind_name<'s>(set: &'s Playing<'a>, kind: usize) -> Word<'s> {
        Word::of(set.rules.kind_name(kind))
    }

    fn row<'s>(set: &'s Playing<'a>, node: &Node, work: &Work<Message>) -> Word<'s> {
        row_of(set.rules, node, work)
    }

    fn put_variables<'s>(
        list: &mut Vec<Said<'s>>,
        set: &'s Playing<'a>,
        node: &Node,
    ) -> Result<(), AllocError> {
        put_variables(list, set.rules, &node.state)
    }

    fn mark<'s>(set: &'s Playing<'a>, node: &Node, port: u32) -> Word<'s> {
        Word::of(mark_of(set.rules, &node.state, port))
    }

    fn touches(_change: &State) -> Touched
        ensures { result ≡ touched_by _change.now }
    {
        Touched::AllPorts
    }

    ghost names_kinds = { kinds_named J.book };

    ghost keeps_marks = { keeps J.book };
}

/// A message with this text, in words. Refusal: out of memory.
fn says<'s>(alloc: Global, rules: &'s Rulebook, text: &'s [u8]) -> Result<Saying<'s>, AllocError>
    ensures { IfOk result (λ saying. saying ≡ says_text rules.now text.now) }
{
    let saying = Saying::bare(alloc, rules.kind_name(rules.kind_of(text)));
    match values(text) {
        Some(values) => saying.with(Said::new(b"values", Value::Word(Word::of(values)))),
        None => Ok(saying),
    }
}

/// What stands in the brackets of a message.
fn values(text: &[u8]) -> Option<&[u8]>
    ensures some { IfSome result (λ values. carried_in (cut_at 40 text.now) ≡ word_said (codes "values") values.now ∷ []) }
    ensures none { IfNone result (carried_in (cut_at 40 text.now) ≡ []) }
{
    let (_, rest) = cut(text, b'(')?;
    closed(rest)
}

/// What is in front of a `)` at the end; none where none is there.
pub(crate) fn closed(text: &[u8]) -> Option<&[u8]>
    ensures some { IfSome result (λ x. closed_of text.now ≡ Some x.now) }
    ensures none { IfNone result (closed_of text.now ≡ None) }
{
    let (last, front) = text.split_last()?;
    if *last == b')' { Some(front) } else { None }
}

/// What a book does with some work of a node.
fn row_of(rules: &Rulebook, node: &Node, work: &Work<Message>) -> Word<'static>
    ensures { result ≡ row_at rules.now node.now.number node.now.ports node.now.state work.now }
{
    match node.state {
        State::Runs {
            text,
            asleep: _,
            left,
        } => verdict_word(rules.done(node.ports, left, lookup_at(node.number, text, work))),
        State::Stopped(_) => Word::of(b"stopped"),
    }
}

fn verdict_word(done: Done) -> Word<'static>
    ensures { result ≡ verdict_word (done_by done.entry) }
{
    match done {
        Done::GoesOn {
            after: _,
            waits,
            sends: _,
            left: _,
        } => {
            if waits {
                Word::of(b"waits")
            } else {
                Word::of(b"goes_on")
            }
        }
        Done::Stops(_) => Word::of(b"stopped"),
    }
}

/// Appends the variables of a state. Refusal: out of memory.
fn put_variables<'s>(
    list: &mut Vec<Said<'s>>,
    rules: &'s Rulebook,
    state: &State,
) -> Result<(), AllocError>
    ensures { IfOk result (λ _. list.new.items ≡ list.old.items ++ variables_at rules.now state.now) }
{
    match state {
        State::Runs {
            text,
            asleep: _,
            left: _,
        } => put_parts(list, rules.text(*text)),
        State::Stopped(stop) => {
            let why = Value::Word(reason_word(stop.reason));
            list.push(Said::new(b"stopped", why))?;
            Ok(())
        }
    }
}

/// Appends the variables of a state's text. Refusal: out of memory.
fn put_parts<'s>(list: &mut Vec<Said<'s>>, text: &'s [u8]) -> Result<(), AllocError>
    ensures { IfOk result (λ _. list.new.items ≡ list.old.items ++ variables_in text.now) }
{
    let mut rest = text;
    while let Some((part, after)) = cut(rest, b';') {
        list.push(variable(part))?;
        rest = after;
    }
    list.push(variable(rest))?;
    Ok(())
}

/// A variable: `NAME=VALUE`.
fn variable(part: &[u8]) -> Said<'_>
    ensures { result ≡ variable_in part.now }
{
    match cut(part, b'=') {
        Some((name, value)) => Said::new(name, Value::Word(Word::of(value))),
        None => Said::new(part, Value::Word(Word::of(b""))),
    }
}

/// Why a node has stopped.
pub(crate) fn reason_word(reason: Reason) -> Word<'static>
    ensures { result ≡ reason_word reason }
{
    match reason {
        Reason::Unanswered => Word::of(b"UNANSWERED"),
        Reason::Fails(fault) => fault_word(fault),
        Reason::Spent => Word::of(b"SPENT"),
    }
}

fn fault_word(fault: AnswerFault) -> Word<'static>
    ensures { result ≡ fault_word fault }
{
    match fault {
        AnswerFault::GivesUp => Word::of(b"GIVES_UP"),
        AnswerFault::Garbled => Word::of(b"GARBLED"),
        AnswerFault::StillAsleep => Word::of(b"STILL_ASLEEP"),
        AnswerFault::NoPort => Word::of(b"NO_PORT"),
        AnswerFault::NoKind => Word::of(b"NO_KIND"),
    }
}

/// The mark of a port, by the variable `marks`. O(n) for a text of n bytes.
pub(crate) fn mark_of<'s>(rules: &'s Rulebook, state: &State, port: u32) -> &'s [u8]
    ensures { result.now ≡ mark_at rules.now state.now port }
{
    match state {
        State::Runs {
            text,
            asleep: _,
            left: _,
        } => mark_in(rules.text(*text), port),
        State::Stopped(_) => b"basic",
    }
}

fn mark_in(text: &[u8], port: u32) -> &[u8]
    ensures { result.now ≡ mark_in text.now port }
{
    match value_of(text, b"marks") {
        Some(marks) => word_at(marks, port),
        None => b"basic",
    }
}

/// The word of a port among marks.
fn word_at(marks: &[u8], port: u32) -> &[u8]
    ensures { result.now ≡ unwrap_or (word_at (Some marks.now) port) (codes "basic") }
{
    match part_at(marks, port) {
        Some(word) => word,
        None => b"basic",
    }
}

/// The part with this number, from 0 on, of a text that is cut at commas.
fn part_at(text: &[u8], number: u32) -> Option<&[u8]>
    ensures some { IfSome result (λ part. slice_get (parts_at 44 text.now) number ≡ Some part.now) }
    ensures none { IfNone result (slice_get (parts_at 44 text.now) number ≡ None) }
{
    let mut rest = text;
    let mut left = number;
    while let Some((part, after)) = cut(rest, b',') {
        if left == 0 {
            return Some(part);
        }
        left -= 1;
        rest = after;
    }
    if left == 0 { Some(rest) } else { None }
}

/// The value of the first variable of this name in a state's text.
fn value_of<'s>(text: &'s [u8], name: &[u8]) -> Option<&'s [u8]>
    ensures some { IfSome result (λ value. value_among name.now (parts_at 59 text.now) ≡ Some value.now) }
    ensures none { IfNone result (value_among name.now (parts_at 59 text.now) ≡ None) }
{
    let mut rest = text;
    while let Some((part, after)) = cut(rest, b';') {
        if let Some(value) = value_if(part, name) {
            return Some(value);
        }
        rest = after;
    }
    value_if(rest, name)
}

/// The value of a variable, if it has this name.
fn value_if<'s>(part: &'s [u8], name: &[u8]) -> Option<&'s [u8]>
    ensures some { IfSome result (λ value. value_if name.now (cut_at 61 part.now) ≡ Some value.now) }
    ensures none { IfNone result (value_if name.now (cut_at 61 part.now) ≡ None) }
{
    let (other, value) = cut(part, b'=')?;
    if other == name { Some(value) } else { None }
}
