//! The words of the echo wave.
ghost use Rattle.std.specs.Prelude.{◌≡◌, ◌++◌, IfOk};
ghost use Rattle.echo.specs.Echo.{echo};
ghost use Rattle.echo.specs.Words.{kind_word, mark_of, phase_word, state_variables, wave_variables};

use crate::node::{Change, Message, Node};
use crate::protocol::Echo;
use crate::row_name::{row_of, row_word};
use peer_machine::work::Work;
use peer_words::fixed_words::FixedWords;
use peer_words::spoken::{Spoken, Touched};
use peer_words::value::{Said, Saying, Value, Word};
use std::alloc::{AllocError, Global};

impl Spoken for Echo {
    ghost use Rattle.echo.specs.Words.{words as all_words, touched_by};
    ghost use Rattle.echo.specs.Kept.{keeps, named};

    ghost words = { all_words };

    ghost touched = { touched_by };

    fn name() -> Word<'static> {
        Word::of(b"echo")
    }

    fn says<'s>(
        alloc: Global,
        _setting: &'s (),
        message: &Message,
    ) -> Result<Saying<'s>, AllocError> {
        match message {
            Message::Explore => Ok(Saying::bare(alloc, b"explore")),
            Message::Echo => Ok(Saying::bare(alloc, b"echo")),
        }
    }

    fn kind_name<'s>(_setting: &'s (), kind: usize) -> Word<'s> {
        Echo::fixed_kind_name(kind)
    }

    fn row<'s>(_setting: &'s (), node: &Node, work: &Work<Message>) -> Word<'s> {
        Echo::fixed_row(node, work)
    }

    fn put_variables<'s>(
        list: &mut Vec<Said<'s>>,
        _setting: &'s (),
        node: &Node,
    ) -> Result<(), AllocError> {
        put_wave(list, node)?;
        put_state(list, node)
    }

    fn mark<'s>(_setting: &'s (), node: &Node, port: u32) -> Word<'s> {
        mark_of(node, port)
    }

    fn touches(change: &Change) -> Touched {
        match change {
            Change::Joins { .. } => Touched::AllPorts,
            Change::Awaits(_) => Touched::NoPort,
        }
    }

    ghost names_kinds = { named };

    ghost keeps_marks = { keeps };
}

impl FixedWords for Echo {
    fn fixed_kind_name(kind: usize) -> Word<'static> {
        kind_word(kind)
    }

    fn fixed_row(node: &Node, work: &Work<Message>) -> Word<'static> {
        row_word(row_of(node, work))
    }
}

fn kind_word(kind: usize) -> Word<'static>
    ensures { result ≡ kind_word kind }
{
    match kind {
        0 => Word::of(b"explore"),
        _ => Word::of(b"echo"),
    }
}

/// Whether a node takes part, and who asked it.
fn put_wave<'s>(list: &mut Vec<Said<'s>>, node: &Node) -> Result<(), AllocError>
    ensures { IfOk result (λ _. list.new.items ≡ list.old.items ++ wave_variables node.now) }
{
    list.push(Said::new(b"phase", Value::Word(phase_of(node))))?;
    list.push(Said::new(b"parent", Value::Port(node.head.parent)))?;
    Ok(())
}

/// Whether a node sleeps, awaits answers, or awaits none.
fn phase_of(node: &Node) -> Word<'static>
    ensures { result ≡ phase_word node.now }
{
    if !node.head.awake {
        Word::of(b"sleeping")
    } else if node.head.awaits == 0 {
        Word::of(b"answered")
    } else {
        Word::of(b"asking")
    }
}

/// How many answers it awaits, and whether it has halted.
fn put_state<'s>(list: &mut Vec<Said<'s>>, node: &Node) -> Result<(), AllocError>
    ensures { IfOk result (λ _. list.new.items ≡ list.old.items ++ state_variables node.now) }
{
    list.push(Said::new(b"awaits", Value::Number(u64::from(node.head.awaits))))?;
    list.push(Said::new(b"halted", Value::Flag(has_halted(node))))?;
    Ok(())
}

/// An initiator that awaits nothing has halted.
fn has_halted(node: &Node) -> bool
    ensures { result ≡ echo.has_halted node.now }
{
    node.head.awake && node.head.parent.is_none() && node.head.awaits == 0
}

/// What a node knows of one of its ports.
fn mark_of(node: &Node, port: u32) -> Word<'static>
    ensures { result ≡ mark_of node.now port }
{
    if !node.head.awake {
        Word::of(b"basic")
    } else if node.head.parent == Some(port) {
        Word::of(b"parent")
    } else {
        Word::of(b"asked")
    }
}
