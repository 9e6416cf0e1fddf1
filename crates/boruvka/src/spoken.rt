//! The words of Borůvka in step.
ghost use Rattle.std.specs.Prelude.{◌≡◌, ◌∷◌, ◌++◌, [], codes, Some, Option, IfOk};
ghost use Rattle.peer_words.specs.declared.value.Value.TheVariants as values;
ghost use Rattle.boruvka.specs.Words.{fragment_variables, kind_word, mark_word, phase_variables, phase_word, search_variables, touched_of};

use crate::protocol::Boruvka;
use crate::row_name::{row_of, row_word};
use boruvka_node::change::{Change, Entry};
use boruvka_node::mark::Mark;
use boruvka_node::message::{Message, Phase};
use boruvka_node::node::Node;
use boruvka_node::port_state::PortState;
use ghs_graph::key::Key;
use ghs_node::level::Level;
use peer_machine::work::Work;
use peer_words::fixed_words::FixedWords;
use peer_words::spoken::{Spoken, Touched};
use peer_words::value::{Said, Saying, Value, Word};
use std::alloc::{AllocError, Global};

impl Spoken for Boruvka {
    ghost use Rattle.boruvka.specs.Words.{words as all_words, touched_by};
    ghost use Rattle.boruvka.specs.Kept.{keeps, named};

    ghost words = { all_words };

    ghost touched = { touched_by };

    fn name() -> Word<'static> {
        Word::of(b"boruvka")
    }

    fn says<'s>(
        alloc: Global,
        _setting: &'s (),
        message: &Message,
    ) -> Result<Saying<'s>, AllocError> {
        match message {
            Message::Connect(level) => Saying::bare(alloc, b"connect").with(level_said(*level)),
            Message::Initiate(level, name) => Saying::bare(alloc, b"initiate")
                .with(level_said(*level))?
                .with(key_said(Some(*name))),
            Message::Name(level, name) => Saying::bare(alloc, b"name")
                .with(level_said(*level))?
                .with(key_said(Some(*name))),
            Message::Report(key) => Saying::bare(alloc, b"report").with(key_said(*key)),
            Message::ChangeRoot => Ok(Saying::bare(alloc, b"changeroot")),
        }
    }

    fn kind_name<'s>(_setting: &'s (), kind: usize) -> Word<'s> {
        Boruvka::fixed_kind_name(kind)
    }

    fn row<'s>(_setting: &'s (), node: &Node, work: &Work<Message>) -> Word<'s> {
        Boruvka::fixed_row(node, work)
    }

    fn put_variables<'s>(
        list: &mut Vec<Said<'s>>,
        _setting: &'s (),
        node: &Node,
    ) -> Result<(), AllocError> {
        put_fragment(list, node)?;
        put_phase(list, node)?;
        put_search(list, node)
    }

    fn mark<'s>(_setting: &'s (), node: &Node, port: u32) -> Word<'s> {
        mark_word(node.port(port).mark)
    }

    fn touches(change: &Change) -> Touched {
        touched_of(&change.port, &change.entry)
    }

    ghost names_kinds = { named };

    ghost keeps_marks = { keeps };
}

impl FixedWords for Boruvka {
    fn fixed_kind_name(kind: usize) -> Word<'static> {
        kind_word(kind)
    }

    fn fixed_row(node: &Node, work: &Work<Message>) -> Word<'static> {
        row_word(row_of(node, work))
    }
}

fn kind_word(kind: usize) -> Word<'static>
    ensures { result ≡ kind_word kind }
{
    if kind == 0 {
        Word::of(b"connect")
    } else if kind == 1 {
        Word::of(b"initiate")
    } else if kind == 2 {
        Word::of(b"name")
    } else if kind == 3 {
        Word::of(b"report")
    } else {
        Word::of(b"changeroot")
    }
}

/// A level that a message carries.
fn level_said(level: Level) -> Said<'static>
    ensures { result ≡ record { name = codes "level"; value = values.Number level } }
{
    Said::new(b"level", Value::Number(u64::from(level.get())))
}

/// A key that it carries.
fn key_said(key: Option<Key>) -> Said<'static>
    ensures { result ≡ record { name = codes "key"; value = values.Link key } }
{
    Said::new(b"key", Value::Link(key))
}

/// What a node knows of its fragment.
fn put_fragment<'s>(list: &mut Vec<Said<'s>>, node: &Node) -> Result<(), AllocError>
    ensures { IfOk result (λ _. list.new.items ≡ list.old.items ++ fragment_variables node.now.head) }
{
    let head = node.head();
    list.push(Said::new(b"level", Value::Number(u64::from(head.level.get()))))?;
    list.push(Said::new(b"name", Value::Link(head.name)))?;
    Ok(())
}

/// Its phase, and its way to the root.
fn put_phase<'s>(list: &mut Vec<Said<'s>>, node: &Node) -> Result<(), AllocError>
    ensures { IfOk result (λ _. list.new.items ≡ list.old.items ++ phase_variables node.now.head) }
{
    let head = node.head();
    list.push(Said::new(b"phase", Value::Word(phase_word(head.phase))))?;
    list.push(Said::new(b"parent", Value::Port(head.parent)))?;
    Ok(())
}

/// The best link, the port of its Connect, and whether it has halted.
fn put_search<'s>(list: &mut Vec<Said<'s>>, node: &Node) -> Result<(), AllocError>
    ensures { IfOk result (λ _. list.new.items ≡ list.old.items ++ search_variables node.now.head) }
{
    let head = node.head();
    list.push(Said::new(b"best", Value::Best(head.best)))?;
    list.push(Said::new(b"out", Value::Port(head.out)))?;
    list.push(Said::new(b"halted", Value::Flag(head.halted)))?;
    Ok(())
}

fn phase_word(phase: Phase) -> Word<'static>
    ensures { result ≡ phase_word phase }
{
    match phase {
        Phase::Sleeping => Word::of(b"sleeping"),
        Phase::Search => Word::of(b"search"),
        Phase::Rest => Word::of(b"rest"),
    }
}

fn mark_word(mark: Mark) -> Word<'static>
    ensures { result ≡ mark_word mark }
{
    match mark {
        Mark::Basic => Word::of(b"basic"),
        Mark::Asked => Word::of(b"asked"),
        Mark::Branch => Word::of(b"branch"),
        Mark::Inside => Word::of(b"inside"),
    }
}

/// The ports that are touched where one changes by itself, and the node may enter a fragment.
fn touched_of(port: &Option<(u32, PortState)>, entry: &Option<Entry>) -> Touched
    ensures { result ≡ touched_of port.now entry.now }
{
    match (port, entry) {
        (_, Some(_)) => Touched::AllPorts,
        (Some((port, _)), None) => Touched::OnePort(*port),
        (None, None) => Touched::NoPort,
    }
}
