//! The words of Gather.
ghost use Rattle.std.specs.Prelude.{◌≡◌, ◌++◌, IfOk};
ghost use Rattle.gather.specs.Words.{has_brought, kind_word, links_said, mark_of, phase_word, state_variables, touched_of, wave_number, wave_said, wave_variables};

use crate::protocol::Gather;
use crate::row_name::{row_of, row_word};
use bumpalo::Bump;
use gather_node::change::Change;
use gather_node::head::Head;
use gather_node::links::Links;
use gather_node::message::Message;
use gather_node::node::Node;
use peer_machine::work::Work;
use peer_words::fixed_words::FixedWords;
use peer_words::spoken::{Spoken, Touched};
use peer_words::value::{Links as Keys, Said, Saying, Value, Word};
use std::alloc::{AllocError, Global};

impl<'r> Spoken for Gather<'r> {
    ghost use Rattle.std.specs.Prelude.{◌≡◌};
    ghost use Rattle.gather.specs.Words.{words as all_words, touched_by};
    ghost use Rattle.gather.specs.Kept.{keeps, named};

    ghost words = { all_words };

    ghost touched = { touched_by };

    fn name() -> Word<'static>
        ensures { result ≡ all_words.name }
    {
        Word::of(b"gather")
    }

    fn says<'s>(
        alloc: Global,
        _lists: &'s &'r Bump,
        message: &Message<'r>,
    ) -> Result<Saying<'s>, AllocError> {
        match message {
            Message::Explore(wave) => Saying::bare(alloc, b"explore").with(wave_said(*wave)),
            Message::Back(wave, links) => Saying::bare(alloc, b"back")
                .with(wave_said(*wave))?
                .with(links_said(links)),
            Message::Tree(links) => Saying::bare(alloc, b"tree").with(links_said(links)),
        }
    }

    fn kind_name<'s>(_lists: &'s &'r Bump, kind: usize) -> Word<'s> {
        Gather::fixed_kind_name(kind)
    }

    fn row<'s>(_lists: &'s &'r Bump, node: &Node<'r>, work: &Work<Message<'r>>) -> Word<'s> {
        Gather::fixed_row(node, work)
    }

    fn put_variables<'s>(
        list: &mut Vec<Said<'s>>,
        _lists: &'s &'r Bump,
        node: &Node<'r>,
    ) -> Result<(), AllocError> {
        put_wave(list, node.head())?;
        put_state(list, node.head())
    }

    fn mark<'s>(_lists: &'s &'r Bump, node: &Node<'r>, port: u32) -> Word<'s> {
        mark_of(node, port)
    }

    fn touches(change: &Change<'r>) -> Touched {
        touched_of(change.forgets, &change.brought, &change.tree)
    }

    ghost names_kinds = { named };

    ghost keeps_marks = { keeps };
}

impl<'r> FixedWords for Gather<'r> {
    ghost use Rattle.std.specs.Prelude.{◌≡◌, ◌<◌};
    ghost use Rattle.gather_node.specs.Gather.{gather};
    ghost use Rattle.gather.specs.Words.{words as all_words};

    fn fixed_kind_name(kind: usize) -> Word<'static>
        requires { kind < gather.kinds }
        ensures { result ≡ all_words.kind kind }
    {
        kind_word(kind)
    }

    fn fixed_row(node: &Node<'r>, work: &Work<Message<'r>>) -> Word<'static> {
        row_word(row_of(node, work))
    }
}

fn kind_word(kind: usize) -> Word<'static>
    ensures { result ≡ kind_word kind }
{
    if kind == 0 {
        Word::of(b"explore")
    } else if kind == 1 {
        Word::of(b"back")
    } else {
        Word::of(b"tree")
    }
}

/// The wave of a message.
fn wave_said(wave: u32) -> Said<'static>
    ensures { result ≡ wave_said wave }
{
    Said::new(b"wave", Value::Number(u64::from(wave)))
}

/// The links of a message.
fn links_said<'r>(links: &Links<'r>) -> Said<'r>
    ensures { result ≡ links_said links.now }
{
    Said::new(b"links", Value::Links(Keys::of(links.as_slice())))
}

/// The node's phase, its wave, and where that came from.
fn put_wave<'s>(list: &mut Vec<Said<'s>>, head: &Head) -> Result<(), AllocError>
    ensures { IfOk result (λ _. list.new.items ≡ list.old.items ++ wave_variables head.now) }
{
    list.push(Said::new(b"phase", Value::Word(phase_of(head))))?;
    list.push(Said::new(b"wave", Value::Number(u64::from(wave_number(head.wave)))))?;
    list.push(Said::new(b"parent", Value::Port(head.parent)))?;
    Ok(())
}

/// How many answers it awaits, and whether it has halted.
fn put_state<'s>(list: &mut Vec<Said<'s>>, head: &Head) -> Result<(), AllocError>
    ensures { IfOk result (λ _. list.new.items ≡ list.old.items ++ state_variables head.now) }
{
    list.push(Said::new(b"awaits", Value::Number(u64::from(head.awaits))))?;
    list.push(Said::new(b"halted", Value::Flag(head.halted)))?;
    Ok(())
}

/// Whether a node sleeps, awaits answers, or awaits none.
fn phase_of(head: &Head) -> Word<'static>
    ensures { result ≡ phase_word head.now }
{
    if head.wave.is_none() {
        Word::of(b"sleeping")
    } else if head.awaits == 0 {
        Word::of(b"answered")
    } else {
        Word::of(b"asking")
    }
}

/// The number of a wave; 0 where there is none, as nodes count from 1.
fn wave_number(wave: Option<u32>) -> u32
    ensures { result ≡ wave_number wave }
{
    match wave {
        Some(wave) => wave,
        None => 0,
    }
}

/// What a node knows of one of its ports.
fn mark_of<'r>(node: &Node<'r>, port: u32) -> Word<'static>
    ensures { result ≡ mark_of node.now port }
{
    if node.is_branch(port) {
        Word::of(b"branch")
    } else if has_brought(node.brought(), port) {
        Word::of(b"child")
    } else {
        Word::of(b"basic")
    }
}

/// Whether links have come at a port.
fn has_brought<'r>(brought: &[Option<Links<'r>>], port: u32) -> bool
    ensures { result ≡ has_brought brought.now port }
{
    (port as usize) < brought.len() && brought[port as usize].is_some()
}

/// The ports that are touched where a node forgets all, where links come at one, and where it marks its links of the tree.
fn touched_of<'r>(
    forgets: bool,
    brought: &Option<(u32, Links<'r>)>,
    tree: &Option<Links<'r>>,
) -> Touched
    ensures { result ≡ touched_of forgets brought.now tree.now }
{
    match (forgets, brought, tree) {
        (true, _, _) => Touched::AllPorts,
        (false, _, Some(_)) => Touched::AllPorts,
        (false, Some((port, _)), None) => Touched::OnePort(*port),
        (false, None, None) => Touched::NoPort,
    }
}
