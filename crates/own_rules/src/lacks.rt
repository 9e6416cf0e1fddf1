//! The questions that a book lacks in several runs, each once.
ghost use Rattle.own_book.specs.Entry.{told_in};
ghost use Rattle.own_rules.specs.Lacks.{as_line, lack_of, lacks_of, lacks_text};
ghost use Rattle.own_rules.specs.Stops.{AreWithin, greeting_line};
ghost use Rattle.own_rules.specs.Texts.{noted};
ghost use Rattle.std.specs.List.{flat_map};
ghost use Rattle.std.specs.Prelude.{IfOk, OnOk, codes, fold, ◌++◌, ◌≡◌, ◌≤◌};

use crate::node::{Reason, Stop};
use crate::rulebook::Rulebook;
use crate::stops::{put_greeting, put_question};
use crate::texts::Texts;
use ghs_graph::graph::Graph;
use std::alloc::{AllocError, Global};

/// Notes the questions at which these nodes of the graph have stopped, where the book has no answer to them. Refusal: out of
/// memory.
///
/// ```text
/// let mut lacks = Texts::new(alloc);
/// note_lacks(&mut lacks, alloc, &rules, &graph, &stops)?;
/// // of a node 2 that has no answer when it takes a ping at its port 0: b"take 2 0 ping asleep=yes"
/// ```
pub fn note_lacks(
    lacks: &mut Texts,
    alloc: Global,
    rules: &Rulebook,
    graph: &Graph,
    stops: &[(u32, Stop)],
) -> Result<(), AllocError>
    requires { AreWithin graph.now.nodes stops.now }
    ensures { OnOk result (lacks.new ≡ fold noted lacks.old (lacks_of rules.now graph.now stops.now)) }
{
    for (node, stop) in stops {
        note_lack(lacks, alloc, rules, graph, *node, *stop)?;
    }
    Ok(())
}

/// Notes the question at which a node has stopped, where the book has no answer to it.
fn note_lack(
    lacks: &mut Texts,
    alloc: Global,
    rules: &Rulebook,
    graph: &Graph,
    node: u32,
    stop: Stop,
) -> Result<(), AllocError>
    requires low { 1 ≤ node }
    requires high { node ≤ graph.now.nodes }
    ensures { OnOk result (lacks.new ≡ fold noted lacks.old (lack_of rules.now graph.now (node, stop))) }
{
    match stop.reason {
        Reason::Unanswered => {
            let mut question = Vec::new(alloc);
            put_question(&mut question, rules, graph, node, stop.asked)?;
            lacks.note(alloc, &question)
        }
        Reason::Fails(_) => Ok(()),
        Reason::Spent => Ok(()),
    }
}

/// The question after the greeting, where the book doesn't answer it, and then these, one a line. Refusal: out of memory.
pub fn lacks_text(alloc: Global, rules: &Rulebook, lacks: &Texts) -> Result<Vec<u8>, AllocError>
    ensures { IfOk result (λ text. text.items ≡ lacks_text rules.now lacks.now) }
{
    let mut text = Vec::new(alloc);
    put_greeting(&mut text, rules)?;
    for k in 0..lacks.len() {
        put_line(&mut text, lacks.text(k))?;
    }
    Ok(text)
}

/// A line.
fn put_line(text: &mut Vec<u8>, line: &[u8]) -> Result<(), AllocError>
    ensures { IfOk result (λ _. text.new.items ≡ text.old.items ++ as_line line.now) }
{
    text.extend_from_slice(line)?;
    text.extend_from_slice(b"\n")
}
