//! How long a run by a book is.
ghost use Rattle.own_rules.specs.Rules.{rules_of};
ghost use Rattle.own_rules.specs.declared.protocol.TheConstants.{RUNNING};
ghost use Rattle.peer_lengths.specs.Lengths.{AreLengths};
ghost use Rattle.peer_machine.specs.Run.{IsRun};
ghost use Rattle.peer_network.specs.Network.{network_of};
ghost use Rattle.std.specs.Prelude.{IfOk, ◌≡◌};

use ghs_graph::graph::Graph;
use own_rules::protocol::{Chosen, Playing, RUNNING, Told};
use own_rules::rulebook::Rulebook;
use peer_lengths::lengths::{Lengths, lengths_of};
use peer_network::event::Event;
use std::alloc::{AllocError, Global};
use std::marker::Brand;

/// How long the run of these events by a book is: its longest chain, its bits and its longest message, where each value of a
/// message has the bits that the greeting's types say. The events are played once more. Refusal: out of memory.
///
/// ```text
/// let ran = run_book(alloc, &rules, graph, WakeSet::All, 7, 1 << 40)?;
/// let lengths = time_by_book(alloc, &rules, &same_graph, &ran.events)?;
/// // lengths.chain is 0 where no message was consumed, as in every run of an empty book
/// ```
pub fn time_by_book(
    alloc: Global,
    rules: &Rulebook,
    graph: &Graph,
    events: &[Event],
) -> Result<Lengths, AllocError>
    requires run { IsRun (rules_of rules.now RUNNING) (network_of graph.now) events.now }
    ensures { IfOk result (AreLengths (rules_of rules.now RUNNING) graph.now events.now) }
{
    time_by::<Brand>(alloc, rules, graph, events)
}

/// The same, by the book that a type names.
fn time_by<'a, J: Chosen>(
    alloc: Global,
    rules: &'a Rulebook,
    graph: &Graph,
    events: &[Event],
) -> Result<Lengths, AllocError>
    requires book { rules.now ≡ J.book }
    requires most { RUNNING ≡ J.most }
    requires run { IsRun (rules_of J.book J.most) (network_of graph.now) events.now }
    ensures { IfOk result (AreLengths (rules_of J.book J.most) graph.now events.now) }
{
    let playing = Playing {
        rules,
        most: RUNNING,
    };
    lengths_of::<Told<'a, J>>(alloc, playing, graph, events)
}
