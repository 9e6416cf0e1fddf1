//! The steps of a stored run by a book.
ghost use Rattle.own_rules.specs.Rules.{rules_of};
ghost use Rattle.own_rules.specs.Words.{words_of};
ghost use Rattle.own_rules.specs.declared.protocol.TheConstants.{RUNNING};
ghost use Rattle.peer_machine.specs.Run.{IsRunUnder};
ghost use Rattle.peer_network.specs.Network.{network_of};
ghost use Rattle.peer_network.specs.Wakes.{may_wake};
ghost use Rattle.peer_steps.specs.Lines.{lines};
ghost use Rattle.peer_steps.specs.Shown.{CantShow, is_unlawful, is_write};
ghost use Rattle.std.specs.Io.KnownBytes.{Appends};
ghost use Rattle.std.specs.Prelude.{IfErr, MatchResult, OnOk, false, true, ◌≡◌};

use ghs_choices::choice::Choice;
use ghs_choices::form::Form;
use ghs_gr::device::Sink;
use ghs_graph::graph::Graph;
use own_rules::protocol::{Chosen, Playing, RUNNING, Told};
use own_rules::rulebook::Rulebook;
use peer_network::event::Event;
use peer_network::wake_set::WakeSet;
use peer_steps::fault::StepsFault;
use peer_steps::show::write_steps;
use std::alloc::Global;
use std::marker::Brand;

/// Writes a line for each chosen event of a stored run by a book, in order, as `write_steps` does by the rules of a protocol.
/// Refusals: the first event that isn't lawful, before a byte goes out; out of memory; a write that fails.
///
/// ```text
/// let all = Choice { from: 1, to: u64::MAX, node: None };
/// write_steps_book(alloc, &rules, graph, WakeSet::First, &events, &all, Form::Text, &mut out)?;
/// // where node 1 wakes and pings node 2 the run may begin with `1 1 - - wake goes_on - a=1;asleep=- 0>2:ping(1) 1`
/// ```
pub fn write_steps_book<W: Sink>(
    alloc: Global,
    rules: &Rulebook,
    graph: Graph,
    wake: WakeSet,
    events: &[Event],
    choice: &Choice,
    form: Form,
    writer: &mut W,
) -> Result<(), StepsFault>
    requires sound { W.has_failed writer.old ≡ false }
    ensures run { OnOk result (IsRunUnder (rules_of rules.now RUNNING) (may_wake graph wake) (network_of graph) events.now) }
    ensures ok { OnOk result (Appends (W.held writer.old) (W.held writer.new) (lines (rules_of rules.now RUNNING) (words_of rules.now) form graph choice.now events.now)) }
    ensures err { IfErr result (λ fault. CantShow (rules_of rules.now RUNNING) graph wake events.now (lines (rules_of rules.now RUNNING) (words_of rules.now) form graph choice.now events.now) (W.held writer.old) (W.held writer.new) fault) }
    ensures unlawful { IfErr result (λ fault. is_unlawful fault ≡ true → writer.new ≡ writer.old) }
    ensures failed { MatchResult result (λ _. W.has_failed writer.new ≡ false) (λ fault. W.has_failed writer.new ≡ is_write fault) }
{
    steps_by::<Brand, W>(alloc, rules, graph, wake, events, choice, form, writer)
}

/// The same, by the book that a type names.
fn steps_by<'a, J: Chosen, W: Sink>(
    alloc: Global,
    rules: &'a Rulebook,
    graph: Graph,
    wake: WakeSet,
    events: &[Event],
    choice: &Choice,
    form: Form,
    writer: &mut W,
) -> Result<(), StepsFault>
    requires book { rules.now ≡ J.book }
    requires most { RUNNING ≡ J.most }
    requires sound { W.has_failed writer.old ≡ false }
    ensures run { OnOk result (IsRunUnder (rules_of J.book J.most) (may_wake graph wake) (network_of graph) events.now) }
    ensures ok { OnOk result (Appends (W.held writer.old) (W.held writer.new) (lines (rules_of J.book J.most) (words_of J.book) form graph choice.now events.now)) }
    ensures err { IfErr result (λ fault. CantShow (rules_of J.book J.most) graph wake events.now (lines (rules_of J.book J.most) (words_of J.book) form graph choice.now events.now) (W.held writer.old) (W.held writer.new) fault) }
    ensures unlawful { IfErr result (λ fault. is_unlawful fault ≡ true → writer.new ≡ writer.old) }
    ensures failed { MatchResult result (λ _. W.has_failed writer.new ≡ false) (λ fault. W.has_failed writer.new ≡ is_write fault) }
{
    let playing = Playing {
        rules,
        most: RUNNING,
    };
    write_steps::<Told<'a, J>, W>(alloc, playing, graph, wake, events, choice, form, writer)
}
