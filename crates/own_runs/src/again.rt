//! Stored runs by a book, played again.
ghost use Rattle.own_rules.specs.Run.{IsTold, IsToldBy};
ghost use Rattle.own_runs.specs.Again.{IsReplayBy, IsReplayOf, may_go_on};
ghost use Rattle.own_rules.specs.Rules.{rules_of};
ghost use Rattle.own_rules.specs.declared.protocol.TheConstants.{RUNNING};
ghost use Rattle.peer_machine.specs.Run.{IsRunUnder};
ghost use Rattle.peer_net.specs.NetState.{network};
ghost use Rattle.peer_network.specs.Network.{network_of};
ghost use Rattle.peer_network.specs.Wakes.{may_wake};
ghost use Rattle.peer_runs.specs.Replays.{CantReplay};
ghost use Rattle.peer_runs.specs.WorldState.{ready_events, wakers};
ghost use Rattle.peer_schedule.specs.declared.fault.ReplayFault.TheVariants.{Memory};
ghost use Rattle.std.specs.Prelude.{IfErr, IfOk, ◌≡◌};

use ghs_choices::check::Check;
use ghs_graph::graph::Graph;
use own_rules::node::Node;
use own_rules::protocol::{Chosen, Playing, RUNNING, Told};
use own_rules::rulebook::Rulebook;
use own_rules::run::{BookRun, ran};
use peer_machine::protocol::Protocol;
use peer_network::event::Event;
use peer_network::wake_set::WakeSet;
use peer_runs::replay::replay;
use peer_runs::world::World;
use peer_schedule::fault::ReplayFault;
use peer_words::spoken::Spoken;
use std::alloc::{AllocError, Global};
use std::marker::Brand;

/// The run of stored events by a book, played again, and what is told of it and of its end by a check; `at_limit` says whether an
/// event may still happen.
/// Each node sends and defers as many messages as `RUNNING` allows. Refusals: the first event that isn't lawful where it stands,
/// counted from 1; out of memory, before or behind it.
///
/// ```text
/// let ran = run_book(alloc, &rules, graph, WakeSet::All, 7, 1 << 40)?;
/// let again = replay_book(alloc, &rules, same_graph, WakeSet::All, &ran.events, None)?;
/// // again.events are these events, and what is told of them is the same
/// ```
pub fn replay_book(
    alloc: Global,
    rules: &Rulebook,
    graph: Graph,
    wake: WakeSet,
    events: &[Event],
    check: Option<Check>,
) -> Result<BookRun, ReplayFault>
    ensures run { IfOk result (IsReplayBy rules.now RUNNING graph wake events.now) }
    ensures told { IfOk result (IsToldBy rules.now RUNNING check graph) }
    ensures fault { IfErr result (CantReplay (rules_of rules.now RUNNING) graph wake events.now) }
    ensures lawful { IsRunUnder (rules_of rules.now RUNNING) (may_wake graph wake) (network_of graph) events.now → IfErr result (λ fault. fault ≡ Memory) }
{
    replay_by::<Brand>(alloc, rules, graph, wake, events, check)
}

/// The same, by the book that a type names.
fn replay_by<'a, J: Chosen>(
    alloc: Global,
    rules: &'a Rulebook,
    graph: Graph,
    wake: WakeSet,
    events: &[Event],
    check: Option<Check>,
) -> Result<BookRun, ReplayFault>
    requires book { rules.now ≡ J.book }
    requires most { RUNNING ≡ J.most }
    ensures run { IfOk result (IsReplayBy J.book J.most graph wake events.now) }
    ensures told { IfOk result (IsToldBy J.book J.most check graph) }
    ensures fault { IfErr result (CantReplay (rules_of J.book J.most) graph wake events.now) }
    ensures lawful { IsRunUnder (rules_of J.book J.most) (may_wake graph wake) (network_of graph) events.now → IfErr result (λ fault. fault ≡ Memory) }
{
    let playing = Playing {
        rules,
        most: RUNNING,
    };
    replay_under::<Told<'a, J>>(alloc, playing, rules, graph, wake, events, check)
}

/// The same, by any protocol.
fn replay_under<P: Spoken + Protocol<Node = Node>>(
    alloc: Global,
    setting: P::Setting,
    rules: &Rulebook,
    graph: Graph,
    wake: WakeSet,
    events: &[Event],
    check: Option<Check>,
) -> Result<BookRun, ReplayFault>
    requires { P.goes_by setting }
    ensures run { IfOk result (IsReplayOf P.rules graph wake events.now) }
    ensures told { IfOk result (IsTold P.rules P.words.kind P.bound rules.now check graph) }
    ensures fault { IfErr result (CantReplay P.rules graph wake events.now) }
    ensures lawful { IsRunUnder P.rules (may_wake graph wake) (network_of graph) events.now → IfErr result (λ fault. fault ≡ Memory) }
{
    match replay::<P>(alloc, setting, graph, wake, events) {
        Ok(world) => match so_far(alloc, rules, &world, check) {
            Ok(ran) => Ok(ran),
            Err(_) => Err(ReplayFault::Memory),
        },
        Err((_, fault)) => Err(fault),
    }
}

/// What has happened in a world, what is told of it, and whether an event may still happen. Refusal: out of memory.
fn so_far<P: Spoken + Protocol<Node = Node>>(
    alloc: Global,
    rules: &Rulebook,
    world: &World<P>,
    check: Option<Check>,
) -> Result<BookRun, AllocError>
    ensures run { IfOk result (λ ran. (ran.events.items ≡ world.now.net.trace) × IsRunUnder P.rules (wakers world.now) (network world.now.net) ran.events.items) }
    ensures stands { IfOk result (λ ran. ran.at_limit ≡ may_go_on (ready_events P.rules world.now)) }
    ensures told { IfOk result (IsTold P.rules P.words.kind P.bound rules.now check world.now.net.graph) }
{
    ran(alloc, rules, world, world.ready_count() > 0, check)
}
