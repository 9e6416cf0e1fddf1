//! The figures of a run by part.
ghost use Rattle.std.specs.Prelude.{◌≡◌, ◌+◌, ◌-◌, ◌++◌, ◌<◌, ◌≤◌, ◌^◌, ◌∷◌, [], ℕ, IfOk, OnOk, length, max, slice_index};
ghost use Rattle.ghs_core.specs.Dispatch.{messages_of};
ghost use Rattle.ghs_core.specs.NetState.{net_of, work_at, IsAnswer, IsLawful};
ghost use Rattle.ghs_node.specs.Reaction.{IsReaction};
ghost use Rattle.ghs_node.specs.Rows.{Row};
ghost use Rattle.ghs_protocol.specs.Ledger.{of_kind};
ghost use Rattle.peer_network.specs.Events.{event_node};
ghost use Rattle.peer_network.specs.Network.{network_of};
ghost use Rattle.ghs_protocol.specs.Run.{IsRun};
ghost use Rattle.ghs_parts.specs.Parts.{first_of, parts_of, place_of_part};
ghost use Rattle.ghs_parts.specs.Tally.{HasAdded, IsTally, part_at, parts_kept};

use crate::part::Part;
use crate::rule::{RULES, rule_place};
use ghs_choices::by::By;
use ghs_core::net::Net;
use ghs_graph::graph::Graph;
use ghs_node::delta::Delta;
use ghs_node::level::TOP_LEVEL;
use ghs_node::message::Message;
use ghs_node::react::react;
use ghs_node::row_name::{RowName, row_of};
use peer_network::event::{Event, node_of};
use std::alloc::{AllocError, Global};

/// The figures of a run by part, one part behind another: all nodes from 1 on, the levels from 0 to the greatest that a
/// node had, or all rows of the table of rules. The events are played once more, each and each message in constant time;
/// the memory beside the net's is that of the parts. Refusal: out of memory.
///
/// ```text
/// let parts = parts_of(alloc, world.graph(), world.trace(), By::Level)?;
/// // of the run of the triangle: two levels, and parts[0].kinds is [3, 2, 0, 0, 0, 0, 0], three Connects and two Initiates
/// ```
pub fn parts_of(
    alloc: Global,
    graph: &Graph,
    events: &[Event],
    by: By,
) -> Result<Vec<Part>, AllocError>
    requires run { IsRun (network_of graph.now) events.now }
    requires few { length events.now ≤ 2 ^ 40 }
    ensures { IfOk result (λ list. list.items ≡ parts_of by graph.now events.now) }
{
    let mut net = match Net::open(alloc, graph.copy(alloc)?) {
        Ok(net) => net,
        Err((_, error)) => return Err(error),
    };
    let mut tally = none(alloc, by, graph)?;
    for event in events {
        follow(alloc, &mut net, by, &mut tally, *event)?;
    }
    Ok(parts_in(by, tally))
}

/// The parts as far as a run has come, with room for all levels that there are, and the greatest level of a node by then.
#[derive(Debug, Drop)]
struct Tally {
    parts: Vec<Part>,
    level: u8,
}

/// Nothing has happened.
fn none(alloc: Global, by: By, graph: &Graph) -> Result<Tally, AllocError>
    ensures { IfOk result (λ tally. IsTally by graph.now [] tally.parts.items tally.level) }
{
    let room = match by {
        By::Node => graph.nodes() as usize,
        By::Level => TOP_LEVEL as usize + 1,
        By::Rule => RULES,
    };
    let none = Part {
        events: 0,
        kinds: [0; 7],
    };
    let parts = vec![in alloc; none; room]?;
    Ok(Tally { parts, level: 0 })
}

/// An event happens, and is counted. Refusal: out of memory; both are then of no use.
fn follow(
    alloc: Global,
    net: &mut Net,
    by: By,
    tally: &mut Tally,
    event: Event,
) -> Result<(), AllocError>
    requires lawful { IsLawful net.old event }
    requires few { length net.old.trace < 2 ^ 40 }
    requires tally { IsTally by net.old.graph net.old.trace tally.old.parts.items tally.old.level }
    ensures graph { OnOk result (net.new.graph ≡ net.old.graph) }
    ensures trace { OnOk result (net.new.trace ≡ net.old.trace ++ event ∷ []) }
    ensures tally { OnOk result (IsTally by net.new.graph net.new.trace tally.new.parts.items tally.new.level) }
{
    let v = node_of(event);
    let delta = answer(alloc, net, event)?;
    let row = row_of(net.node(v), net.work(event));
    net.reserve(event, &delta)?;
    net.play(event, &delta);
    // Read for their clauses: the events are a run, and no count is more than the ledger's.
    let _ = net.trace();
    are_small(&net.ledger().sent);
    // The level once it has reacted: that at which its messages go out.
    let level = net.node(v).head().level.get();
    add(
        tally,
        place(by, v, level, row),
        level,
        delta.sends.as_slice(),
    );
    Ok(())
}

/// Each count is a number of 64 bits.
fn are_small(counts: &[u64])
    ensures { (k : ℕ) → k < length counts.now → slice_index counts.now k < 2 ^ 64 }
{}

/// What the event's node does. A lawful event has a rule, so only memory can run out.
fn answer(alloc: Global, net: &Net, event: Event) -> Result<Delta, AllocError>
    requires { IsLawful net.now event }
    ensures answer { IfOk result (λ d. IsAnswer net.now event d) }
    ensures row { IfOk result (λ d. Row ((net_of net.now).node (event_node event)) (work_at (net_of net.now) event) d) }
    ensures applicable { IfOk result (λ d. IsReaction ((net_of net.now).node (event_node event)) d) }
{
    let work = net.work(event);
    match react(alloc, net.node(node_of(event)), work) {
        Ok(delta) => Ok(delta),
        Err(_) => Err(AllocError),
    }
}

/// The number of the first part: nodes are numbered from 1, levels and rows from 0.
pub fn first_of(by: By) -> u64
    ensures { result ≡ first_of by }
{
    match by {
        By::Node => 1,
        By::Level => 0,
        By::Rule => 0,
    }
}

/// Where the part of an event stands among all, from 0 on.
fn place(by: By, v: u32, level: u8, row: RowName) -> usize
    requires { 1 ≤ v }
    ensures { first_of by + result ≡ place_of_part by v level row }
{
    match by {
        By::Node => v as usize - 1,
        By::Level => level as usize,
        By::Rule => rule_place(row),
    }
}

/// Counts an event of the part at a place, whose node has this level then.
fn add(tally: &mut Tally, place: usize, level: u8, sends: &[(u32, Message)])
    requires place { place < length tally.old.parts.items }
    requires events { (part_at tally.old.parts.items place).events < 2 ^ 64 - 1 }
    requires kinds { (k : ℕ) → k < 7 → slice_index (part_at tally.old.parts.items place).kinds k + of_kind k (messages_of sends.now) < 2 ^ 64 }
    ensures parts { HasAdded place sends.now tally.old.parts.items tally.new.parts.items }
    ensures level { tally.new.level ≡ max tally.old.level level }
{
    tally.parts[place].add(sends);
    tally.level = tally.level.max(level);
}

/// The parts that a run has: of all levels those up to the greatest.
fn parts_in(by: By, tally: Tally) -> Vec<Part>
    ensures { result.items ≡ parts_kept by tally.parts.items tally.level }
{
    let mut parts = tally.parts;
    if by == By::Level {
        parts.truncate(tally.level as usize + 1);
    }
    parts
}
