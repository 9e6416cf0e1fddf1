//! The walk of a run whose events are followed.
ghost use Rattle.ghs_core.specs.NetState.{IsLawful};
ghost use Rattle.ghs_core.specs.PutBack.{IsPutBack};
ghost use Rattle.peer_network.specs.Network.{network_of};
ghost use Rattle.ghs_protocol.specs.Run.{IsRun};
ghost use Rattle.std.specs.Prelude.{[], ◌≡◌, ◌++◌, ◌<◌, ◌≤◌, ◌^◌, ◌∷◌, length, OnOk};

use crate::follower::Follower;
use ghs_core::net::Net;
use ghs_graph::graph::Graph;
use ghs_node::react::react;
use peer_network::event::{Event, node_of};
use std::alloc::{AllocError, Global};

/// Plays the events of a run once more, each followed before it happens. O(1) for each event and each message, beside what
/// the follower takes. Refusal: out of memory; what is kept is then of no use.
///
/// ```text
/// let mut chains = RunChains::none(alloc, graph)?;
/// follow_all(alloc, graph, events, &mut chains)?;
/// // chains.longest() messages, each sent because of the one before
/// ```
pub fn follow_all<F: Follower>(
    alloc: Global,
    graph: &Graph,
    events: &[Event],
    kept: &mut F,
) -> Result<(), AllocError>
    requires run { IsRun (network_of graph.now) events.now }
    requires few { length events.now ≤ 2 ^ 40 }
    requires kept { F.is_of graph.now [] kept.old }
    ensures kept { OnOk result (F.is_of graph.now events.now kept.new) }
{
    let mut net = match Net::open(alloc, graph.copy(alloc)?) {
        Ok(net) => net,
        Err((_, error)) => return Err(error),
    };
    for event in events {
        play(alloc, &mut net, kept, *event)?;
    }
    Ok(())
}

/// An event happens in a net, and is followed. Refusal: out of memory; net and follower are then of no use.
fn play<F: Follower>(
    alloc: Global,
    net: &mut Net,
    kept: &mut F,
    event: Event,
) -> Result<(), AllocError>
    requires lawful { IsLawful net.old event }
    requires few { length net.old.trace < 2 ^ 40 }
    requires kept { F.is_of net.old.graph net.old.trace kept.old }
    ensures graph { OnOk result (net.new.graph ≡ net.old.graph) }
    ensures trace { OnOk result (net.new.trace ≡ net.old.trace ++ event ∷ []) }
    ensures kept { OnOk result (F.is_of net.new.graph net.new.trace kept.new) }
{
    if let Event::Take(v, port) = event {
        if net.waits_at(v, port) {
            return put_back(net, kept, v, port);
        }
    }
    react_to(alloc, net, kept, event)
}

/// The Take of a message that its node only puts back happens.
fn put_back<F: Follower>(net: &mut Net, kept: &mut F, v: u32, port: u32) -> Result<(), AllocError>
    requires lawful { IsLawful net.old (Event.Take v port) }
    requires back { IsPutBack net.old v port }
    requires few { length net.old.trace < 2 ^ 40 }
    requires kept { F.is_of net.old.graph net.old.trace kept.old }
    ensures graph { OnOk result (net.new.graph ≡ net.old.graph) }
    ensures trace { OnOk result (net.new.trace ≡ net.old.trace ++ Event.Take v port ∷ []) }
    ensures kept { OnOk result (F.is_of net.new.graph net.new.trace kept.new) }
{
    kept.follow_back(net, v, port)?;
    net.put_back(v, port)?;
    Ok(())
}

/// An event happens to which its node reacts.
fn react_to<F: Follower>(
    alloc: Global,
    net: &mut Net,
    kept: &mut F,
    event: Event,
) -> Result<(), AllocError>
    requires lawful { IsLawful net.old event }
    requires few { length net.old.trace < 2 ^ 40 }
    requires kept { F.is_of net.old.graph net.old.trace kept.old }
    ensures graph { OnOk result (net.new.graph ≡ net.old.graph) }
    ensures trace { OnOk result (net.new.trace ≡ net.old.trace ++ event ∷ []) }
    ensures kept { OnOk result (F.is_of net.new.graph net.new.trace kept.new) }
{
    let _ = net.trace();
    let delta = match react(alloc, net.node(node_of(event)), net.work(event)) {
        Ok(delta) => delta,
        Err(_) => return Err(AllocError),
    };
    kept.follow(net, event, &delta)?;
    net.reserve(event, &delta)?;
    net.play(event, &delta);
    Ok(())
}
