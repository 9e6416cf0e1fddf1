//! The world.
ghost use Rattle.std.specs.Prelude.{◌≡◌, ◌<◌, [], length, slice_get, IfOk, IfErr, OnOk, OnErr, Some, true};
ghost use Rattle.peer_index.specs.Places.{IsPlaced};
ghost use Rattle.peer_machine.specs.Run.{IsRunUnder};
ghost use Rattle.peer_net.specs.NetState.{AreSends, network};
ghost use Rattle.peer_runs.specs.WorldState.{wakers, is_ready, ready_events, HasPlayed};

use crate::follower::Follower;
use crate::upkeep::{mark_changed, may_happen, open_index};
use ghs_graph::graph::Graph;
use peer_index::index::Index;
use peer_index::placed::Placed;
use peer_machine::protocol::Protocol;
use peer_net::event::Event;
use peer_net::net::Net;
use peer_network::wake_set::WakeSet;
use std::alloc::{AllocError, Global};
use std::marker::Model;

/// A net under a protocol, in which some nodes alone wake by themselves, and whose events that may happen are at hand.
///
/// ```text
/// let mut world = World::<Echo>::open(alloc, (), graph, WakeSet::All)?;   // an Err hands the graph back
/// if world.is_ready(Event::Wake(1)) {                                     // so it is: a sleeper may wake
///     world.play(alloc, Event::Wake(1))?;
/// }
/// // world.net().trace() is [Event::Wake(1)]; ready_at(0) is the first of the ready_count() events that may happen now
/// ```
#[derive(Drop)]
pub struct World<P: Protocol> {
    net: Net<P>,
    wake: WakeSet,
    /// The events that are lawful, wakes of nodes that may not wake by themselves left out.
    index: Index,
}

impl<P: Protocol> Model for World<P> {
    ghost use Rattle.peer_runs.specs.WorldState.{WorldState, IsWorld};

    ghost Value = { WorldState };

    ghost view = { λ w. record { net = w.net; wake = w.wake } };

    ghost invariant = { λ w. IsWorld P.rules w.net w.wake w.index };
}

impl<P: Protocol> World<P> {
    /// The opening world of a graph: nothing under way. Where memory runs out the graph comes back. O(N + E).
    pub fn open(
        alloc: Global,
        setting: P::Setting,
        graph: Graph,
        wake: WakeSet,
    ) -> Result<World<P>, (Graph, AllocError)>
        requires setting { P.goes_by setting }
        ensures graph { IfOk result (λ w. w.net.graph ≡ graph) }
        ensures trace { IfOk result (λ w. w.net.trace ≡ []) }
        ensures wake { IfOk result (λ w. w.wake ≡ wake) }
        ensures back { IfErr result (λ e. e.0 ≡ graph) }
    {
        let net = Net::<P>::open(alloc, setting, graph)?;
        match open_index(alloc, &net, wake) {
            Ok(index) => Ok(World { net, wake, index }),
            Err(error) => Err((net.into_graph(), error)),
        }
    }

    /// The net. Its trace is a run of its graph, in which only nodes of the wake set wake by themselves.
    pub fn net(&self) -> &Net<P>
        ensures net { result.now ≡ self.now.net }
        ensures run { IsRunUnder P.rules (wakers self.now) (network self.now.net) self.now.net.trace }
    {
        let _ = self.net.trace();
        &self.net
    }

    /// Which nodes may wake by themselves.
    pub fn wake(&self) -> WakeSet
        ensures { result ≡ self.now.wake }
    {
        self.wake
    }

    /// Whether an event may happen now. None of a node or a port that the graph doesn't have may.
    pub fn is_ready(&self, event: Event) -> bool
        ensures { result ≡ is_ready P.rules self.now event }
    {
        may_happen(&self.net, self.wake, event)
    }

    /// How many events may happen now. O(1).
    pub fn ready_count(&self) -> usize
        ensures { result ≡ length (ready_events P.rules self.now) }
    {
        self.index.count() as usize
    }

    /// Of the events that may happen now (by node, Wake before ports, ports rising) the one at place `k`, counted from 0.
    /// O(log N).
    pub fn ready_at(&self, k: usize) -> Event
        requires within { k < length (ready_events P.rules self.now) }
        ensures { slice_get (ready_events P.rules self.now) k ≡ Some result }
    {
        self.ready_placed_at(k).event
    }

    /// The same, with where the events of its node begin. O(log N).
    pub fn ready_placed_at(&self, k: usize) -> Placed
        requires within { k < length (ready_events P.rules self.now) }
        ensures event { slice_get (ready_events P.rules self.now) k ≡ Some result.event }
        ensures placed { IsPlaced (network self.now.net) result }
    {
        let _ = self.index.count();
        self.index.kth_placed(self.net.graph(), k as u32)
    }

    /// Plays an event. Beside the reaction that takes O(1) for each message that is sent. If an allocation is refused the
    /// world is as it was.
    pub fn play(&mut self, alloc: Global, event: Event) -> Result<(), AllocError>
        requires ready { is_ready P.rules self.old event ≡ true }
        ensures played { OnOk result (HasPlayed P.rules self.old event self.new) }
        ensures err { OnErr result (self.new ≡ self.old) }
    {
        let placed = self.index.placed(self.net.graph(), event);
        self.play_placed(alloc, placed)
    }

    /// The same of a placed event. Nothing is looked up to come from it to its node's queues and marks.
    pub fn play_placed(&mut self, alloc: Global, placed: Placed) -> Result<(), AllocError>
        requires placed { IsPlaced (network self.old.net) placed }
        requires ready { is_ready P.rules self.old placed.event ≡ true }
        ensures played { OnOk result (HasPlayed P.rules self.old placed.event self.new) }
        ensures err { OnErr result (self.new ≡ self.old) }
    {
        self.play_followed(alloc, placed, &mut ())?;
        Ok(())
    }

    /// The same, and a follower follows the event. It may refuse the event too; what it keeps is of this world's run at any
    /// rate. Answers the messages that went out, each with its port.
    pub fn play_followed<F: Follower<P>>(
        &mut self,
        alloc: Global,
        placed: Placed,
        kept: &mut F,
    ) -> Result<Vec<(u32, P::Message)>, AllocError>
        requires placed { IsPlaced (network self.old.net) placed }
        requires ready { is_ready P.rules self.old placed.event ≡ true }
        requires kept { F.is_of self.old.net.graph self.old.net.trace kept.old }
        ensures played { OnOk result (HasPlayed P.rules self.old placed.event self.new) }
        ensures sends { IfOk result (λ s. AreSends P.rules self.old.net placed.event s.items) }
        ensures err { OnErr result (self.new ≡ self.old) }
        ensures kept { F.is_of self.new.net.graph self.new.net.trace kept.new }
    {
        let seen = kept.look(&self.net, placed.event)?;
        let sends = self.net.play_placed(alloc, placed)?;
        mark_changed(&mut self.index, &self.net, self.wake, placed, &sends);
        kept.follow(&self.net, placed.event, seen, &sends);
        Ok(sends)
    }

    /// The graph, when the world is done with.
    pub fn into_graph(self) -> Graph
        ensures { result ≡ self.net.graph }
    {
        self.net.into_graph()
    }
}
