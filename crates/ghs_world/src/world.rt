//! The world.
ghost use Rattle.std.specs.Prelude.{◌≡◌, ◌↔◌, ◌≤◌, ◌+◌, ◌-◌, ◌^◌, [], ◌<◌, length, filter, slice_get, IfOk, IfErr, OnOk, OnErr, IsTrue, Some, false, true};
ghost use Rattle.std.specs.List.{find, range_with_len};
ghost use Rattle.ghs_node.specs.Reaction.{still};
ghost use Rattle.ghs_node.specs.declared.message.Message.{Message as Letter};
ghost use Rattle.ghs_protocol.specs.Living.{Waits};
ghost use Rattle.ghs_world.specs.Ready.{has_lawful, has_ready, is_ready, next_of, next_node_of, ready_events};
ghost use Rattle.peer_index.specs.Index.{IsIndexOf};
ghost use Rattle.peer_index.specs.Places.{all_events, far_take, takes, has_place, HasPlace, IsPlaced};
ghost use Rattle.ghs_world.specs.Steps.{Commits, Makes, LeavesOthers, AreReadyOf, HasAllRoused, HasRoused, RefusesStep, IsSameWorld, HasEach, touched};
ghost use Rattle.ghs_graph.specs.Graph.{IsGraph};
ghost use Rattle.ghs_graph.specs.Ports.{ports_of};
ghost use Rattle.ghs_graph.specs.Links.{IsTree};
ghost use Rattle.peer_network.specs.Network.{At, network_of, is_node};
ghost use Rattle.ghs_protocol.specs.Net.{opening, is_lawful_under};
ghost use Rattle.ghs_protocol.specs.Run.{IsRunUnder};
ghost use Rattle.ghs_protocol.specs.Marks.{HasEnded};
ghost use Rattle.peer_channels.specs.Channels.{first_queue};
ghost use Rattle.ghs_core.specs.NetState.{network, net_of, event_node, IsLawful, IsAnswer, HasRoomToPlay, IsLeastHalted};
ghost use Rattle.ghs_core.specs.Census.{IsCensus, AreLarge};
ghost use Rattle.ghs_core.specs.PutBack.{IsPutBack};
ghost use Rattle.ghs_core.specs.Ledger.{IsWithinBound};
ghost use Rattle.ghs_core.specs.Marked.{AreBranches, AreInTree, IsExact, IsExactWhere};
ghost use Rattle.ghs_world.specs.Outs.{event_out, without};
ghost use Rattle.ghs_world.specs.Tickets.{HasRule};
ghost use Rattle.ghs_world.specs.WorldLedger.{IsWorldLedger};
ghost use Rattle.ghs_world.specs.WorldState.{home, wakers, may_happen, has_turn, refusal, Refuses, ticket_of, gone_out, IsOut, RefusesTicket};

use crate::fault::{BackFault, CommitFault, OutFault};
use crate::outs::Outs;
use crate::ticket::{Step, Ticket};
use crate::upkeep::{mark_changed, may_happen, open_index};
use crate::woken::{Committed, Woken, touched};
use ghs_core::census::FragmentRow;
use ghs_core::event::{Event, node_of};
use ghs_core::ledger::Ledger;
use ghs_core::net::Net;
use ghs_graph::graph::Graph;
use ghs_graph::key::Key;
use ghs_node::delta::Delta;
use ghs_node::fault::NodeFault;
use ghs_node::laws::law_list_has_no_row;
use ghs_node::react::react_into;
use ghs_node::work::Work;
use ghs_protocol::interleavings::{law_stillness, law_turns};
use peer_index::index::Index;
use peer_index::placed::Placed;
use peer_network::wake_set::WakeSet;
use std::alloc::{AllocError, Global};
use std::marker::Model;

/// A net from which nodes go out on tickets. The net is the home view: what is out stands in it where it was.
///
/// ```text
/// let mut world = World::open(alloc, graph, WakeSet::All, 1 << 40)?;   // an Err hands the graph back
/// let ticket = world.check_out(alloc, Event::Wake(2))?;                // node 2 is out, and wakes
/// let step = ticket.perform(alloc)?;                                   // the world isn't needed for that
/// world.commit(alloc, step)?;                                          // the event has happened
/// ```
#[derive(Debug, Drop)]
pub struct World {
    net: Net,
    wake: WakeSet,
    turns: u64,
    outs: Outs,
    /// The events that are lawful in the home view, under the wake set. What is out is marked as before.
    index: Index,
}

impl Model for World {
    ghost use Rattle.std.specs.Prelude.{◌≡◌};
    ghost use Rattle.ghs_core.specs.NetState.{network};
    ghost use Rattle.peer_index.specs.Index.{IsIndexOf};
    ghost use Rattle.ghs_world.specs.Upkeep.{lawful_in};
    ghost use Rattle.ghs_world.specs.WorldState.{WorldState, IsWorld};

    ghost Value = { WorldState };

    ghost view = { λ w. record { net = w.net; wake = w.wake; turns = w.turns; outs = w.outs.list; last = w.outs.last } };

    ghost invariant = { λ w. IsWorld (record { net = w.net; wake = w.wake; turns = w.turns; outs = w.outs.list; last = w.outs.last }) × (w.outs.nodes ≡ w.net.graph.nodes) × IsIndexOf (network w.net) (lawful_in w.net w.wake) w.index };
}

impl World {
    /// The opening world of a graph: all nodes asleep, nothing under way, nothing out. There may be 1 to 2^40 commits,
    /// `turns` of them. Where memory runs out the graph comes back.
    pub fn open(
        alloc: Global,
        graph: Graph,
        wake: WakeSet,
        turns: u64,
    ) -> Result<World, (Graph, AllocError)>
        requires some { 1 ≤ turns }
        requires few { turns ≤ 2 ^ 40 }
        ensures graph { IfOk result (λ w. w.net.graph ≡ graph) }
        ensures trace { IfOk result (λ w. w.net.trace ≡ []) }
        ensures net { IfOk result (λ w. home w ≡ opening (network_of graph)) }
        ensures wake { IfOk result (λ w. w.wake ≡ wake) }
        ensures turns { IfOk result (λ w. w.turns ≡ turns) }
        ensures outs { IfOk result (λ w. w.outs ≡ []) }
        ensures last { IfOk result (λ w. w.last ≡ 0) }
        ensures back { IfErr result (λ e. e.0 ≡ graph) }
    {
        let outs = match Outs::none(alloc, graph.nodes()) {
            Ok(outs) => outs,
            Err(error) => return Err((graph, error)),
        };
        let index = match open_index(alloc, &graph, wake) {
            Ok(index) => index,
            Err(error) => return Err((graph, error)),
        };
        let net = Net::open(alloc, graph)?;
        Ok(World {
            net,
            wake,
            turns,
            outs,
            index,
        })
    }

    /// An event's node goes out with the work that the event brings. The home view stays as it was; a refusal uses
    /// no number. The node has a reaction to the work.
    pub fn check_out(&mut self, alloc: Global, event: Event) -> Result<Ticket, OutFault>
        ensures ok { OnOk result (refusal self.old event ≡ None) }
        ensures ticket { IfOk result (λ t. t ≡ ticket_of self.old event) }
        ensures rule { IfOk result (λ t. HasRule t.node t.work) }
        ensures out { OnOk result (self.new ≡ gone_out self.old event) }
        ensures fault { IfErr result (λ f. Refuses self.old event f) }
        ensures err { OnErr result (self.new ≡ self.old) }
    {
        match self.refusal(event) {
            Some(fault) => return Err(fault),
            None => {}
        }
        let _ = self.net.trace();
        let node = self.net.lift(alloc, node_of(event))?;
        let work = self.net.work(event);
        let number = self.outs.add(event)?;
        Ok(Ticket::of(number, event, node, work))
    }

    /// Why an event isn't checked out, memory aside.
    fn refusal(&self, event: Event) -> Option<OutFault>
        ensures { result ≡ refusal self.now event }
    {
        if !self.has_place(event) {
            Some(OutFault::NoSuch)
        } else if self.outs.has_node(node_of(event)) {
            Some(OutFault::Busy)
        } else if !self.may_happen(event) {
            Some(OutFault::Nothing)
        } else if !self.has_turn() {
            Some(OutFault::TurnLimit)
        } else {
            None
        }
    }

    /// An event happens here as if it were checked out, performed and committed at once, without copying or comparing
    /// a node. It uses a ticket number. All room is taken before any change.
    ///
    /// ```text
    /// while !world.ended() && world.has_turn() {
    ///     let event = world.ready_at(0);                        // where nothing is out and a run goes on, one is ready
    ///     world.make(alloc, event)?;
    /// }
    /// ```
    pub fn make(&mut self, alloc: Global, event: Event) -> Result<(), AllocError>
        requires ready { is_ready self.old event ≡ true }
        requires turn { has_turn self.old ≡ true }
        ensures made { OnOk result (Makes self.old event self.new) }
        ensures err { OnErr result (IsSameWorld self.old self.new) }
    {
        let placed = self.placed(event);
        self.make_placed(alloc, placed)
    }

    /// The same of a placed event, as `ready_placed` has it: nothing is looked up to come to its queue.
    pub fn make_placed(&mut self, alloc: Global, placed: Placed) -> Result<(), AllocError>
        requires placed { IsPlaced (network self.old.net) placed }
        requires ready { is_ready self.old placed.event ≡ true }
        requires turn { has_turn self.old ≡ true }
        ensures made { OnOk result (Makes self.old placed.event self.new) }
        ensures err { OnErr result (IsSameWorld self.old self.new) }
    {
        let start = self.net.start_of(placed);
        // This is asked first, since then no node is touched. `react` asks it again: a reaction is whole by itself.
        if let Event::Take(v, port) = placed.event {
            if self.net.waits_from(start, v, port) {
                return self.put_back(start, v, port);
            }
        }
        self.make_reacting(alloc, start, placed)
    }

    /// The same of an event to which its node reacts. It stands apart, so that who puts a message back has no room laid
    /// out for a reaction. The reaction is worked out and looked at where it is, and not moved.
    fn make_reacting(&mut self, alloc: Global, start: u32, placed: Placed) -> Result<(), AllocError>
        requires start { start ≡ first_queue self.old.net.channels (event_node placed.event) }
        requires placed { IsPlaced (network self.old.net) placed }
        requires ready { is_ready self.old placed.event ≡ true }
        requires turn { has_turn self.old ≡ true }
        ensures made { OnOk result (Makes self.old placed.event self.new) }
        ensures err { OnErr result (IsSameWorld self.old self.new) }
    {
        let mut delta = Delta::still(alloc, self.net.node(node_of(placed.event)));
        match self.react_from(start, placed.event, &mut delta) {
            Ok(()) => self.make_answered_placed(placed, &delta),
            Err(_) => Err(AllocError),
        }
    }

    /// The reaction of the node of an event that may happen, where its queues begin at `start`, worked out in place; lack
    /// of memory is the one fault.
    fn react_from(&self, start: u32, event: Event, delta: &mut Delta) -> Result<(), NodeFault>
        requires start { start ≡ first_queue self.now.net.channels (event_node event) }
        requires lawful { IsLawful self.now.net event }
        requires still { delta.old ≡ still ((home self.now).node (event_node event)) }
        ensures answer { OnOk result (IsAnswer self.now.net event delta.new) }
        ensures memory { IfErr result (λ f. f ≡ NodeFault.Memory) }
    {
        let _ = self.net.trace();
        law_list_has_no_row();
        let given = self.net.work_from(start, event);
        react_into(delta, self.net.node(node_of(event)), given)
    }

    /// The Take of a message that its node only puts back happens, under the next number. Neither a node nor the index is
    /// touched: a message still waits there, and nothing else has changed.
    fn put_back(&mut self, start: u32, v: u32, port: u32) -> Result<(), AllocError>
        requires start { start ≡ first_queue self.old.net.channels v }
        requires ready { is_ready self.old (Event.Take v port) ≡ true }
        requires turn { has_turn self.old ≡ true }
        requires waits { (m : Letter) → slice_get ((home self.old).queue v port) 0 ≡ Some m → Waits ((home self.old).node v) port m }
        requires back { IsPutBack self.old.net v port }
        ensures made { OnOk result (Makes self.old (Event.Take v port) self.new) }
        ensures err { OnErr result (IsSameWorld self.old self.new) }
    {
        law_turns();
        let _ = self.net.trace();
        self.net.put_back_from(start, v, port)?;
        Ok(self.outs.skip_number())
    }

    /// The same for an event whose node's reaction is at hand (`answer`).
    pub fn make_answered(&mut self, event: Event, answer: &Delta) -> Result<(), AllocError>
        requires ready { is_ready self.old event ≡ true }
        requires turn { has_turn self.old ≡ true }
        requires answer { IsAnswer self.old.net event answer.now }
        ensures made { OnOk result (Makes self.old event self.new) }
        ensures err { OnErr result (IsSameWorld self.old self.new) }
    {
        let placed = self.placed(event);
        self.make_answered_placed(placed, answer)
    }

    /// The same of a placed event, for an answer from `answer_placed`: nothing is looked up to come to its queue.
    pub fn make_answered_placed(&mut self, placed: Placed, answer: &Delta) -> Result<(), AllocError>
        requires placed { IsPlaced (network self.old.net) placed }
        requires ready { is_ready self.old placed.event ≡ true }
        requires turn { has_turn self.old ≡ true }
        requires answer { IsAnswer self.old.net placed.event answer.now }
        ensures made { OnOk result (Makes self.old placed.event self.new) }
        ensures err { OnErr result (IsSameWorld self.old self.new) }
    {
        let start = self.net.start_of(placed);
        self.net.reserve_from(start, placed.event, answer)?;
        self.happen(placed, answer);
        Ok(())
    }

    /// The same, and the nodes that it has roused come back, as from a commit. All room is taken before any change.
    pub fn make_rousing(
        &mut self,
        alloc: Global,
        event: Event,
        delta: &Delta,
    ) -> Result<Woken, AllocError>
        requires ready { is_ready self.old event ≡ true }
        requires turn { has_turn self.old ≡ true }
        requires answer { IsAnswer self.old.net event delta.now }
        ensures made { OnOk result (Makes self.old event self.new) }
        ensures woken { IfOk result (λ us. HasRoused self.old event self.new us) }
        ensures err { OnErr result (IsSameWorld self.old self.new) }
    {
        let nodes = self.make_room(alloc, event, delta)?;
        let placed = self.placed(event);
        self.happen(placed, delta);
        Ok(self.ready_of(nodes))
    }

    /// The event of a node that is at home happens, under the next number. Takes no memory.
    fn happen(&mut self, placed: Placed, answer: &Delta)
        requires placed { IsPlaced (network self.old.net) placed }
        requires ready { is_ready self.old placed.event ≡ true }
        requires turn { has_turn self.old ≡ true }
        requires answer { IsAnswer self.old.net placed.event answer.now }
        requires room { HasRoomToPlay self.old.net placed.event answer.now }
        ensures { Makes self.old placed.event self.new }
    {
        let _ = self.net.trace();
        let start = self.net.start_of(placed);
        self.net.play_from(start, placed.event, answer);
        let sends = answer.sends.as_slice();
        mark_changed(&mut self.index, &self.net, self.wake, placed, sends);
        self.outs.skip_number();
    }

    /// The reaction of the node of an event that may happen; lack of memory is the one fault.
    pub fn answer(&self, alloc: Global, event: Event) -> Result<Delta, AllocError>
        requires { IsLawful self.now.net event }
        ensures { IfOk result (λ d. IsAnswer self.now.net event d) }
    {
        let placed = self.placed(event);
        self.answer_placed(alloc, placed)
    }

    /// The same of a placed event: nothing is looked up to come to its queue.
    pub fn answer_placed(&self, alloc: Global, placed: Placed) -> Result<Delta, AllocError>
        requires placed { IsPlaced (network self.now.net) placed }
        requires lawful { IsLawful self.now.net placed.event }
        ensures { IfOk result (λ d. IsAnswer self.now.net placed.event d) }
    {
        let start = self.net.start_of(placed);
        let mut delta = Delta::still(alloc, self.net.node(node_of(placed.event)));
        match self.react_from(start, placed.event, &mut delta) {
            Ok(()) => Ok(delta),
            Err(_) => Err(AllocError),
        }
    }

    /// Of a node's events that may be checked out, turns and memory aside, the next one: Wake, or the first Take at port
    /// `from` or later, or the first from port 0 on.
    pub fn next_event(&self, v: u32, from: u32) -> Option<Event>
        requires low { 1 ≤ v }
        requires high { v ≤ self.now.net.graph.nodes }
        ensures { result ≡ next_of self.now v from }
    {
        if self.outs.has_node(v) {
            return None;
        }
        if self.may_happen(Event::Wake(v)) {
            return Some(Event::Wake(v));
        }
        match self.first_take(v, from) {
            Some(event) => Some(event),
            None => self.first_take(v, 0),
        }
    }

    /// The first Take at a port or later that is lawful in the home view.
    fn first_take(&self, v: u32, low: u32) -> Option<Event>
        requires low { 1 ≤ v }
        requires high { v ≤ self.now.net.graph.nodes }
        ensures { result ≡ find (may_happen self.now) (takes v low (length (ports_of self.now.net.graph.keys v) - low)) }
    {
        self.index.first_take(self.net.graph(), v, low)
    }

    /// The first node from `from` on, else from node 1 on, one of whose events may be checked out, turns and memory
    /// aside. There is no node 0, and none above the nodes of the graph. It passes over the nodes that are out one by
    /// one, and takes O(log N) for each.
    pub fn next_node(&self, from: u32) -> Option<u32>
        ensures { result ≡ next_node_of self.now from }
    {
        match self.first_node(from) {
            Some(v) => Some(v),
            None => self.first_node(1),
        }
    }

    /// The first node from a number on one of whose events may be checked out.
    fn first_node(&self, low: u32) -> Option<u32>
        ensures { result ≡ find (has_ready self.now) (range_with_len low (self.now.net.graph.nodes + 1 - low)) }
    {
        let graph = self.net.graph();
        let mut from = low.max(1);
        while from <= graph.nodes() {
            match self.lawful_from(from) {
                Some(v) => {
                    if !self.outs.has_node(v) {
                        return Some(v);
                    }
                    from = v + 1;
                }
                None => return None,
            }
        }
        None
    }

    /// The first node from a number on one of whose events is lawful in the home view, under the wake set.
    fn lawful_from(&self, low: u32) -> Option<u32>
        requires low { 1 ≤ low }
        requires high { low ≤ self.now.net.graph.nodes }
        ensures { result ≡ find (has_lawful self.now) (range_with_len low (self.now.net.graph.nodes + 1 - low)) }
    {
        self.index.node_from(self.net.graph(), low)
    }

    /// Whether the graph has the event's node and port.
    pub fn has_place(&self, event: Event) -> bool
        ensures { result ≡ has_place (network self.now.net) event }
    {
        let graph = self.net.graph();
        match event {
            Event::Wake(v) => has_node(graph, v),
            Event::Take(v, port) => has_node(graph, v) && (port as usize) < graph.ports(v).len(),
        }
    }

    /// An event that names a node or port of the graph, with where the events of its node begin. O(1).
    pub fn placed(&self, event: Event) -> Placed
        requires { HasPlace (network self.now.net) event }
        ensures event { result.event ≡ event }
        ensures placed { IsPlaced (network self.now.net) result }
    {
        self.index.placed(self.net.graph(), event)
    }

    /// The Take at the far end of a port of a placed event's node, with where the events of its own node begin. O(1), and
    /// the graph is not read.
    pub fn far_take_placed(&self, placed: Placed, port: u32) -> Placed
        requires placed { IsPlaced (network self.now.net) placed }
        requires port { At (network self.now.net) (event_node placed.event) port }
        ensures event { result.event ≡ far_take (network self.now.net) (event_node placed.event) port }
        ensures placed { IsPlaced (network self.now.net) result }
    {
        self.index.far_take_placed(self.net.graph(), placed, port)
    }

    /// Whether an event that names a node or port of the graph may be checked out, turns and memory aside.
    pub fn is_ready(&self, event: Event) -> bool
        requires { has_place (network self.now.net) event ≡ true }
        ensures { result ≡ is_ready self.now event }
    {
        !self.outs.has_node(node_of(event)) && self.may_happen(event)
    }

    /// Whether one of a node's events may be checked out, turns and memory aside.
    fn has_ready(&self, v: u32) -> bool
        ensures { result ≡ has_ready self.now v }
    {
        if !has_node(self.net.graph(), v) {
            return false;
        }
        !self.outs.has_node(v) && self.has_lawful(v)
    }

    /// How many events may be checked out where nothing is out, turns and memory aside. O(1).
    pub fn ready_count(&self) -> usize
        requires { self.now.outs ≡ [] }
        ensures { result ≡ length (ready_events self.now) }
    {
        let _ = &self.net;
        self.index.count() as usize
    }

    /// Of the events that may be checked out where nothing is out (by node, Wake before ports, ports rising) the one at
    /// place `k`, counted from 0. O(log N).
    pub fn ready_at(&self, k: usize) -> Event
        requires home { self.now.outs ≡ [] }
        requires within { k < length (ready_events self.now) }
        ensures { slice_get (ready_events self.now) k ≡ Some result }
    {
        self.ready_placed(k).event
    }

    /// The same, with where the events of its node begin, for `make_placed`. O(log N).
    pub fn ready_placed(&self, k: usize) -> Placed
        requires home { self.now.outs ≡ [] }
        requires within { k < length (ready_events self.now) }
        ensures event { slice_get (ready_events self.now) k ≡ Some result.event }
        ensures placed { IsPlaced (network self.now.net) result }
    {
        let _ = self.index.count();
        self.index.kth_placed(self.net.graph(), k as u32)
    }

    /// An index of the graph in which no event is marked, for who keeps marks of his own. It shares what the world's own
    /// index knows of places, so it takes a bit and a sixteenth of a bit an event, and O(E / 64).
    pub fn unmarked_index(&self, alloc: Global) -> Result<Index, AllocError>
        ensures { IfOk result (IsIndexOf (network self.now.net) (λ _. false)) }
    {
        self.index.unmarked(alloc, self.net.graph())
    }

    /// Whether one of a node's events is lawful in the home view, under the wake set.
    fn has_lawful(&self, v: u32) -> bool
        requires low { 1 ≤ v }
        requires high { v ≤ self.now.net.graph.nodes }
        ensures { result ≡ has_lawful self.now v }
    {
        self.index.has_any(self.net.graph(), v)
    }

    /// Whether an event is lawful in the home view, under the wake set.
    fn may_happen(&self, event: Event) -> bool
        requires { has_place (network self.now.net) event ≡ true }
        ensures { result ≡ may_happen self.now event }
    {
        may_happen(&self.net, self.wake, event)
    }

    /// Whether there are turns and a number for one ticket more.
    pub fn has_turn(&self) -> bool
        ensures { result ≡ has_turn self.now }
    {
        self.net.events() + self.outs.len() < self.turns && self.outs.last() < u64::MAX
    }

    /// The event of a step happens: the home view makes exactly it, and its ticket is out no more. All room is taken
    /// before any change; a refusal hands the step back. A step of another world is taken where its number, event,
    /// node and work are equal to those that are out here: then it is the same step.
    pub fn commit(&mut self, alloc: Global, step: Step) -> Result<Committed, (Step, CommitFault)>
        ensures ok { OnOk result (IsOut self.old step.ticket) }
        ensures commits { OnOk result (Commits self.old step.ticket.number step.ticket.event self.new) }
        ensures others { OnOk result (LeavesOthers self.old step.ticket.number self.new) }
        ensures woken { IfOk result (λ c. AreReadyOf self.new (touched (network self.old.net) (event_node step.ticket.event) step.delta.sends) c.woken) }
        ensures roused { IfOk result (λ c. HasAllRoused self.old self.new c.woken) }
        ensures halted { IfOk result (λ c. c.halted ≡ step.delta.halts) }
        ensures fault { IfErr result (λ e. RefusesStep self.old step.ticket e.1) }
        ensures back { IfErr result (λ e. e.0 ≡ step) }
        ensures err { OnErr result (IsSameWorld self.old self.new) }
    {
        let number = step.number();
        let Some(event) = self.outs.event_of(number) else {
            return Err((step, CommitFault::UnknownTicket));
        };
        if !self.is_counterfoil(step.ticket(), event) {
            return Err((step, CommitFault::Altered));
        }
        let Ok(nodes) = self.make_room(alloc, event, step.delta()) else {
            return Err((step, CommitFault::Memory));
        };
        let halted = step.delta().halts;
        let woken = self.carry_out(number, event, step.delta(), nodes);
        Ok(Committed { woken, halted })
    }

    /// Makes the room for a commit, and finds the nodes that it will touch.
    fn make_room(
        &mut self,
        alloc: Global,
        event: Event,
        delta: &Delta,
    ) -> Result<Vec<u32>, AllocError>
        requires lawful { IsLawful self.old.net event }
        requires answer { IsAnswer self.old.net event delta.now }
        ensures same { IsSameWorld self.old self.new }
        ensures room { OnOk result (HasRoomToPlay self.new.net event delta.now) }
        ensures touched { IfOk result (λ us. HasEach (touched (network self.old.net) (event_node event) delta.now.sends) us.items) }
    {
        let _ = self.net.trace();
        let nodes = touched(
            alloc,
            self.net.graph(),
            node_of(event),
            delta.sends.as_slice(),
        );
        self.net.reserve(event, delta)?;
        nodes
    }

    /// The event of a ticket that is out happens, and touches these nodes. Takes no memory.
    fn carry_out(&mut self, out: u64, event: Event, delta: &Delta, nodes: Vec<u32>) -> Woken
        requires out { event_out self.old.outs out ≡ Some event }
        requires answer { IsAnswer self.old.net event delta.now }
        requires room { HasRoomToPlay self.old.net event delta.now }
        requires touched { HasEach (touched (network self.old.net) (event_node event) delta.now.sends) nodes.items }
        ensures commits { Commits self.old out event self.new }
        ensures others { LeavesOthers self.old out self.new }
        ensures woken { AreReadyOf self.new (touched (network self.old.net) (event_node event) delta.now.sends) result }
        ensures roused { HasAllRoused self.old self.new result }
    {
        let _ = self.net.trace();
        let placed = self.placed(event);
        let start = self.net.start_of(placed);
        self.net.play_from(start, event, delta);
        let sends = delta.sends.as_slice();
        mark_changed(&mut self.index, &self.net, self.wake, placed, sends);
        self.outs.remove(out, event);
        self.ready_of(nodes)
    }

    /// Of some nodes those that may be checked out.
    fn ready_of(&self, mut nodes: Vec<u32>) -> Woken
        ensures { result ≡ filter (has_ready self.now) nodes.items }
    {
        nodes.retain(|v| self.has_ready(*v));
        Woken::of(nodes)
    }

    /// A ticket comes back, and its event is out no more. A refusal hands it back. Takes no memory.
    pub fn give_back(&mut self, ticket: Ticket) -> Result<(), (Ticket, BackFault)>
        ensures ok { OnOk result (IsOut self.old ticket) }
        ensures home { OnOk result (self.new ≡ record self.old { outs = without ticket.number self.old.outs }) }
        ensures fault { IfErr result (λ e. RefusesTicket self.old ticket e.1) }
        ensures back { IfErr result (λ e. e.0 ≡ ticket) }
        ensures err { OnErr result (self.new ≡ self.old) }
    {
        let number = ticket.number();
        let Some(event) = self.outs.event_of(number) else {
            return Err((ticket, BackFault::UnknownTicket));
        };
        if !self.is_counterfoil(&ticket, event) {
            return Err((ticket, BackFault::Altered));
        }
        self.outs.remove(number, event);
        Ok(())
    }

    /// All that is out comes back. The numbers of these tickets aren't used again. Takes no memory.
    pub fn recall_all(&mut self)
        ensures { self.new ≡ record self.old { outs = [] } }
    {
        self.outs.clear();
    }

    /// Whether a ticket is the one of its number, whose event is out.
    fn is_counterfoil(&self, ticket: &Ticket, event: Event) -> bool
        requires { event_out self.now.outs ticket.now.number ≡ Some event }
        ensures same { IsTrue result ↔ IsOut self.now ticket.now }
        ensures event { IsTrue result → ticket.now.event ≡ event }
        ensures lawful { IsLawful self.now.net event }
    {
        same_event(ticket.event(), event)
            && same_work(ticket.work(), self.net.work(event))
            && ticket.node().same(self.net.node(node_of(event)))
    }

    /// The home view: what one thread leaves that does the events of the trace in their order.
    pub fn net(&self) -> &Net
        ensures net { result.now ≡ self.now.net }
        ensures run { IsRunUnder (wakers self.now) (network self.now.net) self.now.net.trace }
    {
        let _ = self.net.trace();
        &self.net
    }

    /// The graph.
    pub fn graph(&self) -> &Graph
        ensures { result.now ≡ self.now.net.graph }
    {
        self.net.graph()
    }

    /// The events that were committed, in their order.
    pub fn trace(&self) -> &[Event]
        ensures trace { result.now ≡ self.now.net.trace }
        ensures run { IsRunUnder (wakers self.now) (network self.now.net) self.now.net.trace }
    {
        self.net.trace()
    }

    /// Which nodes may wake by themselves.
    pub fn wake_set(&self) -> WakeSet
        ensures { result ≡ self.now.wake }
    {
        self.wake
    }

    /// How many commits there may be, 1 to 2^40.
    pub fn turns(&self) -> u64
        ensures turns { result ≡ self.now.turns }
        ensures few { result ≤ 2 ^ 40 }
        ensures fits { length self.now.net.trace + length self.now.outs ≤ result }
    {
        self.turns
    }

    /// How many tickets are out.
    pub fn out_count(&self) -> u64
        ensures { result ≡ length self.now.outs }
    {
        self.outs.len()
    }

    /// The least node that has halted as a core node.
    pub fn core_halted(&self) -> Option<u32>
        ensures least { IsLeastHalted (network self.now.net) (home self.now) result }
        ensures exact { IsExactWhere self.now.net.graph (home self.now) result }
    {
        self.net.core_halted()
    }

    /// Whether the run has ended: each component has a core node that has halted. Then the Branch links are the minimum
    /// spanning forest's, each of them Branch at both ends. Where nothing is out and nothing is ready, it has.
    pub fn ended(&self) -> bool
        ensures ended { IsTrue result ↔ HasEnded self.now.net.graph (home self.now) }
        ensures forest { IsTrue result → IsExact self.now.net.graph (home self.now) }
        ensures still { self.now.outs ≡ [] → ready_events self.now ≡ [] → IsTrue result }
    {
        let _ = self.net.trace();
        law_stillness();
        self.net.ended()
    }

    /// How many messages were sent, consumed and requeued, how many wait in queues, and how many are out with tickets.
    pub fn ledger(&self) -> Ledger
        ensures counts { IsWorldLedger self.now result }
        ensures bound { IsWithinBound self.now.net.graph result }
    {
        let home = self.net.ledger();
        let out = self.outs.messages();
        Ledger {
            queued: home.queued - out,
            out,
            ..home
        }
    }

    /// The links that are Branch at one end at least, in key order: links of the minimum spanning forest, and all of
    /// them once the run has ended.
    pub fn branches(&self, alloc: Global) -> Result<Vec<Key>, AllocError>
        ensures links { IfOk result (λ ks. AreBranches (network self.now.net) (home self.now) ks.items) }
        ensures tree { IfOk result (λ ks. AreInTree self.now.net.graph.keys ks.items) }
        ensures forest { IfOk result (λ ks. HasEnded self.now.net.graph (home self.now) → IsTree self.now.net.graph.keys ks.items) }
    {
        self.net.branches(alloc)
    }

    /// Each fragment of the home view once, in the order of their least nodes: its least node, the greatest level of its
    /// nodes, and how many they are. One of level L has at least 2^L nodes.
    pub fn census(&self, alloc: Global) -> Result<Vec<FragmentRow>, AllocError>
        ensures census { IfOk result (λ rows. IsCensus (network self.now.net) (home self.now) rows.items) }
        ensures large { IfOk result (λ rows. AreLarge rows.items) }
    {
        self.net.census(alloc)
    }

    /// The graph, when the world is done with.
    pub fn into_graph(self) -> Graph
        ensures { result ≡ self.net.graph }
    {
        self.net.into_graph()
    }
}

fn has_node(graph: &Graph, v: u32) -> bool
    ensures { result ≡ is_node (network_of graph.now) v }
{
    v > 0 && v <= graph.nodes()
}

fn same_event(left: Event, right: Event) -> bool
    ensures { IsTrue result ↔ (left ≡ right) }
{
    left == right
}

fn same_work(left: Work, right: Work) -> bool
    ensures { IsTrue result ↔ (left ≡ right) }
{
    left == right
}
