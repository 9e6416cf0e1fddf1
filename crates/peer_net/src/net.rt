//! The net of one thread.
ghost use Rattle.std.specs.Option.{option_map};
ghost use Rattle.std.specs.Prelude.{◌≡◌, ℕ, ◌≤◌, [], ◌∷◌, ◌++◌, length, IfOk, IfErr, OnOk, OnErr, IsSome, IsTrue, Some, ◌↔◌, slice_get};
ghost use Rattle.ghs_graph.specs.Graph.{IsGraph};
ghost use Rattle.peer_network.specs.Network.{network_of, At};
ghost use Rattle.peer_index.specs.Places.{IsPlaced};
ghost use Rattle.peer_machine.specs.Net.{opening, happens, is_lawful, is_node, is_port};
ghost use Rattle.peer_machine.specs.Run.{IsRun};
ghost use Rattle.peer_net.specs.NetState.{network, net_of, work_at, is_deferred, AreSends, IsLawful, IsSilent};
ghost use Rattle.peer_net.specs.Ledger.{IsLedger, IsWithin};

use crate::counts::{Counts, count_sends};
use crate::ledger::Ledger;
use crate::parts::open_parts;
use crate::sending::{send_all, take_in};
use ghs_graph::graph::Graph;
use peer_channels::channels::Channels;
use peer_index::placed::Placed;
use peer_machine::again::Again;
use peer_machine::event::Event;
use peer_machine::protocol::Protocol;
use peer_machine::work::Work;
use peer_network::event::node_of;
use std::alloc::{AllocError, Global};
use std::marker::Model;

/// All nodes and all queues of a graph's network under a protocol, the setting that its rules are made of, and the list of the
/// events that were played on it.
#[derive(Drop)]
pub struct Net<P: Protocol> {
    setting: P::Setting,
    graph: Graph,
    nodes: Vec<P::Node>,
    channels: Channels<P::Message>,
    counts: Counts,
    trace: Vec<Event>,
}

impl<P: Protocol> Model for Net<P> {
    ghost use Rattle.peer_net.specs.NetState.{NetState};
    ghost use Rattle.peer_net.specs.Kept.{IsKept};

    ghost Value = { NetState };

    ghost view = { λ n. record { graph = n.graph; trace = n.trace.items } };

    ghost invariant = { λ n. P.goes_by n.setting × IsKept P.rules n.graph n.trace.items n.nodes.items n.channels n.counts };
}

impl<P: Protocol> Net<P> {
    /// The opening net of a graph: nothing under way. It keeps the setting. Where memory runs out the graph comes back.
    ///
    /// ```text
    /// let mut net = Net::<Echo>::open(alloc, (), graph)?;       // an Err hands the graph back
    /// let event = Event::Wake(1);                               // lawful: net.lawful(event)
    /// let sends = net.play(alloc, event)?;
    /// // net.trace() is [Event::Wake(1)], node 1 is awake, and sends are what it has sent, each with its port
    /// ```
    pub fn open(
        alloc: Global,
        setting: P::Setting,
        graph: Graph,
    ) -> Result<Net<P>, (Graph, AllocError)>
        requires setting { P.goes_by setting }
        ensures graph { IfOk result (λ n. n.graph ≡ graph) }
        ensures trace { IfOk result (λ n. n.trace ≡ []) }
        ensures net { IfOk result (λ n. net_of P.rules n ≡ opening P.rules (network_of graph)) }
        ensures back { IfErr result (λ e. e.0 ≡ graph) }
    {
        match open_parts::<P>(alloc, setting, &graph) {
            Ok(parts) => Ok(Net {
                setting,
                graph,
                nodes: parts.nodes,
                channels: parts.channels,
                counts: parts.counts,
                trace: Vec::new(alloc),
            }),
            Err(error) => Err((graph, error)),
        }
    }

    /// The setting that the rules are made of.
    pub fn setting(&self) -> P::Setting
        ensures { P.goes_by result }
    {
        self.setting
    }

    /// Whether an event may happen now.
    pub fn lawful(&self, event: Event) -> bool
        ensures { result ≡ is_lawful P.rules (network self.now) (net_of P.rules self.now) event }
    {
        match event {
            Event::Wake(v) => self.has_node(v) && P::is_asleep(&self.nodes[v as usize - 1]),
            Event::Take(v, port) => self.has_port(v, port)
                && self.channels.first(v, port).is_some(),
        }
    }

    /// The same of a placed event. Nothing is looked up to come from it to its queue.
    pub fn lawful_placed(&self, placed: Placed) -> bool
        requires { IsPlaced (network self.now) placed }
        ensures { result ≡ is_lawful P.rules (network self.now) (net_of P.rules self.now) placed.event }
    {
        match placed.event {
            Event::Wake(v) => P::is_asleep(&self.nodes[v as usize - 1]),
            Event::Take(v, port) => self
                .channels
                .first_from(self.channels.start_of(placed), v, port)
                .is_some(),
        }
    }

    /// A node.
    pub fn node(&self, v: u32) -> &P::Node
        requires low { 1 ≤ v }
        requires high { v ≤ self.now.graph.nodes }
        ensures { result.now ≡ (net_of P.rules self.now).node v }
    {
        &self.nodes[v as usize - 1]
    }

    /// The first message that waits at a port.
    pub fn front(&self, v: u32, port: u32) -> Option<&P::Message>
        requires { At (network self.now) v port }
        ensures { option_map (λ m. m.now) result ≡ slice_get ((net_of P.rules self.now).queue v port) 0 }
    {
        self.channels.first(v, port)
    }

    /// The events that were played.
    pub fn trace(&self) -> &[Event]
        ensures trace { result.now ≡ self.now.trace }
        ensures run { IsRun P.rules (network self.now) self.now.trace }
        ensures graph { IsGraph self.now.graph }
    {
        self.trace.as_slice()
    }

    /// The graph.
    pub fn graph(&self) -> &Graph
        ensures { result.now ≡ self.now.graph }
    {
        &self.graph
    }

    /// The graph, when the net is done with.
    pub fn into_graph(self) -> Graph
        ensures { result ≡ self.graph }
    {
        self.graph
    }

    /// How many messages were sent and consumed, by kind, how many wait, and how many times one was deferred. They balance,
    /// and those sent are within the protocol's bound.
    pub fn ledger(&self) -> Ledger<'_>
        ensures counts { IsLedger P.rules (network self.now) (net_of P.rules self.now) result }
        ensures bound { IsWithin P.rules (P.bound self.now.graph) result }
    {
        Ledger {
            sent: self.counts.sent.as_slice(),
            consumed: self.counts.consumed.as_slice(),
            queued: self.channels.total(),
            deferred: self.counts.deferred,
        }
    }

    /// Whether no message waits anywhere.
    pub fn silent(&self) -> bool
        ensures { IsTrue result ↔ IsSilent (network self.now) (net_of P.rules self.now) }
    {
        self.channels.total() == 0
    }

    /// Whether an event's message is deferred: then it stays in its queue, at the end.
    pub fn defers(&self, event: Event) -> bool
        requires lawful { IsLawful P.rules self.now event }
        ensures { result ≡ is_deferred P.rules (net_of P.rules self.now) event }
    {
        match event {
            Event::Wake(_) => false,
            Event::Take(v, _) => P::defers(
                self.setting,
                self.node(v),
                &self.work_placed(self.placed(event)),
            ),
        }
    }

    /// Plays an event: its node takes the message, reacts, and its messages go out; a message that the node defers goes to
    /// the end of its queue. Answers the messages that went out, each with its port, in the order of sending. If an
    /// allocation is refused the net is as it was.
    pub fn play(
        &mut self,
        alloc: Global,
        event: Event,
    ) -> Result<Vec<(u32, P::Message)>, AllocError>
        requires lawful { IsLawful P.rules self.old event }
        ensures graph { self.new.graph ≡ self.old.graph }
        ensures trace { OnOk result (self.new.trace ≡ self.old.trace ++ event ∷ []) }
        ensures event { OnOk result (happens P.rules (network self.old) (net_of P.rules self.old) event ≡ Some (net_of P.rules self.new)) }
        ensures sends { IfOk result (λ s. AreSends P.rules self.old event s.items) }
        ensures err { OnErr result (self.new.trace ≡ self.old.trace) }
    {
        let placed = self.placed(event);
        self.play_placed(alloc, placed)
    }

    /// The same of a placed event. Nothing is looked up to come from it to its queue.
    pub fn play_placed(
        &mut self,
        alloc: Global,
        placed: Placed,
    ) -> Result<Vec<(u32, P::Message)>, AllocError>
        requires placed { IsPlaced (network self.old) placed }
        requires lawful { IsLawful P.rules self.old placed.event }
        ensures graph { self.new.graph ≡ self.old.graph }
        ensures trace { OnOk result (self.new.trace ≡ self.old.trace ++ placed.event ∷ []) }
        ensures event { OnOk result (happens P.rules (network self.old) (net_of P.rules self.old) placed.event ≡ Some (net_of P.rules self.new)) }
        ensures sends { IfOk result (λ s. AreSends P.rules self.old placed.event s.items) }
        ensures err { OnErr result (self.new.trace ≡ self.old.trace) }
    {
        let event = placed.event;
        let v = placed.node();
        let at = v as usize - 1;
        let start = self.channels.start_of(placed);
        let work = self.work_placed(placed);
        let node = &self.nodes[at];
        let later = P::defers(self.setting, node, &work);
        let answer = P::react(alloc, self.setting, node, work)?;
        self.trace.reserve(1)?;
        self.channels.reserve_from(start, v, &answer.sends)?;
        count_sends::<P>(self.setting, &mut self.counts, &answer.sends);
        take_in::<P>(
            self.setting,
            &mut self.channels,
            &mut self.counts,
            start,
            event,
            later,
        );
        P::apply(&mut self.nodes[at], &answer.change);
        send_all(&mut self.channels, start, v, &answer.sends);
        self.trace.push_reserved(event);
        Ok(answer.sends)
    }

    /// A lawful event, with where those of its node begin.
    fn placed(&self, event: Event) -> Placed
        requires { IsLawful P.rules self.now event }
        ensures event { result.event ≡ event }
        ensures placed { IsPlaced (network self.now) result }
    {
        let v = node_of(event);
        Placed {
            event,
            base: self.channels.start(v) + (v - 1),
        }
    }

    /// What a lawful event gives its node to do.
    fn work_placed(&self, placed: Placed) -> Work<P::Message>
        requires placed { IsPlaced (network self.now) placed }
        requires lawful { IsLawful P.rules self.now placed.event }
        ensures { result ≡ work_at (net_of P.rules self.now) placed.event }
    {
        let start = self.channels.start_of(placed);
        match placed.event {
            Event::Wake(_) => Work::Wake,
            Event::Take(v, port) => Work::Deliver {
                port,
                message: self.channels.first_from(start, v, port).unwrap().again(),
            },
        }
    }

    /// Whether the graph has such a node.
    fn has_node(&self, v: u32) -> bool
        ensures { result ≡ is_node (network self.now) v }
    {
        v > 0 && v <= self.graph.nodes()
    }

    /// Whether the node has such a port.
    fn has_port(&self, v: u32, port: u32) -> bool
        ensures { result ≡ is_port (network self.now) v port }
    {
        self.has_node(v) && (port as usize) < self.graph.ports(v).len()
    }
}
