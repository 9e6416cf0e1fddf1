//! The net of one thread.
ghost use Rattle.std.specs.Prelude.{◌≡◌, ℕ, ◌+◌, ◌*◌, ◌≤◌, ◌<◌, ◌^◌, [], ◌∷◌, ◌++◌, length, IfOk, IfErr, OnOk, OnErr, IsSome, Some, IsTrue, ◌↔◌, slice_get};
ghost use Rattle.ghs_graph.specs.Graph.{IsGraph};
ghost use Rattle.ghs_node.specs.Words.{is_sleeping};
ghost use Rattle.ghs_node.specs.NodeState.{mark_at};
ghost use Rattle.ghs_graph.specs.Links.{InTree, IsTree};
ghost use Rattle.peer_network.specs.Network.{network_of, far, port_at, At, is_node, is_port};
ghost use Rattle.ghs_protocol.specs.Marks.{InOneFragment, HasEnded};
ghost use Rattle.ghs_protocol.specs.Interleavings.{HaveAtLeast};
ghost use Rattle.ghs_node.specs.Reaction.{reaction};
ghost use Rattle.ghs_protocol.specs.Net.{opening, is_lawful, happens};
ghost use Rattle.ghs_protocol.specs.Run.{IsRun};
ghost use Rattle.ghs_core.specs.NetState.{network, net_of, work_at, IsLawful, IsAnswer, HasRoomToPlay, KeepsRoom, IsSameNet, IsLeastHalted, IsSameRun, event_node};
ghost use Rattle.ghs_core.specs.Ledger.{IsLedger, IsWithinBound};
ghost use Rattle.ghs_core.specs.Marked.{AreBranches, AreInTree, IsExactWhere, IsExact, IsFragment, IsInFragment, TellFragments};
ghost use Rattle.ghs_core.specs.Census.{IsCensus, AreLarge};
ghost use Rattle.ghs_core.specs.PutBack.{IsPutBack};
ghost use Rattle.ghs_node.specs.declared.message.Message.{Message as Letter};
ghost use Rattle.peer_channels.specs.Channels.{first_queue};
ghost use Rattle.peer_index.specs.Places.{IsPlaced};
ghost use Rattle.ghs_protocol.specs.Living.{Waits};

use crate::census::{FragmentRow, count_classes};
use crate::counts::Counts;
use crate::dispatch::{dispose, send_all};
use crate::halts::Halts;
use crate::ledger::Ledger;
use crate::marked::{Ends, branch_links, numbers_alike};
use crate::parts::open_parts;
use crate::waits::waits;
use ghs_graph::graph::Graph;
use ghs_graph::key::Key;
use ghs_graph::spanning::span;
use ghs_node::delta::{Delta, Fate};
use ghs_node::head::Head;
use ghs_node::mark::Mark;
use ghs_node::message::{Message, Phase};
use ghs_node::node::Node;
use ghs_node::work::Work;
use peer_channels::channels::Channels;
use peer_index::placed::Placed;
use peer_network::event::{Event, node_of};
use std::alloc::{AllocError, Global};
use std::marker::Model;

/// All nodes and all queues of a graph's network, and the list of the events that were played on it.
#[derive(Debug, Drop)]
pub struct Net {
    graph: Graph,
    nodes: Vec<Node>,
    channels: Channels<Message>,
    counts: Counts,
    halts: Halts,
    trace: Vec<Event>,
}

impl Model for Net {
    ghost use Rattle.std.specs.Prelude.{◌-◌, vec_len, vec_capacity};
    ghost use Rattle.ghs_core.specs.NetState.{NetState};
    ghost use Rattle.ghs_core.specs.Kept.{IsKept};

    ghost Value = { NetState };

    ghost view = { λ n. record { graph = n.graph; trace = n.trace.items; channels = n.channels; spare = vec_capacity n.trace - vec_len n.trace } };

    ghost invariant = { λ n. IsKept n.graph n.trace.items n.nodes.items n.channels n.counts n.halts };
}

impl Net {
    /// The opening net of a graph: all nodes asleep, nothing under way. Where memory runs out the graph comes back.
    ///
    /// ```text
    /// let mut net = Net::open(alloc, graph)?;                   // an Err hands the graph back
    /// let event = Event::Wake(1);                               // lawful: net.lawful(event)
    /// let delta = react(alloc, net.node(1), net.work(event))?;
    /// net.reserve(event, &delta)?;
    /// net.play(event, &delta);
    /// // net.trace() is [Event::Wake(1)], and node 1 is awake
    /// ```
    pub fn open(alloc: Global, graph: Graph) -> Result<Net, (Graph, AllocError)>
        ensures graph { IfOk result (λ n. n.graph ≡ graph) }
        ensures trace { IfOk result (λ n. n.trace ≡ []) }
        ensures net { IfOk result (λ n. net_of n ≡ opening (network_of graph)) }
        ensures back { IfErr result (λ e. e.0 ≡ graph) }
    {
        match open_parts(alloc, &graph) {
            Ok(parts) => Ok(Net {
                graph,
                nodes: parts.nodes,
                channels: parts.channels,
                counts: Counts::none(),
                halts: parts.halts,
                trace: Vec::new(alloc),
            }),
            Err(error) => Err((graph, error)),
        }
    }

    /// Whether an event may happen now.
    pub fn lawful(&self, event: Event) -> bool
        ensures { result ≡ is_lawful (network self.now) (net_of self.now) event }
    {
        match event {
            Event::Wake(v) => self.has_node(v) && is_asleep(self.nodes[v as usize - 1].head()),
            Event::Take(v, port) => self.has_port(v, port)
                && self.channels.front(v, port).is_some(),
        }
    }

    /// Where the queues of a node begin among all queues. Who plays many events has that from elsewhere (`start_of`), and
    /// goes on from there: nothing is looked up then to come from an event to its queue.
    pub fn start(&self, v: u32) -> u32
        requires low { 1 ≤ v }
        requires high { v ≤ self.now.graph.nodes }
        ensures { result ≡ first_queue self.now.channels v }
    {
        self.channels.start(v)
    }

    /// The same of the node of a placed event, from where its events begin. Nothing is looked up.
    pub fn start_of(&self, placed: Placed) -> u32
        requires { IsPlaced (network self.now) placed }
        ensures { result ≡ first_queue self.now.channels (event_node placed.event) }
    {
        self.channels.start_of(placed)
    }

    /// Whether an event of a node whose queues begin at `start` may happen now.
    pub fn lawful_from(&self, start: u32, event: Event) -> bool
        requires { start ≡ first_queue self.now.channels (event_node event) }
        ensures { result ≡ is_lawful (network self.now) (net_of self.now) event }
    {
        match event {
            Event::Wake(v) => self.has_node(v) && is_asleep(self.nodes[v as usize - 1].head()),
            Event::Take(v, port) => self.has_port(v, port)
                && self.channels.front_from(start, v, port).is_some(),
        }
    }

    /// The work that an event brings to its node. The node's reaction to it has a rule.
    pub fn work(&self, event: Event) -> Work
        requires { IsLawful self.now event }
        ensures work { result ≡ work_at (net_of self.now) event }
        ensures rule { IsSome (reaction ((net_of self.now).node (event_node event)) result) }
    {
        self.work_from(self.start_of_lawful(event), event)
    }

    /// The same, where the queues of its node begin at `start`.
    pub fn work_from(&self, start: u32, event: Event) -> Work
        requires start { start ≡ first_queue self.now.channels (event_node event) }
        requires lawful { IsLawful self.now event }
        ensures work { result ≡ work_at (net_of self.now) event }
        ensures rule { IsSome (reaction ((net_of self.now).node (event_node event)) result) }
    {
        match event {
            Event::Wake(_) => Work::Wake,
            Event::Take(v, port) => Work::Deliver {
                port,
                message: self.channels.front_from(start, v, port).unwrap(),
            },
        }
    }

    /// The first message that waits at a port.
    pub fn front(&self, v: u32, port: u32) -> Option<Message>
        requires { At (network self.now) v port }
        ensures { result ≡ slice_get ((net_of self.now).queue v port) 0 }
    {
        self.channels.front(v, port)
    }

    /// The same, where the queues of the node begin at `start`.
    pub fn front_from(&self, start: u32, v: u32, port: u32) -> Option<Message>
        requires start { start ≡ first_queue self.now.channels v }
        requires port { At (network self.now) v port }
        ensures { result ≡ slice_get ((net_of self.now).queue v port) 0 }
    {
        self.channels.front_from(start, v, port)
    }

    /// How many messages wait at a port.
    pub fn waiting_at(&self, v: u32, port: u32) -> u64
        requires { At (network self.now) v port }
        ensures { result ≡ length ((net_of self.now).queue v port) }
    {
        self.channels.len_at(v, port)
    }

    /// The same, where the queues of the node begin at `start`.
    pub fn waiting_from(&self, start: u32, v: u32, port: u32) -> u64
        requires start { start ≡ first_queue self.now.channels v }
        requires port { At (network self.now) v port }
        ensures { result ≡ length ((net_of self.now).queue v port) }
    {
        self.channels.len_from(start, v, port)
    }

    /// Whether the node of a Take that may happen would only put back the message that it takes. O(1).
    pub fn waits_at(&self, v: u32, port: u32) -> bool
        requires { IsLawful self.now (Event.Take v port) }
        ensures waits { (m : Letter) → slice_get ((net_of self.now).queue v port) 0 ≡ Some m → IsTrue result ↔ Waits ((net_of self.now).node v) port m }
        ensures back { IsTrue result → IsPutBack self.now v port }
    {
        self.waits_from(self.start_of_lawful(Event::Take(v, port)), v, port)
    }

    /// The same, where the queues of the node begin at `start`.
    pub fn waits_from(&self, start: u32, v: u32, port: u32) -> bool
        requires start { start ≡ first_queue self.now.channels v }
        requires lawful { IsLawful self.now (Event.Take v port) }
        ensures waits { (m : Letter) → slice_get ((net_of self.now).queue v port) 0 ≡ Some m → IsTrue result ↔ Waits ((net_of self.now).node v) port m }
        ensures back { IsTrue result → IsPutBack self.now v port }
    {
        match self.channels.front_from(start, v, port) {
            Some(message) => waits(&self.nodes[v as usize - 1], port, &message),
            None => false,
        }
    }

    /// A node.
    pub fn node(&self, v: u32) -> &Node
        requires low { 1 ≤ v }
        requires high { v ≤ self.now.graph.nodes }
        ensures { result.now ≡ (net_of self.now).node v }
    {
        &self.nodes[v as usize - 1]
    }

    /// A node to work with elsewhere, which equals the one that stays. The net is seen as before.
    pub fn lift(&self, alloc: Global, v: u32) -> Result<Node, AllocError>
        requires low { 1 ≤ v }
        requires high { v ≤ self.now.graph.nodes }
        ensures { IfOk result (λ n. n ≡ (net_of self.now).node v) }
    {
        self.nodes[v as usize - 1].copy(alloc)
    }

    /// The mark of a port. A Rejected link leads back into the node's own fragment.
    /// A Branch link lies in the minimum spanning tree, a Rejected one doesn't.
    pub fn mark(&self, v: u32, port: u32) -> Mark
        requires { At (network self.now) v port }
        ensures mark { result ≡ mark_at ((net_of self.now).node v) port }
        ensures inside { result ≡ Mark.Rejected → InOneFragment (network self.now) (net_of self.now) v (far (network self.now) v port) }
        ensures tree { result ≡ Mark.Branch → InTree self.now.graph.keys (port_at (network self.now) v port).key }
        ensures aside { result ≡ Mark.Rejected → InTree self.now.graph.keys (port_at (network self.now) v port).key → ⊥ }
    {
        self.nodes[v as usize - 1].mark(port)
    }

    /// The level of a node, 0 to 20. The fragment of a node of level L has at least 2^L nodes.
    pub fn level(&self, v: u32) -> u8
        requires low { 1 ≤ v }
        requires high { v ≤ self.now.graph.nodes }
        ensures level { result ≡ ((net_of self.now).node v).head.level }
        ensures fragment { HaveAtLeast (2 ^ result) (IsInFragment (network self.now) (net_of self.now) v) }
    {
        self.nodes[v as usize - 1].head().level.get()
    }

    /// The events that were played.
    pub fn trace(&self) -> &[Event]
        ensures trace { result.now ≡ self.now.trace }
        ensures run { IsRun (network self.now) self.now.trace }
        ensures graph { IsGraph self.now.graph }
    {
        self.trace.as_slice()
    }

    /// How many events were played.
    pub fn events(&self) -> u64
        ensures { result ≡ length self.now.trace }
    {
        self.trace.len() as u64
    }

    /// The graph.
    pub fn graph(&self) -> &Graph
        ensures { result.now ≡ self.now.graph }
    {
        &self.graph
    }

    /// The least node that has halted as a core node.
    pub fn core_halted(&self) -> Option<u32>
        ensures least { IsLeastHalted (network self.now) (net_of self.now) result }
        ensures exact { IsExactWhere self.now.graph (net_of self.now) result }
    {
        self.halts.least()
    }

    /// Whether the run has ended: each component has a node that has halted. Then the Branch links are the minimum spanning
    /// forest's, each of them Branch at both ends. Takes no memory, and no more than a step.
    pub fn ended(&self) -> bool
        ensures ended { IsTrue result ↔ HasEnded self.now.graph (net_of self.now) }
        ensures forest { IsTrue result → IsExact self.now.graph (net_of self.now) }
    {
        self.halts.has_each()
    }

    /// How many messages were sent, consumed and requeued, and how many wait.
    pub fn ledger(&self) -> Ledger
        ensures counts { IsLedger (network self.now) (net_of self.now) result }
        ensures bound { IsWithinBound self.now.graph result }
    {
        Ledger {
            sent: self.counts.sent,
            consumed: self.counts.consumed,
            requeued: self.counts.requeued,
            queued: self.channels.total(),
            out: 0,
        }
    }

    /// The links that are Branch at one end at least, in key order: links of the minimum spanning forest, and all of them
    /// once with each node a core node is joined that has halted.
    ///
    /// ```text
    /// let links = net.branches(alloc)?;
    /// // on the path 1-2-3 of weights 5 and 7, once node 1 has woken, there is one: Key { weight: 5, a: 1, b: 2 }
    /// ```
    pub fn branches(&self, alloc: Global) -> Result<Vec<Key>, AllocError>
        ensures links { IfOk result (λ ks. AreBranches (network self.now) (net_of self.now) ks.items) }
        ensures tree { IfOk result (λ ks. AreInTree self.now.graph.keys ks.items) }
        ensures forest { IfOk result (λ ks. HasEnded self.now.graph (net_of self.now) → IsTree self.now.graph.keys ks.items) }
    {
        branch_links(alloc, &self.graph, &self.nodes, Ends::One)
    }

    /// The nodes that links which are Branch at both ends join with node `v`, rising.
    pub fn fragment(&self, alloc: Global, v: u32) -> Result<Vec<u32>, AllocError>
        requires low { 1 ≤ v }
        requires high { v ≤ self.now.graph.nodes }
        ensures { IfOk result (λ us. IsFragment (network self.now) (net_of self.now) v us.items) }
    {
        let roots = self.fragment_roots(alloc)?;
        numbers_alike(alloc, &roots, self.graph.nodes(), v)
    }

    /// Each fragment once, in the order of their least nodes: its least node, the greatest level of its nodes, and how many
    /// they are. One of level L has at least 2^L nodes.
    pub fn census(&self, alloc: Global) -> Result<Vec<FragmentRow>, AllocError>
        ensures census { IfOk result (λ rows. IsCensus (network self.now) (net_of self.now) rows.items) }
        ensures large { IfOk result (λ rows. AreLarge rows.items) }
    {
        let roots = self.fragment_roots(alloc)?;
        count_classes(alloc, &roots, &self.nodes)
    }

    /// The root of each node, at the node's number: the least node of its fragment.
    fn fragment_roots(&self, alloc: Global) -> Result<Vec<u32>, AllocError>
        ensures { IfOk result (λ rs. TellFragments (network self.now) (net_of self.now) rs.items) }
    {
        let joined = branch_links(alloc, &self.graph, &self.nodes, Ends::Both)?;
        let spanning = span(alloc, self.graph.nodes(), &joined)?;
        Ok(spanning.roots.settled())
    }

    /// Whether both are nets of one graph on which the same events were played, whatever room they have.
    pub fn same(&self, other: &Net) -> bool
        ensures { IsTrue result ↔ IsSameRun self.now other.now }
    {
        self.graph.same(&other.graph) && same_events(&self.trace, &other.trace)
    }

    /// The graph, when the net is done with.
    pub fn into_graph(self) -> Graph
        ensures { result ≡ self.graph }
    {
        self.graph
    }

    /// Whether the graph has such a node.
    fn has_node(&self, v: u32) -> bool
        ensures { result ≡ is_node (network self.now) v }
    {
        v > 0 && v <= self.graph.nodes()
    }

    /// Whether the node has such a port.
    fn has_port(&self, v: u32, port: u32) -> bool
        ensures { result ≡ is_port (network self.now) v port }
    {
        self.has_node(v) && port < self.nodes[v as usize - 1].degree()
    }

    /// Makes room for an event and for what its reaction sends. It is refused only where there was no room for them, and
    /// leaves the net as it was.
    pub fn reserve(&mut self, event: Event, delta: &Delta) -> Result<(), AllocError>
        requires lawful { IsLawful self.old event }
        requires answer { IsAnswer self.old event delta.now }
        ensures net { IsSameNet self.old self.new }
        ensures room { OnOk result (HasRoomToPlay self.new event delta.now) }
        ensures full { OnErr result (HasRoomToPlay self.old event delta.now → ⊥) }
    {
        let start = self.start_of_lawful(event);
        self.reserve_from(start, event, delta)
    }

    /// The same, where the queues of its node begin at `start`.
    pub fn reserve_from(
        &mut self,
        start: u32,
        event: Event,
        delta: &Delta,
    ) -> Result<(), AllocError>
        requires start { start ≡ first_queue self.old.channels (event_node event) }
        requires lawful { IsLawful self.old event }
        requires answer { IsAnswer self.old event delta.now }
        ensures net { IsSameNet self.old self.new }
        ensures room { OnOk result (HasRoomToPlay self.new event delta.now) }
        ensures full { OnErr result (HasRoomToPlay self.old event delta.now → ⊥) }
    {
        self.trace.reserve(1)?;
        self.channels
            .reserve_from(start, node_of(event), delta.sends.as_slice())
    }

    /// Plays an event: its node reacts as the delta says. Takes no memory, and lets go of none.
    pub fn play(&mut self, event: Event, delta: &Delta)
        requires lawful { IsLawful self.old event }
        requires answer { IsAnswer self.old event delta.now }
        requires few { length self.old.trace < 2 ^ 40 }
        requires room { HasRoomToPlay self.old event delta.now }
        ensures graph { self.new.graph ≡ self.old.graph }
        ensures trace { self.new.trace ≡ self.old.trace ++ event ∷ [] }
        ensures event { happens (network self.old) (net_of self.old) event ≡ Some (net_of self.new) }
        ensures room { KeepsRoom self.old self.new event delta.now }
    {
        let start = self.start_of_lawful(event);
        self.play_from(start, event, delta);
    }

    /// The same, where the queues of its node begin at `start`.
    pub fn play_from(&mut self, start: u32, event: Event, delta: &Delta)
        requires start { start ≡ first_queue self.old.channels (event_node event) }
        requires lawful { IsLawful self.old event }
        requires answer { IsAnswer self.old event delta.now }
        requires few { length self.old.trace < 2 ^ 40 }
        requires room { HasRoomToPlay self.old event delta.now }
        ensures graph { self.new.graph ≡ self.old.graph }
        ensures trace { self.new.trace ≡ self.old.trace ++ event ∷ [] }
        ensures event { happens (network self.old) (net_of self.old) event ≡ Some (net_of self.new) }
        ensures room { KeepsRoom self.old self.new event delta.now }
    {
        dispose(
            &mut self.channels,
            &mut self.counts,
            start,
            event,
            delta.fate,
        );
        let v = node_of(event);
        let node = &mut self.nodes[v as usize - 1];
        node.apply(delta);
        send_all(
            &mut self.channels,
            &mut self.counts.sent,
            start,
            v,
            delta.sends.as_slice(),
        );
        self.halts.note(&self.graph, v, delta.head.halted);
        self.trace.push_reserved(event);
    }

    /// Plays a Take whose node only puts the message back: the message goes to the end of its queue, and that is counted.
    /// Neither the node nor any other queue is touched. It is refused only where the trace had no room for it, and leaves
    /// the net as it was.
    pub fn put_back(&mut self, v: u32, port: u32) -> Result<(), AllocError>
        requires lawful { IsLawful self.old (Event.Take v port) }
        requires back { IsPutBack self.old v port }
        requires few { length self.old.trace < 2 ^ 40 }
        ensures graph { OnOk result (self.new.graph ≡ self.old.graph) }
        ensures trace { OnOk result (self.new.trace ≡ self.old.trace ++ Event.Take v port ∷ []) }
        ensures event { OnOk result (happens (network self.old) (net_of self.old) (Event.Take v port) ≡ Some (net_of self.new)) }
        ensures err { OnErr result (IsSameNet self.old self.new) }
        ensures full { OnErr result (self.old.spare ≡ 0) }
    {
        let start = self.start_of_lawful(Event::Take(v, port));
        self.put_back_from(start, v, port)
    }

    /// The same, where the queues of the node begin at `start`.
    pub fn put_back_from(&mut self, start: u32, v: u32, port: u32) -> Result<(), AllocError>
        requires start { start ≡ first_queue self.old.channels v }
        requires lawful { IsLawful self.old (Event.Take v port) }
        requires back { IsPutBack self.old v port }
        requires few { length self.old.trace < 2 ^ 40 }
        ensures graph { OnOk result (self.new.graph ≡ self.old.graph) }
        ensures trace { OnOk result (self.new.trace ≡ self.old.trace ++ Event.Take v port ∷ []) }
        ensures event { OnOk result (happens (network self.old) (net_of self.old) (Event.Take v port) ≡ Some (net_of self.new)) }
        ensures err { OnErr result (IsSameNet self.old self.new) }
        ensures full { OnErr result (self.old.spare ≡ 0) }
    {
        let take = Event::Take(v, port);
        self.trace.push(take)?;
        dispose(
            &mut self.channels,
            &mut self.counts,
            start,
            take,
            Fate::Requeued,
        );
        Ok(())
    }

    /// Where the queues of the node of an event begin that may happen.
    fn start_of_lawful(&self, event: Event) -> u32
        requires { IsLawful self.now event }
        ensures { result ≡ first_queue self.now.channels (event_node event) }
    {
        self.channels.start(node_of(event))
    }
}

fn same_events(left: &[Event], right: &[Event]) -> bool
    ensures { IsTrue result ↔ (left.now ≡ right.now) }
{
    left == right
}

/// Whether a node with these variables is asleep.
pub fn is_asleep(head: &Head) -> bool
    ensures { result ≡ is_sleeping head.now.phase }
{
    match head.phase {
        Phase::Sleeping => true,
        Phase::Find => false,
        Phase::Found => false,
    }
}
