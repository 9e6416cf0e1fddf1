//! All channels of a network.
ghost use Rattle.std.specs.Prelude.{◌≡◌, ℕ, ◌+◌, ◌-◌, ◌<◌, ◌≤◌, ◌^◌, [], length, slice_get, slice_index, slice_index_or, IfOk, OnOk, OnErr};
ghost use Rattle.ghs_graph.specs.Graph.{Shape};
ghost use Rattle.peer_network.specs.Network.{network_of};
ghost use Rattle.peer_network.specs.Events.{event_node};
ghost use Rattle.peer_index.specs.Places.{IsPlaced};
ghost use Rattle.peer_channels.specs.Queue.{pushed, taken, requeued, counted};
ghost use Rattle.peer_channels.specs.Channels.{HasQueue, first_queue, IsFor, AllEmpty, Changes, KeepsLists, GoOut, HasRoomFor, state_at, queue_at, room_at, total_of, destination_of};
ghost use Rattle.std.specs.Option.{option_map};

use crate::blocks::{Blocks, empty_queues, lay_blocks};
use crate::claims::make_room;
use crate::queue::Queue;
use ghs_graph::graph::Graph;
use peer_index::placed::Placed;
use std::alloc::{AllocError, Global};
use std::marker::Model;

/// A queue of messages for each port of each node of a graph. What goes out on a port waits at the port of the
/// far end, so each direction of a link is a channel. Nodes are numbered from 1, ports from 0.
#[derive(Debug, Drop)]
pub struct Channels<M> {
    alloc: Global,
    /// Where the queues of each number begin; 0 is no node.
    starts: Vec<u32>,
    /// Each with the place of the one at the far end of its link.
    queues: Vec<Queue<M>>,
    /// For each port of a node, how much room the reserve at hand has asked for at its far end.
    claims: Vec<usize>,
    total: u64,
}

impl<M> Model for Channels<M> {
    ghost use Rattle.peer_channels.specs.Channels.{ChannelsState};
    ghost use Rattle.peer_channels.specs.Kept.{IsKept, laid, seen};

    ghost Value = { ChannelsState M };

    ghost view = { λ l. seen (laid l.starts.items l.queues.items) };

    ghost invariant = { λ l. IsKept (laid l.starts.items l.queues.items) l.claims.items l.total };
}

impl<M: Drop> Channels<M> {
    /// An empty queue for each port of each node.
    ///
    /// ```text
    /// let mut channels = Channels::new(alloc, &graph)?;         // of the path 1-2-3
    /// let sends = [(0, 7u64)];                                  // the message is a number
    /// channels.reserve_for(2, &sends)?;                         // room at the far ends
    /// channels.send(2, 0, sends[0].1);
    /// // it waits at port 0 of node 1: channels.len_at(1, 0) is 1, channels.total() is 1
    /// ```
    pub fn new(alloc: Global, graph: &Graph) -> Result<Channels<M>, AllocError>
        ensures queues { IfOk result (IsFor graph.now) }
        ensures empty { IfOk result AllEmpty }
        ensures total { IfOk result (λ l. total_of l ≡ 0) }
    {
        let Blocks { starts, widest } = lay_blocks(alloc, graph)?;
        let queues = empty_queues(alloc, graph, &starts)?;
        let claims = vec![in alloc; 0usize; widest]?;
        Ok(Channels {
            alloc,
            starts,
            queues,
            claims,
            total: 0,
        })
    }

    /// Where the queues of a node begin among all queues.
    pub fn start(&self, v: u32) -> u32
        requires { v < length self.now.queues }
        ensures { result ≡ first_queue self.now v }
    {
        self.starts[v as usize]
    }

    /// The same of the node of a placed event, from where its events begin. Nothing is looked up.
    pub fn start_of(&self, placed: Placed) -> u32
        requires { (g : Shape) × IsFor g self.now × IsPlaced (network_of g) placed }
        ensures { result ≡ first_queue self.now (event_node placed.event) }
    {
        placed.base - (placed.node() - 1)
    }

    /// Makes room for the messages that node `v` sends, at the far ends of the ports that they go out on. It is refused
    /// only where there was no room for them.
    pub fn reserve_for(&mut self, v: u32, sends: &[(u32, M)]) -> Result<(), AllocError>
        requires node { v < length self.old.queues }
        requires ports { GoOut self.old v sends.now }
        ensures lists { KeepsLists self.old self.new }
        ensures room { OnOk result (HasRoomFor v sends.now self.new) }
        ensures full { OnErr result (HasRoomFor v sends.now self.old → ⊥) }
    {
        self.reserve_from(self.start(v), v, sends)
    }

    /// The same, where it is known where the queues of the node begin.
    pub fn reserve_from(&mut self, start: u32, v: u32, sends: &[(u32, M)]) -> Result<(), AllocError>
        requires node { v < length self.old.queues }
        requires start { start ≡ first_queue self.old v }
        requires ports { GoOut self.old v sends.now }
        ensures lists { KeepsLists self.old self.new }
        ensures room { OnOk result (HasRoomFor v sends.now self.new) }
        ensures full { OnErr result (HasRoomFor v sends.now self.old → ⊥) }
    {
        make_room(
            self.alloc,
            start as usize,
            &mut self.queues,
            &mut self.claims,
            sends,
        )
    }

    /// Sends a message out on a port: it is appended to the queue at the far end. Takes no memory.
    pub fn send(&mut self, v: u32, port: u32, message: M)
        requires port { HasQueue self.old v port }
        requires room { let to = destination_of self.old v port in 0 < room_at self.old to.0 to.1 }
        requires total { total_of self.old < 2 ^ 64 - 1 }
        ensures { let to = destination_of self.old v port in Changes self.old self.new to.0 to.1 (pushed (state_at self.old to.0 to.1) message) }
    {
        self.send_from(self.start(v), v, port, message);
    }

    /// The same, where it is known where the queues of the node begin.
    pub fn send_from(&mut self, start: u32, v: u32, port: u32, message: M)
        requires start { start ≡ first_queue self.old v }
        requires port { HasQueue self.old v port }
        requires room { let to = destination_of self.old v port in 0 < room_at self.old to.0 to.1 }
        requires total { total_of self.old < 2 ^ 64 - 1 }
        ensures { let to = destination_of self.old v port in Changes self.old self.new to.0 to.1 (pushed (state_at self.old to.0 to.1) message) }
    {
        let to = self.queues[start as usize + port as usize].far();
        self.queues[to as usize].push(message);
        self.total += 1;
    }

    /// Appends a message to the queue of a port. Takes no memory.
    pub fn push(&mut self, v: u32, port: u32, message: M)
        requires port { HasQueue self.old v port }
        requires room { 0 < room_at self.old v port }
        requires total { total_of self.old < 2 ^ 64 - 1 }
        ensures { Changes self.old self.new v port (pushed (state_at self.old v port) message) }
    {
        let at = self.starts[v as usize] as usize + port as usize;
        self.queues[at].push(message);
        self.total += 1;
    }

    /// Takes the first message of the queue of a port, if one waits there. Takes no memory.
    pub fn take_front(&mut self, v: u32, port: u32) -> Option<M>
        requires port { HasQueue self.old v port }
        ensures first { result ≡ slice_get (queue_at self.old v port) 0 }
        ensures left { Changes self.old self.new v port (taken (state_at self.old v port)) }
    {
        self.take_front_from(self.start(v), v, port)
    }

    /// The same, where it is known where the queues of the node begin.
    pub fn take_front_from(&mut self, start: u32, v: u32, port: u32) -> Option<M>
        requires start { start ≡ first_queue self.old v }
        requires port { HasQueue self.old v port }
        ensures first { result ≡ slice_get (queue_at self.old v port) 0 }
        ensures left { Changes self.old self.new v port (taken (state_at self.old v port)) }
    {
        let first = self.queues[start as usize + port as usize].take_front();
        self.total -= count(&first);
        first
    }

    /// Puts the first message of the queue of a port behind the others; an empty queue stays so. Takes no memory.
    pub fn requeue(&mut self, v: u32, port: u32)
        requires port { HasQueue self.old v port }
        ensures { Changes self.old self.new v port (requeued (state_at self.old v port)) }
    {
        self.requeue_from(self.start(v), v, port);
    }

    /// The same, where it is known where the queues of the node begin.
    pub fn requeue_from(&mut self, start: u32, v: u32, port: u32)
        requires start { start ≡ first_queue self.old v }
        requires port { HasQueue self.old v port }
        ensures { Changes self.old self.new v port (requeued (state_at self.old v port)) }
    {
        self.queues[start as usize + port as usize].requeue();
    }

    /// The first message that waits at a port.
    pub fn first(&self, v: u32, port: u32) -> Option<&M>
        requires { HasQueue self.now v port }
        ensures { option_map (λ m. m.now) result ≡ slice_get (queue_at self.now v port) 0 }
    {
        self.first_from(self.start(v), v, port)
    }

    /// The same, where it is known where the queues of the node begin.
    pub fn first_from(&self, start: u32, v: u32, port: u32) -> Option<&M>
        requires start { start ≡ first_queue self.now v }
        requires port { HasQueue self.now v port }
        ensures { option_map (λ m. m.now) result ≡ slice_get (queue_at self.now v port) 0 }
    {
        self.queues[start as usize + port as usize].first()
    }

    /// How many messages wait at a port.
    pub fn len_at(&self, v: u32, port: u32) -> u64
        requires { HasQueue self.now v port }
        ensures { result ≡ length (queue_at self.now v port) }
    {
        self.len_from(self.start(v), v, port)
    }

    /// The same, where it is known where the queues of the node begin.
    pub fn len_from(&self, start: u32, v: u32, port: u32) -> u64
        requires start { start ≡ first_queue self.now v }
        requires port { HasQueue self.now v port }
        ensures { result ≡ length (queue_at self.now v port) }
    {
        self.queues[start as usize + port as usize].len()
    }

    /// How many messages wait at all ports.
    pub fn total(&self) -> u64
        ensures { result ≡ total_of self.now }
    {
        self.total
    }
}

impl<M: Copy> Channels<M> {
    /// A copy of the first message that waits at a port.
    pub fn front(&self, v: u32, port: u32) -> Option<M>
        requires { HasQueue self.now v port }
        ensures { result ≡ slice_get (queue_at self.now v port) 0 }
    {
        self.first(v, port).copied()
    }

    /// The same, where it is known where the queues of the node begin.
    pub fn front_from(&self, start: u32, v: u32, port: u32) -> Option<M>
        requires start { start ≡ first_queue self.now v }
        requires port { HasQueue self.now v port }
        ensures { result ≡ slice_get (queue_at self.now v port) 0 }
    {
        self.first_from(start, v, port).copied()
    }
}

/// How many messages these are: one, or none.
fn count<M>(message: &Option<M>) -> u64
    ensures { result ≡ counted message.now }
{
    match message {
        Some(_) => 1,
        None => 0,
    }
}
