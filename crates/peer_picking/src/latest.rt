//! What is kept of a run that takes first what was sent last.
ghost use Rattle.std.specs.Prelude.{◌≡◌, ℕ, ◌+◌, ◌<◌, ◌^◌, [], length, IfOk};
ghost use Rattle.peer_network.specs.Network.{At, network_of};
ghost use Rattle.peer_index.specs.Places.{HasPlace, IsPlaced};
ghost use Rattle.peer_net.specs.NetState.{network};
ghost use Rattle.peer_runs.specs.WorldState.{ready_events};
ghost use Rattle.peer_picking.specs.LifoKept.{AreLatest, AreLatestBefore, IsFor, with_one};
ghost use Rattle.peer_picking.specs.LifoRuns.{IsNext};

use ghs_graph::graph::Graph;
use ghs_maxima::maxima::Maxima;
use peer_index::placed::Placed;
use peer_index::places::Places;
use peer_machine::protocol::Protocol;
use peer_network::event::{Event, node_of};
use peer_runs::world::World;
use peer_schedule::schedule::Schedule;
use std::alloc::{AllocError, Global};
use std::marker::Model;

/// The messages of a run, numbered 1, 2, .. as they are sent, as far as they tell which Take is next: 20 bytes an event, and 4
/// a node.
#[derive(Debug, Drop)]
pub struct Latest {
    places: Places,
    /// How many messages were sent.
    count: u64,
    /// At the place of each Take for which a message waits the number of the last one that was sent to its port, and 0
    /// elsewhere.
    ranks: Maxima,
}

impl Model for Latest {
    ghost use Rattle.peer_picking.specs.LifoKept.{LatestState};

    ghost Value = { LatestState };

    ghost view = { λ l. record { bases = l.places; count = l.count; ranks = l.ranks } };
}

impl Latest {
    /// That of a world that stands at its opening. O(N + E).
    pub fn of<P: Protocol>(alloc: Global, world: &World<P>) -> Result<Latest, AllocError>
        requires trace { world.now.net.trace ≡ [] }
        ensures { IfOk result (AreLatest P.rules world.now.net) }
    {
        let graph = world.net().graph();
        let places = Places::of(alloc, graph)?;
        let ranks = Maxima::zeros(alloc, places.count(graph))?;
        Ok(Latest {
            places,
            count: 0,
            ranks,
        })
    }

    /// The next event: the Take at the port to which a message was sent last, of those at which one waits; where none waits
    /// what the next word of a schedule picks. It comes with where the events of its node begin. O(log N).
    pub fn pick<P: Protocol>(&self, world: &World<P>, schedule: &mut Schedule) -> Placed
        requires latest { AreLatest P.rules world.now.net self.now }
        requires some { 0 < length (ready_events P.rules world.now) }
        ensures next { IsNext P.rules world.now schedule.old result.event schedule.new }
        ensures placed { IsPlaced (network world.now.net) result }
    {
        let graph = world.net().graph();
        match self.ranks.greatest() {
            Some(at) => self.placed(graph, self.places.event_at(graph, at)),
            None => world.ready_placed_at(schedule.pick(world.ready_count())),
        }
    }

    /// An event, with where those of its node begin. O(1).
    fn placed(&self, graph: &Graph, event: Event) -> Placed
        requires kept { IsFor (network_of graph.now) self.now }
        requires place { HasPlace (network_of graph.now) event }
        ensures event { result.event ≡ event }
        ensures placed { IsPlaced (network_of graph.now) result }
    {
        let wake = Event::Wake(node_of(event));
        Placed {
            event,
            base: self.places.place_of(graph, wake) as u32,
        }
    }

    /// Keeps up with an event that has happened, by what its node has sent. O(log N), and as much for each message. Takes no
    /// memory.
    pub fn follow<P: Protocol>(
        &mut self,
        world: &World<P>,
        placed: Placed,
        sends: &[(u32, P::Message)],
    )
        requires placed { IsPlaced (network world.now.net) placed }
        requires before { AreLatestBefore P.rules world.now placed.event sends.now self.old }
        ensures { AreLatest P.rules world.now.net self.new }
    {
        let net = world.net();
        let graph = net.graph();
        let _ = net.trace();
        for (port, _) in sends {
            self.send_on(graph, placed.node(), *port);
        }
        if !net.lawful_placed(placed) {
            self.ranks.set(self.places.place_of(graph, placed.event), 0);
        }
    }

    /// Node `v` sends a message on a port. O(log N), and takes no memory.
    fn send_on(&mut self, graph: &Graph, v: u32, port: u32)
        requires port { At (network_of graph.now) v port }
        requires few { self.old.count + 1 < 2 ^ 64 }
        requires kept { IsFor (network_of graph.now) self.old }
        ensures { self.new ≡ with_one (network_of graph.now) v port self.old }
    {
        let _ = graph.nodes();
        let end = &graph.ports(v)[port as usize];
        let at = self
            .places
            .place_of(graph, Event::Take(end.far, end.far_port));
        self.count += 1;
        self.ranks.set(at, self.count);
    }
}
