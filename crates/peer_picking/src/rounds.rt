//! Which round it is, and the events of a world that belong to it.
ghost use Rattle.std.specs.Prelude.{◌≡◌, ◌+◌, ◌<◌, ◌^◌, [], All, false, length, nat_lt, IfOk};
ghost use Rattle.peer_network.specs.Network.{At, network_of};
ghost use Rattle.peer_network.specs.declared.event.Event.{Event as Happening};
ghost use Rattle.peer_index.specs.Index.{IsIndexOf};
ghost use Rattle.peer_index.specs.Places.{HasPlace, IsPlaced};
ghost use Rattle.peer_machine.specs.Net.{event_node};
ghost use Rattle.peer_net.specs.NetState.{network};
ghost use Rattle.peer_runs.specs.WorldState.{ready_events};
ghost use Rattle.peer_schedule.specs.Picks.{IsPick};
ghost use Rattle.peer_schedule.specs.Schedule.{next_of};
ghost use Rattle.peer_picking.specs.Kept.{AreRounds, AreRoundsBefore, HasOpened, HasSettled, IsRound, count_of, sent_to, without};
ghost use Rattle.peer_picking.specs.Runs.{round_events};

use crate::round::Round;
use ghs_graph::graph::Graph;
use peer_index::index::Index;
use peer_index::placed::Placed;
use peer_machine::ends::Ends;
use peer_network::event::Event;
use peer_runs::world::World;
use peer_schedule::schedule::Schedule;
use std::alloc::{AllocError, Global};
use std::marker::Model;
use std::mem;

/// Which round it is, its events, and the messages that were sent within it: those of the next. When a round is over the two
/// change places.
#[derive(Debug, Drop)]
pub struct Rounds {
    round: u64,
    here: Round,
    next: Round,
}

impl Model for Rounds {
    ghost use Rattle.peer_picking.specs.Kept.{RoundsState};

    ghost Value = { RoundsState };

    ghost view = { λ x. record { round = x.round; here = x.here; next = x.next } };
}

impl Rounds {
    /// Round 0 of a world that stands at its opening: the wakes. O(N + E).
    pub fn of<P: Ends>(alloc: Global, world: &World<P>) -> Result<Rounds, AllocError>
        requires trace { world.now.net.trace ≡ [] }
        ensures rounds { IfOk result (AreRounds P.rules world.now) }
        ensures first { IfOk result (λ x. x.round ≡ 0) }
    {
        let graph = world.net().graph();
        let index = Index::none(alloc, graph)?;
        let unmarked = index.unmarked(alloc, graph)?;
        let next = Round::none(alloc, graph, unmarked)?;
        let here = wakes_of(alloc, world, index)?;
        Ok(Rounds {
            round: 0,
            here,
            next,
        })
    }

    /// Which round it is.
    pub fn count(&self) -> u64
        ensures { result ≡ self.now.round }
    {
        self.round
    }

    /// Begins the next round where this one is over. O(1).
    pub fn settle<P: Ends>(&mut self, world: &World<P>)
        requires some { 0 < length (ready_events P.rules world.now) }
        requires few { self.old.round + 1 < 2 ^ 64 }
        requires rounds { AreRounds P.rules world.now self.old }
        ensures { HasSettled P.rules world.now self.old self.new }
    {
        let _ = world.net().trace();
        if self.here.index().count() > 0 {
            return;
        }
        mem::swap(&mut self.here, &mut self.next);
        self.round += 1;
    }

    /// The event of the round that the next word of a schedule picks, with where the events of its node begin. O(log N).
    pub fn pick<P: Ends>(&self, world: &World<P>, schedule: &mut Schedule) -> Placed
        requires some { 0 < length (round_events P.rules world.now self.now.round) }
        requires rounds { AreRounds P.rules world.now self.now }
        ensures pick { IsPick (round_events P.rules world.now self.now.round) schedule.old result.event }
        ensures placed { IsPlaced (network world.now.net) result }
        ensures next { schedule.new ≡ next_of schedule.old }
    {
        let net = world.net();
        let _ = net.trace();
        let place = schedule.pick(self.here.index().count() as usize);
        self.here.index().kth_placed(net.graph(), place as u32)
    }

    /// Keeps up with an event of the round that has happened, by what its node has sent. O(1), and as much for each message.
    /// Takes no memory.
    pub fn follow<P: Ends>(&mut self, world: &World<P>, placed: Placed, sends: &[(u32, P::Message)])
        requires placed { IsPlaced (network world.now.net) placed }
        requires before { AreRoundsBefore P.rules world.now placed.event sends.now self.old }
        ensures rounds { AreRounds P.rules world.now self.new }
        ensures round { self.new.round ≡ self.old.round }
    {
        let net = world.net();
        let graph = net.graph();
        let _ = net.trace();
        self.take(graph, placed);
        send(&mut self.next, graph, placed, sends);
    }

    /// The event's node is awake, and the message that the event takes is gone.
    fn take(&mut self, graph: &Graph, placed: Placed)
        requires placed { IsPlaced (network_of graph.now) placed }
        requires round { IsRound (network_of graph.now) self.old.here }
        ensures { self.new ≡ record self.old { here = without (network_of graph.now) placed.event self.old.here } }
    {
        self.here.put(graph, placed.wake(), 0);
        match placed.event {
            Event::Wake(_) => {}
            Event::Take(..) => {
                let count = self.here.get(graph, placed);
                self.here.put(graph, placed, count.saturating_sub(1));
            }
        }
    }
}

/// Of a world at its opening the wakes that are ready, each once. O(N + E).
fn wakes_of<P: Ends>(alloc: Global, world: &World<P>, index: Index) -> Result<Round, AllocError>
    requires { IsIndexOf (network world.now.net) (λ _. false) index }
    ensures { IfOk result (HasOpened P.rules world.now) }
{
    let net = world.net();
    let graph = net.graph();
    let mut round = Round::none(alloc, graph, index)?;
    for v in 1..graph.nodes() + 1 {
        let event = Event::Wake(v);
        let placed = round.index().placed(graph, event);
        round.put(graph, placed, once_if(world.is_ready(event)));
    }
    Ok(round)
}

/// Once, or not at all.
fn once_if(ready: bool) -> u64
    ensures { nat_lt 0 result ≡ ready }
{
    if ready { 1 } else { 0 }
}

/// At the far end of each port on which the node of an event sends there is a message more.
fn send<M>(round: &mut Round, graph: &Graph, placed: Placed, sends: &[(u32, M)])
    requires placed { IsPlaced (network_of graph.now) placed }
    requires round { IsRound (network_of graph.now) round.old }
    requires ports { All (λ s. At (network_of graph.now) (event_node placed.event) s.0) sends.now }
    requires room { (e : Happening) → HasPlace (network_of graph.now) e → count_of (network_of graph.now) round.old e + length sends.now < 2 ^ 64 }
    ensures { round.new ≡ sent_to (network_of graph.now) (event_node placed.event) sends.now round.old }
{
    let _ = graph.nodes();
    for (port, _) in sends {
        let far = round.index().far_take_placed(graph, placed, *port);
        let count = round.get(graph, far);
        round.put(graph, far, count + 1);
    }
}
