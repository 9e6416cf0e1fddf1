//! What is kept of a run from event to event.
ghost use Rattle.std.specs.Prelude.{IfOk, List};
ghost use Rattle.ghs_graph.specs.Graph.{Shape};
ghost use Rattle.peer_network.specs.declared.event.Event.{Event as Happening};
ghost use Rattle.peer_net.specs.NetState.{IsLawful, NetState};
ghost use Rattle.peer_runs.specs.Following.{IsBehind};

use peer_machine::protocol::Protocol;
use peer_net::event::Event;
use peer_net::net::Net;
use std::alloc::AllocError;

/// What follows the events of a run while they are made. It looks at the net before each event, and follows the event once it
/// has happened. Memory that it is refused there it reports at its next look, which stops the run.
///
/// ```text
/// let mut meter = Meter::<Boruvka>::none(alloc, (), world.net().graph())?;
/// run_followed(alloc, &mut world, &mut Schedule::seeded(7), 1 << 40, &mut meter)?;
/// // meter.lengths() are those of the run that world.net().trace() is
/// ```
pub trait Follower<P: Protocol> {
    /// What it looks at before an event.
    type Seen: Copy;

    /// It is what is kept of a run of a graph, by its events so far.
    ghost is_of: { Shape → List Happening → Self → Type 0 };

    /// That is what it has seen of a net before an event.
    ghost has_seen: { NetState → Happening → Self.Seen → Type 0 };

    /// Looks at a net in which an event is to happen. Refusal: out of memory, at an event before.
    fn look(&self, net: &Net<P>, event: Event) -> Result<Self::Seen, AllocError>
        requires { IsLawful P.rules net.now event }
        ensures { IfOk result (λ s. has_seen net.now event s) };

    /// Follows an event that has happened, by what was seen before it and what its node has sent.
    fn follow(&mut self, net: &Net<P>, event: Event, seen: Self::Seen, sends: &[(u32, P::Message)])
        requires { IsBehind P.rules is_of has_seen self.old seen event net.now sends.now }
        ensures { is_of net.now.graph net.now.trace self.new };
}

/// Nothing is kept.
impl<P: Protocol> Follower<P> for () {
    type Seen = ();

    ghost is_of = { λ _ _ _. Unit {0} };

    ghost has_seen = { λ _ _ _. Unit {0} };

    fn look(&self, _net: &Net<P>, _event: Event) -> Result<(), AllocError> {
        Ok(())
    }

    fn follow(&mut self, _net: &Net<P>, _event: Event, _seen: (), _sends: &[(u32, P::Message)]) {}
}
