//! How long a run is, kept from event to event.
ghost use Rattle.std.specs.Prelude.{◌≡◌, false, [], IfOk, List, OnOk};
ghost use Rattle.ghs_graph.specs.Graph.{Shape};
ghost use Rattle.peer_network.specs.declared.event.Event.{Event as Happening};
ghost use Rattle.peer_runs.specs.Following.{HasHappened};
ghost use Rattle.peer_net.specs.NetState.{NetState};
ghost use Rattle.peer_lengths.specs.Kept.{AreNumbersOf, HasSeen};
ghost use Rattle.peer_lengths.specs.Lengths.{AreLengths, IsMeterOf};

use crate::lengths::Lengths;
use crate::sent::{Sent, measure};
use ghs_graph::graph::Graph;
use peer_chains::chains::Chains;
use peer_machine::event::Event;
use peer_machine::measured::Measured;
use peer_machine::protocol::Protocol;
use peer_net::net::Net;
use peer_network::event::node_of;
use peer_runs::follower::Follower;
use std::alloc::{AllocError, Global};
use std::marker::Model;

/// The chains and the bits of a run, by its events so far.
#[derive(Drop)]
pub struct Meter<P: Measured> {
    chains: Chains,
    /// Memory was refused, so the chains are of no use.
    lost: bool,
    sent: Sent,
    scale: P::Scale,
}

impl<P: Measured> Model for Meter<P> {
    ghost use Rattle.peer_lengths.specs.Lengths.{MeterState};

    ghost Value = { MeterState P.Scale };

    ghost view = { λ m. record { chains = m.chains; lost = m.lost; sent = m.sent; scale = m.scale } };
}

impl<P: Measured> Meter<P> {
    /// That of a run that has no event yet. O(N + E). Refusal: out of memory.
    pub fn none(alloc: Global, setting: P::Setting, graph: &Graph) -> Result<Meter<P>, AllocError>
        requires { P.goes_by setting }
        ensures meter { IfOk result (λ m. IsMeterOf P.rules P.is_of graph.now [] m) }
        ensures kept { IfOk result (λ m. m.lost ≡ false) }
    {
        Ok(Meter {
            chains: Chains::none(alloc, graph)?,
            lost: false,
            sent: Sent::none(),
            scale: P::scale_of(setting, graph),
        })
    }

    /// How long the run is. O(N). Refusal: out of memory, at an event of the run.
    pub fn lengths(&self) -> Result<Lengths, AllocError>
        ensures { IfOk result (λ l. (g : Shape) (es : List Happening) → IsMeterOf P.rules P.is_of g es self.now → AreLengths P.rules g es l) }
    {
        if self.lost {
            return Err(AllocError);
        }
        Ok(Lengths {
            chain: self.chains.longest(),
            bits: self.sent.bits,
            longest: self.sent.longest,
        })
    }
}

/// What an event's node was before it: whether it slept, and whether it defers the event's message.
#[derive(Clone, Copy, Debug)]
pub struct Seen {
    pub asleep: bool,
    pub deferred: bool,
}

/// A meter follows the events of its run.
impl<P: Measured> Follower<P> for Meter<P> {
    type Seen = Seen;

    ghost is_of = { λ g es m. IsMeterOf P.rules P.is_of g es m };

    ghost has_seen = { λ s e x. HasSeen P.rules s e x };

    fn look(&self, net: &Net<P>, event: Event) -> Result<Seen, AllocError> {
        if self.lost {
            return Err(AllocError);
        }
        let _ = net.trace();
        Ok(Seen {
            asleep: P::is_asleep(net.node(node_of(event))),
            deferred: net.defers(event),
        })
    }

    /// O(1) for each message that is sent.
    fn follow(&mut self, net: &Net<P>, event: Event, seen: Seen, sends: &[(u32, P::Message)]) {
        let _ = net.trace();
        self.sent.add(measure::<P>(self.scale, sends));
        if !self.lost {
            self.lost = carry(&mut self.chains, net, event, seen, sends).is_err();
        }
    }
}

/// The numbers follow an event that has happened. Refusal: out of memory; the numbers are then of no use.
fn carry<P: Protocol>(
    chains: &mut Chains,
    net: &Net<P>,
    event: Event,
    seen: Seen,
    sends: &[(u32, P::Message)],
) -> Result<(), AllocError>
    requires { (s : NetState) × HasHappened P.rules s event net.now sends.now × HasSeen P.rules s event seen × AreNumbersOf P.rules s.graph s.trace chains.old }
    ensures { OnOk result (AreNumbersOf P.rules net.now.graph net.now.trace chains.new) }
{
    let _ = net.trace();
    chains.hear(event, seen.asleep, seen.deferred)?;
    chains.send(net.graph(), node_of(event), sends)?;
    Ok(())
}
