//! What is kept of a run from event to event.
ghost use Rattle.ghs_core.specs.NetState.{IsAnswer, IsLawful};
ghost use Rattle.ghs_core.specs.PutBack.{IsPutBack};
ghost use Rattle.ghs_graph.specs.Graph.{Shape};
ghost use Rattle.peer_network.specs.declared.event.Event.{Event as Happening};
ghost use Rattle.std.specs.Prelude.{[], ◌∷◌, ◌++◌, ◌<◌, ◌^◌, List, OnOk, length};

use ghs_core::net::Net;
use ghs_node::delta::Delta;
use peer_network::event::Event;
use std::alloc::AllocError;

/// What follows the events of a run, one after another, each before it happens.
pub trait Follower {
    /// It is what is kept of a run of a graph, by its events so far.
    ghost is_of: { Shape → List Happening → Self → Type 0 };

    /// Follows an event that is to happen, by what its node will do. Refusal: out of memory; what is kept is then of no use.
    fn follow(&mut self, net: &Net, event: Event, delta: &Delta) -> Result<(), AllocError>
        requires lawful { IsLawful net.now event }
        requires answer { IsAnswer net.now event delta.now }
        requires few { length net.now.trace < 2 ^ 40 }
        requires kept { is_of net.now.graph net.now.trace self.old }
        ensures { OnOk result (is_of net.now.graph (net.now.trace ++ event ∷ []) self.new) };

    /// The same of a message that is to be put back: its node does nothing else.
    fn follow_back(&mut self, net: &Net, v: u32, port: u32) -> Result<(), AllocError>
        requires lawful { IsLawful net.now (Event.Take v port) }
        requires back { IsPutBack net.now v port }
        requires few { length net.now.trace < 2 ^ 40 }
        requires kept { is_of net.now.graph net.now.trace self.old }
        ensures { OnOk result (is_of net.now.graph (net.now.trace ++ Event.Take v port ∷ []) self.new) };
}
