//! The chains of a run of GHS, kept by whoever makes its events.
ghost use Rattle.ghs_following.specs.Chains.{longest_chain};
ghost use Rattle.ghs_following.specs.Kept.{AreChainsOf};
ghost use Rattle.ghs_graph.specs.Graph.{Shape};
ghost use Rattle.peer_network.specs.declared.event.Event.{Event as Happening};
ghost use Rattle.peer_network.specs.Network.{network_of};
ghost use Rattle.std.specs.Prelude.{[], ◌≡◌, IfOk, List};

use crate::fate::is_deferred;
use crate::follower::Follower;
use ghs_core::net::{Net, is_asleep};
use ghs_graph::graph::Graph;
use ghs_node::delta::Delta;
use peer_chains::chains::Chains;
use peer_network::event::{Event, node_of};
use std::alloc::{AllocError, Global};
use std::marker::Model;

/// The chains of a run of GHS, by its events so far.
#[derive(Debug, Drop)]
pub struct RunChains {
    chains: Chains,
}

impl Model for RunChains {
    ghost use Rattle.peer_chains.specs.Kept.{Kept};

    ghost Value = { Kept };

    ghost view = { λ c. c.chains };
}

impl RunChains {
    /// Those of a run that has no event yet.
    pub fn none(alloc: Global, graph: &Graph) -> Result<RunChains, AllocError>
        ensures { IfOk result (λ c. AreChainsOf graph.now [] c) }
    {
        let chains = Chains::none(alloc, graph)?;
        Ok(RunChains { chains })
    }

    /// How many messages the longest chain of the run has; 0, where none was heard.
    pub fn longest(&self) -> u64
        ensures { (g : Shape) (es : List Happening) → AreChainsOf g es self.now → result ≡ longest_chain (network_of g) es }
    {
        self.chains.longest()
    }
}

/// Chains follow the events of their run.
impl Follower for RunChains {
    ghost is_of = { λ g es c. AreChainsOf g es c };

    /// O(1), and so for each message that is sent.
    fn follow(&mut self, net: &Net, event: Event, delta: &Delta) -> Result<(), AllocError> {
        let _ = net.trace();
        let v = node_of(event);
        let asleep = is_asleep(net.node(v).head());
        self.chains.hear(event, asleep, is_deferred(delta.fate))?;
        self.chains.send(net.graph(), v, delta.sends.as_slice())?;
        Ok(())
    }

    /// Where the message alone waits and its node is awake, nothing changes.
    fn follow_back(&mut self, net: &Net, v: u32, port: u32) -> Result<(), AllocError> {
        let _ = net.trace();
        let asleep = is_asleep(net.node(v).head());
        if !asleep && net.waiting_at(v, port) == 1 {
            return Ok(());
        }
        self.chains.hear(Event::Take(v, port), asleep, true)?;
        Ok(())
    }
}
