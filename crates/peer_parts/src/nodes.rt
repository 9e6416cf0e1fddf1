//! The messages of a run by node, kept from event to event.
ghost use Rattle.std.specs.Prelude.{◌≡◌, ◌≤◌, ◌-◌, [], IfOk};
ghost use Rattle.ghs_graph.specs.Graph.{Shape};
ghost use Rattle.peer_network.specs.declared.event.Event.{Event as Happening};
ghost use Rattle.peer_parts.specs.Kept.{AreNodeParts};

use crate::counting::count;
use ghs_graph::graph::Graph;
use peer_machine::event::Event;
use peer_net::net::Net;
use peer_network::event::node_of;
use peer_runs::follower::Follower;
use peer_words::spoken::Spoken;
use std::alloc::{AllocError, Global};
use std::marker::Model;

/// How many messages of each kind a node has sent, by the number of the kind.
#[derive(Debug, Drop)]
pub struct NodePart {
    counts: Vec<u64>,
}

impl Model for NodePart {
    ghost use Rattle.std.specs.Prelude.{ℕ, List};

    ghost Value = { List ℕ };

    ghost view = { λ p. p.counts.items };
}

impl NodePart {
    /// How many of each kind.
    pub fn counts(&self) -> &[u64]
        ensures { result.now ≡ self.now }
    {
        &self.counts
    }
}

/// How many messages of each kind each node of a run has sent, by its events so far.
///
/// ```text
/// let mut parts = NodeParts::none::<Boruvka>(alloc, (), world.net().graph())?;
/// run_followed(alloc, &mut world, &mut Schedule::seeded(7), 1 << 40, &mut parts)?;
/// // once a run of two nodes has ended, parts.all()[0].counts() are [1, 1, 0, 0, 0]: a Connect and an Initiate
/// ```
#[derive(Debug, Drop)]
pub struct NodeParts {
    parts: Vec<NodePart>,
}

impl Model for NodeParts {
    ghost use Rattle.std.specs.Prelude.{ℕ, List};

    ghost Value = { List (List ℕ) };

    ghost view = { λ p. p.parts.items };
}

impl NodeParts {
    /// Those of a run that has no event yet. O(N) for each kind. Refusal: out of memory.
    pub fn none<P: Spoken>(
        alloc: Global,
        setting: P::Setting,
        graph: &Graph,
    ) -> Result<NodeParts, AllocError>
        requires { P.goes_by setting }
        ensures { IfOk result (λ p. AreNodeParts P.rules P.words graph.now [] p) }
    {
        let count = graph.nodes();
        let mut parts = Vec::with_capacity(alloc, count as usize)?;
        for _ in 0..count {
            parts.push(NodePart {
                counts: vec![in alloc; 0u64; P::kinds(setting)]?,
            })?;
        }
        Ok(NodeParts { parts })
    }

    /// All nodes, from node 1 on.
    pub fn all(&self) -> &[NodePart]
        ensures { result.now ≡ self.now }
    {
        &self.parts
    }
}

/// They follow the events of their run.
impl<P: Spoken> Follower<P> for NodeParts {
    type Seen = ();

    ghost is_of = { λ g es p. AreNodeParts P.rules P.words g es p };

    ghost has_seen = { λ _ _ _. Unit {0} };

    fn look(&self, _net: &Net<P>, _event: Event) -> Result<(), AllocError> {
        Ok(())
    }

    /// O(1) for each message that is sent.
    fn follow(&mut self, net: &Net<P>, event: Event, _seen: (), sends: &[(u32, P::Message)]) {
        // Read for their clauses: the events are a run, and what it sends is within the bound.
        let _ = net.trace();
        let counts = &mut self.parts[node_of(event) as usize - 1].counts;
        count::<P>(net.setting(), counts, sends);
    }
}
