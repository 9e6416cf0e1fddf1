//! Protocols whose runs end in silence, and those that find links.
use crate::protocol::Protocol;

/// A protocol whose runs come to an end: a run has ended just where no message waits and nobody sleeps.
///
/// ```text
/// impl Ends for Boruvka { .. }   // its end: with each node one is joined that has halted
/// ```
pub trait Ends: Protocol {
    ghost use Rattle.ghs_graph.specs.Graph.{Shape};
    ghost use Rattle.peer_machine.specs.Ends.{SilenceIsEnd, SilenceWakesAll};
    ghost use Rattle.peer_machine.specs.Net.{Net};
    ghost use Rattle.peer_machine.specs.Protocol.{StaysAwake};
    ghost use Rattle.peer_machine.specs.Rules.{NeverDefers};

    /// A run of the graph has ended in this net.
    ghost has_ended: { Shape → Net Self.Node Self.Message → Type 0 };

    /// No message is ever deferred.
    ghost never_defers: { NeverDefers Self.rules };

    /// Each event leaves its node awake.
    ghost stays_awake: { StaysAwake Self.rules };

    /// In silence nobody sleeps in the component of a node that is awake.
    ghost wakes_all: { SilenceWakesAll Self.rules };

    /// A run has ended just where no message waits and nobody sleeps.
    ghost ends: { SilenceIsEnd Self.rules has_ended };
}

/// A protocol whose nodes mark links as branches, which at the end are what it finds.
///
/// ```text
/// impl FindsTree for Boruvka { .. }   // at the end its branches are the minimum spanning forest
/// ```
pub trait FindsTree: Ends {
    ghost use Rattle.std.specs.Prelude.{◌≡◌, ℕ, Bool, List};
    ghost use Rattle.ghs_graph.specs.Graph.{Shape};
    ghost use Rattle.ghs_graph.specs.declared.key.Key.{Key};
    ghost use Rattle.peer_machine.specs.Branches.{BranchesAreFound};

    /// Whether a node has marked a port as a branch.
    ghost is_branch: { Self.Node → ℕ → Bool };

    /// What these links of a graph are at the end.
    ghost found: { Shape → List Key → Type 0 };

    /// Whether a node has marked a port as a branch. O(1).
    fn is_branch(node: &Self::Node, port: u32) -> bool
        ensures { result ≡ is_branch node.now port };

    /// The branch links of each run that has ended are what the protocol finds.
    ghost finds: { BranchesAreFound Self.rules Self.has_ended is_branch found };
}
