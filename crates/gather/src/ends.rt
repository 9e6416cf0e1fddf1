//! The end of a run, and the links that it has found.
use crate::protocol::Gather;
use gather_node::node::Node;
use peer_machine::ends::{Ends, FindsTree};

/// A run has ended where no message waits and each node has halted.
impl<'s> Ends for Gather<'s> {
    ghost use Rattle.gather_protocol.specs.Laws.{HasEnded};
    ghost use Rattle.gather_protocol.proofs.lemmas.Laws.{awake_stays, defers_never, silence_ends, silence_wakes};

    ghost has_ended = { HasEnded };

    ghost never_defers = { defers_never };

    ghost stays_awake = { awake_stays };

    ghost wakes_all = { silence_wakes };

    ghost ends = { silence_ends };
}

/// At the end the Branch links are the minimum spanning forest.
impl<'s> FindsTree for Gather<'s> {
    ghost use Rattle.ghs_graph.specs.Links.{IsTree};
    ghost use Rattle.gather_protocol.specs.Laws.{marks_branch};
    ghost use Rattle.gather_protocol.proofs.lemmas.Laws.{branches_found};

    ghost is_branch = { marks_branch };

    ghost found = { λ g ks. IsTree g.keys ks };

    fn is_branch(node: &Node<'s>, port: u32) -> bool {
        node.is_branch(port)
    }

    ghost finds = { branches_found };
}
