//! The end of a run, and the links that it has found.
use crate::protocol::Boruvka;
use boruvka_node::mark::Mark;
use boruvka_node::node::Node;
use peer_machine::ends::{Ends, FindsTree};

/// A run has ended where with each node one is joined that has halted.
impl Ends for Boruvka {
    ghost use Rattle.boruvka.specs.Ended.{HasEnded};
    ghost use Rattle.boruvka.specs.Ending.{all_woken, defers_never, silence_ends};
    ghost use Rattle.boruvka_protocol.proofs.lemmas.Laws.{stays_awake as awake_stays};

    ghost has_ended = { HasEnded };

    ghost never_defers = { defers_never };

    ghost stays_awake = { awake_stays };

    ghost wakes_all = { all_woken };

    ghost ends = { silence_ends };
}

/// At the end the Branch links are the minimum spanning forest.
impl FindsTree for Boruvka {
    ghost use Rattle.boruvka.specs.Ended.{IsForest, marks_branch};
    ghost use Rattle.boruvka.specs.Ending.{forest_found};

    ghost is_branch = { marks_branch };

    ghost found = { IsForest };

    fn is_branch(node: &Node, port: u32) -> bool {
        match node.port(port).mark {
            Mark::Branch => true,
            Mark::Basic => false,
            Mark::Asked => false,
            Mark::Inside => false,
        }
    }

    ghost finds = { forest_found };
}
