//! The end of a run, and the links that it has found.
use crate::node::Node;
use crate::protocol::Echo;
use peer_machine::ends::{Ends, FindsTree};

/// A run has ended where each node takes part and awaits no answer.
impl Ends for Echo {
    ghost use Rattle.echo.specs.Ended.{HasEnded};
    ghost use Rattle.echo.specs.Ending.{all_woken, awake_stays, defers_never, silence_ends};

    ghost has_ended = { HasEnded };

    ghost never_defers = { defers_never };

    ghost stays_awake = { awake_stays };

    ghost wakes_all = { all_woken };

    ghost ends = { silence_ends };
}

/// A branch leads to a node's parent. At the end the branches are a forest.
impl FindsTree for Echo {
    ghost use Rattle.echo.specs.Ended.{IsForest, marks_parent};
    ghost use Rattle.echo.specs.Forests.{forest_found};

    ghost is_branch = { marks_parent };

    ghost found = { IsForest };

    fn is_branch(node: &Node, port: u32) -> bool {
        node.head.parent == Some(port)
    }

    ghost finds = { forest_found };
}
