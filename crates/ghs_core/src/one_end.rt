//! What two nets of one graph have in common. The law is a function that does nothing.
ghost use Rattle.std.specs.Prelude.{◌≡◌};
ghost use Rattle.ghs_core.specs.NetState.{net_of};
ghost use Rattle.ghs_core.specs.OneEnd.{HaveOneEnd};

use crate::net::Net;

/// Two nets of one graph, whatever was played on each: nodes of one component that have halted have one core at one level;
/// once both runs have ended as many Connects were sent; and where nothing waits in either, the nodes are the same.
pub fn law_one_end(left: &Net, right: &Net)
    requires graph { right.now.graph ≡ left.now.graph }
    ensures { HaveOneEnd left.now.graph (net_of left.now) (net_of right.now) }
{
    let _ = left.trace();
    let _ = right.trace();
}
