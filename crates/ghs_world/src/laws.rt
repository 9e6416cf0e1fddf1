//! What holds of the words in which the world is described. Each law is a function that does nothing.
ghost use Rattle.std.specs.Prelude.{◌≡◌};
ghost use Rattle.ghs_core.specs.Fairness.{GoesOnFairly};
ghost use Rattle.ghs_core.specs.OneEnd.{HaveOneEnd};
ghost use Rattle.ghs_world.specs.WorldState.{home};

use crate::world::World;

/// Two worlds of one graph, whoever wakes in each and whatever was committed: what is at home in both has one end, as
/// `ghs_core::one_end::law_one_end` says it of two nets.
pub fn law_one_end(left: &World, right: &World)
    requires graph { right.now.net.graph ≡ left.now.net.graph }
    ensures { HaveOneEnd left.now.net.graph (home left.now) (home right.now) }
{
    ghs_core::one_end::law_one_end(left.net(), right.net());
}

/// From a world, whatever was committed: what may follow what is at home, as `ghs_core::fairness::law_goes_on_fairly` says it of
/// a net.
pub fn law_goes_on_fairly(world: &World)
    ensures { GoesOnFairly world.now.net.graph (home world.now) }
{
    ghs_core::fairness::law_goes_on_fairly(world.net());
}
