//! What holds of every run. The laws are functions that do nothing.
ghost use Rattle.ghs_orders.specs.RoundRobinLaws.{LapsAreFair, TurnIsOne, WakesComeFirst};

/// One event at most is next in turn, so the run is determined.
pub fn law_turn_is_one()
    ensures { TurnIsOne }
{}

/// Each wake is one of the first lap.
pub fn law_wakes_come_first()
    ensures { WakesComeFirst }
{}

/// It is weakly fair: each of its laps, the last once it is completed, takes from each port that holds a message that doesn't wait
/// when the lap begins.
pub fn law_laps_are_fair()
    ensures { LapsAreFair }
{}
