//! What holds of every run by rounds. Each law is a function that does nothing.
ghost use Rattle.ghs_rounds.specs.Laws.{AwakeChainsAreShort, AwakeRoundsAreFew, AwakeRoundsAreNear, PicksAreByMoments, PicksAreByRounds, RoundsAreChains, RoundsAreFew, RoundsAreFewer, RunsByRoundsAreShort, RunsByRoundsEnd, SimpleRoundsAreFew, WokenRoundsAreFew};

use ghs_following::laws::{law_chain_is_sent, law_chain_within_bound};
use ghs_protocol::interleavings::{
    law_bound, law_one_waits, law_others, law_patience_lasts, law_requeues, law_rules,
    law_sharp_bound, law_turns,
};
use ghs_protocol::laws::{law_awake, law_ledger, law_takes};

/// Of a run by rounds that has ended the longest chain has as many messages as there were rounds.
pub fn law_rounds_are_chains()
    ensures { RoundsAreChains }
{
    law_one_waits();
    law_requeues();
    law_turns();
    law_others();
    law_awake();
    law_rules();
    law_patience_lasts();
}

/// A run by rounds has as many rounds at most as the bound on messages and the nodes together.
pub fn law_rounds_are_few()
    ensures { RoundsAreFew }
{
    law_one_waits();
    law_requeues();
    law_turns();
    law_others();
    law_awake();
    law_rules();
    law_patience_lasts();
    law_chain_within_bound();
}

/// A schedule has picked a run by rounds, as it goes by chains, just where it has by the moments of sending: in a round the
/// messages that were sent before it are taken.
pub fn law_picks_are_by_moments()
    ensures { PicksAreByMoments }
{
    law_one_waits();
    law_requeues();
    law_turns();
    law_others();
    law_awake();
    law_rules();
    law_patience_lasts();
}

/// So what it has picked is a run by rounds.
pub fn law_picks_are_by_rounds()
    ensures { PicksAreByRounds }
{
    law_one_waits();
    law_requeues();
    law_turns();
    law_others();
    law_awake();
    law_rules();
    law_patience_lasts();
}

/// Of a graph with more than one node a run by rounds that has ended has as many rounds at most as the bound on messages less
/// twice the nodes, whoever wakes by itself.
pub fn law_rounds_are_fewer()
    ensures { RoundsAreFewer }
{
    law_one_waits();
    law_requeues();
    law_turns();
    law_others();
    law_awake();
    law_rules();
    law_patience_lasts();
    law_chain_is_sent();
    law_sharp_bound();
}

/// Where each node may wake by itself, a run by rounds that has ended has at most three rounds for each node and level, and two
/// for each level and each port but one of a node that has most.
pub fn law_awake_rounds()
    ensures { AwakeRoundsAreFew }
{
    law_one_waits();
    law_requeues();
    law_turns();
    law_others();
    law_awake();
    law_rules();
    law_patience_lasts();
}

/// Where no two links have the same ends, it has at most five for each node and level.
pub fn law_simple_rounds()
    ensures { SimpleRoundsAreFew }
{
    law_one_waits();
    law_requeues();
    law_turns();
    law_others();
    law_awake();
    law_rules();
    law_patience_lasts();
}

/// Before its end it has at most one more.
pub fn law_awake_rounds_are_near()
    ensures { AwakeRoundsAreNear }
{
    law_one_waits();
    law_requeues();
    law_turns();
    law_others();
    law_awake();
    law_rules();
    law_patience_lasts();
}

/// Whoever wakes by itself: from a moment at which all nodes are awake a run by rounds that ends has at most as many rounds more.
pub fn law_woken_rounds()
    ensures { WokenRoundsAreFew }
{
    law_one_waits();
    law_requeues();
    law_turns();
    law_others();
    law_awake();
    law_rules();
    law_patience_lasts();
}

/// Where each node may wake by itself, the longest chain of a run by rounds that has ended has at most as many messages.
pub fn law_awake_chains()
    ensures { AwakeChainsAreShort }
{
    law_one_waits();
    law_requeues();
    law_turns();
    law_others();
    law_awake();
    law_rules();
    law_patience_lasts();
}

/// A run by rounds has as many events at most as twice the bound on messages and the nodes together, as a patient one.
pub fn law_runs_by_rounds_are_short()
    ensures { RunsByRoundsAreShort }
{
    law_one_waits();
    law_requeues();
    law_turns();
    law_others();
    law_awake();
    law_rules();
    law_patience_lasts();
    law_takes();
    law_ledger();
    law_bound();
}

/// A run by rounds that hasn't ended has fewer: so many events bring it to its end.
pub fn law_runs_by_rounds_end()
    ensures { RunsByRoundsEnd }
{
    law_one_waits();
    law_requeues();
    law_turns();
    law_others();
    law_awake();
    law_rules();
    law_patience_lasts();
    law_takes();
    law_ledger();
    law_bound();
}
