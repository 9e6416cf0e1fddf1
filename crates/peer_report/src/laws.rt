//! What holds of these runs. The law is a function that does nothing.
ghost use Rattle.peer_report.specs.Runs.{TurnsSuffice};

use peer_machine::ends::Ends;

/// With turns for the bound and the nodes together every run ends before its turns are used.
pub fn law_turns<P: Ends>()
    ensures { TurnsSuffice P.rules P.has_ended P.bound }
{}
