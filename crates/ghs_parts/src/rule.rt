//! The rows of the table of rules, in its order.
ghost use Rattle.std.specs.Prelude.{◌≡◌, ◌<◌};
ghost use Rattle.ghs_parts.specs.Rule.{rule_at, rule_place};

use ghs_node::row_name::RowName;

/// How many rows the table has.
pub const RULES: usize = 23;

const IN_ORDER: [RowName; 23] = [
    RowName::Wakes,
    RowName::WakesAlone,
    RowName::WokenMerges,
    RowName::WokenConnectWaits,
    RowName::WokenTestWaits,
    RowName::WokenAccepts,
    RowName::ConnectAbsorbed,
    RowName::ConnectWaits,
    RowName::ConnectMerges,
    RowName::InitiateRests,
    RowName::InitiateSearches,
    RowName::TestWaits,
    RowName::TestAccepted,
    RowName::TestRejected,
    RowName::TestsCross,
    RowName::AcceptHeard,
    RowName::RejectHeard,
    RowName::ReportHeard,
    RowName::ReportWaits,
    RowName::ReportMovesRoot,
    RowName::RootMoves,
    RowName::ReportHalts,
    RowName::ReportPasses,
];

/// The place of a row in the table, from 0 on.
pub fn rule_place(row: RowName) -> usize
    ensures place { result ≡ rule_place row }
    ensures bound { result < RULES }
{
    row as usize
}

/// The row at a place of the table; the first one where there is no such place.
pub fn rule_at(place: u64) -> RowName
    ensures { result ≡ rule_at place }
{
    if place < RULES as u64 {
        IN_ORDER[place as usize]
    } else {
        RowName::Wakes
    }
}
