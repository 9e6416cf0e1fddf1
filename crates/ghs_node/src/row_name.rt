//! The names of the table's rows.
ghost use Rattle.std.specs.Prelude.{◌≡◌, ◌<◌};
ghost use Rattle.ghs_node.specs.NodeState.{degree};
ghost use Rattle.ghs_node.specs.declared.message.Message.{Message};
ghost use Rattle.ghs_node.specs.Reaction.{HasPort};
ghost use Rattle.ghs_node.specs.RowName.{HasRow, IsNamed, asleep_row, awake_row, row_name};

use crate::head::is_below;
use crate::mark::Mark;
use crate::message::{Message, Phase};
use crate::node::Node;
use crate::work::Work;
use ghs_graph::key::Key;

/// The rows of the table of reactions, in its order.
#[derive(Clone, Copy, Debug, PartialEq, Eq)]
pub enum RowName {
    Wakes,
    WakesAlone,
    WokenMerges,
    WokenConnectWaits,
    WokenTestWaits,
    WokenAccepts,
    ConnectAbsorbed,
    ConnectWaits,
    ConnectMerges,
    InitiateRests,
    InitiateSearches,
    TestWaits,
    TestAccepted,
    TestRejected,
    TestsCross,
    AcceptHeard,
    RejectHeard,
    ReportHeard,
    ReportWaits,
    ReportMovesRoot,
    RootMoves,
    ReportHalts,
    ReportPasses,
}

/// The name of the row by which a node reacts to a piece of work. It takes no memory, and looks at one port at most.
pub fn row_of(node: &Node, work: Work) -> RowName
    requires { HasRow node.now work }
    ensures named { IsNamed node.now work result }
    ensures tested { result ≡ row_name node.now work }
{
    tested_row(node, work)
}

/// The row, by tests of the state and the work.
fn tested_row(node: &Node, work: Work) -> RowName
    requires { HasPort node.now work }
    ensures { result ≡ row_name node.now work }
{
    match work {
        Work::Wake if node.degree() == 0 => RowName::WakesAlone,
        Work::Wake => RowName::Wakes,
        Work::Deliver { port, message } => {
            if node.head().phase == Phase::Sleeping {
                asleep_row(port, message)
            } else {
                awake_row(node, port, message)
            }
        }
    }
}

/// The row of a node that sleeps. A Connect or a Test is all that comes to it.
fn asleep_row(port: u32, message: Message) -> RowName
    ensures { result ≡ asleep_row port message }
{
    match message {
        Message::Connect(_) => {
            if port == 0 {
                RowName::WokenMerges
            } else {
                RowName::WokenConnectWaits
            }
        }
        Message::Test(level, _) => {
            if level.get() == 0 {
                RowName::WokenAccepts
            } else {
                RowName::WokenTestWaits
            }
        }
        _ => RowName::WokenTestWaits,
    }
}

/// The row of a node that is awake.
fn awake_row(node: &Node, port: u32, message: Message) -> RowName
    requires { port < degree node.now }
    ensures { result ≡ awake_row node.now port message }
{
    let head = *node.head();
    match message {
        Message::Connect(level) => {
            if level.get() < head.level.get() {
                RowName::ConnectAbsorbed
            } else if node.mark(port) == Mark::Basic {
                RowName::ConnectWaits
            } else {
                RowName::ConnectMerges
            }
        }
        Message::Initiate(_, _, phase) => {
            if phase == Phase::Find {
                RowName::InitiateSearches
            } else {
                RowName::InitiateRests
            }
        }
        Message::Test(level, name) => {
            if level.get() > head.level.get() {
                RowName::TestWaits
            } else if !head.is_named(name) {
                RowName::TestAccepted
            } else if head.is_probing(port) {
                RowName::TestsCross
            } else {
                RowName::TestRejected
            }
        }
        Message::Accept => RowName::AcceptHeard,
        Message::Reject => RowName::RejectHeard,
        Message::Report(key) => report_row(node, port, key),
        Message::ChangeRoot => RowName::RootMoves,
    }
}

/// The row of a Report.
fn report_row(node: &Node, port: u32, key: Option<Key>) -> RowName
    ensures { result ≡ awake_row node.now port (Message.Report key) }
{
    let head = *node.head();
    if !head.has_core_at(port) {
        RowName::ReportHeard
    } else if head.phase == Phase::Find {
        RowName::ReportWaits
    } else if is_below(head.best_key(), key) {
        RowName::ReportMovesRoot
    } else if key.is_none() && head.best.is_none() {
        RowName::ReportHalts
    } else {
        RowName::ReportPasses
    }
}
