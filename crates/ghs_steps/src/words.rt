//! The words that texts of steps have in common.
ghost use Rattle.std.specs.Prelude.{◌≡◌, IfOk};
ghost use Rattle.ghs_steps.specs.Words.{key_said, level_said, mark_word, phase_said, phase_word, row_word, says};

use ghs_graph::key::Key;
use ghs_node::level::Level;
use ghs_node::mark::Mark;
use ghs_node::message::{Message, Phase};
use ghs_node::row_name::RowName;
use peer_words::value::{Said, Saying, Value, Word};
use std::alloc::{AllocError, Global};

pub(crate) fn phase_word(phase: Phase) -> &'static [u8]
    ensures { result.now ≡ phase_word phase }
{
    match phase {
        Phase::Sleeping => b"sleeping",
        Phase::Find => b"find",
        Phase::Found => b"found",
    }
}

pub(crate) fn mark_word(mark: Mark) -> &'static [u8]
    ensures { result.now ≡ mark_word mark }
{
    match mark {
        Mark::Basic => b"basic",
        Mark::Branch => b"branch",
        Mark::Rejected => b"rejected",
    }
}

/// The name of a row, as the table of the protocol spells it.
pub fn row_word(row: RowName) -> &'static [u8]
    ensures { result.now ≡ row_word row }
{
    match row {
        RowName::Wakes => b"Wakes",
        RowName::WakesAlone => b"Wakes_alone",
        RowName::WokenMerges => b"Woken_merges",
        RowName::WokenConnectWaits => b"Woken_connect_waits",
        RowName::WokenTestWaits => b"Woken_test_waits",
        RowName::WokenAccepts => b"Woken_accepts",
        RowName::ConnectAbsorbed => b"Connect_absorbed",
        RowName::ConnectWaits => b"Connect_waits",
        RowName::ConnectMerges => b"Connect_merges",
        RowName::InitiateRests => b"Initiate_rests",
        RowName::InitiateSearches => b"Initiate_searches",
        RowName::TestWaits => b"Test_waits",
        RowName::TestAccepted => b"Test_accepted",
        RowName::TestRejected => b"Test_rejected",
        RowName::TestsCross => b"Tests_cross",
        RowName::AcceptHeard => b"Accept_heard",
        RowName::RejectHeard => b"Reject_heard",
        RowName::ReportHeard => b"Report_heard",
        RowName::ReportWaits => b"Report_waits",
        RowName::ReportMovesRoot => b"Report_moves_root",
        RowName::RootMoves => b"Root_moves",
        RowName::ReportHalts => b"Report_halts",
        RowName::ReportPasses => b"Report_passes",
    }
}

/// A message in words. Refusal: out of memory.
///
/// ```text
/// let saying = says(alloc, &Message::Accept)?;
/// // its kind is `accept`, and it carries nothing
/// ```
pub fn says(alloc: Global, message: &Message) -> Result<Saying<'static>, AllocError>
    ensures { IfOk result (λ saying. saying ≡ says message.now) }
{
    match message {
        Message::Connect(level) => Saying::bare(alloc, b"connect").with(level_said(*level)),
        Message::Initiate(level, name, phase) => Saying::bare(alloc, b"initiate")
            .with(level_said(*level))?
            .with(key_said(Some(*name)))?
            .with(phase_said(*phase)),
        Message::Test(level, name) => Saying::bare(alloc, b"test")
            .with(level_said(*level))?
            .with(key_said(Some(*name))),
        Message::Accept => Ok(Saying::bare(alloc, b"accept")),
        Message::Reject => Ok(Saying::bare(alloc, b"reject")),
        Message::Report(key) => Saying::bare(alloc, b"report").with(key_said(*key)),
        Message::ChangeRoot => Ok(Saying::bare(alloc, b"changeroot")),
    }
}

fn level_said(level: Level) -> Said<'static>
    ensures { result ≡ level_said level }
{
    Said::new(b"level", Value::Number(u64::from(level.get())))
}

fn key_said(key: Option<Key>) -> Said<'static>
    ensures { result ≡ key_said key }
{
    Said::new(b"key", Value::Link(key))
}

fn phase_said(phase: Phase) -> Said<'static>
    ensures { result ≡ phase_said phase }
{
    Said::new(b"phase", Value::Word(Word::of(phase_word(phase))))
}
