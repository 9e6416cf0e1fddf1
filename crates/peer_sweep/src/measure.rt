//! What is measured of each run of a sweep.
ghost use Rattle.peer_sweep.specs.Figures.{LeavesRoom};
ghost use Rattle.peer_sweep.specs.Measure.{count_of, value_of};
ghost use Rattle.std.specs.Prelude.{◌≡◌, ◌<◌, ◌^◌, IfSome};

use crate::figures::Figures;

/// What is measured of each run: the columns of its line behind the links. Of how the run ended it is counted
/// whether that is by itself.
#[derive(Clone, Copy, Debug, PartialEq, Eq)]
pub enum Measure {
    Events,
    Sent,
    /// The messages of a kind, by its number; none, where the protocol has no such kind.
    Kind(Option<usize>),
    Requeued,
    Queued,
    Bound,
    Level,
    Fragments,
    Weight,
    Halted,
    Chain,
    Bits,
    Longest,
}

impl Measure {
    /// Its value for a run, if the run has it; of a run that has ended 1 is halted, of another 0.
    pub(crate) fn value(self, run: &Figures) -> Option<u128>
        ensures value { result ≡ value_of self run.now }
        ensures small { LeavesRoom run.now → IfSome result (λ n. n < 2 ^ 96) }
    {
        match self {
            Measure::Events => Some(u128::from(run.events)),
            Measure::Sent => Some(u128::from(run.sent)),
            Measure::Kind(kind) => count_of(&run.kinds, kind),
            Measure::Requeued => Some(u128::from(run.requeued)),
            Measure::Queued => Some(u128::from(run.queued)),
            Measure::Bound => Some(u128::from(run.bound)),
            Measure::Level => level_of(run),
            Measure::Fragments => fragments_of(run),
            Measure::Weight => run.weight,
            Measure::Halted => Some(u128::from(run.ended)),
            Measure::Chain => Some(u128::from(run.lengths.chain)),
            Measure::Bits => Some(run.lengths.bits),
            Measure::Longest => Some(u128::from(run.lengths.longest)),
        }
    }
}

/// The messages of a kind.
fn count_of(kinds: &[u64; 8], kind: Option<usize>) -> Option<u128>
    ensures value { result ≡ count_of kinds.now kind }
    ensures small { IfSome result (λ n. n < 2 ^ 96) }
{
    let kind = kind?;
    if kind < 8 {
        Some(u128::from(kinds[kind]))
    } else {
        None
    }
}

fn level_of(run: &Figures) -> Option<u128>
    ensures value { result ≡ run.now.level }
    ensures small { IfSome result (λ n. n < 2 ^ 96) }
{
    match run.level {
        Some(level) => Some(u128::from(level)),
        None => None,
    }
}

fn fragments_of(run: &Figures) -> Option<u128>
    ensures value { result ≡ run.now.fragments }
    ensures small { IfSome result (λ n. n < 2 ^ 96) }
{
    match run.fragments {
        Some(fragments) => Some(u128::from(fragments)),
        None => None,
    }
}
