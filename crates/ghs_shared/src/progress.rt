//! What is published of a run, and the word that stands for it.
ghost use Rattle.std.specs.Prelude.{◌≡◌, ◌≤◌, ◌^◌};
ghost use Rattle.ghs_shared.specs.Progress.{pair, pair_of, word_of};

/// How many commits there are, and whether the run has ended.
#[derive(Clone, Copy, Debug, Drop, PartialEq, Eq)]
pub struct Progress {
    pub commits: u64,
    /// The run has ended: in each component a core node has halted.
    pub halted: bool,
}

/// Twice the commits, and one more where the run has ended: so one load gives both parts of one moment.
pub(crate) fn word_of(commits: u64, halted: bool) -> u64
    requires { commits ≤ 2 ^ 40 }
    ensures { result ≡ word_of (pair commits halted) }
{
    2 * commits + halted as u64
}

/// The pair that a word stands for.
pub(crate) fn pair_of(word: u64) -> Progress
    ensures { result ≡ pair_of word }
{
    Progress {
        commits: word / 2,
        halted: word % 2 == 1,
    }
}
