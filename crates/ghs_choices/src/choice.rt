//! Which steps are shown.
ghost use Rattle.std.specs.Prelude.{◌≡◌};
ghost use Rattle.ghs_choices.specs.Choice.{is_chosen};

/// Events of a run by their numbers, which count from 1: those from `from` to `to`, and of these the ones of one node,
/// or of all nodes. Where `from` is above `to`, or above the number of events, it is none.
#[derive(Clone, Copy, Debug, PartialEq, Eq)]
pub struct Choice {
    pub from: u64,
    pub to: u64,
    pub node: Option<u32>,
}

impl Choice {
    /// Whether an event of this number and node is shown.
    pub fn has(&self, number: u64, v: u32) -> bool
        ensures { result ≡ is_chosen self.now number v }
    {
        if self.from > number || number > self.to {
            return false;
        }
        match self.node {
            Some(node) => node == v,
            None => true,
        }
    }
}
