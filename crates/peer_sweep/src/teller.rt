//! What tells of a protocol: types for those that the program itself has, and words for others.
ghost use Rattle.peer_sweep.specs.Columns.{kind_named as kind_of_name};
ghost use Rattle.std.specs.Prelude.{◌≡◌, [], length, slice_index_or};

use crate::measure::Measure;
use crate::rules::is_bound;
use crate::swept::Swept;
use crate::table::kind_named;
use peer_words::value::Word;
use std::marker::PhantomData;

/// What the columns of a protocol's lines go by.
pub(crate) trait Teller {
    ghost use Rattle.std.specs.Prelude.{◌≡◌};
    ghost use Rattle.peer_sweep.specs.About.{About};
    ghost use Rattle.peer_sweep.specs.Columns.{kind_named};

    /// What it tells.
    ghost about: { Self → About };

    /// The kind of this name, if the protocol has one.
    fn kind_named(&self, name: &Word) -> Option<usize>
        ensures { result ≡ kind_named (about self.now).kind name.now (about self.now).kinds };

    /// Whether a measure has one value in all runs of a graph that have ended.
    fn is_fixed(&self, measure: Measure) -> bool
        ensures { result ≡ (about self.now).is_fixed measure };
}

/// A protocol that can be swept.
#[derive(Drop)]
pub(crate) struct BySwept<P> {
    protocol: PhantomData<P>,
}

impl<P: Swept> BySwept<P> {
    pub(crate) fn new() -> BySwept<P> {
        BySwept {
            protocol: PhantomData,
        }
    }
}

impl<P: Swept> Teller for BySwept<P> {
    ghost about = { λ t. P.about };

    fn kind_named(&self, name: &Word) -> Option<usize> {
        kind_named::<P>(name)
    }

    fn is_fixed(&self, measure: Measure) -> bool {
        P::is_fixed(measure)
    }
}

/// A protocol of this name, whose kinds of messages have these names.
#[derive(Clone, Copy)]
pub(crate) struct ByWords<'a, 'w> {
    pub(crate) name: &'a Word<'w>,
    pub(crate) kinds: &'a [Word<'w>],
}

impl<'a, 'w> Teller for ByWords<'a, 'w> {
    ghost use Rattle.peer_sweep.specs.Runs.{about_words};

    ghost about = { λ t. about_words t.name.now t.kinds.now };

    fn kind_named(&self, name: &Word) -> Option<usize> {
        kind_among(self.kinds, name)
    }

    fn is_fixed(&self, measure: Measure) -> bool {
        is_bound(measure)
    }
}

/// The kind of this name among these; the last one, where several have it.
fn kind_among(kinds: &[Word], name: &Word) -> Option<usize>
    ensures { result ≡ kind_of_name (λ k. slice_index_or kinds.now k []) name.now (length kinds.now) }
{
    let mut found = None;
    for kind in 0..kinds.len() {
        if kinds[kind].letters() == name.letters() {
            found = Some(kind);
        }
    }
    found
}
