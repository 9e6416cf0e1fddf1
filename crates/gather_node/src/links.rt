//! Lists of links.
ghost use Rattle.std.specs.Prelude.{◌≡◌, IfOk};

use bumpalo::Bump;
use ghs_graph::key::Key;
use std::alloc::AllocError;
use std::marker::Model;

/// Links, as a message carries them: a list of their keys, which lies in an arena. So all that have a list share it.
#[derive(Debug, Drop)]
pub struct Links<'s> {
    keys: &'s [Key],
}

impl<'s> Model for Links<'s> {
    ghost use Rattle.std.specs.Prelude.{List};
    ghost use Rattle.ghs_graph.specs.declared.key.Key.{Key};

    ghost Value = { List Key };

    ghost view = { λ l. l.keys.now };
}

impl<'s> Links<'s> {
    /// The links of these keys.
    pub fn of(keys: &'s [Key]) -> Links<'s>
        ensures { result ≡ keys.now }
    {
        Links { keys }
    }

    /// The links of these keys, which the arena keeps. Refusal: out of memory.
    ///
    /// ```text
    /// let links = Links::kept(&lists, &forest)?;
    /// // links.as_slice() is what the forest is
    /// ```
    pub fn kept(lists: &'s Bump, keys: &[Key]) -> Result<Links<'s>, AllocError>
        ensures { IfOk result (λ l. l ≡ keys.now) }
    {
        Ok(Links::of(lists.try_alloc_slice_copy(keys)?))
    }

    /// Their keys.
    pub fn as_slice(&self) -> &'s [Key]
        ensures { result.now ≡ self.now }
    {
        self.keys
    }

    /// The same links.
    pub fn again(&self) -> Links<'s>
        ensures { result ≡ self.now }
    {
        Links::of(self.keys)
    }
}

/// The same links once more, if there are any.
pub(crate) fn same<'s>(links: &Option<Links<'s>>) -> Option<Links<'s>>
    ensures { result ≡ links.now }
{
    match links {
        Some(links) => Some(links.again()),
        None => None,
    }
}
