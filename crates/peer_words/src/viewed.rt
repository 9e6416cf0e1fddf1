//! Protocols whose runs have pages.
use crate::spoken::Spoken;

/// A protocol whose runs can be shown on a page: what the page is told of it, besides its words. Each answer is of printable
/// ASCII, without `<` and backslash; docs/FORMATS.md has the members.
///
/// ```text
/// impl Viewed for Boruvka { .. }   // the page's title, what is told of each kind of messages, and what stands behind the kinds
/// ```
pub trait Viewed: Spoken {
    ghost use Rattle.std.specs.Prelude.{◌≡◌, ◌<◌};
    ghost use Rattle.peer_words.specs.Looks.{Looks};

    /// What the functions below say.
    ghost looks: { Looks };

    /// The title of a page, as HTML without a quote.
    fn title<'s>(setting: &'s Self::Setting) -> &'s [u8]
        requires { Self.goes_by setting.now }
        ensures { result.now ≡ looks.title };

    /// What a page is told of a kind of messages, by its number, from 0 on: members of JSON.
    fn kind_look<'s>(setting: &'s Self::Setting, kind: usize) -> &'s [u8]
        requires setting { Self.goes_by setting.now }
        requires known { kind < Self.rules.kinds }
        ensures { result.now ≡ looks.kind kind };

    /// What it is told of lengths, marks, phases, variables, ports and rows: members of JSON.
    fn look<'s>(setting: &'s Self::Setting) -> &'s [u8]
        requires { Self.goes_by setting.now }
        ensures { result.now ≡ looks.rest };
}
