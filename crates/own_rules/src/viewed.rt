//! What a page is told of a book's protocol.
ghost use Rattle.std.specs.Prelude.{◌≡◌};

use crate::looks::LOOK;
use crate::protocol::{Chosen, Playing, Told};
use peer_words::viewed::Viewed;

impl<'a, J: Chosen> Viewed for Told<'a, J> {
    ghost use Rattle.own_rules.specs.Looks.{looks_of};

    ghost looks = { looks_of J.book };

    fn title<'s>(set: &'s Playing<'a>) -> &'s [u8] {
        set.rules.title()
    }

    fn kind_look<'s>(set: &'s Playing<'a>, kind: usize) -> &'s [u8] {
        set.rules.kind_look(kind)
    }

    fn look<'s>(_set: &'s Playing<'a>) -> &'s [u8] {
        LOOK
    }
}
