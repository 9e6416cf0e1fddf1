//! What a page is told of Gather.
ghost use Rattle.std.specs.Prelude.{◌≡◌};
ghost use Rattle.gather.specs.Looks.{kind_look};

use crate::looks::{BACK, EXPLORE, LOOK, TITLE, TREE};
use crate::protocol::Gather;
use bumpalo::Bump;
use peer_words::viewed::Viewed;

impl<'r> Viewed for Gather<'r> {
    ghost use Rattle.gather.specs.Looks.{looks as all_looks};

    ghost looks = { all_looks };

    fn title<'s>(_lists: &'s &'r Bump) -> &'s [u8] {
        TITLE
    }

    fn kind_look<'s>(_lists: &'s &'r Bump, kind: usize) -> &'s [u8] {
        kind_look(kind)
    }

    fn look<'s>(_lists: &'s &'r Bump) -> &'s [u8] {
        LOOK
    }
}

fn kind_look(kind: usize) -> &'static [u8]
    ensures { result.now ≡ kind_look kind }
{
    if kind == 0 {
        EXPLORE
    } else if kind == 1 {
        BACK
    } else {
        TREE
    }
}
