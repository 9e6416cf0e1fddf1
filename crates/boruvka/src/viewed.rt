//! What a page is told of Borůvka in step.
ghost use Rattle.std.specs.Prelude.{◌≡◌};
ghost use Rattle.boruvka.specs.Looks.{kind_look};

use crate::looks::{CHANGEROOT, CONNECT, INITIATE, LOOK, NAME, REPORT, TITLE};
use crate::protocol::Boruvka;
use peer_words::viewed::Viewed;

impl Viewed for Boruvka {
    ghost use Rattle.boruvka.specs.Looks.{looks as all_looks};

    ghost looks = { all_looks };

    fn title<'s>(_setting: &'s ()) -> &'s [u8] {
        TITLE
    }

    fn kind_look<'s>(_setting: &'s (), kind: usize) -> &'s [u8] {
        kind_look(kind)
    }

    fn look<'s>(_setting: &'s ()) -> &'s [u8] {
        LOOK
    }
}

fn kind_look(kind: usize) -> &'static [u8]
    ensures { result.now ≡ kind_look kind }
{
    if kind == 0 {
        CONNECT
    } else if kind == 1 {
        INITIATE
    } else if kind == 2 {
        NAME
    } else if kind == 3 {
        REPORT
    } else {
        CHANGEROOT
    }
}
