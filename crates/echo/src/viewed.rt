//! What a page is told of the echo wave.
ghost use Rattle.std.specs.Prelude.{◌≡◌};
ghost use Rattle.echo.specs.Looks.{kind_look};

use crate::looks::{ECHO, EXPLORE, LOOK, TITLE};
use crate::protocol::Echo;
use peer_words::viewed::Viewed;

impl Viewed for Echo {
    ghost use Rattle.echo.specs.Looks.{looks as all_looks};

    ghost looks = { all_looks };

    fn title<'s>(_setting: &'s ()) -> &'s [u8] {
        TITLE
    }

    fn kind_look<'s>(_setting: &'s (), kind: usize) -> &'s [u8] {
        kind_look(kind)
    }

    fn look<'s>(_setting: &'s ()) -> &'s [u8] {
        LOOK
    }
}

fn kind_look(kind: usize) -> &'static [u8]
    ensures { result.now ≡ kind_look kind }
{
    if kind == 0 { EXPLORE } else { ECHO }
}
