//! The rule of the queue, and what each step tells the pass that makes it.
use crate::pass_view::PassView;
use crossbeam_queue::protocol::{Join, Lesson, Outcome, Protocol, Split};

/// What was put is what was taken and what is left, over all passes.
pub struct Fair;

impl Protocol<u32, PassView> for Fair {
    ghost use Rattle.ghs_shared.specs.Bags.{IsReady, opener};

    ghost holds = { IsReady };

    ghost first = { opener 0 };
}

pub struct Puts;

impl Outcome<u32, PassView> for Puts {
    ghost use Rattle.ghs_shared.specs.Bags.{PutOne};

    ghost then = { PutOne };
}

impl Lesson<u32, PassView> for Puts {
    ghost use Rattle.ghs_shared.specs.Bags.{Known};

    ghost fact = { Known };
}

pub struct Takes;

impl Outcome<u32, PassView> for Takes {
    ghost use Rattle.ghs_shared.specs.Bags.{TakenOne};

    ghost then = { TakenOne };
}

impl Lesson<u32, PassView> for Takes {
    ghost use Rattle.ghs_shared.specs.Bags.{Known};

    ghost fact = { Known };
}

/// One share moves to a new pass, or the shares and bags of two passes are added up.
pub struct Cut;

impl Split<PassView> for Cut {
    ghost use Rattle.std.specs.Prelude.{◌-◌, []};
    ghost use Rattle.ghs_shared.specs.Bags.{pass_view};

    ghost left = { λ v. pass_view v.all (v.shares - 1) v.put v.taken };

    ghost right = { λ v. pass_view v.all 1 [] [] };
}

impl Join<PassView> for Cut {
    ghost use Rattle.std.specs.Prelude.{◌+◌, ◌++◌};
    ghost use Rattle.ghs_shared.specs.Bags.{pass_view, nobody};

    ghost both = { λ v w. pass_view v.all (v.shares + w.shares) (v.put ++ w.put) (v.taken ++ w.taken) };

    ghost spent = { nobody };
}

/// A queue's rule begins at a constant, and its number of shares comes with `open`. So the first pass counts the number up
/// in its own view, binary digit by digit, by splits whose second pass knows nothing and is let go.
pub struct Twice;

impl Split<PassView> for Twice {
    ghost use Rattle.std.specs.Prelude.{◌*◌};
    ghost use Rattle.ghs_shared.specs.Bags.{opener, nobody};

    ghost left = { λ v. opener (2 * v.all) };

    ghost right = { λ v. nobody };
}

pub struct TwiceAndOne;

impl Split<PassView> for TwiceAndOne {
    ghost use Rattle.std.specs.Prelude.{◌*◌, ◌+◌};
    ghost use Rattle.ghs_shared.specs.Bags.{opener, nobody};

    ghost left = { λ v. opener (2 * v.all + 1) };

    ghost right = { λ v. nobody };
}

/// The first pass holds all shares.
pub struct Begin;

impl Split<PassView> for Begin {
    ghost use Rattle.std.specs.Prelude.{[]};
    ghost use Rattle.ghs_shared.specs.Bags.{pass_view, nobody};

    ghost left = { λ v. pass_view v.all v.all [] [] };

    ghost right = { λ v. nobody };
}
