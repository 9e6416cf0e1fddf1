//! What holds of the rules of every book. The laws cost nothing to call.
ghost use Rattle.own_book.specs.Entry.{Entry};
ghost use Rattle.own_rules.specs.Laws.{KeepsWhatIsPromised};
ghost use Rattle.own_rules.specs.declared.node.Allowance.{Allowance};
ghost use Rattle.std.specs.Prelude.{List};

/// Whatever the book says, each lawful event has a rule, and no run sends more than so many messages for each node; where
/// deferrals count, each run comes to an end.
pub fn law_rules()
    ensures { (book : List Entry) (most : Allowance) → KeepsWhatIsPromised book most }
{}
