//! What holds of the marks of all books. The law costs nothing to call.
ghost use Rattle.own_book.specs.Entry.{Entry};
ghost use Rattle.own_runs.specs.Mark.{Fits, mark_of};
ghost use Rattle.std.specs.Prelude.{List, ◌++◌};

/// A book fits its own mark, and does so still once more answers stand behind its own.
pub fn law_mark()
    ensures { (book more : List Entry) → Fits (book ++ more) (mark_of book) }
{}
