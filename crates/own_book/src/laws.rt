//! Laws of the definitions, which cost nothing to call.
ghost use Rattle.own_book.specs.Asking.{AsksTake, AsksWake};
ghost use Rattle.own_book.specs.Laws.{IsMadeOf, IsOneReading, ReadsBack};
ghost use Rattle.std.specs.Prelude.{List, ℕ};

/// A line that says an answer is made of the question, ` = ` and the answer, and of nothing else.
pub fn law_line()
    ensures { (line : List ℕ) → IsMadeOf line }
{}

/// What was read from a text and written is read back: it is a book with the same answers, and has no fault.
pub fn law_book()
    ensures { (text : List ℕ) → ReadsBack text }
{}

/// Each text is one book or has one fault, and never both.
pub fn law_one_book()
    ensures { (text : List ℕ) → IsOneReading text }
{}

/// What a run asks of a node of 32 bits in a state, with a message and a port of 32 bits, is a question.
pub fn law_question()
    ensures wake { (node : ℕ) (state : List ℕ) → AsksWake node state }
    ensures take { (node port : ℕ) (message state : List ℕ) → AsksTake node port message state }
{}
