//! Questions that are open, each once.
ghost use Rattle.peer_explore.specs.Tables.{IsOnce};
ghost use Rattle.std.specs.Prelude.{◌≡◌, ◌⊎◌, ◌++◌, ◌∷◌, [], ℕ, List, OnOk, Some, false, slice_get, true};

use crate::text::Question;
use crate::texts::are_same;
use std::alloc::AllocError;

/// Puts a question behind the others unless it is among them. Refusal: out of memory.
pub(crate) fn note_question(
    questions: &mut Vec<Question>,
    question: Question,
) -> Result<(), AllocError>
    requires once { IsOnce questions.old.items }
    ensures had { OnOk result ((i : ℕ) (q : List ℕ) → slice_get questions.old.items i ≡ Some q → slice_get questions.new.items i ≡ Some q) }
    ensures has { OnOk result ((i : ℕ) × (slice_get questions.new.items i ≡ Some question)) }
    ensures only { OnOk result ((i : ℕ) (q : List ℕ) → slice_get questions.new.items i ≡ Some q → (slice_get questions.old.items i ≡ Some q) ⊎ (q ≡ question)) }
    ensures once { OnOk result (IsOnce questions.new.items) }
{
    if is_noted(questions.as_slice(), &question) {
        return Ok(());
    }
    push_question(questions, question)
}

/// Whether a question is among others.
fn is_noted(questions: &[Question], question: &Question) -> bool
    ensures yes { result ≡ true → (i : ℕ) × (slice_get questions.now i ≡ Some question.now) }
    ensures no { result ≡ false → (i : ℕ) → slice_get questions.now i ≡ Some question.now → ⊥ }
{
    for (at, known) in questions.iter().enumerate() {
        if are_same(known.bytes(), question.bytes()) {
            return true;
        }
    }
    false
}

/// Puts a question behind the others. Refusal: out of memory.
pub(crate) fn push_question(
    questions: &mut Vec<Question>,
    question: Question,
) -> Result<(), AllocError>
    ensures { OnOk result (questions.new.items ≡ questions.old.items ++ question ∷ []) }
{
    questions.push(question)?;
    Ok(())
}
