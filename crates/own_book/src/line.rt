//! The lines of a book.
ghost use Rattle.own_book.specs.Line.{bad, cut_at_sign, meaning, says};
ghost use Rattle.std.specs.Prelude.{IfErr, IfNone, IfOk, IfSome, None, Some, ◌≡◌};

use crate::answer::read_answer;
use crate::fault::LineFault;
use crate::question::asked_of;
use crate::words::is_line;
use bstr::ByteSlice;

/// How many bytes a line may have.
pub const LINE_BYTES: u64 = 1_048_576;

/// The question and the answer of a line, without its line feed. Refusals, the first of which counts: a line that has more
/// than `LINE_BYTES` bytes is TooLong; one that isn't printable ASCII, or has no ` = ` in it, is a BadLine; then come the
/// faults of the question, as `asked_of` has them; a question with no answer to it is a BadLine.
///
/// ```text
/// let (question, answer) = read_line(b"wake 1 asleep=yes = asleep=no done 0>explore")?;
/// // b"wake 1 asleep=yes" and b"asleep=no done 0>explore"
/// ```
pub fn read_line(line: &[u8]) -> Result<(&[u8], &[u8]), LineFault>
    ensures says { IfOk result (λ x. meaning line.now ≡ says x.0.now x.1.now) }
    ensures fault { IfErr result (λ fault. meaning line.now ≡ bad fault) }
{
    if line.len() as u64 > LINE_BYTES {
        return Err(LineFault::TooLong);
    }
    if !is_line(line) {
        return Err(LineFault::BadLine);
    }
    let Some((question, answer)) = at_sign(line) else {
        return Err(LineFault::BadLine);
    };
    let asked = match asked_of(question) {
        Ok(asked) => asked,
        Err(fault) => return Err(fault),
    };
    if read_answer(asked, answer).is_none() {
        return Err(LineFault::BadLine);
    }
    Ok((question, answer))
}

/// What is in front of the first ` = `, and what is behind it.
fn at_sign(line: &[u8]) -> Option<(&[u8], &[u8])>
    ensures some { IfSome result (λ x. cut_at_sign line.now ≡ Some (x.0.now, x.1.now)) }
    ensures none { IfNone result (cut_at_sign line.now ≡ None) }
{
    match line.find(b" = ") {
        Some(at) => {
            let (question, _) = line.split_at(at);
            let (_, answer) = line.split_at(at + 3);
            Some((question, answer))
        }
        None => None,
    }
}
