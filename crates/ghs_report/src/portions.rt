//! A text that goes out by portions: it is made piece by piece, and what has been made waits until it is a portion.
ghost use Rattle.ghs_report.specs.Written.{IsFront, IsOut, is_write};
ghost use Rattle.std.specs.Prelude.{IfErr, IfOk, List, OnOk, Option, [], false, ◌+◌, ◌<◌, ◌^◌, ◌≡◌, ◌≤◌, ℕ};

use crate::write_out::write_out;
use ghs_gr::device::Sink;
use std::alloc::AllocError;
use thiserror::Error;

/// How many bytes are gathered before they go out.
pub const PORTION: usize = 65_536;

/// Why a text isn't written to its end.
#[derive(Clone, Copy, Debug, Drop, PartialEq, Eq, Error)]
pub enum WriteFault {
    #[error("out of memory")]
    Memory,
    #[error("output failed after {written} bytes")]
    Write { written: u128 },
}

impl From<AllocError> for WriteFault {
    ghost use Rattle.ghs_report.specs.declared.portions.WriteFault.{WriteFault};

    ghost from_gives = { λ _ e. e ≡ WriteFault.Memory };

    fn from(_error: AllocError) -> WriteFault {
        WriteFault::Memory
    }
}

/// What waits goes out, once it is a portion. Answers how many bytes are out by then.
pub fn send_portion<W: Sink>(
    writer: &mut W,
    text: &mut Vec<u8>,
    gone: u128,
) -> Result<u128, WriteFault>
    requires sound { W.has_failed writer.old ≡ false }
    requires few { gone + 2 ^ 64 < 2 ^ 128 }
    ensures out { IfOk result (λ now. (old : Option (List ℕ)) (all : List ℕ) → IsOut old (W.held writer.old) all gone text.old.items → IsOut old (W.held writer.new) all now text.new.items) }
    ensures more { IfOk result (λ now. now ≤ gone + 2 ^ 64) }
    ensures sound { OnOk result (W.has_failed writer.new ≡ false) }
    ensures front { IfErr result (λ fault. (old : Option (List ℕ)) (all : List ℕ) → IsOut old (W.held writer.old) all gone text.old.items → IsFront old (W.held writer.new) all fault) }
    ensures failed { IfErr result (λ fault. W.has_failed writer.new ≡ is_write fault) }
{
    if text.len() < PORTION {
        return Ok(gone);
    }
    send_off(writer, text, gone)
}

/// What waits goes out. Answers how many bytes are out by then.
pub fn send_off<W: Sink>(writer: &mut W, text: &mut Vec<u8>, gone: u128) -> Result<u128, WriteFault>
    requires sound { W.has_failed writer.old ≡ false }
    requires few { gone + 2 ^ 64 < 2 ^ 128 }
    ensures out { IfOk result (λ now. (old : Option (List ℕ)) (all : List ℕ) → IsOut old (W.held writer.old) all gone text.old.items → IsOut old (W.held writer.new) all now text.new.items) }
    ensures empty { OnOk result (text.new.items ≡ []) }
    ensures more { IfOk result (λ now. now ≤ gone + 2 ^ 64) }
    ensures sound { OnOk result (W.has_failed writer.new ≡ false) }
    ensures front { IfErr result (λ fault. (old : Option (List ℕ)) (all : List ℕ) → IsOut old (W.held writer.old) all gone text.old.items → IsFront old (W.held writer.new) all fault) }
    ensures failed { IfErr result (λ fault. W.has_failed writer.new ≡ is_write fault) }
{
    match write_out(writer, text.as_slice()) {
        Ok(()) => {
            let now = gone + text.len() as u128;
            text.clear();
            Ok(now)
        }
        Err(partial) => Err(WriteFault::Write {
            written: gone + partial.written as u128,
        }),
    }
}
