//! Writing a text out.
ghost use Rattle.std.specs.Prelude.{◌≡◌, ◌<◌, false, true, length, OnOk, IfErr, MatchResult};
ghost use Rattle.ghs_report.specs.Writing.{HasWritten};

use ghs_gr::device::Sink;

/// A text went out in part: its first `written` bytes.
#[derive(Clone, Copy, Debug, Drop, PartialEq, Eq)]
pub struct Partial {
    pub written: usize,
}

/// Writes all the bytes. A write that fails, or takes no byte, ends it. It takes no memory.
///
/// ```text
/// let mut out = Device::of(io::writer(rt));
/// write_out(&mut out, &text)?;                              // an Err says how many bytes are out
/// ```
pub fn write_out<W: Sink>(writer: &mut W, bytes: &[u8]) -> Result<(), Partial>
    requires { W.has_failed writer.old ≡ false }
    ensures ok { OnOk result (HasWritten (W.held writer.old) (W.held writer.new) bytes.now (length bytes.now)) }
    ensures err { IfErr result (λ e. (e.written < length bytes.now) × HasWritten (W.held writer.old) (W.held writer.new) bytes.now e.written) }
    ensures failed { MatchResult result (λ _. W.has_failed writer.new ≡ false) (λ _. W.has_failed writer.new ≡ true) }
{
    let mut written = 0;
    'writes: while written < bytes.len() {
        match writer.write(&bytes[written..]) {
            Ok(0) => return Err(Partial { written }),
            Ok(count) => written += count,
            Err(_) => return Err(Partial { written }),
        }
    }
    Ok(())
}
