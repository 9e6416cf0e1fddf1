//! What is printed as a whole.
ghost use Rattle.ghs_cli.specs.Printing.{HasPrinted};
ghost use Rattle.ghs_answers.specs.Causes.{IsWrite, is_write};
ghost use Rattle.ghs_answers.specs.declared.fault.ServeFault.{ServeFault};
ghost use Rattle.std.specs.Prelude.{◌≡◌, ◌↔◌, false, true, IfErr, IsErrOf};

use ghs_answers::fault::ServeFault;
use ghs_gr::device::Sink;
use ghs_report::write_out::write_out;

/// Writes a text that is made, or passes on why there is none.
pub(crate) fn print<W: Sink>(
    made: Result<Vec<u8>, ServeFault>,
    out: &mut W,
) -> Result<(), ServeFault>
    requires early { IfErr made (λ fault. is_write fault ≡ false) }
    requires out { W.has_failed out.old ≡ false }
    ensures printed { HasPrinted made (W.held out.old) (W.held out.new) result }
    ensures read { IsErrOf result ServeFault.Read ↔ IsErrOf made ServeFault.Read }
    ensures write { IsWrite result ↔ (W.has_failed out.new ≡ true) }
    ensures unwritten { IfErr result (λ fault. is_write fault ≡ false → out.new ≡ out.old) }
{
    let text = made?;
    write_out(out, &text)?;
    Ok(())
}
