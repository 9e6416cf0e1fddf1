//! A network that is made.
ghost use Rattle.ghs_answers.specs.Causes.{IsWrite};
ghost use Rattle.ghs_cli.specs.Serving.{Serves, is_late};
ghost use Rattle.ghs_answers.specs.declared.fault.ServeFault.{ServeFault};
ghost use Rattle.ghs_commands.specs.declared.job.Task.{Task};
ghost use Rattle.std.specs.Prelude.{IfErr, IsErrOf, List, false, true, ◌↔◌, ◌≡◌, ℕ};

use ghs_answers::fault::ServeFault;
use ghs_gr::device::Sink;
use ghs_make::network::Network;
use ghs_make::plan::Asked;
use ghs_make::write::write_network;
use std::alloc::Global;

/// Makes the network that is asked for, and writes its text by portions. What is asked for is judged before the first byte.
pub(crate) fn write_network_of<W: Sink>(
    alloc: Global,
    asked: &Asked,
    out: &mut W,
) -> Result<(), ServeFault>
    requires { W.has_failed out.old ≡ false }
    ensures serves { (stored input : List ℕ) → Serves (Task.Make asked.now) stored input (W.held out.old) (W.held out.new) result }
    ensures read { IsErrOf result ServeFault.Read → ⊥ }
    ensures write { IsWrite result ↔ (W.has_failed out.new ≡ true) }
    ensures unwritten { IfErr result (λ fault. is_late (Task.Make asked.now) fault ≡ false → out.new ≡ out.old) }
    ensures goes_on { IsErrOf result ServeFault.TurnLimit → ⊥ }
{
    let network = Network::of(alloc, asked)?;
    write_network(alloc, &network, out)?;
    Ok(())
}
