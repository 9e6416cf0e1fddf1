//! The text of a finished run.
ghost use Rattle.std.specs.Prelude.{◌↔◌, IfOk, IsErrOf};
ghost use Rattle.ghs_protocol.specs.Marks.{HasEnded};
ghost use Rattle.ghs_report.specs.ReportText.{IsReportText};
ghost use Rattle.ghs_report.specs.declared.report_text.ReportFault.TheVariants.{NotEnded};
ghost use Rattle.ghs_world.specs.WorldState.{home};

use crate::report_text::{ReportFault, report_text};
use ghs_world::world::World;
use std::alloc::Global;

/// The text of a world whose run has ended, as `--print report` prints it: that of its home view, whatever is out. Refusals:
/// the run hasn't ended; out of memory.
///
/// ```text
/// let text = run_text(alloc, &world)?;                      // Err(ReportFault::NotEnded) as long as the run goes on
/// // of two nodes and a link of weight 5: the lines `t 1 2 5`, `w 5`,
/// // `m connect=2 initiate=2 test=0 accept=0 reject=0 report=2 changeroot=0` and `s 6 12`
/// ```
pub fn run_text(alloc: Global, world: &World) -> Result<Vec<u8>, ReportFault>
    ensures text { IfOk result (λ text. IsReportText world.now.net.graph (home world.now) text.items) }
    ensures ended { IfOk result (λ _. HasEnded world.now.net.graph (home world.now)) }
    ensures not_ended { IsErrOf result NotEnded ↔ (HasEnded world.now.net.graph (home world.now) → ⊥) }
{
    report_text(alloc, world.net())
}
