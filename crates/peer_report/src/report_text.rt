//! The text of a finished run.
ghost use Rattle.std.specs.Prelude.{◌↔◌, IfOk, IsErrOf};
ghost use Rattle.ghs_report.specs.declared.report_text.ReportFault.TheVariants.{NotEnded};
ghost use Rattle.peer_net.specs.NetState.{net_of};
ghost use Rattle.peer_report.specs.ReportText.{IsReportText};

use crate::account::{ReportFault, put_account};
use crate::branches::branches;
use crate::ended::net_ended;
use ghs_report::tree_text::tree_text;
use peer_machine::ends::FindsTree;
use peer_net::net::Net;
use peer_runs::world::World;
use peer_words::spoken::Spoken;
use std::alloc::Global;

/// The text of a net whose run has ended: a line `t A B W` for each branch link in key order and a line `w TOTAL`; a line `m`
/// with the messages sent of each kind; and a line `s SENT BOUND` with their sum and the bound on it. Refusals: the run hasn't
/// ended; out of memory.
pub fn report_text<P: FindsTree + Spoken>(
    alloc: Global,
    net: &Net<P>,
) -> Result<Vec<u8>, ReportFault>
    ensures text { IfOk result (λ text. IsReportText P.rules P.words.kind P.bound P.is_branch P.found net.now.graph (net_of P.rules net.now) text.items) }
    ensures ended { IfOk result (λ _. P.has_ended net.now.graph (net_of P.rules net.now)) }
    ensures not_ended { IsErrOf result NotEnded ↔ (P.has_ended net.now.graph (net_of P.rules net.now) → ⊥) }
{
    if !net_ended(net) {
        return Err(ReportFault::NotEnded);
    }
    let tree = branches(alloc, net)?;
    let mut text = tree_text(alloc, &tree)?;
    put_account(&mut text, net)?;
    Ok(text)
}

/// The text of a world whose run has ended. Refusals: the run hasn't ended; out of memory.
///
/// ```text
/// let text = run_text(alloc, &world)?;                      // Err(ReportFault::NotEnded) as long as the run goes on
/// // of two nodes and a link of weight 5, by Borůvka in step: the lines `t 1 2 5`, `w 5`,
/// // `m connect=2 initiate=1 name=0 report=1 changeroot=0` and `s 4 10`
/// ```
pub fn run_text<P: FindsTree + Spoken>(
    alloc: Global,
    world: &World<P>,
) -> Result<Vec<u8>, ReportFault>
    ensures text { IfOk result (λ text. IsReportText P.rules P.words.kind P.bound P.is_branch P.found world.now.net.graph (net_of P.rules world.now.net) text.items) }
    ensures ended { IfOk result (λ _. P.has_ended world.now.net.graph (net_of P.rules world.now.net)) }
    ensures not_ended { IsErrOf result NotEnded ↔ (P.has_ended world.now.net.graph (net_of P.rules world.now.net) → ⊥) }
{
    report_text(alloc, world.net())
}
