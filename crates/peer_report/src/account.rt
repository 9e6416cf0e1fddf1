//! The account of a run's messages.
ghost use Rattle.std.specs.Prelude.{◌≡◌, ◌++◌, ◌≤◌, ◌<◌, ◌↔◌, length, slice_index, IfOk, IsErrOf};
ghost use Rattle.ghs_report.specs.ReportText.{named, sends_line};
ghost use Rattle.ghs_report.specs.declared.report_text.ReportFault.TheVariants.{NotEnded};
ghost use Rattle.peer_machine.specs.Ledger.{in_all};
ghost use Rattle.peer_net.specs.NetState.{net_of};
ghost use Rattle.peer_report.specs.Account.{IsAccount, account_lines, count_text, counts_text, kinds_line};

use crate::ended::net_ended;
use ghs_lines::numbers::put_number;
pub use ghs_report::report_text::ReportFault;
use peer_machine::ends::Ends;
use peer_net::ledger::in_total;
use peer_net::net::Net;
use peer_words::spoken::Spoken;
use std::alloc::{AllocError, Global};

/// The account of a net whose run has ended: a line `m` with the messages sent of each kind, and a line `s SENT BOUND` with
/// their sum and the bound on it. Refusals: the run hasn't ended; out of memory.
///
/// ```text
/// let text = account_text(alloc, world.net())?;
/// // of two nodes and a link, by Borůvka in step: `m connect=2 initiate=1 name=0 report=1 changeroot=0` and `s 4 10`
/// ```
pub fn account_text<P: Ends + Spoken>(alloc: Global, net: &Net<P>) -> Result<Vec<u8>, ReportFault>
    ensures text { IfOk result (λ text. IsAccount P.rules P.words.kind P.bound net.now.graph (net_of P.rules net.now) text.items) }
    ensures ended { IfOk result (λ _. P.has_ended net.now.graph (net_of P.rules net.now)) }
    ensures not_ended { IsErrOf result NotEnded ↔ (P.has_ended net.now.graph (net_of P.rules net.now) → ⊥) }
{
    if !net_ended(net) {
        return Err(ReportFault::NotEnded);
    }
    let mut text = Vec::new(alloc);
    put_account(&mut text, net)?;
    Ok(text)
}

/// Appends the account of a net, as far as its run has come: a line `m` with the messages sent of each kind, and a line
/// `s SENT BOUND` with their sum, which keeps to the bound. Refusal: out of memory.
pub fn put_account<P: Spoken>(text: &mut Vec<u8>, net: &Net<P>) -> Result<(), AllocError>
    ensures account { IfOk result (λ _. text.new.items ≡ text.old.items ++ account_lines P.rules P.words.kind P.bound net.now.graph (net_of P.rules net.now)) }
    ensures within { IfOk result (λ _. in_all P.rules (net_of P.rules net.now).sent ≤ P.bound net.now.graph) }
{
    let setting = net.setting();
    let most = P::bound_of(setting, net.graph());
    let sent = net.ledger().sent;
    put_kinds::<P>(text, setting, sent)?;
    put_sends(text, in_total(sent), most)?;
    Ok(())
}

/// The line of the messages of each kind.
fn put_kinds<P: Spoken>(
    text: &mut Vec<u8>,
    setting: P::Setting,
    sent: &[u64],
) -> Result<(), AllocError>
    requires setting { P.goes_by setting }
    requires kinds { length sent.now ≡ P.rules.kinds }
    ensures { IfOk result (λ _. text.new.items ≡ text.old.items ++ kinds_line P.rules.kinds P.words.kind (λ k. slice_index sent.now k)) }
{
    text.extend_from_slice(b"m")?;
    for k in 0..sent.len() {
        put_count(text, P::kind_name(&setting, k).letters(), sent[k])?;
    }
    text.extend_from_slice(b"\n")?;
    Ok(())
}

/// A kind's name and its count.
#[tactic(auto, unfolding(crate::specs::Account::count_text))]
pub(crate) fn put_count(text: &mut Vec<u8>, name: &[u8], count: u64) -> Result<(), AllocError>
    ensures { IfOk result (λ _. text.new.items ≡ text.old.items ++ count_text name.now count) }
{
    text.extend_from_slice(b" ")?;
    text.extend_from_slice(name)?;
    text.extend_from_slice(b"=")?;
    put_number(text, u128::from(count))
}

/// The line of all messages and their bound.
fn put_sends(text: &mut Vec<u8>, sent: u128, bound: u64) -> Result<(), AllocError>
    ensures { IfOk result (λ _. text.new.items ≡ text.old.items ++ sends_line sent bound) }
{
    put_named(text, b"s ", sent)?;
    put_named(text, b" ", u128::from(bound))?;
    text.extend_from_slice(b"\n")
}

/// What stands before a number, and the number.
#[tactic(auto, unfolding(ghs_report::specs::ReportText::named))]
pub(crate) fn put_named(text: &mut Vec<u8>, lead: &[u8], number: u128) -> Result<(), AllocError>
    ensures { IfOk result (λ _. text.new.items ≡ text.old.items ++ named lead.now number) }
{
    text.extend_from_slice(lead)?;
    put_number(text, number)
}
