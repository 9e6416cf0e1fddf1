//! The line of counts, which is the last of the data of a page.
ghost use Rattle.std.specs.Prelude.{◌≡◌, ◌++◌, IfOk, length, slice_index};
ghost use Rattle.peer_page.specs.Counts.{counts_json, counts_line, kinds_members, parts_json};

use crate::commas::put_comma;
use crate::head::put_count;
use ghs_lines::numbers::put_number;
use peer_net::ledger::Ledger;
use peer_words::json::put_number_member;
use std::alloc::AllocError;

/// Appends the counts after so many events: of each kind the messages sent and those consumed, how often one was deferred, and
/// how many wait.
///
/// ```text
/// put_counts(&mut text, 5, &net.ledger())?;
/// // {"ledger":5,"sent":[2,1,0,1,0],"consumed":[2,1,0,1,0],"requeued":0,"queued":0}
/// ```
#[tactic(auto, unfolding(crate::specs::Counts::counts_line))]
pub fn put_counts(text: &mut Vec<u8>, events: u64, ledger: &Ledger) -> Result<(), AllocError>
    requires kinds { length ledger.now.consumed.now ≡ length ledger.now.sent.now }
    ensures { IfOk result (λ _. text.new.items ≡ text.old.items ++ counts_line (length ledger.now.sent.now) events (λ k. slice_index ledger.now.sent.now k) (λ k. slice_index ledger.now.consumed.now k) ledger.now.deferred ledger.now.queued) }
{
    put_number_member(text, b"{", b"ledger", u128::from(events))?;
    put_kinds(text, ledger.sent, ledger.consumed)?;
    put_count(text, b"requeued", ledger.deferred)?;
    put_count(text, b"queued", ledger.queued)?;
    text.extend_from_slice(b"}\n")
}

#[tactic(auto, unfolding(crate::specs::Counts::kinds_members))]
fn put_kinds(text: &mut Vec<u8>, sent: &[u64], consumed: &[u64]) -> Result<(), AllocError>
    requires { length consumed.now ≡ length sent.now }
    ensures { IfOk result (λ _. text.new.items ≡ text.old.items ++ kinds_members (length sent.now) (λ k. slice_index sent.now k) (λ k. slice_index consumed.now k)) }
{
    text.extend_from_slice(b",\"sent\":")?;
    put_list(text, sent)?;
    text.extend_from_slice(b",\"consumed\":")?;
    put_list(text, consumed)
}

/// A list of counts.
#[tactic(auto, unfolding(crate::specs::Counts::counts_json))]
fn put_list(text: &mut Vec<u8>, counts: &[u64]) -> Result<(), AllocError>
    ensures { IfOk result (λ _. text.new.items ≡ text.old.items ++ counts_json (length counts.now) (λ k. slice_index counts.now k)) }
{
    text.extend_from_slice(b"[")?;
    put_parts(text, counts)?;
    text.extend_from_slice(b"]")
}

fn put_parts(text: &mut Vec<u8>, counts: &[u64]) -> Result<(), AllocError>
    ensures { IfOk result (λ _. text.new.items ≡ text.old.items ++ parts_json (length counts.now) (λ k. slice_index counts.now k)) }
{
    for kind in 0..counts.len() {
        put_comma(text, kind)?;
        put_number(text, u128::from(counts[kind]))?;
    }
    Ok(())
}
