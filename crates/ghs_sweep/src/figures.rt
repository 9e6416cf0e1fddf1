//! How a run of GHS stands, in numbers.
ghost use Rattle.ghs_picking.specs.Lengths.{lengths_of};
ghost use Rattle.ghs_protocol.specs.Ledger.{in_all};
ghost use Rattle.ghs_sweep.specs.Figures.{AreFigures, greatest_level};
ghost use Rattle.std.specs.Prelude.{◌≡◌, ◌<◌, ◌≤◌, ◌^◌, length, slice_index, IfOk};

use ghs_core::census::FragmentRow;
use ghs_core::net::Net;
use ghs_graph::bounds::bound;
use ghs_picking::lengths::{RunLengths, lengths_of};
use ghs_report::weight::total_weight;
use peer_lengths::lengths::Lengths;
use peer_sweep::figures::Figures;
use std::alloc::{AllocError, Global};

/// The figures of a net. Its events are played once more for the run's lengths. Refusal: out of memory.
pub fn figures_of(alloc: Global, net: &Net) -> Result<Figures, AllocError>
    requires { length net.now.trace ≤ 2 ^ 40 }
    ensures { IfOk result (λ f. AreFigures net.now.graph net.now.trace f) }
{
    let lengths = lengths_of(alloc, net.graph(), net.trace())?;
    figures_with(alloc, net, lengths)
}

/// The same, where the run's lengths are known.
pub(crate) fn figures_with(
    alloc: Global,
    net: &Net,
    lengths: RunLengths,
) -> Result<Figures, AllocError>
    requires { lengths ≡ lengths_of net.now.graph net.now.trace }
    ensures { IfOk result (λ f. AreFigures net.now.graph net.now.trace f) }
{
    let graph = net.graph();
    let most = bound(graph.nodes(), graph.links());
    let ledger = net.ledger();
    let census = net.census(alloc)?;
    let branches = net.branches(alloc)?;
    let sent = &ledger.sent;
    Ok(Figures {
        nodes: graph.nodes(),
        links: graph.links(),
        events: net.events(),
        sent: in_total(sent),
        kinds: [
            sent[0], sent[1], sent[2], sent[3], sent[4], sent[5], sent[6], 0,
        ],
        requeued: ledger.requeued,
        queued: ledger.queued,
        bound: most,
        level: Some(greatest_level(&census)),
        fragments: Some(census.len() as u64),
        weight: Some(total_weight(&branches)),
        ended: net.ended(),
        lengths: Lengths {
            chain: lengths.chain,
            bits: u128::from(lengths.bits),
            longest: lengths.longest,
        },
    })
}

/// The counts of all kinds together.
fn in_total(sent: &[u64; 7]) -> u64
    requires { in_all (λ k. slice_index sent.now k) < 2 ^ 64 }
    ensures { result ≡ in_all (λ k. slice_index sent.now k) }
{
    sent[0] + sent[1] + sent[2] + sent[3] + sent[4] + sent[5] + sent[6]
}

/// The greatest level of the rows, 0 where there are none.
fn greatest_level(census: &[FragmentRow]) -> u8
    ensures { result ≡ greatest_level census.now }
{
    let mut level: u8 = 0;
    for row in census {
        level = level.max(row.level);
    }
    level
}
