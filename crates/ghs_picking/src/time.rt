//! The time of a run and its bits, as a text.
ghost use Rattle.ghs_picking.specs.Time.{AreCounted, IsTimeText, bits_line, chain_line, laps_line, laps_lines, rounds_line, rounds_lines};
ghost use Rattle.peer_network.specs.Network.{network_of};
ghost use Rattle.ghs_protocol.specs.Run.{IsRun};
ghost use Rattle.std.specs.Prelude.{◌≡◌, ◌++◌, ◌≤◌, ◌^◌, IfOk, length};

use crate::laps::LapCount;
use crate::lengths::lengths_of;
use crate::round_bound::round_bound;
use ghs_graph::graph::Graph;
use ghs_lines::numbers::put_number;
use peer_network::event::Event;
use peer_network::wake_set::WakeSet;
use std::alloc::{AllocError, Global};

/// The rounds of a run, and the bound on them.
#[derive(Clone, Copy, Debug, Drop)]
pub struct RoundCount {
    pub rounds: u64,
    pub bound: u64,
}

/// The time of a run and its bits: a line of its longest chain, behind it, where the run went by rounds, one of these with
/// the bound on the rounds of the graph under this wake set, or, where it went by laps, one of these with theirs, and then
/// one of how many bits its messages have that were sent, each counted once, and how many the longest has. The events are
/// played once more for it, each and each message in constant time, and for the bound each node is looked at once.
/// Refusal: out of memory.
///
/// ```text
/// let (rounds, end) = run_timed(alloc, &mut world, ScheduleKind::Rounds, 1);
/// let text = time_text(alloc, world.graph(), WakeSet::First, world.trace(), rounds, None)?;
/// // b"l 7\nu 7 13\nb 74 12\n" on the path of three, where node 1 alone wakes by itself; no b"u 7 13\n" if rounds were None
/// ```
pub fn time_text(
    alloc: Global,
    graph: &Graph,
    wake: WakeSet,
    events: &[Event],
    rounds: Option<u64>,
    laps: Option<LapCount>,
) -> Result<Vec<u8>, AllocError>
    requires run { IsRun (network_of graph.now) events.now }
    requires few { length events.now ≤ 2 ^ 40 }
    ensures { IfOk result (λ text. IsTimeText wake graph.now events.now rounds laps text.items) }
{
    let lengths = lengths_of(alloc, graph, events)?;
    let mut text = Vec::new(alloc);
    put_chain(&mut text, lengths.chain)?;
    put_rounds(&mut text, counted(graph, wake, rounds))?;
    put_laps(&mut text, laps)?;
    put_bits(&mut text, lengths.bits, lengths.longest)?;
    Ok(text)
}

/// Rounds, where there are any, with the bound on them.
fn counted(graph: &Graph, wake: WakeSet, rounds: Option<u64>) -> Option<RoundCount>
    ensures { AreCounted wake graph.now rounds result }
{
    match rounds {
        Some(rounds) => Some(RoundCount {
            rounds,
            bound: round_bound(graph, wake),
        }),
        None => None,
    }
}

/// The line of a chain.
#[tactic(auto, unfolding(crate::specs::Time::chain_line))]
fn put_chain(text: &mut Vec<u8>, chain: u64) -> Result<(), AllocError>
    ensures { IfOk result (λ _. text.new.items ≡ text.old.items ++ chain_line chain) }
{
    text.extend_from_slice(b"l ")?;
    put_number(text, u128::from(chain))?;
    text.extend_from_slice(b"\n")?;
    Ok(())
}

/// The line of rounds, where there are any.
fn put_rounds(text: &mut Vec<u8>, count: Option<RoundCount>) -> Result<(), AllocError>
    ensures { IfOk result (λ _. text.new.items ≡ text.old.items ++ rounds_lines count) }
{
    match count {
        Some(count) => put_round_count(text, count),
        None => Ok(()),
    }
}

/// The line of so many rounds.
#[tactic(auto, unfolding(crate::specs::Time::rounds_line))]
fn put_round_count(text: &mut Vec<u8>, count: RoundCount) -> Result<(), AllocError>
    ensures { IfOk result (λ _. text.new.items ≡ text.old.items ++ rounds_line count) }
{
    text.extend_from_slice(b"u ")?;
    put_number(text, u128::from(count.rounds))?;
    text.extend_from_slice(b" ")?;
    put_number(text, u128::from(count.bound))?;
    text.extend_from_slice(b"\n")?;
    Ok(())
}

/// The line of laps, where there are any.
fn put_laps(text: &mut Vec<u8>, laps: Option<LapCount>) -> Result<(), AllocError>
    ensures { IfOk result (λ _. text.new.items ≡ text.old.items ++ laps_lines laps) }
{
    match laps {
        Some(count) => put_lap_count(text, count),
        None => Ok(()),
    }
}

/// The line of so many laps.
#[tactic(auto, unfolding(crate::specs::Time::laps_line))]
fn put_lap_count(text: &mut Vec<u8>, count: LapCount) -> Result<(), AllocError>
    ensures { IfOk result (λ _. text.new.items ≡ text.old.items ++ laps_line count) }
{
    text.extend_from_slice(b"r ")?;
    put_number(text, u128::from(count.laps))?;
    text.extend_from_slice(b" ")?;
    put_number(text, u128::from(count.bound))?;
    text.extend_from_slice(b"\n")?;
    Ok(())
}

/// The line of bits.
#[tactic(auto, unfolding(crate::specs::Time::bits_line))]
fn put_bits(text: &mut Vec<u8>, bits: u64, longest: u32) -> Result<(), AllocError>
    ensures { IfOk result (λ _. text.new.items ≡ text.old.items ++ bits_line bits longest) }
{
    text.extend_from_slice(b"b ")?;
    put_number(text, u128::from(bits))?;
    text.extend_from_slice(b" ")?;
    put_number(text, u128::from(longest))?;
    text.extend_from_slice(b"\n")?;
    Ok(())
}
