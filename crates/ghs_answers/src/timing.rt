//! The time of a run by any protocol, as a text.
ghost use Rattle.ghs_answers.specs.Timing.{rounds_line, rounds_lines, timed_text};
ghost use Rattle.ghs_picking.specs.Time.{bits_line, chain_line};
ghost use Rattle.std.specs.Prelude.{◌≡◌, ◌++◌, IfOk};

use ghs_choices::schedule_kind::ScheduleKind;
use ghs_lines::numbers::put_number;
use peer_lengths::lengths::{Lengths, lengths_of};
use peer_machine::measured::Measured;
use peer_net::net::Net;
use std::alloc::{AllocError, Global};

/// The time of the run of a net, which has ended, and its bits: a line of its longest chain; where it went by rounds one of
/// these, which are as many; and one of how many bits its messages have, and how many the longest has. The events are played
/// once more for it. Refusal: out of memory.
pub fn time_text_of<P: Measured>(
    alloc: Global,
    schedule_kind: ScheduleKind,
    net: &Net<P>,
) -> Result<Vec<u8>, AllocError>
    ensures { IfOk result (λ text. text.items ≡ timed_text P.rules schedule_kind net.now.graph net.now.trace) }
{
    let lengths = lengths_of::<P>(alloc, net.setting(), net.graph(), net.trace())?;
    time_text(alloc, schedule_kind, lengths)
}

/// The same of a run that is so long.
pub fn time_text(
    alloc: Global,
    schedule_kind: ScheduleKind,
    lengths: Lengths,
) -> Result<Vec<u8>, AllocError>
    ensures { IfOk result (λ text. text.items ≡ chain_line lengths.chain ++ rounds_lines schedule_kind lengths.chain ++ bits_line lengths.bits lengths.longest) }
{
    let mut text = Vec::new(alloc);
    put_chain(&mut text, lengths.chain)?;
    put_rounds(&mut text, schedule_kind, lengths.chain)?;
    put_bits(&mut text, lengths.bits, lengths.longest)?;
    Ok(text)
}

/// The line of a chain.
#[tactic(auto, unfolding(ghs_picking::specs::Time::chain_line))]
fn put_chain(text: &mut Vec<u8>, chain: u64) -> Result<(), AllocError>
    ensures { IfOk result (λ _. text.new.items ≡ text.old.items ++ chain_line chain) }
{
    text.extend_from_slice(b"l ")?;
    put_number(text, u128::from(chain))?;
    text.extend_from_slice(b"\n")?;
    Ok(())
}

/// The line of rounds, where a run went by rounds.
fn put_rounds(
    text: &mut Vec<u8>,
    schedule_kind: ScheduleKind,
    rounds: u64,
) -> Result<(), AllocError>
    ensures { IfOk result (λ _. text.new.items ≡ text.old.items ++ rounds_lines schedule_kind rounds) }
{
    match schedule_kind {
        ScheduleKind::Rounds => put_round_count(text, rounds),
        ScheduleKind::Seeded
        | ScheduleKind::Patient
        | ScheduleKind::Waits
        | ScheduleKind::Lifo
        | ScheduleKind::RoundRobin => Ok(()),
    }
}

/// The line of so many rounds.
#[tactic(auto, unfolding(crate::specs::Timing::rounds_line))]
fn put_round_count(text: &mut Vec<u8>, rounds: u64) -> Result<(), AllocError>
    ensures { IfOk result (λ _. text.new.items ≡ text.old.items ++ rounds_line rounds) }
{
    text.extend_from_slice(b"u ")?;
    put_number(text, u128::from(rounds))?;
    text.extend_from_slice(b"\n")?;
    Ok(())
}

/// The line of bits.
#[tactic(auto, unfolding(ghs_picking::specs::Time::bits_line))]
fn put_bits(text: &mut Vec<u8>, bits: u128, longest: u32) -> Result<(), AllocError>
    ensures { IfOk result (λ _. text.new.items ≡ text.old.items ++ bits_line bits longest) }
{
    text.extend_from_slice(b"b ")?;
    put_number(text, bits)?;
    text.extend_from_slice(b" ")?;
    put_number(text, u128::from(longest))?;
    text.extend_from_slice(b"\n")?;
    Ok(())
}
