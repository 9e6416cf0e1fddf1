//! The texts that answer a page, handed over in the room that it gives.
ghost use Rattle.ghs_hand.specs.Answers.{HasNoRun, IsRunAnswer, IsRunText, IsSeenAnswer, IsTextOn, IsToldOf, StopsShort};
ghost use Rattle.ghs_hand.specs.Led.{LeadsNowhere};
ghost use Rattle.peer_hand.specs.Handing.{IsHandedOver};
ghost use Rattle.std.specs.Prelude.{◌≡◌, IfErr, IfOk, length};

use crate::going::go_on;
use crate::led::led;
use crate::seen::seen;
use ghs_world::world::World;
use peer_hand::fault::HandFault;
use peer_hand::handing::hand_over;
use peer_network::wake_set::WakeSet;
use peer_texts::trace::write_trace;
use std::alloc::Global;

/// What a page is told of the world to which a graph's text and a trace's text lead, or the fault for which they lead to
/// none. The answer is how many bytes that has; where they fit into `out` they are its front, and else it is as it was.
///
/// ```text
/// let count = hand_seen(alloc, WakeSet::All, b"p sp 2 1\na 1 2 5", b"trace 0", &mut out);
/// // where count is at most out.len(), out[..count] is the answer, whose last lines are `{"may":[1]}` and `{"may":[2]}`
/// ```
pub fn hand_seen(alloc: Global, wake: WakeSet, graph: &[u8], trace: &[u8], out: &mut [u8]) -> usize
    ensures { IsHandedOver (IsSeenAnswer wake graph.now trace.now) result out.old out.new }
{
    hand_over(alloc, seen_of(alloc, wake, graph, trace), out)
}

/// The trace's text of the run that goes on from there by a seed until it has ended, patiently or among all events, or
/// the fault for which there is none. The answer is how many bytes that has; where they fit into `out` they are its
/// front, and else it is as it was.
///
/// ```text
/// let count = hand_run(alloc, WakeSet::All, graph, b"trace 0", true, 7, &mut out);
/// // a trace's text, that of `ghs run --schedule patient --seed 7 --print trace`
/// ```
pub fn hand_run(
    alloc: Global,
    wake: WakeSet,
    graph: &[u8],
    trace: &[u8],
    patient: bool,
    seed: u64,
    out: &mut [u8],
) -> usize
    ensures { IsHandedOver (IsRunAnswer wake graph.now trace.now patient seed) result out.old out.new }
{
    hand_over(alloc, run_of(alloc, wake, graph, trace, patient, seed), out)
}

/// What a page is told of the world to which two texts lead.
fn seen_of(alloc: Global, wake: WakeSet, graph: &[u8], trace: &[u8]) -> Result<Vec<u8>, HandFault>
    ensures text { IfOk result (λ text. IsToldOf wake graph.now trace.now text.items) }
    ensures fault { IfErr result (λ fault. LeadsNowhere wake graph.now trace.now fault) }
{
    let world = led(alloc, wake, graph, trace)?;
    Ok(seen(alloc, &world)?)
}

/// The text of the run that goes on from the world to which two texts lead.
fn run_of(
    alloc: Global,
    wake: WakeSet,
    graph: &[u8],
    trace: &[u8],
    patient: bool,
    seed: u64,
) -> Result<Vec<u8>, HandFault>
    ensures text { IfOk result (λ text. IsRunText wake graph.now trace.now patient seed text.items) }
    ensures fault { IfErr result (λ fault. HasNoRun wake graph.now trace.now patient seed fault) }
{
    match led(alloc, wake, graph, trace) {
        Ok(world) => gone_on(alloc, world, patient, seed),
        Err(fault) => Err(fault),
    }
}

/// The text of the run that goes on from a world.
fn gone_on(alloc: Global, mut world: World, patient: bool, seed: u64) -> Result<Vec<u8>, HandFault>
    requires { world.last ≡ length world.net.trace }
    ensures text { IfOk result (λ text. IsTextOn patient seed world text.items) }
    ensures fault { IfErr result (λ fault. StopsShort patient seed world fault) }
{
    match go_on(alloc, &mut world, patient, seed) {
        Ok(()) => Ok(write_trace(alloc, world.trace())?),
        Err(fault) => Err(fault),
    }
}
