//! The texts that answer a page, handed over in the room that it gives.
ghost use Rattle.peer_hand.specs.Answers.{HasNoRun, IsRunAnswer, IsRunText, IsSeenAnswer, IsTextOn, IsToldOf, StopsShort};
ghost use Rattle.peer_hand.specs.Handing.{IsHandedOver};
ghost use Rattle.peer_hand.specs.Led.{LeadsNowhere};
ghost use Rattle.std.specs.Prelude.{IfErr, IfOk};

use crate::fault::HandFault;
use crate::going::go_on;
use crate::handing::hand_over;
use crate::led::led;
use crate::seen::seen;
use peer_machine::ends::Ends;
use peer_network::wake_set::WakeSet;
use peer_runs::world::World;
use peer_trace::protocol::Protocol;
use peer_trace::trace::write_trace_of;
use peer_words::viewed::Viewed;
use std::alloc::Global;

/// What a page is told of the world of the protocol P, which stored runs name so, by this setting, to which a graph's text and a
/// trace's text lead, or the fault for which they lead to none. The answer is how many bytes that has; where they fit into `out`
/// they are its front, and else it is as it was.
///
/// ```text
/// let count = hand_seen::<Echo>(alloc, (), Protocol::Echo, WakeSet::All, b"p sp 2 1\na 1 2 5", b"trace echo 0", &mut out);
/// // where count is at most out.len(), out[..count] is the answer, whose last lines are `{"may":[1]}` and `{"may":[2]}`
/// ```
pub fn hand_seen<P: Ends + Viewed>(
    alloc: Global,
    setting: P::Setting,
    protocol: Protocol,
    wake: WakeSet,
    graph: &[u8],
    trace: &[u8],
    out: &mut [u8],
) -> usize
    requires { P.goes_by setting }
    ensures { IsHandedOver (IsSeenAnswer P.rules P.words P.looks P.bound P.has_ended protocol wake graph.now trace.now) result out.old out.new }
{
    hand_over(
        alloc,
        seen_of::<P>(alloc, setting, protocol, wake, graph, trace),
        out,
    )
}

/// The trace's text of the run that goes on from there by a seed until it has ended, or the fault for which there is none. The
/// answer is how many bytes that has; where they fit into `out` they are its front, and else it is as it was.
///
/// ```text
/// let count = hand_run::<Boruvka>(alloc, (), Protocol::Boruvka, WakeSet::All, graph, b"trace boruvka 0", 7, &mut out);
/// // a trace's text, that of `ghs run --protocol boruvka --seed 7 --print trace`
/// ```
pub fn hand_run<P: Ends>(
    alloc: Global,
    setting: P::Setting,
    protocol: Protocol,
    wake: WakeSet,
    graph: &[u8],
    trace: &[u8],
    seed: u64,
    out: &mut [u8],
) -> usize
    requires { P.goes_by setting }
    ensures { IsHandedOver (IsRunAnswer P.rules P.has_ended protocol wake graph.now trace.now seed) result out.old out.new }
{
    hand_over(
        alloc,
        run_of::<P>(alloc, setting, protocol, wake, graph, trace, seed),
        out,
    )
}

/// What a page is told of the world to which two texts lead.
fn seen_of<P: Ends + Viewed>(
    alloc: Global,
    setting: P::Setting,
    protocol: Protocol,
    wake: WakeSet,
    graph: &[u8],
    trace: &[u8],
) -> Result<Vec<u8>, HandFault>
    requires { P.goes_by setting }
    ensures text { IfOk result (λ text. IsToldOf P.rules P.words P.looks P.bound P.has_ended protocol wake graph.now trace.now text.items) }
    ensures fault { IfErr result (λ fault. LeadsNowhere P.rules protocol wake graph.now trace.now fault) }
{
    let world = led::<P>(alloc, setting, protocol, wake, graph, trace)?;
    Ok(seen(alloc, &world)?)
}

/// The text of the run that goes on from the world to which two texts lead.
fn run_of<P: Ends>(
    alloc: Global,
    setting: P::Setting,
    protocol: Protocol,
    wake: WakeSet,
    graph: &[u8],
    trace: &[u8],
    seed: u64,
) -> Result<Vec<u8>, HandFault>
    requires { P.goes_by setting }
    ensures text { IfOk result (λ text. IsRunText P.rules P.has_ended protocol wake graph.now trace.now seed text.items) }
    ensures fault { IfErr result (λ fault. HasNoRun P.rules P.has_ended protocol wake graph.now trace.now seed fault) }
{
    match led::<P>(alloc, setting, protocol, wake, graph, trace) {
        Ok(world) => gone_on(alloc, protocol, world, seed),
        Err(fault) => Err(fault),
    }
}

/// The text of the run that goes on from a world.
fn gone_on<P: Ends>(
    alloc: Global,
    protocol: Protocol,
    mut world: World<P>,
    seed: u64,
) -> Result<Vec<u8>, HandFault>
    ensures text { IfOk result (λ text. IsTextOn P.rules P.has_ended protocol seed world text.items) }
    ensures fault { IfErr result (λ fault. StopsShort P.rules P.has_ended seed world fault) }
{
    match go_on(alloc, &mut world, seed) {
        Ok(()) => Ok(write_trace_of(alloc, protocol, world.net().trace())?),
        Err(fault) => Err(fault),
    }
}
