//! What a page calls, by the number of a protocol: the calls of `ghs_hand` and `peer_hand`, a run that a hand leads or that goes by
//! rounds, and of `ghs_outcomes`, all runs of a small network, as a static library exports them. A graph's text and a trace's text
//! come in, and a text goes out. Nothing is kept between two calls, and no call asks for more than its types say.
//!
//! Proved: the answers are those of `hand_seen`, `hand_run`, `hand_timed` and `hand_outcomes` by this protocol (`IsHandedOver`).
//! What is made of the library for browsers (`page/module`) is compared with the program by `page/held`, and not proved.
//!
//! How a page calls them, and asks again where an answer didn't fit: `call` in page/choose/choose.js.
#![tactic(auto)]

ghost use Rattle.ghs_outcomes.specs.Outcomes.{IsOutcomesAnswer};
ghost use Rattle.ghs_web.specs.Calls.{IsRunBy, IsSeenBy, IsTimedBy};
ghost use Rattle.ghs_web.specs.Protocols.{protocol_of};
ghost use Rattle.ghs_web.specs.Wakers.{wakers_of};
ghost use Rattle.peer_hand.specs.Handing.{IsHandedOver};
ghost use Rattle.std.specs.Prelude.{◌≡◌};

use boruvka::protocol::Boruvka;
use bumpalo::Bump;
use echo::protocol::Echo;
use gather::protocol::Gather;
use ghs_hand::{answers as ghs, timed as ghs_timed};
use ghs_outcomes::outcomes::hand_outcomes;
use peer_hand::answers::{hand_run, hand_seen};
use peer_hand::timed::hand_timed;
use peer_network::wake_set::WakeSet;
use peer_trace::protocol::Protocol;
use std::alloc::Global;

/// What a page is told of the world to which a graph's text and a trace's text lead by a protocol, or the fault for which they
/// lead to none. By themselves wake all nodes, or the first of each piece. The protocol is GHS (0), Borůvka in step (1), the
/// echo wave (2) or Gather (any other number). The answer is how many bytes that has; where they fit into `out` they are its
/// front, and else it is as it was.
///
/// ```text
/// // in JavaScript: by GHS; an address and a length for each text and for the room of the answer, all of them BigInt
/// const n = box.ghs_web_seen(0, 0, graph, graphBytes, trace, traceBytes, room, roomBytes);
/// // the answer is the first n bytes at room where n <= roomBytes; else ask again with more room
/// ```
#[unsafe(no_mangle)]
pub extern "C" fn ghs_web_seen(
    alloc: Global,
    first: bool,
    by: u32,
    graph: &[u8],
    trace: &[u8],
    out: &mut [u8],
) -> usize
    ensures { IsHandedOver (IsSeenBy (protocol_of by) (wakers_of first) graph.now trace.now) result out.old out.new }
{
    seen_by(alloc, protocol_of(by), wakers_of(first), graph, trace, out)
}

/// The trace's text of the run that goes on from there by a seed until it has ended, patiently or among all events (where
/// nothing is deferred that makes no difference), or the fault for which there is none. The answer is how many bytes that has;
/// where they fit into `out` they are its front, and else it is as it was.
///
/// ```text
/// // in JavaScript: by Borůvka in step; behind the two texts 1 for a patient run, and the seed
/// const n = box.ghs_web_run(0, 1, graph, graphBytes, trace, traceBytes, 1, 7n, room, roomBytes);
/// ```
#[unsafe(no_mangle)]
pub extern "C" fn ghs_web_run(
    alloc: Global,
    first: bool,
    by: u32,
    graph: &[u8],
    trace: &[u8],
    patient: bool,
    seed: u64,
    out: &mut [u8],
) -> usize
    ensures { IsHandedOver (IsRunBy (protocol_of by) (wakers_of first) graph.now trace.now patient seed) result out.old out.new }
{
    run_by(
        alloc,
        protocol_of(by),
        wakers_of(first),
        graph,
        trace,
        patient,
        seed,
        out,
    )
}

/// The run of a graph's text that a seed picks by rounds, from the opening on until it has ended: a line of how many rounds it
/// has, and the trace's text; or the fault for which there is none. The protocol is GHS (0), Borůvka in step (1), the echo wave
/// (2) or Gather (any other number). The answer is how many bytes that has; where they fit into `out` they are its front, and
/// else it is as it was.
///
/// ```text
/// // in JavaScript: by Borůvka in step, of seed 7
/// const n = box.ghs_web_timed(0, 1, graph, graphBytes, 7n, room, roomBytes);
/// ```
#[unsafe(no_mangle)]
pub extern "C" fn ghs_web_timed(
    alloc: Global,
    first: bool,
    by: u32,
    graph: &[u8],
    seed: u64,
    out: &mut [u8],
) -> usize
    ensures { IsHandedOver (IsTimedBy (protocol_of by) (wakers_of first) graph.now seed) result out.old out.new }
{
    timed_by(alloc, protocol_of(by), wakers_of(first), graph, seed, out)
}

/// With which counts all runs of a graph's text end by a protocol, how many states they lead to, and a run of each count; or
/// what stands against it, as more states than the limit. The protocol is GHS (0), Borůvka in step (1), the echo wave (2) or
/// Gather (any other number). The answer is how many bytes that has; where they fit into `out` they are its front, and else it is
/// as it was.
///
/// ```text
/// // in JavaScript: by GHS, and no more than 2,000 states
/// const n = box.ghs_web_outcomes(0, 0, 2000, graph, graphBytes, room, roomBytes);
/// ```
#[unsafe(no_mangle)]
pub extern "C" fn ghs_web_outcomes(
    alloc: Global,
    first: bool,
    protocol: u32,
    limit: u32,
    graph: &[u8],
    out: &mut [u8],
) -> usize
    ensures { IsHandedOver (IsOutcomesAnswer (protocol_of protocol) (wakers_of first) limit graph.now) result out.old out.new }
{
    hand_outcomes(
        alloc,
        protocol_of(protocol),
        wakers_of(first),
        limit,
        graph,
        out,
    )
}

/// What a page is told, by a protocol.
fn seen_by(
    alloc: Global,
    protocol: Protocol,
    wake: WakeSet,
    graph: &[u8],
    trace: &[u8],
    out: &mut [u8],
) -> usize
    ensures { IsHandedOver (IsSeenBy protocol wake graph.now trace.now) result out.old out.new }
{
    match protocol {
        Protocol::Ghs => ghs::hand_seen(alloc, wake, graph, trace, out),
        Protocol::Boruvka => hand_seen::<Boruvka>(
            alloc,
            (),
            Protocol::Boruvka,
            wake,
            graph,
            trace,
            out,
        ),
        Protocol::Echo => hand_seen::<Echo>(alloc, (), Protocol::Echo, wake, graph, trace, out),
        Protocol::Gather => {
            let lists = Bump::new(alloc);
            hand_seen::<Gather>(alloc, &lists, Protocol::Gather, wake, graph, trace, out)
        }
    }
}

/// The run that goes on, by a protocol.
fn run_by(
    alloc: Global,
    protocol: Protocol,
    wake: WakeSet,
    graph: &[u8],
    trace: &[u8],
    patient: bool,
    seed: u64,
    out: &mut [u8],
) -> usize
    ensures { IsHandedOver (IsRunBy protocol wake graph.now trace.now patient seed) result out.old out.new }
{
    match protocol {
        Protocol::Ghs => ghs::hand_run(alloc, wake, graph, trace, patient, seed, out),
        Protocol::Boruvka => hand_run::<Boruvka>(
            alloc,
            (),
            Protocol::Boruvka,
            wake,
            graph,
            trace,
            seed,
            out,
        ),
        Protocol::Echo => hand_run::<Echo>(
            alloc,
            (),
            Protocol::Echo,
            wake,
            graph,
            trace,
            seed,
            out,
        ),
        Protocol::Gather => {
            let lists = Bump::new(alloc);
            hand_run::<Gather>(
                alloc,
                &lists,
                Protocol::Gather,
                wake,
                graph,
                trace,
                seed,
                out,
            )
        }
    }
}

/// The run by rounds, by a protocol.
fn timed_by(
    alloc: Global,
    protocol: Protocol,
    wake: WakeSet,
    graph: &[u8],
    seed: u64,
    out: &mut [u8],
) -> usize
    ensures { IsHandedOver (IsTimedBy protocol wake graph.now seed) result out.old out.new }
{
    match protocol {
        Protocol::Ghs => ghs_timed::hand_timed(alloc, wake, graph, seed, out),
        Protocol::Boruvka => hand_timed::<Boruvka>(
            alloc,
            (),
            Protocol::Boruvka,
            wake,
            graph,
            seed,
            out,
        ),
        Protocol::Echo => hand_timed::<Echo>(alloc, (), Protocol::Echo, wake, graph, seed, out),
        Protocol::Gather => {
            let lists = Bump::new(alloc);
            hand_timed::<Gather>(alloc, &lists, Protocol::Gather, wake, graph, seed, out)
        }
    }
}

/// The protocol of a number.
fn protocol_of(number: u32) -> Protocol
    ensures { result ≡ protocol_of number }
{
    match number {
        0 => Protocol::Ghs,
        1 => Protocol::Boruvka,
        2 => Protocol::Echo,
        _ => Protocol::Gather,
    }
}

/// Which nodes wake by themselves.
fn wakers_of(first: bool) -> WakeSet
    ensures { result ≡ wakers_of first }
{
    if first { WakeSet::First } else { WakeSet::All }
}
