//! Runs by rounds, which time a run.
ghost use Rattle.peer_hand.specs.Handing.{IsHandedOver};
ghost use Rattle.peer_hand.specs.Timed.{HasNoTime, IsTimedAnswer, IsTimedText, rounds_json, timed_json};
ghost use Rattle.std.specs.Prelude.{◌≡◌, ◌++◌, IfErr, IfOk};

use crate::fault::HandFault;
use crate::handing::hand_over;
use crate::texts::graph_of;
use ghs_lines::numbers::put_number;
use peer_machine::ends::Ends;
use peer_network::event::Event;
use peer_network::wake_set::WakeSet;
use peer_picking::rounds_run::run_rounds;
use peer_report::ended::ended;
use peer_runs::fault::RunFault;
use peer_runs::world::World;
use peer_schedule::schedule::Schedule;
use peer_texts::trace::EVENT_LIMIT;
use peer_trace::protocol::Protocol;
use peer_trace::trace::write_trace_of;
use std::alloc::{AllocError, Global};

/// The run of a graph's text that a seed picks by rounds, from the opening on until it has ended: a line of how many rounds it
/// has, and the trace's text; or the fault for which there is none. The answer is how many bytes that has; where they fit into
/// `out` they are its front, and else it is as it was.
///
/// ```text
/// let count = hand_timed::<Echo>(alloc, (), Protocol::Echo, WakeSet::First, b"p sp 3 2\na 1 2 5\na 2 3 7", 7, &mut out);
/// // {"rounds":4} and behind it the text of `ghs run --protocol echo --schedule rounds --wake first --seed 7 --print trace`
/// ```
pub fn hand_timed<P: Ends>(
    alloc: Global,
    setting: P::Setting,
    protocol: Protocol,
    wake: WakeSet,
    graph: &[u8],
    seed: u64,
    out: &mut [u8],
) -> usize
    requires { P.goes_by setting }
    ensures { IsHandedOver (IsTimedAnswer P.rules P.has_ended protocol wake graph.now seed) result out.old out.new }
{
    hand_over(
        alloc,
        timed_of::<P>(alloc, setting, protocol, wake, graph, seed),
        out,
    )
}

/// The rounds and the text of the run of a graph's text that a seed picks by rounds.
fn timed_of<P: Ends>(
    alloc: Global,
    setting: P::Setting,
    protocol: Protocol,
    wake: WakeSet,
    graph: &[u8],
    seed: u64,
) -> Result<Vec<u8>, HandFault>
    requires { P.goes_by setting }
    ensures text { IfOk result (λ text. IsTimedText P.rules P.has_ended protocol wake graph.now seed text.items) }
    ensures fault { IfErr result (λ fault. HasNoTime P.rules P.has_ended wake graph.now seed fault) }
{
    let graph = graph_of(alloc, graph)?;
    let Ok(mut world) = World::<P>::open(alloc, setting, graph, wake) else {
        return Err(HandFault::Memory);
    };
    let (rounds, end) = run_rounds(alloc, &mut world, &mut Schedule::seeded(seed), EVENT_LIMIT);
    // Asked for its clauses: a run has ended where nothing is ready.
    let _ = ended(&world);
    match end {
        Ok(()) => Ok(timed_text(alloc, protocol, rounds, world.net().trace())?),
        Err(RunFault::TurnLimit) => Err(HandFault::TurnLimit),
        Err(RunFault::Memory) => Err(HandFault::Memory),
    }
}

/// How many rounds a run has, and behind that the run. Refusal: out of memory.
///
/// ```text
/// let text = timed_text(alloc, Protocol::Echo, 1, &[Event::Wake(1)])?;
/// // {"rounds":1} and behind it `trace echo 1` and `wake 1`
/// ```
pub fn timed_text(
    alloc: Global,
    protocol: Protocol,
    rounds: u64,
    events: &[Event],
) -> Result<Vec<u8>, AllocError>
    ensures { IfOk result (λ text. text.items ≡ timed_json protocol rounds events.now) }
{
    let run = write_trace_of(alloc, protocol, events)?;
    let mut text = Vec::new(alloc);
    put_rounds(&mut text, rounds)?;
    text.extend_from_slice(&run)?;
    Ok(text)
}

/// How many rounds a run has.
#[tactic(auto, unfolding(crate::specs::Timed::rounds_json))]
fn put_rounds(text: &mut Vec<u8>, rounds: u64) -> Result<(), AllocError>
    ensures { IfOk result (λ _. text.new.items ≡ text.old.items ++ rounds_json rounds) }
{
    text.extend_from_slice(b"{\"rounds\":")?;
    put_number(text, u128::from(rounds))?;
    text.extend_from_slice(b"}\n")
}
