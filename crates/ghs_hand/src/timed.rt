//! Runs by rounds, which time a run.
ghost use Rattle.ghs_hand.specs.Timed.{HasNoTime, IsTimedAnswer, IsTimedText};
ghost use Rattle.peer_hand.specs.Handing.{IsHandedOver};
ghost use Rattle.std.specs.Prelude.{IfErr, IfOk};

use ghs_rounds::run::run_rounds;
use ghs_sched::fault::RunFault;
use ghs_world::world::World;
use peer_hand::fault::HandFault;
use peer_hand::handing::hand_over;
use peer_hand::texts::graph_of;
use peer_hand::timed::timed_text;
use peer_network::wake_set::WakeSet;
use peer_schedule::schedule::Schedule;
use peer_texts::trace::EVENT_LIMIT;
use peer_trace::protocol::Protocol;
use std::alloc::Global;

/// The run of a graph's text that a seed picks by rounds, from the opening on until it has ended: a line of how many rounds it
/// has, and the trace's text; or the fault for which there is none. The answer is how many bytes that has; where they fit into
/// `out` they are its front, and else it is as it was.
///
/// ```text
/// let count = hand_timed(alloc, WakeSet::First, b"p sp 3 2\na 1 2 5\na 2 3 7", 1, &mut out);
/// // {"rounds":7} and behind it the text of `ghs run --schedule rounds --wake first --print trace`
/// ```
pub fn hand_timed(alloc: Global, wake: WakeSet, graph: &[u8], seed: u64, out: &mut [u8]) -> usize
    ensures { IsHandedOver (IsTimedAnswer wake graph.now seed) result out.old out.new }
{
    hand_over(alloc, timed_of(alloc, wake, graph, seed), out)
}

/// The rounds and the text of the run of a graph's text that a seed picks by rounds.
fn timed_of(alloc: Global, wake: WakeSet, graph: &[u8], seed: u64) -> Result<Vec<u8>, HandFault>
    ensures text { IfOk result (λ text. IsTimedText wake graph.now seed text.items) }
    ensures fault { IfErr result (λ fault. HasNoTime wake graph.now seed fault) }
{
    let graph = graph_of(alloc, graph)?;
    let Ok(mut world) = World::open(alloc, graph, wake, EVENT_LIMIT) else {
        return Err(HandFault::Memory);
    };
    let (rounds, end) = run_rounds(alloc, &mut world, &mut Schedule::seeded(seed));
    // Read for its clause: there are fewer turns than numbers.
    let _ = world.turns();
    match end {
        Ok(_) => Ok(timed_text(alloc, Protocol::Ghs, rounds, world.trace())?),
        Err(RunFault::TurnLimit) => Err(HandFault::TurnLimit),
        Err(_) => Err(HandFault::Memory),
    }
}
