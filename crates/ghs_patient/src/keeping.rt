//! Runs by what is kept of a world from event to event, so that a pick needs no look over all events.
ghost use Rattle.std.specs.Prelude.{◌≡◌, ◌<◌, ◌≤◌, ◌^◌, ℕ, List, [], length, true, false, IfErr, IfOk, OnErr, OnOk};
ghost use Rattle.std.specs.List.{All};
ghost use Rattle.ghs_graph.specs.Ports.{ports_of};
ghost use Rattle.ghs_node.specs.declared.message.Message.{Message as Letter};
ghost use Rattle.peer_network.specs.declared.event.Event.{Event as Happening};
ghost use Rattle.ghs_protocol.specs.Marks.{HasEnded};
ghost use Rattle.ghs_core.specs.NetState.{network, event_node};
ghost use Rattle.peer_index.specs.Places.{IsPlaced};
ghost use Rattle.ghs_world.specs.Ready.{is_ready, ready_events};
ghost use Rattle.ghs_world.specs.Steps.{IsSameWorld};
ghost use Rattle.ghs_world.specs.WorldState.{WorldState, has_turn, home};
ghost use Rattle.ghs_sched.specs.Runs.{EndsFor, IsEnd};
ghost use Rattle.ghs_patient.specs.Choices.{IsMarked};
ghost use Rattle.ghs_patient.specs.Keeping.{HasAnswered, HasGone, HasGoneOn};

use ghs_node::delta::Delta;
use ghs_node::head::Head;
use ghs_sched::fault::RunFault;
use ghs_sched::run::{RunEnd, end_of};
use ghs_world::world::World;
use peer_index::placed::Placed;
use peer_schedule::schedule::Schedule;
use std::alloc::{AllocError, Global};

/// What a schedule keeps of a world, to find the next event by.
pub trait Keeper {
    /// It can begin at this trace.
    ghost can_begin: { List Happening → Type 0 };

    /// It is what is kept of this world.
    ghost is_of: { WorldState → Self → Type 0 };

    /// The event is the next one of this world by these words, and leaves those.
    ghost is_next: { WorldState → List ℕ → Happening → List ℕ → Type 0 };

    /// What is kept of a world from which nothing is out.
    fn begin(alloc: Global, world: &World) -> Result<Self, AllocError>
        requires home { world.now.outs ≡ [] }
        requires trace { can_begin world.now.net.trace }
        ensures { IfOk result (λ k. is_of world.now k) };

    /// The next event, with where the events of its node begin.
    fn next(&self, world: &World, schedule: &mut Schedule) -> Placed
        requires home { world.now.outs ≡ [] }
        requires going { HasEnded world.now.net.graph (home world.now) → ⊥ }
        requires some { ready_events world.now ≡ [] → ⊥ }
        requires kept { is_of world.now self.now }
        ensures next { is_next world.now schedule.old result.event schedule.new }
        ensures placed { IsPlaced (network world.now.net) result }
        ensures ready { is_ready world.now result.event ≡ true };

    /// Keeps up with a placed event that has happened, by the head of its node before it and what the node did.
    fn keep_up(&mut self, world: &World, placed: Placed, before: &Head, delta: &Delta)
        requires home { world.now.outs ≡ [] }
        requires few { length world.now.net.trace ≤ 2 ^ 40 }
        requires placed { IsPlaced (network world.now.net) placed }
        requires ports { All (λ (s : ℕ × Letter). s.0 < length (ports_of world.now.net.graph.keys (event_node placed.event))) delta.now.sends }
        requires own { (q : ℕ) → IsMarked delta.now.mark q → q < length (ports_of world.now.net.graph.keys (event_node placed.event)) }
        requires kept { (old : WorldState) × is_of old self.old × HasAnswered old world.now placed.event before.now delta.now }
        ensures { is_of world.now self.new };
}

/// Runs a world on until the run has ended. All that is out is recalled first; then one next event happens after another. Of
/// the faults TurnLimit comes where the commits have come to the turns or no ticket number is left, and else Memory. At every
/// end nothing is out, and the world stands after the events so far.
pub fn run_by<K: Keeper + Drop>(
    alloc: Global,
    world: &mut World,
    schedule: &mut Schedule,
) -> Result<RunEnd, RunFault>
    requires trace { K.can_begin world.old.net.trace }
    ensures gone { HasGone K.is_next (record world.old { outs = [] }) schedule.old world.new schedule.new }
    ensures halted { IfOk result (λ e. IsEnd world.new e) }
    ensures going { OnErr result (HasEnded world.new.net.graph (home world.new) → ⊥) }
    ensures fault { IfErr result (λ f. EndsFor world.new f) }
    ensures full { result ≡ Err RunFault.TurnLimit → has_turn world.new ≡ false }
{
    world.recall_all();
    if world.ended() {
        return Ok(end_of(world));
    }
    match K::begin(alloc, world) {
        Ok(mut kept) => run_on(alloc, world, &mut kept, schedule),
        Err(_) => Err(RunFault::Memory),
    }
}

/// The same of a world from which nothing is out, by what is kept of it. If allocation fails what is kept is of no use.
pub fn run_on<K: Keeper>(
    alloc: Global,
    world: &mut World,
    kept: &mut K,
    schedule: &mut Schedule,
) -> Result<RunEnd, RunFault>
    requires home { world.old.outs ≡ [] }
    requires kept { K.is_of world.old kept.old }
    ensures gone { HasGone K.is_next world.old schedule.old world.new schedule.new }
    ensures halted { IfOk result (λ e. IsEnd world.new e) }
    ensures going { OnErr result (HasEnded world.new.net.graph (home world.new) → ⊥) }
    ensures fault { IfErr result (λ f. EndsFor world.new f) }
    ensures full { result ≡ Err RunFault.TurnLimit → has_turn world.new ≡ false }
    ensures kept { (result ≡ Err RunFault.Memory → ⊥) → K.is_of world.new kept.new }
{
    'events: while !world.ended() {
        if !world.has_turn() {
            let _ = world.turns();
            return Err(RunFault::TurnLimit);
        }
        match make_next(alloc, world, kept, schedule) {
            Ok(()) => {}
            Err(_) => return Err(RunFault::Memory),
        }
    }
    Ok(end_of(world))
}

/// The next event happens. A refusal leaves the world and the word; what is kept is then of no use.
fn make_next<K: Keeper>(
    alloc: Global,
    world: &mut World,
    kept: &mut K,
    schedule: &mut Schedule,
) -> Result<(), AllocError>
    requires home { world.old.outs ≡ [] }
    requires going { HasEnded world.old.net.graph (home world.old) → ⊥ }
    requires some { ready_events world.old ≡ [] → ⊥ }
    requires turn { has_turn world.old ≡ true }
    requires kept { K.is_of world.old kept.old }
    ensures ok { OnOk result (HasGoneOn K.is_next world.old world.new schedule.old schedule.new) }
    ensures kept { OnOk result (K.is_of world.new kept.new) }
    ensures err { OnErr result (IsSameWorld world.old world.new) }
    ensures word { OnErr result (schedule.new ≡ schedule.old) }
{
    let _ = world.net().trace();
    let _ = world.turns();
    let mut rest = schedule.copy()?;
    let placed = kept.next(world, &mut rest);
    let before = *world.net().node(placed.node()).head();
    let delta = world.answer_placed(alloc, placed)?;
    world.make_answered_placed(placed, &delta)?;
    kept.keep_up(world, placed, &before, &delta);
    *schedule = rest;
    Ok(())
}
