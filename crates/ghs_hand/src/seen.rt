//! What a page is told of a world.
ghost use Rattle.std.specs.Prelude.{◌≡◌, ◌++◌, IfOk, true};
ghost use Rattle.std.specs.List.{All, flat_map};
ghost use Rattle.ghs_hand.specs.Seen.{IsSeen, IsSoFar, may_json};
ghost use Rattle.ghs_patient.specs.Patience.{puts_back};
ghost use Rattle.ghs_world.specs.Ready.{is_ready};
ghost use Rattle.ghs_world.specs.WorldState.{home};

use ghs_core::event::Event;
use ghs_graph::bounds::bound;
use ghs_view::data::data_of;
use ghs_world::world::World;
use peer_hand::choices::{put_choice, put_ended};
use std::alloc::{AllocError, Global};

/// The data of a world's run so far: the network, its links, a line for each step, the counts; then a line for each event
/// that may come next, which says so where its node would only put the message back; and a last one exactly where the run
/// has ended. Refusal: out of memory.
pub fn seen(alloc: Global, world: &World) -> Result<Vec<u8>, AllocError>
    ensures { IfOk result (λ text. IsSeen world.now text.items) }
{
    let mut text = run_so_far(alloc, world)?;
    let ready = world.ready(alloc)?;
    put_choices(&mut text, world, &ready)?;
    put_ended(&mut text, world.ended())?;
    Ok(text)
}

/// The data of a world's run so far.
fn run_so_far(alloc: Global, world: &World) -> Result<Vec<u8>, AllocError>
    ensures { IfOk result (λ text. IsSoFar world.now text.items) }
{
    // Read for their clauses: the events are a run, and no more than 2^40.
    let _ = world.net();
    let _ = world.turns();
    let events = world.trace();
    let count = events.len() as u64;
    let graph = world.graph().copy(alloc)?;
    let most = bound(graph.nodes(), graph.links());
    data_of(alloc, graph, most, events, count, count)
}

/// A line for each of some events that may come next.
fn put_choices(text: &mut Vec<u8>, world: &World, events: &[Event]) -> Result<(), AllocError>
    requires { All (λ e. is_ready world.now e ≡ true) events.now }
    ensures { IfOk result (λ _. text.new.items ≡ text.old.items ++ flat_map (may_json (home world.now)) events.now) }
{
    for event in events {
        put_choice(text, *event, waits(world, *event))?;
    }
    Ok(())
}

/// Whether the node of an event that may come next would only put its message back.
fn waits(world: &World, event: Event) -> bool
    requires { is_ready world.now event ≡ true }
    ensures { result ≡ puts_back (home world.now) event }
{
    match event {
        Event::Wake(_) => false,
        Event::Take(v, port) => world.net().waits_at(v, port),
    }
}
