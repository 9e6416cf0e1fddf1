//! What a page is told of a world.
ghost use Rattle.peer_hand.specs.Seen.{IsSeen, offer_json};
ghost use Rattle.peer_runs.specs.WorldState.{ready_events};
ghost use Rattle.std.specs.List.{flat_map};
ghost use Rattle.std.specs.Prelude.{◌≡◌, ◌++◌, IfOk};

use crate::choices::{put_choice, put_ended};
use peer_machine::ends::Ends;
use peer_machine::protocol::Protocol;
use peer_report::ended::ended;
use peer_runs::world::World;
use peer_view::data::data_of;
use peer_words::viewed::Viewed;
use std::alloc::{AllocError, Global};

/// The data of a world's run so far: the network, the words of the protocol, the links, a line for each step, the counts; then a
/// line for each event that may come next; and a last one exactly where the run has ended. Refusal: out of memory.
///
/// ```text
/// let text = seen(alloc, &world)?;
/// // of the opening of two nodes and a link the last lines are `{"may":[1]}` and `{"may":[2]}`
/// ```
pub fn seen<P: Ends + Viewed>(alloc: Global, world: &World<P>) -> Result<Vec<u8>, AllocError>
    ensures { IfOk result (λ text. IsSeen P.rules P.words P.looks P.bound P.has_ended world.now text.items) }
{
    let net = world.net();
    let events = net.trace();
    let count = events.len() as u64;
    let graph = net.graph().copy(alloc)?;
    let mut text = data_of::<P>(alloc, net.setting(), graph, events, count, count)?;
    put_offers(&mut text, world)?;
    put_ended(&mut text, ended(world))?;
    Ok(text)
}

/// A line for each event that may come next: no message is deferred.
fn put_offers<P: Protocol>(text: &mut Vec<u8>, world: &World<P>) -> Result<(), AllocError>
    ensures { IfOk result (λ _. text.new.items ≡ text.old.items ++ flat_map offer_json (ready_events P.rules world.now)) }
{
    for k in 0..world.ready_count() {
        put_choice(text, world.ready_at(k), false)?;
    }
    Ok(())
}
