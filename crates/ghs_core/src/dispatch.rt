//! Messages on their way: what one reaction does to the queues.
ghost use Rattle.std.specs.Prelude.{◌≡◌, ℕ, ◌+◌, ◌-◌, ◌<◌, ◌≤◌, ◌^◌, List, ◌∷◌, length, slice_index};
ghost use Rattle.ghs_node.specs.declared.message.Message.{Message as Letter};
ghost use Rattle.peer_channels.specs.Channels.{HasQueue, first_queue, IsFor, IsForSome, GoOut, HasRoomFor, queue_at, total_of};
ghost use Rattle.ghs_graph.specs.Graph.{Shape};
ghost use Rattle.peer_network.specs.Events.{event_node};
ghost use Rattle.ghs_core.specs.Dispatch.{Arrives, CountsSends, Met, CountsFate, WaitsAt, Disposes};

use crate::counts::Counts;
use ghs_node::delta::Fate;
use ghs_node::message::Message;
use peer_channels::channels::Channels;
use peer_network::event::Event;

/// Sends messages out from node `v`, whose queues begin at `start`, in their order. There is room for them at the far ends.
pub fn send_all(
    channels: &mut Channels<Message>,
    sent: &mut [u64; 7],
    start: u32,
    v: u32,
    sends: &[(u32, Message)],
)
    requires queues { IsForSome channels.old }
    requires start { start ≡ first_queue channels.old v }
    requires ports { GoOut channels.old v sends.now }
    requires room { HasRoomFor v sends.now channels.old }
    requires total { total_of channels.old + length sends.now < 2 ^ 64 }
    requires fits { (k : ℕ) → k < 7 → slice_index sent.old k + length sends.now < 2 ^ 64 }
    ensures arrives { (g : Shape) → IsFor g channels.old → Arrives g v sends.now channels.old channels.new }
    ensures counts { CountsSends sends.now sent.old sent.new }
{
    for (port, message) in sends {
        channels.send_from(start, v, *port, *message);
        sent[message.kind().place()] += 1;
    }
}

/// The first message that waits at a port meets its fate: it is gone, or goes to the end.
fn meet_fate(
    channels: &mut Channels<Message>,
    counts: &mut Counts,
    start: u32,
    v: u32,
    port: u32,
    fate: Fate,
)
    requires start { start ≡ first_queue channels.old v }
    requires port { HasQueue channels.old v port }
    requires waits { 0 < length (queue_at channels.old v port) }
    requires consumed { (k : ℕ) → k < 7 → slice_index counts.old.consumed k < 2 ^ 64 - 1 }
    requires requeued { counts.old.requeued < 2 ^ 64 - 1 }
    ensures met { (m : Letter) (ms : List Letter) → queue_at channels.old v port ≡ m ∷ ms → Met fate v port m ms channels.old channels.new }
    ensures counts { (m : Letter) (ms : List Letter) → queue_at channels.old v port ≡ m ∷ ms → CountsFate fate m counts.old counts.new }
{
    match fate {
        Fate::Consumed => {
            if let Some(message) = channels.take_front_from(start, v, port) {
                counts.consumed[message.kind().place()] += 1;
            }
        }
        Fate::Requeued => {
            channels.requeue_from(start, v, port);
            counts.requeued += 1;
        }
    }
}

/// Disposes of the message that an event takes, before its node reacts: it meets its fate. The node's queues begin at `start`.
pub fn dispose(
    channels: &mut Channels<Message>,
    counts: &mut Counts,
    start: u32,
    event: Event,
    fate: Fate,
)
    requires start { start ≡ first_queue channels.old (event_node event) }
    requires waits { WaitsAt event channels.old }
    requires consumed { (k : ℕ) → k < 7 → slice_index counts.old.consumed k < 2 ^ 64 - 1 }
    requires requeued { counts.old.requeued < 2 ^ 64 - 1 }
    ensures { Disposes event fate channels.old channels.new counts.old counts.new }
{
    if let Event::Take(v, port) = event {
        meet_fate(channels, counts, start, v, port, fate);
    }
}
