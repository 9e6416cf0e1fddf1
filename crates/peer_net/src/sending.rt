//! Messages on their way: what one event does to the queues.
ghost use Rattle.std.specs.Prelude.{◌≡◌, ℕ, List, ◌+◌, ◌<◌, ◌^◌, length, slice_index};
ghost use Rattle.ghs_graph.specs.Graph.{Shape};
ghost use Rattle.peer_network.specs.Events.{event_node};
ghost use Rattle.peer_network.specs.Network.{network_of};
ghost use Rattle.peer_channels.specs.Channels.{IsForSome, GoOut, HasRoomFor, first_queue, total_of};
ghost use Rattle.peer_net.specs.Queues.{AreQueues, with_all_sent};
ghost use Rattle.peer_net.specs.Taking.{Consumes, WaitsAt, TakesIn};

use crate::counts::{Counts, count_deferred, count_take};
use peer_channels::channels::Channels;
use peer_machine::again::Again;
use peer_machine::event::Event;
use peer_machine::protocol::Protocol;

/// Sends messages out from node `v`, whose queues begin at `start`, in their order. There is room for them at the far ends.
pub fn send_all<M: Again>(channels: &mut Channels<M>, start: u32, v: u32, sends: &[(u32, M)])
    requires queues { IsForSome channels.old }
    requires start { start ≡ first_queue channels.old v }
    requires ports { GoOut channels.old v sends.now }
    requires room { HasRoomFor v sends.now channels.old }
    requires total { total_of channels.old + length sends.now < 2 ^ 64 }
    ensures queues { (g : Shape) (waits : ℕ → ℕ → List M) → AreQueues g waits channels.old →
        AreQueues g (with_all_sent (network_of g) v sends.now waits) channels.new }
    ensures total { total_of channels.new ≡ total_of channels.old + length sends.now }
{
    for (port, message) in sends {
        channels.send_from(start, v, *port, message.again());
    }
}

/// Takes the message that an event takes: out of its queue, or, if it is deferred, to the end of it. The queues of the event's
/// node begin at `start`. Counts the message, and takes no memory.
pub fn take_in<P: Protocol>(
    setting: P::Setting,
    channels: &mut Channels<P::Message>,
    counts: &mut Counts,
    start: u32,
    event: Event,
    later: bool,
)
    requires setting { P.goes_by setting }
    requires start { start ≡ first_queue channels.old (event_node event) }
    requires waits { WaitsAt event channels.old }
    requires kinds { length counts.old.consumed.items ≡ P.rules.kinds }
    requires fits { Consumes later event → (k : ℕ) → k < P.rules.kinds → slice_index counts.old.consumed.items k + 1 < 2 ^ 64 }
    requires room { counts.old.deferred + 1 < 2 ^ 64 }
    ensures { TakesIn P.rules later event channels.old channels.new counts.old counts.new }
{
    if let Event::Take(v, port) = event {
        if later {
            channels.requeue_from(start, v, port);
            count_deferred(counts);
        } else if let Some(message) = channels.take_front_from(start, v, port) {
            count_take::<P>(setting, counts, message);
        }
    }
}
