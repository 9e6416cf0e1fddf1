//! The bits of a run, counted from event to event.
ghost use Rattle.ghs_bits.specs.Bits.{AreBitsOf, bits_in, longest_in, messages_of};
ghost use Rattle.std.specs.Prelude.{[], ◌≡◌, ◌+◌, ◌<◌, ◌^◌, max};

use crate::widths::Widths;
use ghs_core::net::Net;
use ghs_following::follower::Follower;
use ghs_graph::graph::Graph;
use ghs_node::delta::Delta;
use ghs_node::message::Message;
use peer_network::event::Event;
use std::alloc::AllocError;

/// How many bits have been sent, each message counted once, and how many the longest message has; 0, where none was sent.
#[derive(Clone, Copy, Debug, PartialEq, Eq)]
pub struct Bits {
    widths: Widths,
    pub sent: u64,
    pub longest: u32,
}

impl Bits {
    /// No message has been sent.
    pub fn none(graph: &Graph) -> Bits
        ensures { AreBitsOf graph.now [] result }
    {
        Bits {
            widths: Widths::of(graph),
            sent: 0,
            longest: 0,
        }
    }

    /// Messages are sent.
    fn send(&mut self, sends: &[(u32, Message)])
        requires few { self.old.sent + bits_in self.old.widths (messages_of sends.now) < 2 ^ 64 }
        ensures widths { self.new.widths ≡ self.old.widths }
        ensures sent { self.new.sent ≡ self.old.sent + bits_in self.old.widths (messages_of sends.now) }
        ensures longest { self.new.longest ≡ max self.old.longest (longest_in self.old.widths (messages_of sends.now)) }
    {
        for (_, message) in sends {
            let length = self.widths.length(*message);
            self.sent += length as u64;
            self.longest = self.longest.max(length);
        }
    }
}

/// Bits follow the events of their run, and refuse none.
impl Follower for Bits {
    ghost is_of = { λ g es b. AreBitsOf g es b };

    /// O(1) for each message that is sent.
    fn follow(&mut self, net: &Net, _event: Event, delta: &Delta) -> Result<(), AllocError> {
        let _ = net.trace();
        let _ = self.widths.longest();
        self.send(delta.sends.as_slice());
        Ok(())
    }

    /// Nothing is sent, so nothing is counted.
    fn follow_back(&mut self, net: &Net, _v: u32, _port: u32) -> Result<(), AllocError> {
        let _ = net.trace();
        Ok(())
    }
}
