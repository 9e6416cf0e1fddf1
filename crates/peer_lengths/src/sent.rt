//! Messages measured.
ghost use Rattle.std.specs.Prelude.{◌≡◌, ◌+◌, ◌<◌, ◌^◌, max};
ghost use Rattle.ghs_graph.specs.Graph.{Shape};
ghost use Rattle.peer_machine.specs.Rules.{messages};
ghost use Rattle.peer_lengths.specs.Kept.{AreMeasured};

use peer_machine::measured::Measured;

/// How many messages were sent, how many bits they have together, and how many the longest has; 0, where none was sent.
#[derive(Clone, Copy, Debug)]
pub struct Sent {
    pub count: u64,
    /// 2^64 messages of 2^32 bits have 2^96.
    pub bits: u128,
    pub longest: u32,
}

impl Sent {
    /// No message.
    pub fn none() -> Sent
        ensures count { result.count ≡ 0 }
        ensures bits { result.bits ≡ 0 }
        ensures longest { result.longest ≡ 0 }
    {
        Sent {
            count: 0,
            bits: 0,
            longest: 0,
        }
    }

    /// More messages are sent.
    pub fn add(&mut self, more: Sent)
        requires count { self.old.count + more.count < 2 ^ 64 }
        requires bits { self.old.bits + more.bits < 2 ^ 128 }
        ensures count { self.new.count ≡ self.old.count + more.count }
        ensures bits { self.new.bits ≡ self.old.bits + more.bits }
        ensures longest { self.new.longest ≡ max self.old.longest more.longest }
    {
        self.count += more.count;
        self.bits += more.bits;
        self.longest = self.longest.max(more.longest);
    }
}

/// What a reaction sends, measured by the scale of its graph. O(1) for each message.
pub fn measure<P: Measured>(scale: P::Scale, sends: &[(u32, P::Message)]) -> Sent
    ensures { (g : Shape) → P.is_of g scale → AreMeasured P.rules g (messages sends.now) result }
{
    let mut bits: u128 = 0;
    let mut longest: u32 = 0;
    for i in 0..sends.len() {
        let (_, message) = &sends[i];
        let length = P::bits(scale, message);
        bits += length as u128;
        longest = longest.max(length);
    }
    Sent {
        count: sends.len() as u64,
        bits,
        longest,
    }
}
