//! Where a queue stands, in few bytes.
ghost use Rattle.std.specs.Prelude.{◌≡◌, ◌<◌, ◌^◌};
ghost use Rattle.peer_channels.specs.Queue.{place_in};

/// The place of a queue among all. A graph has at most 2^24 ports, so three bytes hold it: they fill the gap between
/// the tag of a line and its first message.
#[derive(Clone, Copy, Debug)]
pub(crate) struct Place {
    low: u8,
    middle: u8,
    high: u8,
}

impl Place {
    /// A place, as a number, put into three bytes.
    pub fn of(place: u32) -> Place
        requires { place < 2 ^ 24 }
        ensures { place_in result ≡ place }
    {
        Place {
            low: (place % 256) as u8,
            middle: (place / 256 % 256) as u8,
            high: (place / 65536) as u8,
        }
    }

    /// The place as a number.
    pub fn get(self) -> u32
        ensures { result ≡ place_in self }
    {
        u32::from_le_bytes([self.low, self.middle, self.high, 0])
    }
}
