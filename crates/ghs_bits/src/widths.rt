//! The lengths of messages.
ghost use Rattle.ghs_bits.specs.Length.{greatest_weight, key_width, length_of, longest_length, width_of, widths_of};
ghost use Rattle.std.specs.Prelude.{◌≡◌, ◌≤◌};

use ghs_graph::bounds::floor_log2;
use ghs_graph::graph::Graph;
use ghs_graph::key::Key;
use ghs_node::message::Message;

/// How many bits a node's number, a weight and a level have in the messages of a network.
#[derive(Clone, Copy, Debug, PartialEq, Eq)]
pub struct Widths {
    pub number: u8,
    pub weight: u8,
    pub level: u8,
}

impl Widths {
    /// Those of a graph: a node's number has as many as the number of nodes needs, a weight as many as the greatest weight
    /// needs, and a level as many as the highest one needs, the floor of log2 of the nodes. O(E).
    pub fn of(graph: &Graph) -> Widths
        ensures { result ≡ widths_of graph.now }
    {
        let nodes = graph.nodes();
        let level = floor_log2(nodes);
        let heaviest = greatest_weight(graph.keys());
        Widths {
            number: width(nodes),
            weight: width(heaviest),
            level: width(level as u32),
        }
    }

    /// How many bits a message has.
    pub fn length(&self, message: Message) -> u32
        ensures length { result ≡ length_of self.now message }
        ensures within { result ≤ longest_length self.now }
    {
        let level = self.level as u32;
        let key = self.key();
        match message {
            Message::Connect(_) => 3 + level,
            Message::Initiate(..) => 3 + level + key + 1,
            Message::Test(..) => 3 + level + key,
            Message::Accept => 3,
            Message::Reject => 3,
            Message::Report(None) => 3 + 1,
            Message::Report(Some(_)) => 3 + 1 + key,
            Message::ChangeRoot => 3,
        }
    }

    /// How many bits the longest messages have, which are the Initiates.
    pub fn longest(&self) -> u32
        ensures longest { result ≡ longest_length self.now }
        ensures small { result ≤ 1024 }
    {
        3 + self.level as u32 + self.key() + 1
    }

    /// How many bits a key has: two numbers and a weight.
    fn key(&self) -> u32
        ensures key { result ≡ key_width self.now }
        ensures small { result ≤ 765 }
    {
        2 * self.number as u32 + self.weight as u32
    }
}

/// How many bits a number needs: the least number of bits, one at least, in which it can be written.
pub fn width(n: u32) -> u8
    ensures { result ≡ width_of n }
{
    if n == 0 { 1 } else { floor_log2(n) + 1 }
}

/// The greatest weight of some links; 0, where there are none.
fn greatest_weight(keys: &[Key]) -> u32
    ensures { result ≡ greatest_weight keys.now }
{
    let mut greatest: u32 = 0;
    for key in keys {
        greatest = greatest.max(key.weight);
    }
    greatest
}
