//! The lengths of the messages of Borůvka in step.
ghost use Rattle.std.specs.Prelude.{◌≡◌};
ghost use Rattle.boruvka_node.specs.Length.{length_of};

use crate::protocol::Boruvka;
use boruvka_node::message::Message;
use ghs_bits::widths::Widths;
use ghs_graph::graph::Graph;
use peer_machine::measured::Measured;

/// By the widths of a graph's numbers, weights and levels.
impl Measured for Boruvka {
    ghost use Rattle.std.specs.Prelude.{◌≡◌};
    ghost use Rattle.ghs_bits.specs.Length.{widths_of};

    type Scale = Widths;

    ghost is_of = { λ g w. w ≡ widths_of g };

    fn scale_of(_setting: (), graph: &Graph) -> Widths {
        Widths::of(graph)
    }

    fn bits(scale: Widths, message: &Message) -> u32 {
        length(scale, message)
    }
}

/// How many bits a message has: three for its kind, and those of the level and the key that it has.
fn length(widths: Widths, message: &Message) -> u32
    ensures { result ≡ length_of widths message.now }
{
    let level = widths.level as u32;
    let key = 2 * widths.number as u32 + widths.weight as u32;
    match message {
        Message::Connect(_) => 3 + level,
        Message::Initiate(..) => 3 + level + key,
        Message::Name(..) => 3 + level + key,
        Message::Report(None) => 3 + 1,
        Message::Report(Some(_)) => 3 + 1 + key,
        Message::ChangeRoot => 3,
    }
}
