//! The lengths of the messages of Gather.
ghost use Rattle.std.specs.Prelude.{◌≡◌, ◌≤◌, length, min};
ghost use Rattle.ghs_bits.specs.Length.{key_width, width_of};
ghost use Rattle.gather_node.specs.Length.{length_by, list_length};

use crate::protocol::Gather;
use bumpalo::Bump;
use gather_node::links::Links;
use gather_node::message::Message;
use ghs_bits::widths::{Widths, width};
use ghs_graph::graph::Graph;
use peer_machine::measured::Measured;

/// What of a graph the lengths of messages depend on.
#[derive(Clone, Copy, Debug, PartialEq, Eq)]
pub struct Scale {
    pub widths: Widths,
    /// How many bits a number of links has.
    pub count: u8,
}

/// By the widths of a graph's numbers and weights, and of the number of its links.
impl<'s> Measured for Gather<'s> {
    ghost use Rattle.std.specs.Prelude.{◌≡◌, length};
    ghost use Rattle.ghs_bits.specs.Length.{width_of, widths_of};

    type Scale = Scale;

    ghost is_of = { λ g s. (s.widths ≡ widths_of g) × (s.count ≡ width_of (length g.keys)) };

    fn scale_of(_lists: &'s Bump, graph: &Graph) -> Scale {
        Scale {
            widths: Widths::of(graph),
            count: links_width(graph),
        }
    }

    fn bits(scale: Scale, message: &Message<'s>) -> u32 {
        length(scale.widths, scale.count as u32, message)
    }
}

/// How many bits the number of a graph's links needs.
fn links_width(graph: &Graph) -> u8
    ensures { result ≡ width_of (length graph.now.keys) }
{
    // (its clause says that this is a graph, whose links are fewer than 2^32)
    let _nodes = graph.nodes();
    width(graph.links() as u32)
}

/// How many bits a message has: two for its kind, and those of the wave and the links that it has.
fn length<'s>(widths: Widths, count: u32, message: &Message<'s>) -> u32
    ensures { result ≡ length_by widths count message.now }
{
    let wave = widths.number as u32;
    match message {
        Message::Explore(_) => 2 + wave,
        Message::Back(_, links) => (2 + wave).saturating_add(list_length(widths, count, links)),
        Message::Tree(links) => 2u32.saturating_add(list_length(widths, count, links)),
    }
}

/// How many bits a list of links has, 4,294,967,295 at most.
fn list_length<'s>(widths: Widths, count: u32, links: &Links<'s>) -> u32
    ensures { result ≡ min 4294967295 (list_length widths count (length links.now)) }
{
    let keys = capped(links.as_slice().len()).saturating_mul(key_bits(widths));
    count.saturating_add(keys)
}

/// A key has two numbers and a weight.
fn key_bits(widths: Widths) -> u32
    ensures key { result ≡ key_width widths }
    ensures small { result ≤ 765 }
{
    2 * widths.number as u32 + widths.weight as u32
}

/// A number, 4,294,967,295 at most.
fn capped(n: usize) -> u32
    ensures { result ≡ min 4294967295 n }
{
    n.min(4_294_967_295) as u32
}
