//! Protocols whose messages have lengths.
ghost use Rattle.std.specs.Prelude.{◌≡◌};
ghost use Rattle.ghs_graph.specs.Graph.{Shape};

use crate::protocol::Protocol;
use ghs_graph::graph::Graph;

/// A protocol with a program for the lengths that its rules state.
///
/// ```text
/// let widths = Boruvka::scale_of((), &graph);   // O(E), once for a graph
/// let bits = Boruvka::bits(widths, &Message::ChangeRoot);
/// // 3, whatever the graph
/// ```
pub trait Measured: Protocol {
    /// What of a graph, and of the setting, the lengths depend on.
    type Scale: Copy;

    /// The scale is that of a graph.
    ghost is_of: { Shape → Self.Scale → Type 0 };

    /// The scale of a graph.
    fn scale_of(setting: Self::Setting, graph: &Graph) -> Self::Scale
        requires { Self.goes_by setting }
        ensures { is_of graph.now result };

    /// How many bits a message has in the network of a graph of this scale. O(1).
    fn bits(scale: Self::Scale, message: &Self::Message) -> u32
        ensures { (g : Shape) → is_of g scale → result ≡ Self.rules.bits g message.now };
}
