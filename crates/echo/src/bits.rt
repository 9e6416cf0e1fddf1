//! The lengths of the messages of the echo wave.
use crate::node::Message;
use crate::protocol::Echo;
use ghs_graph::graph::Graph;
use peer_machine::measured::Measured;

/// Each is one bit, whatever the graph.
impl Measured for Echo {
    type Scale = ();

    ghost is_of = { λ g s. Unit {0} };

    fn scale_of(_setting: (), _graph: &Graph) {}

    fn bits(_scale: (), _message: &Message) -> u32 {
        1
    }
}
