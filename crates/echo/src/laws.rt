//! What holds in every run of every graph, however its events interleave and whoever wakes. Each law is a function that does
//! nothing.
ghost use Rattle.echo.specs.Ended.{EachHasOneInitiator, EchoesOfOthers, InitiatorsWoke, OneSpans, OneWaits, TwoALink};

/// At most one message waits at a port.
pub fn law_queues()
    ensures { OneWaits }
{}

/// The initiators are the nodes that have woken by themselves.
pub fn law_initiators()
    ensures { InitiatorsWoke }
{}

/// At the end two messages were sent for each link, one in each direction. One of them is an Echo for each node that is no
/// initiator, and the others are Explores.
pub fn law_sends()
    ensures all { TwoALink }
    ensures echoes { EchoesOfOthers }
{}

/// At the end the branches join each node with exactly one initiator.
pub fn law_trees()
    ensures { EachHasOneInitiator }
{}

/// Where no two initiators are in one component, the branches at the end join all that the graph joins. So they are a
/// spanning tree of a connected graph in which one node woke.
///
/// ```text
/// law_spans();
/// // in a body: from here on its contract may be used by the proof, and the compiler leaves the call out
/// ```
pub fn law_spans()
    ensures { OneSpans }
{}
