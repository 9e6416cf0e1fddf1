//! When and how an event happens.
ghost use Rattle.std.specs.Prelude.{◌≡◌, ◌≤◌, IfOk};
ghost use Rattle.peer_network.specs.Events.{event_node};
ghost use Rattle.peer_net.specs.NetState.{net_of, work_at, IsLawful};
ghost use Rattle.peer_words.specs.Words.{Words};
ghost use Rattle.peer_steps.specs.Step.{message_of, moment_of};
ghost use Rattle.peer_steps.specs.Told.{event_far, event_port};

use crate::sent::port_at;
use ghs_graph::graph::Graph;
use peer_machine::again::Again;
use peer_machine::event::Event;
use peer_machine::work::Work;
use peer_net::net::Net;
use peer_network::event::node_of;
use peer_words::fixed_words::FixedWords;
use peer_words::spoken::Spoken;
use peer_words::value::{Saying, Word};
use std::alloc::{AllocError, Global};

/// An event of a run, and what a line says of it before it happens.
#[derive(Drop)]
pub struct Moment<'s> {
    /// The event's number, counted from 1.
    pub number: u64,
    pub event: Event,
    /// The node at the other end of the port at which the message came in; none for a wake.
    pub far: Option<u32>,
    /// The message that the event takes; none for a wake.
    pub message: Option<Saying<'s>>,
    /// The row of the rules by which the node reacts.
    pub row: Word<'s>,
    /// Whether the node defers the message.
    pub waits: bool,
}

/// The moment of an event that is lawful now. Refusal: out of memory.
///
/// ```text
/// let net = Net::<Boruvka>::open(alloc, (), graph)?;
/// let moment = moment_at(alloc, &(), &net, Event::Wake(1))?;
/// // its number is 1, it takes no message, and its row is Wakes
/// ```
pub fn moment_at<'s, P: Spoken>(
    alloc: Global,
    setting: &'s P::Setting,
    net: &Net<P>,
    event: Event,
) -> Result<Moment<'s>, AllocError>
    requires setting { P.goes_by setting.now }
    requires lawful { IsLawful P.rules net.now event }
    ensures { IfOk result (λ moment. moment ≡ moment_of P.rules P.words net.now.graph net.now.trace event) }
{
    let work = work_of(net, event);
    Ok(Moment {
        number: net.trace().len() as u64 + 1,
        event,
        far: far_end(net.graph(), event),
        message: message_of::<P>(alloc, setting, &work)?,
        row: P::row(setting, net.node(node_of(event)), &work),
        waits: net.defers(event),
    })
}

/// The row by which the node of a lawful event reacts, of a protocol that has its words before it runs.
///
/// ```text
/// let row = row_at(&net, Event::Wake(1));
/// // Wakes, at the opening of Borůvka in step: a Word<'static>
/// ```
pub fn row_at<P: FixedWords>(net: &Net<P>, event: Event) -> Word<'static>
    requires { IsLawful P.rules net.now event }
    ensures { result ≡ (moment_of P.rules P.words net.now.graph net.now.trace event).row }
{
    P::fixed_row(net.node(node_of(event)), &work_of(net, event))
}

/// What a lawful event brings to its node.
#[tactic(auto, using(crate::proofs::Lawful::first_is, crate::proofs::Lawful::first_is_none))]
pub(crate) fn work_of<P: Spoken>(net: &Net<P>, event: Event) -> Work<P::Message>
    requires { IsLawful P.rules net.now event }
    ensures { result ≡ work_at (net_of P.rules net.now) event }
{
    match event {
        Event::Wake(_) => Work::Wake,
        Event::Take(v, port) => match net.front(v, port) {
            Some(message) => Work::Deliver {
                port,
                message: message.again(),
            },
            None => Work::Wake,
        },
    }
}

/// The message that some work brings, in words.
fn message_of<'s, P: Spoken>(
    alloc: Global,
    setting: &'s P::Setting,
    work: &Work<P::Message>,
) -> Result<Option<Saying<'s>>, AllocError>
    requires { P.goes_by setting.now }
    ensures { IfOk result (λ message. message ≡ message_of P.words work.now) }
{
    match work {
        Work::Wake => Ok(None),
        Work::Deliver { port: _, message } => Ok(Some(P::says(alloc, setting, message)?)),
    }
}

/// The port from which an event takes a message; none for a wake.
pub fn port_of(event: Event) -> Option<u32>
    ensures { result ≡ event_port event }
{
    match event {
        Event::Wake(_) => None,
        Event::Take(_, port) => Some(port),
    }
}

/// The node at the other end of the port from which an event takes a message; none for a wake.
pub fn far_end(graph: &Graph, event: Event) -> Option<u32>
    requires low { 1 ≤ event_node event }
    requires high { event_node event ≤ graph.now.nodes }
    ensures { result ≡ event_far graph.now event }
{
    match event {
        Event::Wake(_) => None,
        Event::Take(v, port) => Some(port_at(graph, v, port).far),
    }
}
