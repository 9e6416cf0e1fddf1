//! The protocol.
ghost use Rattle.std.specs.Prelude.{◌≡◌};
ghost use Rattle.gather_protocol.specs.Bound.{bound_of};

use bumpalo::Bump;
use gather_node::change::Change;
use gather_node::message::{KINDS, Message, kind};
use gather_node::node::{Node, is_asleep};
use gather_node::react::react;
use ghs_graph::graph::Graph;
use ghs_graph::port::Port;
use peer_machine::protocol::Protocol;
use peer_machine::work::{Answer, Work};
use std::alloc::{AllocError, Global};
use std::marker::PhantomData;

/// Gather, by the arena in which the lists of a run lie. No value of this type is made.
///
/// ```text
/// let lists = Bump::new(alloc);
/// let mut net = Net::<Gather>::open(alloc, &lists, graph)?;   // of the path 1-2-3
/// net.play(alloc, Event::Wake(1))?;
/// // node 1 has started a wave: net.front(2, 0) is Some(Message::Explore(1))
/// ```
pub struct Gather<'s> {
    lists: PhantomData<&'s Bump>,
}

impl<'s> Protocol for Gather<'s> {
    ghost use Rattle.std.specs.Prelude.{◌≡◌, Some, IsSome, IfOk};
    ghost use Rattle.gather_node.specs.Gather.{gather};
    ghost use Rattle.gather_node.specs.State.{after as changed};
    ghost use Rattle.gather_protocol.specs.Bound.{bound_of};
    ghost use Rattle.gather_protocol.proofs.lemmas.Laws.{has_kinds as kinds_are_three, has_rules as events_have_rules, sends_within_bound, bound_fits as bound_is_small};

    type Node = Node<'s>;

    type Message = Message<'s>;

    type Change = Change<'s>;

    type Setting = &'s Bump;

    ghost goes_by = { λ _. Unit {0} };

    ghost rules = { gather };

    ghost after = { changed };

    ghost bound = { bound_of };

    fn open(
        alloc: Global,
        _lists: &'s Bump,
        v: u32,
        ports: &[Port],
    ) -> Result<Node<'s>, AllocError> {
        Node::open(alloc, v, ports)
    }

    fn is_asleep(node: &Node<'s>) -> bool {
        is_asleep(node)
    }

    fn react(
        alloc: Global,
        lists: &'s Bump,
        node: &Node<'s>,
        work: Work<Message<'s>>,
    ) -> Result<Answer<Change<'s>, Message<'s>>, AllocError>
        requires rule { IsSome (gather.reaction node.now work) }
        ensures { IfOk result (λ a. gather.reaction node.now work.entry ≡ Some (record { state = changed node.now a.change; sends = a.sends.items })) }
    {
        react(alloc, lists, node, work)
    }

    fn defers(_lists: &'s Bump, _node: &Node<'s>, _work: &Work<Message<'s>>) -> bool
        ensures { result ≡ gather.defers _node.now _work.now }
    {
        false
    }

    fn apply(node: &mut Node<'s>, change: &Change<'s>) {
        node.apply(change);
    }

    fn kinds(_lists: &'s Bump) -> usize {
        KINDS
    }

    fn kind(_lists: &'s Bump, message: &Message<'s>) -> usize {
        kind(message)
    }

    fn bound_of(_lists: &'s Bump, graph: &Graph) -> u64 {
        message_bound(graph)
    }

    ghost has_kinds = { kinds_are_three };

    ghost has_rules = { events_have_rules };

    ghost is_bounded = { sends_within_bound };

    ghost bound_fits = { bound_is_small };
}

/// The greatest number of messages.
///
/// ```text
/// let most = message_bound(&graph);
/// // 27 on a path of four nodes: 2 · 3 · 4 + 4 - 1
/// ```
pub fn message_bound(graph: &Graph) -> u64
    ensures { result ≡ bound_of graph.now }
{
    let nodes = graph.nodes() as u64;
    2 * (graph.links() * nodes) + (nodes - 1)
}
