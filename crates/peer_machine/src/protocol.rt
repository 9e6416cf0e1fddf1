//! A protocol as a program.
use crate::again::Again;
use crate::work::{Answer, Work};
use ghs_graph::graph::Graph;
use ghs_graph::port::Port;
use std::alloc::{AllocError, Global};

/// What each node of a network does: its state, its messages and its reactions, with the rules that they follow.
///
/// ```text
/// pub struct Echo {}
/// impl Protocol for Echo { .. }   // what a node is and how it reacts, the rules that it follows, and their laws
/// ```
pub trait Protocol {
    ghost use Rattle.std.specs.Prelude.{◌≡◌, ℕ, ◌<◌, ◌^◌, Some, IsSome, IfOk, length};
    ghost use Rattle.ghs_graph.specs.Graph.{Shape, IsGraph};
    ghost use Rattle.peer_machine.specs.Rules.{Rules, HasKinds};
    ghost use Rattle.peer_machine.specs.Protocol.{HasRules, IsBoundedBy, FitsGraphs};

    /// A node's state.
    type Node: Drop;

    /// A message. One that carries a list holds a reference to where the setting keeps it.
    type Message: Again;

    /// How a node changes in one reaction.
    type Change: Drop;

    /// What the rules depend on and only a running program knows, as a reference to a user's book: `()` where they depend on
    /// nothing.
    type Setting: Copy;

    /// The rules are those of this setting.
    ghost goes_by: { Self.Setting → Type 0 };

    /// The rules that the functions below follow.
    ghost rules: { Rules Self.Node Self.Message };

    /// A node's state after a change.
    ghost after: { Self.Node → Self.Change → Self.Node };

    /// How many messages a run of a graph sends at most.
    ghost bound: { Shape → ℕ };

    /// A node at the opening of a run, by its number, from 1, and its ports in key order.
    fn open(
        alloc: Global,
        setting: Self::Setting,
        v: u32,
        ports: &[Port],
    ) -> Result<Self::Node, AllocError>
        requires setting { goes_by setting }
        requires few { length ports.now < 2 ^ 24 }
        ensures { IfOk result (λ n. n ≡ rules.opening v ports.now) };

    /// Whether a node sleeps: then it may wake by itself.
    fn is_asleep(node: &Self::Node) -> bool
        ensures { result ≡ rules.is_asleep node.now };

    /// What a node does when it gets some work. A refused allocation leaves all as it was.
    fn react(
        alloc: Global,
        setting: Self::Setting,
        node: &Self::Node,
        work: Work<Self::Message>,
    ) -> Result<Answer<Self::Change, Self::Message>, AllocError>
        requires setting { goes_by setting }
        requires rule { IsSome (rules.reaction node.now work) }
        ensures { IfOk result (λ a. rules.reaction node.now work ≡ Some (record { state = after node.now a.change; sends = a.sends.items })) };

    /// Whether a node defers the message that the work brings: then it goes to the end of its queue. A protocol that never
    /// does answers `false`.
    fn defers(setting: Self::Setting, node: &Self::Node, work: &Work<Self::Message>) -> bool
        requires { goes_by setting }
        ensures { result ≡ rules.defers node.now work.now };

    /// The node changes. Takes no memory.
    fn apply(node: &mut Self::Node, change: &Self::Change)
        ensures { node.new ≡ after node.old change.now };

    /// How many kinds of messages there are.
    fn kinds(setting: Self::Setting) -> usize
        requires { goes_by setting }
        ensures { result ≡ rules.kinds };

    /// The kind of a message, from 0 on.
    fn kind(setting: Self::Setting, message: &Self::Message) -> usize
        requires { goes_by setting }
        ensures { result ≡ rules.kind_of message.now };

    /// How many messages a run of the graph sends at most. O(1).
    fn bound_of(setting: Self::Setting, graph: &Graph) -> u64
        requires { goes_by setting }
        ensures { result ≡ bound graph.now };

    /// Each message is of one of the kinds.
    ghost has_kinds: { HasKinds rules };

    /// In every run each lawful event has a rule.
    ghost has_rules: { HasRules rules };

    /// No run sends more messages than the bound.
    ghost is_bounded: { IsBoundedBy rules bound };

    /// The bound of a graph is below 2^64.
    ghost bound_fits: { FitsGraphs bound };
}
