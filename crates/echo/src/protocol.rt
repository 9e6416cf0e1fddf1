//! The protocol.
ghost use Rattle.std.specs.Prelude.{◌≡◌, ℕ, ◌+◌, ◌-◌, ◌<◌, ◌≤◌, [], ◌++◌, Option, None, Some, IfOk, OnOk, length};
ghost use Rattle.echo.specs.Echo.{echo, after, explores, echoes, joined, answered, IsAnswer};

use crate::node::{Change, Head, Message, Node};
use ghs_graph::graph::Graph;
use ghs_graph::port::Port;
use peer_machine::fixed::Fixed;
use peer_machine::protocol::Protocol;
use peer_machine::work::{Answer, Work};
use std::alloc::{AllocError, Global};

/// The echo wave.
///
/// ```text
/// let mut net = Net::<Echo>::open(alloc, (), graph)?;   // of the path 1-2-3
/// net.play(alloc, Event::Wake(1))?;
/// // now an Explore waits at port 0 of node 2: net.front(2, 0) is Some(Message::Explore)
/// ```
#[derive(Clone, Copy, Debug)]
pub struct Echo {}

impl Protocol for Echo {
    ghost use Rattle.std.specs.Prelude.{◌≡◌, ℕ, ◌*◌, length, Some, IsSome, IfOk};
    ghost use Rattle.echo.specs.Echo.{bound_of, echo, after as changed};
    ghost use Rattle.echo.specs.Proved.{echo_kinds, echo_rules, echo_bound, echo_fits};

    type Node = Node;

    type Message = Message;

    type Change = Change;

    type Setting = ();

    ghost goes_by = { λ _. Unit {0} };

    ghost rules = { echo };

    ghost after = { changed };

    ghost bound = { bound_of };

    fn open(_alloc: Global, _setting: (), _v: u32, ports: &[Port]) -> Result<Node, AllocError> {
        Ok(Node {
            ports: ports.len() as u32,
            head: Head {
                awake: false,
                parent: None,
                awaits: 0,
            },
        })
    }

    fn is_asleep(node: &Node) -> bool {
        !node.head.awake
    }

    fn react(
        alloc: Global,
        _setting: (),
        node: &Node,
        work: Work<Message>,
    ) -> Result<Answer<Change, Message>, AllocError>
        requires rule { IsSome (echo.reaction node.now work) }
        ensures { IfOk result (λ a. echo.reaction node.now work ≡ Some (record { state = changed node.now a.change; sends = a.sends.items })) }
    {
        match work {
            Work::Wake => join(alloc, node, None, node.ports),
            Work::Deliver { port, message: _ } => {
                if node.head.awake {
                    hear(alloc, node)
                } else {
                    join(alloc, node, Some(port), node.ports - 1)
                }
            }
        }
    }

    fn defers(_setting: (), _node: &Node, _work: &Work<Message>) -> bool
        ensures { result ≡ echo.defers _node.now _work.now }
    {
        false
    }

    fn apply(node: &mut Node, change: &Change) {
        match change {
            Change::Joins { parent, awaits } => {
                node.head = Head {
                    awake: true,
                    parent: *parent,
                    awaits: *awaits,
                };
            }
            Change::Awaits(awaits) => node.head.awaits = *awaits,
        }
    }

    fn kinds(_setting: ()) -> usize {
        2
    }

    fn kind(_setting: (), message: &Message) -> usize {
        match message {
            Message::Explore => 0,
            Message::Echo => 1,
        }
    }

    fn bound_of(_setting: (), graph: &Graph) -> u64 {
        graph.keys().len() as u64 * 2
    }

    ghost has_kinds = { echo_kinds };

    ghost has_rules = { echo_rules };

    ghost is_bounded = { echo_bound };

    ghost bound_fits = { echo_fits };
}

/// The wave's rules depend on nothing.
impl Fixed for Echo {
    fn setting() {}
}

/// A node takes part in the wave: it wakes, asks on, and answers at once where it has nobody to ask.
fn join(
    alloc: Global,
    node: &Node,
    parent: Option<u32>,
    awaits: u32,
) -> Result<Answer<Change, Message>, AllocError>
    ensures { IfOk result (λ a. IsAnswer node.now a.change a.sends.items (joined node.now parent awaits)) }
{
    let mut sends = Vec::new(alloc);
    explore(&mut sends, node.ports, parent)?;
    echo_to(&mut sends, parent, awaits)?;
    Ok(Answer {
        change: Change::Joins { parent, awaits },
        sends,
    })
}

/// A node that takes part hears from one port more.
fn hear(alloc: Global, node: &Node) -> Result<Answer<Change, Message>, AllocError>
    ensures { IfOk result (λ a. IsAnswer node.now a.change a.sends.items (answered node.now node.now.head.awaits)) }
{
    let mut sends = Vec::new(alloc);
    let mut awaits = node.head.awaits;
    if awaits > 0 {
        awaits -= 1;
        echo_to(&mut sends, node.head.parent, awaits)?;
    }
    Ok(Answer {
        change: Change::Awaits(awaits),
        sends,
    })
}

/// An Explore on each port but the parent.
fn explore(
    sends: &mut Vec<(u32, Message)>,
    ports: u32,
    parent: Option<u32>,
) -> Result<(), AllocError>
    requires { sends.old.items ≡ [] }
    ensures { OnOk result (sends.new.items ≡ explores ports parent) }
{
    for port in 0..ports {
        if parent != Some(port) {
            sends.push((port, Message::Explore))?;
        }
    }
    Ok(())
}

/// Where no answer is awaited, an Echo to the parent.
fn echo_to(
    sends: &mut Vec<(u32, Message)>,
    parent: Option<u32>,
    awaits: u32,
) -> Result<(), AllocError>
    ensures { OnOk result (sends.new.items ≡ sends.old.items ++ echoes awaits parent) }
{
    if awaits == 0 {
        if let Some(port) = parent {
            sends.push((port, Message::Echo))?;
        }
    }
    Ok(())
}
