//! Knocking as a protocol.
ghost use Rattle.std.specs.Prelude.{◌≡◌, ℕ, [], Some, IsSome, IfOk, OnOk};
ghost use Rattle.peer_knock.specs.Knock.{knocking, knocks};

use crate::node::{Change, Message, Node};
use ghs_graph::graph::Graph;
use ghs_graph::port::Port;
use peer_machine::protocol::Protocol;
use peer_machine::work::{Answer, Work};
use std::alloc::{AllocError, Global};
use std::marker::{Brand, PhantomData};

/// By which rules a run goes: whether sleepers are patient. Only the running program knows.
pub trait Chosen {
    ghost use Rattle.std.specs.Prelude.{Bool};

    ghost patient: { Bool };
}

/// A call that names `Brand` picks. By itself it stands for patient sleepers.
impl Chosen for Brand {
    ghost use Rattle.std.specs.Prelude.{true};

    ghost patient = { true };
}

/// A node that wakes knocks at all its neighbors; a sleeping node that is patient defers knocks, and one that isn't hears them.
pub struct Knocking<J: Chosen> {
    of: PhantomData<J>,
}

impl<J: Chosen> Protocol for Knocking<J> {
    ghost use Rattle.std.specs.Prelude.{◌≡◌, ℕ, ◌*◌, length, Some, IsSome, IfOk};
    ghost use Rattle.peer_knock.specs.Knock.{knocking, after_knock};
    ghost use Rattle.peer_knock.specs.Proved.{knock_kinds, knock_rules, knock_bound, knock_fits};

    type Node = Node;

    type Message = Message;

    type Change = Change;

    /// Whether sleepers are patient.
    type Setting = bool;

    ghost goes_by = { λ patient. patient ≡ J.patient };

    ghost rules = { knocking J.patient };

    ghost after = { after_knock };

    ghost bound = { λ g. 2 * length g.keys };

    fn open(_alloc: Global, _patient: bool, _v: u32, ports: &[Port]) -> Result<Node, AllocError> {
        Ok(Node {
            ports: ports.len() as u32,
            awake: false,
        })
    }

    fn is_asleep(node: &Node) -> bool {
        !node.awake
    }

    fn react(
        alloc: Global,
        _patient: bool,
        node: &Node,
        work: Work<Message>,
    ) -> Result<Answer<Change, Message>, AllocError>
        requires setting { _patient ≡ J.patient }
        requires rule { IsSome ((knocking J.patient).reaction node.now work) }
        ensures { IfOk result (λ a. (knocking J.patient).reaction node.now work ≡ Some (record { state = after_knock node.now a.change; sends = a.sends.items })) }
    {
        let mut sends = Vec::new(alloc);
        match work {
            Work::Wake => {
                knock(&mut sends, node.ports)?;
                Ok(Answer {
                    change: Change { awake: true },
                    sends,
                })
            }
            Work::Deliver { .. } => Ok(Answer {
                change: Change { awake: node.awake },
                sends,
            }),
        }
    }

    fn defers(patient: bool, node: &Node, work: &Work<Message>) -> bool
        requires { patient ≡ J.patient }
        ensures { result ≡ (knocking J.patient).defers node.now work.now }
    {
        match work {
            Work::Wake => false,
            Work::Deliver { .. } => patient && !node.awake,
        }
    }

    fn apply(node: &mut Node, change: &Change) {
        node.awake = change.awake;
    }

    fn kinds(_patient: bool) -> usize {
        1
    }

    fn kind(_patient: bool, message: &Message) -> usize {
        match message {
            Message::Knock => 0,
        }
    }

    fn bound_of(_patient: bool, graph: &Graph) -> u64 {
        // Called for its clause: a graph has few links.
        let _ = graph.nodes();
        2 * graph.links()
    }

    ghost has_kinds = { knock_kinds J.patient };

    ghost has_rules = { knock_rules J.patient };

    ghost is_bounded = { knock_bound J.patient };

    ghost bound_fits = { knock_fits };
}

/// A Knock on each port.
fn knock(sends: &mut Vec<(u32, Message)>, ports: u32) -> Result<(), AllocError>
    requires { sends.old.items ≡ [] }
    ensures { OnOk result (sends.new.items ≡ knocks ports) }
{
    for port in 0..ports {
        sends.push((port, Message::Knock))?;
    }
    Ok(())
}
