//! The rules of a book as a protocol.
ghost use Rattle.own_rules.specs.Deed.{deed_of};
ghost use Rattle.own_rules.specs.Done.{AreSends, done_by};
ghost use Rattle.own_rules.specs.Rules.{lookup_at as lookup_of_work, sends_by, state_by, waits_by};
ghost use Rattle.own_rules.specs.Texts.{texts_of};
ghost use Rattle.own_rules.specs.declared.node.State.TheVariants.{Runs};
ghost use Rattle.std.specs.Prelude.{IfOk, false, ◌≡◌};

use crate::deed::Done;
use crate::node::{Allowance, Lookup, Message, Node, State, Stop};
use crate::rulebook::Rulebook;
use ghs_graph::graph::Graph;
use ghs_graph::port::Port;
use peer_machine::protocol::Protocol;
use peer_machine::work::{Answer, Work};
use std::alloc::{AllocError, Global};
use std::marker::{Brand, PhantomData};

/// What a node may do in a run: send and defer so many messages.
pub const RUNNING: Allowance = Allowance {
    messages: 1_048_576,
    deferrals: true,
};

/// What it may do in a network all of whose runs are explored: send so many, so that 12 nodes send 65,532 at most. Deferrals
/// cost nothing.
pub const EXPLORING: Allowance = Allowance {
    messages: 5_461,
    deferrals: false,
};

/// By which book a run goes, and with which allowance each of its nodes opens. Only the running program knows.
pub trait Chosen {
    ghost use Rattle.own_book.specs.Entry.{Entry};
    ghost use Rattle.own_rules.specs.declared.node.Allowance.{Allowance};
    ghost use Rattle.std.specs.Prelude.{◌<◌, ◌^◌, List};

    ghost book: { List Entry };

    ghost most: { Allowance };

    ghost few: { most.messages < 2 ^ 32 };
}

/// A call that names `Brand` picks. By itself it stands for a book that says nothing.
impl Chosen for Brand {
    ghost use Rattle.own_rules.specs.Proved.{none_are_few};
    ghost use Rattle.std.specs.Prelude.{[], true};

    ghost book = { [] };

    ghost most = { record { messages = 0; deferrals = true } };

    ghost few = { none_are_few };
}

/// A book to run, and the allowance with which each node opens.
#[derive(Clone, Copy)]
pub struct Playing<'a> {
    pub rules: &'a Rulebook,
    pub most: Allowance,
}

/// A node does what a book answers. No value of this type is made.
pub struct Told<'a, J: Chosen> {
    rules: &'a Rulebook,
    of: PhantomData<J>,
}

impl<'a, J: Chosen> Protocol for Told<'a, J> {
    ghost use Rattle.own_rules.specs.Proved.{told_bound, told_fits, told_kinds, told_rules};
    ghost use Rattle.own_rules.specs.Rules.{after as changed, rules_of};
    ghost use Rattle.std.specs.Prelude.{◌≡◌, ◌*◌, IfOk, IsSome, Some};

    type Node = Node;

    type Message = Message;

    type Change = State;

    type Setting = Playing<'a>;

    ghost goes_by = { λ set. (set.rules.now ≡ J.book) × (set.most ≡ J.most) };

    ghost rules = { rules_of J.book J.most };

    ghost after = { changed };

    ghost bound = { λ g. g.nodes * J.most.messages };

    fn open(alloc: Global, set: Playing<'a>, v: u32, ports: &[Port]) -> Result<Node, AllocError> {
        Ok(Node {
            number: v,
            ports: ports.len() as u32,
            state: set.rules.opened(alloc, v, ports, set.most)?,
        })
    }

    fn is_asleep(node: &Node) -> bool
        ensures { result ≡ (rules_of J.book J.most).is_asleep node.now }
    {
        match node.state {
            State::Runs {
                text: _,
                asleep,
                left: _,
            } => asleep,
            State::Stopped(_) => false,
        }
    }

    fn react(
        alloc: Global,
        set: Playing<'a>,
        node: &Node,
        work: Work<Message>,
    ) -> Result<Answer<State, Message>, AllocError>
        requires setting { (set.rules.now ≡ J.book) × (set.most ≡ J.most) }
        requires rule { IsSome ((rules_of J.book J.most).reaction node.now work) }
        ensures { IfOk result (λ a. (rules_of J.book J.most).reaction node.now work ≡ Some (record { state = changed node.now a.change; sends = a.sends.items })) }
    {
        match node.state {
            State::Runs {
                text,
                asleep: _,
                left,
            } => {
                let lookup = lookup_at(node.number, text, &work);
                reacted(alloc, set.rules, node.ports, left, lookup)
            }
            State::Stopped(stop) => Ok(Answer {
                change: State::Stopped(stop),
                sends: Vec::new(alloc),
            }),
        }
    }

    fn defers(set: Playing<'a>, node: &Node, work: &Work<Message>) -> bool
        requires { (set.rules.now ≡ J.book) × (set.most ≡ J.most) }
        ensures { result ≡ (rules_of J.book J.most).defers node.now work.now }
    {
        match (work, node.state) {
            (
                Work::Deliver {
                    port: _,
                    message: _,
                },
                State::Runs {
                    text,
                    asleep: _,
                    left,
                },
            ) => waits(
                set.rules,
                node.ports,
                left,
                lookup_at(node.number, text, work),
            ),
            _ => false,
        }
    }

    fn apply(node: &mut Node, change: &State)
        ensures { node.new ≡ changed node.old change.now }
    {
        node.state = *change;
    }

    fn kinds(set: Playing<'a>) -> usize {
        set.rules.kinds()
    }

    fn kind(set: Playing<'a>, message: &Message) -> usize {
        set.rules.kind(message)
    }

    fn bound_of(set: Playing<'a>, graph: &Graph) -> u64 {
        u64::from(graph.nodes()) * u64::from(set.most.messages)
    }

    ghost has_kinds = { told_kinds J.book J.most };

    ghost has_rules = { told_rules J.book J.most };

    ghost is_bounded = { told_bound J.book J.most };

    ghost bound_fits = { told_fits J.most J.few };
}

/// What a node is asked in a state when it gets some work.
pub(crate) fn lookup_at(node: u32, state: usize, work: &Work<Message>) -> Lookup
    ensures { result ≡ lookup_of_work node state work.now }
{
    match work {
        Work::Wake => Lookup::Wake { node, state },
        Work::Deliver { port, message } => Lookup::Take {
            node,
            port: *port,
            message: message.text,
            state,
        },
    }
}

/// Whether a node of so many ports with this allowance defers the message.
fn waits(rules: &Rulebook, ports: u32, left: Allowance, lookup: Lookup) -> bool
    ensures { result ≡ waits_by (deed_of rules.now ports left lookup) }
{
    match rules.ready(ports, left, lookup) {
        Some(ready) => ready.waits,
        None => waits_so(rules.done(ports, left, lookup)),
    }
}

/// The same by what it does.
fn waits_so(done: Done) -> bool
    ensures { result ≡ waits_by (done_by done.entry) }
{
    match done {
        Done::GoesOn {
            after: _,
            waits,
            sends: _,
            left: _,
        } => waits,
        Done::Stops(_) => false,
    }
}

/// What a node of so many ports with this allowance does: as it is ready, else by the answer's text. Refusal: out of memory.
fn reacted(
    alloc: Global,
    rules: &Rulebook,
    ports: u32,
    left: Allowance,
    lookup: Lookup,
) -> Result<Answer<State, Message>, AllocError>
    ensures { IfOk result (λ a. (a.change ≡ state_by (texts_of rules.now) lookup (deed_of rules.now ports left lookup)) × (a.sends.items ≡ sends_by (texts_of rules.now) (deed_of rules.now ports left lookup))) }
{
    match rules.ready(ports, left, lookup) {
        Some(ready) => Ok(Answer {
            change: awake(ready.after, ready.paid_from(left)),
            sends: Vec::from_slice(alloc, &ready.sends)?,
        }),
        None => done(alloc, rules, lookup, rules.done(ports, left, lookup)),
    }
}

/// What a node does, by numbers. Refusal: out of memory.
fn done(
    alloc: Global,
    rules: &Rulebook,
    lookup: Lookup,
    done: Done,
) -> Result<Answer<State, Message>, AllocError>
    requires { AreSends done }
    ensures { IfOk result (λ a. (a.change ≡ state_by (texts_of rules.now) lookup (done_by done.entry)) × (a.sends.items ≡ sends_by (texts_of rules.now) (done_by done.entry))) }
{
    match done {
        Done::GoesOn {
            after,
            waits: _,
            sends,
            left,
        } => Ok(Answer {
            change: awake(rules.number(after), left),
            sends: rules.numbered(alloc, sends)?,
        }),
        Done::Stops(reason) => Ok(Answer {
            change: State::Stopped(Stop {
                asked: Some(lookup),
                reason,
            }),
            sends: Vec::new(alloc),
        }),
    }
}

/// The state of a node that goes on, by the number of its text, with the allowance that it has left.
fn awake(text: usize, left: Allowance) -> State
    ensures { result ≡ Runs text false left }
{
    State::Runs {
        text,
        asleep: false,
        left,
    }
}
