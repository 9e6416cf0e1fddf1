//! The reaction of a node to one piece of work.
ghost use Rattle.std.specs.Prelude.{◌≡◌, ◌==◌, ◌&&◌, Some, IsSome, IfOk, None, if◌then◌else◌};
ghost use Rattle.ghs_node.specs.Words.{is_name};
ghost use Rattle.boruvka_node.specs.Boruvka.{boruvka};
ghost use Rattle.boruvka_node.specs.Draft.{begun, drafted, goes_on, Gives};
ghost use Rattle.boruvka_node.specs.Entering.{after};
ghost use Rattle.boruvka_node.specs.Words.{is_basic};
ghost use Rattle.boruvka_node.specs.declared.mark.Mark.TheVariants.{Inside};
ghost use Rattle.boruvka_node.specs.Reaction.{change_root, connect, delivered, initiate, name, report, wakes};

use crate::change::Change;
use crate::draft::{Draft, begin_core, close_and_go, connect_over, enter, go_out, move_over};
use crate::head::Head;
use crate::mark::Mark;
use crate::message::{Message, Phase};
use crate::node::Node;
use crate::port_state::PortState;
use ghs_graph::key::Key;
use ghs_node::level::Level;
use peer_machine::work::{Answer, Work};
use std::alloc::{AllocError, Global};

/// What a node does with a piece of work for which there is a rule. The node itself stays as it is: `Node::apply` makes the
/// change. The sends are all that takes memory. O(1) and as the least Basic port rises, but for a reaction by which the node
/// enters a fragment: that goes over its ports.
///
/// ```text
/// let answer = react(alloc, &node, Work::Wake)?;
/// // of a sleeper with ports: answer.sends is a Connect of level 0 on port 0
/// node.apply(&answer.change);                               // the node is awake
/// ```
#[tactic(auto, using(crate::proofs::Drafts::answered))]
pub fn react(
    alloc: Global,
    node: &Node,
    work: Work<Message>,
) -> Result<Answer<Change, Message>, AllocError>
    requires rule { IsSome (boruvka.reaction node.now work) }
    ensures { IfOk result (λ a. boruvka.reaction node.now work ≡ Some (record { state = after node.now a.change; sends = a.sends.items })) }
{
    let draft = reacted(alloc, node, work)?;
    Ok(Answer {
        change: draft.change(),
        sends: draft.sends,
    })
}

/// The draft of the whole reaction.
#[tactic(auto, using(crate::proofs::Drafts::if_ok, crate::proofs::Drafts::gives_when))]
fn reacted(alloc: Global, node: &Node, work: Work<Message>) -> Result<Draft, AllocError>
    ensures { IfOk result (λ d. Gives node.now (boruvka.reaction node.now work) d) }
{
    match work {
        Work::Wake => wake(alloc, node),
        Work::Deliver { port, message } => respond(alloc, node, port, message),
    }
}

/// A node wakes. One without ports halts at once.
fn wake(alloc: Global, node: &Node) -> Result<Draft, AllocError>
    ensures so { IfOk result (λ d. Gives node.now (wakes node.now) d) }
    ensures port { IfOk result (λ d. d.port ≡ None) }
    ensures entry { IfOk result (λ d. d.entry ≡ None) }
{
    let mut draft = Draft::of(alloc, node);
    draft.head.level = Level::ZERO;
    draft.head.phase = Phase::Rest;
    if node.degree() == 0 {
        draft.head.halted = true;
        return Ok(draft);
    }
    connect_over(draft, node, 0)
}

/// Begins a reaction to a message: a sleeper wakes first.
fn begin(alloc: Global, node: &Node) -> Result<Draft, AllocError>
    ensures so { IfOk result (λ d. Gives node.now (begun node.now) d) }
    ensures port { IfOk result (λ d. d.port ≡ None) }
    ensures entry { IfOk result (λ d. d.entry ≡ None) }
{
    if node.head().phase == Phase::Sleeping {
        wake(alloc, node)
    } else {
        Ok(Draft::of(alloc, node))
    }
}

/// A message has come in at a port. A sleeper wakes first.
#[tactic(auto, using(crate::proofs::Drafts::if_ok, crate::proofs::Responding::began))]
fn respond(alloc: Global, node: &Node, port: u32, message: Message) -> Result<Draft, AllocError>
    ensures { IfOk result (λ d. Gives node.now (delivered node.now port message) d) }
{
    let draft = begin(alloc, node)?;
    match message {
        Message::Connect(level) => on_connect(draft, node, port, level),
        Message::Initiate(level, name) => on_initiate(draft, node, port, level, name),
        Message::Name(level, name) => on_name(draft, node, port, level, name),
        Message::Report(key) => on_report(draft, node, port, key),
        Message::ChangeRoot => on_change_root(draft, node),
    }
}

/// The response to a Connect.
fn on_connect(mut draft: Draft, node: &Node, port: u32, level: Level) -> Result<Draft, AllocError>
    requires port { draft.port ≡ None }
    requires entry { draft.entry ≡ None }
    ensures { IfOk result (λ d. Gives node.now (goes_on draft (connect (drafted node.now draft) port level)) d) }
{
    let head = draft.head;
    let state = node.port(port);
    if level.get() == head.level.get() {
        let mark = Mark::Asked;
        draft.port = Some((port, PortState { mark, ..state }));
        if head.out == Some(port) {
            begin_core(draft, node, port)
        } else {
            Ok(draft)
        }
    } else {
        // It is late: of the level below.
        let mark = Mark::Branch;
        let owes = true;
        draft.port = Some((
            port,
            PortState {
                mark,
                owes,
                ..state
            },
        ));
        draft.send(port, Message::Initiate(head.level, head.fragment_name()))
    }
}

/// The response to an Initiate: the node enters the fragment, and its search.
#[tactic(auto, using(crate::proofs::Drafts::if_ok, crate::proofs::Drafts::gives_if))]
fn on_initiate(
    draft: Draft,
    node: &Node,
    port: u32,
    level: Level,
    name: Key,
) -> Result<Draft, AllocError>
    requires port { draft.port ≡ None }
    requires entry { draft.entry ≡ None }
    ensures { IfOk result (λ d. Gives node.now (goes_on draft (initiate (drafted node.now draft) port level name)) d) }
{
    enter(draft, node, level, name, Some(port))
}

/// The response to a Name.
#[tactic(auto, using(crate::proofs::Drafts::if_ok, crate::proofs::Drafts::gives_if, crate::proofs::Drafts::same_sends))]
fn on_name(
    mut draft: Draft,
    node: &Node,
    port: u32,
    level: Level,
    fragment: Key,
) -> Result<Draft, AllocError>
    requires port { draft.port ≡ None }
    requires entry { draft.entry ≡ None }
    ensures { IfOk result (λ d. Gives node.now (goes_on draft (name (drafted node.now draft) port level fragment)) d) }
{
    let head = draft.head;
    let state = node.port(port);
    let mark = heard_mark(&head, &state, level, fragment);
    let name = Some(fragment);
    draft.port = Some((
        port,
        PortState {
            mark,
            level,
            name,
            ..state
        },
    ));
    close_and_go(draft, node)
}

/// The mark of a port where a Name has come: a Basic one that leads back into the node's own fragment becomes Inside.
fn heard_mark(head: &Head, state: &PortState, level: Level, fragment: Key) -> Mark
    ensures { result ≡ (if ((level == head.now.level) && is_name head.now.name fragment) && is_basic state.now.mark then Inside else state.now.mark) }
{
    if head.is_of(level, fragment) && state.is_basic() {
        Mark::Inside
    } else {
        state.mark
    }
}

/// The response to a Report.
#[tactic(auto, using(crate::proofs::Drafts::if_ok, crate::proofs::Drafts::gives_if, crate::proofs::Drafts::same_sends))]
fn on_report(
    mut draft: Draft,
    node: &Node,
    port: u32,
    key: Option<Key>,
) -> Result<Draft, AllocError>
    requires port { draft.port ≡ None }
    requires entry { draft.entry ≡ None }
    ensures { IfOk result (λ d. Gives node.now (goes_on draft (report (drafted node.now draft) port key)) d) }
{
    let head = draft.head;
    let state = node.port(port);
    let owes = false;
    draft.port = Some((port, PortState { owes, ..state }));
    draft.head.best = head.better(port, key);
    close_and_go(draft, node)
}

/// The response to a ChangeRoot.
fn on_change_root(draft: Draft, node: &Node) -> Result<Draft, AllocError>
    requires entry { draft.entry ≡ None }
    ensures { IfOk result (λ d. Gives node.now (goes_on draft (change_root (drafted node.now draft))) d) }
{
    let Some((port, _)) = draft.head.best else {
        // No rule.
        return Ok(draft);
    };
    let (draft, chosen) = move_over(draft, node, port)?;
    match chosen {
        Some(port) => go_out(draft, node, port),
        None => Ok(draft),
    }
}
