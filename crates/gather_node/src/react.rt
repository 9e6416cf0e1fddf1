//! The reaction of a node to one piece of work.
ghost use Rattle.std.specs.Prelude.{◌≡◌, ◌++◌, ◌<◌, [], None, Some, IfOk, IfSome, IsSome, slice_index_or};
ghost use Rattle.gather_node.specs.Gather.{gather, IsAnswer};
ghost use Rattle.gather_node.specs.Reaction.{came_back, closes, delivered, due, explored, explores, hears, joins_wave, outcome, settled, told, trees};
ghost use Rattle.gather_node.specs.State.{State, after, degree, known, with_brought};

use crate::change::Change;
use crate::forest::{common_of, forest_of};
use crate::head::Head;
use crate::links::{Links, same};
use crate::message::Message;
use crate::node::Node;
use bumpalo::Bump;
use ghs_graph::key::Key;
use peer_machine::work::{Answer, Work};
use std::alloc::{AllocError, Global};

/// What a node does with a piece of work for which there is a rule. The node itself stays as it is: `Node::apply` makes the
/// change. It takes memory for what goes out, and where it awaits no answer any more, for the links that it knows. A list that
/// it makes lies in the arena `lists`.
///
/// ```text
/// let answer = react(alloc, &lists, &node, Work::Wake)?;
/// // of a sleeper with ports: answer.sends is an Explore of its own number on each
/// node.apply(&answer.change);                               // the node is awake
/// ```
pub fn react<'s>(
    alloc: Global,
    lists: &'s Bump,
    node: &Node<'s>,
    work: Work<Message<'s>>,
) -> Result<Answer<Change<'s>, Message<'s>>, AllocError>
    requires rule { IsSome (gather.reaction node.now work) }
    ensures { IfOk result (λ a. gather.reaction node.now work.entry ≡ Some (record { state = after node.now a.change; sends = a.sends.items })) }
{
    match work {
        Work::Wake => join(alloc, lists, node, node.number(), None),
        Work::Deliver { port, message } => respond(alloc, lists, node, port, message),
    }
}

/// A message has come in at a port.
fn respond<'s>(
    alloc: Global,
    lists: &'s Bump,
    node: &Node<'s>,
    port: u32,
    message: Message<'s>,
) -> Result<Answer<Change<'s>, Message<'s>>, AllocError>
    ensures { IfOk result (λ a. IsAnswer node.now a.change a.sends.items (delivered node.now port message.entry)) }
{
    match message {
        Message::Explore(wave) => explored(alloc, lists, node, port, wave),
        Message::Back(wave, links) => came_back(alloc, lists, node, port, wave, links),
        Message::Tree(links) => told(alloc, lists, node, links),
    }
}

/// The response to an Explore.
fn explored<'s>(
    alloc: Global,
    lists: &'s Bump,
    node: &Node<'s>,
    port: u32,
    wave: u32,
) -> Result<Answer<Change<'s>, Message<'s>>, AllocError>
    ensures { IfOk result (λ a. IsAnswer node.now a.change a.sends.items (explored node.now port wave)) }
{
    match node.head().wave {
        Some(own) if own == wave => hear(alloc, lists, node, wave, None),
        Some(own) if own < wave => Ok(stay(alloc, node)),
        _ => join(alloc, lists, node, wave, Some(port)),
    }
}

/// The response to a Back.
fn came_back<'s>(
    alloc: Global,
    lists: &'s Bump,
    node: &Node<'s>,
    port: u32,
    wave: u32,
    links: Links<'s>,
) -> Result<Answer<Change<'s>, Message<'s>>, AllocError>
    ensures { IfOk result (λ a. IsAnswer node.now a.change a.sends.items (came_back node.now port wave links.entry)) }
{
    if node.head().wave == Some(wave) {
        hear(alloc, lists, node, wave, Some((port, links)))
    } else {
        Ok(stay(alloc, node))
    }
}

/// The response to a Tree: the node knows its links of the tree, tells its children theirs, and halts.
fn told<'s>(
    alloc: Global,
    lists: &'s Bump,
    node: &Node<'s>,
    links: Links<'s>,
) -> Result<Answer<Change<'s>, Message<'s>>, AllocError>
    ensures { IfOk result (λ a. IsAnswer node.now a.change a.sends.items (told node.now links.entry [])) }
{
    let change = Change::to(*node.head());
    let sends = tell(
        alloc,
        lists,
        node,
        &change,
        links.as_slice(),
        Vec::new(alloc),
    )?;
    Ok(settle(change, links, sends))
}

/// Nothing changes, and nothing goes out.
fn stay<'s>(alloc: Global, node: &Node<'s>) -> Answer<Change<'s>, Message<'s>>
    ensures { IsAnswer node.now result.change result.sends.items (outcome node.now []) }
{
    Answer {
        change: Change::to(*node.head()),
        sends: Vec::new(alloc),
    }
}

/// The node joins a wave: it forgets what other waves brought, and asks on.
fn join<'s>(
    alloc: Global,
    lists: &'s Bump,
    node: &Node<'s>,
    wave: u32,
    parent: Option<u32>,
) -> Result<Answer<Change<'s>, Message<'s>>, AllocError>
    ensures { IfOk result (λ a. IsAnswer node.now a.change a.sends.items (joins_wave node.now wave parent)) }
{
    let degree = node.degree();
    let sends = explore(alloc, wave, degree, parent)?;
    let change = Change {
        head: Head {
            wave: Some(wave),
            parent,
            awaits: due(degree, parent),
            halted: node.head().halted,
        },
        forgets: true,
        brought: None,
        tree: None,
    };
    close(alloc, lists, node, wave, change, sends)
}

/// From how many ports an answer is due.
fn due(degree: u32, parent: Option<u32>) -> u32
    ensures { result ≡ due degree parent }
{
    match parent {
        None => degree,
        Some(_) => degree.saturating_sub(1),
    }
}

/// An Explore on each port but the parent.
fn explore<'s>(
    alloc: Global,
    wave: u32,
    degree: u32,
    parent: Option<u32>,
) -> Result<Vec<(u32, Message<'s>)>, AllocError>
    ensures { IfOk result (λ s. s.items ≡ explores wave degree parent) }
{
    let mut sends = Vec::new(alloc);
    for port in 0..degree {
        if parent != Some(port) {
            sends.push((port, Message::Explore(wave)))?;
        }
    }
    Ok(sends)
}

/// An answer of the node's wave has come in, with links at a port or without.
fn hear<'s>(
    alloc: Global,
    lists: &'s Bump,
    node: &Node<'s>,
    wave: u32,
    brought: Option<(u32, Links<'s>)>,
) -> Result<Answer<Change<'s>, Message<'s>>, AllocError>
    ensures { IfOk result (λ a. IsAnswer node.now a.change a.sends.items
        (hears (record node.now { brought = with_brought brought.entry node.now.brought }) wave node.now.head.awaits)) }
{
    let mut change = Change::to(*node.head());
    change.brought = brought;
    let sends = Vec::new(alloc);
    if change.head.awaits == 0 {
        return Ok(Answer { change, sends });
    }
    change.head.awaits -= 1;
    close(alloc, lists, node, wave, change, sends)
}

/// Where the node awaits no answer: the forest of what it knows goes to its parent. Without a parent that forest is the tree.
fn close<'s>(
    alloc: Global,
    lists: &'s Bump,
    node: &Node<'s>,
    wave: u32,
    change: Change<'s>,
    mut sends: Vec<(u32, Message<'s>)>,
) -> Result<Answer<Change<'s>, Message<'s>>, AllocError>
    requires { change.tree ≡ None }
    ensures { IfOk result (λ a. IsAnswer node.now a.change a.sends.items (closes (after node.now change.entry) wave sends.entry.items)) }
{
    let head = change.head;
    if head.awaits > 0 {
        return Ok(Answer { change, sends });
    }
    let forest = forest_of(alloc, known(alloc, node, &change)?)?;
    let links = Links::kept(lists, &forest)?;
    match head.parent {
        Some(port) => {
            sends.push((port, Message::Back(wave, links)))?;
            Ok(Answer { change, sends })
        }
        None => {
            let sends = tell(alloc, lists, node, &change, links.as_slice(), sends)?;
            Ok(settle(change, links, sends))
        }
    }
}

/// The node knows the tree: its ports in it become Branch, and it halts.
fn settle<'s>(
    mut change: Change<'s>,
    tree: Links<'s>,
    sends: Vec<(u32, Message<'s>)>,
) -> Answer<Change<'s>, Message<'s>>
    requires { change.tree ≡ None }
    ensures change { (n : State) → after n result.change ≡ settled (after n change.entry) tree.entry }
    ensures sends { result.sends.items ≡ sends.entry.items }
{
    change.head.halted = true;
    change.tree = Some(tree);
    Answer { change, sends }
}

/// All links that the node knows after a change: its own, and those that came.
fn known<'s>(alloc: Global, node: &Node<'s>, change: &Change<'s>) -> Result<Vec<Key>, AllocError>
    ensures { IfOk result (λ ks. ks.items ≡ known (after node.now change.now)) }
{
    let mut keys = Vec::new(alloc);
    keys.extend_from_slice(node.keys())?;
    for port in 0..node.degree() {
        if let Some(links) = brought_at(node, change, port) {
            keys.extend_from_slice(links.as_slice())?;
        }
    }
    Ok(keys)
}

/// To each child those links of the tree that it had sent.
fn tell<'s>(
    alloc: Global,
    lists: &'s Bump,
    node: &Node<'s>,
    change: &Change<'s>,
    tree: &[Key],
    mut sends: Vec<(u32, Message<'s>)>,
) -> Result<Vec<(u32, Message<'s>)>, AllocError>
    ensures { IfOk result (λ s. s.items ≡ sends.entry.items ++ trees tree.now (degree node.now) (after node.now change.now).brought) }
{
    for port in 0..node.degree() {
        if let Some(links) = brought_at(node, change, port) {
            let both = common_of(alloc, tree, links.as_slice())?;
            sends.push((port, Message::Tree(Links::kept(lists, &both)?)))?;
        }
    }
    Ok(sends)
}

/// What has come at a port, after a change.
fn brought_at<'s>(node: &Node<'s>, change: &Change<'s>, port: u32) -> Option<Links<'s>>
    requires { port < degree node.now }
    ensures { result ≡ slice_index_or (after node.now change.now).brought port None }
{
    let own = node.brought();
    match &change.brought {
        Some((place, links)) if *place == port => Some(links.again()),
        _ => {
            if change.forgets {
                None
            } else {
                same(&own[port as usize])
            }
        }
    }
}
