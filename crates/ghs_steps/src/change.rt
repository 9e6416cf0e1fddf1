//! What differs at a node after a reaction.
ghost use Rattle.std.specs.Prelude.{◌≡◌, ◌++◌, ◌||◌, not, IfOk};
ghost use Rattle.ghs_node.specs.Reaction.{IsReaction};
ghost use Rattle.ghs_node.specs.Phases.{same_phase};
ghost use Rattle.ghs_node.specs.Words.{key_eq};
ghost use Rattle.ghs_steps.specs.Changes.{changes, fragment_changes, search_changes, same_best, same_key, same_mark, same_port, unless};

use ghs_graph::key::Key;
use ghs_node::delta::Delta;
use ghs_node::head::Head;
use ghs_node::level::Level;
use ghs_node::mark::Mark;
use ghs_node::message::Phase;
use ghs_node::node::Node;
use std::alloc::{AllocError, Global};

/// A mark or a variable of a node that differs from what it was, with its new value.
#[derive(Clone, Copy, Debug, PartialEq, Eq)]
pub enum Change {
    Mark(u32, Mark),
    Level(Level),
    Name(Option<Key>),
    Phase(Phase),
    FindCount(u32),
    InBranch(Option<u32>),
    Best(Option<(u32, Key)>),
    Probe(Option<u32>),
    /// The node has halted, which it stays.
    Halted,
}

/// What differs at a node after one of its reactions: marks and variables, in the order of `Change`.
pub fn changes(alloc: Global, node: &Node, delta: &Delta) -> Result<Vec<Change>, AllocError>
    requires { IsReaction node.now delta.now }
    ensures { IfOk result (λ list. list.items ≡ changes node.now delta.now) }
{
    let old = node.head();
    let mut list = Vec::new(alloc);
    if let Some((port, mark)) = delta.mark {
        note(
            &mut list,
            same_mark(node.mark(port), mark),
            Change::Mark(port, mark),
        )?;
    }
    note_fragment(&mut list, old, &delta.head)?;
    note_search(&mut list, old, &delta.head)?;
    Ok(list)
}

/// What the node knows of its fragment, and how many Reports it waits for.
fn note_fragment(list: &mut Vec<Change>, old: &Head, new: &Head) -> Result<(), AllocError>
    ensures { IfOk result (λ _. list.new.items ≡ list.old.items ++ fragment_changes old.now new.now) }
{
    note(
        list,
        old.level.get() == new.level.get(),
        Change::Level(new.level),
    )?;
    note(list, same_key(old.name, new.name), Change::Name(new.name))?;
    note(
        list,
        same_phase(old.phase, new.phase),
        Change::Phase(new.phase),
    )?;
    note(
        list,
        old.find_count == new.find_count,
        Change::FindCount(new.find_count),
    )?;
    Ok(())
}

/// Its ports in the search, and whether it has halted.
fn note_search(list: &mut Vec<Change>, old: &Head, new: &Head) -> Result<(), AllocError>
    ensures { IfOk result (λ _. list.new.items ≡ list.old.items ++ search_changes old.now new.now) }
{
    note(
        list,
        same_port(old.in_branch, new.in_branch),
        Change::InBranch(new.in_branch),
    )?;
    note(list, same_best(old.best, new.best), Change::Best(new.best))?;
    note(
        list,
        same_port(old.probe, new.probe),
        Change::Probe(new.probe),
    )?;
    note(list, has_not_just_halted(old, new), Change::Halted)?;
    Ok(())
}

/// Whether the node hasn't halted, or had before.
fn has_not_just_halted(old: &Head, new: &Head) -> bool
    ensures { result ≡ (old.now.halted || not new.now.halted) }
{
    old.halted || !new.halted
}

/// The change, unless it is none.
#[tactic(auto, unfolding(crate::specs::Changes::unless))]
fn note(list: &mut Vec<Change>, same: bool, change: Change) -> Result<(), AllocError>
    ensures { IfOk result (λ _. list.new.items ≡ list.old.items ++ unless same change) }
{
    if !same {
        list.push(change)?;
    }
    Ok(())
}

fn same_mark(old: Mark, new: Mark) -> bool
    ensures { result ≡ same_mark old new }
{
    matches!(
        (old, new),
        (Mark::Basic, Mark::Basic) | (Mark::Branch, Mark::Branch) | (Mark::Rejected, Mark::Rejected)
    )
}

fn same_phase(old: Phase, new: Phase) -> bool
    ensures { result ≡ same_phase old new }
{
    matches!(
        (old, new),
        (Phase::Sleeping, Phase::Sleeping)
            | (Phase::Find, Phase::Find)
            | (Phase::Found, Phase::Found)
    )
}

fn same_port(old: Option<u32>, new: Option<u32>) -> bool
    ensures { result ≡ same_port old new }
{
    match (old, new) {
        (Some(old), Some(new)) => old == new,
        (None, None) => true,
        _ => false,
    }
}

fn same_key(old: Option<Key>, new: Option<Key>) -> bool
    ensures { result ≡ same_key old new }
{
    match (old, new) {
        (Some(old), Some(new)) => are_equal(&old, &new),
        (None, None) => true,
        _ => false,
    }
}

fn same_best(old: Option<(u32, Key)>, new: Option<(u32, Key)>) -> bool
    ensures { result ≡ same_best old new }
{
    match (old, new) {
        (Some(old), Some(new)) => old.0 == new.0 && are_equal(&old.1, &new.1),
        (None, None) => true,
        _ => false,
    }
}

fn are_equal(left: &Key, right: &Key) -> bool
    ensures { result ≡ key_eq left.now right.now }
{
    left.weight == right.weight && left.a == right.a && left.b == right.b
}
