//! What of a node may differ after an event: noted before it, and compared behind it.
ghost use Rattle.std.specs.List.{flat_map, list_any};
ghost use Rattle.std.specs.Prelude.{◌≡◌, ◌⊎◌, ℕ, ◌+◌, ◌<◌, ◌≤◌, ◌++◌, [], ◌^◌, length, slice_index_or, false, IfOk};
ghost use Rattle.std.specs.Str.{bytes_eq};
ghost use Rattle.peer_words.specs.Touched.{is_touched};
ghost use Rattle.peer_steps.specs.Changes.{changes, gone_change, is_named, is_said, marks_below, unless, variable_change};
ghost use Rattle.peer_steps.specs.Noted.{IsNoted};
ghost use Rattle.peer_steps.specs.declared.change.Change.TheVariants.{Mark};

use crate::change::Change;
use peer_words::same::is_same;
use peer_words::spoken::{Spoken, Touched};
use peer_words::value::{Said, Word};
use std::alloc::{AllocError, Global};

/// What is noted of a node before an event.
#[derive(Drop)]
pub struct Before<'s> {
    /// How many ports the node has.
    pub ports: u32,
    /// The first port that the event touches.
    pub first: u32,
    /// The marks of the touched ports, which lie side by side.
    pub marks: Vec<Word<'s>>,
    /// All variables.
    pub variables: Vec<Said<'s>>,
}

/// Notes of a node with so many ports what a change may change: the marks of the touched ports, and the variables. O(ports)
/// where the change touches all ports, else O(1). Refusal: out of memory.
pub fn note_before<'s, P: Spoken>(
    alloc: Global,
    setting: &'s P::Setting,
    node: &P::Node,
    change: &P::Change,
    ports: u32,
) -> Result<Before<'s>, AllocError>
    requires { P.goes_by setting.now }
    ensures ports { IfOk result (λ b. b.ports ≡ ports) }
    ensures noted { IfOk result (λ b. IsNoted P.words node.now (P.after node.now change.now) ports b.first b.marks.items b.variables.items) }
{
    let span = span_of(P::touches(change), ports);
    let marks = marks_of::<P>(alloc, setting, node, span)?;
    let mut variables = Vec::new(alloc);
    P::put_variables(&mut variables, setting, node)?;
    Ok(Before {
        ports,
        first: span.first,
        marks,
        variables,
    })
}

/// Ports side by side.
#[derive(Clone, Copy)]
struct Span {
    first: u32,
    count: u32,
}

/// The ports that a change may touch, of those that are there.
fn span_of(touched: Touched, ports: u32) -> Span
    ensures within { result.first + result.count ≤ ports }
    ensures others { (p : ℕ) → p < ports → (p < result.first) ⊎ (result.first + result.count ≤ p) → is_touched touched p ≡ false }
{
    match touched {
        Touched::OnePort(port) if port < ports => Span {
            first: port,
            count: 1,
        },
        Touched::AllPorts => Span {
            first: 0,
            count: ports,
        },
        _ => Span { first: 0, count: 0 },
    }
}

/// The marks of these ports.
fn marks_of<'s, P: Spoken>(
    alloc: Global,
    setting: &'s P::Setting,
    node: &P::Node,
    span: Span,
) -> Result<Vec<Word<'s>>, AllocError>
    requires setting { P.goes_by setting.now }
    requires span { span.first + span.count < 2 ^ 32 }
    ensures count { IfOk result (λ marks. length marks.items ≡ span.count) }
    ensures marks { IfOk result (λ marks. (i : ℕ) → i < span.count → slice_index_or marks.items i [] ≡ P.words.mark node.now (span.first + i)) }
{
    let mut marks = Vec::with_capacity(alloc, span.count as usize)?;
    for at in 0..span.count {
        marks.push(P::mark(setting, node, span.first + at))?;
    }
    Ok(marks)
}

/// What differs at a node by now, by what was noted of it: marks, port by port; then variables that are new or have another
/// value, in the order of the texts; then those that are gone. O(V^2) where it has V variables. Refusal: out of memory.
pub fn changes_since<'s, P: Spoken>(
    alloc: Global,
    setting: &'s P::Setting,
    before: &Before<'s>,
    node: &P::Node,
) -> Result<Vec<Change<'s>>, AllocError>
    requires setting { P.goes_by setting.now }
    requires within { before.now.first + length before.now.marks.items ≤ before.now.ports }
    ensures { (old : P.Node) → IsNoted P.words old node.now before.now.ports before.now.first before.now.marks.items before.now.variables.items → IfOk result (λ list. list.items ≡ changes P.words old node.now before.now.ports) }
{
    let mut list = Vec::new(alloc);
    note_marks::<P>(&mut list, setting, before, node)?;
    let mut variables = Vec::new(alloc);
    P::put_variables(&mut variables, setting, node)?;
    note_variables(&mut list, before.variables.as_slice(), variables.as_slice())?;
    note_gone(&mut list, before.variables.as_slice(), variables.as_slice())?;
    Ok(list)
}

/// The marks that differ.
fn note_marks<'s, P: Spoken>(
    list: &mut Vec<Change<'s>>,
    setting: &'s P::Setting,
    before: &Before<'s>,
    node: &P::Node,
) -> Result<(), AllocError>
    requires setting { P.goes_by setting.now }
    requires within { before.now.first + length before.now.marks.items ≤ before.now.ports }
    ensures { (old : P.Node) → IsNoted P.words old node.now before.now.ports before.now.first before.now.marks.items before.now.variables.items → IfOk result (λ _. list.new.items ≡ list.old.items ++ marks_below P.words old node.now before.now.ports) }
{
    for at in 0..before.marks.len() {
        note_mark::<P>(
            list,
            setting,
            &before.marks[at],
            node,
            before.first + at as u32,
        )?;
    }
    Ok(())
}

/// The mark of a port, if it isn't the old one.
fn note_mark<'s, P: Spoken>(
    list: &mut Vec<Change<'s>>,
    setting: &'s P::Setting,
    old: &Word,
    node: &P::Node,
    port: u32,
) -> Result<(), AllocError>
    requires { P.goes_by setting.now }
    ensures { IfOk result (λ _. list.new.items ≡ list.old.items ++ unless (bytes_eq old.now (P.words.mark node.now port)) (Mark port (P.words.mark node.now port))) }
{
    let new = P::mark(setting, node, port);
    let same = old.letters() == new.letters();
    note(list, same, Change::Mark(port, new))
}

/// The variables that are new, or have another value.
fn note_variables<'s>(
    list: &mut Vec<Change<'s>>,
    old: &[Said<'s>],
    new: &[Said<'s>],
) -> Result<(), AllocError>
    ensures { IfOk result (λ _. list.new.items ≡ list.old.items ++ flat_map (variable_change old.now) new.now) }
{
    for variable in new {
        note(
            list,
            stays(old, variable),
            Change::Variable(variable.again()),
        )?;
    }
    Ok(())
}

/// The variables that the node has no more.
fn note_gone<'s>(
    list: &mut Vec<Change<'s>>,
    old: &[Said<'s>],
    new: &[Said<'s>],
) -> Result<(), AllocError>
    ensures { IfOk result (λ _. list.new.items ≡ list.old.items ++ flat_map (gone_change new.now) old.now) }
{
    for variable in old {
        note(
            list,
            is_there(new, variable),
            Change::Gone(variable.name.again()),
        )?;
    }
    Ok(())
}

/// Whether a variable stands there with the same value.
fn stays(list: &[Said], said: &Said) -> bool
    ensures { result ≡ list_any (is_said said.now) list.now }
{
    for other in list {
        if is_said(said, other) {
            return true;
        }
    }
    false
}

fn is_said(said: &Said, other: &Said) -> bool
    ensures { result ≡ is_said said.now other.now }
{
    is_named(said, other) && is_same(&other.value, &said.value)
}

/// Whether there is a variable of that name.
fn is_there(list: &[Said], said: &Said) -> bool
    ensures { result ≡ list_any (is_named said.now) list.now }
{
    for other in list {
        if is_named(said, other) {
            return true;
        }
    }
    false
}

fn is_named(said: &Said, other: &Said) -> bool
    ensures { result ≡ is_named said.now other.now }
{
    other.name.letters() == said.name.letters()
}

/// The change, unless it is none.
#[tactic(auto, unfolding(crate::specs::Changes::unless))]
fn note<'s>(list: &mut Vec<Change<'s>>, same: bool, change: Change<'s>) -> Result<(), AllocError>
    ensures { IfOk result (λ _. list.new.items ≡ list.old.items ++ unless same change.entry) }
{
    if !same {
        list.push(change)?;
    }
    Ok(())
}
