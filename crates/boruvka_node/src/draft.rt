//! Reactions in the making.
ghost use Rattle.std.specs.Prelude.{◌≡◌, ◌++◌, ◌∷◌, [], None, IfOk};
ghost use Rattle.boruvka_node.specs.Draft.{change_of, drafted, goes_on, goes_out_if, is_done, Gives, IsBlank};
ghost use Rattle.boruvka_node.specs.Entering.{joined_mark, told_as, told_from};
ghost use Rattle.boruvka_node.specs.Reaction.{GoingOut, closes_by, connects, core, core_if_asked, enters, goes_out, moves_over, reports, rested, closes};
ghost use Rattle.boruvka_node.specs.State.{least_basic, missing, port_at};

use crate::change::{Change, Entry};
use crate::head::Head;
use crate::mark::Mark;
use crate::message::{Message, Phase};
use crate::node::Node;
use crate::port_state::PortState;
use ghs_graph::key::Key;
use ghs_node::level::Level;
use std::alloc::{AllocError, Global};

/// What a reaction has come to so far: how the node changes, and what goes out.
#[derive(Debug, Drop)]
pub(crate) struct Draft {
    pub(crate) head: Head,
    pub(crate) port: Option<(u32, PortState)>,
    pub(crate) entry: Option<Entry>,
    pub(crate) sends: Vec<(u32, Message)>,
}

impl Draft {
    /// The draft of a reaction that does nothing yet.
    pub(crate) fn of(alloc: Global, node: &Node) -> Draft
        ensures { IsBlank node.now result }
    {
        Draft {
            head: *node.head(),
            port: None,
            entry: None,
            sends: Vec::new(alloc),
        }
    }

    /// One message more goes out, the last.
    pub(crate) fn send(mut self, port: u32, message: Message) -> Result<Draft, AllocError>
        ensures change { IfOk result (λ d. change_of d ≡ change_of self) }
        ensures sends { IfOk result (λ d. d.sends.items ≡ self.sends.items ++ (port, message) ∷ []) }
    {
        self.sends.push((port, message))?;
        Ok(self)
    }

    /// A port as it now is; where there is none, one that is Inside.
    #[tactic(auto, using(crate::proofs::Drafted::entered_lookup, crate::proofs::Drafted::past_lookup, crate::proofs::Drafted::plain_lookup))]
    pub(crate) fn state_of(&self, node: &Node, port: u32) -> PortState
        ensures { result ≡ port_at (drafted node.now self.now) port }
    {
        let state = node.port_with(self.port, port);
        if port >= node.degree() {
            return state;
        }
        match self.entry {
            Some(entry) => entry.entered(port, state),
            None => state,
        }
    }

    /// The change, once the reaction is done.
    pub(crate) fn change(&self) -> Change
        ensures { result ≡ change_of self.now }
    {
        Change {
            head: self.head,
            port: self.port,
            entry: self.entry,
        }
    }

    /// From how many ports the search wants for something. O(1), but for a node that has just entered a fragment.
    #[tactic(auto, using(crate::proofs::Drafted::plain_missing))]
    pub(crate) fn missing(&self, node: &Node) -> u32
        ensures { result ≡ missing (drafted node.now self.now) }
    {
        match self.entry {
            None if self.head.level.get() == node.head().level.get() => node.missing(self.port),
            _ => self.count_missing(node),
        }
    }

    /// The same, counted: O(ports).
    #[tactic(auto, using(crate::proofs::Drafted::length_drafted, crate::proofs::Counting::more_missing, crate::proofs::Counting::no_more_missing))]
    fn count_missing(&self, node: &Node) -> u32
        ensures { result ≡ missing (drafted node.now self.now) }
    {
        let level = self.head.level;
        let mut count = 0;
        for port in 0..node.degree() {
            if self.state_of(node, port).is_missing(level) {
                count += 1;
            }
        }
        count
    }

    /// The least port that is Basic. It goes over the ports only of a node that has just entered a fragment.
    #[tactic(auto, using(crate::proofs::Drafted::plain_ports))]
    pub(crate) fn least_basic(&self, node: &Node) -> Option<u32>
        ensures { result ≡ least_basic (drafted node.now self.now).ports }
    {
        match self.entry {
            None => node.least_basic(self.port),
            Some(_) => self.first_basic(node),
        }
    }

    /// The same, looked for port by port.
    #[tactic(auto, using(crate::proofs::Drafted::length_drafted, crate::proofs::Drafted::basic_there, crate::proofs::Drafted::basic_nowhere))]
    fn first_basic(&self, node: &Node) -> Option<u32>
        ensures { result ≡ least_basic (drafted node.now self.now).ports }
    {
        for port in 0..node.degree() {
            if self.state_of(node, port).is_basic() {
                return Some(port);
            }
        }
        None
    }
}

/// Close: where the search is over the node rests, and reports, halts, or moves. The port is the one to go out over.
#[tactic(auto, using(crate::proofs::Closing::closes_over, crate::proofs::Closing::closes_at_rest, crate::proofs::Closing::closes_later, crate::proofs::Drafts::same_sends))]
pub(crate) fn close(draft: Draft, node: &Node) -> Result<(Draft, Option<u32>), AllocError>
    ensures so { IfOk result (λ c. (go : GoingOut) → goes_on draft (closes_by go (drafted node.now draft))
        ≡ goes_on c.0 (goes_out_if go (drafted node.now c.0) c.1)) }
    ensures port { IfOk result (λ c. c.0.port ≡ draft.port) }
    ensures entry { IfOk result (λ c. c.0.entry ≡ draft.entry) }
{
    if draft.head.phase == Phase::Search && draft.missing(node) == 0 {
        finish(rest(draft, node), node)
    } else {
        Ok((draft, None))
    }
}

/// The search is over: what is best is known.
fn rest(mut draft: Draft, node: &Node) -> Draft
    ensures node { drafted node.now result ≡ rested (drafted node.now draft) }
    ensures sends { result.sends.items ≡ draft.sends.items }
    ensures port { result.port ≡ draft.port }
    ensures entry { result.entry ≡ draft.entry }
{
    let head = draft.head;
    let best = match draft.least_basic(node) {
        Some(port) => head.better(port, Some(node.key(port))),
        None => head.best,
    };
    draft.head.best = best;
    draft.head.phase = Phase::Rest;
    draft
}

/// The search is over: the node reports; a root moves, or halts.
#[tactic(auto, using(crate::proofs::Drafts::sent, crate::proofs::Drafts::same_sends))]
fn finish(mut draft: Draft, node: &Node) -> Result<(Draft, Option<u32>), AllocError>
    ensures so { IfOk result (λ c. (go : GoingOut) → goes_on draft (reports go (drafted node.now draft) draft.head.parent)
        ≡ goes_on c.0 (goes_out_if go (drafted node.now c.0) c.1)) }
    ensures port { IfOk result (λ c. c.0.port ≡ draft.port) }
    ensures entry { IfOk result (λ c. c.0.entry ≡ draft.entry) }
{
    let head = draft.head;
    if let Some(parent) = head.parent {
        let draft = draft.send(parent, Message::Report(head.best_key()))?;
        return Ok((draft, None));
    }
    match head.best {
        Some((port, _)) => move_over(draft, node, port),
        None => {
            draft.head.halted = true;
            Ok((draft, None))
        }
    }
}

/// Moves, to `best` over a port: on along a Branch, or out over it.
#[tactic(auto, using(crate::proofs::Drafts::sent))]
pub(crate) fn move_over(
    draft: Draft,
    node: &Node,
    port: u32,
) -> Result<(Draft, Option<u32>), AllocError>
    ensures so { IfOk result (λ c. (go : GoingOut) → goes_on draft (moves_over go (drafted node.now draft) port)
        ≡ goes_on c.0 (goes_out_if go (drafted node.now c.0) c.1)) }
    ensures port { IfOk result (λ c. c.0.port ≡ draft.port) }
    ensures entry { IfOk result (λ c. c.0.entry ≡ draft.entry) }
{
    if draft.state_of(node, port).mark == Mark::Branch {
        let draft = draft.send(port, Message::ChangeRoot)?;
        Ok((draft, None))
    } else {
        Ok((draft, Some(port)))
    }
}

/// The Connect goes out over a port.
#[tactic(auto, using(crate::proofs::Drafts::sent, crate::proofs::Drafts::connected))]
pub(crate) fn connect_over(mut draft: Draft, node: &Node, port: u32) -> Result<Draft, AllocError>
    ensures so { IfOk result (λ d. goes_on draft (connects (drafted node.now draft) port) ≡ is_done node.now d) }
    ensures asked { IfOk result (λ d. goes_on draft (goes_out (drafted node.now draft) port) ≡ goes_on d (core_if_asked (drafted node.now d) port)) }
    ensures port { IfOk result (λ d. d.port ≡ draft.port) }
    ensures entry { IfOk result (λ d. d.entry ≡ draft.entry) }
{
    let head = draft.head;
    draft.head.out = Some(port);
    draft.send(port, Message::Connect(head.level))
}

/// Goes out over a port: where it is Asked, it is a core.
#[tactic(auto, using(crate::proofs::Drafts::gives, crate::proofs::Drafts::gives_done))]
pub(crate) fn go_out(draft: Draft, node: &Node, port: u32) -> Result<Draft, AllocError>
    requires { draft.entry ≡ None }
    ensures { IfOk result (λ d. Gives node.now (goes_on draft (goes_out (drafted node.now draft) port)) d) }
{
    let draft = connect_over(draft, node, port)?;
    if draft.state_of(node, port).mark == Mark::Asked {
        begin_core(draft, node, port)
    } else {
        Ok(draft)
    }
}

/// Core on a port: the lesser end enters the next level as its root. The other end waits to be called.
#[tactic(auto, using(crate::proofs::Closing::core_enters, crate::proofs::Closing::core_waits, crate::proofs::Drafts::gives_done))]
pub(crate) fn begin_core(draft: Draft, node: &Node, port: u32) -> Result<Draft, AllocError>
    requires { draft.entry ≡ None }
    ensures { IfOk result (λ d. Gives node.now (goes_on draft (core (drafted node.now draft) port)) d) }
{
    let head = draft.head;
    let key = node.key(port);
    let number = node.number();
    let far = if key.a == number { key.b } else { key.a };
    if number >= far {
        return Ok(draft);
    }
    match Level::of(head.level.get() + 1) {
        Some(level) => enter(draft, node, level, key, None),
        // No run meets a core at the highest level.
        None => Ok(draft),
    }
}

/// Enters a fragment of the next level: O(ports).
#[tactic(auto, using(crate::proofs::Entries::enters_done, crate::proofs::Entries::drafted_entered))]
pub(crate) fn enter(
    draft: Draft,
    node: &Node,
    level: Level,
    name: Key,
    parent: Option<u32>,
) -> Result<Draft, AllocError>
    requires { draft.entry ≡ None }
    ensures { IfOk result (λ d. Gives node.now (goes_on draft (enters (drafted node.now draft) level name parent)) d) }
{
    let _level = level.get();
    let head = draft.head;
    let entry = Entry {
        level,
        name,
        parent,
        out: head.out,
    };
    let mut draft = tell(draft, node, &entry)?;
    draft.entry = Some(entry);
    draft.head.level = level;
    draft.head.name = Some(name);
    draft.head.phase = Phase::Search;
    draft.head.parent = parent;
    draft.head.best = None;
    draft.head.out = None;
    let (draft, chosen) = close(draft, node)?;
    match chosen {
        Some(port) => connect_over(draft, node, port),
        None => Ok(draft),
    }
}

/// Each Branch but the parent is called, and each Basic port told the name.
fn tell(mut draft: Draft, node: &Node, entry: &Entry) -> Result<Draft, AllocError>
    ensures change { IfOk result (λ d. change_of d ≡ change_of draft) }
    ensures sends { IfOk result (λ d. d.sends.items ≡ draft.sends.items ++ told_from entry.now 0 (drafted node.now draft).ports) }
{
    for port in 0..node.degree() {
        draft = tell_port(draft, node, entry, port)?;
    }
    Ok(draft)
}

/// What is told on one port.
fn tell_port(draft: Draft, node: &Node, entry: &Entry, port: u32) -> Result<Draft, AllocError>
    ensures change { IfOk result (λ d. change_of d ≡ change_of draft) }
    ensures sends { IfOk result (λ d. d.sends.items ≡ draft.sends.items
        ++ told_as entry.now port (joined_mark entry.now port (port_at (drafted node.now draft) port).mark)) }
{
    let mark = entry.joined(port, draft.state_of(node, port).mark);
    if mark.is_basic() {
        return draft.send(port, Message::Name(entry.level, entry.name));
    }
    if mark == Mark::Branch && entry.parent != Some(port) {
        draft.send(port, Message::Initiate(entry.level, entry.name))
    } else {
        Ok(draft)
    }
}

/// Close, and out where that comes of it.
#[tactic(auto, using(crate::proofs::Drafts::gives, crate::proofs::Drafts::gives_done))]
pub(crate) fn close_and_go(draft: Draft, node: &Node) -> Result<Draft, AllocError>
    requires { draft.entry ≡ None }
    ensures { IfOk result (λ d. Gives node.now (goes_on draft (closes (drafted node.now draft))) d) }
{
    let (draft, chosen) = close(draft, node)?;
    match chosen {
        Some(port) => go_out(draft, node, port),
        None => Ok(draft),
    }
}
