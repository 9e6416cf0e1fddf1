//! What a user asks of the end of a run: marks of a tree or a spanning forest, one leader, or that all have halted.
ghost use Rattle.own_rules.specs.Check.{AreRootsBy, IsCheckText, IsChecked, by_both, by_one, by_some, component_line, first_odd as first_odd_of, keys_where, leaders, leads, link_line, links_seen, marked_line, node_line, odd_text, spanning_text};
ghost use Rattle.own_rules.specs.Rules.{halts};
ghost use Rattle.own_rules.specs.Words.{mark_at};
ghost use Rattle.own_rules.specs.declared.node.State.{State as Standing};
ghost use Rattle.ghs_choices.specs.declared.check.Check.TheVariants.{Halted, Leader, Spanning, Tree};
ghost use Rattle.peer_net.specs.NetState.{net_of};
ghost use Rattle.std.specs.List.{slice_index};
ghost use Rattle.std.specs.Prelude.{ℕ, IfOk, codes, find, length, ◌+◌, ◌≡◌, ◌≤◌};
ghost use Rattle.std.specs.Str.{bytes_eq};

use crate::node::{Node, State};
use crate::rulebook::Rulebook;
use crate::spoken::mark_of;
use ghs_choices::check::Check;
use ghs_graph::key::Key;
use ghs_graph::spanning::span;
use ghs_graph::tree::tree_slow;
use ghs_lines::numbers::put_number;
use own_book::variables::{says_halted, says_leader};
use peer_machine::protocol::Protocol;
use peer_net::net::Net;
use peer_report::links::link_ports;
use peer_words::text::put_key;
use std::alloc::{AllocError, Global};

/// A link, and whether the node at each of its ends marks it as a branch.
#[derive(Clone, Copy, Debug, PartialEq, Eq)]
pub(crate) struct Seen {
    pub(crate) key: Key,
    pub(crate) at_a: bool,
    pub(crate) at_b: bool,
}

impl Seen {
    fn by_both(&self) -> bool
        ensures { result ≡ by_both self.now }
    {
        self.at_a && self.at_b
    }

    fn by_some(&self) -> bool
        ensures { result ≡ by_some self.now }
    {
        self.at_a || self.at_b
    }

    fn by_one(&self) -> bool
        ensures { result ≡ by_one self.now }
    {
        self.by_some() && !self.by_both()
    }
}

/// What is wrong with a net at the end of its run, if something is asked: one line, and no bytes where nothing is wrong. Of several
/// wrong links, components or nodes it names the first. Refusal: out of memory.
///
/// ```text
/// let text = check_text(alloc, &rules, &net, Some(Check::Leader))?;
/// // of a ring in which two nodes have leader=yes: b"check: the component of node 1 has 2 leaders\n"
/// ```
pub fn check_text<P: Protocol<Node = Node>>(
    alloc: Global,
    rules: &Rulebook,
    net: &Net<P>,
    check: Option<Check>,
) -> Result<Vec<u8>, AllocError>
    ensures { IfOk result (λ text. IsChecked rules.now net.now.graph (net_of P.rules net.now).node check text.items) }
{
    match check {
        None => Ok(Vec::new(alloc)),
        Some(Check::Tree) => tree_check(alloc, rules, net),
        Some(Check::Spanning) => spanning_check(alloc, rules, net),
        Some(Check::Leader) => leader_check(alloc, rules, net),
        Some(Check::Halted) => halted_check(alloc, rules, net),
    }
}

/// Whether the marked links are the minimum spanning forest.
fn tree_check<P: Protocol<Node = Node>>(
    alloc: Global,
    rules: &Rulebook,
    net: &Net<P>,
) -> Result<Vec<u8>, AllocError>
    ensures { IfOk result (λ text. IsCheckText rules.now net.now.graph (net_of P.rules net.now).node Tree text.items) }
{
    let forest = tree_slow(alloc, net.graph())?;
    let links = seen_links(alloc, rules, net)?;
    if let Some(link) = first_by_one(&links) {
        return link_line(alloc, link.key, b" is marked branch at one end alone");
    }
    let marked = marked_by_both(alloc, &links)?;
    odd_text(alloc, first_odd(&marked, &forest))
}

/// Whether the marked links are a spanning forest.
fn spanning_check<P: Protocol<Node = Node>>(
    alloc: Global,
    rules: &Rulebook,
    net: &Net<P>,
) -> Result<Vec<u8>, AllocError>
    ensures { IfOk result (λ text. IsCheckText rules.now net.now.graph (net_of P.rules net.now).node Spanning text.items) }
{
    let graph = net.graph();
    // Read for its clause: the keys rise, and are links of nodes.
    let _ = graph.keys();
    let links = seen_links(alloc, rules, net)?;
    let marked = marked_by_some(alloc, &links)?;
    let own = span(alloc, graph.nodes(), &marked)?;
    let wanted = graph.nodes() - graph.components();
    spanning_text(alloc, marked.len(), own.tree.len(), wanted as usize)
}

/// Whether each component has one leader.
fn leader_check<P: Protocol<Node = Node>>(
    alloc: Global,
    rules: &Rulebook,
    net: &Net<P>,
) -> Result<Vec<u8>, AllocError>
    ensures { IfOk result (λ text. IsCheckText rules.now net.now.graph (net_of P.rules net.now).node Leader text.items) }
{
    let graph = net.graph();
    let counts = leader_counts(alloc, rules, net)?;
    for i in 0..graph.nodes() {
        let many = counts[i as usize + 1];
        if graph.root(i + 1) == i + 1 && many != 1 {
            return component_line(alloc, i + 1, many);
        }
    }
    Ok(Vec::new(alloc))
}

/// Whether each node has halted.
fn halted_check<P: Protocol<Node = Node>>(
    alloc: Global,
    rules: &Rulebook,
    net: &Net<P>,
) -> Result<Vec<u8>, AllocError>
    ensures { IfOk result (λ text. IsCheckText rules.now net.now.graph (net_of P.rules net.now).node Halted text.items) }
{
    for i in 0..net.graph().nodes() {
        if !halts(rules, &net.node(i + 1).state) {
            return node_line(alloc, i + 1);
        }
    }
    Ok(Vec::new(alloc))
}

/// The links of a net, in key order, with what their ends mark. Refusal: out of memory.
fn seen_links<P: Protocol<Node = Node>>(
    alloc: Global,
    rules: &Rulebook,
    net: &Net<P>,
) -> Result<Vec<Seen>, AllocError>
    ensures { IfOk result (λ links. links.items ≡ links_seen rules.now net.now.graph (net_of P.rules net.now).node) }
{
    let links = link_ports(alloc, net.graph())?;
    let mut seen = Vec::new(alloc);
    for link in links.as_slice() {
        let at_a = marks(rules, &net.node(link.key.a).state, link.at_a);
        let at_b = marks(rules, &net.node(link.key.b).state, link.at_b);
        seen.push(Seen {
            key: link.key,
            at_a,
            at_b,
        })?;
    }
    Ok(seen)
}

/// Whether a node marks a port as a branch.
fn marks(rules: &Rulebook, state: &State, port: u32) -> bool
    ensures { result ≡ bytes_eq (mark_at rules.now state.now port) (codes "branch") }
{
    mark_of(rules, state, port) == b"branch".as_slice()
}

/// The first link that one end marks alone.
fn first_by_one(links: &[Seen]) -> Option<Seen>
    ensures { result ≡ find by_one links.now }
{
    let mut rest = links;
    while let Some((link, after)) = rest.split_first() {
        if link.by_one() {
            return Some(*link);
        }
        rest = after;
    }
    None
}

/// The links that both their ends mark.
fn marked_by_both(alloc: Global, links: &[Seen]) -> Result<Vec<Key>, AllocError>
    ensures { IfOk result (λ keys. keys.items ≡ keys_where by_both links.now) }
{
    links
        .iter()
        .filter(|link| link.by_both())
        .map(|link| link.key)
        .collect(alloc)
}

/// The links that one of their ends marks at least.
fn marked_by_some(alloc: Global, links: &[Seen]) -> Result<Vec<Key>, AllocError>
    ensures { IfOk result (λ keys. keys.items ≡ keys_where by_some links.now) }
{
    links
        .iter()
        .filter(|link| link.by_some())
        .map(|link| link.key)
        .collect(alloc)
}

/// The first link that one of two lists in key order has and the other hasn't, and whether it is the first list that has it.
fn first_odd(marked: &[Key], forest: &[Key]) -> Option<(Key, bool)>
    ensures { result ≡ first_odd_of marked.now forest.now }
{
    let mut rest = forest;
    for key in marked {
        let Some((other, more)) = rest.split_first() else {
            return Some((*key, true));
        };
        if key.is_below(other) {
            return Some((*key, true));
        }
        if other.is_below(key) {
            return Some((*other, false));
        }
        rest = more;
    }
    rest.first().map(|other| (*other, false))
}

/// How many leaders the component of each node has of which it is the root, at the node's place.
fn leader_counts<P: Protocol<Node = Node>>(
    alloc: Global,
    rules: &Rulebook,
    net: &Net<P>,
) -> Result<Vec<u32>, AllocError>
    ensures places { IfOk result (λ counts. length counts.items ≡ net.now.graph.nodes + 1) }
    ensures counts { IfOk result (λ counts. (root : ℕ → ℕ) → AreRootsBy net.now.graph root → (r : ℕ) → r ≤ net.now.graph.nodes → slice_index counts.items r ≡ leaders rules.now net.now.graph (net_of P.rules net.now).node root r) }
{
    let graph = net.graph();
    let mut counts = vec![in alloc; 0u32; graph.nodes() as usize + 1]?;
    for i in 0..graph.nodes() {
        if leads(rules, &net.node(i + 1).state) {
            counts[graph.root(i + 1) as usize] += 1;
        }
    }
    Ok(counts)
}

/// Whether a node leads.
fn leads(rules: &Rulebook, state: &State) -> bool
    ensures { result ≡ leads rules.now state.now }
{
    match state {
        State::Runs {
            text,
            asleep: _,
            left: _,
        } => says_leader(rules.text(*text)),
        State::Stopped(_) => false,
    }
}

/// Whether a node has halted.
fn halts(rules: &Rulebook, state: &State) -> bool
    ensures { result ≡ halts rules.now state.now }
{
    match state {
        State::Runs {
            text,
            asleep: _,
            left: _,
        } => says_halted(rules.text(*text)),
        State::Stopped(_) => false,
    }
}

/// What is said of a link that is only marked, or only in the forest.
fn odd_text(alloc: Global, odd: Option<(Key, bool)>) -> Result<Vec<u8>, AllocError>
    ensures { IfOk result (λ text. text.items ≡ odd_text odd) }
{
    match odd {
        None => Ok(Vec::new(alloc)),
        Some((key, true)) => link_line(
            alloc,
            key,
            b" is marked, and is not in the minimum spanning forest",
        ),
        Some((key, false)) => link_line(
            alloc,
            key,
            b" is not marked, and is in the minimum spanning forest",
        ),
    }
}

/// What is said of so many marked links, whose own forest and that of the graph have so many.
fn spanning_text(
    alloc: Global,
    many: usize,
    own: usize,
    wanted: usize,
) -> Result<Vec<u8>, AllocError>
    ensures { IfOk result (λ text. text.items ≡ spanning_text many own wanted) }
{
    if own < many {
        return Vec::from_slice(alloc, b"check: the marked links have a cycle\n");
    }
    if many == wanted {
        return Ok(Vec::new(alloc));
    }
    marked_line(alloc, many, wanted)
}

#[tactic(auto, unfolding(crate::specs::Check::link_line))]
fn link_line(alloc: Global, key: Key, back: &[u8]) -> Result<Vec<u8>, AllocError>
    ensures { IfOk result (λ text. text.items ≡ link_line key back.now) }
{
    let mut text = Vec::new(alloc);
    text.extend_from_slice(b"check: link ")?;
    put_key(&mut text, key)?;
    text.extend_from_slice(back)?;
    text.extend_from_slice(b"\n")?;
    Ok(text)
}

#[tactic(auto, unfolding(crate::specs::Check::marked_line))]
fn marked_line(alloc: Global, many: usize, wanted: usize) -> Result<Vec<u8>, AllocError>
    ensures { IfOk result (λ text. text.items ≡ marked_line many wanted) }
{
    let mut text = Vec::new(alloc);
    text.extend_from_slice(b"check: ")?;
    put_number(&mut text, many as u128)?;
    text.extend_from_slice(b" links are marked, and a spanning forest has ")?;
    put_number(&mut text, wanted as u128)?;
    text.extend_from_slice(b"\n")?;
    Ok(text)
}

#[tactic(auto, unfolding(crate::specs::Check::component_line))]
fn component_line(alloc: Global, root: u32, many: u32) -> Result<Vec<u8>, AllocError>
    ensures { IfOk result (λ text. text.items ≡ component_line root many) }
{
    let mut text = Vec::new(alloc);
    text.extend_from_slice(b"check: the component of node ")?;
    put_number(&mut text, root as u128)?;
    text.extend_from_slice(b" has ")?;
    put_number(&mut text, many as u128)?;
    text.extend_from_slice(b" leaders\n")?;
    Ok(text)
}

#[tactic(auto, unfolding(crate::specs::Check::node_line))]
fn node_line(alloc: Global, node: u32) -> Result<Vec<u8>, AllocError>
    ensures { IfOk result (λ text. text.items ≡ node_line node) }
{
    let mut text = Vec::new(alloc);
    text.extend_from_slice(b"check: node ")?;
    put_number(&mut text, node as u128)?;
    text.extend_from_slice(b" has not halted\n")?;
    Ok(text)
}
