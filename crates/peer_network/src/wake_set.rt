//! Which nodes may wake by themselves.
ghost use Rattle.std.specs.Prelude.{◌≡◌, ◌≤◌, nat_lt};
ghost use Rattle.std.specs.List.{find, list_any};
ghost use Rattle.peer_network.specs.Wakes.{is_in, is_under, is_woken, may_wake, missing};

use ghs_graph::graph::Graph;

/// How many nodes a wake set lists at most.
pub const MOST_WAKERS: usize = 16;

/// Nodes that are listed one by one; 0 stands where none is.
#[derive(Clone, Copy, Debug, PartialEq, Eq)]
pub struct Wakers {
    pub nodes: [u32; MOST_WAKERS],
}

impl Wakers {
    /// Whether a node of the graph may wake by itself: it is listed, or no node of its component is and it is the least of that.
    fn wake(&self, graph: &Graph, v: u32) -> bool
        requires low { 1 ≤ v }
        requires high { v ≤ graph.now.nodes }
        ensures { result ≡ is_woken graph.now self.now.nodes v }
    {
        self.nodes.contains(&v) || (graph.root(v) == v && !self.are_under(graph, v))
    }

    /// Whether one of them is in the component of this root.
    fn are_under(&self, graph: &Graph, root: u32) -> bool
        ensures { result ≡ list_any (is_under graph.now root) self.now.nodes }
    {
        for waker in self.nodes {
            if is_under(graph, root, waker) {
                return true;
            }
        }
        false
    }
}

/// The first number above the most.
fn first_above(numbers: &[u32], most: u32) -> Option<u32>
    ensures { result ≡ find (λ n. nat_lt most n) numbers.now }
{
    for number in numbers {
        if most < *number {
            return Some(*number);
        }
    }
    None
}

/// Whether a number is that of a node in the component of a root.
fn is_under(graph: &Graph, root: u32, waker: u32) -> bool
    ensures { result ≡ is_under graph.now root waker }
{
    is_in(graph, waker) && graph.root(waker) == root
}

/// Whether a number is that of a node.
fn is_in(graph: &Graph, waker: u32) -> bool
    ensures { result ≡ is_in graph.now waker }
{
    1 <= waker && waker <= graph.nodes()
}

/// Which nodes of a graph may wake by themselves: all; the least of each component; or those that are listed, and of each
/// component without one the least.
#[derive(Clone, Copy, Debug, PartialEq, Eq)]
pub enum WakeSet {
    All,
    First,
    Listed(Wakers),
}

impl WakeSet {
    /// Whether a node of the graph may wake by itself.
    pub fn has(self, graph: &Graph, v: u32) -> bool
        requires low { 1 ≤ v }
        requires high { v ≤ graph.now.nodes }
        ensures { result ≡ may_wake graph.now self v }
    {
        match self {
            WakeSet::All => true,
            WakeSet::First => graph.root(v) == v,
            WakeSet::Listed(wakers) => wakers.wake(graph, v),
        }
    }

    /// The first node that is listed and that a graph of so many nodes doesn't have.
    pub fn missing(self, nodes: u32) -> Option<u32>
        ensures { result ≡ missing self nodes }
    {
        match self {
            WakeSet::All | WakeSet::First => None,
            WakeSet::Listed(wakers) => first_above(&wakers.nodes, nodes),
        }
    }
}
