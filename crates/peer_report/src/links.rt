//! The ports that links are.
ghost use Rattle.std.specs.Prelude.{◌≡◌, IfOk, map};
ghost use Rattle.peer_report.specs.Links.{AreWithin, on_link};

use ghs_graph::graph::Graph;
use ghs_graph::key::Key;
use std::alloc::{AllocError, Global};

/// A link, and the number of the port that it is at each of its ends.
#[derive(Clone, Copy, Debug, PartialEq, Eq)]
pub struct LinkPorts {
    pub key: Key,
    pub at_a: u32,
    pub at_b: u32,
}

/// The links of a graph, in key order, each with its ports: O(N + E). Refusal: out of memory.
///
/// ```text
/// let links = link_ports(alloc, &graph)?;
/// // of the nodes 1 to 3 with links 1-2 and 2-3, the first with the smaller key, links[1].at_a is 1, and links[1].at_b is 0
/// ```
pub fn link_ports(alloc: Global, graph: &Graph) -> Result<Vec<LinkPorts>, AllocError>
    ensures links { IfOk result (λ links. links.items ≡ map (on_link graph.now.keys) graph.now.keys) }
    ensures ends { IfOk result (λ links. AreWithin graph.now.nodes links.items) }
{
    let mut links = Vec::new(alloc);
    // The port that each node has on its next link.
    let mut ports = vec![in alloc; 0u32; graph.nodes() as usize + 1]?;
    for key in graph.keys() {
        let a = key.a as usize;
        let b = key.b as usize;
        let at_a = ports[a];
        let at_b = ports[b];
        links.push(LinkPorts {
            key: *key,
            at_a,
            at_b,
        })?;
        ports[a] += 1;
        ports[b] += 1;
    }
    Ok(links)
}
