//! The ports of all nodes in one list, each node's in a block of its own.
ghost use Rattle.std.specs.Prelude.{◌≡◌, ◌<◌, ◌≤◌, ◌+◌, ◌^◌, ◌↔◌, [], length, sum, slice_index, slice_range, IfOk, OnOk, IsTrue};
ghost use Rattle.ghs_graph.specs.Links.{AreAmong, IsRising};
ghost use Rattle.ghs_graph.specs.Layout.{AreDegrees, AreStarts, AreBlocks, ArePlaced, AreRightBelow, AreLaid};

use crate::key::Key;
use crate::port::Port;
use ghs_gr::raw_graph::{ARC_LIMIT, NODE_LIMIT};
use std::alloc::{AllocError, Global};

/// The ports, and where the block of each number from 0 to one above the nodes begins among them.
#[derive(Debug, Drop)]
pub struct Layout {
    pub starts: Vec<u32>,
    pub ports: Vec<Port>,
}

/// Which port of each of its ends a link is.
#[derive(Clone, Copy, Debug)]
pub struct Places {
    pub a: u32,
    pub b: u32,
}

/// How many nodes' ports are written in one pass over the links. Links come in key order, so their ports lie far apart:
/// in a large graph, passes that each write to a part of them are several times as fast as one that writes to all.
const NODES_OF_PASS: u32 = 131_072;

/// Lays out the ports of all nodes.
pub fn lay(alloc: Global, nodes: u32, keys: &[Key]) -> Result<Layout, AllocError>
    requires among { AreAmong nodes keys.now }
    requires rising { IsRising keys.now }
    requires nodes { nodes ≤ NODE_LIMIT }
    requires links { length keys.now ≤ ARC_LIMIT }
    ensures { IfOk result (λ l. AreLaid nodes keys.now l.starts.items l.ports.items) }
{
    let mut counts = vec![in alloc; 0u32; nodes as usize + 1]?;
    let places = places_of(alloc, nodes, keys, &mut counts)?;
    let starts = starts_of(alloc, &counts)?;
    let ports = fill(alloc, nodes, keys, &places, &starts)?;
    Ok(Layout { starts, ports })
}

/// The block of a node.
pub fn block<'a>(ports: &'a [Port], starts: &[u32], v: u32) -> &'a [Port]
    requires next { v + 1 < length starts.now }
    requires order { slice_index starts.now v ≤ slice_index starts.now (v + 1) }
    requires end { slice_index starts.now (v + 1) ≤ length ports.now }
    ensures { result.now ≡ slice_range ports.now (slice_index starts.now v) (slice_index starts.now (v + 1)) }
{
    let from = starts[v as usize];
    let to = starts[v as usize + 1];
    &ports[from as usize..to as usize]
}

/// Which ports the links are, and how many each node has. No link ends at 0.
fn places_of(
    alloc: Global,
    nodes: u32,
    keys: &[Key],
    counts: &mut Vec<u32>,
) -> Result<Vec<Places>, AllocError>
    requires among { AreAmong nodes keys.now }
    requires nodes { nodes ≤ NODE_LIMIT }
    requires links { length keys.now ≤ ARC_LIMIT }
    requires none { AreDegrees nodes [] counts.old.items }
    ensures places { IfOk result (λ q. ArePlaced keys.now (length keys.now) q.items) }
    ensures counts { OnOk result (AreDegrees nodes keys.now counts.new.items) }
{
    let mut places = Vec::with_capacity(alloc, keys.len())?;
    for key in keys {
        let a = key.a as usize;
        let b = key.b as usize;
        let at_a = counts[a];
        let at_b = counts[b];
        places.push(Places { a: at_a, b: at_b })?;
        counts[a] = at_a + 1;
        counts[b] = at_b + 1;
    }
    Ok(places)
}

/// Where each block begins, and where the last one ends.
fn starts_of(alloc: Global, counts: &[u32]) -> Result<Vec<u32>, AllocError>
    requires short { length counts.now < 2 ^ 32 }
    requires fits { sum counts.now < 2 ^ 32 }
    ensures { IfOk result (λ s. AreStarts counts.now s.items) }
{
    let mut starts = Vec::with_capacity(alloc, counts.len() + 1)?;
    let mut at = 0;
    for count in counts {
        starts.push(at)?;
        at += *count;
    }
    starts.push(at)?;
    Ok(starts)
}

/// The ports of all nodes, each node's in its block.
fn fill(
    alloc: Global,
    nodes: u32,
    keys: &[Key],
    places: &[Places],
    starts: &[u32],
) -> Result<Vec<Port>, AllocError>
    requires among { AreAmong nodes keys.now }
    requires rising { IsRising keys.now }
    requires nodes { nodes ≤ NODE_LIMIT }
    requires links { length keys.now ≤ ARC_LIMIT }
    requires places { ArePlaced keys.now (length keys.now) places.now }
    requires blocks { AreBlocks nodes keys.now starts.now }
    ensures { IfOk result (λ p. AreLaid nodes keys.now starts.now p.items) }
{
    let none = Port {
        key: Key {
            weight: 0,
            a: 0,
            b: 0,
        },
        far: 0,
        far_port: 0,
    };
    let mut ports = vec![in alloc; none; starts[nodes as usize + 1] as usize]?;
    for pass in 0..nodes / NODES_OF_PASS + 1 {
        let from = pass * NODES_OF_PASS;
        fill_from(nodes, keys, places, starts, &mut ports, from);
    }
    Ok(ports)
}

/// The ports of `NODES_OF_PASS` numbers, from one number on.
fn fill_from(
    nodes: u32,
    keys: &[Key],
    places: &[Places],
    starts: &[u32],
    ports: &mut Vec<Port>,
    from: u32,
)
    requires among { AreAmong nodes keys.now }
    requires rising { IsRising keys.now }
    requires nodes { nodes ≤ NODE_LIMIT }
    requires links { length keys.now ≤ ARC_LIMIT }
    requires from { from ≤ NODE_LIMIT }
    requires places { ArePlaced keys.now (length keys.now) places.now }
    requires blocks { AreBlocks nodes keys.now starts.now }
    requires room { length ports.old.items ≡ slice_index starts.now (nodes + 1) }
    requires right { AreRightBelow from keys.now starts.now ports.old.items }
    ensures room { length ports.new.items ≡ length ports.old.items }
    ensures right { AreRightBelow (from + NODES_OF_PASS) keys.now starts.now ports.new.items }
{
    let to = from + NODES_OF_PASS;
    for (i, key) in keys.iter().enumerate() {
        let place = places[i];
        if is_within(key.a, from, to) {
            ports[(starts[key.a as usize] + place.a) as usize] = Port {
                key: *key,
                far: key.b,
                far_port: place.b,
            };
        }
        if is_within(key.b, from, to) {
            ports[(starts[key.b as usize] + place.b) as usize] = Port {
                key: *key,
                far: key.a,
                far_port: place.a,
            };
        }
    }
}

fn is_within(v: u32, from: u32, to: u32) -> bool
    ensures { IsTrue result ↔ ((from ≤ v) × (v < to)) }
{
    from <= v && v < to
}
