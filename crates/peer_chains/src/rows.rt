//! The numbers that wait at the ports of all nodes.
ghost use Rattle.peer_chains.specs.Kept.{ChangesLine, line_of, stepped};
ghost use Rattle.peer_chains.specs.Rows.{AreBases};
ghost use Rattle.ghs_graph.specs.Ports.{ports_of};
ghost use Rattle.std.specs.List.{slice_index_or};
ghost use Rattle.std.specs.Prelude.{◌≡◌, ◌+◌, ◌<◌, ◌≤◌, ◌++◌, [], ◌∷◌, ℕ, IfOk, length, OnOk, slice_get, slice_index};

use crate::line::Line;
use ghs_graph::graph::Graph;
use std::alloc::{AllocError, Global};
use std::marker::Model;

/// A line for each port of each node. All stand in one list, so that the way to a line is short.
#[derive(Debug, Drop)]
pub struct Rows {
    /// By the numbers of nodes where their lines begin, and behind the last node where its lines end; 0 is none.
    bases: Vec<u32>,
    lines: Vec<Line>,
}

impl Model for Rows {
    ghost use Rattle.peer_chains.specs.Rows.{AreRising, rows_from};
    ghost use Rattle.std.specs.Prelude.{ℕ, List};

    ghost Value = { List (List (List ℕ)) };

    ghost view = { λ r. rows_from r.bases.items r.lines.items };

    ghost invariant = { λ r. AreRising r.bases.items };
}

impl Rows {
    /// Lines without a number, for the ports of a graph.
    pub fn none(alloc: Global, graph: &Graph) -> Result<Rows, AllocError>
        ensures count { IfOk result (λ r. length r ≡ graph.now.nodes + 1) }
        ensures ports { IfOk result (λ r. (v : ℕ) → 1 ≤ v → v ≤ graph.now.nodes →
            length (slice_index_or r v []) ≡ length (ports_of graph.now.keys v)) }
        ensures empty { IfOk result (λ r. (v p : ℕ) → line_of r v p ≡ []) }
    {
        let bases = lay_bases(alloc, graph)?;
        let last = graph.nodes() as usize + 1;
        let lines = empty_lines(alloc, bases[last] as usize)?;
        Ok(Rows { bases, lines })
    }

    /// A number more at a port.
    pub fn push(&mut self, alloc: Global, v: u32, port: u32, number: u64) -> Result<(), AllocError>
        requires node { v < length self.old }
        requires place { port < length (slice_index_or self.old v []) }
        ensures { OnOk result (ChangesLine self.old self.new v port (line_of self.old v port ++ number ∷ [])) }
    {
        let at = place_of(&self.bases, v, port);
        self.lines[at].push(alloc, number)?;
        Ok(())
    }

    /// The number at a place of a port's line, counted from 0.
    pub fn get(&self, v: u32, port: u32, place: usize) -> Option<u64>
        requires node { v < length self.now }
        requires place { port < length (slice_index_or self.now v []) }
        ensures { result ≡ slice_get (line_of self.now v port) place }
    {
        let at = place_of(&self.bases, v, port);
        self.lines[at].get(place)
    }

    /// The first number of a port, which is taken out, and where it is deferred put behind the others.
    pub fn step(&mut self, v: u32, port: u32, deferred: bool) -> Result<Option<u64>, AllocError>
        requires node { v < length self.old }
        requires place { port < length (slice_index_or self.old v []) }
        ensures first { IfOk result (λ n. n ≡ slice_get (line_of self.old v port) 0) }
        ensures left { OnOk result (ChangesLine self.old self.new v port (stepped deferred (line_of self.old v port))) }
    {
        let at = place_of(&self.bases, v, port);
        let number = self.lines[at].step(deferred)?;
        Ok(number)
    }
}

/// Where the lines of each node begin, and where those of the last one end.
fn lay_bases(alloc: Global, graph: &Graph) -> Result<Vec<u32>, AllocError>
    ensures { IfOk result (λ bs. AreBases graph.now graph.now.nodes bs.items) }
{
    let nodes = graph.nodes();
    let mut bases = Vec::with_capacity(alloc, nodes as usize + 2)?;
    bases.push(0)?;
    bases.push(0)?;
    let mut end = 0;
    for i in 0..nodes {
        end += graph.ports(i + 1).len() as u32;
        bases.push(end)?;
    }
    Ok(bases)
}

/// So many lines without a number.
fn empty_lines(alloc: Global, count: usize) -> Result<Vec<Line>, AllocError>
    ensures count { IfOk result (λ ls. length ls.items ≡ count) }
    ensures empty { IfOk result (λ ls. (i : ℕ) → slice_index_or ls.items i [] ≡ []) }
{
    let mut lines = Vec::with_capacity(alloc, count)?;
    for _ in 0..count {
        lines.push(Line::new())?;
    }
    Ok(lines)
}

/// Where the line of a port stands. O(1).
fn place_of(bases: &[u32], v: u32, port: u32) -> usize
    requires { v < length bases.now }
    ensures { result ≡ slice_index bases.now v + port }
{
    bases[v as usize] as usize + port as usize
}
