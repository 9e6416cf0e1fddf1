//! One pass over the lines of a text, up to the first fault.
ghost use Rattle.ghs_gr.specs.Fault.{line_fault as line_fault_of};
ghost use Rattle.ghs_gr.specs.Line.{meanings};
ghost use Rattle.ghs_gr.specs.Pass.{IsPass, IsSomePass, Notes};
ghost use Rattle.ghs_gr.specs.Problem.{sizes_of};
ghost use Rattle.ghs_gr.specs.declared.line.Line.{Line};
ghost use Rattle.std.specs.Option.{option_map};
ghost use Rattle.std.specs.Prelude.{IfOk, List, None, [], length, ◌++◌, ◌+◌, ◌<◌, ◌≡◌, ◌≤◌, ◌∷◌};

use crate::check::line_fault;
use crate::fault::LineFault;
use crate::key::put_key;
use crate::line::{Line, next_meaning};
use crate::problem::Problem;
use crate::raw_graph::Key3;
use crate::text::TEXT_LIMIT;
use std::alloc::{AllocError, Global};

/// What a pass over lines has found.
#[derive(Drop)]
pub struct Pass {
    /// The problem line.
    pub problem: Option<Problem>,
    /// How many arc lines there are.
    pub found: u32,
    /// The keys of their links, in no order. A key may stand more than once.
    pub keys: Vec<Key3>,
    /// How many lines there are.
    pub lines: u32,
    /// The fault of the line behind these, where there is one.
    pub fault: Option<LineFault>,
}

impl Pass {
    /// A pass over no line.
    pub fn new(alloc: Global) -> Pass
        ensures pass { IsPass [] result }
        ensures lines { result.lines ≡ 0 }
    {
        Pass {
            problem: None,
            found: 0,
            keys: Vec::new(alloc),
            lines: 0,
            fault: None,
        }
    }

    /// Goes on over the lines of this text, up to the first fault.
    pub fn go_over(&mut self, text: &[u8]) -> Result<(), AllocError>
        requires pass { IsSomePass self.old }
        requires room { self.old.lines + length text.now ≤ TEXT_LIMIT }
        ensures pass { IfOk result (λ _. (lines : List Line) → IsPass lines self.old → IsPass (lines ++ meanings text.now) self.new) }
        ensures lines { IfOk result (λ _. self.new.lines ≤ self.old.lines + length text.now) }
    {
        let mut rest = text;
        'lines: while let Some((line, after)) = next_meaning(rest) {
            if self.fault.is_some() {
                return Ok(());
            }
            self.take(line)?;
            rest = after;
        }
        Ok(())
    }

    /// Takes one more line.
    fn take(&mut self, line: Line) -> Result<(), AllocError>
        requires pass { IsSomePass self.old }
        requires sound { self.old.fault ≡ None }
        requires room { self.old.lines < TEXT_LIMIT }
        ensures pass { IfOk result (λ _. (lines : List Line) → IsPass lines self.old → IsPass (lines ++ line ∷ []) self.new) }
        ensures lines { IfOk result (λ _. self.new.lines ≤ self.old.lines + 1) }
    {
        self.fault = line_fault(self.problem, line);
        if self.fault.is_none() {
            self.note(line)?;
            self.lines += 1;
        }
        Ok(())
    }

    /// Takes note of what a line without a fault says.
    fn note(&mut self, line: Line) -> Result<(), AllocError>
        requires sound { line_fault_of (option_map sizes_of self.old.problem) line ≡ None }
        requires room { self.old.found < TEXT_LIMIT }
        ensures notes { IfOk result (λ _. Notes line self.old self.new) }
        ensures lines { IfOk result (λ _. self.new.lines ≡ self.old.lines) }
        ensures fault { IfOk result (λ _. self.new.fault ≡ self.old.fault) }
    {
        match line {
            Line::Problem(Some(nodes), Some(arcs)) => {
                self.problem = Some(Problem { nodes, arcs });
            }
            Line::Arc(Some(arc)) => {
                self.found += 1;
                if let Some(key) = arc.link() {
                    put_key(&mut self.keys, key)?;
                }
            }
            _ => {}
        }
        Ok(())
    }
}
