//! A trace's text, read line by line.
ghost use Rattle.peer_texts.specs.Reading.{HaveFault, IsTrace, events_in, head_in, line_fault as line_fault_of};
ghost use Rattle.peer_texts.specs.Reads.{HasRead};
ghost use Rattle.peer_texts.specs.declared.fault.TraceFault.TheVariants.{Memory};
ghost use Rattle.peer_texts.specs.declared.line.Line.{Line};
ghost use Rattle.std.specs.Option.{option_or};
ghost use Rattle.std.specs.Prelude.{IfErr, IfOk, List, None, [], ◌++◌, ◌+◌, ◌<◌, ◌^◌, ◌∷◌, ◌≡◌, ◌≢◌};

use crate::fault::{LineFault, TraceFault};
use crate::line::Line;
use peer_network::event::Event;
use std::alloc::{AllocError, Global};

/// What lines without a fault have said.
#[derive(Drop)]
pub struct Reading {
    /// The number of events that the head said.
    pub said: Option<u64>,
    /// The events so far.
    pub events: Vec<Event>,
    /// How many lines there are.
    pub lines: u64,
}

impl Reading {
    /// No line has been read.
    pub fn new(alloc: Global) -> Reading
        ensures { HasRead [] result }
    {
        Reading {
            said: None,
            events: Vec::new(alloc),
            lines: 0,
        }
    }

    /// Takes one more line.
    pub fn take(&mut self, line: Line) -> Result<(), TraceFault>
        requires room { self.old.lines + 1 < 2 ^ 64 }
        ensures read { IfOk result (λ _. (lines : List Line) → HasRead lines self.old → HasRead (lines ++ line ∷ []) self.new) }
        ensures fault { IfErr result (λ fault. fault ≢ Memory → (lines more : List Line) → HasRead lines self.old → HaveFault (lines ++ line ∷ more) fault) }
        ensures lines { self.new.lines ≡ self.old.lines + 1 }
    {
        self.lines += 1;
        if let Some(fault) = line_fault(self.said, line) {
            return Err(TraceFault::at(fault, self.lines));
        }
        self.note(line)?;
        Ok(())
    }

    /// Takes note of what a line without a fault says.
    fn note(&mut self, line: Line) -> Result<(), AllocError>
        requires { line_fault_of self.old.said line ≡ None }
        ensures said { IfOk result (λ _. self.new.said ≡ option_or self.old.said (head_in (line ∷ []))) }
        ensures events { IfOk result (λ _. self.new.events.items ≡ self.old.events.items ++ events_in (line ∷ [])) }
        ensures lines { self.new.lines ≡ self.old.lines }
    {
        match line {
            Line::Head(count) => {
                self.said = count;
            }
            Line::Wake(Some(v)) => {
                self.events.push(Event::Wake(v))?;
            }
            Line::Take(Some(v), Some(port)) => {
                self.events.push(Event::Take(v, port))?;
            }
            _ => {}
        }
        Ok(())
    }

    /// What the lines are that have been read.
    pub fn conclude(self) -> Result<Vec<Event>, TraceFault>
        ensures events { IfOk result (λ events. (lines : List Line) → HasRead lines self → IsTrace lines events.items) }
        ensures fault { IfErr result (λ fault. (lines : List Line) → HasRead lines self → HaveFault lines fault) }
    {
        let Reading { said, events, .. } = self;
        let Some(said) = said else {
            return Err(TraceFault::BadLine(1));
        };
        let found = events.len() as u64;
        if said != found {
            return Err(TraceFault::Count { said, found });
        }
        Ok(events)
    }
}

/// The first fault of a line, where this is what the head before it says.
fn line_fault(head: Option<u64>, line: Line) -> Option<LineFault>
    ensures { result ≡ line_fault_of head line }
{
    let is_number = match (head, line) {
        (_, Line::Passed) => return None,
        (None, Line::Head(count)) => count.is_some(),
        (Some(_), Line::Wake(node)) => node.is_some(),
        (Some(_), Line::Take(node, port)) => node.is_some() && port.is_some(),
        _ => return Some(LineFault::BadLine),
    };
    if is_number {
        None
    } else {
        Some(LineFault::Number)
    }
}
