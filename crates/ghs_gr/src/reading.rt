//! A text that is gone over while it is read.
ghost use Rattle.ghs_gr.specs.Line.{meanings};
ghost use Rattle.ghs_gr.specs.Pass.{IsPass};
ghost use Rattle.ghs_gr.specs.Reading.{EndsInFeed, HasNoFeed, HasTaken};
ghost use Rattle.std.specs.Prelude.{IfNone, IfOk, IfSome, List, [], length, ◌++◌, ◌≡◌, ◌≤◌, ℕ};

use crate::pass::Pass;
use crate::text::{TEXT_LIMIT, Taker};
use std::alloc::{AllocError, Global};

/// A pass over the lines of a text that comes in chunks. Of the text itself only a line whose end hasn't come yet is
/// kept.
#[derive(Drop)]
pub struct Reading {
    /// The pass over the lines whose line feed has come.
    pub pass: Pass,
    /// What has come of the line behind them.
    pub cut: Vec<u8>,
}

impl Reading {
    /// Before the first chunk.
    pub fn new(alloc: Global) -> Reading
        ensures { HasTaken result [] }
    {
        Reading {
            pass: Pass::new(alloc),
            cut: Vec::new(alloc),
        }
    }

    /// The pass over the whole text, when all its chunks have come.
    pub fn end(self) -> Result<Pass, AllocError>
        requires { (text : List ℕ) × HasTaken self text × (length text ≤ TEXT_LIMIT) }
        ensures pass { IfOk result (λ pass. (text : List ℕ) → HasTaken self text → IsPass (meanings text) pass) }
        ensures lines { IfOk result (λ pass. pass.lines ≤ TEXT_LIMIT) }
    {
        let Reading { mut pass, cut } = self;
        pass.go_over(cut.as_slice())?;
        Ok(pass)
    }
}

impl Taker for Reading {
    ghost has_taken = { λ reading text. HasTaken reading text };

    fn take(&mut self, chunk: &[u8]) -> Result<(), AllocError> {
        match whole_lines(chunk) {
            Some((lines, rest)) => {
                self.cut.extend_from_slice(lines)?;
                self.pass.go_over(self.cut.as_slice())?;
                self.cut.clear();
                self.cut.extend_from_slice(rest)?;
            }
            None => self.cut.extend_from_slice(chunk)?,
        }
        Ok(())
    }
}

/// The bytes up to the last line feed, and those behind it, where there is one.
fn whole_lines(bytes: &[u8]) -> Option<(&[u8], &[u8])>
    ensures cut { IfSome result (λ x. bytes.now ≡ x.0.now ++ x.1.now) }
    ensures feed { IfSome result (λ x. EndsInFeed x.0.now) }
    ensures last { IfSome result (λ x. HasNoFeed x.1.now) }
    ensures none { IfNone result (HasNoFeed bytes.now) }
{
    let mut end = bytes.len();
    while end > 0 {
        if bytes[end - 1] == b'\n' {
            return Some(bytes.split_at(end));
        }
        end -= 1;
    }
    None
}
