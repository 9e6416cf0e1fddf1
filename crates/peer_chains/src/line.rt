//! The numbers that wait at one port.
ghost use Rattle.peer_chains.specs.Kept.{stepped};
ghost use Rattle.std.specs.Prelude.{◌≡◌, ◌++◌, [], ◌∷◌, ℕ, IfOk, OnOk, slice_get};

use std::alloc::{AllocError, Global};
use std::collections::VecDeque;
use std::marker::Model;

/// The numbers of a line. Most lines have two at most, and then take no memory of their own; a line that has had three
/// keeps its memory.
#[derive(Debug, Drop)]
enum Held {
    Nothing,
    One(u64),
    Two(u64, u64),
    Many(Box<VecDeque<u64>>),
}

/// The numbers that wait at a port, the first come first.
#[derive(Debug, Drop)]
pub struct Line {
    held: Held,
}

impl Model for Line {
    ghost use Rattle.peer_chains.specs.Held.{numbers_in};
    ghost use Rattle.std.specs.Prelude.{ℕ, List};

    ghost Value = { List ℕ };

    ghost view = { λ l. numbers_in l.held };
}

impl Line {
    /// No number.
    pub fn new() -> Line
        ensures { result ≡ [] }
    {
        Line {
            held: Held::Nothing,
        }
    }

    /// A number more, the last.
    pub fn push(&mut self, alloc: Global, number: u64) -> Result<(), AllocError>
        ensures { OnOk result (self.new ≡ self.old ++ number ∷ []) }
    {
        match &mut self.held {
            Held::Nothing => {
                self.held = Held::One(number);
            }
            Held::One(first) => {
                self.held = Held::Two(*first, number);
            }
            Held::Two(first, second) => {
                let mut more = VecDeque::new(alloc);
                more.push_back(*first)?;
                more.push_back(*second)?;
                more.push_back(number)?;
                self.held = Held::Many(Box::new(alloc, more)?);
            }
            Held::Many(more) => more.push_back(number)?,
        }
        Ok(())
    }

    /// The number at a place, counted from 0.
    pub fn get(&self, place: usize) -> Option<u64>
        ensures { result ≡ slice_get self.now place }
    {
        match &self.held {
            Held::Nothing => None,
            Held::One(first) => { if place == 0 { Some(*first) } else { None } }
            Held::Two(first, second) => match place {
                0 => Some(*first),
                1 => Some(*second),
                _ => None,
            },
            Held::Many(more) => more.get(place).copied(),
        }
    }

    /// Takes the first number out, and where it is deferred puts it behind the others.
    pub fn step(&mut self, deferred: bool) -> Result<Option<u64>, AllocError>
        ensures first { IfOk result (λ n. n ≡ slice_get self.old 0) }
        ensures left { OnOk result (self.new ≡ stepped deferred self.old) }
    {
        match &mut self.held {
            Held::Nothing => Ok(None),
            Held::One(first) => {
                let number = *first;
                if !deferred {
                    self.held = Held::Nothing;
                }
                Ok(Some(number))
            }
            Held::Two(first, second) => {
                let number = *first;
                let next = *second;
                if deferred {
                    self.held = Held::Two(next, number);
                } else {
                    self.held = Held::One(next);
                }
                Ok(Some(number))
            }
            Held::Many(more) => {
                let Some(number) = more.pop_front() else {
                    return Ok(None);
                };
                if deferred {
                    more.push_back(number)?;
                }
                Ok(Some(number))
            }
        }
    }
}
