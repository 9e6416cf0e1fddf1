//! The rows that apply in a run, kept from event to event.
ghost use Rattle.std.specs.Prelude.{◌≡◌, ◌<◌, ◌-◌, ◌^◌, [], false, length, All, IfOk, OnOk};
ghost use Rattle.ghs_graph.specs.Graph.{Shape};
ghost use Rattle.peer_network.specs.declared.event.Event.{Event as Happening};
ghost use Rattle.peer_parts.specs.Kept.{AreRowParts, IsPlaceOf, IsRowOf, with_use};

use peer_machine::event::Event;
use peer_net::net::Net;
use peer_runs::follower::Follower;
use peer_steps::moment::row_at;
use peer_words::fixed_words::FixedWords;
use peer_words::value::Word;
use std::alloc::{AllocError, Global};
use std::marker::Model;

/// A row, and how often it has applied.
#[derive(Drop)]
pub struct RowCount {
    pub row: Word<'static>,
    pub times: u64,
}

/// The rows that have applied in a run, by its events so far.
///
/// ```text
/// let mut rows = RowParts::none(alloc);
/// run_followed(alloc, &mut world, &mut Schedule::seeded(7), 1 << 40, &mut rows)?;
/// // rows.all()?[0].row is that of the run's first event, a wake
/// ```
#[derive(Drop)]
pub struct RowParts {
    list: Vec<RowCount>,
    /// Memory was refused, so the rows are of no use.
    lost: bool,
}

impl Model for RowParts {
    ghost use Rattle.peer_parts.specs.Kept.{RowsState};

    ghost Value = { RowsState };

    ghost view = { λ p. record { list = p.list.items; lost = p.lost } };
}

impl RowParts {
    /// Those of a run that has no event yet.
    pub fn none(alloc: Global) -> RowParts
        ensures list { result.list ≡ [] }
        ensures kept { result.lost ≡ false }
    {
        RowParts {
            list: Vec::new(alloc),
            lost: false,
        }
    }

    /// The rows, in the order in which they applied first. Refusal: out of memory, at an event of the run.
    pub fn all(&self) -> Result<&[RowCount], AllocError>
        ensures list { IfOk result (λ rows. rows.now ≡ self.now.list) }
        ensures kept { OnOk result (self.now.lost ≡ false) }
    {
        if self.lost {
            Err(AllocError)
        } else {
            Ok(&self.list)
        }
    }
}

/// The row by which an event's node reacts.
#[derive(Clone, Copy, Debug)]
pub struct Seen {
    pub row: &'static [u8],
}

/// They follow the events of their run.
impl<P: FixedWords> Follower<P> for RowParts {
    type Seen = Seen;

    ghost is_of = { λ g es p. AreRowParts P.rules P.words g es p };

    ghost has_seen = { λ s e x. IsRowOf P.rules P.words s e x.row.now };

    fn look(&self, net: &Net<P>, event: Event) -> Result<Seen, AllocError> {
        if self.lost {
            return Err(AllocError);
        }
        Ok(Seen {
            row: row_at(net, event).letters(),
        })
    }

    /// O(R) where R rows have applied.
    fn follow(&mut self, net: &Net<P>, _event: Event, seen: Seen, _sends: &[(u32, P::Message)]) {
        are_few(net.trace());
        if !self.lost {
            self.lost = add(&mut self.list, seen.row).is_err();
        }
    }
}

/// No memory holds 2^64 - 1 events.
fn are_few(events: &[Event])
    ensures { length events.now < 2 ^ 64 - 1 }
{
    let _ = events.len();
}

/// A row has applied once more. Refusal: out of memory; the list is then as it was.
fn add(list: &mut Vec<RowCount>, row: &'static [u8]) -> Result<(), AllocError>
    requires { All (λ x. x.times < 2 ^ 64 - 1) list.old.items }
    ensures { OnOk result (list.new.items ≡ with_use list.old.items row.now) }
{
    match place_of(list, row) {
        Some(place) => {
            list[place].times += 1;
            Ok(())
        }
        None => {
            list.push(RowCount {
                row: Word::of(row),
                times: 1,
            })?;
            Ok(())
        }
    }
}

/// Where a row stands.
fn place_of(list: &[RowCount], row: &[u8]) -> Option<usize>
    ensures { IsPlaceOf list.now row.now result }
{
    for place in 0..list.len() {
        if list[place].row.letters() == row {
            return Some(place);
        }
    }
    None
}
