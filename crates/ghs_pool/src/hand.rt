//! What a worker keeps by itself.
ghost use Rattle.std.specs.Prelude.{◌≡◌, ◌≤◌, ◌-◌, OnOk};

use crate::feed::Feed;
use crate::gate::Tally;
use crate::pace::Pace;
use ghs_world::ticket::{Step, Ticket};
use std::alloc::{AllocError, Global};

/// How many tickets at most a worker has out at a time.
pub const MOST: usize = 64;

/// The tickets that a worker has out, the steps that it made of them, where it finds more, and when it looks. It has room
/// for all of them from the beginning.
#[derive(Drop)]
pub struct Hand<'q> {
    pub feed: Feed<'q>,
    tickets: Vec<Ticket>,
    steps: Vec<Step>,
    pub pace: Pace,
    pub tally: Tally,
    /// Whether many nodes were ready when the last visit began.
    pub is_crowded: bool,
    /// How many events had happened when the last visit ended.
    pub seen: u64,
    /// Whether one worker more is to be called.
    pub calls: bool,
    /// Whether the lock is left to another worker first.
    pub gives_way: bool,
}

impl<'q> Hand<'q> {
    /// A worker's hand, with one of the feed's shares.
    pub fn new(alloc: Global, worker: u32, feed: &mut Feed<'q>) -> Result<Hand<'q>, AllocError>
        requires { 2 ≤ feed.old.pass.shares }
        ensures { OnOk result (feed.new.pass.shares ≡ feed.old.pass.shares - 1) }
    {
        let tickets = Vec::with_capacity(alloc, MOST)?;
        let steps = Vec::with_capacity(alloc, MOST)?;
        Ok(Hand {
            feed: feed.split(alloc)?,
            tickets,
            steps,
            pace: Pace::new(),
            tally: Tally {
                worker,
                commits: 0,
                tickets: 0,
                crowded: 0,
                beside: 0,
            },
            is_crowded: false,
            seen: 0,
            calls: false,
            gives_way: false,
        })
    }

    /// How many tickets are out and not performed.
    pub fn tickets(&self) -> usize {
        self.tickets.len()
    }

    /// Tickets are performed the last first, and their steps happen the last first: in the order in which they went out.
    pub fn next_ticket(&mut self) -> Option<Ticket> {
        self.tickets.pop()
    }

    pub fn next_step(&mut self) -> Option<Step> {
        self.steps.pop()
    }

    /// An event was made at once.
    pub fn count_at_once(&mut self) {
        self.count(false, false);
    }

    /// The event of a ticket happened, with another worker's event since its check-out or none.
    pub fn count_committed(&mut self, is_beside: bool) {
        self.count(true, is_beside);
    }

    /// An event of the worker's happened.
    fn count(&mut self, is_ticket: bool, is_beside: bool) {
        self.pace.note_event();
        let tally = self.tally;
        self.tally = Tally {
            worker: tally.worker,
            commits: tally.commits.saturating_add(1),
            tickets: tally.tickets.saturating_add(is_ticket as u64),
            crowded: tally.crowded.saturating_add(self.is_crowded as u64),
            beside: tally.beside.saturating_add(is_beside as u64),
        };
    }

    /// One ticket more, or it comes back where there is no room.
    pub fn add_ticket(&mut self, ticket: Ticket) -> Result<(), Ticket> {
        match self.tickets.push(ticket) {
            Ok(()) => Ok(()),
            Err(back) => Err(back.value),
        }
    }

    /// One step more; where there is no room it is let go, and its ticket stays out until all is recalled.
    pub fn add_step(&mut self, step: Step) -> Result<(), AllocError> {
        match self.steps.push(step) {
            Ok(()) => Ok(()),
            Err(_) => Err(AllocError),
        }
    }
}
