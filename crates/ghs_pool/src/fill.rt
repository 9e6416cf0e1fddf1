//! A worker's hand is filled: events of nodes go out, or are made at once.
ghost use Rattle.std.specs.Prelude.{◌≡◌};

use crate::desk::Desk;
use crate::floor::{Floor, Start};
use crate::hand::{Hand, MOST};
use crate::pace::{PAIR, part_of_look};
use ghs_world::fault::OutFault;
use peer_network::event::Event;
use std::alloc::{AllocError, Global};
use std::sync::Wait;

/// How many ports at most a worker passes over at a node for one number taken, so that a node of many ports holds nobody up.
const PORTS: usize = 8;

/// How many nodes at most a look passes over.
const NODES: usize = 16;

/// What a node's number was good for.
#[derive(Drop)]
enum Found {
    /// An event went out.
    Out,
    /// An event was made at once.
    AtOnce,
    /// The node has no event that is worth it: its number is let go.
    Nothing,
    /// So far none was found, and the search goes on when the node's number comes again.
    More,
    /// No event can go out: there are no turns, or no memory.
    NoTurn,
}

impl<J: Start> Floor<J> {
    /// Nodes of the queue go out: of the numbers that wait half a worker's part, so that others find some too. Whether
    /// events were made at once meanwhile.
    pub fn fill<R: Wait>(&mut self, rt: &R, alloc: Global, hand: &mut Hand<'_>) -> bool {
        let waiting = hand.feed.len(rt);
        let sharers = self.at_work.clamp(1, PAIR) as usize;
        let part = (waiting / 2 / sharers).clamp(1, MOST);
        let mut has_made = false;
        for _ in 0..waiting.min(MOST) {
            let Some(v) = hand.feed.take(rt) else {
                return has_made;
            };
            hand.pace.take();
            match self.begin_event(rt, alloc, v, hand) {
                Found::Out | Found::Nothing => {}
                Found::AtOnce => has_made = true,
                Found::More => self.put(rt, &mut hand.feed, &[v]),
                Found::NoTurn => return has_made,
            }
            if hand.tickets() >= part {
                return has_made;
            }
        }
        has_made
    }

    /// Looks over the nodes, from behind the one that the last look found, for those that have an event that is worth it: for
    /// one, and while looks haven't come to all nodes for as many as fill a look's part of the hand. Where no node has an event
    /// at all, and nothing is out, the workers are to end. Whether events were made at once.
    pub fn look<R: Wait>(&mut self, rt: &R, alloc: Global, hand: &mut Hand<'_>) -> bool {
        let part = part_of_look(self.notes.nodes()).min(self.unlooked);
        let most = part.saturating_sub(hand.tickets()).max(1);
        let mut has_made = false;
        let mut begun = 0usize;
        let mut passed = 0usize;
        for _ in 0..MOST {
            let Some(v) = self.shop.next_node(self.found.saturating_add(1)) else {
                self.unlooked = 0;
                self.stop_if_home();
                return has_made;
            };
            self.come_to(v);
            match self.begin_event(rt, alloc, v, hand) {
                Found::Out => begun = begun.saturating_add(1),
                Found::AtOnce => {
                    has_made = true;
                    begun = begun.saturating_add(1);
                }
                Found::Nothing | Found::More => passed = passed.saturating_add(1),
                Found::NoTurn => return has_made,
            }
            if begun >= most || passed >= NODES {
                return has_made;
            }
        }
        has_made
    }

    /// A look comes to a node, and has passed over those before it.
    fn come_to(&mut self, v: u32)
        ensures { self.new ≡ self.old }
    {
        let nodes = self.notes.nodes();
        let passed = if v > self.found {
            (v - self.found) as usize
        } else {
            nodes
                .saturating_sub(self.found as usize)
                .saturating_add(v as usize)
        };
        self.unlooked = self.unlooked.saturating_sub(passed);
        self.found = v;
    }

    /// An event of a node goes out or is made at once, if the node has one that is worth it.
    ///
    /// A node has none whose messages all wait, each alone in its queue. Its number can be let go: nothing changes for the
    /// node before it makes an event itself or a message comes to it, and after either its number is put.
    fn begin_event<R: Wait>(
        &mut self,
        rt: &R,
        alloc: Global,
        v: u32,
        hand: &mut Hand<'_>,
    ) -> Found {
        if v == 0 || v as usize > self.notes.nodes() {
            return Found::Nothing;
        }
        let mut first = None;
        for _ in 0..PORTS {
            let Some(event) = self.shop.next_event(v, self.notes.port_of(v)) else {
                return Found::Nothing;
            };
            if first == Some(event) {
                return Found::Nothing;
            }
            self.notes.begin_behind(event);
            if self.shop.is_worth_it(event) {
                return self.begin(rt, alloc, v, event, hand);
            }
            first = first.or(Some(event));
        }
        Found::More
    }

    /// An event of a node goes out or is made at once.
    fn begin<R: Wait>(
        &mut self,
        rt: &R,
        alloc: Global,
        v: u32,
        event: Event,
        hand: &mut Hand<'_>,
    ) -> Found {
        let at_once = self.shop.at_once_per_ticket(v);
        if self.notes.goes_out(v, at_once) {
            return self.send_out(alloc, event, hand);
        }
        self.make(rt, alloc, event, hand)
    }

    /// An event goes out on a ticket.
    fn send_out(&mut self, alloc: Global, event: Event, hand: &mut Hand<'_>) -> Found {
        match self.shop.check_out(alloc, event) {
            Ok(ticket) => {
                if let Err(ticket) = hand.add_ticket(ticket) {
                    self.give_back(ticket);
                }
                Found::Out
            }
            Err(OutFault::TurnLimit) => {
                self.stop_if_home();
                Found::NoTurn
            }
            Err(OutFault::Memory) => {
                self.lack_memory();
                Found::NoTurn
            }
            Err(OutFault::NoSuch | OutFault::Busy | OutFault::Nothing) => Found::Nothing,
        }
    }

    /// An event is made at once, and the numbers of the nodes that it has woken go into the queue, as behind a commit.
    fn make<R: Wait>(&mut self, rt: &R, alloc: Global, event: Event, hand: &mut Hand<'_>) -> Found {
        if !self.shop.is_ready(event) {
            return Found::Nothing;
        }
        if !self.shop.has_turn() {
            self.stop_if_home();
            return Found::NoTurn;
        }
        match self.shop.make(alloc, event) {
            Ok(woken) => {
                hand.count_at_once();
                self.put(rt, &mut hand.feed, woken.as_slice());
                Found::AtOnce
            }
            Err(AllocError) => {
                self.lack_memory();
                Found::NoTurn
            }
        }
    }
}
