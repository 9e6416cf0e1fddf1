//! What a node keeps of its ports, with the least Basic one at hand.
ghost use Rattle.std.specs.Prelude.{◌≡◌, ◌<◌, ◌≤◌, ◌^◌, length, replicate, slice_set, slice_index_or, count_by, IfOk};
ghost use Rattle.boruvka_node.specs.Counters.{IsFirstBasic};
ghost use Rattle.boruvka_node.specs.Entering.{entered_from};
ghost use Rattle.boruvka_node.specs.State.{fresh_port, is_missing, least_basic, no_port};

use crate::change::Entry;
use crate::port_state::PortState;
use ghs_node::level::Level;
use std::alloc::{AllocError, Global};
use std::marker::Model;

/// The ports of a node, fewer than 2^24.
#[derive(Debug, Drop)]
pub(crate) struct Ports {
    list: Vec<PortState>,
    /// The least port that is Basic, or the number of ports where none is. In a run no port becomes Basic again, so it only
    /// rises: all looks for it together pass over each port twice at most.
    least: u32,
}

impl Model for Ports {
    ghost use Rattle.std.specs.Prelude.{List};
    ghost use Rattle.boruvka_node.specs.declared.port_state.PortState.{PortState};
    ghost use Rattle.boruvka_node.specs.Counters.{IsCursor};

    ghost Value = { List PortState };

    ghost view = { λ p. p.list.items };

    ghost invariant = { λ p. IsCursor p.list.items p.least };
}

impl Ports {
    /// So many ports at which nothing has happened.
    pub(crate) fn fresh(alloc: Global, count: usize) -> Result<Ports, AllocError>
        requires { count < 2 ^ 24 }
        ensures { IfOk result (λ p. p ≡ replicate count fresh_port) }
    {
        Ok(Ports {
            list: vec![in alloc; PortState::FRESH; count]?,
            least: 0,
        })
    }

    /// How many there are.
    pub(crate) fn len(&self) -> u32
        ensures len { result ≡ length self.now }
        ensures few { result < 2 ^ 24 }
    {
        self.list.len() as u32
    }

    /// A port; where there is none, one that is Inside.
    pub(crate) fn get(&self, port: u32) -> PortState
        ensures { result ≡ slice_index_or self.now port no_port }
    {
        if port < self.len() {
            self.list[port as usize]
        } else {
            PortState::NONE
        }
    }

    /// Changes a port, if there is one.
    pub(crate) fn set(&mut self, port: u32, state: PortState)
        ensures { self.new ≡ slice_set self.old port state }
    {
        if port >= self.len() {
            return;
        }
        self.list[port as usize] = state;
        if port < self.least {
            if state.is_basic() {
                self.least = port;
            }
        } else {
            self.least = first_basic(&self.list, self.least);
        }
    }

    /// The node enters a fragment of the next level: O(ports).
    pub(crate) fn enter(&mut self, entry: &Entry)
        ensures { self.new ≡ entered_from entry.now 0 self.old }
    {
        enter_all(&mut self.list, entry);
        self.least = first_basic(&self.list, 0);
    }

    /// The least port that is Basic.
    pub(crate) fn least_basic(&self) -> Option<u32>
        ensures { result ≡ least_basic self.now }
    {
        if self.least < self.len() {
            Some(self.least)
        } else {
            None
        }
    }

    /// The least port that is Basic once a port is changed so; nothing changes where there is no such port.
    pub(crate) fn least_basic_with(&self, port: u32, state: PortState) -> Option<u32>
        ensures { result ≡ least_basic (slice_set self.now port state) }
    {
        if port >= self.len() {
            return self.least_basic();
        }
        if state.is_basic() {
            return Some(port.min(self.least));
        }
        if port != self.least {
            return self.least_basic();
        }
        let next = first_basic(&self.list, self.least + 1);
        if next < self.len() { Some(next) } else { None }
    }

    /// From how many ports a search at a level wants for something: O(ports).
    pub(crate) fn missing(&self, level: Level) -> u32
        ensures { result ≡ count_by (is_missing level) self.now }
    {
        missing_of(&self.list, level)
    }

    /// The same once a port is changed so, by the number of now.
    #[tactic(auto, using(crate::proofs::Counting::count_set, crate::proofs::Counting::counted_in))]
    pub(crate) fn missing_with(
        &self,
        level: Level,
        missing: u32,
        port: u32,
        state: PortState,
    ) -> u32
        requires { missing ≡ count_by (is_missing level) self.now }
        ensures { result ≡ count_by (is_missing level) (slice_set self.now port state) }
    {
        if port >= self.len() {
            return missing;
        }
        let others = missing - self.list[port as usize].is_missing(level) as u32;
        others + state.is_missing(level) as u32
    }
}

/// From how many of these ports a search at a level wants for something.
#[tactic(auto, using(crate::proofs::Counting::more_missing, crate::proofs::Counting::no_more_missing))]
fn missing_of(ports: &[PortState], level: Level) -> u32
    requires { length ports.now < 2 ^ 24 }
    ensures { result ≡ count_by (is_missing level) ports.now }
{
    let mut count = 0;
    for place in 0..ports.len() {
        if ports[place].is_missing(level) {
            count += 1;
        }
    }
    count
}

/// The node enters a fragment of the next level.
#[tactic(auto, using(crate::proofs::Entered::all_entered))]
fn enter_all(ports: &mut [PortState], entry: &Entry)
    requires { length ports.old < 2 ^ 24 }
    ensures { ports.new ≡ entered_from entry.now 0 ports.old }
{
    for port in 0..ports.len() {
        ports[port] = entry.entered(port as u32, ports[port]);
    }
}

/// The first Basic port from one on, or the number of ports.
fn first_basic(ports: &[PortState], start: u32) -> u32
    requires within { start ≤ length ports.now }
    requires few { length ports.now < 2 ^ 24 }
    ensures { IsFirstBasic ports.now start result }
{
    for port in start..ports.len() as u32 {
        if ports[port as usize].is_basic() {
            return port;
        }
    }
    ports.len() as u32
}
