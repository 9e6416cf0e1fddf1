//! What the workers keep of each node.
ghost use Rattle.std.specs.Prelude.{◌≡◌, ◌≤◌, IfOk};

use peer_network::event::Event;
use std::alloc::{AllocError, Global};
use std::marker::Model;

/// What the workers keep of each node. A contract sees of how many nodes that is.
#[derive(Drop)]
pub struct Notes {
    /// The port behind the one whose event began or was passed over last.
    ports: Vec<u32>,
    /// How many events it has made since it went out last, where it has many ports.
    since_out: Vec<u32>,
}

impl Model for Notes {
    ghost use Rattle.std.specs.Prelude.{ℕ, length};

    ghost Value = { ℕ };

    ghost view = { λ n. length n.ports.items };
}

impl Notes {
    /// No event began or was made.
    pub fn fresh(alloc: Global, nodes: u32) -> Result<Notes, AllocError>
        ensures { IfOk result (λ n. n ≡ nodes) }
    {
        Ok(Notes {
            ports: vec![in alloc; 0; nodes as usize]?,
            since_out: vec![in alloc; 0; nodes as usize]?,
        })
    }

    /// How many nodes there are.
    pub fn nodes(&self) -> usize
        ensures { result ≡ self.now }
    {
        self.ports.len()
    }

    /// The port from which on a node's next search goes.
    pub fn port_of(&self, v: u32) -> u32
        requires low { 1 ≤ v }
        requires high { v ≤ self.now }
    {
        self.ports[v as usize - 1]
    }

    /// The next search at an event's node begins behind the event's port.
    pub fn begin_behind(&mut self, event: Event)
        ensures { self.new ≡ self.old }
    {
        if let Event::Take(v, port) = event {
            if v > 0 && v as usize <= self.ports.len() {
                self.ports[v as usize - 1] = port.saturating_add(1);
            }
        }
    }

    /// A node makes an event. Whether that one goes out on a ticket, so many being made at once before it; else it is one of
    /// these.
    pub fn goes_out(&mut self, v: u32, at_once: u32) -> bool
        ensures { self.new ≡ self.old }
    {
        let Some(since_out) = self.since_out.get_mut((v as usize).wrapping_sub(1)) else {
            return true;
        };
        let goes_out = *since_out >= at_once;
        *since_out = if goes_out {
            0
        } else {
            since_out.saturating_add(1)
        };
        goes_out
    }
}
