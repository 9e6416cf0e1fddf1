//! The chains of a run of any protocol, kept from event to event.
ghost use Rattle.peer_chains.specs.Chains.{heard, hears, most_below, no_chains, sent, taken, with_last};
ghost use Rattle.peer_chains.specs.Kept.{Fits, HasPlace, HasPlaceOf, SamePlaces, seen};
ghost use Rattle.ghs_graph.specs.Ports.{ports_of};
ghost use Rattle.peer_network.specs.Network.{far, far_port, network_of};
ghost use Rattle.std.specs.List.{All};
ghost use Rattle.std.specs.Prelude.{◌≡◌, ℕ, ◌+◌, ◌-◌, ◌<◌, ◌≤◌, ◌^◌, IfOk, length, OnOk, slice_get, slice_index};

use crate::rows::Rows;
use ghs_graph::graph::Graph;
use peer_network::event::Event;
use std::alloc::{AllocError, Global};
use std::marker::Model;

/// A number for each node, and one for each message that waits: how many messages have led to it, one because of another.
#[derive(Debug, Drop)]
pub struct Chains {
    alloc: Global,
    /// By the numbers of nodes; 0 is none.
    numbers: Vec<u64>,
    rows: Rows,
}

impl Model for Chains {
    ghost use Rattle.peer_chains.specs.Kept.{Kept};

    ghost Value = { Kept };

    ghost view = { λ c. record { numbers = c.numbers.items; rows = c.rows } };
}

impl Chains {
    /// No message has been sent. Refusal: out of memory.
    ///
    /// ```text
    /// let mut chains = Chains::none(alloc, &graph)?;      // of nodes 1 and 2, and a link
    /// chains.send(&graph, 1, &[(0, "wake up")])?;         // node 1 sends on its port 0; any type of message will do
    /// chains.hear(Event::Take(2, 0), true, false)?;       // node 2, asleep, consumes it
    /// // chains.longest() is 1: node 2 has heard of one message
    /// ```
    pub fn none(alloc: Global, graph: &Graph) -> Result<Chains, AllocError>
        ensures fits { IfOk result (λ c. Fits graph.now c) }
        ensures none { IfOk result (λ c. seen c ≡ no_chains) }
    {
        let nodes = graph.nodes();
        let numbers = vec![in alloc; 0u64; nodes as usize + 1]?;
        let rows = Rows::none(alloc, graph)?;
        Ok(Chains {
            alloc,
            numbers,
            rows,
        })
    }

    /// The number of the message that waits at a place of a port's queue, counted from 0.
    pub fn waiting(&self, v: u32, port: u32, place: usize) -> Option<u64>
        requires { HasPlace self.now v port }
        ensures { result ≡ slice_get ((seen self.now).queue v port) place }
    {
        self.rows.get(v, port, place)
    }

    /// The node of an event, asleep or not, hears of the message that the event takes, if it takes one. A message that it
    /// defers goes to the end of its queue. Refusal: out of memory; the chains are then of no use.
    pub fn hear(&mut self, event: Event, asleep: bool, deferred: bool) -> Result<(), AllocError>
        requires { HasPlaceOf self.old event }
        ensures places { OnOk result (SamePlaces self.old self.new) }
        ensures heard { OnOk result (seen self.new ≡ hears event asleep deferred (seen self.old)) }
    {
        match event {
            Event::Wake(_) => Ok(()),
            Event::Take(v, port) => self.take(v, port, asleep, deferred),
        }
    }

    /// A node, asleep or not, takes the first message of a port, and defers it or not.
    fn take(&mut self, v: u32, port: u32, asleep: bool, deferred: bool) -> Result<(), AllocError>
        requires { HasPlace self.old v port }
        ensures places { OnOk result (SamePlaces self.old self.new) }
        ensures taken { OnOk result (seen self.new ≡ taken v port asleep deferred ((seen self.old).queue v port) (seen self.old)) }
    {
        let at = v as usize;
        if let Some(number) = self.rows.step(v, port, deferred)? {
            self.numbers[at] = heard(deferred, asleep, self.numbers[at], number);
        }
        Ok(())
    }

    /// A node sends messages on its ports. Refusal: out of memory; the chains are then of no use.
    pub fn send<M>(&mut self, graph: &Graph, v: u32, sends: &[(u32, M)]) -> Result<(), AllocError>
        requires low { 1 ≤ v }
        requires high { v ≤ graph.now.nodes }
        requires node { v < length self.old.numbers }
        requires small { 0 < length sends.now → slice_index self.old.numbers v < 2 ^ 64 - 1 }
        requires ports { All (λ (s : ℕ × M). s.0 < length (ports_of graph.now.keys v)) sends.now }
        requires far { All (λ (s : ℕ × M). HasPlace self.old (far (network_of graph.now) v s.0) (far_port (network_of graph.now) v s.0)) sends.now }
        ensures places { OnOk result (SamePlaces self.old self.new) }
        ensures sent { OnOk result (seen self.new ≡ sent (network_of graph.now) v sends.now (seen self.old)) }
    {
        let ports = graph.ports(v);
        let number = self.numbers[v as usize];
        for (port, _) in sends {
            let to = ports[*port as usize];
            self.push(to.far, to.far_port, number + 1)?;
        }
        Ok(())
    }

    /// A message with a number more waits at a port.
    fn push(&mut self, v: u32, port: u32, number: u64) -> Result<(), AllocError>
        requires { HasPlace self.old v port }
        ensures places { OnOk result (SamePlaces self.old self.new) }
        ensures numbers { OnOk result (self.new.numbers ≡ self.old.numbers) }
        ensures last { OnOk result (seen self.new ≡ with_last v port number (seen self.old)) }
    {
        self.rows.push(self.alloc, v, port, number)?;
        Ok(())
    }

    /// The greatest number of a node.
    pub fn longest(&self) -> u64
        ensures { result ≡ most_below (length self.now.numbers) (seen self.now).node }
    {
        let mut longest = 0;
        for number in &self.numbers {
            longest = longest.max(*number);
        }
        longest
    }
}

/// The number of a node, asleep or not, that has taken a message with a number, and has deferred it or not. It has heard of
/// the message once it has consumed it, or was woken by it.
fn heard(deferred: bool, asleep: bool, number: u64, of_message: u64) -> u64
    ensures { result ≡ heard deferred asleep number of_message }
{
    if deferred && !asleep {
        number
    } else {
        number.max(of_message)
    }
}
