//! Tickets, and the steps that are made of them.
ghost use Rattle.std.specs.Prelude.{◌≡◌, IfOk, IfErr};
ghost use Rattle.ghs_node.specs.declared.fault.NodeFault.{NodeFault as Fault};
ghost use Rattle.ghs_node.specs.Reaction.{IsReaction};
ghost use Rattle.ghs_node.specs.Rows.{Row};
ghost use Rattle.ghs_world.specs.Tickets.{HasRule};

use ghs_core::event::Event;
use ghs_node::delta::Delta;
use ghs_node::fault::NodeFault;
use ghs_node::laws::law_list_has_no_row;
use ghs_node::node::Node;
use ghs_node::react::react;
use ghs_node::work::Work;
use std::alloc::Global;
use std::marker::Model;

/// A node that is out, with an event of its and the work that the event brings. The node has a reaction to it.
#[derive(Debug, Drop)]
pub struct Ticket {
    number: u64,
    event: Event,
    node: Node,
    work: Work,
}

impl Model for Ticket {
    ghost use Rattle.ghs_world.specs.Tickets.{TicketState, HasRule};

    ghost Value = { TicketState };

    ghost view = { λ t. record { number = t.number; event = t.event; node = t.node; work = t.work } };

    ghost invariant = { λ t. HasRule t.node t.work };
}

impl Ticket {
    /// The ticket of these parts.
    pub(crate) fn of(number: u64, event: Event, node: Node, work: Work) -> Ticket
        requires { HasRule node work }
        ensures { result ≡ record { number = number; event = event; node = node; work = work } }
    {
        Ticket {
            number,
            event,
            node,
            work,
        }
    }

    /// The ticket's number, from 1 on.
    pub fn number(&self) -> u64
        ensures { result ≡ self.now.number }
    {
        self.number
    }

    /// The event that was checked out.
    pub fn event(&self) -> Event
        ensures { result ≡ self.now.event }
    {
        self.event
    }

    /// The node, as it is at home.
    pub fn node(&self) -> &Node
        ensures node { result.now ≡ self.now.node }
        ensures rule { HasRule result.now self.now.work }
    {
        &self.node
    }

    /// The work that the event brings.
    pub fn work(&self) -> Work
        ensures { result ≡ self.now.work }
    {
        self.work
    }

    /// The node reacts to the work; no world is needed. The one fault is lack of memory, and the ticket comes back.
    ///
    /// ```text
    /// let (ticket, fault) = match ticket.perform(alloc) {
    ///     Ok(step) => return world.commit(alloc, step),
    ///     Err(back) => back,                                    // out of memory: the ticket is still out
    /// };
    /// world.give_back(ticket)?;
    /// ```
    pub fn perform(self, alloc: Global) -> Result<Step, (Ticket, NodeFault)>
        ensures ticket { IfOk result (λ s. s.ticket ≡ self) }
        ensures row { IfOk result (λ s. Row self.node self.work s.delta) }
        ensures back { IfErr result (λ e. e.0 ≡ self) }
        ensures fault { IfErr result (λ e. e.1 ≡ Fault.Memory) }
    {
        law_list_has_no_row();
        match react(alloc, &self.node, self.work) {
            Ok(delta) => Ok(Step {
                ticket: self,
                delta,
            }),
            Err(fault) => Err((self, fault)),
        }
    }
}

/// A ticket whose node has reacted. What the reaction does isn't yet done.
#[derive(Debug, Drop)]
pub struct Step {
    ticket: Ticket,
    delta: Delta,
}

impl Model for Step {
    ghost use Rattle.ghs_world.specs.Tickets.{StepState, IsStep};

    ghost Value = { StepState };

    ghost view = { λ s. record { ticket = s.ticket; delta = s.delta } };

    ghost invariant = { λ s. IsStep (record { ticket = s.ticket; delta = s.delta }) };
}

impl Step {
    /// The ticket's number, from 1 on.
    pub fn number(&self) -> u64
        ensures { result ≡ self.now.ticket.number }
    {
        self.ticket.number()
    }

    /// The event that was checked out.
    pub fn event(&self) -> Event
        ensures { result ≡ self.now.ticket.event }
    {
        self.ticket.event()
    }

    /// The node, as it was before its reaction.
    pub fn node(&self) -> &Node
        ensures { result.now ≡ self.now.ticket.node }
    {
        self.ticket.node()
    }

    /// The work that the event brings.
    pub fn work(&self) -> Work
        ensures { result ≡ self.now.ticket.work }
    {
        self.ticket.work()
    }

    /// What the reaction does: the table's row for the node and the work.
    pub fn delta(&self) -> &Delta
        ensures delta { result.now ≡ self.now.delta }
        ensures row { Row self.now.ticket.node self.now.ticket.work result.now }
    {
        &self.delta
    }

    /// The ticket.
    pub(crate) fn ticket(&self) -> &Ticket
        ensures ticket { result.now ≡ self.now.ticket }
        ensures rule { HasRule result.now.node result.now.work }
    {
        &self.ticket
    }
}
