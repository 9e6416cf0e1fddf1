//! When and how an event happens.

use ghs_core::event::Event;
use ghs_node::delta::Fate;
use ghs_node::row_name::RowName;
use ghs_node::work::Work;

/// An event of a run, and what a line says of it beside its changes and sends.
#[derive(Clone, Copy, Debug, PartialEq, Eq)]
pub struct Moment {
    /// The event's number, counted from 1.
    pub number: u64,
    pub event: Event,
    /// The node at the other end of the port at which the message came in; none for a wake.
    pub far: Option<u32>,
    /// What the event brings to its node.
    pub work: Work,
    /// The row of the table by which the node reacts.
    pub row: RowName,
    /// What becomes of the message.
    pub fate: Fate,
    /// How many messages were sent for the first time by then, this event's among them.
    pub total: u128,
}
