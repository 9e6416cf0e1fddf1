//! The events that may be checked out.
ghost use Rattle.std.specs.Prelude.{◌≡◌, ◌++◌, ◌∷◌, [], if◌then◌else◌, IfOk};
ghost use Rattle.ghs_world.specs.Ready.{ready_events};

use crate::world::World;
use ghs_core::event::Event;
use std::alloc::{AllocError, Global};

impl World {
    /// The events that may be checked out, turns and memory aside: by node, Wake before ports, ports rising. It takes
    /// O(N + E) steps.
    pub fn ready(&self, alloc: Global) -> Result<Vec<Event>, AllocError>
        ensures { IfOk result (λ es. es.items ≡ ready_events self.now) }
    {
        let mut events = Vec::new(alloc);
        let graph = self.graph();
        for v in 1..graph.nodes() + 1 {
            push_if(&mut events, Event::Wake(v), self.is_ready(Event::Wake(v)))?;
            for port in 0..graph.ports(v).len() as u32 {
                let event = Event::Take(v, port);
                push_if(&mut events, event, self.is_ready(event))?;
            }
        }
        Ok(events)
    }
}

fn push_if(events: &mut Vec<Event>, event: Event, wanted: bool) -> Result<(), AllocError>
    ensures { IfOk result (λ _. events.new.items ≡ events.old.items ++ (if wanted then event ∷ [] else [])) }
{
    if wanted {
        events.push(event)?;
    }
    Ok(())
}
