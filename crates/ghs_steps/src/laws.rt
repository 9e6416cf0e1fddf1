//! Laws of the definitions, which cost nothing to call.
ghost use Rattle.std.specs.Prelude.{List};
ghost use Rattle.ghs_graph.specs.Graph.{IsGraph, Shape};
ghost use Rattle.peer_network.specs.declared.event.Event.{Event};
ghost use Rattle.ghs_steps.specs.Deltas.{DeltasSuffice};

/// What the lines of a run say of marks, variables, fates and sends is enough: from the state at any moment of a run they
/// lead to the state after it, without a rule of the protocol.
pub fn law_deltas()
    ensures { (g : Shape) (done es : List Event) → IsGraph g → DeltasSuffice g done es }
{}
