//! What holds of wake sets. The law is a function that does nothing.
ghost use Rattle.peer_network.specs.Wakes.{FirstAreRoots};

/// In the set First are the nodes that are their own roots: the least of each component.
pub fn law_first()
    ensures { FirstAreRoots }
{}
