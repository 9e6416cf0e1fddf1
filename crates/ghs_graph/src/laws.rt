//! What holds of every graph, of its minimum spanning forest and of the bound. Each law is a function that does nothing.
ghost use Rattle.ghs_graph.specs.Laws.{OrdersKeys, PortsEndElsewhere, PortsLeadBack, PortsRise, LinksHaveTwoPorts, DegreesAreTwice, NodesHaveRoots, RootsTell, ForestHasFewer, TreeIsOne, TreeJoins, NoneIsSpare, TreeIsLeast, FloorLog2IsOne, BoundIsOne};

use crate::key::Key;

/// Keys are compared by weight, then by the smaller end, then by the larger.
pub fn law_key_order()
    ensures { OrdersKeys ⟦<Key as Ord>⟧.cmp ⟦<Key as PartialEq>⟧.eq }
{}

/// The far end of a port is another node of the graph.
pub fn law_far_end()
    ensures { PortsEndElsewhere }
{}

/// The far port of a port has the same key, and leads back.
pub fn law_far_port()
    ensures { PortsLeadBack }
{}

/// The keys of a node's ports rise.
pub fn law_port_order()
    ensures { PortsRise }
{}

/// A link has one port at each of its ends, and no other.
pub fn law_two_ports()
    ensures { LinksHaveTwoPorts }
{}

/// The sum of the degrees is twice the number of links.
pub fn law_degrees()
    ensures { DegreesAreTwice }
{}

/// Each node has a root, and nodes are joined exactly where they have the same.
pub fn law_roots()
    ensures some { NodesHaveRoots }
    ensures tell { RootsTell }
{}

/// A graph has one number of components: by so many its minimum spanning forest has fewer links than it has nodes.
pub fn law_components()
    ensures { ForestHasFewer }
{}

/// A graph has one minimum spanning forest.
pub fn law_one_tree()
    ensures { TreeIsOne }
{}

/// The forest joins whatever the graph joins.
pub fn law_joins()
    ensures { TreeJoins }
{}

/// No link of the forest is spare: the others don't join its ends.
pub fn law_spare()
    ensures { NoneIsSpare }
{}

/// No links of the graph that join whatever the graph joins weigh less than the forest. They may be given with repeats.
pub fn law_least()
    ensures { TreeIsLeast }
{}

/// Each number from 1 on has one floor of log2.
pub fn law_floor_log2()
    ensures { FloorLog2IsOne }
{}

/// Each number of nodes from 1 on, with each number of links, has one bound.
pub fn law_bound()
    ensures { BoundIsOne }
{}
