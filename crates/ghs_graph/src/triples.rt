//! Keys from the triples that a text gives.
ghost use Rattle.std.specs.Prelude.{◌≡◌, map, IfOk};
ghost use Rattle.ghs_graph.specs.Key.{key_of as key_of_triple};
ghost use Rattle.ghs_graph.specs.Graph.{IsGraph};

use crate::key::Key;
use ghs_gr::raw_graph::{Key3, RawGraph};
use std::alloc::{AllocError, Global};

/// The key of a triple.
#[inline]
pub fn key_of(triple: Key3) -> Key
    ensures { result ≡ key_of_triple triple }
{
    let (weight, a, b) = triple;
    Key { weight, a, b }
}

/// The keys of a graph that a text gives.
pub fn keys_of(alloc: Global, raw: &RawGraph) -> Result<Vec<Key>, AllocError>
    ensures keys { IfOk result (λ k. k.items ≡ map key_of_triple raw.now.keys) }
    ensures graph { IsGraph (record { nodes = raw.now.nodes; keys = map key_of_triple raw.now.keys }) }
{
    raw.keys()
        .iter()
        .map(|triple| key_of(*triple))
        .collect(alloc)
}
