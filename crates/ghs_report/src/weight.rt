//! What links weigh together.
ghost use Rattle.ghs_graph.specs.Links.{total_weight};
ghost use Rattle.std.specs.Prelude.{◌≡◌, ◌<◌, ◌^◌};

use ghs_graph::key::Key;

/// The weights of links, added up. The sum of a list of any length fits.
pub fn total_weight(links: &[Key]) -> u128
    ensures total { result ≡ total_weight links.now }
    ensures small { result < 2 ^ 96 }
{
    let mut total: u128 = 0;
    for link in links {
        total += u128::from(link.weight);
    }
    total
}
