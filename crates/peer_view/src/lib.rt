//! A run of any protocol as one page: the page's constant text round what the run is and does; and two runs of one network as a
//! page. docs/FORMATS.md has the format.
//!
//! Proved: `run_page` is exactly that text round the run's data, and is refused exactly where the page would be too large
//! (`page`, `large`); so is `pair_page`. `stored_page` judges the events first, and names the first that isn't lawful
//! (`fault`). The bytes of `data_of` are exactly those of `data_json` in `specs/`: the names of the protocol and of its kinds are
//! those of its steps (`Words`), and the rest of what the page is told stands in the protocol's `Looks`.
//!
//! At most 2,000 nodes and 100,000 events that are shown (`peer_page`). What a browser makes of a page is tested and not proved
//! (`peer_page`).
#![tactic(auto)]

pub mod data;
pub mod page;
pub mod pair;
pub mod protocol;
pub mod stored;
