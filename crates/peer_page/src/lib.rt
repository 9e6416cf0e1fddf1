//! What all pages of runs have in common, whatever the protocol: how much a page takes and why there is none, the pages' constant
//! text round the data, and of the data the head, the links and the line of counts.
//!
//! Proved: `is_too_large` and `first_events` say what a page takes. Each `put_` function appends exactly its lines, as `specs/`
//! has them, and takes nothing away. `page` and `pair_page` are exactly the constant text round what is given (`page_text`,
//! `pair_text`). docs/FORMATS.md has the format.
//!
//! The constants are page/template.html and page/pair.html, which `page/pack` writes into this crate; the gate checks that they
//! are the same. What the pages' scripts show is tested in a browser (`page/test`, `page/test_pair`), and not proved. The data may
//! hold no `<`, by which the element that it stands in could end; that is for the caller to see to.
//!
//! At most 2,000 nodes (`PAGE_NODES`) and 100,000 events that are shown (`PAGE_EVENTS`). Next: `ghs_view` and `peer_view`, a run
//! of GHS and of any other protocol as a page.
#![tactic(auto)]

pub mod commas;
pub mod counts;
pub mod fault;
pub mod head;
pub mod limits;
pub mod links;
pub mod page;
pub mod pair;
pub mod template;
