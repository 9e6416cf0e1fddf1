//! A run by a user's book as one page, and two runs of one network as a page. docs/FORMATS.md has the format.
//!
//! Proved: `run_page_book` is exactly the page's constant text round what the run by this very book is and does (`IsPageBy`), and is
//! refused exactly where the page would be too large; so is `pair_page_book`. `stored_page_book` judges the events first, and
//! names the first that isn't lawful (`HasNoPage`). The data are those of `peer_view` by the rules, words and looks of the book, and
//! a line for each node with its variables and marks before any event (`openings`), since by a book each opens in its own way.
//!
//! A book may say any printable byte. So `<` and `&` stand on the page as HTML writes them (`shielded`): no `<` is left, by which
//! the element that the data stand in could end (`law_shielded`). What a browser makes of a page is tested and not proved
//! (`peer_page`). Next: `own_rules`, which has the rules, the words and the looks.
#![tactic(auto)]

pub mod laws;
mod openings;
pub mod page;
pub mod pair;
mod shield;
mod told;
