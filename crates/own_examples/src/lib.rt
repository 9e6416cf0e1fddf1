//! Worked examples of books, as tests alone. The texts, the answers and the faults are written by hand, from the format; where
//! the books of `orders` come from stands there.
#![tactic(auto)]

#[cfg(test)]
mod answers;
#[cfg(test)]
mod books;
#[cfg(test)]
mod checks;
#[cfg(test)]
mod judged;
#[cfg(test)]
mod orders;
#[cfg(test)]
mod runs;
#[cfg(test)]
mod stored;
