//! What the tests of refused allocations share: orders to the allocator, and the five nodes on which calls are made.
//! Tests alone use it, so nothing here has a contract.
//!
//! `refuse` makes a call with its first allocation refused, with its second, and so on until there is no such allocation,
//! and prints how often the call was refused. The allocator that takes the orders is bench/refuse.c; under any other,
//! calls succeed at once. docs/REFUSALS.md has the last count.
#![tactic(auto)]

pub mod orders;
pub mod scenes;
