//! What holds of the chains of every run. Each law is a function that does nothing.
ghost use Rattle.ghs_following.specs.Laws.{ChainsAreSent, ChainsAreWithinBound};
ghost use Rattle.ghs_following.specs.Swaps.{OrdersAreAlike, SwapsAreAlike};

/// The longest chain of a run is no longer than messages were sent.
pub fn law_chain_is_sent()
    ensures { ChainsAreSent }
{}

/// So it is no longer than the bound on messages.
pub fn law_chain_within_bound()
    ensures { ChainsAreWithinBound }
{}

/// Neighbours of a run that have nothing to do with each other may be swapped: they are of two nodes, each may happen first,
/// and neither puts a message back to the end of a queue to whose end the other sends. Both orders are runs, and whatever
/// follows, they lead to one net, with one longest chain.
pub fn law_swap()
    ensures { SwapsAreAlike }
{}

/// So all orders to which such swaps lead, one after another, have one net and one longest chain.
pub fn law_swaps()
    ensures { OrdersAreAlike }
{}
