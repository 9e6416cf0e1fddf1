//! What holds of the parts of every run, under any rules and words. Each law is a function that does nothing; `S` is the type
//! of a node's states, `M` that of messages.
ghost use Rattle.peer_machine.specs.Rules.{Rules};
ghost use Rattle.peer_words.specs.Words.{Words};
ghost use Rattle.peer_parts.specs.Laws.{NodesAddUp, RowsAddUp};

/// What all nodes have sent of a kind is what was sent of it.
pub fn law_nodes<S, M>()
    ensures { (r : Rules S M) (words : Words S M) → NodesAddUp r words }
{}

/// All rows together applied as often as events happened.
pub fn law_rows<S, M>()
    ensures { (r : Rules S M) (words : Words S M) → RowsAddUp r words }
{}
