//! What verdicts mean. The laws cost nothing to call.
ghost use Rattle.own_book.specs.Entry.{Entry};
ghost use Rattle.ghs_graph.specs.Graph.{Shape};
ghost use Rattle.own_judge.specs.Laws.{AgreesRightly, AsksRightly, DiffersRightly, MeansVerdict};
ghost use Rattle.own_judge.specs.Look.{Asking};
ghost use Rattle.own_judge.specs.declared.look.Own.{Own};
ghost use Rattle.peer_network.specs.declared.event.Event.{Event};
ghost use Rattle.std.specs.Prelude.{List};

/// Where the verdict is that the book agrees, each event agrees. Where an answer fails or differs behind so many events, these
/// agree and the next one doesn't.
pub fn law_verdict()
    ensures { (book : List Entry) (g : Shape) (es : List Event) → MeansVerdict book g es }
{}

/// Where an event agrees, the book's answer is the reaction; where one differs, it isn't.
pub fn law_looks()
    ensures agrees { (book : List Entry) (a : Asking) (own : Own) → AgreesRightly book a own }
    ensures differs { (book : List Entry) (a : Asking) (own : Own) → DiffersRightly book a own }
{}

/// A question is open only where the book has no answer to it.
pub fn law_open()
    ensures { (book : List Entry) (a : Asking) (own : Own) → AsksRightly book a own }
{}
