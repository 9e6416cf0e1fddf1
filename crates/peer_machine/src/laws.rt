//! What holds under any rules, in every run of every graph. Each law is a function that does nothing; `S` is the type of a
//! node's states, `M` that of messages.
ghost use Rattle.peer_machine.specs.Rules.{Rules};
ghost use Rattle.peer_machine.specs.Budget.{EndsWithin, SendsWithin};
ghost use Rattle.peer_machine.specs.Laws.{EventsHappenSo, KindsBalance, LedgerBalances, CountsStay, TakesAreCounted, DeferredGoLast, TakenOnce, EventsAreFew, OthersStay, OthersQueue};

/// What an event does is what the relation says.
pub fn law_events<S, M>()
    ensures { (r : Rules S M) → EventsHappenSo r }
{}

/// Of each kind, what was sent was consumed or waits.
pub fn law_kinds<S, M>()
    ensures { (r : Rules S M) → KindsBalance r }
{}

/// Over all kinds, what was sent was consumed or waits.
pub fn law_ledger<S, M>()
    ensures { (r : Rules S M) → LedgerBalances r }
{}

/// No count of messages sent, consumed or deferred ever falls.
pub fn law_counts<S, M>()
    ensures { (r : Rules S M) → CountsStay r }
{}

/// Each take consumes one message or defers it, and a wake none.
pub fn law_takes<S, M>()
    ensures { (r : Rules S M) → TakesAreCounted r }
{}

/// A message that is deferred goes to the end of its queue.
pub fn law_deferred<S, M>()
    ensures { (r : Rules S M) → DeferredGoLast r }
{}

/// Where no message is ever deferred, a run takes none twice.
pub fn law_taken_once<S, M>()
    ensures { (r : Rules S M) → TakenOnce r }
{}

/// Where besides each event leaves its node awake, a run has at most as many events as messages sent and nodes together. So a
/// bound on what is sent bounds each run.
pub fn law_ends<S, M>()
    ensures { (r : Rules S M) → EventsAreFew r }
{}

/// Where each node opens with a budget, and each message that it sends costs one of it, no run sends more messages than the
/// budgets together; where each that it defers costs one too, and each event leaves its node awake, each run comes to an end.
pub fn law_budget<S, M>()
    ensures sends { (r : Rules S M) → SendsWithin r }
    ensures ends { (r : Rules S M) → EndsWithin r }
{}

/// An event changes no node but its own.
pub fn law_others<S, M>()
    ensures { (r : Rules S M) → OthersStay r }
{}

/// Of another node's queues an event changes those at the far ends of its node's ports alone, and only appends to them.
///
/// ```text
/// law_queues::<State, Message>();
/// // in a body: from here on its contract may be used by the proof, and the compiler leaves the call out
/// ```
pub fn law_queues<S, M>()
    ensures { (r : Rules S M) → OthersQueue r }
{}
