//! Sweeps by a book: the figures of the run that a seed picks, and the columns of their lines.
ghost use Rattle.own_rules.specs.Check.{IsChecked};
ghost use Rattle.own_rules.specs.Faults.{faults};
ghost use Rattle.own_rules.specs.Rules.{rules_of};
ghost use Rattle.own_rules.specs.Stops.{lacking, stops_in};
ghost use Rattle.own_rules.specs.Texts.{kinds_many, kinds_of, names_of};
ghost use Rattle.own_rules.specs.declared.protocol.TheConstants.{RUNNING};
ghost use Rattle.own_runs.specs.Sweep.{AreFigures, AreFiguresBy, AreFiguresOf, layout_by};
ghost use Rattle.peer_lengths.specs.Lengths.{AreLengths};
ghost use Rattle.peer_net.specs.NetState.{net_of};
ghost use Rattle.own_runs.specs.declared.sweep.TableFault.TheVariants.{TooManyKinds};
ghost use Rattle.std.specs.Prelude.{IfOk, IsErrOf, IsTrue, [], length, ◌<◌, ◌↔◌, ◌≡◌, ◌≤◌};

use ghs_choices::check::Check;
use ghs_graph::graph::Graph;
use own_rules::check::check_text;
use own_rules::faults::faults_text;
use own_rules::node::{Node, Stop};
use own_rules::protocol::{Chosen, Playing, RUNNING, Told};
use own_rules::rulebook::Rulebook;
use own_rules::run::run_world;
use own_rules::stops::{lacking_text, stops_of};
use peer_lengths::lengths::Lengths;
use peer_lengths::meter::Meter;
use peer_machine::measured::Measured;
use peer_machine::protocol::Protocol;
use peer_network::wake_set::WakeSet;
use peer_runs::world::World;
use peer_sweep::figures::Figures;
use peer_sweep::rules::counts_of;
use peer_sweep::table::Table;
use peer_words::value::Word;
use std::alloc::{AllocError, Global};
use std::marker::Brand;
use thiserror::Error;

/// The figures of a run by a book, and what is said of the nodes that have stopped in it, and of its end.
#[derive(Drop)]
pub struct BookFigures {
    /// It has ended where no event may happen any more and no node has stopped.
    pub figures: Figures,
    /// The questions that the book lacks, one a line: that after the greeting, then those at which nodes have stopped.
    pub lacking: Vec<u8>,
    /// What is said of a greeting that is none, and of the nodes that have stopped by an answer.
    pub faults: Vec<u8>,
    /// What is wrong with the net after the last event, by the check that was asked for: one line, or no bytes.
    pub wrong: Vec<u8>,
}

/// Why there are no columns for a book.
#[derive(Clone, Copy, Debug, Drop, PartialEq, Eq, Error)]
pub enum TableFault {
    #[error("out of memory")]
    Memory,
    /// The figures of a run have places for eight kinds of messages.
    #[error("more than 8 kinds of messages")]
    TooManyKinds,
}

/// The figures of the run by a book that a seed picks, to its end or to its last turn. Each node sends and defers as many messages
/// as `RUNNING` allows. Messages behind the eighth kind are counted with all others alone. Refusal: out of memory.
///
/// ```text
/// let seventh = figures_by_book(alloc, &rules, &graph, WakeSet::All, 7, 1 << 40, None)?;
/// // seventh.figures are of the run that `run_book` gives by the same seed
/// ```
pub fn figures_by_book(
    alloc: Global,
    rules: &Rulebook,
    graph: &Graph,
    wake: WakeSet,
    seed: u64,
    turns: u64,
    check: Option<Check>,
) -> Result<BookFigures, AllocError>
    ensures { IfOk result (AreFiguresBy rules.now RUNNING check seed turns graph.now wake) }
{
    figures_by::<Brand>(alloc, rules, graph, wake, seed, turns, check)
}

/// The same, by the book that a type names.
fn figures_by<'a, J: Chosen>(
    alloc: Global,
    rules: &'a Rulebook,
    graph: &Graph,
    wake: WakeSet,
    seed: u64,
    turns: u64,
    check: Option<Check>,
) -> Result<BookFigures, AllocError>
    requires book { rules.now ≡ J.book }
    requires most { RUNNING ≡ J.most }
    ensures { IfOk result (AreFiguresBy J.book J.most check seed turns graph.now wake) }
{
    let playing = Playing {
        rules,
        most: RUNNING,
    };
    figures_under::<Told<'a, J>>(alloc, playing, rules, graph, wake, seed, turns, check)
}

/// The same, by any protocol. The run is measured while it is made.
fn figures_under<P: Measured + Protocol<Node = Node>>(
    alloc: Global,
    setting: P::Setting,
    rules: &Rulebook,
    graph: &Graph,
    wake: WakeSet,
    seed: u64,
    turns: u64,
    check: Option<Check>,
) -> Result<BookFigures, AllocError>
    requires { P.goes_by setting }
    ensures { IfOk result (AreFiguresOf P.rules P.bound rules.now check seed turns graph.now wake) }
{
    let copy = graph.copy(alloc)?;
    let mut meter = Meter::<P>::none(alloc, setting, graph)?;
    let (world, _) = run_world::<P, Meter<P>>(alloc, setting, copy, wake, seed, turns, &mut meter)?;
    figures_now(alloc, rules, &world, meter.lengths()?, check)
}

/// The figures of a world whose run has these lengths. Refusal: out of memory.
fn figures_now<P: Measured + Protocol<Node = Node>>(
    alloc: Global,
    rules: &Rulebook,
    world: &World<P>,
    lengths: Lengths,
    check: Option<Check>,
) -> Result<BookFigures, AllocError>
    requires { AreLengths P.rules world.now.net.graph world.now.net.trace lengths }
    ensures figures { IfOk result (λ x. AreFigures P.rules P.bound world.now.net.graph world.now.wake world.now.net.trace x.figures) }
    ensures lacking { IfOk result (λ x. x.lacking.items ≡ lacking rules.now world.now.net.graph (stops_in (net_of P.rules world.now.net).node world.now.net.graph.nodes)) }
    ensures faults { IfOk result (λ x. x.faults.items ≡ faults rules.now world.now.net.graph (stops_in (net_of P.rules world.now.net).node world.now.net.graph.nodes)) }
    ensures wrong { IfOk result (λ x. IsChecked rules.now world.now.net.graph (net_of P.rules world.now.net).node check x.wrong.items) }
{
    let net = world.net();
    let stops = stops_of(alloc, net)?;
    let lacking = lacking_text(alloc, rules, net.graph(), &stops)?;
    let faults = faults_text(alloc, rules, net.graph(), &stops)?;
    let wrong = check_text(alloc, rules, net, check)?;
    let mut figures = counts_of(net, lengths);
    figures.ended = has_ended(world.ready_count(), &stops);
    Ok(BookFigures {
        figures,
        lacking,
        faults,
        wrong,
    })
}

/// Whether a run has ended, by how many events may happen and which nodes have stopped.
fn has_ended(ready: usize, stops: &[(u32, Stop)]) -> bool
    ensures { IsTrue result ↔ ((ready ≡ 0) × (stops.now ≡ [])) }
{
    ready == 0 && stops.is_empty()
}

/// How the lines of the runs of a book are laid out: `own` is the protocol's name, and each kind that the greeting names has a
/// column. Refusals: more than eight kinds, before memory is asked for; out of memory.
///
/// ```text
/// let table = table_by_book(alloc, &rules)?;
/// // of a book whose greeting is `own 1 echo explore() back()` its third and fourth columns are `explore` and `back`
/// ```
pub fn table_by_book(alloc: Global, rules: &Rulebook) -> Result<Table<'_>, TableFault>
    ensures table { IfOk result (λ t. t ≡ layout_by rules.now) }
    ensures few { IfOk result (λ _. length (names_of (kinds_of rules.now)) ≤ 8) }
    ensures many { IsErrOf result TooManyKinds ↔ (8 < kinds_many (kinds_of rules.now)) }
{
    if rules.kinds() > 8 {
        return Err(TableFault::TooManyKinds);
    }
    let Ok(names) = rules.kind_names(alloc) else {
        return Err(TableFault::Memory);
    };
    match Table::by(alloc, Word::of(b"own"), &names) {
        Ok(table) => Ok(table),
        Err(_) => Err(TableFault::Memory),
    }
}
