//! Runs by a book.
ghost use Rattle.own_rules.specs.declared.protocol.TheConstants.{RUNNING};
ghost use Rattle.own_rules.specs.Run.{IsRunBy, IsRunOf, IsTold, IsToldBy, StandsBy, StandsSo};
ghost use Rattle.peer_machine.specs.Run.{IsRunUnder};
ghost use Rattle.peer_net.specs.NetState.{net_of, network};
ghost use Rattle.peer_report.specs.Account.{account_lines};
ghost use Rattle.peer_runs.specs.WorldState.{wakers};
ghost use Rattle.std.specs.Prelude.{IfOk, [], ◌≡◌};

use crate::check::check_text;
use crate::faults::faults_text;
use crate::node::{Node, Stop};
use crate::protocol::{Chosen, Playing, RUNNING, Told};
use crate::rulebook::Rulebook;
use crate::stops::{lacking_text, stops_of};
use ghs_choices::check::Check;
use ghs_graph::graph::Graph;
use peer_machine::protocol::Protocol;
use peer_net::net::Net;
use peer_network::event::Event;
use peer_network::wake_set::WakeSet;
use peer_report::account::put_account;
use peer_runs::fault::RunFault;
use peer_runs::follower::Follower;
use peer_runs::run::run_followed;
use peer_runs::world::World;
use peer_schedule::schedule::Schedule;
use peer_words::spoken::Spoken;
use std::alloc::{AllocError, Global};
use std::marker::Brand;

/// A run by a book, and what is told of it.
#[derive(Drop)]
pub struct BookRun {
    pub events: Vec<Event>,
    /// Whether its turns are used while an event may still happen; of a stored run, whether an event may still happen.
    pub at_limit: bool,
    /// The nodes that have stopped, by rising number, each with where and why.
    pub stops: Vec<(u32, Stop)>,
    /// The questions that the book lacks, one a line: that after the greeting, then those at which nodes have stopped.
    pub lacking: Vec<u8>,
    /// What is said of a greeting that is none, and of the nodes that have stopped by an answer.
    pub faults: Vec<u8>,
    /// The lines `m` and `s`: how many messages were sent of each kind, and of all, with the bound on them.
    pub account: Vec<u8>,
    /// What is wrong with the net after its last event, by the check that was asked for: one line, or no bytes.
    pub wrong: Vec<u8>,
}

/// The run by a book that a seed picks, to its end or to its last turn, and what is told of it and of its end by a check. Each node
/// sends and defers at most as many messages as `RUNNING` allows. Refusal: out of memory.
///
/// ```text
/// let ran = run_book(alloc, &rules, graph, WakeSet::All, 7, 1 << 40, None)?;
/// // ran.events is all that seed 7 picks by the rules of this very book; of an empty book, and the nodes 1 and 2 with a link of
/// // weight 5, ran.lacking is b"own 1\nopen 1 5:1-2\nopen 2 5:1-2\n"
/// ```
pub fn run_book(
    alloc: Global,
    rules: &Rulebook,
    graph: Graph,
    wake: WakeSet,
    seed: u64,
    turns: u64,
    check: Option<Check>,
) -> Result<BookRun, AllocError>
    ensures run { IfOk result (λ ran. IsRunBy rules.now RUNNING seed turns graph wake ran.events.items) }
    ensures stands { IfOk result (λ ran. StandsBy rules.now RUNNING turns graph wake ran.events.items ran.at_limit) }
    ensures told { IfOk result (IsToldBy rules.now RUNNING check graph) }
{
    run_by::<Brand>(alloc, rules, graph, wake, seed, turns, check)
}

/// The same, by the book that a type names.
fn run_by<'a, J: Chosen>(
    alloc: Global,
    rules: &'a Rulebook,
    graph: Graph,
    wake: WakeSet,
    seed: u64,
    turns: u64,
    check: Option<Check>,
) -> Result<BookRun, AllocError>
    requires book { rules.now ≡ J.book }
    requires most { RUNNING ≡ J.most }
    ensures run { IfOk result (λ ran. IsRunBy J.book J.most seed turns graph wake ran.events.items) }
    ensures stands { IfOk result (λ ran. StandsBy J.book J.most turns graph wake ran.events.items ran.at_limit) }
    ensures told { IfOk result (IsToldBy J.book J.most check graph) }
{
    let playing = Playing {
        rules,
        most: RUNNING,
    };
    run_under::<Told<'a, J>>(alloc, playing, rules, graph, wake, seed, turns, check)
}

/// The same, by any protocol.
fn run_under<P: Spoken + Protocol<Node = Node>>(
    alloc: Global,
    setting: P::Setting,
    rules: &Rulebook,
    graph: Graph,
    wake: WakeSet,
    seed: u64,
    turns: u64,
    check: Option<Check>,
) -> Result<BookRun, AllocError>
    requires { P.goes_by setting }
    ensures run { IfOk result (λ ran. IsRunOf P.rules seed turns graph wake ran.events.items) }
    ensures stands { IfOk result (λ ran. StandsSo P.rules turns graph wake ran.events.items ran.at_limit) }
    ensures told { IfOk result (IsTold P.rules P.words.kind P.bound rules.now check graph) }
{
    let (world, at_limit) = run_world::<P, ()>(alloc, setting, graph, wake, seed, turns, &mut ())?;
    ran(alloc, rules, &world, at_limit, check)
}

/// The world of a graph once it has run as a seed's schedule picks, to its end or to its last turn, by the rules of any protocol,
/// while a follower follows the run; and whether its turns are used while an event may still happen. Refusal: out of memory.
pub fn run_world<P: Protocol, F: Follower<P>>(
    alloc: Global,
    setting: P::Setting,
    graph: Graph,
    wake: WakeSet,
    seed: u64,
    turns: u64,
    kept: &mut F,
) -> Result<(World<P>, bool), AllocError>
    requires setting { P.goes_by setting }
    requires kept { F.is_of graph [] kept.old }
    ensures run { IfOk result (λ ran. IsRunOf P.rules seed turns graph wake ran.0.net.trace) }
    ensures stands { IfOk result (λ ran. StandsSo P.rules turns graph wake ran.0.net.trace ran.1) }
    ensures graph { IfOk result (λ ran. ran.0.net.graph ≡ graph) }
    ensures wake { IfOk result (λ ran. ran.0.wake ≡ wake) }
    ensures kept { IfOk result (λ ran. F.is_of ran.0.net.graph ran.0.net.trace kept.new) }
{
    let Ok(mut world) = World::<P>::open(alloc, setting, graph, wake) else {
        return Err(AllocError {});
    };
    let end = run_followed(alloc, &mut world, &mut Schedule::seeded(seed), turns, kept);
    // Read for its clause: the trace is a run of the graph under the wake set.
    let _ = world.net();
    match end {
        Ok(()) => Ok((world, false)),
        Err(RunFault::TurnLimit) => Ok((world, true)),
        Err(RunFault::Memory) => Err(AllocError {}),
    }
}

/// What has happened in a world, and what is told of it; `at_limit` is as the caller says. Refusal: out of memory.
pub fn ran<P: Spoken + Protocol<Node = Node>>(
    alloc: Global,
    rules: &Rulebook,
    world: &World<P>,
    at_limit: bool,
    check: Option<Check>,
) -> Result<BookRun, AllocError>
    ensures run { IfOk result (λ ran. (ran.events.items ≡ world.now.net.trace) × IsRunUnder P.rules (wakers world.now) (network world.now.net) ran.events.items) }
    ensures limit { IfOk result (λ ran. ran.at_limit ≡ at_limit) }
    ensures told { IfOk result (IsTold P.rules P.words.kind P.bound rules.now check world.now.net.graph) }
{
    let net = world.net();
    let events = Vec::from_slice(alloc, net.trace())?;
    let stops = stops_of(alloc, net)?;
    let lacking = lacking_text(alloc, rules, net.graph(), &stops)?;
    let faults = faults_text(alloc, rules, net.graph(), &stops)?;
    let account = account_of(alloc, net)?;
    let wrong = check_text(alloc, rules, net, check)?;
    Ok(BookRun {
        events,
        at_limit,
        stops,
        lacking,
        faults,
        account,
        wrong,
    })
}

/// The account of a net's messages. Refusal: out of memory.
fn account_of<P: Spoken>(alloc: Global, net: &Net<P>) -> Result<Vec<u8>, AllocError>
    ensures { IfOk result (λ text. text.items ≡ account_lines P.rules P.words.kind P.bound net.now.graph (net_of P.rules net.now)) }
{
    let mut text = Vec::new(alloc);
    put_account(&mut text, net)?;
    Ok(text)
}
