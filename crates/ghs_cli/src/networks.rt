//! Sweeps of several networks, whose lines begin with names.
ghost use Rattle.ghs_commands.specs.Job.{AreSweepLimits};
ghost use Rattle.ghs_cli.specs.Networks.{AreLinesOf, AreLinesOfAll, HasSwept, IsNetworksText, IsSweepOf, front_head};
ghost use Rattle.ghs_cli.specs.Serving.{IsGraphCause, IsTextOf};
ghost use Rattle.ghs_answers.specs.Causes.{IsWrite};
ghost use Rattle.ghs_answers.specs.declared.fault.ServeFault.{ServeFault};
ghost use Rattle.std.specs.Prelude.{◌≡◌, ◌++◌, ◌↔◌, List, ℕ, false, string_bytes, true, IfErr, IfOk, IfSome, IsErrOf};

use crate::charting::chart_text;
use crate::progress::tell_networks;
use crate::reading::graph_of;
use crate::sweeping::{put_heads, put_lines_by};
use ghs_answers::fault::ServeFault;
use ghs_choices::form::Form;
use ghs_commands::job::{Sheet, SweepOptions};
use ghs_gr::device::{Sink, Source};
use ghs_graph::graph::Graph;
use ghs_report::write_out::write_out;
use peer_network::wake_set::WakeSet;
use peer_sweep::front::{FRONT_HEAD, front_of};
use peer_trace::protocol::Protocol;
use std::alloc::{AllocError, Global};
use std::thread::Threads;

/// A network with its name, as its lines have it.
#[derive(Drop)]
pub struct Network {
    pub name: String,
    pub graph: Graph,
}

/// Reads the network of this name that a device gives. Faults: those of the graph's text, a node that the wake set lists and
/// the graph doesn't have, and lack of memory.
pub fn read_network<S: Source>(
    alloc: Global,
    name: &str,
    wake: WakeSet,
    source: &mut S,
) -> Result<Network, ServeFault>
    requires { S.has_failed source.old ≡ false }
    ensures name { IfOk result (λ network. string_bytes network.name ≡ name.now) }
    ensures graph { IfOk result (λ network. IfSome (S.left source.old) (λ input. IsTextOf wake input network.graph)) }
    ensures fault { IfErr result (λ fault. IfSome (S.left source.old) (λ input. IsGraphCause wake input fault)) }
    ensures read { IsErrOf result ServeFault.Read ↔ (S.has_failed source.new ≡ true) }
{
    let graph = graph_of(alloc, wake, source)?;
    let name = String::from_str(alloc, name)?;
    Ok(Network { name, graph })
}

/// Sweeps networks by protocols, and writes the text: one head line, and the lines of each network behind its name, in the
/// order of the networks, those of each in the order of the protocols. Threads share the runs of one network after another. The text is made whole before its first byte goes out,
/// and it is the same for every number of threads. Faults: lack of memory, and then a write that fails.
///
/// ```text
/// networks.push(read_network(alloc, "star.gr", WakeSet::All, &mut Device::of(file))?)?;
/// sweep_networks(rt, alloc, &[Protocol::Ghs], &options, &networks, &mut out)?;
/// // a head line that begins with graph, and a line for each network and seed
/// ```
pub fn sweep_networks<W: Sink, H: Threads + Sync + Eprint>(
    rt: &H,
    alloc: Global,
    protocols: &[Protocol],
    options: &SweepOptions,
    networks: &[Network],
    out: &mut W,
) -> Result<(), ServeFault>
    requires limits { AreSweepLimits options.now }
    requires out { W.has_failed out.old ≡ false }
    ensures swept { HasSwept protocols.now options.now networks.now (W.held out.old) (W.held out.new) result }
    ensures write { IsWrite result ↔ (W.has_failed out.new ≡ true) }
{
    let text = sweep_text(rt, alloc, protocols, options, networks)?;
    write_out(out, &text)?;
    Ok(())
}

/// What a sweep of networks prints: lines, or a chart.
fn sweep_text<H: Threads + Sync + Eprint>(
    rt: &H,
    alloc: Global,
    protocols: &[Protocol],
    options: &SweepOptions,
    networks: &[Network],
) -> Result<Vec<u8>, AllocError>
    requires { AreSweepLimits options.now }
    ensures { IfOk result (λ text. IsSweepOf protocols.now options.now.sheet options.now networks.now text.items) }
{
    match options.sheet {
        Sheet::Runs | Sheet::Summary => networks_text(rt, alloc, protocols, options, networks),
        Sheet::Chart => chart_text(rt, alloc, protocols, options, networks),
    }
}

/// The text of a sweep of networks.
fn networks_text<H: Threads + Sync + Eprint>(
    rt: &H,
    alloc: Global,
    protocols: &[Protocol],
    options: &SweepOptions,
    networks: &[Network],
) -> Result<Vec<u8>, AllocError>
    requires { AreSweepLimits options.now }
    ensures { IfOk result (λ text. IsNetworksText protocols.now options.now networks.now text.items) }
{
    let mut text = Vec::from_slice(alloc, front_head(options.form))?;
    put_heads(alloc, &mut text, protocols, options)?;
    put_networks(rt, alloc, &mut text, protocols, options, networks)?;
    Ok(text)
}

/// Puts the lines of networks behind a text. Where that is asked for, standard error is told after each network but the
/// last how many have been swept.
fn put_networks<H: Threads + Sync + Eprint>(
    rt: &H,
    alloc: Global,
    text: &mut Vec<u8>,
    protocols: &[Protocol],
    options: &SweepOptions,
    networks: &[Network],
) -> Result<(), AllocError>
    requires { AreSweepLimits options.now }
    ensures { IfOk result (λ _. (lines : List ℕ) × AreLinesOfAll protocols.now options.now networks.now lines × (text.new.items ≡ text.old.items ++ lines)) }
{
    for (place, network) in networks.iter().enumerate() {
        put_network(rt, alloc, text, protocols, options, network)?;
        tell_networks(rt, options.progress, place + 1, networks.len());
    }
    Ok(())
}

/// The name of the column of names, and a comma; lines of JSON say it with each name.
fn front_head(form: Form) -> &'static [u8]
    ensures { result.now ≡ front_head form }
{
    match form {
        Form::Text => FRONT_HEAD,
        Form::Json => b"",
    }
}

/// Puts the lines of a network behind a text.
fn put_network<H: Threads + Sync + Eprint>(
    rt: &H,
    alloc: Global,
    text: &mut Vec<u8>,
    protocols: &[Protocol],
    options: &SweepOptions,
    network: &Network,
) -> Result<(), AllocError>
    requires { AreSweepLimits options.now }
    ensures { IfOk result (λ _. (lines : List ℕ) × AreLinesOf protocols.now options.now network.now lines × (text.new.items ≡ text.old.items ++ lines)) }
{
    let front = front_of(alloc, options.form, network.name.as_str())?;
    let graph = &network.graph;
    put_lines_by(rt, alloc, text, protocols, options, &front, graph)?;
    Ok(())
}
