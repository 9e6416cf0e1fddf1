//! Charts of sweeps.
ghost use Rattle.ghs_commands.specs.Job.{AreSweepLimits};
ghost use Rattle.ghs_cli.specs.Charts.{ArePanelsBy, IsCaption, IsNamelessChart, IsPanel, IsPanelOf};
ghost use Rattle.ghs_cli.specs.Networks.{ArePanels, IsChart};
ghost use Rattle.peer_sweep.specs.Figures.{LeavesRoom};
ghost use Rattle.std.specs.Prelude.{◌≡◌, ◌*◌, ◌≤◌, ◌^◌, ◌++◌, All, [], List, ℕ, length, string_bytes, IfOk};

use crate::fronts::{are_several, panel_name};
use crate::networks::Network;
use crate::progress::tell_networks;
use crate::sweeping::runs_of;
use crate::swept::bound_by;
use ghs_chart::chart::put_chart_head;
use ghs_chart::panel::{Caption, put_panel};
use ghs_chart::texts::CHART_TAIL;
use ghs_commands::job::SweepOptions;
use ghs_graph::graph::Graph;
use peer_sweep::figures::Figures;
use peer_sweep::measure::Measure;
use peer_sweep::summary::rising_of;
use peer_trace::protocol::Protocol;
use std::alloc::{AllocError, Global};
use std::thread::Threads;

/// The chart of the sweeps of one network, which has no name. Refusal: out of memory.
pub(crate) fn nameless_chart<R: Threads + Sync + Eprint>(
    rt: &R,
    alloc: Global,
    protocols: &[Protocol],
    options: &SweepOptions,
    graph: &Graph,
) -> Result<Vec<u8>, AllocError>
    requires { AreSweepLimits options.now }
    ensures { IfOk result (λ text. IsNamelessChart protocols.now options.now graph.now text.items) }
{
    let mut text = Vec::new(alloc);
    put_chart_head(&mut text, protocols.len() as u64)?;
    put_panels_by(rt, alloc, &mut text, protocols, options, 0, "", graph)?;
    text.extend_from_slice(CHART_TAIL)?;
    Ok(text)
}

/// The chart of the sweeps of networks. Refusal: out of memory.
pub(crate) fn chart_text<R: Threads + Sync + Eprint>(
    rt: &R,
    alloc: Global,
    protocols: &[Protocol],
    options: &SweepOptions,
    networks: &[Network],
) -> Result<Vec<u8>, AllocError>
    requires { AreSweepLimits options.now }
    ensures { IfOk result (λ text. IsChart protocols.now options.now networks.now text.items) }
{
    let mut text = Vec::new(alloc);
    put_chart_head(&mut text, panels_of(networks.len(), protocols)?)?;
    put_panels(rt, alloc, &mut text, protocols, options, networks)?;
    text.extend_from_slice(CHART_TAIL)?;
    Ok(text)
}

/// How many panels so many networks have. A number above 64 bits is a refusal: no memory holds as many.
fn panels_of(networks: usize, protocols: &[Protocol]) -> Result<u64, AllocError>
    ensures { IfOk result (λ n. n ≡ networks * length protocols.now) }
{
    match (networks as u64).checked_mul(protocols.len() as u64) {
        Some(panels) => Ok(panels),
        None => Err(AllocError),
    }
}

/// Puts the panels of networks behind a text. Where that is asked for, standard error is told after each network but the
/// last how many have been swept.
fn put_panels<R: Threads + Sync + Eprint>(
    rt: &R,
    alloc: Global,
    text: &mut Vec<u8>,
    protocols: &[Protocol],
    options: &SweepOptions,
    networks: &[Network],
) -> Result<(), AllocError>
    requires { AreSweepLimits options.now }
    ensures { IfOk result (λ _. (panels : List ℕ) × ArePanels protocols.now options.now networks.now panels × (text.new.items ≡ text.old.items ++ panels)) }
{
    for (place, network) in networks.iter().enumerate() {
        let name = network.name.as_str();
        let first = panels_of(place, protocols)?;
        let graph = &network.graph;
        put_panels_by(rt, alloc, text, protocols, options, first, name, graph)?;
        tell_networks(rt, options.progress, place + 1, networks.len());
    }
    Ok(())
}

/// Puts the panels of a network by protocols behind a text, from a place on.
fn put_panels_by<R: Threads + Sync + Eprint>(
    rt: &R,
    alloc: Global,
    text: &mut Vec<u8>,
    protocols: &[Protocol],
    options: &SweepOptions,
    first: u64,
    name: &str,
    graph: &Graph,
) -> Result<(), AllocError>
    requires { AreSweepLimits options.now }
    ensures { IfOk result (λ _. (panels : List ℕ) × ArePanelsBy protocols.now options.now first name.now graph.now panels × (text.new.items ≡ text.old.items ++ panels)) }
{
    let several = are_several(protocols);
    for (index, protocol) in protocols.iter().enumerate() {
        let Some(place) = first.checked_add(index as u64) else {
            return Err(AllocError);
        };
        let own = panel_name(alloc, several, name, *protocol)?;
        let name = own.as_str();
        put_network_panel(rt, alloc, text, *protocol, options, place, name, graph)?;
    }
    Ok(())
}

/// Puts the panel of a network behind a text.
fn put_network_panel<R: Threads + Sync + Eprint>(
    rt: &R,
    alloc: Global,
    text: &mut Vec<u8>,
    protocol: Protocol,
    options: &SweepOptions,
    place: u64,
    name: &str,
    graph: &Graph,
) -> Result<(), AllocError>
    requires { AreSweepLimits options.now }
    ensures { IfOk result (λ _. (panel : List ℕ) × IsPanel protocol options.now place name.now graph.now panel × (text.new.items ≡ text.old.items ++ panel)) }
{
    let runs = runs_of(rt, alloc, protocol, graph, options)?;
    put_runs_panel(alloc, text, protocol, place, name, graph, &runs)?;
    Ok(())
}

/// Puts the panel of some runs of a network behind a text.
fn put_runs_panel(
    alloc: Global,
    text: &mut Vec<u8>,
    protocol: Protocol,
    place: u64,
    name: &str,
    graph: &Graph,
    runs: &[Figures],
) -> Result<(), AllocError>
    requires some { 1 ≤ length runs.now }
    requires few { length runs.now ≤ 2 ^ 32 }
    requires small { All LeavesRoom runs.now }
    ensures { IfOk result (λ _. (panel : List ℕ) × IsPanelOf protocol place name.now graph.now runs.now panel × (text.new.items ≡ text.old.items ++ panel)) }
{
    let caption = caption_of(protocol, graph, runs.len() as u64);
    let sent = rising_of(alloc, Measure::Sent, runs)?;
    let requeued = rising_of(alloc, Measure::Requeued, runs)?;
    let chains = rising_of(alloc, Measure::Chain, runs)?;
    put_panel(text, place, name, caption, &sent, &requeued, &chains)
}

/// What is said of a network and so many runs.
fn caption_of(protocol: Protocol, graph: &Graph, runs: u64) -> Caption
    ensures { IsCaption protocol graph.now runs result }
{
    Caption {
        nodes: graph.nodes(),
        links: graph.links(),
        runs,
        bound: bound_by(protocol, graph),
    }
}
