//! A network's text, written out.
ghost use Rattle.ghs_make.specs.Ends.{smaller_ends};
ghost use Rattle.ghs_make.specs.Network.{IsNetwork, count_of_nodes, links_at};
ghost use Rattle.ghs_make.specs.Text.{arc_line, text_of};
ghost use Rattle.ghs_report.specs.Written.{IsFront, is_write};
ghost use Rattle.std.specs.Io.KnownBytes.{Appends};
ghost use Rattle.std.specs.List.{flat_map};
ghost use Rattle.std.specs.Prelude.{IfErr, MatchResult, OnOk, [], false, ◌++◌, ◌-◌, ◌≡◌, ◌≤◌};

use crate::ends::put_smaller_ends;
use crate::network::Network;
use crate::text::{put_head, put_links};
use ghs_gr::device::Sink;
use ghs_report::portions::{WriteFault, send_off, send_portion};
use std::alloc::{AllocError, Global};

/// Writes a network's text. It goes out by portions, so that the memory that it takes doesn't grow with the text: it is that
/// for the lines of one node. At a fault what is out is a front of the text.
///
/// ```text
/// let mut text = Vec::new(alloc);
/// write_network(alloc, &network, &mut Device::of(&mut text))?;
/// // of a ring of four, weights falling: the line `c ghs make ring 4 --seed 1 --weights falling`,
/// // `p sp 4 4`, and then `a 1 2 4`, `a 2 3 3`, `a 1 4 2`, `a 3 4 1`
/// ```
pub fn write_network<W: Sink>(
    alloc: Global,
    network: &Network,
    writer: &mut W,
) -> Result<(), WriteFault>
    requires network { IsNetwork network.now }
    requires sound { W.has_failed writer.old ≡ false }
    ensures ok { OnOk result (Appends (W.held writer.old) (W.held writer.new) (text_of network.now)) }
    ensures err { IfErr result (λ fault. IsFront (W.held writer.old) (W.held writer.new) (text_of network.now) fault) }
    ensures failed { MatchResult result (λ _. W.has_failed writer.new ≡ false) (λ fault. W.has_failed writer.new ≡ is_write fault) }
{
    let mut text = Vec::new(alloc);
    match put_head(network, &mut text) {
        Ok(()) => {}
        Err(_) => return Err(WriteFault::Memory),
    }
    let mut ends = Vec::new(alloc);
    let mut number: u32 = 0;
    let mut gone = 0;
    'nodes: for before in 0..network.plan.nodes - 1 {
        ends.clear();
        match put_node(network, number, before + 2, &mut ends, &mut text) {
            Ok(()) => {}
            Err(_) => return Err(WriteFault::Memory),
        }
        number += ends.len() as u32;
        gone = match send_portion(writer, &mut text, gone) {
            Ok(now) => now,
            Err(fault) => return Err(fault),
        };
    }
    match send_off(writer, &mut text, gone) {
        Ok(_) => Ok(()),
        Err(fault) => Err(fault),
    }
}

/// Appends the lines of a node's links, and finds their smaller ends.
fn put_node(
    network: &Network,
    number: u32,
    node: u32,
    ends: &mut Vec<u32>,
    text: &mut Vec<u8>,
) -> Result<(), AllocError>
    requires network { IsNetwork network.now }
    requires low { 2 ≤ node }
    requires high { node ≤ network.now.plan.nodes }
    requires none { ends.old.items ≡ [] }
    requires counted { number ≡ count_of_nodes network.now.plan (node - 2) }
    ensures ends { OnOk result (ends.new.items ≡ smaller_ends network.now.plan node) }
    ensures text { OnOk result (text.new.items ≡ text.old.items ++ flat_map arc_line (links_at network.now number node (smaller_ends network.now.plan node))) }
{
    put_smaller_ends(&network.plan, node, ends)?;
    put_links(network, number, node, ends, text)
}
