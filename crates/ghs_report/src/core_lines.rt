//! The text of components with their cores.
ghost use Rattle.std.specs.Prelude.{◌≡◌, ◌++◌, IfOk, Some, None};
ghost use Rattle.ghs_core.specs.NetState.{net_of};
ghost use Rattle.ghs_protocol.specs.Marks.{HasEnded};
ghost use Rattle.ghs_report.specs.Components.{HasEndedIn, IsOfGraph};
ghost use Rattle.ghs_report.specs.CoreLines.{HaveLines, core_line, cores_text, line_of};

use crate::component::Component;
use crate::ended_cores::ended_in;
use crate::merging::components_of;
use ghs_core::net::Net;
use ghs_graph::graph::Graph;
use ghs_graph::key::Key;
use ghs_lines::numbers::put_number;
use std::alloc::{AllocError, Global};

/// Puts the lines of a graph's components behind a text: of each the core to which merging leads, and its level.
///
/// ```text
/// let mut text = tree_text(alloc, &tree)?;
/// put_graph_cores(alloc, &mut text, &graph)?;               // one line more on the path of five: `c 3 4 4 2`
/// ```
pub fn put_graph_cores(alloc: Global, text: &mut Vec<u8>, graph: &Graph) -> Result<(), AllocError>
    ensures { IfOk result (λ _. HaveLines graph.now (IsOfGraph graph.now) text.old.items text.new.items) }
{
    let components = components_of(alloc, graph)?;
    put_cores(text, &components)
}

/// Puts the lines of the components of a net whose run has ended behind a text: of each the core with which it ended, and
/// its level.
pub fn put_ended_cores(alloc: Global, text: &mut Vec<u8>, net: &Net) -> Result<(), AllocError>
    requires { HasEnded net.now.graph (net_of net.now) }
    ensures { IfOk result (λ _. HaveLines net.now.graph (HasEndedIn net.now.graph (net_of net.now)) text.old.items text.new.items) }
{
    let components = ended_in(alloc, net)?;
    put_cores(text, &components)
}

/// Puts a line `c A B W LEVEL` behind a text for each component, or `c V 0` for a node without links.
fn put_cores(text: &mut Vec<u8>, components: &[Component]) -> Result<(), AllocError>
    ensures { IfOk result (λ _. text.new.items ≡ text.old.items ++ cores_text components.now) }
{
    for component in components {
        put_component(text, component)?;
    }
    Ok(())
}

/// The line of a component.
fn put_component(text: &mut Vec<u8>, component: &Component) -> Result<(), AllocError>
    ensures { IfOk result (λ _. text.new.items ≡ text.old.items ++ line_of component.now) }
{
    match component.link {
        Some(link) => put_core(text, &link, component.level),
        None => put_single(text, component),
    }
}

/// The line of a core.
fn put_core(text: &mut Vec<u8>, link: &Key, level: u32) -> Result<(), AllocError>
    ensures { IfOk result (λ _. text.new.items ≡ text.old.items ++ core_line 0 level (Some link.now)) }
{
    text.extend_from_slice(b"c ")?;
    put_number(text, u128::from(link.a))?;
    text.extend_from_slice(b" ")?;
    put_number(text, u128::from(link.b))?;
    text.extend_from_slice(b" ")?;
    put_number(text, u128::from(link.weight))?;
    text.extend_from_slice(b" ")?;
    put_number(text, u128::from(level))?;
    text.extend_from_slice(b"\n")?;
    Ok(())
}

/// The line of a node without links.
fn put_single(text: &mut Vec<u8>, component: &Component) -> Result<(), AllocError>
    ensures { IfOk result (λ _. text.new.items ≡ text.old.items ++ core_line component.now.root component.now.level None) }
{
    text.extend_from_slice(b"c ")?;
    put_number(text, u128::from(component.root))?;
    text.extend_from_slice(b" ")?;
    put_number(text, u128::from(component.level))?;
    text.extend_from_slice(b"\n")?;
    Ok(())
}
