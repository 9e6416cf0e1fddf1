//! The lines of a network's text.
ghost use Rattle.ghs_make.specs.Network.{links_at};
ghost use Rattle.ghs_make.specs.Plan.{IsPlan};
ghost use Rattle.ghs_make.specs.Text.{arc_line, command_words, comment_line, head_of, kind_words, links_words, problem_line, weights_words};
ghost use Rattle.std.specs.List.{flat_map};
ghost use Rattle.std.specs.Prelude.{IfOk, length, ◌++◌, ◌+◌, ◌<◌, ◌^◌, ◌≡◌, ◌≤◌};

use crate::network::Network;
use crate::plan::Plan;
use crate::weight::weight_of;
use crate::weights::Weights;
use ghs_lines::numbers::put_number;
use std::alloc::AllocError;

/// Appends the comment and the problem line.
#[tactic(auto, unfolding(crate::specs::Text::head_of))]
pub fn put_head(network: &Network, text: &mut Vec<u8>) -> Result<(), AllocError>
    ensures { IfOk result (λ _. text.new.items ≡ text.old.items ++ head_of network.now) }
{
    put_comment(network, text)?;
    put_problem(network.plan.nodes, network.links, text)
}

/// Appends the command that makes the network, as a comment.
fn put_comment(network: &Network, text: &mut Vec<u8>) -> Result<(), AllocError>
    ensures { IfOk result (λ _. text.new.items ≡ text.old.items ++ comment_line network.now) }
{
    text.extend_from_slice(b"c ghs make ")?;
    put_command(network, text)?;
    text.extend_from_slice(b"\n")?;
    Ok(())
}

fn put_command(network: &Network, text: &mut Vec<u8>) -> Result<(), AllocError>
    ensures { IfOk result (λ _. text.new.items ≡ text.old.items ++ command_words network.now) }
{
    put_kind_words(&network.plan, text)?;
    put_links_words(&network.plan, text)?;
    put_weights_words(network.weights, text)
}

fn put_kind_words(plan: &Plan, text: &mut Vec<u8>) -> Result<(), AllocError>
    ensures { IfOk result (λ _. text.new.items ≡ text.old.items ++ kind_words plan.now) }
{
    text.extend_from_slice(plan.kind.name().as_bytes())?;
    text.extend_from_slice(b" ")?;
    put_number(text, u128::from(plan.nodes))?;
    text.extend_from_slice(b" --seed ")?;
    put_number(text, u128::from(plan.seed))
}

fn put_links_words(plan: &Plan, text: &mut Vec<u8>) -> Result<(), AllocError>
    ensures { IfOk result (λ _. text.new.items ≡ text.old.items ++ links_words plan.now) }
{
    if plan.kind.takes_links() {
        text.extend_from_slice(b" --links ")?;
        put_number(text, u128::from(plan.links))?;
    }
    Ok(())
}

fn put_weights_words(weights: Option<Weights>, text: &mut Vec<u8>) -> Result<(), AllocError>
    ensures { IfOk result (λ _. text.new.items ≡ text.old.items ++ weights_words weights) }
{
    if let Some(weights) = weights {
        text.extend_from_slice(b" --weights ")?;
        text.extend_from_slice(weights.name().as_bytes())?;
    }
    Ok(())
}

fn put_problem(nodes: u32, links: u32, text: &mut Vec<u8>) -> Result<(), AllocError>
    ensures { IfOk result (λ _. text.new.items ≡ text.old.items ++ problem_line nodes links) }
{
    text.extend_from_slice(b"p sp ")?;
    put_number(text, u128::from(nodes))?;
    text.extend_from_slice(b" ")?;
    put_number(text, u128::from(links))?;
    text.extend_from_slice(b"\n")?;
    Ok(())
}

/// Appends a line for each link of a node, whose smaller ends these are. The first one has this number.
pub fn put_links(
    network: &Network,
    number: u32,
    node: u32,
    ends: &[u32],
    text: &mut Vec<u8>,
) -> Result<(), AllocError>
    requires plan { IsPlan network.now.plan }
    requires low { 2 ≤ node }
    requires high { node ≤ network.now.plan.nodes }
    requires numbers { number + length ends.now < 2 ^ 32 }
    ensures { IfOk result (λ _. text.new.items ≡ text.old.items ++ flat_map arc_line (links_at network.now number node ends.now)) }
{
    let mut next = number;
    for end in ends {
        put_arc(*end, node, weight_of(network, next, *end, node), text)?;
        next += 1;
    }
    Ok(())
}

/// Appends the line of one link.
fn put_arc(low: u32, high: u32, weight: u64, text: &mut Vec<u8>) -> Result<(), AllocError>
    ensures { IfOk result (λ _. text.new.items ≡ text.old.items ++ arc_line (weight, low, high)) }
{
    text.extend_from_slice(b"a ")?;
    put_number(text, u128::from(low))?;
    text.extend_from_slice(b" ")?;
    put_number(text, u128::from(high))?;
    text.extend_from_slice(b" ")?;
    put_number(text, u128::from(weight))?;
    text.extend_from_slice(b"\n")?;
    Ok(())
}
