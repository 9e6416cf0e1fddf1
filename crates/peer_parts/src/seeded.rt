//! A seed's run by parts.
ghost use Rattle.std.specs.Prelude.{◌≡◌, ◌++◌, ℕ, List, IfOk};
ghost use Rattle.peer_parts.specs.Lines.{node_lines, row_lines};
ghost use Rattle.peer_parts.specs.Parts.{node_parts, row_parts};
ghost use Rattle.peer_parts.specs.Seeded.{IsPartedRun, IsPrinted};

use crate::columns::Column;
use crate::lines::{put_nodes, put_rows};
use crate::nodes::NodeParts;
use crate::rows::RowParts;
use ghs_choices::by::By;
use ghs_choices::form::Form;
use ghs_graph::graph::Graph;
use peer_machine::ends::Ends;
use peer_report::run::run_followed_by_seed;
use peer_sweep::setup::Setup;
use peer_words::fixed_words::FixedWords;
use std::alloc::{AllocError, Global};

/// Puts the lines of the parts of the run that a seed picks behind a text, each behind the same front; by level there are none.
/// Refusal: out of memory.
///
/// ```text
/// let columns = columns_by::<ByRules<Echo>>(alloc, By::Rule, &[])?;
/// put_seed::<Echo>(alloc, (), &mut text, Form::Text, b"", By::Rule, &columns, &graph, setup, 7)?;
/// // the lines of seed 7 of `ghs sweep --protocol echo --by rule`
/// ```
pub fn put_seed<P: Ends + FixedWords>(
    alloc: Global,
    setting: P::Setting,
    text: &mut Vec<u8>,
    form: Form,
    front: &[u8],
    by: By,
    columns: &[Column],
    graph: &Graph,
    setup: Setup,
    seed: u64,
) -> Result<(), AllocError>
    requires { P.goes_by setting }
    ensures { IfOk result (λ _. (lines : List ℕ) × IsPartedRun P.rules P.words P.has_ended form front.now by columns.now graph.now setup seed lines × (text.new.items ≡ text.old.items ++ lines)) }
{
    match by {
        By::Node => put_by_node::<P>(
            alloc, setting, text, form, front, columns, graph, setup, seed,
        ),
        By::Level => Ok(()),
        By::Rule => put_by_row::<P>(
            alloc, setting, text, form, front, columns, graph, setup, seed,
        ),
    }
}

fn put_by_node<P: Ends + FixedWords>(
    alloc: Global,
    setting: P::Setting,
    text: &mut Vec<u8>,
    form: Form,
    front: &[u8],
    columns: &[Column],
    graph: &Graph,
    setup: Setup,
    seed: u64,
) -> Result<(), AllocError>
    requires { P.goes_by setting }
    ensures { IfOk result (λ _. (lines : List ℕ) × IsPrinted P.rules P.words P.has_ended (λ es. node_lines form front.now seed columns.now (node_parts P.rules P.words graph.now es)) graph.now setup seed lines × (text.new.items ≡ text.old.items ++ lines)) }
{
    let mut parts = NodeParts::none::<P>(alloc, setting, graph)?;
    let copy = graph.copy(alloc)?;
    run_followed_by_seed::<P, NodeParts>(
        alloc,
        setting,
        copy,
        setup.wake,
        setup.schedule_kind,
        seed,
        setup.turns,
        &mut parts,
    )?;
    put_nodes(text, form, front, seed, columns, parts.all())
}

fn put_by_row<P: Ends + FixedWords>(
    alloc: Global,
    setting: P::Setting,
    text: &mut Vec<u8>,
    form: Form,
    front: &[u8],
    columns: &[Column],
    graph: &Graph,
    setup: Setup,
    seed: u64,
) -> Result<(), AllocError>
    requires { P.goes_by setting }
    ensures { IfOk result (λ _. (lines : List ℕ) × IsPrinted P.rules P.words P.has_ended (λ es. row_lines form front.now seed columns.now (row_parts P.rules P.words graph.now es)) graph.now setup seed lines × (text.new.items ≡ text.old.items ++ lines)) }
{
    let mut rows = RowParts::none(alloc);
    let copy = graph.copy(alloc)?;
    run_followed_by_seed::<P, RowParts>(
        alloc,
        setting,
        copy,
        setup.wake,
        setup.schedule_kind,
        seed,
        setup.turns,
        &mut rows,
    )?;
    put_rows(text, form, front, seed, columns, rows.all()?)
}
