//! The figures of parts as lines.
ghost use Rattle.ghs_parts.specs.Lines.{line_behind, run_text};
ghost use Rattle.ghs_parts.specs.Rule.{rule_at};
ghost use Rattle.ghs_steps.specs.Words.{row_word};
ghost use Rattle.peer_parts.specs.Line.{line_behind as behind};
ghost use Rattle.peer_parts.specs.Lines.{numbered_lines, row_part};
ghost use Rattle.peer_network.specs.Network.{network_of};
ghost use Rattle.ghs_protocol.specs.Run.{IsRun};
ghost use Rattle.std.specs.Prelude.{◌≡◌, ◌+◌, ◌++◌, ◌≤◌, ◌^◌, ◌∷◌, [], IfOk, length};

use crate::part::Part;
use crate::parts::{first_of, parts_of};
use crate::rule::rule_at;
use ghs_choices::by::By;
use ghs_choices::form::Form;
use ghs_graph::graph::Graph;
use ghs_steps::words::row_word;
use peer_network::event::Event;
use peer_parts::columns::Column;
use peer_parts::line::put_line;
use peer_words::value::{Said, Value, Word};
use std::alloc::{AllocError, Global};

/// Puts the lines of all parts of a seed's run behind a text, each behind the same front. The events are played once more.
/// Refusal: out of memory.
///
/// ```text
/// let columns = columns_by::<Ghs>(alloc, By::Node, &names_of::<Ghs>(alloc)?)?;
/// put_run(alloc, &mut text, Form::Text, b"", By::Node, 7, &columns, world.graph(), world.trace())?;
/// // of the run of the triangle, as that of seed 7: `7,1,1,1,1,0,0,1,0`, `7,2,1,2,1,0,0,1,0`, `7,3,1,0,1,0,1,1,0`
/// ```
pub fn put_run(
    alloc: Global,
    text: &mut Vec<u8>,
    form: Form,
    front: &[u8],
    by: By,
    seed: u64,
    columns: &[Column],
    graph: &Graph,
    events: &[Event],
) -> Result<(), AllocError>
    requires run { IsRun (network_of graph.now) events.now }
    requires few { length events.now ≤ 2 ^ 40 }
    ensures { IfOk result (λ _. text.new.items ≡ text.old.items ++ run_text form front.now by seed columns.now graph.now events.now) }
{
    let parts = parts_of(alloc, graph, events, by)?;
    put_parts(text, form, front, by, seed, columns, first_of(by), &parts)
}

/// Puts the lines of parts of a seed's run, whose numbers rise from the first on, behind a text, each behind the same front:
/// what the lines of a network begin with, and in JSON an object that it opens. All parts of a run are numbered from
/// `first_of` on; a caller that writes by portions gives some of them.
pub fn put_parts(
    text: &mut Vec<u8>,
    form: Form,
    front: &[u8],
    by: By,
    seed: u64,
    columns: &[Column],
    first: u64,
    parts: &[Part],
) -> Result<(), AllocError>
    requires { first + length parts.now ≤ 2 ^ 64 }
    ensures { IfOk result (λ _. text.new.items ≡ text.old.items ++ numbered_lines (line_behind form front.now by seed columns.now) first parts.now) }
{
    for (place, part) in parts.iter().enumerate() {
        put_behind(
            text,
            form,
            front,
            by,
            seed,
            columns,
            first + place as u64,
            part,
        )?;
    }
    Ok(())
}

/// A front, and the line of a part.
fn put_behind(
    text: &mut Vec<u8>,
    form: Form,
    front: &[u8],
    by: By,
    seed: u64,
    columns: &[Column],
    number: u64,
    part: &Part,
) -> Result<(), AllocError>
    ensures { IfOk result (λ _. text.new.items ≡ text.old.items ++ line_behind form front.now by seed columns.now number part.now) }
{
    match by {
        By::Node => {
            let node = Said::new(b"node", Value::Number(number));
            put_line(text, form, front, seed, columns, &node, &part.kinds)
        }
        By::Level => {
            let level = Said::new(b"level", Value::Number(number));
            put_line(text, form, front, seed, columns, &level, &part.kinds)
        }
        By::Rule => put_row(text, form, front, seed, columns, number, part.events),
    }
}

/// A front, and the line of the row at a place of the table.
fn put_row(
    text: &mut Vec<u8>,
    form: Form,
    front: &[u8],
    seed: u64,
    columns: &[Column],
    place: u64,
    times: u64,
) -> Result<(), AllocError>
    ensures { IfOk result (λ _. text.new.items ≡ text.old.items ++ behind form front.now seed columns.now (row_part (row_word (rule_at place))) (times ∷ [])) }
{
    let word = Word::of(row_word(rule_at(place)));
    let row = Said::new(b"rule", Value::Word(word));
    put_line(text, form, front, seed, columns, &row, &[times])
}
