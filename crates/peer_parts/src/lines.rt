//! The lines of a run by parts.
ghost use Rattle.std.specs.Prelude.{◌≡◌, ◌-◌, ◌^◌, ◌<◌, ◌++◌, IfOk, length};
ghost use Rattle.peer_parts.specs.Lines.{node_line, node_lines, row_line, row_lines};

use crate::columns::Column;
use crate::line::put_line;
use crate::nodes::NodePart;
use crate::rows::RowCount;
use ghs_choices::form::Form;
use peer_words::value::{Said, Value};
use std::alloc::AllocError;

/// Puts the lines of nodes, from node 1 on, behind a text, each behind the same front.
pub fn put_nodes(
    text: &mut Vec<u8>,
    form: Form,
    front: &[u8],
    seed: u64,
    columns: &[Column],
    parts: &[NodePart],
) -> Result<(), AllocError>
    requires { length parts.now < 2 ^ 64 - 1 }
    ensures { IfOk result (λ _. text.new.items ≡ text.old.items ++ node_lines form front.now seed columns.now parts.now) }
{
    for (place, part) in parts.iter().enumerate() {
        let node = Said::new(b"node", Value::Number(1 + place as u64));
        put_line(text, form, front, seed, columns, &node, part.counts())?;
    }
    Ok(())
}

/// Puts the lines of rows behind a text, each behind the same front.
pub fn put_rows(
    text: &mut Vec<u8>,
    form: Form,
    front: &[u8],
    seed: u64,
    columns: &[Column],
    rows: &[RowCount],
) -> Result<(), AllocError>
    ensures { IfOk result (λ _. text.new.items ≡ text.old.items ++ row_lines form front.now seed columns.now rows.now) }
{
    for row in rows {
        put_row(text, form, front, seed, columns, row)?;
    }
    Ok(())
}

fn put_row(
    text: &mut Vec<u8>,
    form: Form,
    front: &[u8],
    seed: u64,
    columns: &[Column],
    row: &RowCount,
) -> Result<(), AllocError>
    ensures { IfOk result (λ _. text.new.items ≡ text.old.items ++ row_line form front.now seed columns.now row.now) }
{
    let part = Said::new(b"rule", Value::Word(row.row.again()));
    put_line(text, form, front, seed, columns, &part, &[row.times])
}
