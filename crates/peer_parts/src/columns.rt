//! The columns of counts of a part's line.
ghost use Rattle.std.specs.Prelude.{◌≡◌, IfOk};
ghost use Rattle.peer_parts.specs.Columns.{columns_by, column_of, names_of, times_column};
ghost use Rattle.std.specs.Prelude.{map};

use ghs_choices::by::By;
use peer_sweep::swept::Swept;
use peer_sweep::table::kind_named;
use peer_words::value::Word;
use std::alloc::{AllocError, Global};

/// A column: its name, and the place of its count among those of a part; none, where the protocol has no such kind.
#[derive(Drop)]
pub struct Column {
    pub name: Word<'static>,
    pub place: Option<usize>,
}

/// The names of the kinds of a protocol's messages, in their order. Refusal: out of memory.
pub fn names_of<P: Swept>(alloc: Global) -> Result<Vec<Word<'static>>, AllocError>
    ensures { IfOk result (λ names. names.items ≡ names_of P.about) }
{
    let mut names = Vec::new(alloc);
    for kind in 0..P::kinds() {
        names.push(P::kind_name(kind))?;
    }
    Ok(names)
}

/// The columns of a protocol's lines: a column for each of these names of kinds, or how often a row applied. Refusal: out of
/// memory.
///
/// ```text
/// let columns = columns_by::<ByRules<Echo>>(alloc, By::Node, &[Word::of(b"echo"), Word::of(b"test")])?;
/// // `test` has a column, which stays empty: the echo wave sends none
/// ```
pub fn columns_by<P: Swept>(
    alloc: Global,
    by: By,
    names: &[Word<'static>],
) -> Result<Vec<Column>, AllocError>
    ensures { IfOk result (λ columns. columns.items ≡ columns_by by P.about names.now) }
{
    match by {
        By::Node | By::Level => kind_columns::<P>(alloc, names),
        By::Rule => Ok(vec![in alloc; times_column()]?),
    }
}

/// A column for each name of a kind.
fn kind_columns<P: Swept>(alloc: Global, names: &[Word<'static>]) -> Result<Vec<Column>, AllocError>
    ensures { IfOk result (λ columns. columns.items ≡ map (column_of P.about) names.now) }
{
    let mut columns = Vec::new(alloc);
    for name in names {
        columns.push(Column {
            name: name.again(),
            place: kind_named::<P>(name),
        })?;
    }
    Ok(columns)
}

/// How often a row applied.
fn times_column() -> Column
    ensures { result ≡ times_column }
{
    Column {
        name: Word::of(b"times"),
        place: Some(0),
    }
}
