//! How the lines of a protocol's runs are laid out.
ghost use Rattle.peer_sweep.specs.Columns.{column, columns_of, count_columns, end_columns, first_columns, fragment_columns, kind_column, kind_named, layout_of, length_columns};
ghost use Rattle.peer_sweep.specs.Runs.{about_words};
ghost use Rattle.std.specs.Prelude.{◌≡◌, ◌∷◌, ◌++◌, [], map, IfOk};

use crate::column::Column;
use crate::measure::Measure;
use crate::swept::Swept;
use crate::teller::{BySwept, ByWords, Teller};
use peer_words::value::Word;
use std::alloc::{AllocError, Global};
use std::marker::Model;

/// How the lines of a protocol's runs are laid out: its name, and their columns.
#[derive(Drop)]
pub struct Table<'w> {
    protocol: Word<'w>,
    columns: Vec<Column<'w>>,
}

impl<'w> Model for Table<'w> {
    ghost use Rattle.peer_sweep.specs.Columns.{Layout};

    ghost Value = { Layout };

    ghost view = { λ t. record { protocol = t.protocol; columns = t.columns.items } };
}

impl<'w> Table<'w> {
    /// The layout of a protocol's lines, in which kinds of messages of these names have columns. Refusal: out of memory.
    ///
    /// ```text
    /// let table = Table::of::<ByRules<Boruvka>>(alloc, &[Word::of(b"connect"), Word::of(b"test")])?;
    /// // `test` has a column, which stays empty: Borůvka in step sends none
    /// ```
    pub fn of<P: Swept>(
        alloc: Global,
        kinds: &[Word<'static>],
    ) -> Result<Table<'static>, AllocError>
        ensures { IfOk result (λ t. t ≡ layout_of P.about kinds.now) }
    {
        Ok(Table {
            protocol: P::name(),
            columns: columns_of(alloc, &BySwept::<P>::new(), kinds)?,
        })
    }

    /// The layout of the lines of a protocol that is known only when the program runs, by its name and the names of its kinds
    /// of messages: each has a column. One measure alone has one value in all runs of a graph that have ended: the bound.
    /// Refusal: out of memory.
    ///
    /// ```text
    /// let table = Table::by(alloc, Word::of(b"own"), &[Word::of(b"ping"), Word::of(b"pong")])?;
    /// // its third column is `ping`, of messages of kind 0
    /// ```
    pub fn by(alloc: Global, name: Word<'w>, kinds: &[Word<'w>]) -> Result<Table<'w>, AllocError>
        ensures { IfOk result (λ t. t ≡ layout_of (about_words name.entry kinds.now) kinds.now) }
    {
        let teller = ByWords { name: &name, kinds };
        let columns = columns_of(alloc, &teller, kinds)?;
        Ok(Table {
            protocol: name,
            columns,
        })
    }

    /// The protocol's name.
    pub fn protocol(&self) -> &'w [u8]
        ensures { result.now ≡ self.now.protocol }
    {
        self.protocol.letters()
    }

    /// The columns of its lines behind the links.
    pub fn columns(&self) -> &[Column<'w>]
        ensures { result.now ≡ self.now.columns }
    {
        &self.columns
    }
}

/// The columns of a protocol's lines.
fn columns_of<'w, T: Teller>(
    alloc: Global,
    teller: &T,
    kinds: &[Word<'w>],
) -> Result<Vec<Column<'w>>, AllocError>
    ensures { IfOk result (λ columns. columns.items ≡ columns_of (T.about teller.now) kinds.now) }
{
    let mut columns = Vec::new(alloc);
    push_first(&mut columns, teller)?;
    push_kinds(&mut columns, teller, kinds)?;
    push_counts(&mut columns, teller)?;
    push_fragments(&mut columns, teller)?;
    push_end(&mut columns, teller)?;
    push_lengths(&mut columns, teller)?;
    Ok(columns)
}

/// Appends what happened.
#[tactic(auto, unfolding(crate::specs::Columns::first_columns))]
fn push_first<'w, T: Teller>(columns: &mut Vec<Column<'w>>, teller: &T) -> Result<(), AllocError>
    ensures { IfOk result (λ _. columns.new.items ≡ columns.old.items ++ first_columns (T.about teller.now)) }
{
    push(columns, teller, Word::of(b"events"), Measure::Events)?;
    push(columns, teller, Word::of(b"sent"), Measure::Sent)?;
    Ok(())
}

/// Appends the kinds of messages.
fn push_kinds<'w, T: Teller>(
    columns: &mut Vec<Column<'w>>,
    teller: &T,
    kinds: &[Word<'w>],
) -> Result<(), AllocError>
    ensures { IfOk result (λ _. columns.new.items ≡ columns.old.items ++ map (kind_column (T.about teller.now)) kinds.now) }
{
    for name in kinds {
        let kind = teller.kind_named(name);
        push(columns, teller, name.again(), Measure::Kind(kind))?;
    }
    Ok(())
}

/// Appends other counts of messages, and the bound.
#[tactic(auto, unfolding(crate::specs::Columns::count_columns))]
fn push_counts<'w, T: Teller>(columns: &mut Vec<Column<'w>>, teller: &T) -> Result<(), AllocError>
    ensures { IfOk result (λ _. columns.new.items ≡ columns.old.items ++ count_columns (T.about teller.now)) }
{
    push(columns, teller, Word::of(b"requeued"), Measure::Requeued)?;
    push(columns, teller, Word::of(b"queued"), Measure::Queued)?;
    push(columns, teller, Word::of(b"bound"), Measure::Bound)?;
    Ok(())
}

/// Appends the fragments, and their greatest level.
#[tactic(auto, unfolding(crate::specs::Columns::fragment_columns))]
fn push_fragments<'w, T: Teller>(
    columns: &mut Vec<Column<'w>>,
    teller: &T,
) -> Result<(), AllocError>
    ensures { IfOk result (λ _. columns.new.items ≡ columns.old.items ++ fragment_columns (T.about teller.now)) }
{
    push(columns, teller, Word::of(b"level"), Measure::Level)?;
    push(columns, teller, Word::of(b"fragments"), Measure::Fragments)?;
    Ok(())
}

/// Appends what the run has found, and how it ended.
#[tactic(auto, unfolding(crate::specs::Columns::end_columns))]
fn push_end<'w, T: Teller>(columns: &mut Vec<Column<'w>>, teller: &T) -> Result<(), AllocError>
    ensures { IfOk result (λ _. columns.new.items ≡ columns.old.items ++ end_columns (T.about teller.now)) }
{
    push(columns, teller, Word::of(b"weight"), Measure::Weight)?;
    push(columns, teller, Word::of(b"end"), Measure::Halted)?;
    Ok(())
}

/// Appends how long the run is.
#[tactic(auto, unfolding(crate::specs::Columns::length_columns))]
fn push_lengths<'w, T: Teller>(columns: &mut Vec<Column<'w>>, teller: &T) -> Result<(), AllocError>
    ensures { IfOk result (λ _. columns.new.items ≡ columns.old.items ++ length_columns (T.about teller.now)) }
{
    push(columns, teller, Word::of(b"chain"), Measure::Chain)?;
    push(columns, teller, Word::of(b"bits"), Measure::Bits)?;
    push(columns, teller, Word::of(b"longest"), Measure::Longest)?;
    Ok(())
}

/// Appends a column.
fn push<'w, T: Teller>(
    columns: &mut Vec<Column<'w>>,
    teller: &T,
    name: Word<'w>,
    measure: Measure,
) -> Result<(), AllocError>
    ensures { IfOk result (λ _. columns.new.items ≡ columns.old.items ++ column (T.about teller.now) name.entry measure ∷ []) }
{
    columns.push(Column {
        name,
        measure,
        is_fixed: teller.is_fixed(measure),
    })?;
    Ok(())
}

/// The kind of this name, if the protocol has one.
pub fn kind_named<P: Swept>(name: &Word) -> Option<usize>
    ensures { result ≡ kind_named P.about.kind name.now P.about.kinds }
{
    let mut found = None;
    for kind in 0..P::kinds() {
        if P::kind_name(kind).letters() == name.letters() {
            found = Some(kind);
        }
    }
    found
}
