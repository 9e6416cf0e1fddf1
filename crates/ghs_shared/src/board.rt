//! The board, its one publisher and its readers.
ghost use Rattle.std.specs.Prelude.{◌≡◌, ◌≤◌, ◌<◌, ◌^◌, [], ◌∷◌, ◌++◌, length, Ok, IfOk};
ghost use Rattle.ghs_shared.specs.Progress.{pair, last_of, NoLess, StartsWith, IsRising};

use crate::board_rule::{Another, Instead, News, Publishes, Reads, ReadsOwn, Rising, Watch};
use crate::progress::{Progress, pair_of, word_of};
use atomic_table::{Seat, Table};
use std::alloc::{AllocError, Global};
use std::marker::Model;
use std::sync::Arc;

type Word = Table<u8, Watch, Progress, Rising, Global>;

/// A word that one publisher raises and that readers load, from any thread. A contract sees the name of its table.
#[derive(Drop)]
pub struct Board {
    word: Arc<Word, Global>,
}

impl Model for Board {
    ghost use Rattle.std.specs.Prelude.{◌≡◌};
    ghost use Rattle.std.specs.Arc.{arc_value};
    ghost use Rattle.atomic_table.specs.Seated.{TableId, table_id_coded};

    ghost Value = { TableId };

    ghost coded = { table_id_coded };

    ghost view = { λ b. (arc_value b.word).shared.table_id };

    ghost invariant = { λ b. (arc_value b.word).shared.table_id.words ≡ 1 };
}

/// Who publishes on a board, of which it keeps a share. A contract sees the board's name and all that was published.
#[derive(Drop)]
pub struct Publisher {
    word: Arc<Word, Global>,
    seat: Seat<u8, Watch>,
    last: Progress,
}

impl Model for Publisher {
    ghost use Rattle.std.specs.Prelude.{◌≡◌, []};
    ghost use Rattle.std.specs.Arc.{arc_value};
    ghost use Rattle.ghs_shared.specs.Progress.{last_of};
    ghost use Rattle.ghs_shared.specs.Board.{Published, publisher_of};

    ghost Value = { Published };

    ghost view = { λ p. record { table = p.seat.table_id; list = p.seat.me.0.seen } };

    ghost invariant = { λ p. ((arc_value p.word).shared.table_id ≡ p.seat.table_id) × (p.seat.table_id.words ≡ 1) × (p.seat.me ≡ (publisher_of p.seat.me.0.seen, [])) × (p.last ≡ last_of p.seat.me.0.seen) };
}

/// Who reads on a board. A contract sees the board's name and what the reader has seen of all that was published.
#[derive(Drop)]
pub struct Reader {
    seat: Seat<u8, Watch>,
}

impl Model for Reader {
    ghost use Rattle.std.specs.Prelude.{◌≡◌, []};
    ghost use Rattle.ghs_shared.specs.Board.{Sight, reader_of};

    ghost Value = { Sight };

    ghost view = { λ r. record { table = r.seat.table_id; seen = r.seat.me.0.seen } };

    ghost invariant = { λ r. r.seat.me ≡ (reader_of r.seat.me.0.seen, []) };
}

impl Board {
    /// A board on which one pair was published, of at most 2^40 commits; its publisher, and a reader that has seen it.
    ///
    /// ```text
    /// let first = Progress { commits: 0, halted: false };
    /// let (board, mut publisher, mut reader) = Board::open(alloc, first)?;
    /// publisher.publish(7, false);
    /// let found = board.read(&mut reader);                      // 7 commits; by the contract it may be 0 still
    /// let last = board.read_beside(alloc, &mut reader, &mut publisher)?;      // exactly the last: 7 commits
    /// ```
    pub fn open(alloc: Global, first: Progress) -> Result<(Board, Publisher, Reader), AllocError>
        requires { first.commits ≤ 2 ^ 40 }
        ensures publisher { IfOk result (λ r. (r.1.table ≡ r.0) × (r.1.list ≡ first ∷ [])) }
        ensures reader { IfOk result (λ r. (r.2.table ≡ r.0) × (r.2.seen ≡ first ∷ [])) }
    {
        let start = word_of(first.commits, first.halted);
        let (table, mut seat) = Word::of_words(alloc, &[start], &first)?;
        let read = table.shared.split_seat::<Another>(&mut seat);
        let word = Arc::new(alloc, table)?;
        let share = Arc::try_clone(&word)?;
        let publisher = Publisher {
            word: share,
            seat,
            last: first,
        };
        Ok((Board { word }, publisher, Reader { seat: read }))
    }

    /// One load: the last pair of a beginning of all that was published, which the reader has then seen. It begins with
    /// all that the reader had seen. Never waits, takes no memory. The reader is one of this board.
    pub fn read(&self, reader: &mut Reader) -> Progress
        requires { reader.old.table ≡ self.now }
        ensures table { reader.new.table ≡ reader.old.table }
        ensures later { StartsWith reader.new.seen reader.old.seen }
        ensures some { 0 < length reader.new.seen }
        ensures last { result ≡ last_of reader.new.seen }
        ensures rising { NoLess (last_of reader.old.seen) result }
    {
        pair_of(self.word.shared.load::<Reads>(&mut reader.seat, 0))
    }

    /// Exactly the last pair published, for who has the publisher at hand; the reader has then seen all that was
    /// published. Never refused. Reader and publisher are of this board.
    pub fn read_beside(
        &self,
        _alloc: Global,
        reader: &mut Reader,
        publisher: &mut Publisher,
    ) -> Result<Progress, AllocError>
        requires reader { reader.old.table ≡ self.now }
        requires publisher { publisher.old.table ≡ self.now }
        ensures last { result ≡ Ok (last_of publisher.old.list) }
        ensures publisher { publisher.new ≡ publisher.old }
        ensures reader { (reader.new.table ≡ reader.old.table) × (reader.new.seen ≡ publisher.old.list) }
        ensures later { StartsWith publisher.old.list reader.old.seen }
    {
        let table = &self.word.shared;
        let told = table.split_seat::<Another>(&mut reader.seat);
        table.join_seat::<News>(&mut publisher.seat, told);
        let found = table.load::<ReadsOwn>(&mut publisher.seat, 0);
        let whole = table.split_seat::<Another>(&mut publisher.seat);
        table.join_seat::<Instead>(&mut reader.seat, whole);
        Ok(pair_of(found))
    }

    /// A second reader, which has seen what this one has. Never refused.
    pub fn split(&self, _alloc: Global, reader: &mut Reader) -> Result<Reader, AllocError>
        requires { reader.old.table ≡ self.now }
        ensures same { reader.new ≡ reader.old }
        ensures split { result ≡ Ok reader.old }
    {
        let seat = self.word.shared.split_seat::<Another>(&mut reader.seat);
        Ok(Reader { seat })
    }

    /// Two readers become one, which has seen at least what each had.
    pub fn join(&self, reader: &mut Reader, other: Reader)
        requires first { reader.old.table ≡ self.now }
        requires second { other.table ≡ self.now }
        ensures table { reader.new.table ≡ reader.old.table }
        ensures first { StartsWith reader.new.seen reader.old.seen }
        ensures second { StartsWith reader.new.seen other.seen }
        ensures rising { IsRising reader.new.seen × (0 < length reader.new.seen) }
    {
        let Reader { seat } = other;
        self.word.shared.join_seat::<News>(&mut reader.seat, seat);
        self.word.shared.load::<Reads>(&mut reader.seat, 0);
    }
}

impl Publisher {
    /// Publishes one pair more, of at most 2^40 commits; neither part may fall. Never waits, takes no memory.
    pub fn publish(&mut self, commits: u64, halted: bool)
        requires rising { NoLess (last_of self.old.list) (pair commits halted) }
        requires few { commits ≤ 2 ^ 40 }
        ensures table { self.new.table ≡ self.old.table }
        ensures list { self.new.list ≡ self.old.list ++ pair commits halted ∷ [] }
    {
        self.word
            .shared
            .fetch_max::<Publishes>(&mut self.seat, 0, word_of(commits, halted));
        self.last = Progress { commits, halted };
    }

    /// The last pair published.
    pub fn last(&self) -> Progress
        ensures { result ≡ last_of self.now.list }
    {
        self.last
    }
}
