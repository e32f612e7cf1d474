// The words of a held row, loaded and stored.
ghost use Rattle.std.specs.Prelude.{◌≡◌, ◌<◌, ◌++◌, true, false, length, take, drop, slice_set};
ghost use Rattle.rows_trait.specs.Layout.{rows_of, width};
ghost use Rattle.rows_trait.specs.Views.{holds, held_at};
ghost use Rattle.row_words.specs.btree_node.Words.{words_of};
ghost use Rattle.held_rows.specs.Rows.{IsFrame, Stood, Wrote};

use lean_proto::Hold;
use row_words::Node;
use rows_trait::rows::Rows;

/// Loads the words of the page: the first 126 of the row.
pub fn load<R: Rows>(rows: &mut R, seat: &mut R::Seat, hold: &Hold, into: &mut [u64; 126])
    requires fits { R.fits rows.old seat.old }
    requires frame { IsFrame (R.shape rows.old) (R.view seat.old) hold.now.row }
    ensures fits { R.fits rows.new seat.new × (R.shape rows.new ≡ R.shape rows.old) }
    ensures stood { Stood (R.shape rows.old).alone (R.view seat.old) (R.view seat.new) }
    ensures words { into.new ≡ take 126 (held_at (R.view seat.old).held hold.now.row).was }
{
    for i in 0..126u32 {
        into[i as usize] = rows.load_word(seat, hold.row, i);
    }
}

/// Stores a word.
pub fn set_word<R: Rows>(rows: &mut R, seat: &mut R::Seat, hold: &mut Hold, word: u32, value: u64)
    requires fits { R.fits rows.old seat.old }
    requires place { (hold.old.row < rows_of (R.shape rows.old).sizes) × (word < width (R.shape rows.old).sizes hold.old.row) }
    requires held { (holds (R.view seat.old).held hold.old.row ≡ true) × ((held_at (R.view seat.old).held hold.old.row).done ≡ false) }
    ensures fits { R.fits rows.new seat.new × (R.shape rows.new ≡ R.shape rows.old) × (hold.new.row ≡ hold.old.row) }
    ensures wrote { Wrote (R.shape rows.old).alone hold.old.row (slice_set (held_at (R.view seat.old).held hold.old.row).now word value) (R.view seat.old) (R.view seat.new) }
{
    hold.set(rows, seat, word, value);
}

/// Stores the words of a page: the first 126 of the row.
pub fn store<R: Rows>(rows: &mut R, seat: &mut R::Seat, hold: &mut Hold, node: &Node)
    requires fits { R.fits rows.old seat.old }
    requires row { (hold.old.row < rows_of (R.shape rows.old).sizes) × (width (R.shape rows.old).sizes hold.old.row ≡ 128) }
    requires held { (holds (R.view seat.old).held hold.old.row ≡ true) × ((held_at (R.view seat.old).held hold.old.row).done ≡ false) }
    requires size { length (held_at (R.view seat.old).held hold.old.row).now ≡ 128 }
    ensures fits { R.fits rows.new seat.new × (R.shape rows.new ≡ R.shape rows.old) × (hold.new.row ≡ hold.old.row) }
    ensures wrote { Wrote (R.shape rows.old).alone hold.old.row (words_of node.now ++ drop 126 (held_at (R.view seat.old).held hold.old.row).now) (R.view seat.old) (R.view seat.new) }
{
    let words = node.words();
    for i in 0..126u32 {
        hold.set(rows, seat, i, words[i as usize]);
    }
}
