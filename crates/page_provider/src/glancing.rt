// What single words of a frame's row say, without a latch and without a copy of the node that stands there.
ghost use Rattle.std.specs.Prelude.{◌≡◌, ◌<◌, ◌≤◌, ℕ, true, false, [], IfOk, IfErr, length, slice_index};
ghost use Rattle.page_model.specs.Page as stored;
ghost use Rattle.btree_descent.specs.btree_node.Words.{words_of, Fits};
ghost use Rattle.btree_descent.specs.row_words.Moments.{pager};
ghost use Rattle.btree_descent.specs.row_words.Words.{is_inner};
ghost use Rattle.btree_descent.specs.rows_trait.Layout.{rows_of, width};
ghost use Rattle.btree_descent.specs.rows_trait.Views.{Has, IsEven, may, state};
ghost use Rattle.btree_descent.specs.Descents.{Sized};
ghost use Rattle.btree_descent.specs.Known.{IsSound};
ghost use Rattle.row_image.specs.Hot.{IsBare};
ghost use Rattle.row_image.specs.Images.{IsMissed};
ghost use Rattle.row_image.specs.Inside.{Again, Begun, IsMovedSince, Refused};
ghost use Rattle.row_image.specs.Looks.{Watched};
ghost use Rattle.page_provider.specs.Finds.{HasPair, NamesIn};
ghost use Rattle.page_provider.specs.Inside.{Missed};
ghost use Rattle.page_provider.specs.Refusals.{IsOthers};

use crate::looking::PAGER;
use crate::refusal::Refusal;
use btree_descent::{Checks, Glimpse, MARK, Misses, Rows};
use row_image::refusal::Unseen;

// Begins to look at a row.
fn begin<R: Rows>(rows: &mut R, seat: &mut R::Seat, row: u32) -> Result<Glimpse, Unseen>
    requires fits { R.fits rows.old seat.old }
    requires row { row < rows_of (R.shape rows.old).sizes }
    requires actor { may (R.shape rows.old).alone (R.view seat.old) pager ≡ true }
    ensures fits { R.fits rows.new seat.new × (R.shape rows.new ≡ R.shape rows.old) × ((R.view seat.new).held ≡ (R.view seat.old).held) }
    ensures ok { IfOk result (λ g. (g.row ≡ row) × Begun (R.shape rows.old).alone row g.version (R.view seat.old) (R.view seat.new)) }
    ensures err { IfErr result (λ why. Refused (R.shape rows.old).alone pager (λ q. q ≡ row) (R.view seat.old) why (R.view seat.new)) }
{
    match Glimpse::start(rows, seat, row, &Misses { worker: PAGER }) {
        Err(latched) => Err(Unseen::Latched(latched)),
        Ok(glimpse) => Ok(glimpse),
    }
}

// Whether the row still has the version.
fn again<R: Rows>(rows: &mut R, seat: &mut R::Seat, glimpse: &Glimpse) -> Result<(), Unseen>
    requires fits { R.fits rows.old seat.old }
    requires row { glimpse.now.row < rows_of (R.shape rows.old).sizes }
    requires version { IsEven glimpse.now.version }
    requires actor { may (R.shape rows.old).alone (R.view seat.old) pager ≡ true }
    ensures fits { R.fits rows.new seat.new × (R.shape rows.new ≡ R.shape rows.old) × ((R.view seat.new).held ≡ (R.view seat.old).held) }
    ensures ok { IfOk result (λ _. Again (R.shape rows.old).alone glimpse.now.row glimpse.now.version (R.view seat.old) (R.view seat.new)) }
    ensures err { IfErr result (λ why. IsMovedSince (R.shape rows.old).alone pager glimpse.now.row glimpse.now.version (R.view seat.old) why (R.view seat.new)) }
{
    let checks = Checks {
        worker: PAGER,
        version: glimpse.version,
    };
    match glimpse.check(rows, seat, &checks) {
        Ok(()) => Ok(()),
        Err(moved) => Err(Unseen::Moved(moved)),
    }
}

// Whether the row has no mark: under one no hot page stands there.
fn unmarked<R: Rows>(
    rows: &mut R,
    seat: &mut R::Seat,
    frames: u32,
    frame: u32,
) -> Result<bool, Unseen>
    requires fits { R.fits rows.old seat.old }
    requires sized { Sized (R.shape rows.old) (R.view seat.old) frames }
    requires frame { frame < frames }
    requires actor { may (R.shape rows.old).alone (R.view seat.old) pager ≡ true }
    ensures fits { R.fits rows.new seat.new × (R.shape rows.new ≡ R.shape rows.old) × ((R.view seat.new).held ≡ (R.view seat.old).held) }
    ensures ok { IfOk result (λ hot. hot ≡ false → IsBare (R.view seat.new).given (state (R.view seat.new)) frame) }
    ensures kept { IfOk result (λ _. Watched (R.shape rows.old).alone (R.view seat.old) (R.view seat.new)) }
    ensures cause { IfErr result (λ why. IsMissed (R.shape rows.old).alone pager (R.view seat.old) why (R.view seat.new)) }
    ensures quiet { IfErr result (λ _. (R.shape rows.old).alone ≡ true → (R.view seat.old).held ≡ [] → ⊥) }
{
    let glimpse = match begin(rows, seat, frame) {
        Err(why) => return Err(why),
        Ok(found) => found,
    };
    let hint = glimpse.word(rows, seat, 126);
    match again(rows, seat, &glimpse) {
        Ok(()) => Ok(hint != MARK),
        Err(why) => Err(why),
    }
}

// Whether a page may stand hot in the frame: where none does its row has a mark.
pub(crate) fn is_hot<R: Rows>(
    rows: &mut R,
    seat: &mut R::Seat,
    frames: u32,
    frame: u32,
) -> Result<bool, Refusal>
    requires fits { R.fits rows.old seat.old }
    requires sized { Sized (R.shape rows.old) (R.view seat.old) frames }
    requires frame { frame < frames }
    requires actor { may (R.shape rows.old).alone (R.view seat.old) pager ≡ true }
    ensures fits { R.fits rows.new seat.new × (R.shape rows.new ≡ R.shape rows.old) × ((R.view seat.new).held ≡ (R.view seat.old).held) }
    ensures ok { IfOk result (λ hot. hot ≡ false → IsBare (R.view seat.new).given (state (R.view seat.new)) frame) }
    ensures kept { IfOk result (λ _. Watched (R.shape rows.old).alone (R.view seat.old) (R.view seat.new)) }
    ensures err { IfErr result (λ why. Missed (R.shape rows.old) (R.view seat.old) why (R.view seat.new)) }
    ensures kind { IfErr result IsOthers }
{
    match unmarked(rows, seat, frames, frame) {
        Ok(hot) => Ok(hot),
        Err(Unseen::Moved(moved)) => Err(Refusal::Moved(moved)),
        Err(Unseen::Latched(latched)) => Err(Refusal::Latched(latched)),
    }
}

// How many pairs of a node with this head name pages: those of an inner node do, and no others.
fn naming_pairs(packed: u64) -> u32
    ensures few { result ≤ 60 }
    ensures inner { (n : stored.Page) → Fits n → packed ≡ slice_index (words_of n) 3 → is_inner n.node ≡ true → result ≡ length n.node.pairs }
    ensures some { 0 < result → (n : stored.Page) → Fits n → packed ≡ slice_index (words_of n) 3 → (is_inner n.node ≡ true) × (result ≡ length n.node.pairs) }
{
    if packed / 256 % 256 == 0 {
        return 0;
    }
    if packed / 16777216 != 1 {
        return 0;
    }
    let count = (packed % 256) as u32;
    if 60 < count {
        return 0;
    }
    count
}

// Whether a pair of the inner node in the row has this word. Each word is loaded where it stands.
fn has_pair<R: Rows>(rows: &mut R, seat: &mut R::Seat, glimpse: &Glimpse, word: u64) -> bool
    requires fits { R.fits rows.old seat.old }
    requires row { (glimpse.now.row < rows_of (R.shape rows.old).sizes) × (width (R.shape rows.old).sizes glimpse.now.row ≡ 128) }
    requires seen { Has glimpse.now.row glimpse.now.version (R.view seat.old).steps }
    ensures fits { R.fits rows.new seat.new × (R.shape rows.new ≡ R.shape rows.old) }
    ensures watched { Watched (R.shape rows.old).alone (R.view seat.old) (R.view seat.new) }
    ensures pair { HasPair glimpse.now.row glimpse.now.version word (R.view seat.new).steps result }
{
    let packed = glimpse.word(rows, seat, 3);
    let count = naming_pairs(packed);
    for i in 0..count {
        if glimpse.word(rows, seat, 7 + 2 * i) == word {
            return true;
        }
    }
    false
}

// Whether a page stands hot in the frame that has a pair with this word.
fn named_in<R: Rows>(
    rows: &mut R,
    seat: &mut R::Seat,
    frames: u32,
    frame: u32,
    word: u64,
) -> Result<bool, Unseen>
    requires fits { R.fits rows.old seat.old }
    requires sized { Sized (R.shape rows.old) (R.view seat.old) frames }
    requires frame { frame < frames }
    requires actor { may (R.shape rows.old).alone (R.view seat.old) pager ≡ true }
    requires sound { IsSound (R.view seat.old).given }
    ensures fits { R.fits rows.new seat.new × (R.shape rows.new ≡ R.shape rows.old) × ((R.view seat.new).held ≡ (R.view seat.old).held) }
    ensures ok { IfOk result (λ yes. NamesIn frame word yes (R.view seat.new)) }
    ensures kept { IfOk result (λ _. Watched (R.shape rows.old).alone (R.view seat.old) (R.view seat.new)) }
    ensures cause { IfErr result (λ why. IsMissed (R.shape rows.old).alone pager (R.view seat.old) why (R.view seat.new)) }
    ensures quiet { IfErr result (λ _. (R.shape rows.old).alone ≡ true → (R.view seat.old).held ≡ [] → ⊥) }
{
    let glimpse = match begin(rows, seat, frame) {
        Err(why) => return Err(why),
        Ok(found) => found,
    };
    let hint = glimpse.word(rows, seat, 126);
    if hint == MARK {
        return match again(rows, seat, &glimpse) {
            Ok(()) => Ok(false),
            Err(why) => Err(why),
        };
    }
    let found = has_pair(rows, seat, &glimpse, word);
    match again(rows, seat, &glimpse) {
        Ok(()) => Ok(found),
        Err(why) => Err(why),
    }
}

// Whether the node that stands hot in the frame has a pair with this word.
pub(crate) fn names<R: Rows>(
    rows: &mut R,
    seat: &mut R::Seat,
    frames: u32,
    frame: u32,
    word: u64,
) -> Result<bool, Refusal>
    requires fits { R.fits rows.old seat.old }
    requires sized { Sized (R.shape rows.old) (R.view seat.old) frames }
    requires frame { frame < frames }
    requires actor { may (R.shape rows.old).alone (R.view seat.old) pager ≡ true }
    requires sound { IsSound (R.view seat.old).given }
    ensures fits { R.fits rows.new seat.new × (R.shape rows.new ≡ R.shape rows.old) × ((R.view seat.new).held ≡ (R.view seat.old).held) }
    ensures ok { IfOk result (λ yes. NamesIn frame word yes (R.view seat.new)) }
    ensures kept { IfOk result (λ _. Watched (R.shape rows.old).alone (R.view seat.old) (R.view seat.new)) }
    ensures err { IfErr result (λ why. Missed (R.shape rows.old) (R.view seat.old) why (R.view seat.new)) }
    ensures kind { IfErr result IsOthers }
{
    match named_in(rows, seat, frames, frame, word) {
        Ok(yes) => Ok(yes),
        Err(Unseen::Moved(moved)) => Err(Refusal::Moved(moved)),
        Err(Unseen::Latched(latched)) => Err(Refusal::Latched(latched)),
    }
}
