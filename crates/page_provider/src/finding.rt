// What is looked for in the frames, without a latch: a page that can be cooled, the node that names a page, the frame of a hot page.
ghost use Rattle.std.specs.Prelude.{◌≡◌, ◌<◌, ◌^◌, ℕ, true, [], IfOk, IfErr};
ghost use Rattle.btree_descent.specs.row_words.Moments.{pager};
ghost use Rattle.btree_descent.specs.row_words.Openings.{opening};
ghost use Rattle.btree_descent.specs.rows_trait.Views.{may};
ghost use Rattle.btree_descent.specs.Descents.{Sized};
ghost use Rattle.btree_descent.specs.Known.{IsSound};
ghost use Rattle.row_image.specs.Looks.{Watched};
ghost use Rattle.row_image.specs.Sights.{HasSeen};
ghost use Rattle.page_provider.specs.Finds.{Candidate, NamedIn, Naming, NamingIn, Standing};
ghost use Rattle.page_provider.specs.Inside.{Missed};
ghost use Rattle.page_provider.specs.Refusals.{IsOthers};

use crate::glancing::names;
use crate::laws::laws;
use crate::looking::PAGER;
use crate::refusal::Refusal;
use btree_descent::{DEEPEST, Rows};
use row_image::frame;
use row_image::refusal::Unseen;
use row_image::sight::Sight;

// The page that stands hot in a frame, as it is seen there.
fn sight<R: Rows>(
    rows: &mut R,
    seat: &mut R::Seat,
    frames: u32,
    frame: u32,
) -> Result<Option<Sight>, Refusal>
    requires fits { R.fits rows.old seat.old }
    requires sized { Sized (R.shape rows.old) (R.view seat.old) frames }
    requires frame { frame < frames }
    requires actor { may (R.shape rows.old).alone (R.view seat.old) pager ≡ true }
    requires sound { IsSound (R.view seat.old).given }
    ensures fits { R.fits rows.new seat.new × (R.shape rows.new ≡ R.shape rows.old) × ((R.view seat.new).held ≡ (R.view seat.old).held) }
    ensures ok { IfOk result (λ seen. HasSeen (R.shape rows.old).alone frame (R.view seat.old) seen (R.view seat.new)) }
    ensures kept { IfOk result (λ _. Watched (R.shape rows.old).alone (R.view seat.old) (R.view seat.new)) }
    ensures err { IfErr result (λ why. Missed (R.shape rows.old) (R.view seat.old) why (R.view seat.new)) }
    ensures kind { IfErr result IsOthers }
{
    match frame::sight(rows, seat, PAGER, frames, frame) {
        Ok(seen) => Ok(seen),
        Err(Unseen::Moved(moved)) => Err(Refusal::Moved(moved)),
        Err(Unseen::Latched(latched)) => Err(Refusal::Latched(latched)),
    }
}

// From a frame down to a page that has no hot child: the page that stands hot there, or a child of a child that does. Each step goes to
// the first child that is hot.
pub(crate) fn candidate<R: Rows>(
    rows: &mut R,
    seat: &mut R::Seat,
    frames: u32,
    frame: u32,
) -> Result<Option<Sight>, Refusal>
    requires fits { R.fits rows.old seat.old }
    requires sized { Sized (R.shape rows.old) (R.view seat.old) frames }
    requires frame { frame < frames }
    requires actor { may (R.shape rows.old).alone (R.view seat.old) pager ≡ true }
    requires sound { IsSound (R.view seat.old).given }
    ensures fits { R.fits rows.new seat.new × (R.shape rows.new ≡ R.shape rows.old) × ((R.view seat.new).held ≡ (R.view seat.old).held) }
    ensures ok { IfOk result (λ seen. Candidate (R.shape rows.old) (R.view seat.old) frame seen (R.view seat.new)) }
    ensures err { IfErr result (λ why. Missed (R.shape rows.old) (R.view seat.old) why (R.view seat.new)) }
{
    let mut at = frame;
    for _ in 0..DEEPEST {
        let Some(seen) = sight(rows, seat, frames, at)? else {
            return Ok(None);
        };
        match seen.hot_child() {
            None => return Ok(Some(seen)),
            Some(child) => at = child,
        }
    }
    Ok(None)
}

// The node whose pair has this word, and the pair: it is looked for in the first frame, and then in all of them.
pub(crate) fn naming<R: Rows>(
    rows: &mut R,
    seat: &mut R::Seat,
    frames: u32,
    first: u32,
    word: u64,
) -> Result<Option<(Sight, u32)>, Refusal>
    requires fits { R.fits rows.old seat.old }
    requires sized { Sized (R.shape rows.old) (R.view seat.old) frames }
    requires actor { may (R.shape rows.old).alone (R.view seat.old) pager ≡ true }
    requires sound { IsSound (R.view seat.old).given }
    ensures fits { R.fits rows.new seat.new × (R.shape rows.new ≡ R.shape rows.old) × ((R.view seat.new).held ≡ (R.view seat.old).held) }
    ensures ok { IfOk result (λ found. Naming (R.shape rows.old) (R.view seat.old) frames word found (R.view seat.new)) }
    ensures kept { IfOk result (λ _. Watched (R.shape rows.old).alone (R.view seat.old) (R.view seat.new)) }
    ensures err { IfErr result (λ why. Missed (R.shape rows.old) (R.view seat.old) why (R.view seat.new)) }
    ensures kind { IfErr result IsOthers }
{
    if first < frames {
        if let Some(found) = naming_in(rows, seat, frames, first, word)? {
            return Ok(Some(found));
        }
        return naming_any(rows, seat, frames, word);
    }
    naming_any(rows, seat, frames, word)
}

// It is looked for in all frames: by words in place, so that one node alone is seen as a whole.
fn naming_any<R: Rows>(
    rows: &mut R,
    seat: &mut R::Seat,
    frames: u32,
    word: u64,
) -> Result<Option<(Sight, u32)>, Refusal>
    requires fits { R.fits rows.old seat.old }
    requires sized { Sized (R.shape rows.old) (R.view seat.old) frames }
    requires actor { may (R.shape rows.old).alone (R.view seat.old) pager ≡ true }
    requires sound { IsSound (R.view seat.old).given }
    ensures fits { R.fits rows.new seat.new × (R.shape rows.new ≡ R.shape rows.old) × ((R.view seat.new).held ≡ (R.view seat.old).held) }
    ensures ok { IfOk result (λ found. Naming (R.shape rows.old) (R.view seat.old) frames word found (R.view seat.new)) }
    ensures kept { IfOk result (λ _. Watched (R.shape rows.old).alone (R.view seat.old) (R.view seat.new)) }
    ensures err { IfErr result (λ why. Missed (R.shape rows.old) (R.view seat.old) why (R.view seat.new)) }
    ensures kind { IfErr result IsOthers }
{
    let Some(frame) = named_any(rows, seat, frames, word)? else {
        return Ok(None);
    };
    naming_in(rows, seat, frames, frame, word)
}

// The first frame whose node has a pair with this word.
fn named_any<R: Rows>(
    rows: &mut R,
    seat: &mut R::Seat,
    frames: u32,
    word: u64,
) -> Result<Option<u32>, Refusal>
    requires fits { R.fits rows.old seat.old }
    requires sized { Sized (R.shape rows.old) (R.view seat.old) frames }
    requires actor { may (R.shape rows.old).alone (R.view seat.old) pager ≡ true }
    requires sound { IsSound (R.view seat.old).given }
    ensures fits { R.fits rows.new seat.new × (R.shape rows.new ≡ R.shape rows.old) × ((R.view seat.new).held ≡ (R.view seat.old).held) }
    ensures ok { IfOk result (λ found. NamedIn (R.shape rows.old) (R.view seat.old) frames word found (R.view seat.new)) }
    ensures kept { IfOk result (λ _. Watched (R.shape rows.old).alone (R.view seat.old) (R.view seat.new)) }
    ensures err { IfErr result (λ why. Missed (R.shape rows.old) (R.view seat.old) why (R.view seat.new)) }
    ensures kind { IfErr result IsOthers }
{
    for frame in 0..frames {
        if names(rows, seat, frames, frame, word)? {
            return Ok(Some(frame));
        }
    }
    Ok(None)
}

// The frame of a node that has a pair with this word: the first frame is looked at before all of them.
pub(crate) fn named<R: Rows>(
    rows: &mut R,
    seat: &mut R::Seat,
    frames: u32,
    first: u32,
    word: u64,
) -> Result<Option<u32>, Refusal>
    requires fits { R.fits rows.old seat.old }
    requires sized { Sized (R.shape rows.old) (R.view seat.old) frames }
    requires actor { may (R.shape rows.old).alone (R.view seat.old) pager ≡ true }
    requires sound { IsSound (R.view seat.old).given }
    ensures fits { R.fits rows.new seat.new × (R.shape rows.new ≡ R.shape rows.old) × ((R.view seat.new).held ≡ (R.view seat.old).held) }
    ensures ok { IfOk result (λ found. NamedIn (R.shape rows.old) (R.view seat.old) frames word found (R.view seat.new)) }
    ensures kept { IfOk result (λ _. Watched (R.shape rows.old).alone (R.view seat.old) (R.view seat.new)) }
    ensures err { IfErr result (λ why. Missed (R.shape rows.old) (R.view seat.old) why (R.view seat.new)) }
    ensures kind { IfErr result IsOthers }
{
    if first < frames {
        if names(rows, seat, frames, first, word)? {
            return Ok(Some(first));
        }
        return named_any(rows, seat, frames, word);
    }
    named_any(rows, seat, frames, word)
}

// The first pair with this word of the node in a frame.
fn naming_in<R: Rows>(
    rows: &mut R,
    seat: &mut R::Seat,
    frames: u32,
    frame: u32,
    word: u64,
) -> Result<Option<(Sight, u32)>, Refusal>
    requires fits { R.fits rows.old seat.old }
    requires sized { Sized (R.shape rows.old) (R.view seat.old) frames }
    requires frame { frame < frames }
    requires actor { may (R.shape rows.old).alone (R.view seat.old) pager ≡ true }
    requires sound { IsSound (R.view seat.old).given }
    ensures fits { R.fits rows.new seat.new × (R.shape rows.new ≡ R.shape rows.old) × ((R.view seat.new).held ≡ (R.view seat.old).held) }
    ensures ok { IfOk result (λ found. NamingIn (R.shape rows.old) (R.view seat.old) frame word found (R.view seat.new)) }
    ensures kept { IfOk result (λ _. Watched (R.shape rows.old).alone (R.view seat.old) (R.view seat.new)) }
    ensures err { IfErr result (λ why. Missed (R.shape rows.old) (R.view seat.old) why (R.view seat.new)) }
    ensures kind { IfErr result IsOthers }
{
    let Some(seen) = sight(rows, seat, frames, frame)? else {
        return Ok(None);
    };
    match seen.pair_with(word) {
        Some(at) => Ok(Some((seen, at))),
        None => Ok(None),
    }
}

// The frame in which the page stands hot.
pub(crate) fn standing<R: Rows>(
    rows: &mut R,
    seat: &mut R::Seat,
    frames: u32,
    page: u32,
) -> Result<Option<u32>, Refusal>
    requires fits { R.fits rows.old seat.old }
    requires sized { Sized (R.shape rows.old) (R.view seat.old) frames }
    requires actor { may (R.shape rows.old).alone (R.view seat.old) pager ≡ true }
    requires sound { IsSound (R.view seat.old).given }
    requires below { page < (opening (R.view seat.old).given).format.pages }
    ensures fits { R.fits rows.new seat.new × (R.shape rows.new ≡ R.shape rows.old) × ((R.view seat.new).held ≡ (R.view seat.old).held) }
    ensures ok { IfOk result (λ found. Standing (R.shape rows.old) (R.view seat.old) page found (R.view seat.new)) }
    ensures err { IfErr result (λ why. Missed (R.shape rows.old) (R.view seat.old) why (R.view seat.new)) }
    ensures kind { IfErr result IsOthers }
{
    laws();
    for frame in 0..frames {
        if let Some(seen) = sight(rows, seat, frames, frame)? {
            if seen.node.number() == u64::from(page) {
                return Ok(Some(frame));
            }
        }
    }
    Ok(None)
}
