// A swip, and the word that spells it.
ghost use Rattle.std.specs.Prelude.{◌≡◌, ◌<◌, ◌≤◌, ◌-◌, ℕ, Some, IfSome, IfNone};
ghost use Rattle.page_model.specs.Limits.{frame_bit};
ghost use Rattle.row_words.specs.core_state.States.{Place};
ghost use Rattle.row_words.specs.Words.{swip};
ghost use Rattle.swips.specs.declared.swip.Swip.{Swip};
ghost use Rattle.swips.specs.Swips.{word_of, swip_of, Spells, IsSpelling};

use page_model::limits::FRAME_BIT;

/// What an inner node names a child by: the frame where the child is hot, else the number of its page.
#[derive(Clone, Copy, Debug, PartialEq, Eq)]
pub enum Swip {
    Frame(u32),
    Page(u32),
}

impl Swip {
    /// The word of a pair with this swip.
    pub fn word(self) -> u64
        ensures answer { result ≡ word_of self }
        ensures places { (place : Place) (page : ℕ) → swip_of place page ≡ self → result ≡ swip place page }
    {
        match self {
            Swip::Frame(frame) => FRAME_BIT + u64::from(frame),
            Swip::Page(page) => u64::from(page),
        }
    }

    /// The swip that a word spells; none exactly where it spells none.
    pub fn from_word(word: u64) -> Option<Swip>
        ensures answer { IfSome result (Spells word) }
        ensures every { (s : Swip) → Spells word s → result ≡ Some s }
        ensures cause { IfNone result (IsSpelling word → ⊥) }
    {
        if word < FRAME_BIT {
            return match u32::try_from(word) {
                Ok(page) => Some(Swip::Page(page)),
                Err(_) => None,
            };
        }
        match u32::try_from(word - FRAME_BIT) {
            Ok(frame) => Some(Swip::Frame(frame)),
            Err(_) => None,
        }
    }
}

/// The row of a word that names a frame, 0 where no row is that frame's. The word of a node that has not moved names a frame that is
/// there.
#[inline(always)]
pub fn row_of(word: u64, frames: u32) -> u32
    requires some { 0 < frames }
    requires frame { frame_bit ≤ word }
    ensures within { result < frames }
    ensures same { word - frame_bit < frames → result ≡ word - frame_bit }
{
    let frame = word - FRAME_BIT;
    if frame < frames as u64 {
        frame as u32
    } else {
        0
    }
}
