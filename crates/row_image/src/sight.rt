//! A page as it was seen in a frame row.
ghost use Rattle.std.specs.Prelude.{◌≡◌, ◌≢◌, ◌<◌, ◌≤◌, ◌+◌, ◌^◌, ℕ, true, false, IfSome, IfNone};
ghost use Rattle.page_model.specs.Limits.{frame_bit};
ghost use Rattle.page_model.specs.Page.{word_at};
ghost use Rattle.btree_descent.specs.core_state.Needs.{has_hot_child};
ghost use Rattle.btree_descent.specs.row_words.declared.given.Given.{Given};
ghost use Rattle.btree_descent.specs.row_words.Moments.{Moment};
ghost use Rattle.btree_descent.specs.row_words.Openings.{opening};
ghost use Rattle.btree_descent.specs.row_words.Words.{is_inner};
ghost use Rattle.btree_descent.specs.Known.{Sound};
ghost use Rattle.row_image.specs.Hot.{StandsIn};
ghost use Rattle.row_image.specs.Sights.{HasHotChild, IsFirst, HasNone};

use btree_descent::{BtreeNodeNode as Node, Glimpse, Swip};

/// A page that stands hot in a frame row, as it stands there (it names its children by swips), and the version of the row from which it
/// was taken. `hint` is the word of the row that may name the frame of the node above.
#[derive(Drop)]
pub struct Sight {
    pub glimpse: Glimpse,
    pub hint: u64,
    pub node: Node,
}

// Whether the page is an inner node, whose pairs name pages.
fn names_pages(node: &Node) -> bool
    ensures { result ≡ is_inner node.now.node }
{
    node.is_live() && 0 < node.level()
}

// The frame that a pair's word is of.
fn frame_of(word: u64) -> Option<u32>
    ensures some { IfSome result (λ f. word ≡ frame_bit + f) }
    ensures none { IfNone result ((f : ℕ) → f < 2 ^ 32 → word ≢ frame_bit + f) }
{
    match Swip::from_word(word) {
        Some(Swip::Frame(frame)) => Some(frame),
        _ => None,
    }
}

impl Sight {
    /// The frame of the first child that is hot.
    pub fn hot_child(&self) -> Option<u32>
        ensures first { IfSome result (λ f. (at : ℕ) × IsFirst self.now.node (frame_bit + f) at × ((j g : ℕ) → j < at → g < 2 ^ 32 → word_at j self.now.node.node.pairs ≢ frame_bit + g)) }
        ensures some { IfSome result (λ f. (v : Given) (m : Moment) → Sound v m → StandsIn v m self.now.glimpse.row self.now.node → HasHotChild v m self.now.node.number f) }
        ensures none { IfNone result ((v : Given) (m : Moment) → (opening v).frames ≤ 2 ^ 32 → Sound v m → StandsIn v m self.now.glimpse.row self.now.node → has_hot_child (opening v) m.core self.now.node.number ≡ false) }
    {
        if !names_pages(&self.node) {
            return None;
        }
        for i in 0..self.node.count() {
            if let Some(frame) = frame_of(self.node.word_at(i)) {
                return Some(frame);
            }
        }
        None
    }

    /// The first pair of an inner node that has this word: `frame_bit` and a frame, or the number of a page that is not hot.
    pub fn pair_with(&self, word: u64) -> Option<u32>
        ensures some { IfSome result (λ at. IsFirst self.now.node word at) }
        ensures none { IfNone result (HasNone self.now.node word) }
    {
        if !names_pages(&self.node) {
            return None;
        }
        for i in 0..self.node.count() {
            if self.node.word_at(i) == word {
                return Some(i as u32);
            }
        }
        None
    }
}
