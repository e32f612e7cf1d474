// The words of frame rows.
ghost use Rattle.std.specs.Prelude.{◌≡◌, ◌+◌, ◌*◌, ◌<◌, ◌≤◌, ◌^◌, length, replicate, slice_get};
ghost use Rattle.page_model.specs.Limits.{leaf_room};
ghost use Rattle.row_opening.specs.Opened.{page_at};
ghost use Rattle.row_opening.specs.Inside.{linked_page, turned, ArePlain, HasPlain, page_row, empty_row, frame_row, root_row, AreTiled};

use page_model::limits::FRAME_BIT;
use rows_trait::Node;
use swips::{MARK, NO_HINT};

/// Sets the words of each frame row: each page stands in the frame of its own number, and the frames behind the last one are empty. The
/// rows lie from `first` on, each behind its latch.
pub(crate) fn set_frames(words: &mut [u64], first: usize, frames: u32, pages: &[Node])
    requires size { first + 129 * frames ≤ length words.old }
    requires few { first + 129 * frames < 2 ^ 63 }
    requires zeros { words.old ≡ replicate (length words.old) 0 }
    requires children { (p : _) → HasPlain (page_at pages.now p) }
    ensures { AreTiled (λ p. frame_row (slice_get pages.now p)) first 129 frames words.old words.new }
{
    for frame in 0..frames as usize {
        let at = first + 129 * frame;
        set_frame(&mut words[at..at + 129], pages, frame);
    }
}

/// Sets the words of each frame row: the root stands in frame 0 as it is, since none of its children is in a frame,
/// and the other frames are empty. The rows lie from `first` on, each behind its latch.
pub(crate) fn set_root(words: &mut [u64], first: usize, frames: u32, root: &Node)
    requires size { first + 129 * frames ≤ length words.old }
    requires few { first + 129 * frames < 2 ^ 63 }
    requires some { 1 ≤ frames }
    requires zeros { words.old ≡ replicate (length words.old) 0 }
    ensures { AreTiled (root_row root.now) first 129 frames words.old words.new }
{
    set_page(&mut words[first..first + 129], root);
    for frame in 1..frames as usize {
        let at = first + 129 * frame;
        set_empty(&mut words[at..at + 129]);
    }
}

/// Sets the words of one frame row.
fn set_frame(row: &mut [u64], pages: &[Node], frame: usize)
    requires zeros { row.old ≡ replicate 129 0 }
    requires children { HasPlain (page_at pages.now frame) }
    ensures { row.new ≡ frame_row (slice_get pages.now frame) }
{
    if frame < pages.len() {
        set_page(row, &pages[frame]);
        link_page(row, &pages[frame]);
    } else {
        set_empty(row);
    }
}

/// Sets the words of an empty frame.
fn set_empty(row: &mut [u64])
    requires zeros { row.old ≡ replicate 129 0 }
    ensures { row.new ≡ empty_row }
{
    row[127] = MARK;
}

/// Sets the words of a page, which was saved as it stands.
fn set_page(row: &mut [u64], page: &Node)
    requires zeros { row.old ≡ replicate 129 0 }
    ensures { row.new ≡ page_row page.now }
{
    row[1..127].copy_from_slice(page.words());
    row[127] = NO_HINT;
    row[128] = page.gsn();
}

/// The children of the page stand in the frames of their own numbers.
fn link_page(row: &mut [u64], page: &Node)
    requires page { row.old ≡ page_row page.now }
    requires children { HasPlain page.now }
    ensures { row.new ≡ page_row (linked_page page.now) }
{
    if page.level() > 0 {
        link(&mut row[7..127], page.count());
    }
}

/// The word of each pair, a child's page number, becomes the word that names the child's frame.
fn link(pairs: &mut [u64], count: usize)
    requires room { count ≤ leaf_room }
    requires plain { ArePlain count pairs.old }
    ensures { pairs.new ≡ turned count pairs.old }
{
    for pair in 0..count {
        let child = pairs[2 * pair + 1];
        pairs[2 * pair + 1] = FRAME_BIT + child;
    }
}
