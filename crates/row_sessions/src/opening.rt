//! Whether pages are what rows may begin with.
ghost use Rattle.std.specs.Prelude.{◌≡◌, ◌≤◌, ◌<◌, ℕ, true, IfOk, length};
ghost use Rattle.row_opening.specs.Opened.{ArePages, page_at};
ghost use Rattle.btree_descent.specs.row_words.Moments.{format_of};
ghost use Rattle.page_model.specs.Tree.{IsTree};
ghost use Rattle.row_sessions.specs.Standing.{IsTreeOf, AreNumbered};

use btree_descent::BtreeNodeNode as Node;
use node_tree::first_break;
use page_model::every_check;
use std::alloc::{AllocError, Global};

// The nodes are a tree.
fn is_tree(alloc: Global, pages: &[Node]) -> Result<bool, AllocError>
    ensures { IfOk result (λ b. b ≡ true → IsTreeOf pages.now) }
{
    every_check();
    Ok(!pages.is_empty() && first_break(alloc, pages)?.is_none())
}

// Each page bears its own number, and its last change has a number up to the base and the log of a worker, or of none.
fn are_numbered(pages: &[Node], workers: u32, base: u64) -> bool
    ensures { result ≡ true → AreNumbered pages.now workers base (length pages.now) }
{
    for page in 0..pages.len() {
        let node = &pages[page];
        if node.number() != page as u64 || node.gsn() > base || node.last_log() > workers {
            return false;
        }
    }
    true
}

/// Whether rows may begin with these pages, and their last logs are workers' or none.
pub fn are_pages(alloc: Global, pages: &[Node], workers: u32, base: u64) -> Result<bool, AllocError>
    requires few { workers ≤ 16 }
    ensures { IfOk result (λ b. b ≡ true → ArePages pages.now base) }
{
    Ok(is_tree(alloc, pages)? && are_numbered(pages, workers, base))
}
