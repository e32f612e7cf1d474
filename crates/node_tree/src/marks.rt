// A row of marks: which pages the inner nodes name.
ghost use Rattle.std.specs.Prelude.{◌≡◌, ◌==◌, length, IfOk};
ghost use Rattle.page_model.specs.Pairs.{spans};
ghost use Rattle.page_model.specs.Records.{any};
ghost use Rattle.page_model.specs.Check.{names_page};
ghost use Rattle.node_tree.specs.Inside.{Gains, IsNamedBelow};

use disk_image::Node;
use std::alloc::{AllocError, Global};

/// A mark for each page, set where an inner node names it.
pub(crate) fn named_pages(alloc: Global, pages: &[Node]) -> Result<Vec<bool>, AllocError>
    ensures { IfOk result (λ row. IsNamedBelow pages.now (length pages.now) row.items) }
{
    let mut row = vec![in alloc; false; pages.len()]?;
    for node in pages {
        mark_named(&mut row, node);
    }
    Ok(row)
}

fn mark_named(row: &mut [bool], node: &Node)
    ensures { Gains (λ p. names_page node.now.node p) row.old row.new }
{
    if node.is_live() && node.level() > 0 {
        mark_children(row, node);
    }
}

fn mark_children(row: &mut [bool], node: &Node)
    ensures { Gains (λ p. any (λ s. s.child == p) (spans node.now.node.pairs node.now.node.high)) row.old row.new }
{
    for i in 0..node.count() {
        mark(row, node.word_at(i));
    }
}

// A word may be any number: one beyond the last page has no mark.
fn mark(row: &mut [bool], word: u64)
    ensures { Gains (λ p. word == p) row.old row.new }
{
    let place = word as usize;
    if place < row.len() {
        row[place] = true;
    }
}
