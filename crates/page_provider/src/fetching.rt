// A leaf that was read has these entries from then on.
ghost use Rattle.std.specs.Prelude.{◌≡◌, ◌<◌, true};
ghost use Rattle.page_model.specs.Nodes.{is_leaf};
ghost use Rattle.btree_descent.specs.row_words.Moments.{pager};
ghost use Rattle.btree_descent.specs.rows_trait.Views.{may};
ghost use Rattle.page_provider.specs.Fetches.{HasTold};

use btree_descent::{BtreeNodeNode as Node, Names, Rows};

// A page with what was read of it.
#[derive(Drop)]
struct Found {
    page: u32,
    node: Node,
}

impl Names for Found {
    ghost use Rattle.std.specs.Prelude.{[], ◌∷◌};
    ghost use Rattle.page_provider.specs.Fetches.{fetch_of};

    ghost names = { λ s _. fetch_of s.page s.node ∷ [] };
}

// Whether a node is a leaf.
fn is_leaf(node: &Node) -> bool
    ensures { result ≡ is_leaf node.now.node }
{
    node.is_live() && node.level() == 0
}

// Says that a page that was read is this. Of a leaf that is an event: nobody knows what a device gives that tells nothing, and so
// its entries are those that it has, and not those that were saved.
pub(crate) fn fetch<R: Rows>(rows: &mut R, seat: &mut R::Seat, page: u32, node: Node) -> Node
    requires fits { R.fits rows.old seat.old }
    requires actor { may (R.shape rows.old).alone (R.view seat.old) pager ≡ true }
    requires workers { 0 < (R.shape rows.old).sizes.workers }
    ensures fits { R.fits rows.new seat.new × (R.shape rows.new ≡ R.shape rows.old) }
    ensures same { result ≡ node }
    ensures told { HasTold (R.shape rows.old) (R.view seat.old) page node (R.view seat.new) }
{
    if !is_leaf(&node) {
        return node;
    }
    let found = Found { page, node };
    rows.load_control(seat, 1, 0, &found);
    found.node
}
