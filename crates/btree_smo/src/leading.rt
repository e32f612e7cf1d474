// Where a parent leads with a key.
ghost use Rattle.std.specs.Prelude.{◌↔◌, IsTrue};
ghost use Rattle.btree_smo.specs.Inside.{Leads};

use btree_descent::Swip;
use disk_image::Node;

// Whether the node leads to the page in this frame with the key.
pub(crate) fn leads(node: &Node, key: u64, frame: u32) -> bool
    ensures { IsTrue result ↔ Leads key frame node.now }
{
    if node.level() == 0 {
        return false;
    }
    if node.count() == 0 {
        return false;
    }
    if !node.covers(key) {
        return false;
    }
    if node.key_at(0) > key {
        return false;
    }
    node.route(key) == Swip::Frame(frame).word()
}
