// From leaf to leaf.
ghost use Rattle.std.specs.Prelude.{◌<◌, ◌≤◌, length};
ghost use Rattle.map_model.specs.Maps.{key_end, value_end};
ghost use Rattle.page_model.specs.Tree.{IsTree, value};
ghost use Rattle.disk_image.specs.Formats.{format_of};
ghost use Rattle.node_tree.specs.Nodes.{nodes_of};
ghost use Rattle.pair_walk.specs.Fences.{IsFence};
ghost use Rattle.pair_walk.specs.Listings.{Lists, live};

use disk_image::Node;
use node_tree::leaf_of;

/// The page of the leaf that begins at this fence. The walk begins at 0 and goes on at the leaf's high fence.
pub fn leaf_from(pages: &[Node], fence: u64) -> usize
    requires tree { IsTree (format_of (length pages.now)) (nodes_of pages.now) }
    requires fence { IsFence (length pages.now) (nodes_of pages.now) fence }
    requires key { fence < key_end }
    ensures page { result < length pages.now }
    ensures pairs { Lists (value (format_of (length pages.now)) (nodes_of pages.now)) fence (nodes_of pages.now result).high (live value_end (nodes_of pages.now result).pairs) }
    ensures within { (nodes_of pages.now result).high ≤ key_end }
    ensures later { fence < (nodes_of pages.now result).high }
    ensures next { IsFence (length pages.now) (nodes_of pages.now) (nodes_of pages.now result).high }
{
    leaf_of(pages, fence)
}
