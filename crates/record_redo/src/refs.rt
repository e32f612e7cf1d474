// The pages that a record names.
ghost use Rattle.std.specs.Prelude.{◌≡◌, ◌≤◌, ◌∷◌, []};
ghost use Rattle.disk_image.specs.log_record.Model.{model_ref, root_ref};
ghost use Rattle.disk_image.specs.Records.{refs_of};
ghost use Rattle.record_redo.specs.Inside.{refs_in, model_refs, are_below};

use disk_image::{Body, PageRef};

/// The first `count` of these.
#[derive(Clone, Copy)]
pub(crate) struct Refs {
    pub count: usize,
    pub refs: [PageRef; 3],
}

/// Where no page is named.
const NOWHERE: PageRef = PageRef { page: 0, prev: 0 };

/// The pages that a record changes. Those of lifts and drops are the root and the other page.
pub(crate) fn refs_of(body: &Body) -> Refs
    ensures answer { refs_in result ≡ refs_of body.now }
    ensures bound { result.count ≤ 3 }
{
    match body {
        Body::Change { leaf, .. } | Body::PutBack { leaf, .. } | Body::Purge { leaf, .. } => {
            one(*leaf)
        }
        Body::Split {
            left,
            right,
            parent,
            ..
        }
        | Body::Join {
            left,
            right,
            parent,
            ..
        } => Refs {
            count: 3,
            refs: [*left, *right, *parent],
        },
        Body::Lift {
            root_prev,
            page,
            ..
        } => with_root(*root_prev, *page),
        Body::DropRoot {
            root_prev,
            child,
            ..
        } => with_root(*root_prev, *child),
        Body::Commit { .. } | Body::Abort { .. } => Refs {
            count: 0,
            refs: [NOWHERE; 3],
        },
    }
}

fn one(leaf: PageRef) -> Refs
    ensures answer { refs_in result ≡ model_ref leaf ∷ [] }
    ensures bound { result.count ≤ 3 }
{
    Refs {
        count: 1,
        refs: [leaf, NOWHERE, NOWHERE],
    }
}

fn with_root(prev: u64, other: PageRef) -> Refs
    ensures answer { refs_in result ≡ root_ref prev ∷ model_ref other ∷ [] }
    ensures bound { result.count ≤ 3 }
{
    Refs {
        count: 2,
        refs: [PageRef { page: 0, prev }, other, NOWHERE],
    }
}

/// Whether each page is there.
pub(crate) fn are_there(count: usize, refs: &[PageRef]) -> bool
    ensures { result ≡ are_below count (model_refs refs.now) }
{
    for i in 0..refs.len() {
        if refs[i].page as usize >= count {
            return false;
        }
    }
    true
}
