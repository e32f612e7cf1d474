// The fields of a body, written in place. Where the body is of another kind it is assigned, which writes all its bytes, a
// thousand and more, and not those of the variant alone.
ghost use Rattle.std.specs.Prelude.{◌≡◌};
ghost use Rattle.log_record.specs.declared.record.Body.TheVariants.{Commit, Abort};
ghost use Rattle.log_record.specs.Inside.{IsWith, change_of, put_back_of, split_of, lift_of, join_of, drop_of, purge_of};

use crate::parts::{KeyChange, RootChange, Siblings};
use crate::record::{Body, Keys, PageRef, Pairs};

pub(crate) fn set_change(body: &mut Body, change: KeyChange)
    ensures { body.new ≡ change_of change }
{
    match body {
        Body::Change {
            leaf,
            key,
            before,
            after,
        } => {
            *leaf = change.leaf;
            *key = change.key;
            *before = change.before;
            *after = change.after;
        }
        _ => {
            let KeyChange {
                leaf,
                key,
                before,
                after,
            } = change;
            *body = Body::Change {
                leaf,
                key,
                before,
                after,
            };
        }
    }
}

pub(crate) fn set_put_back(body: &mut Body, change: KeyChange)
    ensures { body.new ≡ put_back_of change }
{
    match body {
        Body::PutBack {
            leaf,
            key,
            before,
            after,
        } => {
            *leaf = change.leaf;
            *key = change.key;
            *before = change.before;
            *after = change.after;
        }
        _ => {
            let KeyChange {
                leaf,
                key,
                before,
                after,
            } = change;
            *body = Body::PutBack {
                leaf,
                key,
                before,
                after,
            };
        }
    }
}

/// Writes all but the pairs.
pub(crate) fn set_split(body: &mut Body, siblings: Siblings, level: u8)
    ensures { IsWith (split_of siblings level) body.new }
{
    match body {
        Body::Split {
            left,
            right,
            parent,
            separator,
            high,
            level: height,
            ..
        } => {
            *left = siblings.left;
            *right = siblings.right;
            *parent = siblings.parent;
            *separator = siblings.separator;
            *high = siblings.high;
            *height = level;
        }
        _ => {
            let Siblings {
                left,
                right,
                parent,
                separator,
                high,
            } = siblings;
            *body = Body::Split {
                left,
                right,
                parent,
                separator,
                high,
                level,
                pairs: Pairs::NONE,
            };
        }
    }
}

/// Writes all but the pairs.
pub(crate) fn set_lift(body: &mut Body, change: RootChange)
    ensures { IsWith (lift_of change) body.new }
{
    match body {
        Body::Lift {
            root_prev,
            page,
            level,
            ..
        } => {
            *root_prev = change.root_prev;
            *page = change.page;
            *level = change.level;
        }
        _ => {
            let RootChange {
                root_prev,
                page,
                level,
            } = change;
            *body = Body::Lift {
                root_prev,
                page,
                level,
                pairs: Pairs::NONE,
            };
        }
    }
}

/// Writes all but the pairs.
pub(crate) fn set_join(body: &mut Body, siblings: Siblings)
    ensures { IsWith (join_of siblings) body.new }
{
    match body {
        Body::Join {
            left,
            right,
            parent,
            separator,
            high,
            ..
        } => {
            *left = siblings.left;
            *right = siblings.right;
            *parent = siblings.parent;
            *separator = siblings.separator;
            *high = siblings.high;
        }
        _ => {
            let Siblings {
                left,
                right,
                parent,
                separator,
                high,
            } = siblings;
            *body = Body::Join {
                left,
                right,
                parent,
                separator,
                high,
                pairs: Pairs::NONE,
            };
        }
    }
}

/// Writes all but the pairs.
pub(crate) fn set_drop_root(body: &mut Body, change: RootChange)
    ensures { IsWith (drop_of change) body.new }
{
    match body {
        Body::DropRoot {
            root_prev,
            child,
            level,
            ..
        } => {
            *root_prev = change.root_prev;
            *child = change.page;
            *level = change.level;
        }
        _ => {
            let RootChange {
                root_prev,
                page,
                level,
            } = change;
            *body = Body::DropRoot {
                root_prev,
                child: page,
                level,
                pairs: Pairs::NONE,
            };
        }
    }
}

/// Writes all but the keys.
pub(crate) fn set_purge(body: &mut Body, page: PageRef)
    ensures { IsWith (purge_of page) body.new }
{
    match body {
        Body::Purge { leaf, .. } => *leaf = page,
        _ => {
            *body = Body::Purge {
                leaf: page,
                keys: Keys::NONE,
            };
        }
    }
}

pub(crate) fn set_commit(body: &mut Body, number: u64)
    ensures { body.new ≡ Commit number }
{
    match body {
        Body::Commit { need } => *need = number,
        _ => *body = Body::Commit { need: number },
    }
}

pub(crate) fn set_abort(body: &mut Body, number: u64)
    ensures { body.new ≡ Abort number }
{
    match body {
        Body::Abort { need } => *need = number,
        _ => *body = Body::Abort { need: number },
    }
}
