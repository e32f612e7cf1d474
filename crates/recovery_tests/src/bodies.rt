// What a record does, as the plain program has it.
use master_store::{Body, Keys, PageRef, Pairs};
use plain_images::{Kind, Pair, Record, Ref};
use std::alloc::AllocError;

pub fn kind_of(body: &Body) -> Kind {
    match body {
        Body::Change { .. } => Kind::Change,
        Body::PutBack { .. } => Kind::PutBack,
        Body::Split { .. } => Kind::Split,
        Body::Lift { .. } => Kind::Lift,
        Body::Join { .. } => Kind::Join,
        Body::DropRoot { .. } => Kind::Drop,
        Body::Purge { .. } => Kind::Purge,
        Body::Commit { .. } => Kind::Commit,
        Body::Abort { .. } => Kind::Abort,
    }
}

/// Sets in a record, in which nothing is set, what its body says.
pub fn set_body(made: &mut Record, body: &Body) -> Result<(), AllocError> {
    match body {
        Body::Change {
            leaf,
            key,
            before,
            after,
        }
        | Body::PutBack {
            leaf,
            key,
            before,
            after,
        } => {
            made.key = *key;
            made.before = *before;
            made.after = *after;
            set_leaf(made, leaf)
        }
        Body::Split {
            left,
            right,
            parent,
            separator,
            high,
            level,
            pairs,
        } => {
            made.sep = *separator;
            made.high = *high;
            made.level = u32::from(*level);
            set_pairs(made, pairs)?;
            set_three(made, left, right, parent)
        }
        Body::Lift {
            root_prev,
            page,
            level,
            pairs,
        } => {
            made.high = u64::MAX;
            made.level = u32::from(*level);
            set_pairs(made, pairs)?;
            set_root(made, *root_prev, page)
        }
        Body::Join {
            left,
            right,
            parent,
            separator,
            high,
            pairs,
        } => {
            made.sep = *separator;
            made.high = *high;
            set_pairs(made, pairs)?;
            set_three(made, left, right, parent)
        }
        Body::DropRoot {
            root_prev,
            child,
            level,
            pairs,
        } => {
            made.level = u32::from(*level);
            set_pairs(made, pairs)?;
            set_root(made, *root_prev, child)
        }
        Body::Purge { leaf, keys } => {
            set_keys(made, keys)?;
            set_leaf(made, leaf)
        }
        Body::Commit { need } | Body::Abort { need } => {
            made.need = *need;
            Ok(())
        }
    }
}

fn set_leaf(made: &mut Record, leaf: &PageRef) -> Result<(), AllocError> {
    made.left = ref_of(leaf);
    made.refs.extend_from_slice(&[made.left])
}

fn set_three(
    made: &mut Record,
    left: &PageRef,
    right: &PageRef,
    parent: &PageRef,
) -> Result<(), AllocError> {
    made.left = ref_of(left);
    made.right = ref_of(right);
    made.parent = ref_of(parent);
    made.refs
        .extend_from_slice(&[made.left, made.right, made.parent])
}

fn set_root(made: &mut Record, prev: u64, other: &PageRef) -> Result<(), AllocError> {
    made.left = Ref { page: 0, prev };
    made.right = ref_of(other);
    made.refs.extend_from_slice(&[made.left, made.right])
}

fn set_pairs(made: &mut Record, pairs: &Pairs) -> Result<(), AllocError> {
    for pair in pairs.pairs.iter().take(usize::from(pairs.count)) {
        made.pairs.push(Pair {
            key: pair.key,
            word: pair.word,
        })?;
    }
    Ok(())
}

fn set_keys(made: &mut Record, keys: &Keys) -> Result<(), AllocError> {
    for key in keys.keys.iter().take(usize::from(keys.count)) {
        made.keys.push(*key)?;
    }
    Ok(())
}

fn ref_of(of: &PageRef) -> Ref {
    Ref {
        page: u64::from(of.page),
        prev: of.prev,
    }
}
