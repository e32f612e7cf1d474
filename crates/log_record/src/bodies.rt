// What stands behind kind, transaction and number, read into a body that the caller lends.
ghost use Rattle.std.specs.Prelude.{◌≡◌, IfSome, IfNone};
ghost use Rattle.log_record.specs.Inside.{BodyStands, NoBody};

use crate::format::{
    ABORT, CHANGE, CHANGE_SIZE, COMMIT, DROP_ROOT, END_SIZE, HEAD_SIZE, JOIN, JOIN_SIZE, LIFT,
    PURGE, PURGE_SIZE, PUT_BACK, ROOT_CHANGE_SIZE, SPLIT, SPLIT_SIZE,
};
use crate::items::{read_keys, read_pairs};
use crate::parts::{split_key_change, split_ref, split_root_change, split_siblings};
use crate::pieces::{split_byte, split_word};
use crate::record::Body;
use crate::set::{
    set_abort, set_change, set_commit, set_drop_root, set_join, set_lift, set_purge, set_put_back,
    set_split,
};

/// Reads the body of this kind that stands first, and how many bytes it takes. None where none stands there; the body may
/// hold anything then.
pub(crate) fn read_body(kind: u8, bytes: &[u8], body: &mut Body) -> Option<usize>
    ensures answer { IfSome result (BodyStands kind bytes.now body.new) }
    ensures cause { IfNone result (NoBody kind bytes.now) }
{
    match kind {
        CHANGE => read_change(bytes, body),
        PUT_BACK => read_put_back(bytes, body),
        SPLIT => read_split(bytes, body),
        LIFT => read_lift(bytes, body),
        JOIN => read_join(bytes, body),
        DROP_ROOT => read_drop_root(bytes, body),
        PURGE => read_purge(bytes, body),
        COMMIT => read_commit(bytes, body),
        ABORT => read_abort(bytes, body),
        _ => None,
    }
}

fn read_change(bytes: &[u8], body: &mut Body) -> Option<usize>
    ensures answer { IfSome result (BodyStands 1 bytes.now body.new) }
    ensures cause { IfNone result (NoBody 1 bytes.now) }
{
    if bytes.len() < CHANGE_SIZE - HEAD_SIZE {
        return None;
    }
    let (change, _) = split_key_change(bytes);
    set_change(body, change);
    Some(CHANGE_SIZE - HEAD_SIZE)
}

fn read_put_back(bytes: &[u8], body: &mut Body) -> Option<usize>
    ensures answer { IfSome result (BodyStands 2 bytes.now body.new) }
    ensures cause { IfNone result (NoBody 2 bytes.now) }
{
    if bytes.len() < CHANGE_SIZE - HEAD_SIZE {
        return None;
    }
    let (change, _) = split_key_change(bytes);
    set_put_back(body, change);
    Some(CHANGE_SIZE - HEAD_SIZE)
}

fn read_split(bytes: &[u8], body: &mut Body) -> Option<usize>
    ensures answer { IfSome result (BodyStands 3 bytes.now body.new) }
    ensures cause { IfNone result (NoBody 3 bytes.now) }
{
    if bytes.len() < SPLIT_SIZE - HEAD_SIZE {
        return None;
    }
    let (siblings, rest) = split_siblings(bytes);
    let (level, rest) = split_byte(rest);
    set_split(body, siblings, level);
    match body {
        Body::Split { pairs, .. } => match read_pairs(rest, pairs) {
            Some(size) => Some(SPLIT_SIZE - HEAD_SIZE - 1 + size),
            None => None,
        },
        _ => None,
    }
}

fn read_lift(bytes: &[u8], body: &mut Body) -> Option<usize>
    ensures answer { IfSome result (BodyStands 4 bytes.now body.new) }
    ensures cause { IfNone result (NoBody 4 bytes.now) }
{
    if bytes.len() < ROOT_CHANGE_SIZE - HEAD_SIZE {
        return None;
    }
    let (change, rest) = split_root_change(bytes);
    set_lift(body, change);
    match body {
        Body::Lift { pairs, .. } => match read_pairs(rest, pairs) {
            Some(size) => Some(ROOT_CHANGE_SIZE - HEAD_SIZE - 1 + size),
            None => None,
        },
        _ => None,
    }
}

fn read_join(bytes: &[u8], body: &mut Body) -> Option<usize>
    ensures answer { IfSome result (BodyStands 5 bytes.now body.new) }
    ensures cause { IfNone result (NoBody 5 bytes.now) }
{
    if bytes.len() < JOIN_SIZE - HEAD_SIZE {
        return None;
    }
    let (siblings, rest) = split_siblings(bytes);
    set_join(body, siblings);
    match body {
        Body::Join { pairs, .. } => match read_pairs(rest, pairs) {
            Some(size) => Some(JOIN_SIZE - HEAD_SIZE - 1 + size),
            None => None,
        },
        _ => None,
    }
}

fn read_drop_root(bytes: &[u8], body: &mut Body) -> Option<usize>
    ensures answer { IfSome result (BodyStands 6 bytes.now body.new) }
    ensures cause { IfNone result (NoBody 6 bytes.now) }
{
    if bytes.len() < ROOT_CHANGE_SIZE - HEAD_SIZE {
        return None;
    }
    let (change, rest) = split_root_change(bytes);
    set_drop_root(body, change);
    match body {
        Body::DropRoot { pairs, .. } => match read_pairs(rest, pairs) {
            Some(size) => Some(ROOT_CHANGE_SIZE - HEAD_SIZE - 1 + size),
            None => None,
        },
        _ => None,
    }
}

fn read_purge(bytes: &[u8], body: &mut Body) -> Option<usize>
    ensures answer { IfSome result (BodyStands 7 bytes.now body.new) }
    ensures cause { IfNone result (NoBody 7 bytes.now) }
{
    if bytes.len() < PURGE_SIZE - HEAD_SIZE {
        return None;
    }
    let (leaf, rest) = split_ref(bytes);
    set_purge(body, leaf);
    match body {
        Body::Purge { keys, .. } => match read_keys(rest, keys) {
            Some(size) => Some(PURGE_SIZE - HEAD_SIZE - 1 + size),
            None => None,
        },
        _ => None,
    }
}

fn read_commit(bytes: &[u8], body: &mut Body) -> Option<usize>
    ensures answer { IfSome result (BodyStands 8 bytes.now body.new) }
    ensures cause { IfNone result (NoBody 8 bytes.now) }
{
    if bytes.len() < END_SIZE - HEAD_SIZE {
        return None;
    }
    let (need, _) = split_word(bytes);
    set_commit(body, need);
    Some(END_SIZE - HEAD_SIZE)
}

fn read_abort(bytes: &[u8], body: &mut Body) -> Option<usize>
    ensures answer { IfSome result (BodyStands 9 bytes.now body.new) }
    ensures cause { IfNone result (NoBody 9 bytes.now) }
{
    if bytes.len() < END_SIZE - HEAD_SIZE {
        return None;
    }
    let (need, _) = split_word(bytes);
    set_abort(body, need);
    Some(END_SIZE - HEAD_SIZE)
}
