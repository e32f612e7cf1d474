// How long the record is that stands first, without a look at what it says.
ghost use Rattle.std.specs.Prelude.{◌≡◌, ◌<◌, ◌≤◌, ℕ, Some, IfSome, IfNone, length};
ghost use Rattle.log_record.specs.Spelling.{kind_of, Begins};
ghost use Rattle.log_record.specs.Heads.{head_of};
ghost use Rattle.log_record.specs.Inside.{BodyStands, NoBody, Counted};
ghost use Rattle.log_record.specs.declared.record.Record.{Record};
ghost use Rattle.log_record.specs.declared.record.Body.{Body};

use crate::format::{
    ABORT, CHANGE, CHANGE_SIZE, COMMIT, DROP_ROOT, END_SIZE, HEAD_SIZE, JOIN, JOIN_SIZE, KEY_SIZE,
    LIFT, MOST, PAIR_SIZE, PURGE, PURGE_SIZE, PUT_BACK, ROOT_CHANGE_SIZE, SPLIT, SPLIT_SIZE,
};
use crate::parts::split_head;
use crate::pieces::split_byte;

/// The kind, transaction and number of a record, and how many bytes it takes.
#[derive(Clone, Copy, Debug, PartialEq, Eq)]
pub struct RecordHead {
    pub kind: u8,
    pub txn: u64,
    pub gsn: u64,
    pub size: usize,
}

/// Passes over the record that stands first. None where no record stands there.
pub fn record_head(bytes: &[u8]) -> Option<RecordHead>
    ensures answer { IfSome result (λ h. (r : Record) × Begins bytes.now r h.size × (h.kind ≡ kind_of r.body) × (h.txn ≡ r.txn) × (h.gsn ≡ r.gsn)) }
    ensures every { (r : Record) (n : ℕ) → Begins bytes.now r n → result ≡ Some (head_of r n) }
    ensures cause { IfNone result ((r : Record) (n : ℕ) → Begins bytes.now r n → ⊥) }
{
    if bytes.len() < HEAD_SIZE {
        return None;
    }
    let (head, rest) = split_head(bytes);
    match body_size(head.kind, rest) {
        Some(size) => Some(RecordHead {
            kind: head.kind,
            txn: head.txn,
            gsn: head.gsn,
            size: HEAD_SIZE + size,
        }),
        None => None,
    }
}

// How many bytes the body of this kind takes that stands first.
fn body_size(kind: u8, bytes: &[u8]) -> Option<usize>
    ensures answer { IfSome result (λ n. (body : Body) × BodyStands kind bytes.now body n) }
    ensures bound { IfSome result (λ n. n ≤ length bytes.now) }
    ensures cause { IfNone result (NoBody kind bytes.now) }
{
    match kind {
        CHANGE => fixed_size(bytes, CHANGE_SIZE - HEAD_SIZE),
        PUT_BACK => fixed_size(bytes, CHANGE_SIZE - HEAD_SIZE),
        SPLIT => counted_size(bytes, SPLIT_SIZE - HEAD_SIZE - 1, PAIR_SIZE),
        LIFT => counted_size(bytes, ROOT_CHANGE_SIZE - HEAD_SIZE - 1, PAIR_SIZE),
        JOIN => counted_size(bytes, JOIN_SIZE - HEAD_SIZE - 1, PAIR_SIZE),
        DROP_ROOT => counted_size(bytes, ROOT_CHANGE_SIZE - HEAD_SIZE - 1, PAIR_SIZE),
        PURGE => counted_size(bytes, PURGE_SIZE - HEAD_SIZE - 1, KEY_SIZE),
        COMMIT => fixed_size(bytes, END_SIZE - HEAD_SIZE),
        ABORT => fixed_size(bytes, END_SIZE - HEAD_SIZE),
        _ => None,
    }
}

// So many bytes, where they are there.
fn fixed_size(bytes: &[u8], size: usize) -> Option<usize>
    ensures answer { IfSome result (λ n. (n ≡ size) × (size ≤ length bytes.now)) }
    ensures bound { IfSome result (λ n. n ≤ length bytes.now) }
    ensures cause { IfNone result (length bytes.now < size) }
{
    if bytes.len() < size {
        return None;
    }
    Some(size)
}

// How many bytes a front takes, a count behind it, and so many items of this width.
fn counted_size(bytes: &[u8], front: usize, width: usize) -> Option<usize>
    requires { width ≤ 16 }
    ensures answer { IfSome result (Counted front width bytes.now) }
    ensures bound { IfSome result (λ n. n ≤ length bytes.now) }
    ensures cause { IfNone result ((n : ℕ) → Counted front width bytes.now n → ⊥) }
{
    if bytes.len() <= front {
        return None;
    }
    let (count, rest) = split_byte(&bytes[front..]);
    let many = count as usize;
    if many > MOST {
        return None;
    }
    if rest.len() < width * many {
        return None;
    }
    Some(front + 1 + width * many)
}
