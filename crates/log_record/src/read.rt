// A record out of bytes.
ghost use Rattle.std.specs.Prelude.{◌≡◌, ◌≤◌, ◌<◌, ◌+◌, ◌^◌, ◌++◌, ◌∷◌, ℕ, List, true, Some, IfSome, IfNone, length};
ghost use Rattle.lean_bytes.specs.Numbers.{number_bytes};
ghost use Rattle.log_record.specs.Spelling.{record_text, Fits, Begins};
ghost use Rattle.log_record.specs.Inside.{BodyStands, NoBody, HeadFits, head_text};
ghost use Rattle.log_record.specs.declared.record.Record.{Record};

use crate::bodies::read_body;
use crate::format::HEAD_SIZE;
use crate::parts::split_head;
use crate::record::Record;

/// Reads the record that stands first into a record that the caller lends, and how many bytes it takes. None
/// where no record stands there; what was lent may hold anything then.
pub fn read_record(bytes: &[u8], into: &mut Record) -> Option<usize>
    ensures answer { IfSome result (Begins bytes.now into.new) }
    ensures every { (r : Record) (rest : List ℕ) → Fits r → bytes.now ≡ record_text r ++ rest → (result ≡ Some (length (record_text r))) × (into.new ≡ r) }
    ensures cause { IfNone result ((r : Record) (rest : List ℕ) → Fits r → bytes.now ≡ record_text r ++ rest → ⊥) }
{
    if bytes.len() < HEAD_SIZE {
        return None;
    }
    let (head, rest) = split_head(bytes);
    into.txn = head.txn;
    into.gsn = head.gsn;
    match read_body(head.kind, rest, &mut into.body) {
        Some(size) => Some(HEAD_SIZE + size),
        None => None,
    }
}
