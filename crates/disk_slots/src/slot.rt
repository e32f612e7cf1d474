// Slots: 126 words as bytes, and a seal over them under a tag.
ghost use Rattle.std.specs.Prelude.{◌≡◌, ◌↔◌, length, IsTrue, IfSome, IfNone};
ghost use Rattle.lean_bytes.specs.Numbers.{AreWords};
ghost use Rattle.disk_slots.specs.Slots.{slot_of, IsSealed, HasWords};

use lean_bytes::{check, put_words, seal, take_words};

/// Writes a slot with these words.
pub fn put_slot(tag: &[u8; 8], words: &[u64; 126], into: &mut [u8])
    requires { length into.old ≡ 1024 }
    ensures after { into.new ≡ slot_of tag.now words.now }
    ensures words { AreWords words.now }
{
    let body = into.len() - 16;
    put_words(&mut into[..body], words);
    let seal = seal(tag, &into[..body]);
    into[body..].copy_from_slice(&seal);
}

fn is_sealed(tag: &[u8; 8], bytes: &[u8]) -> bool
    ensures { IsTrue result ↔ IsSealed tag.now bytes.now }
{
    if bytes.len() != 1024 {
        return false;
    }
    let body = bytes.len() - 16;
    check(tag, &bytes[..body], &bytes[body..])
}

/// The words of a slot; none exactly where its seal does not fit.
pub fn take_slot(tag: &[u8; 8], bytes: &[u8]) -> Option<[u64; 126]>
    ensures answer { IfSome result (λ words. HasWords tag.now bytes.now words) }
    ensures cause { IfNone result (IsSealed tag.now bytes.now → ⊥) }
{
    if !is_sealed(tag, bytes) {
        return None;
    }
    let body = bytes.len() - 16;
    let mut words = [0; 126];
    take_words(&bytes[..body], &mut words);
    Some(words)
}
