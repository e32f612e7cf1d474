// Master slots.
ghost use Rattle.std.specs.Prelude.{◌≡◌, ◌↔◌, ℕ, ◌+◌, ◌-◌, ◌^◌, ◌<◌, ◌≤◌, ◌++◌, length, slice_index, take, drop, replicate, codes, IsTrue, IfOk};
ghost use Rattle.disk_slots.specs.declared.master.Master.{Master};
ghost use Rattle.disk_slots.specs.Slots.{IsSealed};
ghost use Rattle.disk_slots.specs.Masters.{master_words, master_slot, IsMasterSlot};
ghost use Rattle.disk_slots.specs.Inside.{IsWithin, IsSound};

use super::format::{FORMAT, MASTER_TAG};
use super::heads::Heads;
use super::refusal::Refusal;
use super::slot::{put_slot, take_slot};

/// What stands in the master: where to begin to read pages and logs.
#[derive(Drop)]
pub struct Master {
    /// The sequence number: one more with each master that is written.
    pub sequence: u64,
    pub generation: u64,
    pub floor: u64,
    pub pages: u32,
    /// How many blocks each log has.
    pub blocks: u32,
    pub heads: Heads,
}

/// Writes the slot of a master, 1,024 bytes.
pub fn master_bytes(master: &Master, into: &mut [u8])
    requires { length into.old ≡ 1024 }
    ensures { into.new ≡ master_slot master.now }
{
    put_slot(&MASTER_TAG, &words_of(master), into);
}

/// Reads master slot `slot`, 0 or 1.
pub fn read_master(slot: u32, bytes: &[u8]) -> Result<Master, Refusal>
    ensures answer { IfOk result (IsMasterSlot slot bytes.now) }

    ensures cause_no_seal { result ≡ Err Refusal.NoSeal → IsSealed (codes "LEANMAST") bytes.now → ⊥ }

    // The seal fits, and no master of this slot has these bytes.
    ensures cause_malformed { result ≡ Err Refusal.Malformed → IsSealed (codes "LEANMAST") bytes.now × ((master : Master) → IsMasterSlot slot bytes.now master → ⊥) }
{
    let Some(words) = take_slot(&MASTER_TAG, bytes) else {
        return Err(Refusal::NoSeal);
    };
    if !is_master(slot, &words) {
        return Err(Refusal::Malformed);
    }
    Ok(master_of(&words))
}

/// The words of a master.
fn words_of(master: &Master) -> [u64; 126]
    ensures { result ≡ master_words master.now }
{
    let mut words = [0; 126];
    master.heads.put(&mut words);
    words[0] = FORMAT;
    words[1] = master.sequence;
    words[2] = master.generation;
    words[3] = master.floor;
    words[4] = u64::from(master.pages);
    words[5] = u64::from(master.blocks);
    words[6] = u64::from(master.heads.logs());
    words
}

/// The master that sound words spell.
fn master_of(words: &[u64; 126]) -> Master
    requires { IsWithin words.now }
    ensures sequence { result.sequence ≡ slice_index words.now 1 }
    ensures generation { result.generation ≡ slice_index words.now 2 }
    ensures floor { result.floor ≡ slice_index words.now 3 }
    ensures pages { result.pages ≡ slice_index words.now 4 }
    ensures blocks { result.blocks ≡ slice_index words.now 5 }
    ensures heads { result.heads ≡ take (slice_index words.now 6) (drop 7 words.now) }
{
    Master {
        sequence: words[1],
        generation: words[2],
        floor: words[3],
        pages: words[4] as u32,
        blocks: words[5] as u32,
        heads: Heads::take(words, words[6] as usize),
    }
}

/// Whether words are those of a master of this slot.
fn is_master(slot: u32, words: &[u64; 126]) -> bool
    ensures { IsTrue result ↔ IsSound slot words.now }
{
    if !is_within(words) {
        return false;
    }
    if words[1] % 2 != u64::from(slot) {
        return false;
    }
    if words[1] >= 1 << 63 || words[2] >= 1 << 63 {
        return false;
    }
    let logs = words[6] as usize;
    if !are_numbers(&words[7..7 + logs]) {
        return false;
    }
    is_zero(&words[7 + logs..])
}

/// Whether format, pages, blocks and logs are within their limits.
fn is_within(words: &[u64; 126]) -> bool
    ensures { IsTrue result ↔ IsWithin words.now }
{
    if words[0] != FORMAT {
        return false;
    }
    if words[4] < 16 || words[4] > 65536 {
        return false;
    }
    if words[5] < 64 || words[5] > 4096 {
        return false;
    }
    words[6] >= 1 && words[6] <= 16
}

/// Whether each word is below 2 ^ 63.
fn are_numbers(words: &[u64]) -> bool
    ensures { IsTrue result ↔ ((k : ℕ) → k < length words.now → slice_index words.now k < 2 ^ 63) }
{
    for word in words {
        if *word >= 1 << 63 {
            return false;
        }
    }
    true
}

/// Whether each word is 0.
fn is_zero(words: &[u64]) -> bool
    ensures { IsTrue result ↔ ((k : ℕ) → k < length words.now → slice_index words.now k ≡ 0) }
{
    for word in words {
        if *word != 0 {
            return false;
        }
    }
    true
}
