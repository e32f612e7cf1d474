// A block as bytes, and out of bytes.
ghost use Rattle.std.specs.Prelude.{◌≡◌, ◌≤◌, ◌<◌, ◌+◌, ◌-◌, ◌^◌, ◌++◌, ◌∷◌, [], ℕ, List, Err, IsOk, IfOk, IsTrue, ◌↔◌, length, take, drop, replicate, true, false};
ghost use Rattle.log_record.specs.Spelling.{Holds};
ghost use Rattle.log_record.specs.declared.record.Record.{Record};
ghost use Rattle.log_block.specs.Block.{header_text, body_text, block_text, Belongs, IsBlock, IsPayload, Lists, Spells};

use crate::format::{BLOCK, HEADER, PAYLOAD, SEAL, TAG};
use lean_bytes::{check, seal};
use log_record::{put_short, put_word, record_head, split_short, split_word};

/// Why a block was not taken.
#[derive(Clone, Copy, Debug, PartialEq, Eq)]
pub enum Refusal {
    /// The seal does not fit, or generation, log or number are others: the run ends here.
    NoRun,
    /// The block belongs to the run, and what it holds is not as its header says: a payload of at most 2,000 bytes with zeros behind
    /// it, which is the stated number of records.
    Malformed,
}

// What stands in front of the records: where the block belongs, and the bytes and the number of its records.
#[derive(Clone, Copy, Debug, PartialEq, Eq)]
struct Header {
    generation: u64,
    log: u64,
    block: u64,
    size: u32,
    count: u32,
}

/// Writes a block over the whole of a buffer. The payload is the bytes of its records, `count` of them.
pub fn block_bytes(
    generation: u64,
    log: u32,
    block: u64,
    count: u32,
    payload: &[u8],
    into: &mut [u8],
)
    requires size { length into.old ≡ 2048 }
    requires room { length payload.now ≤ 2000 }
    ensures { into.new ≡ block_text generation log block count payload.now }
{
    let body = put_body(generation, log, block, count, payload, into);
    let seal = seal(&TAG, &into[..body]);
    put_bytes(into, body, &seal);
}

/// Reads the records of block `block` of a log of a generation. The answer is their bytes, which `read_record` and
/// `record_head` take off one by one to the end.
pub fn read_block(generation: u64, log: u32, block: u64, bytes: &[u8]) -> Result<&[u8], Refusal>
    ensures answer { IfOk result (λ payload. IsPayload generation log block bytes.now payload.now) }
    ensures every { (records : List Record) → IsBlock generation log block bytes.now records → IsOk result }

    ensures cause_no_run { result ≡ Err Refusal.NoRun → Belongs generation log block bytes.now → ⊥ }
    ensures cause_malformed { result ≡ Err Refusal.Malformed → Belongs generation log block bytes.now × ((records : List Record) → IsBlock generation log block bytes.now records → ⊥) }
{
    let (count, payload) = match open_block(generation, log, block, bytes) {
        Ok(opened) => opened,
        Err(refusal) => return Err(refusal),
    };
    if !are_records(payload, count) {
        return Err(Refusal::Malformed);
    }
    Ok(payload)
}

/// Takes block `block` of a log of a generation apart: how many records it says it has, and their bytes. Whether these are so
/// many records is not tested.
pub fn open_block(
    generation: u64,
    log: u32,
    block: u64,
    bytes: &[u8],
) -> Result<(u32, &[u8]), Refusal>
    ensures answer { IfOk result (λ opened. Spells generation log block bytes.now opened.0 opened.1.now) }
    ensures every { (count : ℕ) (payload : List ℕ) → Spells generation log block bytes.now count payload → IsOk result }

    ensures cause_no_run { result ≡ Err Refusal.NoRun → Belongs generation log block bytes.now → ⊥ }
    ensures cause_malformed { result ≡ Err Refusal.Malformed → Belongs generation log block bytes.now × ((count : ℕ) (payload : List ℕ) → Spells generation log block bytes.now count payload → ⊥) }
{
    if !belongs(generation, log, block, bytes) {
        return Err(Refusal::NoRun);
    }
    let (header, rest) = split_header(bytes);
    if header.size as usize > PAYLOAD {
        return Err(Refusal::Malformed);
    }
    let end = rest.len() - SEAL;
    let (room, _) = rest.split_at(end);
    let (payload, zeros) = room.split_at(header.size as usize);
    if !is_zero(zeros) {
        return Err(Refusal::Malformed);
    }
    Ok((header.count, payload))
}

/// Whether the bytes are a sealed block of this generation, log and number.
pub fn belongs(generation: u64, log: u32, block: u64, bytes: &[u8]) -> bool
    ensures { IsTrue result ↔ Belongs generation log block bytes.now }
{
    if bytes.len() != BLOCK {
        return false;
    }
    let (header, _) = split_header(bytes);
    if header.generation != generation {
        return false;
    }
    if header.log != log as u64 {
        return false;
    }
    if header.block != block {
        return false;
    }
    let (body, seal) = bytes.split_at(bytes.len() - SEAL);
    check(&TAG, body, seal)
}

// Whether so many records stand one behind the other, and nothing else.
fn are_records(bytes: &[u8], count: u32) -> bool
    ensures some { result ≡ true → (records : List Record) × Lists records count bytes.now }
    ensures none { result ≡ false → (records : List Record) → Lists records count bytes.now → ⊥ }
{
    if count == 0 {
        return bytes.is_empty();
    }
    match record_head(bytes) {
        None => false,
        Some(head) => are_records(&bytes[head.size..], count - 1),
    }
}

fn split_header(bytes: &[u8]) -> (Header, &[u8])
    requires { 32 ≤ length bytes.now }
    ensures prefix { bytes.now ≡ header_text result.0.generation result.0.log result.0.block result.0.size result.0.count ++ result.1.now }
    ensures rest { length result.1.now + 32 ≡ length bytes.now }
    ensures generation { result.0.generation < 2 ^ 64 }
    ensures log { result.0.log < 2 ^ 64 }
    ensures block { result.0.block < 2 ^ 64 }
    ensures size { result.0.size < 2 ^ 32 }
    ensures count { result.0.count < 2 ^ 32 }
{
    let (generation, rest) = split_word(bytes);
    let (log, rest) = split_word(rest);
    let (block, rest) = split_word(rest);
    let (size, rest) = split_short(rest);
    let (count, rest) = split_short(rest);
    (
        Header {
            generation,
            log,
            block,
            size,
            count,
        },
        rest,
    )
}

fn put_header(header: Header, into: &mut [u8]) -> usize
    requires { 32 ≤ length into.old }
    ensures end { result ≡ 32 }
    ensures written { Holds (header_text header.generation header.log header.block header.size header.count) into.old into.new result }
{
    let at = put_word(into, 0, header.generation);
    let at = put_word(into, at, header.log);
    let at = put_word(into, at, header.block);
    let at = put_short(into, at, header.size);
    put_short(into, at, header.count)
}

fn put_body(
    generation: u64,
    log: u32,
    block: u64,
    count: u32,
    payload: &[u8],
    into: &mut [u8],
) -> usize
    requires size { length into.old ≡ 2048 }
    requires room { length payload.now ≤ 2000 }
    ensures end { result ≡ 2032 }
    ensures written { Holds (body_text generation log block count payload.now) into.old into.new result }
{
    let header = Header {
        generation,
        log: log as u64,
        block,
        size: payload.len() as u32,
        count,
    };
    let at = put_header(header, into);
    let at = put_bytes(into, at, payload);
    put_zeros(into, at, PAYLOAD - payload.len())
}

fn put_bytes(into: &mut [u8], at: usize, bytes: &[u8]) -> usize
    requires room { at + length bytes.now ≤ length into.old }
    ensures end { result ≡ at + length bytes.now }
    ensures written { (prefix first : List ℕ) → Holds prefix first into.old at → Holds (prefix ++ bytes.now) first into.new result }
{
    let end = at + bytes.len();
    into[at..end].copy_from_slice(bytes);
    end
}

fn put_zeros(into: &mut [u8], at: usize, count: usize) -> usize
    requires room { at + count ≤ length into.old }
    ensures end { result ≡ at + count }
    ensures written { (prefix first : List ℕ) → Holds prefix first into.old at → Holds (prefix ++ replicate count 0) first into.new result }
{
    let end = at + count;
    into[at..end].fill(0);
    end
}

fn is_zero(bytes: &[u8]) -> bool
    ensures { IsTrue result ↔ (bytes.now ≡ replicate (length bytes.now) 0) }
{
    for byte in bytes {
        if *byte != 0 {
            return false;
        }
    }
    true
}
