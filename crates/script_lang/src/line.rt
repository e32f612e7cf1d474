// Lines of a script: a session, a verb, its numbers, with one space between two words; or a sync, which no session asks.
ghost use Rattle.std.specs.Prelude.{◌≡◌, ◌≤◌, ◌<◌, ◌+◌, ◌-◌, ◌*◌, ◌^◌, ◌++◌, ℕ, List, Option, Some, None, Ok, IfOk, IfErr, IfSome, IfNone, MatchOption, length, codes, if◌then◌else◌};
ghost use Rattle.std.specs.Str.{bytes_eq};
ghost use Rattle.script_lang.specs.Words.{first_word, after_word, digits_on, goes_on, number_of, ranged};
ghost use Rattle.script_lang.specs.Inside.{behind_scan};
ghost use Rattle.script_lang.specs.Lines.{verb_of, lone_verb_of, key_of, put_of, scan_of, line_of, sync_line, Spells};

use map_model::Call;

/// The most bytes of a line, its newline not counted.
pub const LINE: usize = 80;

/// What a line says: what its session asks. Sessions are counted from 1, and 0 stands for none.
#[derive(Clone, Copy, Debug, PartialEq, Eq)]
pub struct Line {
    pub session: u32,
    pub call: Call,
}

/// The bytes are no line of a script.
#[derive(Clone, Copy, Debug, PartialEq, Eq)]
pub struct Bad;

/// Reads a line, given without its newline, of a script for this many workers.
pub fn read_line(workers: u32, bytes: &[u8]) -> Result<Line, Bad>
    // A line has one spelling, and the spelling is of that line alone.
    ensures answer { IfOk result (Spells workers bytes.now) }
    ensures every { (line : Line) → Spells workers bytes.now line → result ≡ Ok line }
    ensures cause { IfErr result (λ _. (line : Line) → Spells workers bytes.now line → ⊥) }

    // The line is read word by word.
    ensures value { IfOk result (λ line. line_of workers bytes.now ≡ Some line) }
    ensures no_value { IfErr result (λ _. line_of workers bytes.now ≡ None) }
{
    match parse_line(workers, bytes) {
        Some(line) => Ok(line),
        None => Err(Bad),
    }
}

fn parse_line(workers: u32, bytes: &[u8]) -> Option<Line>
    ensures { result ≡ line_of workers bytes.now }
{
    if bytes.len() > LINE {
        return None;
    }
    let Some((session, left)) = session_number(bytes) else {
        return if is_sync(bytes) {
            Some(Line {
                session: 0,
                call: Call::Sync,
            })
        } else {
            None
        };
    };
    let session = in_range(session, 1, workers as u64 + 1)?;
    let call = read_call(left?)?;
    Some(Line {
        session: session as u32,
        call,
    })
}

// The line that begins with no number.
#[inline(never)]
fn is_sync(bytes: &[u8]) -> bool
    ensures { result ≡ bytes_eq bytes.now (codes "sync") }
{
    bytes == b"sync".as_slice()
}

fn read_call(words: &[u8]) -> Option<Call>
    ensures { result ≡ verb_of (Some words.now) }
{
    if words.len() < 4 {
        return None;
    }
    let (verb, numbers) = words.split_at(4);
    if is_verb(verb, b"get ") {
        let key = read_key(numbers)?;
        return Some(Call::Get { key });
    }
    if is_verb(verb, b"put ") {
        return read_put(numbers);
    }
    if is_verb(verb, b"del ") {
        let key = read_key(numbers)?;
        return Some(Call::Del { key });
    }
    if is_verb(verb, b"scan") {
        return read_scan(numbers);
    }
    read_lone_verb(words)
}

// Whether four bytes are a verb of three and its space, or one of four. They are compared one by one: an equality of slices is a call, and a long one for so few.
#[inline(always)]
fn is_verb(bytes: &[u8], verb: &[u8; 4]) -> bool
    requires { length bytes.now ≡ 4 }
    ensures { result ≡ bytes_eq bytes.now verb.now }
{
    for i in 0..4 {
        if bytes[i] != verb[i] {
            return false;
        }
    }
    true
}

// A verb that no number stands behind.
fn read_lone_verb(words: &[u8]) -> Option<Call>
    ensures { result ≡ lone_verb_of (Some words.now) }
{
    match words {
        b"begin" => Some(Call::Begin),
        b"commit" => Some(Call::Commit),
        b"abort" => Some(Call::Abort),
        _ => None,
    }
}

// A key, and nothing behind it.
#[inline(always)]
fn read_key(words: &[u8]) -> Option<u64>
    ensures { result ≡ key_of (Some words.now) }
{
    let (key, left) = first_number(words)?;
    let key = in_range(key, 0, u64::MAX)?;
    if left.is_none() { Some(key) } else { None }
}

fn read_put(words: &[u8]) -> Option<Call>
    ensures { result ≡ put_of (Some words.now) }
{
    let (key, left) = first_number(words)?;
    let key = in_range(key, 0, u64::MAX)?;
    let (value, left) = first_number(left?)?;
    let value = in_range(value, 0, 1 << 63)?;
    if left.is_none() {
        Some(Call::Put { key, value })
    } else {
        None
    }
}

// What stands behind the word `scan`.
fn read_scan(behind: &[u8]) -> Option<Call>
    ensures { result ≡ behind_scan behind.now }
{
    if behind.is_empty() {
        return None;
    }
    if behind[0] != b' ' {
        return None;
    }
    read_range(&behind[1..])
}

fn read_range(words: &[u8]) -> Option<Call>
    ensures { result ≡ scan_of (Some words.now) }
{
    let (from, left) = first_number(words)?;
    let from = in_range(from, 0, u64::MAX)?;
    let (to, left) = first_number(left?)?;
    let to = in_range(to, 0, u64::MAX)?;
    if left.is_none() {
        Some(Call::Scan { from, to })
    } else {
        None
    }
}

// A number, if it is one from `low` up to, not including, `end`.
fn in_range(number: u64, low: u64, end: u64) -> Option<u64>
    ensures value { result ≡ ranged low end (Some number) }
    ensures within { IfSome result (λ n. n < end) }
{
    if low <= number && number < end {
        Some(number)
    } else {
        None
    }
}

// The number that the first word spells, and the bytes behind its space. Most sessions have one digit.
#[inline(always)]
fn session_number(line: &[u8]) -> Option<(u64, Option<&[u8]>)>
    ensures number { IfSome result (λ r. number_of (first_word line.now) ≡ Some r.0) }
    ensures more { IfSome result (λ r. MatchOption r.1 (after_word line.now ≡ None) (λ m. after_word line.now ≡ Some m.now)) }
    ensures none { IfNone result (number_of (first_word line.now) ≡ None) }
{
    if line.len() > 1 && line[1] == b' ' && line[0] > b'0' && line[0] <= b'9' {
        return Some((u64::from(line[0] - b'0'), Some(&line[2..])));
    }
    first_number(line)
}

// The number that the first word spells, and the bytes behind its space, if there is one.
#[inline(always)]
fn first_number(line: &[u8]) -> Option<(u64, Option<&[u8]>)>
    ensures number { IfSome result (λ r. number_of (first_word line.now) ≡ Some r.0) }
    ensures more { IfSome result (λ r. MatchOption r.1 (after_word line.now ≡ None) (λ m. after_word line.now ≡ Some m.now)) }
    ensures none { IfNone result (number_of (first_word line.now) ≡ None) }
{
    let mut number = 0;
    for (i, byte) in line.iter().enumerate() {
        if *byte == b' ' {
            let (word, back) = line.split_at(i);
            if !are_whole(word) {
                return None;
            }
            return Some((number, Some(&back[1..])));
        }
        match digit_more(number, *byte) {
            Some(more) => number = more,
            None => return None,
        }
    }
    if are_whole(line) {
        Some((number, None))
    } else {
        None
    }
}

// Whether digits may stand as a number: there is one, and the first is 0 only in `0`.
fn are_whole(digits: &[u8]) -> bool
    ensures { number_of digits.now ≡ (if result then digits_on 0 digits.now else None) }
{
    match digits.len() {
        0 => false,
        1 => true,
        _ => digits[0] != b'0',
    }
}

// The number with one digit more.
fn digit_more(n: u64, digit: u8) -> Option<u64>
    ensures { result ≡ (if goes_on n digit then Some (10 * n + (digit - 48)) else None) }
{
    if !(digit > 47 && digit < 58) {
        return None;
    }
    let tens = n.checked_mul(10)?;
    tens.checked_add((digit - 48) as u64)
}
