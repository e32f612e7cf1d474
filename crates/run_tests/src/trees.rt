// Trees of many keys. The numbers were counted by hand for the orders in which keys rise and fall, and by another program for the
// mixed one.
use crate::cases::expect;
use crate::runs::{MEMORY, at_rest, dumped, formatted, run_script};
use lean_disk::MemDisk;
use std::alloc::Global;
use std::process::Abort;
use std::sync::Wait;
use std::thread::Threads;

static MANY: [&str; 8] = [
    "lean",
    "format",
    "--workers",
    "1",
    "--pages",
    "1024",
    "--blocks",
    "2048",
];

static GROWN: [&str; 8] = [
    "lean",
    "format",
    "--workers",
    "1",
    "--pages",
    "66",
    "--blocks",
    "128",
];

// The keys are 0 and those up to this number.
const KEYS: u64 = 16000;

// How many keys a transaction puts.
const PUTS: usize = 60;

// A line for each number, behind this word.
fn lines_of<R: Abort>(rt: &R, alloc: Global, word: &str, numbers: &[u64]) -> String {
    let mut lines = String::new(alloc);
    for number in numbers {
        let line = format!(in alloc; "{word} {number}\n").expect(rt, MEMORY);
        lines.push_str(&line).expect(rt, MEMORY);
    }
    lines
}

// The lines of a dump of keys that count up from 0 and have these values; a key of which it is 0 has none.
fn pairs_of<R: Abort>(rt: &R, alloc: Global, values: &[u64]) -> String {
    let mut lines = String::new(alloc);
    for (key, value) in values.iter().enumerate() {
        if *value > 0 {
            let line = format!(in alloc; "pair {key} {value}\n").expect(rt, MEMORY);
            lines.push_str(&line).expect(rt, MEMORY);
        }
    }
    lines.push_str("end\n").expect(rt, MEMORY);
    lines
}

// Puts of these keys, each with the next number as its value, and 60 of them to a transaction.
fn puts_of<R: Abort>(rt: &R, alloc: Global, keys: &[u64]) -> String {
    let mut script = String::new(alloc);
    for keys in keys.chunks(PUTS) {
        script.push_str("1 begin\n").expect(rt, MEMORY);
        for key in keys {
            let value = key.saturating_add(1);
            let line = format!(in alloc; "1 put {key} {value}\n").expect(rt, MEMORY);
            script.push_str(&line).expect(rt, MEMORY);
        }
        script.push_str("1 commit\n").expect(rt, MEMORY);
    }
    script
}

// So many numbers, each so far from the one before, around an end.
fn numbers<R: Abort>(
    rt: &R,
    alloc: Global,
    first: u64,
    step: u64,
    end: u64,
    count: u64,
) -> Vec<u64> {
    let mut numbers = Vec::new(alloc);
    let mut number = first;
    for _ in 0..count {
        numbers.push(number).expect(rt, MEMORY);
        number = number.saturating_add(step) % end.max(1);
    }
    numbers
}

// How many lines are this one.
fn count_of(printed: &str, wanted: &str) -> u64 {
    let mut count = 0u64;
    for line in printed.lines() {
        if line == wanted {
            count = count.saturating_add(1);
        }
    }
    count
}

// The first key, how far each next one is from the one before, around the end, and the number of the commit behind the puts.
struct Order {
    name: &'static str,
    first: u64,
    step: u64,
    at: u64,
}

// 16,000 changes and 267 commits. In the first two orders the key behind the first 60 is the first one that splits a leaf, and one
// more of each 30 does: 532 of them. So it is with each 30 leaves behind the first 60: 16 splits more. The root is lifted twice.
static ORDERS: [Order; 3] = [
    Order {
        name: "keys that rise",
        first: 0,
        step: 1,
        at: 16818,
    },
    Order {
        name: "keys that fall",
        first: 15999,
        step: 15999,
        at: 16818,
    },
    Order {
        name: "mixed keys",
        first: 0,
        step: 6007,
        at: 16639,
    },
];

// Whether each put finds no value, and all keys are read and dumped then.
fn go<R: Threads + Wait + Sync + Abort>(rt: &R, alloc: Global, order: &Order) {
    let keys = numbers(rt, alloc, order.first, order.step, KEYS, KEYS);
    let rising = numbers(rt, alloc, 0, 1, KEYS, KEYS);
    let values = numbers(rt, alloc, 1, 1, u64::MAX, KEYS);
    let new = formatted(rt, alloc, &MANY);
    let put = run_script(rt, alloc, &puts_of(rt, alloc, &keys), new);
    expect(
        rt,
        order.name,
        put.status == 0 && count_of(put.printed(), "1 was none") == KEYS,
    );
    let gets = lines_of(rt, alloc, "1 get", &rising);
    let script = format!(in alloc; "1 begin\n{gets}1 commit\n").expect(rt, MEMORY);
    let read = run_script(rt, alloc, &script, put.disk);
    let lines = lines_of(rt, alloc, "1 value", &values);
    let at = order.at;
    let want = format!(in alloc;
        "open 2 winners 267 undone 0\n1 begun 1.1\n{lines}1 committed 1.1 at {at}\n1 durable 1.1\n"
    ).expect(rt, MEMORY);
    expect(
        rt,
        order.name,
        read.status == 0 && read.printed() == want.as_str(),
    );
    dumped(
        rt,
        alloc,
        order.name,
        read.disk,
        "open 3 winners 1 undone 0\n",
        &pairs_of(rt, alloc, &values),
    );
}

fn grown_keys<R: Abort>(rt: &R, alloc: Global) -> Vec<u64> {
    let mut keys = numbers(rt, alloc, 2, 2, u64::MAX, 1830);
    let odd = numbers(rt, alloc, 1, 2, u64::MAX, 30);
    keys.extend_from_slice(&odd).expect(rt, MEMORY);
    keys
}

/// The disk of a tree of the even keys from 2 to 3660, put in rising order: 60 leaves under the root, of which each has 30 keys and the
/// last one 60. Then it has the odd keys below 60, so the first leaf has 60 keys too. Its log has no block to redo.
pub(crate) fn grown<R: Threads + Wait + Sync + Abort>(rt: &R, alloc: Global) -> MemDisk {
    let new = formatted(rt, alloc, &GROWN);
    let puts = puts_of(rt, alloc, &grown_keys(rt, alloc));
    let put = run_script(rt, alloc, &puts, new).disk;
    at_rest(rt, &run_script(rt, alloc, "", put).disk)
}

fn set(values: &mut [u64], key: u64, value: u64) {
    if let Some(place) = values.get_mut(key as usize) {
        *place = value;
    }
}

/// The dumps of this tree, and of it behind each put of SPLITS.
pub(crate) fn maps_of_splits<R: Abort>(rt: &R, alloc: Global) -> Vec<String> {
    let mut values = vec![in alloc; 0u64; 3663].expect(rt, MEMORY);
    for key in &grown_keys(rt, alloc) {
        set(&mut values, *key, key.saturating_add(1));
    }
    let mut maps = Vec::new(alloc);
    maps.push(pairs_of(rt, alloc, &values)).expect(rt, MEMORY);
    for (key, value) in [(3662, 8), (61, 9), (2, 10)] {
        set(&mut values, key, value);
        maps.push(pairs_of(rt, alloc, &values)).expect(rt, MEMORY);
    }
    maps
}

#[test]
fn many_keys_are_put_in_each_order(rt: HostRuntime) {
    for order in &ORDERS {
        go(&rt, rt.alloc(), order);
    }
}
