// Workloads from a number, beside a plain map of their own and a run of the same lines.
use crate::cases::expect;
use crate::commands::{Outcome, RUN, run_alone, run_words};
use lean_disk::{Choice, MemDisk};
use lean_shell::{MemSink, MemSource};
use rand_core::utils::NextWord;
use rand_pcg::Lcg64Xsh32;
use std::alloc::{AllocError, Global};
use std::collections::BTreeMap;
use std::sync::Wait;
use std::thread::Threads;

const NARROW: &str = "lean format --workers 4 --pages 16 --blocks 256";

const ONE: &str = "lean format --workers 1 --pages 16 --blocks 64";

const DUMP: &str = "lean dump";

// How many pairs a map has, and the sum of their values.
#[derive(Clone, Copy, PartialEq, Eq)]
struct Pairs {
    count: u64,
    sum: u64,
}

const NO_PAIRS: Pairs = Pairs { count: 0, sum: 0 };

fn pairs_of(map: &BTreeMap<u32, u32>) -> Pairs {
    let mut pairs = NO_PAIRS;
    for value in map.values() {
        pairs.count = pairs.count.saturating_add(1);
        pairs.sum = pairs.sum.saturating_add(u64::from(*value));
    }
    pairs
}

// What a word does to a map.
fn draw(map: &mut BTreeMap<u32, u32>, word: u32) -> Result<(), AllocError> {
    let key = word % 1000;
    match word >> 16 & 3 {
        0 => {}
        3 => {
            let _ = map.remove(&key);
        }
        _ => {
            let _ = map.insert(key, word)?;
        }
    }
    Ok(())
}

// What the draws of a workload make of a map, where none is refused.
fn draw_all(
    map: &mut BTreeMap<u32, u32>,
    number: u64,
    transactions: u32,
) -> Result<(), AllocError> {
    let mut words = Lcg64Xsh32::new(number, 1);
    for _ in 0..transactions {
        for _ in 0..8 {
            draw(map, words.next_word())?;
        }
    }
    Ok(())
}

// The line by which a run makes the draw of a word.
fn put_draw(alloc: Global, script: &mut String, session: u32, word: u32) -> Result<(), AllocError> {
    let key = word % 1000;
    let line = match word >> 16 & 3 {
        0 => format!(in alloc; "{session} get {key}\n")?,
        3 => format!(in alloc; "{session} del {key}\n")?,
        _ => format!(in alloc; "{session} put {key} {word}\n")?,
    };
    script.push_str(&line)
}

// A script with the lines of a workload, a sync behind them, and the begin of the last transaction.
fn script_of(alloc: Global, it: &Workload) -> Result<String, AllocError> {
    let mut words = Lcg64Xsh32::new(it.number, 1);
    let mut script = String::new(alloc);
    for transaction in 0..it.transactions {
        let session = (transaction % it.sessions.max(1)).saturating_add(1);
        let begin = format!(in alloc; "{session} begin\n")?;
        script.push_str(&begin)?;
        for _ in 0..8 {
            put_draw(alloc, &mut script, session, words.next_word())?;
        }
        let commit = format!(in alloc; "{session} commit\n")?;
        script.push_str(&commit)?;
    }
    script.push_str("sync\n1 begin\n")?;
    Ok(script)
}

// Whether a draw was done by which a run put this line: a value, or what the key had.
fn is_done(line: &str) -> bool {
    line.contains(" value ") || line.contains(" was ") || line.ends_with(" none")
}

// What a run of a workload's lines made of a map, from what it put, up to so many commits; and how many of these draws were refused.
fn replay(
    map: &mut BTreeMap<u32, u32>,
    number: u64,
    printed: &str,
    commits: u64,
) -> Result<u64, AllocError> {
    let mut words = Lcg64Xsh32::new(number, 1);
    let mut place = 0u32;
    let mut refused = 0u64;
    let mut left = commits;
    for line in printed.lines() {
        let is_reply = !line.starts_with("open ")
            && !line.contains(" durable ")
            && !line.starts_with("synced");
        if is_reply && left > 0 {
            if 1 <= place && place <= 8 {
                let word = words.next_word();
                if is_done(line) {
                    draw(map, word)?;
                } else {
                    refused = refused.saturating_add(1);
                }
            }
            if line.contains(" committed ") {
                left = left.saturating_sub(1);
            }
            place = if place < 9 {
                place.saturating_add(1)
            } else {
                0
            };
        }
    }
    Ok(refused)
}

// Whether the last reply is that a transaction was begun.
fn is_begun(printed: &str) -> bool {
    match printed.trim_end().rsplit_once('\n') {
        Some((_, line)) => line.contains(" begun "),
        None => false,
    }
}

// The number behind these words.
fn number_behind(text: &str, word: &str) -> u64 {
    match text.split_once(word) {
        Some((_, rest)) => match rest.split_whitespace().next() {
            Some(digits) => digits.parse::<u64>().unwrap_or(u64::MAX),
            None => u64::MAX,
        },
        None => u64::MAX,
    }
}

// The pairs of a dump: a line `pair K V` for each.
fn dumped(printed: &str) -> Pairs {
    let mut pairs = NO_PAIRS;
    for line in printed.lines() {
        if let (true, Some((_, value))) = (line.starts_with("pair "), line.rsplit_once(' ')) {
            pairs.count = pairs.count.saturating_add(1);
            pairs.sum = pairs
                .sum
                .saturating_add(value.parse::<u64>().unwrap_or(u64::MAX));
        }
    }
    pairs
}

fn text_of(outcome: &Outcome) -> &str {
    str::from_utf8(outcome.sink.bytes()).unwrap_or("no text")
}

// The line of what a workload came to.
fn line_of(
    alloc: Global,
    transactions: u32,
    refused: u64,
    pairs: Pairs,
) -> Result<String, AllocError> {
    let count = pairs.count;
    let sum = pairs.sum;
    format!(in alloc; "made {transactions} refused {refused} pairs {count} sum {sum}\n")
}

/// A workload on a new disk: the line of what it comes to, or how that begins, and whether draws are refused.
struct Workload {
    name: &'static str,
    format: &'static str,
    words: &'static str,
    sessions: u32,
    number: u64,
    transactions: u32,
    line: &'static str,
    is_refused: bool,
}

static WORKLOADS: [Workload; 6] = [
    Workload {
        name: "one transaction",
        format: ONE,
        words: "lean make 0 1",
        sessions: 1,
        number: 0,
        transactions: 1,
        line: "made 1 refused 0 pairs 5 sum 5589860614\n",
        is_refused: false,
    },
    Workload {
        name: "ten transactions",
        format: NARROW,
        words: "lean make 1 10",
        sessions: 4,
        number: 1,
        transactions: 10,
        line: "made 10 refused 0 pairs 42 sum 95425319072\n",
        is_refused: false,
    },
    Workload {
        name: "a hundred transactions",
        format: NARROW,
        words: "lean make 1 100",
        sessions: 4,
        number: 1,
        transactions: 100,
        line: "made 100 refused 0 pairs 309 sum 627931099901\n",
        is_refused: false,
    },
    Workload {
        name: "the greatest number",
        format: NARROW,
        words: "lean make 18446744073709551615 20",
        sessions: 4,
        number: u64::MAX,
        transactions: 20,
        line: "made 20 refused 0 pairs ",
        is_refused: false,
    },
    Workload {
        name: "few pages",
        format: NARROW,
        words: "lean make 1 500",
        sessions: 4,
        number: 1,
        transactions: 500,
        line: "made 500 refused 23 pairs 629 sum 1334703260016\n",
        is_refused: true,
    },
    // Its last transaction is refused too.
    Workload {
        name: "a log that is full",
        format: ONE,
        words: "lean make 1 60",
        sessions: 1,
        number: 1,
        transactions: 60,
        line: "made 60 refused ",
        is_refused: true,
    },
];

const OPENED: &str = "open 1 winners 0 undone 0\n";

// A new disk, on which no call was made yet.
fn new_disk<R: Threads + Wait + Sync>(
    rt: &R,
    alloc: Global,
    format: &str,
) -> Result<MemDisk, AllocError> {
    let disk = MemDisk::new(alloc, 6)?;
    let disk = run_alone(rt, alloc, format, disk, MemSink::new(alloc))?.disk;
    disk.crash(disk.moment(), Choice::AllBytes)
}

// This workload on a new disk.
fn made<R: Threads + Wait + Sync>(
    rt: &R,
    alloc: Global,
    it: &Workload,
) -> Result<Outcome, AllocError> {
    let disk = new_disk(rt, alloc, it.format)?;
    run_alone(rt, alloc, it.words, disk, MemSink::new(alloc))
}

// Its lines, a sync and a begin, as a script on a new disk.
fn ran<R: Threads + Wait + Sync>(
    rt: &R,
    alloc: Global,
    it: &Workload,
) -> Result<Outcome, AllocError> {
    let disk = new_disk(rt, alloc, it.format)?;
    let script = script_of(alloc, it)?;
    let source = MemSource::new(alloc, script.as_bytes(), 4096)?;
    run_words(rt, alloc, RUN, disk, source, MemSink::new(alloc))
}

// Whether six areas have the same bytes.
fn is_same(one: &MemDisk, other: &MemDisk) -> bool {
    for area in 0..6 {
        if one.bytes(area) != other.bytes(area) {
            return false;
        }
    }
    true
}

// Whether it prints what a run of its lines comes to, and the same on a second disk; and leaves the disk that the run leaves, with the pairs that it tells.
fn is_made<R: Threads + Wait + Sync>(
    rt: &R,
    alloc: Global,
    it: &Workload,
) -> Result<bool, AllocError> {
    let first = made(rt, alloc, it)?;
    let second = made(rt, alloc, it)?;
    let run = ran(rt, alloc, it)?;
    let mut map = BTreeMap::new(alloc);
    let refused = replay(&mut map, it.number, text_of(&run), u64::MAX)?;
    // Where the last begin is refused no pair is met.
    let pairs = if is_begun(text_of(&run)) {
        pairs_of(&map)
    } else {
        NO_PAIRS
    };
    let line = line_of(alloc, it.transactions, refused, pairs)?;
    let mut plain = BTreeMap::new(alloc);
    draw_all(&mut plain, it.number, it.transactions)?;
    let is_plain = if it.is_refused {
        refused > 0
    } else {
        refused == 0 && pairs_of(&plain) == pairs_of(&map)
    };
    let is_printed = match text_of(&first).strip_prefix(OPENED) {
        Some(rest) => rest == line.as_str() && rest.starts_with(it.line),
        None => false,
    };
    let is_told = first.status == 0 && second.status == 0 && text_of(&second) == text_of(&first);
    let is_left = is_same(&first.disk, &run.disk) && is_same(&first.disk, &second.disk);
    let dump = run_alone(rt, alloc, DUMP, first.disk, MemSink::new(alloc))?;
    Ok(is_plain && is_printed && is_told && is_left && dumped(text_of(&dump)) == pairs_of(&map))
}

/// A workload that a crash cuts off, at so many moments.
struct Kill {
    workload: Workload,
    choice: Choice,
}

static KILLS: [Kill; 2] = [
    Kill {
        workload: Workload {
            name: "a crash that leaves all bytes",
            format: NARROW,
            words: "lean make 1 40",
            sessions: 4,
            number: 1,
            transactions: 40,
            line: "made 40 refused 0 pairs ",
            is_refused: false,
        },
        choice: Choice::AllBytes,
    },
    Kill {
        workload: Workload {
            name: "a crash that leaves half of what was written, with draws that were refused",
            format: ONE,
            words: "lean make 2 60",
            sessions: 1,
            number: 2,
            transactions: 60,
            line: "made 60 refused ",
            is_refused: true,
        },
        choice: Choice::FirstHalf,
    },
];

const MOMENTS: u64 = 10;

// Whether the next dump of the disk that a crash left has the pairs of the transactions that it tells of, in their order; and a workload behind it
// comes to those that it draws besides.
fn is_found<R: Threads + Wait + Sync>(
    rt: &R,
    alloc: Global,
    number: u64,
    printed: &str,
    left: MemDisk,
) -> Result<bool, AllocError> {
    let dump = run_alone(rt, alloc, DUMP, left, MemSink::new(alloc))?;
    let mut map = BTreeMap::new(alloc);
    let winners = number_behind(text_of(&dump), " winners ");
    let _ = replay(&mut map, number, printed, winners)?;
    let is_dumped = dump.status == 0 && dumped(text_of(&dump)) == pairs_of(&map);
    let more = run_alone(rt, alloc, "lean make 7 2", dump.disk, MemSink::new(alloc))?;
    draw_all(&mut map, 7, 2)?;
    let refused = number_behind(text_of(&more), " refused ");
    let told = Pairs {
        count: number_behind(text_of(&more), " pairs "),
        sum: number_behind(text_of(&more), " sum "),
    };
    Ok(is_dumped && more.status == 0 && refused == 0 && told == pairs_of(&map))
}

fn is_found_at_each<R: Threads + Wait + Sync>(
    rt: &R,
    alloc: Global,
    it: &Kill,
) -> Result<bool, AllocError> {
    let run = ran(rt, alloc, &it.workload)?;
    let whole = made(rt, alloc, &it.workload)?.disk;
    for step in 0..MOMENTS {
        let moment = whole.moment().saturating_mul(step) / MOMENTS;
        let left = whole.crash(moment, it.choice)?;
        if !is_found(rt, alloc, it.workload.number, text_of(&run), left)? {
            return Ok(false);
        }
    }
    Ok(true)
}

// A sink that fails at this call: what was printed, and the pairs that are found then.
static FAILING: [(&str, u64, &[u8], Pairs); 2] = [
    ("a first line that is cut off", 1, b"", NO_PAIRS),
    (
        "a last line that is cut off",
        2,
        b"open 1 winners 0 undone 0\n",
        Pairs {
            count: 5,
            sum: 5589860614,
        },
    ),
];

fn is_cut<R: Threads + Wait + Sync>(
    rt: &R,
    alloc: Global,
    call: u64,
    printed: &[u8],
    pairs: Pairs,
) -> Result<bool, AllocError> {
    let mut sink = MemSink::new(alloc);
    sink.fail_at([call].to_vec(alloc)?);
    let disk = new_disk(rt, alloc, ONE)?;
    let Outcome { status, disk, sink } = run_alone(rt, alloc, "lean make 0 1", disk, sink)?;
    let dump = run_alone(rt, alloc, DUMP, disk, MemSink::new(alloc))?;
    Ok(status == 5 && sink.bytes() == printed && dumped(text_of(&dump)) == pairs)
}

// A call of an area that fails: what was printed.
static FAULTS: [(&str, u32, u64, &[u8]); 2] = [
    ("a master that can't be read", 0, 1, b"lean: disk fault\n"),
    (
        "a log that can't be written any more",
        2,
        40,
        b"open 1 winners 0 undone 0\nlean: disk fault\n",
    ),
];

fn is_stopped<R: Threads + Wait + Sync>(
    rt: &R,
    alloc: Global,
    area: u32,
    call: u64,
    printed: &[u8],
) -> Result<bool, AllocError> {
    let mut disk = new_disk(rt, alloc, ONE)?;
    disk.fail_at(area, [call].to_vec(alloc)?);
    let outcome = run_alone(rt, alloc, "lean make 1 40", disk, MemSink::new(alloc))?;
    Ok(outcome.status == 6 && outcome.sink.bytes() == printed)
}

#[test]
fn a_workload_comes_to_what_a_run_of_its_lines_does(rt: HostRuntime) {
    let alloc = rt.alloc();
    for it in &WORKLOADS {
        expect(&rt, it.name, is_made(&rt, alloc, it));
    }
    for it in &KILLS {
        expect(&rt, it.workload.name, is_found_at_each(&rt, alloc, it));
    }
    for (name, call, printed, pairs) in &FAILING {
        expect(&rt, name, is_cut(&rt, alloc, *call, printed, *pairs));
    }
    for (name, area, call, printed) in &FAULTS {
        expect(&rt, name, is_stopped(&rt, alloc, *area, *call, printed));
    }
}
