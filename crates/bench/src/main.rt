// How many lines, replies, records, node searches and blocks a second, and how long recovery takes. With no argument a handful of each, and
// what they add up to; with a number N, N million of each, with times; with the word `writer` and a number C, 1 where it is left out, how long the
// blocks of the logs in the current folder take where each is only sealed and written, and a log synced behind each C of its commits.
#![tactic(auto)]

mod history;
mod recovery;
mod writer;

ghost use Rattle.std.specs.Prelude.{◌≤◌, ◌<◌};
ghost use Rattle.script_lang.specs.Replies.{AnswerFits};

use btree_node::Node;
use log_block::{BLOCK, block_bytes};
use log_record::{Body, PageRef, Record, read_record, record_bytes};
use map_model::{Answer, Call};
use recovery::recovery;
use script_lang::{REPLY, read_line, reply_bytes};
use std::time::Instant;
use std::{env, io};
use writer::write_plainly;

const LINES: [&[u8]; 4] = [
    b"1 begin",
    b"1 put 500123 77000456",
    b"1 get 18446744073709551614",
    b"1 commit",
];

fn lines(times: u64) -> u64 {
    let mut sum = 0u64;
    for i in 0..times {
        for line in LINES.iter() {
            if let Ok(read) = read_line(16, line) {
                let key = match read.call {
                    Call::Get { key } => key,
                    Call::Put { key, value } => key.wrapping_add(value),
                    _ => i,
                };
                sum = sum.wrapping_add(key).wrapping_add(read.session as u64);
            }
        }
    }
    sum
}

fn replies(times: u64) -> u64 {
    let mut into = [0u8; REPLY];
    let mut sum = 0u64;
    for i in 0..times {
        let begun = Answer::Begun { number: i };
        sum = sum.wrapping_add(reply(&begun, &mut into));
        let was = Answer::Was(Some(i));
        sum = sum.wrapping_add(reply(&was, &mut into));
        let none = Answer::Value(None);
        sum = sum.wrapping_add(reply(&none, &mut into));
        let committed = Answer::Committed { number: i, at: i };
        sum = sum.wrapping_add(reply(&committed, &mut into));
    }
    sum
}

// One reply: how many bytes it takes, and its third byte.
fn reply(answer: &Answer, into: &mut [u8; REPLY]) -> u64
    requires { AnswerFits answer.now }
{
    let n = reply_bytes(1, answer, into);
    (n as u64).wrapping_add(into[2] as u64)
}

// Not inlined, so that each record is written and read whole.
#[inline(never)]
fn write_change(i: u64, into: &mut [u8; 64]) -> usize {
    let change = Record {
        txn: i,
        gsn: i,
        body: Body::Change {
            leaf: PageRef { page: 0, prev: i },
            key: i,
            before: 1 << 63,
            after: i,
        },
    };
    record_bytes(&change, into)
}

#[inline(never)]
fn read_back(bytes: &[u8; 64], entry: &mut Record) -> u64 {
    let Some(size) = read_record(bytes, entry) else {
        return 0;
    };
    match &entry.body {
        Body::Change {
            leaf,
            key,
            before,
            after,
        } => entry
            .txn
            .wrapping_add(entry.gsn)
            .wrapping_add(leaf.page as u64)
            .wrapping_add(leaf.prev)
            .wrapping_add(*key)
            .wrapping_add(*before)
            .wrapping_add(*after)
            .wrapping_add(size as u64),
        _ => 0,
    }
}

fn records(times: u64) -> u64 {
    let mut into = [0u8; 64];
    let mut entry = Record {
        txn: 0,
        gsn: 0,
        body: Body::Commit { need: 0 },
    };
    let mut sum = 0u64;
    for i in 0..times {
        let n = write_change(i, &mut into);
        sum = sum
            .wrapping_add(n as u64)
            .wrapping_add(read_back(&into, &mut entry));
    }
    sum
}

// A leaf with as many entries as fit.
fn full_leaf() -> Node {
    let mut leaf = Node::empty_leaf(1, 0, u64::MAX);
    for i in 0..60 {
        let _ = leaf.put(1000 * i, i);
    }
    leaf
}

fn searches(times: u64) -> u64 {
    let leaf = full_leaf();
    let mut state = 1u64;
    let mut sum = 0u64;
    for _ in 0..times {
        state = state
            .wrapping_mul(6364136223846793005)
            .wrapping_add(1442695040888963407);
        let key = 1000 * ((state >> 32) % 60);
        sum = sum.wrapping_add(leaf.find(key).unwrap_or(1000));
    }
    sum
}

fn blocks(times: u64) -> u64 {
    let mut into = [0u8; BLOCK];
    let payload = [0u8; 1960];
    let mut sum = 0u64;
    for i in 0..times {
        block_bytes(i, 1, i, 1, &payload, &mut into);
        sum = sum.wrapping_add(into[2040] as u64);
    }
    sum
}

// A recovery: what was found and made of the pages, and with `timed` the microseconds of its parts.
fn recover(rt: &HostRuntime, logs: u32, blocks: u32, timed: bool) -> io::Result<()>
    requires { (0 < logs) × (logs ≤ 16) }
{
    let done = recovery(rt, logs, blocks)?;
    println!(rt;
        "logs {logs} blocks {} records {} undone {} words {}",
        done.blocks, done.records, done.undone, done.words
    )?;
    if timed {
        println!(rt;
            "seals {} us, scan {} us, redo and undo {} us",
            done.seals, done.scan, done.redo
        )?;
    }
    Ok(())
}

// What the last word asks for.
#[derive(Clone, Copy)]
enum Asked {
    Handful,
    Millions(u32),
    Writer(u32),
}

fn asked_for(rt: &HostRuntime) -> io::Result<Asked> {
    let mut asked = Asked::Handful;
    for word in env::args(rt)? {
        asked = match (asked, word.as_str(), word.parse::<u32>()) {
            (_, "writer", _) => Asked::Writer(1),
            (Asked::Writer(_), _, Ok(group)) => Asked::Writer(group),
            (_, _, Ok(millions)) => Asked::Millions(millions),
            _ => Asked::Handful,
        };
    }
    Ok(asked)
}

// What is done over and over.
#[derive(Clone, Copy)]
enum Work {
    Lines,
    Replies,
    Records,
    Searches,
    Blocks,
}

// How often for each million that is asked for.
static WORKS: [(&str, Work, u32); 5] = [
    ("lines", Work::Lines, 250000),
    ("replies", Work::Replies, 250000),
    ("records", Work::Records, 1000000),
    ("searches", Work::Searches, 1000000),
    ("blocks", Work::Blocks, 10000),
];

fn sum_of(work: Work, times: u64) -> u64 {
    match work {
        Work::Lines => lines(times),
        Work::Replies => replies(times),
        Work::Records => records(times),
        Work::Searches => searches(times),
        Work::Blocks => blocks(times),
    }
}

// What so many add up to, and the milliseconds that they took.
fn time(rt: &HostRuntime, name: &str, work: Work, times: u64) -> io::Result<()> {
    let start = Instant::now(rt)?;
    let sum = sum_of(work, times);
    let took = start.elapsed(rt)?.as_millis();
    println!(rt; "{name} {sum} {took} ms")
}

// A handful of each.
fn try_all(rt: &HostRuntime) -> io::Result<()> {
    let (a, b, c, d, e) = (lines(3), replies(3), records(3), searches(3), blocks(3));
    println!(rt; "{a} {b} {c} {d} {e}")?;
    recover(rt, 2, 64, false)
}

fn time_all(rt: &HostRuntime, millions: u32) -> io::Result<()> {
    for (name, work, each) in &WORKS {
        time(rt, name, *work, u64::from(millions) * u64::from(*each))?;
    }
    for logs in [1, 1, 4, 16] {
        recover(rt, logs, 4096, true)?;
    }
    Ok(())
}

fn time_writer(rt: &HostRuntime, group: u32) -> io::Result<()> {
    let written = write_plainly(rt, group)?;
    eprintln!(rt;
        "writer {} lines, {} blocks, {} syncs, {} us",
        written.lines, written.blocks, written.syncs, written.took
    )
}

fn main(rt: HostRuntime) -> io::Result<()> {
    match asked_for(&rt)? {
        Asked::Handful => try_all(&rt),
        Asked::Millions(millions) => time_all(&rt, millions),
        Asked::Writer(group) => time_writer(&rt, group),
    }
}
