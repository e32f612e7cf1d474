// How many finds, puts and locks over plain rows a second. With no argument a handful of each, and what they add up to; with a number
// N, N times 100,000 of each, with times.
#![tactic(auto)]

ghost use Rattle.std.specs.Prelude.{◌≡◌, ◌≤◌, ◌<◌, ◌^◌, IfOk, length};
ghost use Rattle.row_sessions.specs.Standing.{Stands, workers_of};
ghost use Rattle.page_model.specs.Tree.{IsTree};
ghost use Rattle.disk_image.specs.Formats.{format_of};
ghost use Rattle.node_tree.specs.Nodes.{nodes_of};

use btree_descent::descent::{Answer, Found};
use disk_image::Node;
use key_locks::mode::Mode;
use node_tree::{first_break, leaf_of};
use page_model::every_check;
use row_sessions::pages::two_levels;
use row_sessions::sessions::Sessions;
use std::alloc::Global;
use std::time::Instant;
use std::{env, io};

/// A root over so many leaves, which have as many entries when they are full.
const LEAVES: u32 = 60;

/// The keys of a leaf begin at multiples of this, and its entries stand `GAP` apart.
const SPAN: u64 = 960;

const GAP: u64 = 16;

/// As many changes make a transaction.
const CHANGES: u64 = 64;

/// How many lock rows there are.
const LOCKS: u32 = 1024;

// The next of a row of random numbers.
fn next(state: &mut u64) -> u64 {
    *state = state
        .wrapping_mul(6364136223846793005)
        .wrapping_add(1442695040888963407);
    *state >> 33
}

// A key that has an entry where leaves are full.
fn next_key(state: &mut u64) -> u64
    ensures { result < 2 ^ 32 }
{
    next(state) % 3600 * GAP
}

fn pages(alloc: Global, entries: u64) -> io::Result<Vec<Node>>
    requires { entries ≤ 60 }
{
    Ok(two_levels(alloc, LEAVES, SPAN, GAP, entries)?)
}

// One worker over the tree.
fn opened(alloc: Global, entries: u64) -> io::Result<Sessions>
    requires { entries ≤ 60 }
    ensures { IfOk result (λ s. Stands s × (1 ≤ workers_of s)) }
{
    let pages = pages(alloc, entries)?;
    match Sessions::open(alloc, &pages, LEAVES + 1, LOCKS, 1, 1) {
        Ok(sessions) => Ok(sessions),
        Err(_) => Err(io::Error::from(io::ErrorKind::OutOfMemory)),
    }
}

// Finds random keys over rows.
fn finds(sessions: &mut Sessions, times: u64) -> u64
    requires stands { Stands sessions.old }
    ensures stands { Stands sessions.new }
    ensures same { workers_of sessions.new ≡ workers_of sessions.old }
{
    let mut state = 1u64;
    let mut sum = 0u64;
    for _ in 0..times {
        let key = next_key(&mut state);
        if let Answer::Found(
            Found {
                word: Some(word),
                ..
            },
        ) = sessions.find(key)
        {
            sum = sum.wrapping_add(word);
        }
    }
    sum
}

// Finds the same keys over nodes in memory.
fn finds_in_nodes(pages: &[Node], times: u64) -> u64
    requires { IsTree (format_of (length pages.now)) (nodes_of pages.now) }
{
    let mut state = 1u64;
    let mut sum = 0u64;
    for _ in 0..times {
        let key = next_key(&mut state);
        if let Some(word) = pages[leaf_of(pages, key)].find(key) {
            sum = sum.wrapping_add(word);
        }
    }
    sum
}

// Gives random keys that have entries other words.
fn puts(sessions: &mut Sessions, times: u64) -> u64
    requires stands { Stands sessions.old }
    requires worker { 1 ≤ workers_of sessions.old }
    ensures stands { Stands sessions.new }
    ensures same { workers_of sessions.new ≡ workers_of sessions.old }
{
    let mut state = 1u64;
    let mut sum = 0u64;
    for i in 0..times {
        if i % CHANGES == 0 {
            let _ = sessions.end(1);
            let _ = sessions.begin(1);
        }
        let key = next_key(&mut state);
        if let Ok(Some(before)) = sessions.put(1, key, i % 1000003) {
            sum = sum.wrapping_add(before);
        }
    }
    let _ = sessions.end(1);
    sum
}

// How many keys the leaves have room for.
const KEYS: u64 = 3600;

// Gives keys that have none an entry, until the leaves are full. How many got one.
fn fills(sessions: &mut Sessions) -> u64
    requires stands { Stands sessions.old }
    requires worker { 1 ≤ workers_of sessions.old }
    ensures stands { Stands sessions.new }
    ensures same { workers_of sessions.new ≡ workers_of sessions.old }
{
    let mut sum = 0u64;
    for i in 0..KEYS {
        if i % CHANGES == 0 {
            let _ = sessions.end(1);
            let _ = sessions.begin(1);
        }
        let key = i % 60 * SPAN + i / 60 * 17 % 60 * GAP;
        if let Ok(None) = sessions.put(1, key, i) {
            sum = sum.wrapping_add(1);
        }
    }
    let _ = sessions.end(1);
    sum
}

// Locks the keys from one on. How many got their lock.
fn lock_all(sessions: &mut Sessions, first: u64) -> u64
    requires stands { Stands sessions.old }
    requires worker { 1 ≤ workers_of sessions.old }
    requires first { first < 2 ^ 32 }
    ensures stands { Stands sessions.new }
    ensures same { workers_of sessions.new ≡ workers_of sessions.old }
{
    let mut sum = 0u64;
    for key in first..first + CHANGES {
        if let Ok(()) = sessions.lock(1, key, Mode::Alone) {
            sum = sum.wrapping_add(1);
        }
    }
    sum
}

fn unlock_all(sessions: &mut Sessions, first: u64) -> u64
    requires stands { Stands sessions.old }
    requires worker { 1 ≤ workers_of sessions.old }
    requires first { first < 2 ^ 32 }
    ensures stands { Stands sessions.new }
    ensures same { workers_of sessions.new ≡ workers_of sessions.old }
{
    let mut sum = 0u64;
    for key in first..first + CHANGES {
        if sessions.unlock(1, key) {
            sum = sum.wrapping_add(1);
        }
    }
    sum
}

// Transactions that lock keys, end and give up their locks.
fn locks(sessions: &mut Sessions, times: u64) -> u64
    requires stands { Stands sessions.old }
    requires worker { 1 ≤ workers_of sessions.old }
    ensures stands { Stands sessions.new }
    ensures same { workers_of sessions.new ≡ workers_of sessions.old }
{
    let mut sum = 0u64;
    for i in 0..times / CHANGES {
        let first = i % 16 * CHANGES;
        let _ = sessions.begin(1);
        sum = sum.wrapping_add(lock_all(sessions, first));
        let _ = sessions.end(1);
        sum = sum.wrapping_add(unlock_all(sessions, first));
    }
    sum
}

// What the finds over nodes add up to, and their milliseconds.
fn over_nodes(rt: &HostRuntime, pages: &[Node], times: u64) -> io::Result<(u64, u128)> {
    every_check();
    if pages.is_empty() {
        return Ok((0, 0));
    }
    match first_break(rt.alloc(), pages)? {
        None => {
            let start = Instant::now(rt)?;
            let sum = finds_in_nodes(pages, times);
            Ok((sum, start.elapsed(rt)?.as_millis()))
        }
        Some(_) => Ok((0, 0)),
    }
}

// The argument, up to a thousand.
fn argument(rt: &HostRuntime) -> io::Result<u64>
    ensures { IfOk result (λ times. times ≤ 1000) }
{
    let mut times = 0u64;
    for word in env::args(rt)? {
        times = word.as_str().parse::<u64>().unwrap_or(0);
    }
    Ok(times.min(1000))
}

// What was done, what it adds up to, and its milliseconds.
fn report(rt: &HostRuntime, done: &str, sum: u64, took: u128) -> io::Result<()> {
    println!(rt; "{done} {sum} {took} ms")
}

fn handful(rt: &HostRuntime) -> io::Result<()> {
    let alloc = rt.alloc();
    let mut sessions = opened(alloc, 60)?;
    let a = finds(&mut sessions, 100);
    let nodes = pages(alloc, 60)?;
    let (b, _) = over_nodes(rt, &nodes, 100)?;
    let c = puts(&mut sessions, 100);
    let d = locks(&mut sessions, 128);
    let mut empty = opened(alloc, 0)?;
    let e = fills(&mut empty);
    println!(rt; "{a} {b} {c} {d} {e}")
}

fn main(rt: HostRuntime) -> io::Result<()> {
    let times = argument(&rt)? * 100000;
    if times == 0 {
        return handful(&rt);
    }
    let alloc = rt.alloc();
    let nodes = pages(alloc, 60)?;
    let (sum, took) = over_nodes(&rt, &nodes, times)?;
    report(&rt, "finds over nodes", sum, took)?;
    let mut sessions = opened(alloc, 60)?;
    let start = Instant::now(&rt)?;
    let sum = finds(&mut sessions, times);
    let took = start.elapsed(&rt)?.as_millis();
    report(&rt, "finds over rows", sum, took)?;
    let start = Instant::now(&rt)?;
    let sum = puts(&mut sessions, times);
    let took = start.elapsed(&rt)?.as_millis();
    report(&rt, "puts over entries", sum, took)?;
    let start = Instant::now(&rt)?;
    let sum = locks(&mut sessions, times);
    let took = start.elapsed(&rt)?.as_millis();
    report(&rt, "locks and unlocks", sum, took)?;
    new_entries(&rt, times)
}

// Puts of new entries, into leaves that are emptied in between; their own time alone.
fn new_entries(rt: &HostRuntime, times: u64) -> io::Result<()>
    requires { times < 2 ^ 32 }
{
    let mut sum = 0u64;
    let mut took = 0u128;
    for _ in 0..times / KEYS {
        let mut sessions = opened(rt.alloc(), 0)?;
        let start = Instant::now(rt)?;
        sum = sum.wrapping_add(fills(&mut sessions));
        took = took.wrapping_add(start.elapsed(rt)?.as_micros());
    }
    report(rt, "new entries", sum, took / 1000)
}
