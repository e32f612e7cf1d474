// Random calls of several workers, each answer compared with the model's.
ghost use Rattle.std.specs.Prelude.{◌≡◌, ◌<◌, ◌≤◌, IfOk};
ghost use Rattle.row_sessions.specs.Standing.{Stands, workers_of};

use crate::answers::{Call, TOMBSTONE, Told, answer};
use crate::expect::expect;
use crate::model::{Model, Place};
use key_locks::mode::Mode;
use rand_core::utils::NextWord;
use rand_pcg::Pcg32;
use row_sessions::pages::two_levels;
use row_sessions::sessions::{Sessions, Unopened};
use std::alloc::Global;

/// The keys of a leaf begin at multiples of this.
const SPAN: u32 = 1000;

/// Its slots are so far apart.
const GAP: u32 = 10;

/// How many slots each leaf has: more than it has room for.
const SLOTS: u32 = 80;

struct Case {
    name: &'static str,
    seed: u64,
    workers: u32,
    leaves: u32,
    locks: u32,
    frames: u32,
    entries: u32,
    steps: u32,
}

static CASES: [Case; 5] = [
    Case {
        name: "one worker and one lock",
        seed: 1,
        workers: 1,
        leaves: 2,
        locks: 1,
        frames: 3,
        entries: 0,
        steps: 500,
    },
    Case {
        name: "three workers over full leaves",
        seed: 2,
        workers: 3,
        leaves: 2,
        locks: 16,
        frames: 3,
        entries: 60,
        steps: 600,
    },
    Case {
        name: "four workers over five leaves",
        seed: 3,
        workers: 4,
        leaves: 5,
        locks: 32,
        frames: 8,
        entries: 30,
        steps: 500,
    },
    Case {
        name: "sixteen workers",
        seed: 4,
        workers: 16,
        leaves: 3,
        locks: 64,
        frames: 4,
        entries: 60,
        steps: 600,
    },
    Case {
        name: "sixty leaves",
        seed: 5,
        workers: 2,
        leaves: 60,
        locks: 128,
        frames: 61,
        entries: 59,
        steps: 300,
    },
];

// What kind of answer came.
#[derive(Clone, Copy)]
enum Kind {
    Begun,
    Word,
    None,
    Over,
    New,
    Full,
    Conflict,
    Locked,
    NotOpen,
    Ended,
    Unlocked,
}

// How often each kind of answer came.
type Counts = [u32; 11];

// A number below a limit.
fn choose(random: &mut Pcg32, limit: u32) -> u32
    requires { 0 < limit }
    ensures { result < limit }
{
    random.next_word() % limit
}

/// A key: its leaf and its slot there.
#[derive(Clone, Copy)]
struct Slot {
    leaf: u32,
    slot: u32,
}

impl Slot {
    fn any(random: &mut Pcg32, leaves: u32) -> Slot
        requires { 0 < leaves }
        ensures leaf { result.leaf < leaves }
        ensures slot { result.slot < 80 }
    {
        let leaf = choose(random, leaves);
        let slot = choose(random, SLOTS);
        Slot { leaf, slot }
    }

    fn key(&self) -> u32
        requires leaf { self.now.leaf < 60 }
        requires slot { self.now.slot < 80 }
    {
        SPAN * self.leaf + GAP * self.slot
    }

    // The place of its lock row.
    fn row(&self, locks: u32) -> usize
        requires leaf { self.now.leaf < 60 }
        requires slot { self.now.slot < 80 }
        requires some { 0 < locks }
    {
        (self.key() % locks) as usize
    }
}

// A word, sometimes a tombstone's.
fn any_word(random: &mut Pcg32) -> u64 {
    if choose(random, 8) == 0 {
        TOMBSTONE
    } else {
        u64::from(random.next_word())
    }
}

fn any_mode(random: &mut Pcg32) -> Mode {
    if choose(random, 2) == 0 {
        Mode::Shared
    } else {
        Mode::Alone
    }
}

fn any_call(random: &mut Pcg32, key: u32) -> Call {
    match choose(random, 16) {
        0..3 => Call::Begin,
        3..5 => Call::Find(key),
        5..10 => Call::Put(key, any_word(random)),
        10..12 => Call::Lock(key, any_mode(random)),
        12 => Call::End,
        _ => Call::Unlock(key),
    }
}

// The kind of an answer that tells of a call that was done, or of what was in its way.
fn kind_of(call: Call, told: Told) -> Option<Kind> {
    match (told, call) {
        (Told::Did(true), Call::Begin) => Some(Kind::Begun),
        (Told::Did(true), Call::End) => Some(Kind::Ended),
        (Told::Did(true), _) => Some(Kind::Unlocked),
        (Told::Locked, _) => Some(Kind::Locked),
        (Told::Word(Some(_)), Call::Find(_)) => Some(Kind::Word),
        (Told::Word(None), Call::Find(_)) => Some(Kind::None),
        (Told::Word(Some(_)), _) => Some(Kind::Over),
        (Told::Word(None), _) => Some(Kind::New),
        (Told::NotOpen, _) => Some(Kind::NotOpen),
        (Told::Conflict(_), _) => Some(Kind::Conflict),
        (Told::Full, _) => Some(Kind::Full),
        _ => None,
    }
}

fn count(counts: &mut Counts, kind: Option<Kind>) {
    if let Some(kind) = kind
        && let Some(count) = counts.get_mut(kind as usize)
    {
        *count = count.saturating_add(1);
    }
}

// One call, of a random worker on a random key. Whether it is told what the model says.
fn step(
    sessions: &mut Sessions,
    model: &mut Model,
    random: &mut Pcg32,
    case: &Case,
    counts: &mut Counts,
) -> bool
    requires stands { Stands sessions.old }
    requires workers { (0 < case.now.workers) × (case.now.workers ≤ workers_of sessions.old) × (case.now.workers < 17) }
    requires sizes { (0 < case.now.leaves) × (case.now.leaves ≤ 60) × (0 < case.now.locks) }
    ensures stands { Stands sessions.new }
    ensures same { workers_of sessions.new ≡ workers_of sessions.old }
{
    let worker = 1 + choose(random, case.workers);
    let slot = Slot::any(random, case.leaves);
    let place = Place {
        row: slot.row(case.locks),
        leaf: slot.leaf as usize,
        slot: slot.slot as usize,
    };
    let call = any_call(random, slot.key());
    let told = answer(sessions, worker, call);
    count(counts, kind_of(call, told));
    told == model.answer(worker, place, call)
}

// Sessions over so many leaves, frames, locks and workers.
fn opened(alloc: Global, case: &Case) -> Result<Sessions, Unopened>
    requires entries { case.now.entries ≤ 60 }
    requires leaves { case.now.leaves ≤ 60 }
    ensures { IfOk result (λ s. Stands s × (case.now.workers ≤ workers_of s)) }
{
    let (span, gap) = (u64::from(SPAN), u64::from(GAP));
    match two_levels(alloc, case.leaves, span, gap, u64::from(case.entries)) {
        Ok(pages) => Sessions::open(alloc, &pages, case.frames, case.locks, case.workers, 9),
        Err(_) => Err(Unopened::Memory),
    }
}

// Whether each call is told what the model says.
fn are_told(sessions: &mut Sessions, model: &mut Model, case: &Case, counts: &mut Counts) -> bool
    requires stands { Stands sessions.old }
    requires workers { (0 < case.now.workers) × (case.now.workers ≤ workers_of sessions.old) × (case.now.workers < 17) }
    requires sizes { (0 < case.now.leaves) × (case.now.leaves ≤ 60) × (0 < case.now.locks) }
{
    let mut random = Pcg32::new(case.seed, 54);
    for _ in 0..case.steps {
        if !step(sessions, model, &mut random, case, counts) {
            return false;
        }
    }
    true
}

fn is_met(alloc: Global, case: &Case, counts: &mut Counts) -> bool {
    if case.workers < 1 || case.workers > 16 || case.leaves < 1 || case.leaves > 60 {
        return false;
    }
    if case.locks < 1 || case.entries > 60 {
        return false;
    }
    let Ok(mut sessions) = opened(alloc, case) else {
        return false;
    };
    let (leaves, entries) = (case.leaves as usize, case.entries as usize);
    match Model::new(alloc, leaves, SLOTS as usize, entries, case.locks as usize) {
        Ok(mut model) => are_told(&mut sessions, &mut model, case, counts),
        Err(_) => false,
    }
}

fn came_often(counts: &Counts) -> bool {
    for count in counts {
        if *count < 10 {
            return false;
        }
    }
    true
}

#[test]
fn each_answer_is_that_of_a_map_and_of_lists_of_holders(rt: HostRuntime) {
    let mut counts = [0; 11];
    for case in &CASES {
        expect(&rt, case.name, is_met(rt.alloc(), case, &mut counts));
    }
    expect(
        &rt,
        "each kind of answer came ten times",
        came_often(&counts),
    );
}
