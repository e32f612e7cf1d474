// What random calls don't reach, and what is plainer by hand.
ghost use Rattle.std.specs.Prelude.{◌≤◌, IfOk};
ghost use Rattle.row_sessions.specs.Standing.{Stands, workers_of};

use crate::answers::{Call, TOMBSTONE, Told, answer};
use crate::expect::expect;
use key_locks::mode::Mode;
use row_sessions::pages::two_levels;
use row_sessions::session::CLOCK_END;
use row_sessions::sessions::{Sessions, Unopened};
use std::alloc::Global;

/// A worker's call, and what it is to be told.
#[derive(Clone, Copy)]
pub struct Case(pub u32, pub Call, pub Told);

/// What is called, one after the other.
struct Scenario {
    name: &'static str,
    cases: &'static [Case],
}

static SCENARIOS: [Scenario; 5] = [
    Scenario {
        name: "a full leaf takes a key that it has and no other",
        cases: &[
            Case(1, Call::Begin, Told::Did(true)),
            Case(1, Call::Put(5, 1), Told::Full),
            Case(1, Call::Put(599, 1), Told::Full),
            Case(1, Call::Put(590, 1), Told::Word(Some(59))),
            Case(1, Call::Put(0, 2), Told::Word(Some(0))),
            Case(1, Call::Find(590), Told::Word(Some(1))),
            Case(1, Call::Find(0), Told::Word(Some(2))),
            Case(1, Call::Find(5), Told::Word(None)),
        ],
    },
    Scenario {
        name: "a tombstone's word is told as it stands",
        cases: &[
            Case(1, Call::Begin, Told::Did(true)),
            Case(1, Call::Put(10, TOMBSTONE), Told::Word(Some(1))),
            Case(1, Call::Find(10), Told::Word(Some(TOMBSTONE))),
            Case(1, Call::Put(10, 3), Told::Word(Some(TOMBSTONE))),
            Case(1, Call::Find(10), Told::Word(Some(3))),
        ],
    },
    Scenario {
        name: "a find tells the stamp of the leaf, which the last put there left",
        cases: &[
            Case(1, Call::Stamp(590), Told::Stamp(0, 0)),
            Case(1, Call::Begin, Told::Did(true)),
            Case(2, Call::Begin, Told::Did(true)),
            Case(1, Call::Put(10, 3), Told::Word(Some(1))),
            Case(1, Call::Stamp(590), Told::Stamp(8, 1)),
            Case(2, Call::Put(20, 4), Told::Word(Some(2))),
            Case(1, Call::Stamp(5), Told::Stamp(9, 2)),
            Case(1, Call::Stamp(1000), Told::Stamp(0, 0)),
        ],
    },
    Scenario {
        name: "two keys of one row, alike modulo eight, are one lock",
        cases: &[
            Case(1, Call::Begin, Told::Did(true)),
            Case(2, Call::Begin, Told::Did(true)),
            Case(1, Call::Put(80, 5), Told::Word(Some(8))),
            Case(1, Call::Put(160, 6), Told::Word(Some(16))),
            Case(2, Call::Put(240, 6), Told::Conflict(1)),
            Case(1, Call::End, Told::Did(true)),
            Case(1, Call::Unlock(80), Told::Did(true)),
            Case(1, Call::Unlock(160), Told::Did(false)),
            Case(2, Call::Put(240, 6), Told::Word(Some(24))),
        ],
    },
    Scenario {
        name: "a sole reader becomes the holder, and the least other reader is named",
        cases: &[
            Case(1, Call::Begin, Told::Did(true)),
            Case(2, Call::Begin, Told::Did(true)),
            Case(3, Call::Begin, Told::Did(true)),
            Case(2, Call::Lock(80, Mode::Shared), Told::Locked),
            Case(3, Call::Lock(80, Mode::Shared), Told::Locked),
            Case(1, Call::Lock(80, Mode::Alone), Told::Conflict(2)),
            Case(2, Call::Lock(80, Mode::Alone), Told::Conflict(3)),
            Case(3, Call::End, Told::Did(true)),
            Case(3, Call::Unlock(80), Told::Did(true)),
            Case(2, Call::Lock(80, Mode::Alone), Told::Locked),
            Case(2, Call::Lock(80, Mode::Shared), Told::Locked),
            Case(1, Call::Lock(80, Mode::Shared), Told::Conflict(2)),
        ],
    },
];

// Behind sixty-four changes of key 1000, the last one to the word 63.
static A_TRANSACTION_MAKES_NO_MORE_CHANGES: [Case; 4] = [
    Case(1, Call::Put(1000, 64), Told::NotOpen),
    Case(1, Call::End, Told::Did(true)),
    Case(1, Call::Begin, Told::Did(true)),
    Case(1, Call::Put(1000, 64), Told::Word(Some(63))),
];

// Where the base is one below the clock's end. A put that is told its word draws the number behind it.
static CLOCKS_COME_TO_THEIR_END: [Case; 9] = [
    Case(1, Call::Begin, Told::Did(true)),
    Case(1, Call::Put(1000, 5), Told::Word(Some(0))),
    Case(1, Call::Put(1000, 6), Told::NotOpen),
    Case(2, Call::Begin, Told::Did(true)),
    Case(2, Call::Put(1010, 5), Told::Word(Some(1))),
    Case(1, Call::End, Told::Did(true)),
    Case(1, Call::Begin, Told::Did(false)),
    Case(3, Call::Begin, Told::Did(true)),
    Case(3, Call::End, Told::Did(true)),
];

// Over three leaves of four entries: worker 1 makes tombstones of two of the first leaf and of all of the second, and worker 2 walks.
static A_WALK_MEETS_EACH_ENTRY_ON_ITS_WAY: [Case; 32] = [
    Case(1, Call::Begin, Told::Did(true)),
    Case(1, Call::Put(10, TOMBSTONE), Told::Word(Some(1))),
    Case(1, Call::Put(20, TOMBSTONE), Told::Word(Some(2))),
    Case(1, Call::Put(1000, TOMBSTONE), Told::Word(Some(0))),
    Case(1, Call::Put(1010, TOMBSTONE), Told::Word(Some(1))),
    Case(1, Call::Put(1020, TOMBSTONE), Told::Word(Some(2))),
    Case(1, Call::Put(1030, TOMBSTONE), Told::Word(Some(3))),
    Case(1, Call::End, Told::Did(true)),
    Case(1, Call::Unlock(10), Told::Did(true)),
    Case(1, Call::Unlock(20), Told::Did(true)),
    Case(1, Call::Unlock(1000), Told::Did(true)),
    Case(1, Call::Unlock(1030), Told::Did(true)),
    Case(2, Call::Next(5, &[]), Told::NotOpen),
    Case(2, Call::Begin, Told::Did(true)),
    // a tombstone
    Case(2, Call::Next(5, &[]), Told::Unlocked(10)),
    Case(2, Call::Next(5, &[10]), Told::Other),
    Case(2, Call::Lock(10, Mode::Shared), Told::Locked),
    // another in the middle
    Case(2, Call::Next(5, &[10]), Told::Unlocked(20)),
    Case(2, Call::Lock(20, Mode::Shared), Told::Locked),
    Case(2, Call::Lock(30, Mode::Shared), Told::Locked),
    Case(2, Call::Next(5, &[10, 30]), Told::Unlocked(20)),
    // the pair itself
    Case(2, Call::Next(5, &[10, 20]), Told::Unlocked(30)),
    Case(2, Call::Next(5, &[10, 20, 30]), Told::Pair(30, 3)),
    Case(2, Call::Next(30, &[30]), Told::Pair(30, 3)),
    // behind the last entry, and over a leaf of tombstones
    Case(2, Call::Next(31, &[]), Told::Gap(1000)),
    Case(2, Call::Next(1000, &[]), Told::Unlocked(1000)),
    Case(2, Call::Lock(1000, Mode::Shared), Told::Locked),
    // of the other keys the rows are held, by keys of the first leaf
    Case(
        2,
        Call::Next(1000, &[1000, 1010, 1020]),
        Told::Unlocked(1030),
    ),
    Case(
        2,
        Call::Next(1000, &[1000, 1010, 1020, 1030]),
        Told::Gap(2000),
    ),
    Case(2, Call::Next(2000, &[2000]), Told::Pair(2000, 0)),
    Case(2, Call::Next(2001, &[2010]), Told::Pair(2010, 1)),
    Case(2, Call::Next(2031, &[]), Told::Gap(u64::MAX)),
];

/// Three workers and eight lock rows over two leaves, which begin at 0 and 1000, with entries ten apart.
pub fn opened(alloc: Global, entries: u64) -> Result<Sessions, Unopened>
    requires { entries ≤ 60 }
    ensures { IfOk result (λ s. Stands s × (3 ≤ workers_of s)) }
{
    opened_at(alloc, 2, entries, 7)
}

// The same over so many leaves, a thousand apart, where numbers begin behind this base.
fn opened_at(alloc: Global, leaves: u32, entries: u64, base: u64) -> Result<Sessions, Unopened>
    requires leaves { leaves ≤ 60 }
    requires entries { entries ≤ 60 }
    ensures { IfOk result (λ s. Stands s × (3 ≤ workers_of s)) }
{
    match two_levels(alloc, leaves, 1000, 10, entries) {
        Ok(pages) => Sessions::open(alloc, &pages, 4, 8, 3, base),
        Err(_) => Err(Unopened::Memory),
    }
}

/// Whether a call of one of the three workers is told what it is to be.
pub fn is_told(sessions: &mut Sessions, case: &Case) -> bool
    requires { Stands sessions.old × (3 ≤ workers_of sessions.old) }
    ensures { Stands sessions.new × (3 ≤ workers_of sessions.new) }
{
    let Case(worker, call, told) = *case;
    1 <= worker && worker <= 3 && answer(sessions, worker, call) == told
}

// Whether each call is told what its row says.
fn are_told(sessions: &mut Sessions, cases: &[Case]) -> bool
    requires { Stands sessions.old × (3 ≤ workers_of sessions.old) }
    ensures { Stands sessions.new × (3 ≤ workers_of sessions.new) }
{
    for case in cases {
        if !is_told(sessions, case) {
            return false;
        }
    }
    true
}

fn is_met(alloc: Global, scenario: &Scenario) -> bool {
    match opened(alloc, 60) {
        Ok(mut sessions) => are_told(&mut sessions, scenario.cases),
        Err(_) => false,
    }
}

// Whether sixty-four changes of a transaction are told what was there before.
fn makes_changes(sessions: &mut Sessions) -> bool
    requires { Stands sessions.old × (3 ≤ workers_of sessions.old) }
    ensures { Stands sessions.new × (3 ≤ workers_of sessions.new) }
{
    for change in 0..64u64 {
        // the entry that is there has the word 0
        let before = Told::Word(Some(change.saturating_sub(1)));
        if !is_told(sessions, &Case(1, Call::Put(1000, change), before)) {
            return false;
        }
    }
    true
}

fn makes_no_more_changes(alloc: Global) -> bool {
    match opened(alloc, 60) {
        Ok(mut sessions) => {
            is_told(&mut sessions, &Case(1, Call::Begin, Told::Did(true)))
                && makes_changes(&mut sessions)
                && are_told(&mut sessions, &A_TRANSACTION_MAKES_NO_MORE_CHANGES)
        }
        Err(_) => false,
    }
}

fn clocks_end(alloc: Global) -> bool {
    match opened_at(alloc, 2, 60, CLOCK_END - 1) {
        Ok(mut sessions) => are_told(&mut sessions, &CLOCKS_COME_TO_THEIR_END),
        Err(_) => false,
    }
}

fn meets_each_entry(alloc: Global) -> bool {
    match opened_at(alloc, 3, 4, 7) {
        Ok(mut sessions) => are_told(&mut sessions, &A_WALK_MEETS_EACH_ENTRY_ON_ITS_WAY),
        Err(_) => false,
    }
}

#[test]
fn each_call_is_told_what_its_row_says(rt: HostRuntime) {
    let alloc = rt.alloc();
    for scenario in &SCENARIOS {
        expect(&rt, scenario.name, is_met(alloc, scenario));
    }
    expect(
        &rt,
        "a walk meets each entry on its way",
        meets_each_entry(alloc),
    );
    expect(
        &rt,
        "a transaction makes sixty-four changes",
        makes_no_more_changes(alloc),
    );
    expect(
        &rt,
        "behind its clock's end a session ends, and begins and puts no more",
        clocks_end(alloc),
    );
}
