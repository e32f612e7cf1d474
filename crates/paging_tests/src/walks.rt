// Random lines over many keys.
use crate::plain::Plain;
use crate::runs::any_below;
use map_model::Call;
use rand_core::utils::NextWord;
use rand_pcg::Pcg32;
use std::process::Abort;

// So many of the keys are asked for by every other line.
const FEW: u64 = 8;

/// Scripts of so many sessions over a tree whose keys are the even numbers below a bound: how many lines each has, and how many of a hundred end a transaction.
#[derive(Clone, Copy)]
pub(crate) struct Walk {
    pub sessions: u32,
    pub bound: u64,
    pub lines: u32,
    pub ends: u32,
}

// One of a few keys, or any one, also one that is not there.
fn any_key(random: &mut Pcg32, bound: u64) -> u64 {
    if random.next_word() % 2 == 0 {
        return any_below(random, FEW).saturating_mul(bound / FEW);
    }
    any_below(random, bound)
}

// A scan: mostly of a few keys, also of more than it tells, and from a key above its last one.
fn any_scan(random: &mut Pcg32, walk: &Walk) -> Call {
    let from = any_key(random, walk.bound);
    let keys = match random.next_word() % 4 {
        0 => 400,
        _ => 24,
    };
    let to = from
        .saturating_add(any_below(random, keys))
        .saturating_sub(2);
    Call::Scan { from, to }
}

// A line of a session in a transaction.
fn any_call(random: &mut Pcg32, walk: &Walk) -> Call {
    let key = any_key(random, walk.bound);
    let value = any_below(random, 1000);
    if random.next_word() % 100 < walk.ends {
        return match random.next_word() % 3 {
            0 => Call::Abort,
            _ => Call::Commit,
        };
    }
    match random.next_word() % 16 {
        0..=4 => Call::Get { key },
        5 => any_scan(random, walk),
        6..=13 => Call::Put { key, value },
        _ => Call::Del { key },
    }
}

// One of so many sessions.
fn any_session(random: &mut Pcg32, sessions: u32) -> u32 {
    if sessions == 0 {
        return 1;
    }
    (random.next_word() % sessions).saturating_add(1)
}

/// Adds the lines of a script: mostly a session has some in a row. There is a sync in 64 lines, and one at the end.
pub(crate) fn add_lines<R: Abort>(rt: &R, random: &mut Pcg32, plain: &mut Plain, walk: &Walk) {
    let mut session = 1;
    for _ in 0..walk.lines {
        let pick = random.next_word() % 64;
        if pick == 0 {
            plain.add_sync(rt);
        } else {
            if pick < 16 {
                session = any_session(random, walk.sessions);
            }
            if plain.is_open(session) {
                let call = any_call(random, walk);
                if plain.is_doubtful(rt, session, call) {
                    let key = any_key(random, walk.bound);
                    plain.add(rt, session, Call::Get { key });
                } else {
                    plain.add(rt, session, call);
                }
            } else {
                plain.add_begin(rt, session);
            }
        }
    }
    plain.add_sync(rt);
}
