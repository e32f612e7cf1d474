// Which words of the rows a call changes. With three workers and four frames the frame rows begin at 14, each of 129 words with its latch,
// and the lock rows at 530, each of six; the leaf of keys from 0 on stands in frame 1, which begins at 143.
ghost use Rattle.std.specs.Prelude.{◌≤◌};
ghost use Rattle.row_sessions.specs.Standing.{Stands, workers_of};

use crate::answers::{Call, Told};
use crate::cases::{Case, is_told, opened};
use crate::expect::expect;
use key_locks::mode::Mode;
use row_sessions::sessions::Sessions;
use std::alloc::Global;

/// A word of the rows: where it lies, and what it is.
#[derive(Clone, Copy)]
pub struct Word(pub usize, pub u64);

/// A call, and what it makes of the words that it changes.
struct Stores(Case, &'static [Word]);

/// What is called, one after the other, where each leaf has so many entries.
struct Scenario {
    name: &'static str,
    entries: u64,
    calls: &'static [Stores],
}

const LIVE: u64 = 1 << 24;

// The last log of a leaf that worker 1 has changed.
const LOG: u64 = 1 << 16;

static SCENARIOS: [Scenario; 4] = [
    Scenario {
        name: "a put over an entry stores three words and two latches; the lock row is latched once more",
        entries: 60,
        calls: &[
            Stores(Case(1, Call::Begin, Told::Did(true)), &[]),
            Stores(
                Case(1, Call::Lock(590, Mode::Alone), Told::Locked),
                &[Word(566, 2), Word(568, 1)],
            ),
            Stores(
                Case(1, Call::Put(590, 5), Told::Word(Some(59))),
                &[
                    Word(566, 4),
                    Word(143, 2),
                    Word(145, 8),
                    Word(147, 60 + LOG + LIVE),
                    Word(269, 5),
                ],
            ),
        ],
    },
    Scenario {
        name: "a new entry moves those behind it",
        entries: 2,
        calls: &[
            Stores(Case(1, Call::Begin, Told::Did(true)), &[]),
            Stores(
                Case(1, Call::Put(5, 6), Told::Word(None)),
                &[
                    Word(560, 2),
                    Word(562, 1),
                    Word(143, 2),
                    Word(145, 8),
                    Word(147, 3 + LOG + LIVE),
                    Word(152, 5),
                    Word(153, 6),
                    Word(154, 10),
                    Word(155, 1),
                ],
            ),
        ],
    },
    Scenario {
        name: "an end tells its number, and an unlock hands it on",
        entries: 60,
        calls: &[
            Stores(Case(1, Call::Begin, Told::Did(true)), &[]),
            Stores(
                Case(1, Call::Put(590, 5), Told::Word(Some(59))),
                &[
                    Word(566, 2),
                    Word(568, 1),
                    Word(143, 2),
                    Word(145, 8),
                    Word(147, 60 + LOG + LIVE),
                    Word(269, 5),
                ],
            ),
            Stores(Case(1, Call::End, Told::Did(true)), &[Word(3, 9)]),
            Stores(
                Case(1, Call::Unlock(590), Told::Did(true)),
                &[Word(566, 4), Word(568, 0), Word(569, 9), Word(570, 1)],
            ),
        ],
    },
    Scenario {
        name: "a find changes nothing",
        entries: 60,
        calls: &[Stores(Case(1, Call::Find(590), Told::Word(Some(59))), &[])],
    },
];

// Changes words. Whether each of them was another word before.
pub fn change(words: &mut [u64], changes: &[Word]) -> bool {
    for Word(at, value) in changes {
        match words.get_mut(*at) {
            Some(word) if *word != *value => *word = *value,
            _ => return false,
        }
    }
    true
}

// Whether a call is told what it is to be, and changes these words and no other.
fn goes(sessions: &mut Sessions, alloc: Global, call: &Stores) -> bool
    requires { Stands sessions.old × (3 ≤ workers_of sessions.old) }
    ensures { Stands sessions.new × (3 ≤ workers_of sessions.new) }
{
    let Stores(case, changes) = call;
    let Ok(mut words) = sessions.words().to_vec(alloc) else {
        return false;
    };
    is_told(sessions, case) && change(&mut words, changes) && words.as_slice() == sessions.words()
}

fn is_met(alloc: Global, scenario: &Scenario) -> bool {
    if scenario.entries > 60 {
        return false;
    }
    let Ok(mut sessions) = opened(alloc, scenario.entries) else {
        return false;
    };
    for call in scenario.calls {
        if !goes(&mut sessions, alloc, call) {
            return false;
        }
    }
    true
}

#[test]
fn each_call_changes_the_words_that_its_row_names(rt: HostRuntime) {
    for scenario in &SCENARIOS {
        expect(&rt, scenario.name, is_met(rt.alloc(), scenario));
    }
}
