// Calls of three sessions, one after another; what they answer is written by hand.
ghost use Rattle.std.specs.Prelude.{◌≡◌, length, IfOk};

use crate::place::MemJournal;
use std::alloc::{AllocError, Global};
use transactions::{Hindrance, Receipt, Refusal, Session};

enum Call {
    Begin,
    Get(u64),
    Put(u64, u64),
    Del(u64),
    Commit,
    Abort,
}

#[derive(PartialEq, Eq, Drop)]
enum Answer {
    Number(u64),
    Value(Option<u64>),
    // what the receipt says: the transaction, the log, the end's number, and what it needs
    Committed(u64, u32, u64, u64),
    HeldBy(u32),
    Refused(Refusal),
}

// A session's call and its answer; then how many entries and how many committed transactions there are.
struct Step(u32, Call, Answer, usize, usize);

static STEPS: [Step; 40] = [
    // a change that is put back is not read
    Step(1, Call::Begin, Answer::Number(1), 0, 0),
    Step(1, Call::Put(5, 7), Answer::Value(None), 1, 0),
    Step(2, Call::Begin, Answer::Number(1), 1, 0),
    Step(2, Call::Get(5), Answer::HeldBy(1), 1, 0),
    Step(1, Call::Abort, Answer::Number(1), 1, 0),
    Step(2, Call::Get(5), Answer::Value(None), 1, 0),
    Step(2, Call::Commit, Answer::Committed(1, 2, 4, 3), 1, 1),
    // a sole reader becomes the holder
    Step(1, Call::Begin, Answer::Number(2), 1, 1),
    Step(1, Call::Get(6), Answer::Value(None), 1, 1),
    Step(1, Call::Put(6, 1), Answer::Value(None), 2, 1),
    Step(3, Call::Begin, Answer::Number(1), 2, 1),
    Step(3, Call::Get(6), Answer::HeldBy(1), 2, 1),
    Step(1, Call::Commit, Answer::Committed(2, 1, 5, 0), 2, 2),
    Step(3, Call::Get(6), Answer::Value(Some(1)), 2, 2),
    // the one who holds it alone stands in the way, else the least numbered other reader
    Step(2, Call::Begin, Answer::Number(2), 2, 2),
    Step(2, Call::Get(7), Answer::Value(None), 2, 2),
    Step(3, Call::Get(7), Answer::Value(None), 2, 2),
    Step(1, Call::Begin, Answer::Number(3), 2, 2),
    Step(1, Call::Put(7, 1), Answer::HeldBy(2), 2, 2),
    Step(3, Call::Put(7, 1), Answer::HeldBy(2), 2, 2),
    Step(2, Call::Put(7, 1), Answer::HeldBy(3), 2, 2),
    Step(2, Call::Commit, Answer::Committed(2, 2, 5, 4), 2, 3),
    Step(3, Call::Put(7, 1), Answer::Value(None), 3, 3),
    Step(1, Call::Put(7, 2), Answer::HeldBy(3), 3, 3),
    Step(3, Call::Abort, Answer::Number(1), 3, 3),
    // a delete of an absent key writes nothing, and draws no number
    Step(1, Call::Del(9), Answer::Value(None), 3, 3),
    Step(1, Call::Commit, Answer::Committed(3, 1, 8, 7), 3, 4),
    // three changes of one key are put back
    Step(1, Call::Begin, Answer::Number(4), 3, 4),
    Step(1, Call::Put(5, 7), Answer::Value(None), 3, 4),
    Step(1, Call::Put(5, 8), Answer::Value(Some(7)), 3, 4),
    Step(1, Call::Del(5), Answer::Value(Some(8)), 3, 4),
    Step(1, Call::Abort, Answer::Number(4), 3, 4),
    Step(1, Call::Begin, Answer::Number(5), 3, 4),
    Step(1, Call::Get(5), Answer::Value(None), 3, 4),
    Step(1, Call::Put(5, 3), Answer::Value(None), 3, 4),
    Step(1, Call::Get(5), Answer::Value(Some(3)), 3, 4),
    // at its room the log takes no more change, but the end
    Step(
        1,
        Call::Put(5, 4),
        Answer::Refused(Refusal::LogFull {
            used: 14,
            limit: 14,
        }),
        3,
        4,
    ),
    Step(1, Call::Commit, Answer::Committed(5, 1, 17, 7), 3, 5),
    Step(
        1,
        Call::Begin,
        Answer::Refused(Refusal::LogFull {
            used: 15,
            limit: 14,
        }),
        3,
        5,
    ),
    Step(
        1,
        Call::Get(5),
        Answer::Refused(Refusal::NoTransaction),
        3,
        5,
    ),
];

fn refused(refusal: Refusal) -> Answer {
    match refusal {
        Refusal::Hindered(Hindrance::Conflict { holder }) => Answer::HeldBy(holder),
        _ => Answer::Refused(refusal),
    }
}

fn number(answered: Result<u64, Refusal>) -> Answer {
    match answered {
        Ok(number) => Answer::Number(number),
        Err(refusal) => refused(refusal),
    }
}

fn value(answered: Result<Option<u64>, Refusal>) -> Answer {
    match answered {
        Ok(value) => Answer::Value(value),
        Err(refusal) => refused(refusal),
    }
}

fn committed(answered: Result<Receipt, Refusal>) -> Answer {
    match answered {
        Ok(end) => Answer::Committed(end.txn, end.log, end.gsn, end.need),
        Err(refusal) => refused(refusal),
    }
}

fn make(session: &mut Session, place: &mut MemJournal, asked: &Call) -> Answer
    requires { length place.old.rows.items ≡ length session.old.held.items }
    ensures place { length place.new.rows.items ≡ length place.old.rows.items }
    ensures session { length session.new.held.items ≡ length session.old.held.items }
{
    match asked {
        Call::Begin => number(session.begin(place)),
        Call::Get(key) => value(session.get(place, *key)),
        Call::Put(key, word) => {
            let word = *word % (1 << 63);
            value(session.put(place, *key, word))
        }
        Call::Del(key) => value(session.del(place, *key)),
        Call::Commit => committed(session.commit(place)),
        Call::Abort => number(session.abort(place)),
    }
}

fn empty(alloc: Global) -> Result<MemJournal, AllocError>
    ensures { IfOk result (λ p. length p.rows.items ≡ 16) }
{
    MemJournal::new(alloc, 3, 16, u64::MAX, 60, 0, 14)
}

fn session(alloc: Global, number: u32) -> Result<Session, AllocError>
    ensures { IfOk result (λ s. length s.held.items ≡ 16) }
{
    Session::new(alloc, number, 16)
}

// The place, and its three sessions.
#[derive(Drop)]
struct Three {
    place: MemJournal,
    one: Session,
    two: Session,
    three: Session,
    ghost sized: { (length place.rows.items ≡ 16) × (length one.held.items ≡ 16) × (length two.held.items ≡ 16) × (length three.held.items ≡ 16) },
}

fn make_three(alloc: Global) -> Result<Three, AllocError> {
    Ok(Three {
        place: empty(alloc)?,
        one: session(alloc, 1)?,
        two: session(alloc, 2)?,
        three: session(alloc, 3)?,
    })
}

fn take(all: &mut Three, session: u32, asked: &Call) -> Answer {
    match session {
        1 => make(&mut all.one, &mut all.place, asked),
        2 => make(&mut all.two, &mut all.place, asked),
        _ => make(&mut all.three, &mut all.place, asked),
    }
}

#[test]
fn sessions_run_over_a_place_in_memory(rt: HostRuntime) {
    let mut all = make_three(rt.alloc()).expect(&rt, "memory");
    for (i, row) in STEPS.iter().enumerate() {
        let answer = take(&mut all, row.0, &row.1);
        assert!(rt; answer == row.2, "step {i}");
        assert_eq!(rt; all.place.entries.len(), row.3, "step {i}");
        assert_eq!(rt; all.place.journal.len(), row.4, "step {i}");
    }
}
