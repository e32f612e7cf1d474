use super::*;
use std::test::*;

enum Step {
    // an end: its log, the transaction, its number and its need, and whether it is a commit
    Push(u32, u64, u64, u64, bool),
    // a log is flushed up to a number
    Flush(usize, u64),
    // what is taken, by session and transaction
    Take(u32, u64),
    // nothing is; then so many ends of sessions 1 and 2 wait
    Nothing(usize, usize),
}

static STEPS: [Step; 22] = [
    Step::Nothing(0, 0),
    // a commit's own flush
    Step::Push(1, 1, 2, 0, true),
    Step::Nothing(1, 0),
    Step::Flush(0, 2),
    Step::Take(1, 1),
    Step::Nothing(0, 0),
    // two with one number; both are flushed at once
    Step::Push(2, 1, 5, 0, true),
    Step::Push(1, 2, 5, 0, true),
    Step::Push(2, 2, 6, 0, true),
    Step::Flush(1, 5),
    Step::Flush(0, 5),
    Step::Take(1, 2),
    Step::Take(2, 1),
    Step::Nothing(0, 1),
    // it needs a number of the other log; an abort stands before it, and one behind
    Step::Push(1, 3, 8, 6, false),
    Step::Push(1, 4, 9, 6, true),
    Step::Push(1, 5, 10, 6, false),
    Step::Flush(0, 10),
    Step::Nothing(3, 1),
    Step::Flush(1, 6),
    Step::Take(2, 2),
    Step::Take(1, 4),
];

#[test]
fn the_first_ripe_commit_is_taken(rt: HostRuntime) -> Result<(), Fail> {
    let mut unripe = Unripe::new(rt.alloc(), 2)?;
    let mut flushed = [0u64; 2];
    for step in &STEPS {
        assert_eq!(rt; unripe.len(), 2);
        match step {
            Step::Push(log, txn, gsn, need, is_commit) => {
                assert!(rt; 0 < *log && *log < 3);
                assert!(rt; unripe.waiting(*log) < ROOM);
                unripe.push(
                    Receipt {
                        txn: *txn,
                        log: *log,
                        gsn: *gsn,
                        need: *need,
                    },
                    *is_commit,
                );
            }
            Step::Flush(at, number) => {
                assert!(rt; *at < 2);
                flushed[*at] = *number;
            }
            Step::Take(log, txn) => {
                let taken = unripe.take(&flushed);
                assert_eq!(rt; taken.map(|r| (r.log, r.txn)), Some((*log, *txn)));
            }
            Step::Nothing(first, second) => {
                assert_eq!(rt; unripe.take(&flushed), None);
                assert_eq!(rt; unripe.len(), 2);
                assert_eq!(rt; unripe.waiting(1), *first);
                assert_eq!(rt; unripe.waiting(2), *second);
            }
        }
    }
    assert_eq!(rt; unripe.len(), 2);
    assert_eq!(rt; unripe.take(&flushed), None);
    assert_eq!(rt; unripe.len(), 2);
    assert_eq!(rt; unripe.waiting(1), 0);
    Ok(())
}

// The log of a receipt, the end's number and its need; and what becomes of it where logs are flushed up to 7, 4 and 6.
static RECEIPTS: [(u32, u64, u64, Ripeness); 5] = [
    (1, 7, 0, Ripeness::Durable),
    (1, 7, 4, Ripeness::Durable),
    // its own log
    (3, 8, 9, Ripeness::Waits { log: 3, flushed: 6 }),
    // others, the first of them
    (1, 7, 5, Ripeness::Waits { log: 2, flushed: 4 }),
    (3, 6, 9, Ripeness::Waits { log: 1, flushed: 7 }),
];

#[test]
fn a_receipt_waits_for_the_log_that_is_behind(rt: HostRuntime) {
    for (log, gsn, need, ripeness) in &RECEIPTS {
        assert!(rt; 0 < *log && *log < 4);
        let receipt = Receipt {
            txn: 1,
            log: *log,
            gsn: *gsn,
            need: *need,
        };
        assert_eq!(rt; ripe(&[7, 4, 6], &receipt), *ripeness);
    }
}
