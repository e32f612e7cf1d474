// Sixty keys, put by one worker, and peeked and found by two.
ghost use Rattle.std.specs.Prelude.{◌≤◌, IfSome};
ghost use Rattle.row_sessions.specs.Standing.{Stands, workers_of};
ghost use Rattle.shared_peeks.specs.Peeked.{CanShare};

use btree_descent::{PlainRows, RowsTraitTrace as Trace};
use row_sessions::pages::two_levels;
use row_sessions::sessions::Sessions;
use shared_peeks::finds::find_by_two;
use shared_peeks::peeks::{KEYS, peek_by_two};
use std::alloc::Global;

// Keys 1 to 60 with their own numbers as values.
fn put_keys(sessions: &mut Sessions) -> bool
    requires { Stands sessions.old × (2 ≤ workers_of sessions.old) }
    ensures { Stands sessions.new }
{
    if !sessions.begin(1) {
        return false;
    }
    for key in 1..KEYS + 1 {
        let Ok(None) = sessions.put(1, key, key) else {
            return false;
        };
    }
    sessions.end(1)
}

// Rows with these keys, in seven leaves.
fn rows_of(alloc: Global) -> Option<(PlainRows, Trace)>
    ensures { IfSome result (λ r. CanShare r.0 r.1) }
{
    let Ok(pages) = two_levels(alloc, 7, 10, 1, 0) else {
        return None;
    };
    let Ok(mut sessions) = Sessions::open(alloc, pages.as_slice(), 32, 16, 2, 0) else {
        return None;
    };
    if !put_keys(&mut sessions) {
        return None;
    }
    Some(sessions.into_rows())
}

#[test]
fn two_threads_peek_every_key(rt: HostRuntime) {
    let alloc = rt.alloc();
    let Some((rows, seat)) = rows_of(alloc) else {
        return panic!(rt; "no rows");
    };
    let Ok((rows, seat, all)) = peek_by_two(&rt, alloc, rows, seat) else {
        return panic!(rt; "no memory");
    };
    assert!(rt; all, "each answer is the key's own number");

    // they are plain again, and can be shared again
    let Ok((_, _, again)) = peek_by_two(&rt, alloc, rows, seat) else {
        return panic!(rt; "no memory");
    };
    assert!(rt; again, "and so it is a second time");
}

#[test]
fn two_threads_find_every_key(rt: HostRuntime) {
    let alloc = rt.alloc();
    let Some((rows, seat)) = rows_of(alloc) else {
        return panic!(rt; "no rows");
    };
    let Ok((_, _, all)) = find_by_two(&rt, alloc, rows, seat) else {
        return panic!(rt; "no memory");
    };
    assert!(rt; all, "each key has its own number");
}
