// Keys that two workers lock.
ghost use Rattle.std.specs.Prelude.{◌≡◌, ◌≤◌, true, IfSome};
ghost use Rattle.btree_descent.specs.rows_trait.Views.{state};
ghost use Rattle.row_sessions.specs.Standing.{Stands, workers_of};
ghost use Rattle.shared_peeks.specs.Locked.{CanLockBoth};

use btree_descent::{PlainRows, RowsTraitTrace as Trace};
use row_sessions::pages::two_levels;
use row_sessions::sessions::Sessions;
use shared_peeks::locks::{LOCKED, lock_by_two};
use std::alloc::Global;

// Whether both workers are in a transaction.
fn are_open(sessions: &Sessions) -> bool
    requires { Stands sessions.now × (2 ≤ workers_of sessions.now) }
    ensures { result ≡ true → (((state sessions.now.seat.view).core.worker 1).is_open ≡ true) × (((state sessions.now.seat.view).core.worker 2).is_open ≡ true) }
{
    sessions.is_open(1) && sessions.is_open(2)
}

// Rows on which both workers are in a transaction.
fn rows_of(alloc: Global) -> Option<(PlainRows, Trace)>
    ensures { IfSome result (λ r. CanLockBoth r.0 r.1) }
{
    let Ok(pages) = two_levels(alloc, 7, 10, 1, 0) else {
        return None;
    };
    let Ok(mut sessions) = Sessions::open(alloc, pages.as_slice(), 32, 128, 2, 0) else {
        return None;
    };
    if !sessions.begin(1) || !sessions.begin(2) || !are_open(&sessions) {
        return None;
    }
    Some(sessions.into_rows())
}

#[test]
fn two_threads_lock_keys_of_their_own(rt: HostRuntime) {
    let alloc = rt.alloc();
    let Some((rows, seat)) = rows_of(alloc) else {
        return panic!(rt; "no rows");
    };
    let Ok((_, _, first, second)) = lock_by_two(&rt, alloc, rows, seat) else {
        return panic!(rt; "no memory");
    };
    assert!(rt;
        first == LOCKED && second == LOCKED,
        "each has locked all its keys"
    );
}
