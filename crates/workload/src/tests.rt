// Lines of two workloads, as another program computed them.
use crate::lines::Workload;
use map_model::Call;
use script_lang::Line;

// number 1, for four workers
static FIRST: [(u32, Call); 20] = [
    (1, Call::Begin),
    (
        1,
        Call::Put {
            key: 849,
            value: 3380776849,
        },
    ),
    (
        1,
        Call::Put {
            key: 764,
            value: 361947764,
        },
    ),
    (
        1,
        Call::Put {
            key: 655,
            value: 3223725655,
        },
    ),
    (
        1,
        Call::Put {
            key: 427,
            value: 2781001427,
        },
    ),
    (
        1,
        Call::Put {
            key: 638,
            value: 2944471638,
        },
    ),
    (1, Call::Get { key: 697 }),
    (1, Call::Del { key: 406 }),
    (
        1,
        Call::Put {
            key: 899,
            value: 2629966899,
        },
    ),
    (1, Call::Commit),
    (2, Call::Begin),
    (2, Call::Del { key: 874 }),
    (
        2,
        Call::Put {
            key: 43,
            value: 2424464043,
        },
    ),
    (
        2,
        Call::Put {
            key: 249,
            value: 3528292249,
        },
    ),
    (
        2,
        Call::Put {
            key: 147,
            value: 2853247147,
        },
    ),
    (2, Call::Get { key: 549 }),
    (2, Call::Del { key: 865 }),
    (
        2,
        Call::Put {
            key: 996,
            value: 2278720996,
        },
    ),
    (
        2,
        Call::Put {
            key: 720,
            value: 637695720,
        },
    ),
    (2, Call::Commit),
];

// the greatest number, for two workers
static GREATEST: [(u32, Call); 30] = [
    (1, Call::Begin),
    (
        1,
        Call::Put {
            key: 737,
            value: 3795398737,
        },
    ),
    (
        1,
        Call::Put {
            key: 950,
            value: 3572406950,
        },
    ),
    (1, Call::Get { key: 69 }),
    (
        1,
        Call::Put {
            key: 187,
            value: 3687248187,
        },
    ),
    (1, Call::Del { key: 645 }),
    (
        1,
        Call::Put {
            key: 389,
            value: 2066560389,
        },
    ),
    (1, Call::Get { key: 697 }),
    (1, Call::Del { key: 319 }),
    (1, Call::Commit),
    (2, Call::Begin),
    (2, Call::Del { key: 599 }),
    (2, Call::Get { key: 370 }),
    (2, Call::Del { key: 678 }),
    (
        2,
        Call::Put {
            key: 392,
            value: 3735947392,
        },
    ),
    (
        2,
        Call::Put {
            key: 969,
            value: 3754814969,
        },
    ),
    (
        2,
        Call::Put {
            key: 629,
            value: 2775767629,
        },
    ),
    (2, Call::Get { key: 758 }),
    (
        2,
        Call::Put {
            key: 129,
            value: 439430129,
        },
    ),
    (2, Call::Commit),
    (1, Call::Begin),
    (
        1,
        Call::Put {
            key: 833,
            value: 3513833,
        },
    ),
    (1, Call::Get { key: 265 }),
    (1, Call::Del { key: 684 }),
    (
        1,
        Call::Put {
            key: 207,
            value: 4177645207,
        },
    ),
    (1, Call::Del { key: 98 }),
    (
        1,
        Call::Put {
            key: 654,
            value: 4090314654,
        },
    ),
    (1, Call::Del { key: 675 }),
    (1, Call::Del { key: 422 }),
    (1, Call::Commit),
];

// Whether these are the lines, and no other comes behind them.
fn gives(workload: &mut Workload, lines: &[(u32, Call)]) -> bool {
    for (session, call) in lines {
        let line = Line {
            session: *session,
            call: *call,
        };
        if workload.next() != Some(line) {
            return false;
        }
    }
    workload.next().is_none() && workload.next().is_none()
}

#[test]
fn two_transactions_of_number_1_are_of_sessions_1_and_2(rt: HostRuntime) {
    let mut workload = Workload::new(1, 2, 4);
    assert!(rt; gives(&mut workload, &FIRST));
}

#[test]
fn three_transactions_of_two_workers_are_of_sessions_1_2_and_1(rt: HostRuntime) {
    let mut workload = Workload::new(u64::MAX, 3, 2);
    assert!(rt; gives(&mut workload, &GREATEST));
}
