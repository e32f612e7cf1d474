// Scripts with scans, and every line that comes of them. The lines were written down by hand, a `;` for each newline.
use crate::cases::expect;
use crate::rows::{Case, Run, is_met};
use crate::texts::{Command, Lines, Text};

const FORMATTED: Run = Run {
    command: Command::Format64,
    script: Lines::Once(""),
    status: 0,
    printed: Lines::Once("formatted 1 64 64;"),
};

const FORMATTED_TWO: Run = Run {
    command: Command::FormatTwo,
    script: Lines::Once(""),
    status: 0,
    printed: Lines::Once("formatted 2 16 64;"),
};

// A command with this script, its status, and these lines.
macro_rules! row {
    ($command:ident, $script:expr, $status:expr, $printed:expr) => {
        Run {
            command: Command::$command,
            script: Lines::Once($script),
            status: $status,
            printed: Lines::Once($printed),
        }
    };
}

static FEW: [Case; 9] = [
    Case {
        name: "a scan meets a deleted key whose row another session holds",
        left_out: None,
        runs: &[
            FORMATTED_TWO,
            row!(
                Run,
                "1 begin;1 put 50 1;1 commit;2 begin;2 del 50;1 begin;1 scan 0 100;",
                0,
                "open 1 winners 0 undone 0;1 begun 1.1;1 was none;1 committed 1.1 at 2;1 durable 1.1;2 begun 2.1;2 was 1;1 begun 1.2;1 conflict 2;1 aborted 1.2;"
            ),
        ],
        leaves: None,
    },
    Case {
        name: "a scan passes a deleted key, and one from above its last key is over",
        left_out: None,
        runs: &[
            FORMATTED,
            row!(
                Run,
                "1 begin;1 put 1 10;1 put 2 20;1 put 3 30;1 del 2;1 scan 1 9;1 scan 9 1;",
                0,
                "open 1 winners 0 undone 0;1 begun 1.1;1 was none;1 was none;1 was none;1 was 20;1 pair 1 10;1 pair 3 30;1 end;1 end;"
            ),
        ],
        leaves: None,
    },
    // 60 changes and a commit; a lift, a split, five changes and a commit.
    Case {
        name: "a scan of an empty map, of one key, and in no transaction",
        left_out: None,
        runs: &[
            FORMATTED,
            row!(
                Run,
                "1 scan 0 9;1 scan 9 0;1 begin;1 scan 0 18446744073709551614;1 put 5 7;1 scan 5 5;1 scan 0 4;1 scan 6 9;1 commit;1 scan 5 5;",
                0,
                "open 1 winners 0 undone 0;1 no-transaction;1 no-transaction;1 begun 1.1;1 end;1 was none;1 pair 5 7;1 end;1 end;1 end;1 committed 1.1 at 2;1 durable 1.1;1 no-transaction;"
            ),
        ],
        leaves: None,
    },
    Case {
        name: "the greatest key",
        left_out: None,
        runs: &[
            FORMATTED,
            row!(
                Run,
                "1 begin;1 put 18446744073709551614 1;1 scan 0 18446744073709551614;1 scan 18446744073709551614 18446744073709551614;1 scan 18446744073709551614 0;1 scan 0 18446744073709551615;",
                3,
                "open 1 winners 0 undone 0;1 begun 1.1;1 was none;1 pair 18446744073709551614 1;1 end;1 pair 18446744073709551614 1;1 end;1 end;lean: line 6 refused;"
            ),
        ],
        leaves: None,
    },
    Case {
        name: "a scan of deleted keys alone",
        left_out: None,
        runs: &[
            FORMATTED,
            row!(
                Run,
                "1 begin;1 put 1 1;1 put 2 2;1 del 1;1 del 2;1 scan 0 9;1 scan 1 2;1 put 3 3;1 scan 0 2;1 scan 0 3;1 commit;",
                0,
                "open 1 winners 0 undone 0;1 begun 1.1;1 was none;1 was none;1 was 1;1 was 2;1 end;1 end;1 was none;1 end;1 pair 3 3;1 end;1 committed 1.1 at 6;1 durable 1.1;"
            ),
        ],
        leaves: None,
    },
    // The abort of session 1 has number 8, which its rows tell, and the put of session 2 behind it 9.
    Case {
        name: "a conflict comes behind the pairs before it, and the rows of these are given back",
        left_out: None,
        runs: &[
            FORMATTED_TWO,
            row!(
                Run,
                "1 begin;1 put 1 1;1 put 2 2;1 put 3 3;1 commit;2 begin;2 put 3 4;1 begin;1 put 9 9;1 scan 1 5;1 get 1;2 put 1 5;2 commit;sync;",
                0,
                "open 1 winners 0 undone 0;1 begun 1.1;1 was none;1 was none;1 was none;1 committed 1.1 at 4;1 durable 1.1;2 begun 2.1;2 was 3;1 begun 1.2;1 was none;1 pair 1 1;1 pair 2 2;1 conflict 2;1 aborted 1.2;1 no-transaction;2 was 1;2 committed 2.1 at 10;synced 10;2 durable 2.1;"
            ),
        ],
        leaves: None,
    },
    Case {
        name: "a scan holds the key behind its last one, and no key between or behind that",
        left_out: None,
        runs: &[
            FORMATTED_TWO,
            row!(
                Run,
                "1 begin;1 put 1 1;1 put 5 5;1 put 7 7;1 commit;1 begin;1 scan 0 3;2 begin;2 put 7 8;2 put 3 3;2 put 5 6;1 commit;",
                0,
                "open 1 winners 0 undone 0;1 begun 1.1;1 was none;1 was none;1 was none;1 committed 1.1 at 4;1 durable 1.1;1 begun 1.2;1 pair 1 1;1 end;2 begun 2.1;2 was 7;2 was none;2 conflict 1;2 aborted 2.1;1 committed 1.2 at 5;1 durable 1.2;"
            ),
        ],
        leaves: None,
    },
    Case {
        name: "a scan whose last pair is its last key's holds no key behind it, and one from above holds none",
        left_out: None,
        runs: &[
            FORMATTED_TWO,
            row!(
                Run,
                "1 begin;1 put 1 1;1 put 5 5;1 commit;1 begin;1 scan 0 1;1 scan 5 4;2 begin;2 put 5 6;2 get 1;2 scan 1 1;2 put 1 2;",
                0,
                "open 1 winners 0 undone 0;1 begun 1.1;1 was none;1 was none;1 committed 1.1 at 3;1 durable 1.1;1 begun 1.2;1 pair 1 1;1 end;1 end;2 begun 2.1;2 was 5;2 value 1;2 pair 1 1;2 end;2 conflict 1;2 aborted 2.1;"
            ),
        ],
        leaves: None,
    },
    Case {
        name: "a deleted key is met in the next run too",
        left_out: None,
        runs: &[
            FORMATTED_TWO,
            row!(
                Run,
                "1 begin;1 put 5 1;1 del 5;1 commit;",
                0,
                "open 1 winners 0 undone 0;1 begun 1.1;1 was none;1 was 1;1 committed 1.1 at 3;1 durable 1.1;"
            ),
            row!(
                Run,
                "2 begin;2 scan 0 9;1 begin;1 put 5 2;2 commit;1 begin;1 put 5 2;1 scan 0 9;",
                0,
                "open 2 winners 1 undone 0;2 begun 2.1;2 end;1 begun 1.1;1 conflict 2;1 aborted 1.1;2 committed 2.1 at 4;2 durable 2.1;1 begun 1.2;1 was none;1 pair 5 2;1 end;"
            ),
        ],
        leaves: None,
    },
];

static MANY: [Case; 3] = [
    Case {
        name: "the sixty-fifth pair comes behind more",
        left_out: None,
        runs: &[
            FORMATTED,
            Run {
                command: Command::Run,
                script: Lines::Many(&[
                    Text("1 begin;", 1, 1),
                    Text("1 put # #;", 1, 60),
                    Text("1 commit;1 begin;", 1, 1),
                    Text("1 put # #;", 61, 65),
                    Text("1 commit;1 begin;", 1, 1),
                    Text("1 scan 0 100;1 scan 65 100;1 commit;", 1, 1),
                ]),
                status: 0,
                printed: Lines::Many(&[
                    Text("open 1 winners 0 undone 0;1 begun 1.1;", 1, 1),
                    Text("1 was none;", 1, 60),
                    Text("1 committed 1.1 at 61;1 durable 1.1;1 begun 1.2;", 1, 1),
                    Text("1 was none;", 61, 65),
                    Text("1 committed 1.2 at 69;1 durable 1.2;1 begun 1.3;", 1, 1),
                    Text("1 pair # #;", 1, 64),
                    Text(
                        "1 more 65;1 pair 65 65;1 end;1 committed 1.3 at 70;1 durable 1.3;",
                        1,
                        1,
                    ),
                ]),
            },
        ],
        leaves: None,
    },
    Case {
        name: "behind the sixty-fourth pair comes end where it is the last key's",
        left_out: None,
        runs: &[
            FORMATTED,
            Run {
                command: Command::Run,
                script: Lines::Many(&[
                    Text("1 begin;", 1, 1),
                    Text("1 put # #;", 1, 60),
                    Text("1 commit;1 begin;", 1, 1),
                    Text("1 put # #;", 61, 64),
                    Text("1 commit;1 begin;", 1, 1),
                    Text("1 scan 1 64;1 scan 1 63;1 scan 1 65;1 scan 65 65;", 1, 1),
                ]),
                status: 0,
                printed: Lines::Many(&[
                    Text("open 1 winners 0 undone 0;1 begun 1.1;", 1, 1),
                    Text("1 was none;", 1, 60),
                    Text("1 committed 1.1 at 61;1 durable 1.1;1 begun 1.2;", 1, 1),
                    Text("1 was none;", 61, 64),
                    Text("1 committed 1.2 at 68;1 durable 1.2;1 begun 1.3;", 1, 1),
                    Text("1 pair # #;", 1, 64),
                    Text("1 end;", 1, 1),
                    Text("1 pair # #;", 1, 63),
                    Text("1 end;", 1, 1),
                    Text("1 pair # #;", 1, 64),
                    Text("1 more 65;1 end;", 1, 1),
                ]),
            },
        ],
        leaves: None,
    },
    // A transaction of 60 puts and two splits takes three blocks, of which a run has 48.
    Case {
        name: "a transaction that has made 64 changes may scan",
        left_out: None,
        runs: &[
            FORMATTED,
            Run {
                command: Command::Run,
                script: Lines::Many(&[
                    Text("1 begin;", 1, 1),
                    Text("1 put 5 #;", 1, 64),
                    Text("1 put 5 1;1 scan 0 9;1 commit;", 1, 1),
                ]),
                status: 0,
                printed: Lines::Many(&[
                    Text("open 1 winners 0 undone 0;1 begun 1.1;1 was none;", 1, 1),
                    Text("1 was #;", 1, 63),
                    Text(
                        "1 too-long;1 pair 5 64;1 end;1 committed 1.1 at 65;1 durable 1.1;",
                        1,
                        1,
                    ),
                ]),
            },
        ],
        leaves: None,
    },
];

#[test]
fn each_scan_is_answered_as_is_written(rt: HostRuntime) {
    for case in &FEW {
        expect(&rt, case.name, is_met(&rt, rt.alloc(), case));
    }
}

#[test]
fn each_scan_of_many_pairs_is_answered_as_is_written(rt: HostRuntime) {
    for case in &MANY {
        expect(&rt, case.name, is_met(&rt, rt.alloc(), case));
    }
}
