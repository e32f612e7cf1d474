// Scripts of several sessions, and every line that comes of them. The lines were written down by hand.
use crate::cases::expect;
use crate::rows::{Case, Run, is_met};
use crate::texts::{Command, Lines, Text};

const FORMATTED_ONE: Run = Run {
    command: Command::Format64,
    script: Lines::Once(""),
    status: 0,
    printed: Lines::Once("formatted 1 64 64;"),
};

const FORMATTED_TWO: Run = Run {
    command: Command::FormatTwo,
    script: Lines::Once(""),
    status: 0,
    printed: Lines::Once("formatted 2 16 64;"),
};

const FORMATTED_SIXTEEN: Run = Run {
    command: Command::FormatSixteen,
    script: Lines::Once(""),
    status: 0,
    printed: Lines::Once("formatted 16 16 64;"),
};

// A command with this script, whose status is 0, and these lines.
macro_rules! row {
    ($command:ident, $script:expr, $printed:expr) => {
        row!($command, $script, 0, $printed)
    };
    ($command:ident, $script:expr, $status:expr, $printed:expr) => {
        Run {
            command: Command::$command,
            script: Lines::Once($script),
            status: $status,
            printed: Lines::Once($printed),
        }
    };
}

macro_rules! case {
    ($name:expr, $($run:expr),+) => {
        Case {
            name: $name,
            left_out: None,
            runs: &[$($run),+],
            leaves: None,
        }
    };
}

static CASES: [Case; 15] = [
    case!(
        "commits in groups of two are durable behind a sync",
        FORMATTED_TWO,
        row!(
            RunTwo,
            "1 begin;1 put 5 7;1 commit;2 begin;2 get 5;2 commit;2 begin;2 commit;sync;",
            "open 1 winners 0 undone 0;1 begun 1.1;1 was none;1 committed 1.1 at 2;2 begun 2.1;2 value 7;2 committed 2.1 at 3;2 begun 2.2;2 committed 2.2 at 4;synced 4;1 durable 1.1;2 durable 2.1;2 durable 2.2;"
        )
    ),
    case!(
        "a commit behind a change of another log waits for a sync",
        FORMATTED_TWO,
        row!(
            Run,
            "1 begin;1 put 5 7;2 begin;2 put 6 1;2 abort;2 begin;2 put 6 2;2 commit;sync;",
            "open 1 winners 0 undone 0;1 begun 1.1;1 was none;2 begun 2.1;2 was none;2 aborted 2.1;2 begun 2.2;2 was none;2 committed 2.2 at 6;synced 6;2 durable 2.2;"
        )
    ),
    case!(
        "a sync of one session behind an abort",
        FORMATTED_ONE,
        row!(
            Run,
            "1 begin;1 put 5 7;1 put 5 8;1 del 5;1 abort;sync;1 begin;1 get 5;",
            "open 1 winners 0 undone 0;1 begun 1.1;1 was none;1 was 7;1 was 8;1 aborted 1.1;synced 7;1 begun 1.2;1 none;"
        )
    ),
    case!(
        "a get of a key that another session has changed is a conflict, and its transaction is aborted",
        FORMATTED_TWO,
        row!(
            Run,
            "1 begin;1 put 5 7;2 begin;2 get 5;1 commit;",
            "open 1 winners 0 undone 0;1 begun 1.1;1 was none;2 begun 2.1;2 conflict 1;2 aborted 2.1;1 committed 1.1 at 2;1 durable 1.1;"
        )
    ),
    case!(
        "a session that there is not",
        FORMATTED_TWO,
        row!(
            Run,
            "2 begin;3 begin;",
            3,
            "open 1 winners 0 undone 0;2 begun 2.1;lean: line 2 refused;"
        )
    ),
    case!(
        "the last of sixteen sessions",
        FORMATTED_SIXTEEN,
        row!(
            Run,
            "16 begin;16 get 5;17 begin;",
            3,
            "open 1 winners 0 undone 0;16 begun 16.1;16 none;lean: line 3 refused;"
        )
    ),
    case!(
        "a sync has no session",
        FORMATTED_TWO,
        row!(
            Run,
            "2 begin;1 sync;",
            3,
            "open 1 winners 0 undone 0;2 begun 2.1;lean: line 2 refused;"
        )
    ),
    case!(
        "what each of two sessions committed is there at the next opening",
        FORMATTED_TWO,
        row!(
            Run,
            "1 begin;1 put 5 7;1 commit;2 begin;2 put 6 8;2 commit;1 begin;1 put 7 9;",
            "open 1 winners 0 undone 0;1 begun 1.1;1 was none;1 committed 1.1 at 2;1 durable 1.1;2 begun 2.1;2 was none;2 committed 2.1 at 3;2 durable 2.1;1 begun 1.2;1 was none;"
        ),
        row!(
            Run,
            "2 begin;2 get 5;2 get 6;2 get 7;",
            "open 2 winners 2 undone 0;2 begun 2.1;2 value 7;2 value 8;2 none;"
        ),
        row!(Dump, "", "open 3 winners 0 undone 0;pair 5 7;pair 6 8;end;")
    ),
    // The commit of session s has number s + 1, behind a change of the log before it with number s - 1, which each log has to have flushed. As the last log was
    // flushed each other one was, and the first one up to 2; then a sync flushes all up to 17.
    Case {
        name: "sixteen sessions put a key each, and a dump prints them",
        left_out: None,
        runs: &[
            FORMATTED_SIXTEEN,
            Run {
                command: Command::Run,
                script: Lines::Many(&[
                    Text("# begin;# put # @;# commit;", 1, 16),
                    Text("sync;", 1, 1),
                ]),
                status: 0,
                printed: Lines::Many(&[
                    Text("open 1 winners 0 undone 0;", 1, 1),
                    Text(
                        "1 begun 1.1;1 was none;1 committed 1.1 at 2;1 durable 1.1;",
                        1,
                        1,
                    ),
                    Text("# begun #.1;# was none;# committed #.1 at +;", 2, 16),
                    Text("# durable #.1;", 2, 3),
                    Text("synced 17;", 1, 1),
                    Text("# durable #.1;", 4, 16),
                ]),
            },
            Run {
                command: Command::Dump,
                script: Lines::Once(""),
                status: 0,
                printed: Lines::Many(&[
                    Text("open 2 winners 16 undone 0;", 1, 1),
                    Text("pair # @;", 1, 16),
                    Text("end;", 1, 1),
                ]),
            },
        ],
        leaves: None,
    },
    case!(
        "a sync of nothing",
        FORMATTED_TWO,
        row!(
            Run,
            "sync;sync;",
            "open 1 winners 0 undone 0;synced 0;synced 0;"
        )
    ),
    case!(
        "of two that read a key the least is named",
        FORMATTED_SIXTEEN,
        row!(
            Run,
            "4 begin;4 get 5;3 begin;3 get 5;9 begin;9 put 5 1;9 get 5;",
            "open 1 winners 0 undone 0;4 begun 4.1;4 none;3 begun 3.1;3 none;9 begun 9.1;9 conflict 3;9 aborted 9.1;9 no-transaction;"
        )
    ),
    case!(
        "who has read a key may change it, and another that takes it away is aborted",
        FORMATTED_TWO,
        row!(
            Run,
            "1 begin;1 get 5;1 put 5 7;2 begin;2 del 5;2 begin;1 commit;2 get 5;2 commit;",
            "open 1 winners 0 undone 0;1 begun 1.1;1 none;1 was none;2 begun 2.1;2 conflict 1;2 aborted 2.1;2 begun 2.2;1 committed 1.1 at 2;1 durable 1.1;2 value 7;2 committed 2.2 at 3;2 durable 2.2;"
        )
    ),
    case!(
        "commits of one number are durable in the order of their sessions",
        FORMATTED_TWO,
        row!(
            RunTwo,
            "2 begin;2 commit;1 begin;1 commit;sync;2 begin;2 commit;",
            "open 1 winners 0 undone 0;2 begun 2.1;2 committed 2.1 at 1;1 begun 1.1;1 committed 1.1 at 1;synced 1;1 durable 1.1;2 durable 2.1;2 begun 2.2;2 committed 2.2 at 2;"
        )
    ),
    case!(
        "a sync leaves transactions open, and raises each clock",
        FORMATTED_TWO,
        row!(
            Run,
            "1 begin;1 put 5 7;sync;2 begin;2 commit;1 get 5;",
            "open 1 winners 0 undone 0;1 begun 1.1;1 was none;synced 1;2 begun 2.1;2 committed 2.1 at 2;2 durable 2.1;1 value 7;"
        ),
        row!(
            Run,
            "2 begin;2 get 5;",
            "open 2 winners 1 undone 1;2 begun 2.1;2 none;"
        ),
        row!(Dump, "", "open 3 winners 0 undone 0;end;")
    ),
    // Each commit of session 2 needs the change of session 1, and the number of its transaction is half its own. Where 256 of them wait, its begin syncs first.
    Case {
        name: "a begin syncs where 256 ends wait",
        left_out: None,
        runs: &[
            FORMATTED_TWO,
            Run {
                command: Command::RunMany,
                script: Lines::Many(&[
                    Text("1 begin;1 put 5 7;1 put 5 8;2 begin;2 abort;", 1, 1),
                    Text("2 begin;2 put 6 +;2 commit;", 2, 257),
                    Text("2 begin;2 commit;", 1, 1),
                ]),
                status: 0,
                printed: Lines::Many(&[
                    Text(
                        "open 1 winners 0 undone 0;1 begun 1.1;1 was none;1 was 7;2 begun 2.1;2 aborted 2.1;",
                        1,
                        1,
                    ),
                    Text("2 begun 2.#;2 was none;2 committed 2.# at @;", 2, 2),
                    Text("2 begun 2.#;2 was #;2 committed 2.# at @;", 3, 257),
                    Text("2 begun 2.258;", 1, 1),
                    Text("2 durable 2.#;", 2, 257),
                    Text("2 committed 2.258 at 515;", 1, 1),
                ]),
            },
        ],
        leaves: None,
    },
];

#[test]
fn each_session_is_answered_as_is_written(rt: HostRuntime) {
    for case in &CASES {
        expect(&rt, case.name, is_met(&rt, rt.alloc(), case));
    }
}
