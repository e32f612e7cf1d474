// Rows of commands and scripts, and every line that comes of them, on a disk in memory. The lines were written down by hand, a
// `;` for each newline. Seals were computed by another SHA-256.
use crate::cases::expect;
use crate::texts::{Command, Lines, PUT, PUT_LINES, Text, run_text, spelled};
use lean_disk::{Disk, MemDisk};
use lean_shell::MemSink;
use std::alloc::{AllocError, Global};
use std::sync::Wait;
use std::thread::Threads;

// A command and its script; its status, and what is printed.
pub(crate) struct Run {
    pub command: Command,
    pub script: Lines,
    pub status: u8,
    pub printed: Lines,
}

// Bytes of an area at a place, and so many zeros behind them.
pub(crate) struct Bytes {
    area: u32,
    at: usize,
    bytes: &'static [u8],
    zeros: usize,
}

// How many bytes of an area a disk holds, and some of them.
pub(crate) struct Leaves {
    lens: &'static [(u32, usize)],
    bytes: &'static [Bytes],
}

// Runs on an empty disk, one after another, and what the disk holds then, if it is looked at. Behind each run a page may be left out.
pub(crate) struct Case {
    pub name: &'static str,
    pub left_out: Option<u32>,
    pub runs: &'static [Run],
    pub leaves: Option<Leaves>,
}

const FORMATTED: Run = Run {
    command: Command::Format64,
    script: Lines::Once(""),
    status: 0,
    printed: Lines::Once("formatted 1 64 64;"),
};

const FORMATTED_16: Run = Run {
    command: Command::Format16,
    script: Lines::Once(""),
    status: 0,
    printed: Lines::Once("formatted 1 16 64;"),
};

// A run of this script, of these lines.
macro_rules! script {
    ($script:expr, $status:expr, $printed:expr) => {
        Run {
            command: Command::Run,
            script: Lines::Once($script),
            status: $status,
            printed: Lines::Once($printed),
        }
    };
}

static CASES: [Case; 19] = [
    Case {
        name: "a new disk holds every page and the first master",
        left_out: None,
        runs: &[
            FORMATTED_16,
            Run {
                command: Command::Format16,
                script: Lines::Once(""),
                status: 9,
                printed: Lines::Once("lean: already formatted;"),
            },
        ],
        leaves: Some(Leaves {
            lens: &[(0, 1024), (1, 32768), (2, 0)],
            // The seals of the master, of page 0 and of page 15.
            bytes: &[
                Bytes {
                    area: 0,
                    at: 1008,
                    bytes: &[
                        79, 87, 210, 244, 236, 251, 97, 254, 91, 105, 225, 125, 41, 116, 104, 134,
                    ],
                    zeros: 0,
                },
                Bytes {
                    area: 1,
                    at: 1008,
                    bytes: &[
                        70, 195, 208, 9, 61, 252, 124, 71, 33, 181, 53, 161, 93, 140, 52, 243,
                    ],
                    zeros: 0,
                },
                Bytes {
                    area: 1,
                    at: 31728,
                    bytes: &[
                        201, 49, 23, 16, 42, 13, 98, 182, 219, 180, 251, 161, 186, 253, 214, 229,
                    ],
                    zeros: 0,
                },
            ],
        }),
    },
    Case {
        name: "no line",
        left_out: None,
        runs: &[FORMATTED, script!("", 0, "open 1 winners 0 undone 0;")],
        leaves: None,
    },
    Case {
        name: "a put",
        left_out: None,
        runs: &[FORMATTED, script!(PUT, 0, PUT_LINES)],
        leaves: Some(Leaves {
            lens: &[(2, 2048)],
            bytes: &[
                // Generation, log, number, bytes and records; the change; the commit.
                Bytes {
                    area: 2,
                    at: 0,
                    bytes: &[
                        1, 0, 0, 0, 0, 0, 0, 0, 1, 0, 0, 0, 0, 0, 0, 0, 0, 0, 0, 0, 0, 0, 0, 0, 78,
                        0, 0, 0, 2, 0, 0, 0, 1, 1, 0, 0, 0, 0, 0, 0, 0, 1, 0, 0, 0, 0, 0, 0, 0, 0,
                        0, 0, 0, 0, 0, 0, 0, 0, 0, 0, 0, 5, 0, 0, 0, 0, 0, 0, 0, 0, 0, 0, 0, 0, 0,
                        0, 128, 7, 0, 0, 0, 0, 0, 0, 0, 8, 1, 0, 0, 0, 0, 0, 0, 0, 2, 0, 0, 0, 0,
                        0, 0, 0, 0, 0, 0, 0, 0, 0, 0, 0,
                    ],
                    zeros: 1922,
                },
            ],
        }),
    },
    Case {
        name: "the greatest key and value",
        left_out: None,
        runs: &[
            FORMATTED,
            script!(
                "1 begin;1 put 0 1;1 put 18446744073709551614 9223372036854775807;1 get 18446744073709551614;1 commit;",
                0,
                "open 1 winners 0 undone 0;1 begun 1.1;1 was none;1 was none;1 value 9223372036854775807;1 committed 1.1 at 3;1 durable 1.1;"
            ),
        ],
        leaves: None,
    },
    Case {
        name: "a key that is too great",
        left_out: None,
        runs: &[
            FORMATTED,
            script!(
                "1 begin;1 put 18446744073709551615 1;1 commit;",
                3,
                "open 1 winners 0 undone 0;1 begun 1.1;lean: line 2 refused;"
            ),
        ],
        leaves: None,
    },
    Case {
        name: "a value that is too great",
        left_out: None,
        runs: &[
            FORMATTED,
            script!(
                "1 begin;1 put 5 9223372036854775808;1 commit;",
                3,
                "open 1 winners 0 undone 0;1 begun 1.1;lean: line 2 refused;"
            ),
        ],
        leaves: None,
    },
    Case {
        name: "a last line without its newline",
        left_out: None,
        runs: &[
            FORMATTED,
            script!(
                "1 begin;1 get 5",
                0,
                "open 1 winners 0 undone 0;1 begun 1.1;1 none;"
            ),
        ],
        leaves: None,
    },
    Case {
        name: "a last line that is cut off",
        left_out: None,
        runs: &[
            FORMATTED,
            script!(
                "1 begin;1 put 5",
                3,
                "open 1 winners 0 undone 0;1 begun 1.1;lean: line 2 refused;"
            ),
        ],
        leaves: None,
    },
    Case {
        name: "calls that are refused",
        left_out: None,
        runs: &[
            FORMATTED,
            script!(
                "1 begin;1 begin;1 commit;1 commit;",
                0,
                "open 1 winners 0 undone 0;1 begun 1.1;1 in-transaction;1 committed 1.1 at 1;1 durable 1.1;1 no-transaction;"
            ),
        ],
        leaves: None,
    },
    Case {
        name: "a session that there is not",
        left_out: None,
        runs: &[
            FORMATTED,
            script!(
                "2 begin;",
                3,
                "open 1 winners 0 undone 0;lean: line 1 refused;"
            ),
        ],
        leaves: None,
    },
    Case {
        name: "a second run finds what the first committed",
        left_out: None,
        runs: &[
            FORMATTED,
            script!(PUT, 0, PUT_LINES),
            script!(
                "1 begin;1 get 5;1 commit;",
                0,
                "open 2 winners 1 undone 0;1 begun 1.1;1 value 7;1 committed 1.1 at 3;1 durable 1.1;"
            ),
        ],
        leaves: None,
    },
    Case {
        name: "a transaction makes 64 changes",
        left_out: None,
        runs: &[
            FORMATTED,
            Run {
                command: Command::Run,
                script: Lines::Many(&[
                    Text("1 begin;", 1, 1),
                    Text("1 put 5 #;", 1, 65),
                    Text("1 commit;", 1, 1),
                ]),
                status: 0,
                printed: Lines::Many(&[
                    Text("open 1 winners 0 undone 0;1 begun 1.1;1 was none;", 1, 1),
                    Text("1 was #;", 1, 63),
                    Text("1 too-long;1 committed 1.1 at 65;1 durable 1.1;", 1, 1),
                ]),
            },
        ],
        leaves: None,
    },
    Case {
        name: "a del of a key, of one that is absent, and a put behind it",
        left_out: None,
        runs: &[
            FORMATTED,
            script!(
                "1 begin;1 del 5;1 put 5 7;1 get 5;1 del 5;1 get 5;1 del 5;1 put 5 8;1 get 5;1 put 6 9;1 commit;",
                0,
                "open 1 winners 0 undone 0;1 begun 1.1;1 was none;1 was none;1 value 7;1 was 7;1 none;1 was none;1 was none;1 value 8;1 was none;1 committed 1.1 at 5;1 durable 1.1;"
            ),
            script!(
                "1 begin;1 del 5;1 get 5;1 commit;",
                0,
                "open 2 winners 1 undone 0;1 begun 1.1;1 was 8;1 none;1 committed 1.1 at 7;1 durable 1.1;"
            ),
            script!(
                "1 begin;1 get 5;1 get 6;1 del 5;1 commit;",
                0,
                "open 3 winners 1 undone 0;1 begun 1.1;1 none;1 value 9;1 was none;1 committed 1.1 at 8;1 durable 1.1;"
            ),
            Run {
                command: Command::Dump,
                script: Lines::Once(""),
                status: 0,
                printed: Lines::Once("open 4 winners 1 undone 0;pair 6 9;end;"),
            },
        ],
        leaves: None,
    },
    Case {
        name: "an abort of several changes of one key",
        left_out: None,
        runs: &[
            FORMATTED,
            script!(
                "1 begin;1 put 5 1;1 commit;1 begin;1 put 5 2;1 del 5;1 put 5 3;1 put 6 9;1 abort;1 begin;1 get 5;1 get 6;1 commit;",
                0,
                "open 1 winners 0 undone 0;1 begun 1.1;1 was none;1 committed 1.1 at 2;1 durable 1.1;1 begun 1.2;1 was 1;1 was 2;1 was none;1 was none;1 aborted 1.2;1 begun 1.3;1 value 1;1 none;1 committed 1.3 at 12;1 durable 1.3;"
            ),
            script!(
                "1 begin;1 get 5;1 get 6;",
                0,
                "open 2 winners 2 undone 0;1 begun 1.1;1 value 1;1 none;"
            ),
            Run {
                command: Command::Dump,
                script: Lines::Once(""),
                status: 0,
                printed: Lines::Once("open 3 winners 0 undone 0;pair 5 1;end;"),
            },
        ],
        leaves: None,
    },
    Case {
        name: "an abort of nothing",
        left_out: None,
        runs: &[
            FORMATTED,
            script!(
                "1 begin;1 abort;1 begin;1 get 5;1 del 5;1 abort;1 begin;1 commit;",
                0,
                "open 1 winners 0 undone 0;1 begun 1.1;1 aborted 1.1;1 begun 1.2;1 none;1 was none;1 aborted 1.2;1 begun 1.3;1 committed 1.3 at 3;1 durable 1.3;"
            ),
        ],
        leaves: None,
    },
    Case {
        name: "dels and aborts that are refused",
        left_out: None,
        runs: &[
            FORMATTED,
            script!(
                "1 del 5;1 abort;1 begin;1 put 5 7;1 abort;1 abort;1 del 5;1 begin;1 begin;1 del 5;1 commit;1 abort;1 del 5;",
                0,
                "open 1 winners 0 undone 0;1 no-transaction;1 no-transaction;1 begun 1.1;1 was none;1 aborted 1.1;1 no-transaction;1 no-transaction;1 begun 1.2;1 in-transaction;1 was none;1 committed 1.2 at 4;1 durable 1.2;1 no-transaction;1 no-transaction;"
            ),
        ],
        leaves: None,
    },
    Case {
        name: "64 changes are undone, and a del is a change",
        left_out: None,
        runs: &[
            FORMATTED,
            Run {
                command: Command::Run,
                script: Lines::Many(&[
                    Text("1 begin;", 1, 1),
                    Text("1 put 5 #;1 del 5;", 1, 32),
                    Text("1 del 5;1 put 5 1;1 abort;1 begin;1 get 5;1 commit;", 1, 1),
                ]),
                status: 0,
                printed: Lines::Many(&[
                    Text("open 1 winners 0 undone 0;1 begun 1.1;", 1, 1),
                    Text("1 was none;1 was #;", 1, 32),
                    Text(
                        "1 too-long;1 too-long;1 aborted 1.1;1 begun 1.2;1 none;1 committed 1.2 at 130;1 durable 1.2;",
                        1,
                        1,
                    ),
                ]),
            },
        ],
        leaves: None,
    },
    Case {
        name: "a leaf has room for 60 keys and the next one makes room",
        left_out: None,
        runs: &[
            FORMATTED,
            Run {
                command: Command::Run,
                script: Lines::Many(&[
                    Text("1 begin;", 1, 1),
                    Text("1 put # 1;", 0, 60),
                    Text("1 put 59 2;1 get 60;1 commit;", 1, 1),
                ]),
                status: 0,
                printed: Lines::Many(&[
                    Text("open 1 winners 0 undone 0;1 begun 1.1;", 1, 1),
                    Text("1 was none;", 0, 60),
                    Text(
                        "1 was 1;1 value 1;1 committed 1.1 at 65;1 durable 1.1;",
                        1,
                        1,
                    ),
                ]),
            },
        ],
        leaves: None,
    },
    Case {
        name: "a log of 64 blocks takes 48 of them",
        left_out: None,
        runs: &[
            FORMATTED,
            Run {
                command: Command::Run,
                script: Lines::Many(&[
                    Text("1 begin;1 put 5 7;1 commit;", 1, 48),
                    Text("1 begin;", 1, 1),
                ]),
                status: 0,
                printed: Lines::Many(&[
                    Text(
                        "open 1 winners 0 undone 0;1 begun 1.1;1 was none;1 committed 1.1 at 2;1 durable 1.1;",
                        1,
                        1,
                    ),
                    Text(
                        "1 begun 1.#;1 was 7;1 committed 1.# at @;1 durable 1.#;",
                        2,
                        48,
                    ),
                    Text("1 log-full 48 48;", 1, 1),
                ]),
            },
        ],
        leaves: None,
    },
];

// Whether the bytes stand at their place, and the zeros behind them.
fn holds(disk: &MemDisk, part: &Bytes) -> bool {
    let Some(rest) = disk.bytes(part.area).get(part.at..) else {
        return false;
    };
    let Some(behind) = rest.strip_prefix(part.bytes) else {
        return false;
    };
    for byte in behind.iter().take(part.zeros) {
        if *byte != 0 {
            return false;
        }
    }
    true
}

fn has_left(disk: &MemDisk, leaves: &Option<Leaves>) -> bool {
    let Some(Leaves { lens, bytes }) = leaves else {
        return true;
    };
    for (area, len) in *lens {
        if disk.bytes(*area).len() != *len {
            return false;
        }
    }
    for part in *bytes {
        if !holds(disk, part) {
            return false;
        }
    }
    true
}

// Puts zeros in the page's place, as if it never was written.
fn leave_out(disk: &mut MemDisk, page: Option<u32>) {
    let zeros = [0; 1024];
    if let Some(page) = page {
        disk.write(1, 2048 * u64::from(page), &zeros);
    }
}

// Whether each run ends and prints as is written, and the disk is so then.
pub(crate) fn is_met<R: Threads + Wait + Sync>(
    rt: &R,
    alloc: Global,
    case: &Case,
) -> Result<bool, AllocError> {
    let mut disk = MemDisk::new(alloc, 18)?;
    for run in case.runs {
        let done = run_text(
            rt,
            alloc,
            &run.command,
            disk,
            &run.script,
            MemSink::new(alloc),
        )?;
        let want = spelled(alloc, &run.printed)?;
        if done.status != run.status || done.sink.bytes() != want.as_slice() {
            return Ok(false);
        }
        disk = done.disk;
        leave_out(&mut disk, case.left_out);
    }
    Ok(has_left(&disk, &case.leaves))
}

#[test]
fn each_run_ends_and_prints_as_is_written(rt: HostRuntime) {
    for case in &CASES {
        expect(&rt, case.name, is_met(&rt, rt.alloc(), case));
    }
}

// Puts that make room, and disks that hold less than a new one.
static DISKS: [Case; 7] = [
    // 45 blocks for the commits of one change each, two for the leaf that is filled, and then one for a lift, a split and a change: the log was tested
    // before the row was taken, and room that is begun is made in the blocks that are kept back.
    Case {
        name: "a put that has begun to make room goes on where its log comes to its limit",
        left_out: None,
        runs: &[
            FORMATTED,
            Run {
                command: Command::Run,
                script: Lines::Many(&[
                    Text("1 begin;1 put 5 7;1 commit;", 1, 45),
                    Text("1 begin;", 1, 1),
                    Text("1 put # 7;", 6, 64),
                    Text(
                        "1 commit;1 begin;1 put 100 7;1 put 101 7;1 get 100;1 commit;1 begin;",
                        1,
                        1,
                    ),
                ]),
                status: 0,
                printed: Lines::Many(&[
                    Text(
                        "open 1 winners 0 undone 0;1 begun 1.1;1 was none;1 committed 1.1 at 2;1 durable 1.1;",
                        1,
                        1,
                    ),
                    Text(
                        "1 begun 1.#;1 was 7;1 committed 1.# at @;1 durable 1.#;",
                        2,
                        45,
                    ),
                    Text("1 begun 1.46;", 1, 1),
                    Text("1 was none;", 6, 64),
                    Text(
                        "1 committed 1.46 at 150;1 durable 1.46;1 begun 1.47;1 was none;1 log-full 48 48;1 value 7;",
                        1,
                        1,
                    ),
                    Text(
                        "1 committed 1.47 at 154;1 durable 1.47;1 log-full 48 48;",
                        1,
                        1,
                    ),
                ]),
            },
        ],
        leaves: None,
    },
    // 60 changes, a lift, a split, a change.
    Case {
        name: "61 keys in one transaction",
        left_out: None,
        runs: &[
            FORMATTED,
            Run {
                command: Command::Run,
                script: Lines::Many(&[
                    Text("1 begin;", 1, 1),
                    Text("1 put # 1;", 1, 61),
                    Text("1 commit;", 1, 1),
                ]),
                status: 0,
                printed: Lines::Many(&[
                    Text("open 1 winners 0 undone 0;1 begun 1.1;", 1, 1),
                    Text("1 was none;", 1, 61),
                    Text("1 committed 1.1 at 64;1 durable 1.1;", 1, 1),
                ]),
            },
            Run {
                command: Command::Run,
                script: Lines::Many(&[Text("1 begin;", 1, 1), Text("1 get #;", 0, 62)]),
                status: 0,
                printed: Lines::Many(&[
                    Text("open 2 winners 1 undone 0;1 begun 1.1;1 none;", 1, 1),
                    Text("1 value 1;", 1, 61),
                    Text("1 none;", 1, 1),
                ]),
            },
        ],
        leaves: None,
    },
    // The first split is for key 61, behind the lift, and one more follows for each 30 keys: 15 leaves under the root.
    Case {
        name: "16 pages take 480 keys in rising order",
        left_out: None,
        runs: &[
            FORMATTED_16,
            Run {
                command: Command::Run,
                script: Lines::Many(&[
                    Text("1 begin;", 1, 1),
                    Text("1 put # @;", 1, 60),
                    Text("1 commit;1 begin;", 1, 1),
                    Text("1 put # @;", 61, 120),
                    Text("1 commit;1 begin;", 1, 1),
                    Text("1 put # @;", 121, 180),
                    Text("1 commit;1 begin;", 1, 1),
                    Text("1 put # @;", 181, 240),
                    Text("1 commit;1 begin;", 1, 1),
                    Text("1 put # @;", 241, 300),
                    Text("1 commit;1 begin;", 1, 1),
                    Text("1 put # @;", 301, 360),
                    Text("1 commit;1 begin;", 1, 1),
                    Text("1 put # @;", 361, 420),
                    Text("1 commit;1 begin;", 1, 1),
                    Text("1 put # @;", 421, 480),
                    Text("1 commit;1 begin;1 put 481 1;1 commit;", 1, 1),
                ]),
                status: 0,
                printed: Lines::Many(&[
                    Text("open 1 winners 0 undone 0;1 begun 1.1;", 1, 1),
                    Text("1 was none;", 1, 60),
                    Text("1 committed 1.1 at 61;1 durable 1.1;1 begun 1.2;", 1, 1),
                    Text("1 was none;", 61, 120),
                    Text("1 committed 1.2 at 125;1 durable 1.2;1 begun 1.3;", 1, 1),
                    Text("1 was none;", 121, 180),
                    Text("1 committed 1.3 at 188;1 durable 1.3;1 begun 1.4;", 1, 1),
                    Text("1 was none;", 181, 240),
                    Text("1 committed 1.4 at 251;1 durable 1.4;1 begun 1.5;", 1, 1),
                    Text("1 was none;", 241, 300),
                    Text("1 committed 1.5 at 314;1 durable 1.5;1 begun 1.6;", 1, 1),
                    Text("1 was none;", 301, 360),
                    Text("1 committed 1.6 at 377;1 durable 1.6;1 begun 1.7;", 1, 1),
                    Text("1 was none;", 361, 420),
                    Text("1 committed 1.7 at 440;1 durable 1.7;1 begun 1.8;", 1, 1),
                    Text("1 was none;", 421, 480),
                    Text(
                        "1 committed 1.8 at 503;1 durable 1.8;1 begun 1.9;1 no-pages;1 committed 1.9 at 504;1 durable 1.9;",
                        1,
                        1,
                    ),
                ]),
            },
            Run {
                command: Command::Dump,
                script: Lines::Once(""),
                status: 0,
                printed: Lines::Many(&[
                    Text("open 2 winners 9 undone 0;", 1, 1),
                    Text("pair # @;", 1, 480),
                    Text("end;", 1, 1),
                ]),
            },
            // A key that is there needs no room.
            script!(
                "1 begin;1 put 480 1;1 put 0 1;1 put 1 1;1 commit;",
                0,
                "open 3 winners 0 undone 0;1 begun 1.1;1 was 960;1 was none;1 was 2;1 committed 1.1 at 508;1 durable 1.1;"
            ),
            // Of a full leaf the deleted keys go first, once their ends are flushed.
            script!(
                "1 begin;1 del 450;1 del 451;1 commit;1 begin;1 put 481 1;1 put 482 1;1 put 483 1;1 commit;",
                0,
                "open 4 winners 1 undone 0;1 begun 1.1;1 was 900;1 was 902;1 committed 1.1 at 511;1 durable 1.1;1 begun 1.2;1 was none;1 was none;1 no-pages;1 committed 1.2 at 515;1 durable 1.2;"
            ),
        ],
        leaves: None,
    },
    // Thirty keys are in the left leaf and thirty-one in the right one. Sixteen are deleted, each durable by the sync; the next del finds fourteen left beside them. It purges
    // the leaf with number 82, joins it with 83, drops the root with 84, and changes its key with 85.
    Case {
        name: "space comes back by a del",
        left_out: None,
        runs: &[
            FORMATTED_16,
            Run {
                command: Command::Run,
                script: Lines::Many(&[
                    Text("1 begin;", 1, 1),
                    Text("1 put # @;", 1, 61),
                    Text("1 commit;1 begin;", 1, 1),
                    Text("1 del #;", 1, 16),
                    Text("1 commit;sync;1 begin;1 del 17;1 commit;", 1, 1),
                ]),
                status: 0,
                printed: Lines::Many(&[
                    Text("open 1 winners 0 undone 0;1 begun 1.1;", 1, 1),
                    Text("1 was none;", 1, 61),
                    Text("1 committed 1.1 at 64;1 durable 1.1;1 begun 1.2;", 1, 1),
                    Text("1 was @;", 1, 16),
                    Text(
                        "1 committed 1.2 at 81;1 durable 1.2;synced 81;1 begun 1.3;1 was 34;1 committed 1.3 at 86;1 durable 1.3;",
                        1,
                        1,
                    ),
                ]),
            },
            Run {
                command: Command::Dump,
                script: Lines::Once(""),
                status: 0,
                printed: Lines::Many(&[
                    Text("open 2 winners 3 undone 0;", 1, 1),
                    Text("pair # @;", 18, 61),
                    Text("end;", 1, 1),
                ]),
            },
        ],
        leaves: None,
    },
    Case {
        name: "what is committed is there at the next opening",
        left_out: None,
        runs: &[
            FORMATTED_16,
            script!(PUT, 0, PUT_LINES),
            script!(
                "1 begin;1 get 5;2 begin;",
                3,
                "open 2 winners 1 undone 0;1 begun 1.1;1 value 7;lean: line 3 refused;"
            ),
        ],
        leaves: None,
    },
    Case {
        name: "an empty disk is not formatted",
        left_out: None,
        runs: &[script!("1 begin;", 7, "lean: not formatted;")],
        leaves: None,
    },
    Case {
        name: "a page that is missing is damaged",
        left_out: Some(5),
        runs: &[
            FORMATTED_16,
            script!("1 begin;", 7, "lean: damaged area 1 place 5;"),
        ],
        leaves: None,
    },
];

#[test]
fn each_disk_is_used_as_is_written(rt: HostRuntime) {
    for case in &DISKS {
        expect(&rt, case.name, is_met(&rt, rt.alloc(), case));
    }
}
