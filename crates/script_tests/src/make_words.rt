// Command lines of `make`: which are commands, and what comes of each.
use crate::cases::expect;
use crate::commands::formatted;
use crate::words::{Line, NONE, is_met};

static LINES: [Line; 35] = [
    // A workload from a number: the number and how many transactions, each in its place.
    Line(
        "lean make 0 1",
        0,
        b"open 1 winners 0 undone 0\nmade 1 refused 0 pairs 5 sum 5589860614\n",
    ),
    Line(
        "lean make 1 1",
        0,
        b"open 1 winners 0 undone 0\nmade 1 refused 0 pairs 6 sum 15321890232\n",
    ),
    Line(
        "lean make 7 2 --",
        0,
        b"open 1 winners 0 undone 0\nmade 2 refused 0 pairs 8 sum 19150410684\n",
    ),
    Line(
        "lean make -- 0 2",
        0,
        b"open 1 winners 0 undone 0\nmade 2 refused 0 pairs 10 sum 14557754151\n",
    ),
    Line(
        "lean make 18446744073709551615 1",
        0,
        b"open 1 winners 0 undone 0\nmade 1 refused 0 pairs 4 sum 13121614263\n",
    ),
    Line("lean make", 2, NONE),
    Line("lean make 1", 2, NONE),
    Line("lean make 1 ", 2, NONE),
    Line("lean make  1", 2, NONE),
    Line("lean make 1 1 1", 2, NONE),
    Line("lean make 1 0", 2, NONE),
    Line("lean make 1 1000001", 2, NONE),
    Line("lean make 1 4294967297", 2, NONE),
    Line("lean make 1 18446744073709551617", 2, NONE),
    Line("lean make 18446744073709551616 1", 2, NONE),
    Line("lean make 36893488147419103232 1", 2, NONE),
    Line("lean make +1 1", 2, NONE),
    Line("lean make -1 1", 2, NONE),
    Line("lean make 01 1", 2, NONE),
    Line("lean make 1 01", 2, NONE),
    Line("lean make 1 +1", 2, NONE),
    Line("lean make 1 -1", 2, NONE),
    Line("lean make 0x1 1", 2, NONE),
    Line("lean make x 1", 2, NONE),
    Line("lean make 1 x", 2, NONE),
    Line("lean make --number 1 --count 1", 2, NONE),
    Line("lean make --number=1 1", 2, NONE),
    Line("lean make 1 1 --rows 16", 2, NONE),
    Line("lean make --frames 32 1 1", 2, NONE),
    Line("lean make 1 1 --group 1", 2, NONE),
    Line("lean make --help", 2, NONE),
    Line("lean make 1 1 --help", 2, NONE),
    Line("lean make -h", 2, NONE),
    Line("lean Make 1 1", 2, NONE),
    Line("lean mak 1 1", 2, NONE),
];

#[test]
fn each_make_ends_as_it_is_written(rt: HostRuntime) {
    let whole = formatted(&rt, rt.alloc()).expect(&rt, "a formatted disk");
    for line in &LINES {
        expect(&rt, line.0, is_met(&rt, rt.alloc(), line, &whole));
    }
}
