// Dumps: every pair of the map, in the order of the keys. The lines were written down by hand.
use crate::cases::expect;
use crate::runs::{
    DUMP, FORMAT, MEMORY, at_rest, count_lines, dumped, formatted, run_command, run_into,
    run_script,
};
use crate::scripts::{SIX_TEXT, TWO_TEXT};
use crate::sweeps::disk_of_two;
use lean_disk::MemDisk;
use lean_shell::MemSink;
use std::alloc::Global;
use std::process::Abort;
use std::sync::Wait;
use std::thread::Threads;

// A script, and every line of a dump behind it, the first one apart.
struct Row {
    name: &'static str,
    text: &'static str,
    opened: &'static str,
    lines: &'static str,
}

// The first line of the next dump: the one before it left no record.
const AGAIN: &str = "open 3 winners 0 undone 0\n";

static ROWS: [Row; 6] = [
    Row {
        name: "an empty map",
        text: "",
        opened: "open 2 winners 0 undone 0\n",
        lines: "end\n",
    },
    Row {
        name: "keys that were put in falling order",
        text: "1 begin\n1 put 9 1\n1 put 5 7\n1 put 0 3\n1 commit\n",
        opened: "open 2 winners 1 undone 0\n",
        lines: "pair 0 3\npair 5 7\npair 9 1\nend\n",
    },
    Row {
        name: "the greatest key and the greatest value",
        text: "1 begin\n1 put 18446744073709551614 0\n1 put 7 9223372036854775807\n1 commit\n",
        opened: "open 2 winners 1 undone 0\n",
        lines: "pair 7 9223372036854775807\npair 18446744073709551614 0\nend\n",
    },
    Row {
        name: "a transaction that is open at the end",
        text: "1 begin\n1 put 5 7\n1 commit\n1 begin\n1 put 5 8\n1 put 6 9\n",
        opened: "open 2 winners 1 undone 0\n",
        lines: "pair 5 7\nend\n",
    },
    Row {
        name: "six transactions",
        text: SIX_TEXT,
        opened: "open 2 winners 6 undone 0\n",
        lines: "pair 1 51\npair 2 12\npair 3 53\nend\n",
    },
    // Its key keeps its place in the leaf, as a tombstone.
    Row {
        name: "a key of a transaction that is undone",
        text: TWO_TEXT,
        opened: "open 2 winners 1 undone 1\n",
        lines: "pair 5 7\nend\n",
    },
];

// Dumps, of each of which a line does not go out, but this much of it; it ends with 5 there.
fn cut_each<R: Threads + Wait + Sync + Abort>(
    rt: &R,
    alloc: Global,
    row: &Row,
    disk: &MemDisk,
    prefix: usize,
) {
    let (opened, lines) = (row.opened, row.lines);
    let whole = format!(in alloc; "{opened}{lines}").expect(rt, MEMORY);
    for line in 1..=count_lines(&whole) {
        let mut sink = MemSink::new(alloc);
        sink.fail_at([line].to_vec(alloc).expect(rt, MEMORY));
        sink.keep_prefix(prefix);
        let done = run_into(rt, alloc, &DUMP, "", at_rest(rt, disk), sink);
        let printed = done.printed();
        let is_prefix = whole.starts_with(printed) && printed.len() < whole.len();
        expect(
            rt,
            row.name,
            done.status == 5 && is_prefix && count_lines(printed) == line.saturating_sub(1),
        );
    }
}

#[test]
fn a_dump_has_each_pair_in_the_order_of_the_keys(rt: HostRuntime) {
    let alloc = rt.alloc();
    for row in &ROWS {
        let ran = run_script(&rt, alloc, row.text, formatted(&rt, alloc, &FORMAT)).disk;
        let disk = at_rest(&rt, &ran);
        let again = dumped(&rt, alloc, row.name, ran, row.opened, row.lines);
        dumped(&rt, alloc, row.name, again, AGAIN, row.lines);
        cut_each(&rt, alloc, row, &disk, 0);
        cut_each(&rt, alloc, row, &disk, 3);
    }
}

#[test]
fn a_dump_leaves_the_disk_as_it_was_opened(rt: HostRuntime) {
    let alloc = rt.alloc();
    let disk = disk_of_two(&rt, alloc);
    let dumped = run_command(&rt, alloc, &DUMP, "", at_rest(&rt, &disk)).disk;
    let opened = run_script(&rt, alloc, "", disk).disk;
    for area in 0..3 {
        expect(
            &rt,
            "the bytes of an area",
            dumped.bytes(area) == opened.bytes(area),
        );
    }
    let none = MemDisk::new(alloc, 3).expect(&rt, MEMORY);
    let done = run_command(&rt, alloc, &DUMP, "", none);
    let is_refused = done.status == 7 && done.printed() == "lean: not formatted\n";
    expect(
        &rt,
        "an empty disk",
        is_refused && done.disk.bytes(0).is_empty(),
    );
}
