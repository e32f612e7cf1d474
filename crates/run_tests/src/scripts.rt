// The scripts whose runs are crashed and whose calls fail, and what is found then. All was written down by hand from the rules.
use lean_disk::Choice;

/// A run of a command on a disk, and what comes of it.
pub(crate) struct Script {
    pub command: &'static [&'static str],
    /// What it reads.
    pub text: &'static str,
    /// What it prints.
    pub lines: &'static str,
    /// What the next run reads behind a crash.
    pub next: &'static str,
    pub finds: &'static [Find],
    pub sweeps: &'static [Sweep],
    pub aparts: &'static [Apart],
    pub failures: &'static [Failures],
}

/// What may be found behind a crash.
pub(crate) struct Find {
    /// What the next run prints.
    pub lines: &'static str,
    /// Which of the maps a dump prints, behind the same first line.
    pub map: usize,
    /// So many lines were out before the last call: the commit of the last transaction that is kept had begun.
    pub from: u64,
    /// Fewer lines than these were out: the next transaction was not told durable.
    pub below: u64,
}

/// Crashes of a whole run, one at each moment.
pub(crate) struct Sweep {
    pub name: &'static str,
    pub choice: Choice,
    /// How many runs are crashed at the moment, one behind another.
    pub times: u32,
    /// How many crashes each is found behind.
    pub found: &'static [u64],
}

/// Crashes of a whole run at each moment, in which each of these areas is left by one choice or by the other, in all ways.
pub(crate) struct Apart {
    pub name: &'static str,
    pub one: Choice,
    pub other: Choice,
    pub areas: &'static [u32],
    /// How many crashes each is found behind.
    pub found: &'static [u64],
}

/// Runs in each of which a call of an area fails.
pub(crate) struct Failures {
    pub name: &'static str,
    pub area: u32,
    /// How many there are to fail.
    pub calls: u64,
    /// So many lines are out by then at most.
    pub out: u64,
    pub crashes: Crashes,
    pub found: &'static [u64],
}

/// The crashes of a run that has failed.
pub(crate) enum Crashes {
    /// One by each choice, when it has ended.
    AtEnd,
    /// One in each way of these areas, when it has ended: no unsynced bytes of an area are left, or all.
    Apart(&'static [u32]),
    /// One at each moment.
    Each(Choice),
}

macro_rules! find {
    ($lines:expr, $map:expr, $from:expr, $below:expr) => {
        Find {
            lines: $lines,
            map: $map,
            from: $from,
            below: $below,
        }
    };
}

macro_rules! sweep {
    ($name:expr, $choice:ident, $times:expr, $found:expr) => {
        Sweep {
            name: $name,
            choice: Choice::$choice,
            times: $times,
            found: &$found,
        }
    };
}

macro_rules! faults {
    ($name:expr, $area:expr, $calls:expr, $out:expr, $found:expr) => {
        Failures {
            name: $name,
            area: $area,
            calls: $calls,
            out: $out,
            crashes: Crashes::AtEnd,
            found: &$found,
        }
    };
}

macro_rules! apart {
    ($name:expr, $one:ident, $other:ident, $areas:expr, $found:expr) => {
        Apart {
            name: $name,
            one: Choice::$one,
            other: Choice::$other,
            areas: $areas,
            found: &$found,
        }
    };
}

macro_rules! faults_apart {
    ($name:expr, $area:expr, $calls:expr, $out:expr, $areas:expr, $found:expr) => {
        Failures {
            name: $name,
            area: $area,
            calls: $calls,
            out: $out,
            crashes: Crashes::Apart($areas),
            found: &$found,
        }
    };
}

macro_rules! stops {
    ($name:expr, $area:expr, $calls:expr, $choice:ident, $found:expr) => {
        Failures {
            name: $name,
            area: $area,
            calls: $calls,
            out: 0,
            crashes: Crashes::Each(Choice::$choice),
            found: &$found,
        }
    };
}

pub(crate) use apart;
pub(crate) use faults;
pub(crate) use faults_apart;
pub(crate) use find;
pub(crate) use stops;
pub(crate) use sweep;

pub(crate) const MANY: u64 = u64::MAX;

/// One put on a new disk. The opening syncs, reads two slots of the master, syncs the pages and the log, reads two slots of each page
/// and a block, syncs the pages, writes its master and syncs it. The put is one block. It is kept from its sync on, at each choice,
/// and from its write on where that leaves all bytes, whether or not the call failed.
pub(crate) static PUT: Script = Script {
    command: &["lean", "run"],
    text: "1 begin\n1 put 5 7\n1 commit\n",
    lines: "open 1 winners 0 undone 0\n1 begun 1.1\n1 was none\n1 committed 1.1 at 2\n1 durable 1.1\n",
    next: "1 begin\n1 get 5\n",
    finds: &[
        find!("open 1 winners 0 undone 0\n1 begun 1.1\n1 none\n", 0, 0, 1),
        find!("open 2 winners 0 undone 0\n1 begun 1.1\n1 none\n", 0, 0, 5),
        find!(
            "open 2 winners 1 undone 0\n1 begun 1.1\n1 value 7\n",
            1,
            3,
            MANY
        ),
    ],
    sweeps: &[
        sweep!("PUT, no bytes", NoBytes, 1, [41, 5, 3]),
        sweep!("PUT, all bytes", AllBytes, 1, [40, 5, 4]),
        sweep!("PUT, halves", FirstHalf, 1, [41, 5, 3]),
        sweep!("PUT, zeros", Zeros, 1, [41, 5, 3]),
    ],
    aparts: &[],
    failures: &[
        faults!("PUT, masters", 0, 5, 0, [18, 2, 0]),
        faults!("PUT, pages", 1, 34, 0, [136, 0, 0]),
        faults!("PUT, log", 2, 4, 3, [8, 6, 2]),
    ],
};

/// Its dumps, behind their first lines.
pub(crate) static PUT_MAPS: [&str; 2] = ["end\n", "pair 5 7\nend\n"];

/// The lines of the six transactions. One puts twice, one reads what it wrote, one writes over it, one only reads, one puts three
/// times, and one puts back.
pub(crate) const SIX_TEXT: &str =
    "1 begin\n1 put 1 11\n1 put 2 12\n1 commit\n1 begin\n1 get 1\n1 put 3 23\n1 commit\n1 begin\n1 put 1 31\n1 commit\n1 begin\n1 get 1\n1 get 3\n1 commit\n1 begin\n1 put 2 52\n1 put 3 53\n1 put 1 51\n1 get 2\n1 commit\n1 begin\n1 put 2 12\n1 commit\n";

/// Six transactions on a new disk.
pub(crate) static SIX: Script = Script {
    command: &["lean", "run"],
    text: SIX_TEXT,
    lines: "open 1 winners 0 undone 0\n1 begun 1.1\n1 was none\n1 was none\n1 committed 1.1 at 3\n1 durable 1.1\n1 begun 1.2\n1 value 11\n1 was none\n1 committed 1.2 at 5\n1 durable 1.2\n1 begun 1.3\n1 was 11\n1 committed 1.3 at 7\n1 durable 1.3\n1 begun 1.4\n1 value 31\n1 value 23\n1 committed 1.4 at 8\n1 durable 1.4\n1 begun 1.5\n1 was 12\n1 was 23\n1 was 31\n1 value 52\n1 committed 1.5 at 12\n1 durable 1.5\n1 begun 1.6\n1 was 52\n1 committed 1.6 at 14\n1 durable 1.6\n",
    next: "1 begin\n1 get 1\n1 get 2\n1 get 3\n",
    finds: &[
        find!(
            "open 1 winners 0 undone 0\n1 begun 1.1\n1 none\n1 none\n1 none\n",
            0,
            0,
            1
        ),
        find!(
            "open 2 winners 0 undone 0\n1 begun 1.1\n1 none\n1 none\n1 none\n",
            0,
            0,
            6
        ),
        find!(
            "open 2 winners 1 undone 0\n1 begun 1.1\n1 value 11\n1 value 12\n1 none\n",
            1,
            4,
            11
        ),
        find!(
            "open 2 winners 2 undone 0\n1 begun 1.1\n1 value 11\n1 value 12\n1 value 23\n",
            2,
            9,
            15
        ),
        find!(
            "open 2 winners 3 undone 0\n1 begun 1.1\n1 value 31\n1 value 12\n1 value 23\n",
            3,
            13,
            20
        ),
        find!(
            "open 2 winners 4 undone 0\n1 begun 1.1\n1 value 31\n1 value 12\n1 value 23\n",
            3,
            18,
            27
        ),
        find!(
            "open 2 winners 5 undone 0\n1 begun 1.1\n1 value 51\n1 value 52\n1 value 53\n",
            4,
            25,
            31
        ),
        find!(
            "open 2 winners 6 undone 0\n1 begun 1.1\n1 value 51\n1 value 12\n1 value 53\n",
            5,
            29,
            MANY
        ),
    ],
    sweeps: &[
        sweep!("SIX, no bytes", NoBytes, 1, [41, 6, 7, 6, 7, 9, 6, 3]),
        sweep!("SIX, all bytes", AllBytes, 1, [40, 6, 7, 6, 7, 9, 6, 4]),
        sweep!("SIX, halves", FirstHalf, 1, [41, 6, 7, 6, 7, 9, 6, 3]),
        sweep!("SIX, zeros", Zeros, 1, [41, 6, 7, 6, 7, 9, 6, 3]),
    ],
    aparts: &[],
    failures: &[
        faults!("SIX, masters", 0, 5, 0, [18, 2, 0, 0, 0, 0, 0, 0]),
        faults!("SIX, pages", 1, 34, 0, [136, 0, 0, 0, 0, 0, 0, 0]),
        faults!("SIX, log", 2, 14, 29, [8, 6, 8, 8, 8, 8, 8, 2]),
    ],
};

pub(crate) static SIX_MAPS: [&str; 6] = [
    "end\n",
    "pair 1 11\npair 2 12\nend\n",
    "pair 1 11\npair 2 12\npair 3 23\nend\n",
    "pair 1 31\npair 2 12\npair 3 23\nend\n",
    "pair 1 51\npair 2 52\npair 3 53\nend\n",
    "pair 1 51\npair 2 12\npair 3 53\nend\n",
];

/// Dels and an abort, on a new disk: a transaction is committed, the next one is aborted, one more is committed, and the last one is open at
/// the end. A commit writes one block, in which all records since the commit before are.
pub(crate) static ABORT: Script = Script {
    command: &["lean", "run"],
    text: "1 begin\n1 put 5 7\n1 commit\n1 begin\n1 del 5\n1 put 6 8\n1 put 6 9\n1 abort\n1 begin\n1 del 5\n1 put 7 3\n1 commit\n1 begin\n1 put 5 1\n1 del 7\n",
    lines: "open 1 winners 0 undone 0\n1 begun 1.1\n1 was none\n1 committed 1.1 at 2\n1 durable 1.1\n1 begun 1.2\n1 was 7\n1 was none\n1 was 8\n1 aborted 1.2\n1 begun 1.3\n1 was 7\n1 was none\n1 committed 1.3 at 12\n1 durable 1.3\n1 begun 1.4\n1 was none\n1 was 3\n",
    next: "1 begin\n1 get 5\n1 get 6\n1 get 7\n",
    finds: &[
        find!(
            "open 1 winners 0 undone 0\n1 begun 1.1\n1 none\n1 none\n1 none\n",
            0,
            0,
            1
        ),
        find!(
            "open 2 winners 0 undone 0\n1 begun 1.1\n1 none\n1 none\n1 none\n",
            0,
            0,
            5
        ),
        find!(
            "open 2 winners 1 undone 0\n1 begun 1.1\n1 value 7\n1 none\n1 none\n",
            1,
            3,
            15
        ),
        find!(
            "open 2 winners 2 undone 0\n1 begun 1.1\n1 none\n1 none\n1 value 3\n",
            2,
            13,
            MANY
        ),
    ],
    sweeps: &[
        sweep!("ABORT, no bytes", NoBytes, 1, [41, 5, 12, 6]),
        sweep!("ABORT, all bytes", AllBytes, 1, [40, 5, 12, 7]),
        sweep!("ABORT, halves", FirstHalf, 1, [41, 5, 12, 6]),
        sweep!("ABORT, zeros", Zeros, 1, [41, 5, 12, 6]),
    ],
    aparts: &[],
    failures: &[
        faults!("ABORT, masters", 0, 5, 0, [18, 2, 0, 0]),
        faults!("ABORT, pages", 1, 34, 0, [136, 0, 0, 0]),
        faults!("ABORT, log", 2, 6, 13, [8, 6, 8, 2]),
    ],
};

/// Its dumps, behind their first lines.
pub(crate) static ABORT_MAPS: [&str; 3] = ["end\n", "pair 5 7\nend\n", "pair 7 3\nend\n"];

/// An abort of 38 changes, of which one is a del. A block has room for 37 changes or put-backs: the first one is written before the last
/// change is answered, the next one among the put-backs, and the third by the commit behind the abort. Where all bytes of the first are left,
/// and not the third, the transaction is undone.
pub(crate) static LONG_ABORT: Script = Script {
    command: &["lean", "run"],
    text: "1 begin\n1 put 5 7\n1 commit\n1 begin\n1 del 5\n1 put 6 1\n1 put 6 2\n1 put 6 3\n1 put 6 4\n1 put 6 5\n1 put 6 6\n1 put 6 7\n1 put 6 8\n1 put 6 9\n1 put 6 10\n1 put 6 11\n1 put 6 12\n1 put 6 13\n1 put 6 14\n1 put 6 15\n1 put 6 16\n1 put 6 17\n1 put 6 18\n1 put 6 19\n1 put 6 20\n1 put 6 21\n1 put 6 22\n1 put 6 23\n1 put 6 24\n1 put 6 25\n1 put 6 26\n1 put 6 27\n1 put 6 28\n1 put 6 29\n1 put 6 30\n1 put 6 31\n1 put 6 32\n1 put 6 33\n1 put 6 34\n1 put 6 35\n1 put 6 36\n1 put 6 37\n1 abort\n1 begin\n1 put 7 3\n1 commit\n",
    lines: "open 1 winners 0 undone 0\n1 begun 1.1\n1 was none\n1 committed 1.1 at 2\n1 durable 1.1\n1 begun 1.2\n1 was 7\n1 was none\n1 was 1\n1 was 2\n1 was 3\n1 was 4\n1 was 5\n1 was 6\n1 was 7\n1 was 8\n1 was 9\n1 was 10\n1 was 11\n1 was 12\n1 was 13\n1 was 14\n1 was 15\n1 was 16\n1 was 17\n1 was 18\n1 was 19\n1 was 20\n1 was 21\n1 was 22\n1 was 23\n1 was 24\n1 was 25\n1 was 26\n1 was 27\n1 was 28\n1 was 29\n1 was 30\n1 was 31\n1 was 32\n1 was 33\n1 was 34\n1 was 35\n1 was 36\n1 aborted 1.2\n1 begun 1.3\n1 was none\n1 committed 1.3 at 81\n1 durable 1.3\n",
    next: "1 begin\n1 get 5\n1 get 6\n1 get 7\n",
    finds: &[
        find!(
            "open 1 winners 0 undone 0\n1 begun 1.1\n1 none\n1 none\n1 none\n",
            0,
            0,
            1
        ),
        find!(
            "open 2 winners 0 undone 0\n1 begun 1.1\n1 none\n1 none\n1 none\n",
            0,
            0,
            5
        ),
        find!(
            "open 2 winners 1 undone 0\n1 begun 1.1\n1 value 7\n1 none\n1 none\n",
            1,
            3,
            49
        ),
        find!(
            "open 2 winners 1 undone 1\n1 begun 1.1\n1 value 7\n1 none\n1 none\n",
            1,
            43,
            49
        ),
        find!(
            "open 2 winners 2 undone 0\n1 begun 1.1\n1 value 7\n1 none\n1 value 3\n",
            2,
            47,
            MANY
        ),
    ],
    sweeps: &[
        sweep!("LONG_ABORT, no bytes", NoBytes, 1, [41, 5, 48, 0, 3]),
        sweep!("LONG_ABORT, all bytes", AllBytes, 1, [40, 5, 42, 6, 4]),
        sweep!("LONG_ABORT, halves", FirstHalf, 1, [41, 5, 48, 0, 3]),
        sweep!("LONG_ABORT, zeros", Zeros, 1, [41, 5, 48, 0, 3]),
    ],
    aparts: &[],
    failures: &[
        faults!("LONG_ABORT, masters", 0, 5, 0, [18, 2, 0, 0, 0]),
        faults!("LONG_ABORT, pages", 1, 34, 0, [136, 0, 0, 0, 0]),
        faults!("LONG_ABORT, log", 2, 8, 47, [8, 6, 14, 2, 2]),
    ],
};

/// Its dumps, behind their first lines.
pub(crate) static LONG_ABORT_MAPS: [&str; 3] = [
    "end\n",
    "pair 5 7\nend\n",
    "pair 5 7\npair 7 3\nend\n",
];

/// Two transactions. One puts key 5 and commits. The next one puts it too, and key 6 37 times. A block has room for 37 changes, so the
/// block of its first 37 is written.
pub(crate) const TWO_TEXT: &str =
    "1 begin\n1 put 5 7\n1 commit\n1 begin\n1 put 5 8\n1 put 6 1\n1 put 6 2\n1 put 6 3\n1 put 6 4\n1 put 6 5\n1 put 6 6\n1 put 6 7\n1 put 6 8\n1 put 6 9\n1 put 6 10\n1 put 6 11\n1 put 6 12\n1 put 6 13\n1 put 6 14\n1 put 6 15\n1 put 6 16\n1 put 6 17\n1 put 6 18\n1 put 6 19\n1 put 6 20\n1 put 6 21\n1 put 6 22\n1 put 6 23\n1 put 6 24\n1 put 6 25\n1 put 6 26\n1 put 6 27\n1 put 6 28\n1 put 6 29\n1 put 6 30\n1 put 6 31\n1 put 6 32\n1 put 6 33\n1 put 6 34\n1 put 6 35\n1 put 6 36\n1 put 6 37\n";

const GETS: &str = "1 begin\n1 get 5\n1 get 6\n";

// The committed transaction alone. The opening finds both, or one before it has dealt with them.
const TWO_FINDS: &[Find] = &[
    find!(
        "open 2 winners 1 undone 1\n1 begun 1.1\n1 value 7\n1 none\n",
        0,
        0,
        1
    ),
    find!(
        "open 3 winners 0 undone 0\n1 begun 1.1\n1 value 7\n1 none\n",
        0,
        0,
        MANY
    ),
    find!(
        "open 5 winners 0 undone 0\n1 begun 1.1\n1 value 7\n1 none\n",
        0,
        0,
        MANY
    ),
];

/// An opening behind the two. Its calls are a sync of area 0, two reads there, a sync of 1 and of 2, 32 reads of the pages, three of
/// the log, the write of the page that has changed, its sync, the master's write, its sync: 44 in all, and there are four lines. A
/// crash of one that has failed has two moments more than the number of the call. The master counts from its sync on, and from its
/// write on where that leaves all bytes. Three openings that are crashed at one moment all count, or none does.
pub(crate) static OPENING: Script = Script {
    command: &["lean", "run"],
    text: GETS,
    lines: "open 2 winners 1 undone 1\n1 begun 1.1\n1 value 7\n1 none\n",
    next: GETS,
    finds: TWO_FINDS,
    sweeps: &[
        sweep!("OPENING, all bytes", AllBytes, 1, [43, 6, 0]),
        sweep!("three times no bytes", NoBytes, 3, [44, 0, 5]),
        sweep!("three times all bytes", AllBytes, 3, [43, 0, 6]),
        sweep!("three times halves", FirstHalf, 3, [44, 0, 5]),
        sweep!("three times zeros", Zeros, 3, [44, 0, 5]),
    ],
    aparts: &[],
    failures: &[
        stops!("OPENING, masters, no bytes", 0, 5, NoBytes, [103, 0, 0]),
        stops!("OPENING, masters, all bytes", 0, 5, AllBytes, [98, 5, 0]),
        stops!("OPENING, masters, halves", 0, 5, FirstHalf, [103, 0, 0]),
        stops!("OPENING, masters, zeros", 0, 5, Zeros, [103, 0, 0]),
        stops!("OPENING, pages, no bytes", 1, 35, NoBytes, [845, 0, 0]),
        stops!("OPENING, pages, all bytes", 1, 35, AllBytes, [845, 0, 0]),
        stops!("OPENING, pages, halves", 1, 35, FirstHalf, [845, 0, 0]),
        stops!("OPENING, pages, zeros", 1, 35, Zeros, [845, 0, 0]),
        stops!("OPENING, log, no bytes", 2, 4, NoBytes, [130, 0, 0]),
        stops!("OPENING, log, all bytes", 2, 4, AllBytes, [130, 0, 0]),
        stops!("OPENING, log, halves", 2, 4, FirstHalf, [130, 0, 0]),
        stops!("OPENING, log, zeros", 2, 4, Zeros, [130, 0, 0]),
    ],
};

/// A dump behind the two, which makes the same calls.
pub(crate) static DUMP: Script = Script {
    command: &["lean", "dump"],
    text: "",
    lines: "open 2 winners 1 undone 1\npair 5 7\nend\n",
    next: GETS,
    finds: TWO_FINDS,
    sweeps: &[],
    aparts: &[],
    failures: &[
        faults!("DUMP, masters", 0, 5, 0, [18, 2, 0]),
        faults!("DUMP, pages", 1, 35, 0, [140, 0, 0]),
        faults!("DUMP, log", 2, 4, 0, [16, 0, 0]),
    ],
};

pub(crate) static TWO_MAPS: [&str; 1] = ["pair 5 7\nend\n"];

/// Three puts in three transactions, on a tree of which the root and two leaves are full: a lift, a split of the page that
/// the root's contents went into, a split of the leaf; a split; no more than a change. 1,860 changes, 31 commits, 59 splits and a lift
/// went before. The opening makes 141 calls. The first put reads a leaf and the three pages that the tree takes, the second one a leaf and a page;
/// the third one's leaf is the second one's. The first put's lift and first split are in a block that is written before its line; a crash
/// that leaves it alone undoes a transaction of no key.
pub(crate) static SPLITS: Script = Script {
    command: &["lean", "run"],
    text: "1 begin\n1 put 3662 8\n1 commit\n1 begin\n1 put 61 9\n1 commit\n1 begin\n1 put 2 10\n1 commit\n",
    lines: "open 3 winners 0 undone 0\n1 begun 1.1\n1 was none\n1 committed 1.1 at 1956\n1 durable 1.1\n1 begun 1.2\n1 was none\n1 committed 1.2 at 1959\n1 durable 1.2\n1 begun 1.3\n1 was 3\n1 committed 1.3 at 1961\n1 durable 1.3\n",
    next: "",
    finds: &[
        find!("open 3 winners 0 undone 0\n", 0, 0, 1),
        find!("open 4 winners 0 undone 0\n", 0, 0, 5),
        find!("open 4 winners 0 undone 1\n", 0, 2, 5),
        find!("open 4 winners 1 undone 0\n", 1, 3, 9),
        find!("open 4 winners 2 undone 0\n", 2, 7, 13),
        find!("open 4 winners 3 undone 0\n", 3, 11, MANY),
    ],
    sweeps: &[
        sweep!("SPLITS, no bytes", NoBytes, 1, [141, 10, 0, 8, 6, 3]),
        sweep!("SPLITS, all bytes", AllBytes, 1, [140, 8, 2, 8, 6, 4]),
        sweep!("SPLITS, halves", FirstHalf, 1, [141, 10, 0, 8, 6, 3]),
        sweep!("SPLITS, zeros", Zeros, 1, [141, 10, 0, 8, 6, 3]),
    ],
    aparts: &[],
    failures: &[
        faults!("SPLITS, masters", 0, 5, 0, [18, 2, 0, 0, 0, 0]),
        faults!("SPLITS, pages", 1, 140, 6, [536, 16, 0, 8, 0, 0]),
        faults!("SPLITS, log", 2, 9, 11, [8, 9, 1, 8, 8, 2]),
    ],
};

/// Two transactions with scans, and one that is open at the end. A pair is a line. The second one's first scan passes a deleted key; the last one is from a
/// key above its last one.
pub(crate) static SCAN: Script = Script {
    command: &["lean", "run"],
    text: "1 begin\n1 put 5 7\n1 put 6 8\n1 commit\n1 begin\n1 del 5\n1 scan 0 9\n1 put 7 9\n1 scan 0 9\n1 commit\n1 begin\n1 scan 6 6\n1 scan 9 0\n",
    lines: "open 1 winners 0 undone 0\n1 begun 1.1\n1 was none\n1 was none\n1 committed 1.1 at 3\n1 durable 1.1\n1 begun 1.2\n1 was 7\n1 pair 6 8\n1 end\n1 was none\n1 pair 6 8\n1 pair 7 9\n1 end\n1 committed 1.2 at 6\n1 durable 1.2\n1 begun 1.3\n1 pair 6 8\n1 end\n1 end\n",
    next: "1 begin\n1 scan 0 9\n",
    finds: &[
        find!("open 1 winners 0 undone 0\n1 begun 1.1\n1 end\n", 0, 0, 1),
        find!("open 2 winners 0 undone 0\n1 begun 1.1\n1 end\n", 0, 0, 6),
        find!(
            "open 2 winners 1 undone 0\n1 begun 1.1\n1 pair 5 7\n1 pair 6 8\n1 end\n",
            1,
            4,
            16
        ),
        find!(
            "open 2 winners 2 undone 0\n1 begun 1.1\n1 pair 6 8\n1 pair 7 9\n1 end\n",
            2,
            14,
            MANY
        ),
    ],
    sweeps: &[
        sweep!("SCAN, no bytes", NoBytes, 1, [41, 6, 12, 7]),
        sweep!("SCAN, all bytes", AllBytes, 1, [40, 6, 12, 8]),
        sweep!("SCAN, halves", FirstHalf, 1, [41, 6, 12, 7]),
        sweep!("SCAN, zeros", Zeros, 1, [41, 6, 12, 7]),
    ],
    aparts: &[],
    failures: &[
        faults!("SCAN, masters", 0, 5, 0, [18, 2, 0, 0]),
        faults!("SCAN, pages", 1, 34, 0, [136, 0, 0, 0]),
        faults!("SCAN, log", 2, 6, 14, [8, 6, 8, 2]),
    ],
};

/// Its dumps, behind their first lines.
pub(crate) static SCAN_MAPS: [&str; 3] = [
    "end\n",
    "pair 5 7\npair 6 8\nend\n",
    "pair 6 8\npair 7 9\nend\n",
];

/// Two sessions, whose commits are flushed in groups of two, and a sync. The opening makes 43 calls: a sync and a read more than on a disk of one
/// log. Both commits wait for the sync, which writes and syncs each log and then a master. The first one is kept from the sync of the first
/// log on, the second one from that of its own.
pub(crate) static SYNC: Script = Script {
    command: &["lean", "run", "--group", "2"],
    text: "1 begin\n1 put 5 7\n1 commit\n2 begin\n2 put 6 8\n2 commit\nsync\n",
    lines: "open 1 winners 0 undone 0\n1 begun 1.1\n1 was none\n1 committed 1.1 at 2\n2 begun 2.1\n2 was none\n2 committed 2.1 at 3\nsynced 3\n1 durable 1.1\n2 durable 2.1\n",
    next: GETS,
    finds: &[
        find!(
            "open 1 winners 0 undone 0\n1 begun 1.1\n1 none\n1 none\n",
            0,
            0,
            1
        ),
        find!(
            "open 2 winners 0 undone 0\n1 begun 1.1\n1 none\n1 none\n",
            0,
            0,
            9
        ),
        find!(
            "open 2 winners 1 undone 0\n1 begun 1.1\n1 value 7\n1 none\n",
            1,
            7,
            10
        ),
        find!(
            "open 2 winners 2 undone 0\n1 begun 1.1\n1 value 7\n1 value 8\n",
            2,
            7,
            MANY
        ),
    ],
    sweeps: &[
        sweep!("SYNC, no bytes", NoBytes, 1, [43, 9, 2, 6]),
        sweep!("SYNC, all bytes", AllBytes, 1, [42, 9, 2, 7]),
        sweep!("SYNC, halves", FirstHalf, 1, [43, 9, 2, 6]),
        sweep!("SYNC, zeros", Zeros, 1, [43, 9, 2, 6]),
    ],
    aparts: &[],
    failures: &[
        faults!("SYNC, masters", 0, 7, 7, [18, 2, 0, 8]),
        faults!("SYNC, pages", 1, 34, 0, [136, 0, 0, 0]),
        faults!("SYNC, the first log", 2, 4, 7, [8, 6, 2, 0]),
        faults!("SYNC, the second log", 3, 4, 7, [8, 0, 6, 2]),
    ],
};

/// Its dumps, behind their first lines.
pub(crate) static SYNC_MAPS: [&str; 3] = ["end\n", "pair 5 7\nend\n", "pair 5 7\npair 6 8\nend\n"];

/// A session meets a conflict and is aborted, and its next transaction commits behind a change of the other log, so it is durable with the
/// commit there. Where the second log has it and the first one nothing, it is undone, and so is the aborted one, whose end needs that change too.
pub(crate) static CONFLICT: Script = Script {
    command: &["lean", "run"],
    text: "1 begin\n1 put 5 7\n2 begin\n2 put 6 1\n2 get 5\n2 begin\n2 put 6 8\n2 commit\n1 commit\n",
    lines: "open 1 winners 0 undone 0\n1 begun 1.1\n1 was none\n2 begun 2.1\n2 was none\n2 conflict 1\n2 aborted 2.1\n2 begun 2.2\n2 was none\n2 committed 2.2 at 6\n1 committed 1.1 at 2\n1 durable 1.1\n2 durable 2.2\n",
    next: GETS,
    finds: &[
        find!(
            "open 1 winners 0 undone 0\n1 begun 1.1\n1 none\n1 none\n",
            0,
            0,
            1
        ),
        find!(
            "open 2 winners 0 undone 0\n1 begun 1.1\n1 none\n1 none\n",
            0,
            0,
            12
        ),
        find!(
            "open 2 winners 0 undone 2\n1 begun 1.1\n1 none\n1 none\n",
            0,
            9,
            12
        ),
        find!(
            "open 2 winners 2 undone 0\n1 begun 1.1\n1 value 7\n1 value 8\n",
            1,
            10,
            MANY
        ),
    ],
    sweeps: &[
        sweep!("CONFLICT, no bytes", NoBytes, 1, [43, 11, 3, 4]),
        sweep!("CONFLICT, all bytes", AllBytes, 1, [42, 11, 3, 5]),
        sweep!("CONFLICT, halves", FirstHalf, 1, [43, 11, 3, 4]),
        sweep!("CONFLICT, zeros", Zeros, 1, [43, 11, 3, 4]),
    ],
    aparts: &[],
    failures: &[
        faults!("CONFLICT, masters", 0, 5, 0, [18, 2, 0, 0]),
        faults!("CONFLICT, pages", 1, 34, 0, [136, 0, 0, 0]),
        faults!("CONFLICT, the first log", 2, 4, 10, [8, 0, 6, 2]),
        faults!("CONFLICT, the second log", 3, 4, 9, [8, 6, 2, 0]),
    ],
};

/// Its dumps, behind their first lines.
pub(crate) static CONFLICT_MAPS: [&str; 2] = ["end\n", "pair 5 7\npair 6 8\nend\n"];

/// The same where a scan meets the conflict, behind a pair: one line more.
pub(crate) static SCAN_CONFLICT: Script = Script {
    command: &["lean", "run"],
    text: "1 begin\n1 put 5 7\n2 begin\n2 put 3 1\n2 scan 0 9\n2 begin\n2 put 6 8\n2 commit\n1 commit\n",
    lines: "open 1 winners 0 undone 0\n1 begun 1.1\n1 was none\n2 begun 2.1\n2 was none\n2 pair 3 1\n2 conflict 1\n2 aborted 2.1\n2 begun 2.2\n2 was none\n2 committed 2.2 at 6\n1 committed 1.1 at 2\n1 durable 1.1\n2 durable 2.2\n",
    next: GETS,
    finds: &[
        find!(
            "open 1 winners 0 undone 0\n1 begun 1.1\n1 none\n1 none\n",
            0,
            0,
            1
        ),
        find!(
            "open 2 winners 0 undone 0\n1 begun 1.1\n1 none\n1 none\n",
            0,
            0,
            13
        ),
        find!(
            "open 2 winners 0 undone 2\n1 begun 1.1\n1 none\n1 none\n",
            0,
            10,
            13
        ),
        find!(
            "open 2 winners 2 undone 0\n1 begun 1.1\n1 value 7\n1 value 8\n",
            1,
            11,
            MANY
        ),
    ],
    sweeps: &[
        sweep!("SCAN_CONFLICT, no bytes", NoBytes, 1, [43, 12, 3, 4]),
        sweep!("SCAN_CONFLICT, all bytes", AllBytes, 1, [42, 12, 3, 5]),
        sweep!("SCAN_CONFLICT, halves", FirstHalf, 1, [43, 12, 3, 4]),
        sweep!("SCAN_CONFLICT, zeros", Zeros, 1, [43, 12, 3, 4]),
    ],
    aparts: &[],
    failures: &[
        faults!("SCAN_CONFLICT, masters", 0, 5, 0, [18, 2, 0, 0]),
        faults!("SCAN_CONFLICT, pages", 1, 34, 0, [136, 0, 0, 0]),
        faults!("SCAN_CONFLICT, the first log", 2, 4, 11, [8, 0, 6, 2]),
        faults!("SCAN_CONFLICT, the second log", 3, 4, 10, [8, 6, 2, 0]),
    ],
};
