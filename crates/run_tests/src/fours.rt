// The script of four sessions, and the opening behind it.
use crate::scripts::{
    Apart, Crashes, Failures, Find, MANY, Script, Sweep, apart, faults, faults_apart, find, stops,
    sweep,
};
use lean_disk::Choice;

// The master's area and those of four logs.
const LOGS: &[u32] = &[0, 2, 3, 4, 5];

const FOUR_GETS: &str = "1 begin\n1 get 1\n1 get 2\n1 get 4\n1 get 5\n1 get 6\n";

/// Four sessions, whose commits are flushed in groups of two, and a sync. The opening makes 47 calls. The second and the fourth session change a key 38 times each, so each
/// writes a block that waits for the sync: the calls behind the opening are the writes of these two, a write and a sync of the first log, of the third, of the second, of the fourth
/// and of a master, and of the second log. The fourth session met a conflict and was aborted before; the third one puts back a change, behind a change of the fourth
/// log. The commits need, in the order of their lines: none; 2; 3; 41; 81; 79; none; none; the abort that puts back needs 79.
/// A crash leaves of each log its tail or not. Behind the first log's flush its first commit is kept, and the other one is undone, with what stands in the tails of the second and fourth
/// log; with the third log's flush its three transactions are undone too, but for its first, where both tails are left, since then each log has its records up to 40.
/// With the second log's flush its commit is kept, and so it is where 42 records are there of each log; and with the fourth one's that of the fourth.
pub(crate) static FOUR: Script = Script {
    command: &["lean", "run", "--group", "2"],
    text: "1 begin\n1 put 1 11\n1 commit\n3 begin\n3 get 1\n3 put 4 44\n3 commit\n2 begin\n2 put 2 1\n2 put 2 2\n2 put 2 3\n2 put 2 4\n2 put 2 5\n2 put 2 6\n2 put 2 7\n2 put 2 8\n2 put 2 9\n2 put 2 10\n2 put 2 11\n2 put 2 12\n2 put 2 13\n2 put 2 14\n2 put 2 15\n2 put 2 16\n2 put 2 17\n2 put 2 18\n2 put 2 19\n2 put 2 20\n2 put 2 21\n2 put 2 22\n2 put 2 23\n2 put 2 24\n2 put 2 25\n2 put 2 26\n2 put 2 27\n2 put 2 28\n2 put 2 29\n2 put 2 30\n2 put 2 31\n2 put 2 32\n2 put 2 33\n2 put 2 34\n2 put 2 35\n2 put 2 36\n2 put 2 37\n2 put 2 38\n4 begin\n4 get 2\n4 begin\n4 put 5 1\n4 put 5 2\n4 put 5 3\n4 put 5 4\n4 put 5 5\n4 put 5 6\n4 put 5 7\n4 put 5 8\n4 put 5 9\n4 put 5 10\n4 put 5 11\n4 put 5 12\n4 put 5 13\n4 put 5 14\n4 put 5 15\n4 put 5 16\n4 put 5 17\n4 put 5 18\n4 put 5 19\n4 put 5 20\n4 put 5 21\n4 put 5 22\n4 put 5 23\n4 put 5 24\n4 put 5 25\n4 put 5 26\n4 put 5 27\n4 put 5 28\n4 put 5 29\n4 put 5 30\n4 put 5 31\n4 put 5 32\n4 put 5 33\n4 put 5 34\n4 put 5 35\n4 put 5 36\n4 put 5 37\n4 put 5 38\n2 commit\n4 commit\n3 begin\n3 put 1 12\n3 abort\n1 begin\n1 get 2\n1 commit\n3 begin\n3 put 6 6\n3 commit\nsync\n2 begin\n2 put 1 13\n2 commit\n2 begin\n2 commit\n",
    lines: "open 1 winners 0 undone 0\n1 begun 1.1\n1 was none\n1 committed 1.1 at 2\n3 begun 3.1\n3 value 11\n3 was none\n3 committed 3.1 at 4\n2 begun 2.1\n2 was none\n2 was 1\n2 was 2\n2 was 3\n2 was 4\n2 was 5\n2 was 6\n2 was 7\n2 was 8\n2 was 9\n2 was 10\n2 was 11\n2 was 12\n2 was 13\n2 was 14\n2 was 15\n2 was 16\n2 was 17\n2 was 18\n2 was 19\n2 was 20\n2 was 21\n2 was 22\n2 was 23\n2 was 24\n2 was 25\n2 was 26\n2 was 27\n2 was 28\n2 was 29\n2 was 30\n2 was 31\n2 was 32\n2 was 33\n2 was 34\n2 was 35\n2 was 36\n2 was 37\n4 begun 4.1\n4 conflict 2\n4 aborted 4.1\n4 begun 4.2\n4 was none\n4 was 1\n4 was 2\n4 was 3\n4 was 4\n4 was 5\n4 was 6\n4 was 7\n4 was 8\n4 was 9\n4 was 10\n4 was 11\n4 was 12\n4 was 13\n4 was 14\n4 was 15\n4 was 16\n4 was 17\n4 was 18\n4 was 19\n4 was 20\n4 was 21\n4 was 22\n4 was 23\n4 was 24\n4 was 25\n4 was 26\n4 was 27\n4 was 28\n4 was 29\n4 was 30\n4 was 31\n4 was 32\n4 was 33\n4 was 34\n4 was 35\n4 was 36\n4 was 37\n2 committed 2.1 at 42\n4 committed 4.2 at 80\n3 begun 3.2\n3 was 11\n3 aborted 3.2\n1 begun 1.2\n1 value 38\n1 committed 1.2 at 82\n1 durable 1.1\n3 begun 3.3\n3 was none\n3 committed 3.3 at 84\nsynced 84\n3 durable 3.1\n2 durable 2.1\n4 durable 4.2\n1 durable 1.2\n3 durable 3.3\n2 begun 2.2\n2 was 11\n2 committed 2.2 at 86\n2 begun 2.3\n2 committed 2.3 at 87\n2 durable 2.2\n2 durable 2.3\n",
    next: FOUR_GETS,
    finds: &[
        find!(
            "open 1 winners 0 undone 0\n1 begun 1.1\n1 none\n1 none\n1 none\n1 none\n1 none\n",
            0,
            0,
            1
        ),
        find!(
            "open 2 winners 0 undone 0\n1 begun 1.1\n1 none\n1 none\n1 none\n1 none\n1 none\n",
            0,
            0,
            98
        ),
        find!(
            "open 2 winners 0 undone 1\n1 begun 1.1\n1 none\n1 none\n1 none\n1 none\n1 none\n",
            0,
            46,
            98
        ),
        find!(
            "open 2 winners 0 undone 2\n1 begun 1.1\n1 none\n1 none\n1 none\n1 none\n1 none\n",
            0,
            88,
            98
        ),
        find!(
            "open 2 winners 1 undone 1\n1 begun 1.1\n1 value 11\n1 none\n1 none\n1 none\n1 none\n",
            1,
            96,
            103
        ),
        find!(
            "open 2 winners 1 undone 2\n1 begun 1.1\n1 value 11\n1 none\n1 none\n1 none\n1 none\n",
            1,
            96,
            103
        ),
        find!(
            "open 2 winners 1 undone 3\n1 begun 1.1\n1 value 11\n1 none\n1 none\n1 none\n1 none\n",
            1,
            96,
            103
        ),
        find!(
            "open 2 winners 1 undone 4\n1 begun 1.1\n1 value 11\n1 none\n1 none\n1 none\n1 none\n",
            1,
            100,
            103
        ),
        find!(
            "open 2 winners 1 undone 5\n1 begun 1.1\n1 value 11\n1 none\n1 none\n1 none\n1 none\n",
            1,
            100,
            103
        ),
        find!(
            "open 2 winners 2 undone 5\n1 begun 1.1\n1 value 11\n1 none\n1 value 44\n1 none\n1 none\n",
            2,
            100,
            104
        ),
        find!(
            "open 2 winners 3 undone 4\n1 begun 1.1\n1 value 11\n1 value 38\n1 value 44\n1 none\n1 none\n",
            3,
            101,
            105
        ),
        find!(
            "open 2 winners 4 undone 3\n1 begun 1.1\n1 value 11\n1 value 38\n1 value 44\n1 value 38\n1 none\n",
            4,
            101,
            106
        ),
        find!(
            "open 2 winners 6 undone 0\n1 begun 1.1\n1 value 11\n1 value 38\n1 value 44\n1 value 38\n1 value 6\n",
            5,
            101,
            113
        ),
        find!(
            "open 2 winners 8 undone 0\n1 begun 1.1\n1 value 13\n1 value 38\n1 value 44\n1 value 38\n1 value 6\n",
            6,
            111,
            MANY
        ),
    ],
    sweeps: &[
        sweep!(
            "FOUR, no bytes",
            NoBytes,
            1,
            [47, 100, 0, 0, 6, 0, 0, 3, 2, 0, 0, 2, 12, 4]
        ),
        sweep!(
            "FOUR, all bytes",
            AllBytes,
            1,
            [46, 48, 43, 9, 0, 0, 6, 0, 0, 3, 2, 2, 12, 5]
        ),
        sweep!(
            "FOUR, halves",
            FirstHalf,
            1,
            [47, 100, 0, 0, 6, 0, 0, 3, 2, 0, 0, 2, 12, 4]
        ),
        sweep!(
            "FOUR, zeros",
            Zeros,
            1,
            [47, 100, 0, 0, 6, 0, 0, 3, 2, 0, 0, 2, 12, 4]
        ),
    ],
    aparts: &[
        apart!(
            "FOUR, all bytes of some logs",
            NoBytes,
            AllBytes,
            LOGS,
            [
                1488, 2284, 840, 76, 48, 96, 48, 28, 88, 20, 24, 64, 384, 144
            ]
        ),
        apart!(
            "FOUR, halves of some logs",
            AllBytes,
            FirstHalf,
            LOGS,
            [
                1488, 2284, 840, 76, 48, 96, 48, 28, 88, 20, 24, 64, 384, 144
            ]
        ),
    ],
    failures: &[
        faults_apart!(
            "FOUR, masters",
            0,
            7,
            101,
            LOGS,
            [128, 32, 0, 0, 0, 0, 0, 0, 0, 0, 0, 32, 32, 0]
        ),
        faults!(
            "FOUR, pages",
            1,
            34,
            0,
            [136, 0, 0, 0, 0, 0, 0, 0, 0, 0, 0, 0, 0, 0]
        ),
        faults_apart!(
            "FOUR, the first log",
            2,
            4,
            96,
            LOGS,
            [64, 8, 16, 8, 8, 16, 8, 0, 0, 0, 0, 0, 0, 0]
        ),
        faults_apart!(
            "FOUR, the second log",
            3,
            7,
            111,
            LOGS,
            [64, 16, 16, 0, 0, 0, 0, 16, 32, 0, 16, 0, 32, 32]
        ),
        faults_apart!(
            "FOUR, the third log",
            4,
            4,
            100,
            LOGS,
            [64, 0, 0, 0, 8, 16, 8, 8, 16, 8, 0, 0, 0, 0]
        ),
        faults_apart!(
            "FOUR, the fourth log",
            5,
            5,
            101,
            LOGS,
            [64, 8, 16, 8, 0, 0, 0, 0, 32, 0, 0, 32, 0, 0]
        ),
    ],
};

/// Its dumps, behind their first lines.
pub(crate) static FOUR_MAPS: [&str; 7] = [
    "end\n",
    "pair 1 11\nend\n",
    "pair 1 11\npair 4 44\nend\n",
    "pair 1 11\npair 2 38\npair 4 44\nend\n",
    "pair 1 11\npair 2 38\npair 4 44\npair 5 38\nend\n",
    "pair 1 11\npair 2 38\npair 4 44\npair 5 38\npair 6 6\nend\n",
    "pair 1 13\npair 2 38\npair 4 44\npair 5 38\npair 6 6\nend\n",
];

/// An opening behind four sessions, as they stand behind the third log's flush, with the tails of the second log and the fourth. Each log has one block, so there are five
/// calls more than on a new disk: a read of each block, and the write of the page that has changed. There are 52, and seven lines.
pub(crate) static FOUR_OPENING: Script = Script {
    command: &["lean", "run"],
    text: FOUR_GETS,
    lines: "open 2 winners 2 undone 5\n1 begun 1.1\n1 value 11\n1 none\n1 value 44\n1 none\n1 none\n",
    next: FOUR_GETS,
    finds: &[
        find!(
            "open 2 winners 2 undone 5\n1 begun 1.1\n1 value 11\n1 none\n1 value 44\n1 none\n1 none\n",
            0,
            0,
            1
        ),
        find!(
            "open 3 winners 0 undone 0\n1 begun 1.1\n1 value 11\n1 none\n1 value 44\n1 none\n1 none\n",
            0,
            0,
            MANY
        ),
        find!(
            "open 5 winners 0 undone 0\n1 begun 1.1\n1 value 11\n1 none\n1 value 44\n1 none\n1 none\n",
            0,
            0,
            MANY
        ),
    ],
    sweeps: &[
        sweep!("four, all bytes", AllBytes, 1, [51, 9, 0]),
        sweep!("four, three times no bytes", NoBytes, 3, [52, 0, 8]),
        sweep!("four, three times all bytes", AllBytes, 3, [51, 0, 9]),
        sweep!("four, three times halves", FirstHalf, 3, [52, 0, 8]),
        sweep!("four, three times zeros", Zeros, 3, [52, 0, 8]),
    ],
    aparts: &[
        apart!(
            "four, masters or pages",
            NoBytes,
            AllBytes,
            &[0, 1],
            [206, 34, 0]
        ),
        apart!(
            "four, halves of masters or pages",
            AllBytes,
            FirstHalf,
            &[0, 1],
            [206, 34, 0]
        ),
    ],
    failures: &[
        stops!("four, masters, no bytes", 0, 5, NoBytes, [119, 0, 0]),
        stops!("four, masters, all bytes", 0, 5, AllBytes, [114, 5, 0]),
        stops!("four, pages, all bytes", 1, 35, AllBytes, [957, 0, 0]),
        stops!("four, pages, halves", 1, 35, FirstHalf, [957, 0, 0]),
        stops!("four, the first log", 2, 3, AllBytes, [94, 0, 0]),
        stops!("four, the second log", 3, 3, AllBytes, [99, 0, 0]),
        stops!("four, the third log", 4, 3, AllBytes, [104, 0, 0]),
        stops!("four, the fourth log", 5, 3, AllBytes, [109, 0, 0]),
    ],
};

/// Its dumps, behind their first lines.
pub(crate) static FOUR_OPENED_MAPS: [&str; 1] = ["pair 1 11\npair 4 44\nend\n"];
