// The program's one call over real files. Seals were computed by Python.
use crate::commands::{Open, words_of};
use crate::files::{FileRow, is_so, is_there};
use host_disk::HostDisk;
use lean_shell::{Ended, MemSink, MemSource, run};
use std::alloc::{AllocError, Global};
use std::sync::Wait;
use std::thread::Threads;
use std::{fs, io};

/// A command with its script, what it prints, and the files that it leaves.
pub struct Command {
    pub name: &'static str,
    words: &'static str,
    script: &'static [u8],
    status: u8,
    printed: &'static [u8],
    files: &'static [FileRow],
    absent: &'static [&'static str],
}

/// One after the other, from an empty folder on.
pub static COMMANDS: [Command; 4] = [
    Command {
        name: "a format",
        words: "lean format --workers 1 --pages 16 --blocks 64",
        script: b"",
        status: 0,
        printed: b"formatted 1 16 64\n",
        files: &[
            // The first master in slot 0.
            FileRow(
                "lean.master",
                1024,
                1008,
                &[
                    79, 87, 210, 244, 236, 251, 97, 254, 91, 105, 225, 125, 41, 116, 104, 134,
                ],
            ),
            // Page 0 in its slot 0.
            FileRow(
                "lean.pages",
                32768,
                1008,
                &[
                    70, 195, 208, 9, 61, 252, 124, 71, 33, 181, 53, 161, 93, 140, 52, 243,
                ],
            ),
        ],
        absent: &["lean.log.1"],
    },
    Command {
        name: "a run that puts",
        words: "lean run",
        script: b"1 begin\n1 put 5 7\n1 commit\n",
        status: 0,
        printed: b"open 1 winners 0 undone 0\n1 begun 1.1\n1 was none\n1 committed 1.1 at 2\n1 durable 1.1\n",
        files: &[
            // The second master in slot 1.
            FileRow(
                "lean.master",
                2048,
                2032,
                &[
                    4, 150, 113, 191, 217, 93, 225, 81, 85, 138, 160, 255, 210, 23, 90, 61,
                ],
            ),
            FileRow(
                "lean.pages",
                32768,
                1008,
                &[
                    70, 195, 208, 9, 61, 252, 124, 71, 33, 181, 53, 161, 93, 140, 52, 243,
                ],
            ),
            // The block of the commit.
            FileRow(
                "lean.log.1",
                2048,
                2032,
                &[
                    102, 226, 156, 186, 148, 31, 161, 121, 19, 173, 224, 181, 88, 18, 40, 45,
                ],
            ),
        ],
        absent: &["lean.log.2"],
    },
    Command {
        name: "a run that gets",
        words: "lean run",
        script: b"1 begin\n1 get 5\n",
        status: 0,
        printed: b"open 2 winners 1 undone 0\n1 begun 1.1\n1 value 7\n",
        files: &[
            // The third master in slot 0.
            FileRow(
                "lean.master",
                2048,
                1008,
                &[
                    73, 241, 178, 83, 188, 119, 55, 108, 155, 20, 121, 38, 182, 80, 42, 228,
                ],
            ),
            // Page 0 with key 5, in its slot 1.
            FileRow(
                "lean.pages",
                32768,
                2032,
                &[
                    147, 29, 131, 119, 109, 229, 5, 137, 170, 127, 179, 196, 173, 184, 9, 43,
                ],
            ),
            FileRow(
                "lean.log.1",
                2048,
                2032,
                &[
                    102, 226, 156, 186, 148, 31, 161, 121, 19, 173, 224, 181, 88, 18, 40, 45,
                ],
            ),
        ],
        absent: &["lean.log.2"],
    },
    Command {
        name: "a dump",
        words: "lean dump",
        script: b"1 begin\n",
        status: 0,
        printed: b"open 3 winners 0 undone 0\npair 5 7\nend\n",
        files: &[
            // The fourth master in slot 1.
            FileRow(
                "lean.master",
                2048,
                2032,
                &[
                    221, 77, 26, 193, 69, 79, 45, 54, 103, 235, 72, 78, 130, 106, 22, 47,
                ],
            ),
            FileRow(
                "lean.pages",
                32768,
                2032,
                &[
                    147, 29, 131, 119, 109, 229, 5, 137, 170, 127, 179, 196, 173, 184, 9, 43,
                ],
            ),
            FileRow(
                "lean.log.1",
                2048,
                2032,
                &[
                    102, 226, 156, 186, 148, 31, 161, 121, 19, 173, 224, 181, 88, 18, 40, 45,
                ],
            ),
        ],
        absent: &["lean.log.2"],
    },
];

// Whether it ends with its status and prints its lines.
fn runs<T: Threads + Wait + Sync>(
    threads: &T,
    rt: &HostRuntime,
    command: &Command,
) -> Result<bool, AllocError> {
    let alloc = rt.alloc();
    let words = words_of(alloc, command.words)?;
    let mut source = MemSource::new(alloc, command.script, 7)?;
    let mut sink = MemSink::new(alloc);
    let disk = HostDisk::new(rt, alloc);
    let Ended {
        status,
        disk: _disk,
        front: _front,
    } = run(threads, alloc, &words, &mut source, &mut sink, disk, &Open);
    Ok(status == command.status && sink.bytes() == command.printed)
}

// Whether its files are there and so, and no others.
fn leaves(rt: &HostRuntime, command: &Command) -> bool {
    for row in command.files {
        if !is_so(rt, row) {
            return false;
        }
    }
    for name in command.absent {
        if !is_there(rt, name, false) {
            return false;
        }
    }
    true
}

/// Whether it ends, prints and leaves its files as is written.
pub fn is_met<T: Threads + Wait + Sync>(
    threads: &T,
    rt: &HostRuntime,
    command: &Command,
) -> Result<bool, AllocError> {
    Ok(runs(threads, rt, command)? && leaves(rt, command))
}
