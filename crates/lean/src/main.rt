//! The program `lean`: standard input and output, and files in the current folder.
#![tactic(auto)]

use host_disk::HostDisk;
use lean_shell::{Ended, Gate, StdSink, StdSource, run};
use std::process::ExitCode;
use std::rt::{Env, Files};
use std::{env, fs, io};

// Holds no worker.
struct Open;

impl Gate for Open {
    fn pass(&self, _: u32, _: u64) {}

    fn answered(&self, _: u32, _: u64) {}
}

// The words of the command line; a word that is no UTF-8 makes them none.
fn words<R: Env + AllocGlobal>(rt: &R) -> io::Result<Vec<String>> {
    match env::args(rt) {
        Ok(args) => Ok(args.collect(rt.alloc())?),
        Err(e) if e.kind() == io::ErrorKind::InvalidData => Ok(Vec::new(rt.alloc())),
        Err(e) => Err(e),
    }
}

// Where a standard stream is closed, the next file that is opened takes its number, and what is printed would go there.
// So these come first: standard output is then one that can't be written.
fn hold_streams<R: Files>(rt: &R) -> [Option<R::File>; 3] {
    let held = || fs::open(rt, "/dev/null").ok();
    [held(), held(), held()]
}

fn main(rt: HostRuntime) -> ExitCode {
    let _streams = hold_streams(&rt);
    let alloc = rt.alloc();
    let Ok(words) = words(&rt) else {
        return ExitCode::from(8);
    };
    let mut source = StdSource::new(rt.stdin());
    let mut sink = StdSink::new(rt.stdout());
    let disk = HostDisk::new(&rt, alloc);
    let Ended {
        status,
        disk: _disk,
        front: _,
    } = run(&rt, alloc, &words, &mut source, &mut sink, disk, &Open);
    ExitCode::from(status)
}
