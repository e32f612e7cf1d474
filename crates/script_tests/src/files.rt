// The files themselves, beside the disk, in the current folder.
use crate::cases::expect;
use crate::{file_disks, programs};
use std::fs;

/// A file: its name, its size, and what stands in it from a place on.
#[derive(Drop)]
pub struct FileRow(pub &'static str, pub usize, pub usize, pub &'static [u8]);

/// Whether it is there and is so.
pub fn is_so(rt: &HostRuntime, row: &FileRow) -> bool {
    let FileRow(name, size, at, bytes) = row;
    match fs::read(rt, *name) {
        Ok(all) => {
            let rest = all.get(*at..).unwrap_or(&[]);
            all.len() == *size && rest.starts_with(bytes)
        }
        Err(_) => false,
    }
}

/// Whether it is told that there is a file of this name, or that there is none.
pub fn is_there(rt: &HostRuntime, name: &str, wanted: bool) -> bool {
    match fs::exists(rt, name) {
        Ok(is_there) => is_there == wanted,
        Err(_) => false,
    }
}

fn are_removed(rt: &HostRuntime) -> bool {
    for name in ["lean.master", "lean.pages", "lean.log.1"] {
        if fs::remove_file(rt, name).is_err() {
            return false;
        }
    }
    true
}

// One test, since its parts use files of the same names in one folder.
#[test]
fn files_hold_what_the_disk_and_the_program_wrote(rt: HostRuntime) {
    for case in &file_disks::CASES {
        expect(&rt, case.name, Ok(file_disks::all_go(&rt, case)));
    }
    for command in &programs::COMMANDS {
        expect(&rt, command.name, programs::is_met(&rt, &rt, command));
    }
    expect(&rt, "the files are removed", Ok(are_removed(&rt)));
}
