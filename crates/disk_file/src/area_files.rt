// The files of the areas, by area.
ghost use Rattle.std.specs.Prelude.{◌≤◌, ◌<◌, length, IfOk, OnOk, vec_len};

use crate::area_file::AreaFile;
use std::alloc::Global;
use std::fs::File;
use std::io::ErrorKind;
use std::rt::Files;
use std::{io, mem};

/// The master, the pages and 64 logs.
const AREAS: u32 = 66;

#[derive(Drop)]
pub struct AreaFiles {
    files: Vec<AreaFile>,
}

impl AreaFiles {
    pub fn new(alloc: Global) -> AreaFiles {
        AreaFiles {
            files: Vec::new(alloc),
        }
    }

    pub fn read<R: Files<File = File>>(
        &mut self,
        rt: &R,
        area: u32,
        at: u64,
        into: &mut [u8],
    ) -> io::Result<usize>
        ensures { IfOk result (λ count. count ≤ length into.old) }
    {
        make_room(&mut self.files, area)?;
        self.files[area as usize].read(rt, area, at, into)
    }

    pub fn write<R: Files<File = File>>(
        &mut self,
        rt: &R,
        area: u32,
        at: u64,
        bytes: &[u8],
    ) -> io::Result<()> {
        make_room(&mut self.files, area)?;
        self.files[area as usize].write(rt, area, at, bytes)
    }

    pub fn sync<R: Files<File = File>>(&mut self, rt: &R, area: u32) -> io::Result<()> {
        make_room(&mut self.files, area)?;
        self.files[area as usize].sync(rt, area)
    }

    /// Hands the area's file out, open if it was.
    pub fn take(&mut self, area: u32) -> AreaFile {
        match self.files.get_mut(area as usize) {
            Some(file) => mem::replace(file, AreaFile::new()),
            None => AreaFile::new(),
        }
    }

    /// Takes it back. Where memory is refused it is closed, and the next call opens it again.
    pub fn put_back(&mut self, area: u32, file: AreaFile) {
        let Ok(()) = make_room(&mut self.files, area) else {
            return;
        };
        self.files[area as usize] = file;
    }
}

fn make_room(files: &mut Vec<AreaFile>, area: u32) -> io::Result<()>
    ensures { OnOk result (area < vec_len files.new) }
{
    if area >= AREAS {
        return Err(io::Error::from(ErrorKind::InvalidInput));
    }
    while files.len() <= area as usize {
        files.push(AreaFile::new())?;
    }
    Ok(())
}
