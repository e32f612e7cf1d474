// The file of one area. It is opened at the first call that finds it there, or makes it, and stays open.
ghost use Rattle.std.specs.Prelude.{◌≤◌, length, IfOk};

use arrayvec::ArrayString;
use std::fmt::Write;
use std::fs::{File, OpenOptions};
use std::io;
use std::io::ErrorKind;
use std::os::unix::fs::FileExt;
use std::rt::Files;

/// The longest name of a file: `lean.log.` and a number.
const NAME_SIZE: usize = 20;

#[derive(Drop)]
pub struct AreaFile {
    file: Option<File>,
    // Its name is in the folder as it was synced.
    is_named: bool,
}

impl AreaFile {
    pub fn new() -> AreaFile {
        AreaFile {
            file: None,
            is_named: false,
        }
    }

    /// Reads from place `at` on, and answers how many bytes there were. A file that is not there is
    /// empty, and is not made.
    pub fn read<R: Files<File = File>>(
        &mut self,
        rt: &R,
        area: u32,
        at: u64,
        into: &mut [u8],
    ) -> io::Result<usize>
        ensures { IfOk result (λ count. count ≤ length into.old) }
    {
        self.open_if_there(rt, area)?;
        match &self.file {
            None => Ok(0),
            Some(file) => read_from(file, at, into),
        }
    }

    /// Writes from place `at` on. A file that is not there is made.
    pub fn write<R: Files<File = File>>(
        &mut self,
        rt: &R,
        area: u32,
        at: u64,
        bytes: &[u8],
    ) -> io::Result<()> {
        match &self.file {
            Some(file) => file.write_all_at(bytes, at),
            None => {
                let file = self.file.insert(open(rt, area, true)?);
                file.write_all_at(bytes, at)
            }
        }
    }

    /// What was written outlives a crash. The first sync is one of the folder too, where the file's name
    /// is. A file that is not there is not made.
    pub fn sync<R: Files<File = File>>(&mut self, rt: &R, area: u32) -> io::Result<()> {
        self.open_if_there(rt, area)?;
        let Some(file) = &self.file else {
            return Ok(());
        };
        if self.is_named {
            return file.sync_data();
        }
        file.sync_all()?;
        File::open(rt, ".")?.sync_all()?;
        self.is_named = true;
        Ok(())
    }

    fn open_if_there<R: Files<File = File>>(&mut self, rt: &R, area: u32) -> io::Result<()> {
        if self.file.is_some() {
            return Ok(());
        }
        match open(rt, area, false) {
            Ok(file) => {
                self.file = Some(file);
                Ok(())
            }
            Err(error) if error.kind() == ErrorKind::NotFound => Ok(()),
            Err(error) => Err(error),
        }
    }
}

// Reads until there is no room or the file ends.
fn read_from(file: &File, at: u64, into: &mut [u8]) -> io::Result<usize>
    ensures { IfOk result (λ count. count ≤ length into.old) }
{
    let mut count = 0;
    for _ in 0..u64::MAX {
        if count >= into.len() {
            break;
        }
        match file.read_at(&mut into[count..], at.saturating_add(count as u64)) {
            Ok(0) => break,
            Ok(more) => count += more,
            Err(error) if error.kind() == ErrorKind::Interrupted => {}
            Err(error) => return Err(error),
        }
    }
    Ok(count)
}

fn open<R: Files<File = File>>(rt: &R, area: u32, makes: bool) -> io::Result<File> {
    OpenOptions::new()
        .read(true)
        .write(true)
        .create(makes)
        .open(rt, name_of(area)?.as_str())
}

fn name_of(area: u32) -> io::Result<ArrayString<NAME_SIZE>> {
    let mut name = ArrayString::new();
    match area {
        0 => write!(name, "lean.master")?,
        1 => write!(name, "lean.pages")?,
        _ => write!(name, "lean.log.{}", area - 1)?,
    }
    Ok(name)
}
