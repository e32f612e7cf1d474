// A disk as lines of words spell it.
use anyhow::{Context, Result, bail};
use std::alloc::{AllocError, Global};

/// The size of a block of a log.
const BLOCK: usize = 2048;

/// The run of a log: the number of its first block, and how many blocks it has.
#[derive(Clone, Copy)]
pub struct Run {
    pub log: u32,
    head: u64,
    pub count: u32,
}

/// An area: its first bytes, and its length. What follows its first bytes is zeros.
#[derive(Drop)]
struct Area {
    length: usize,
    bytes: Vec<u8>,
}

/// A disk, whose logs have so many blocks each.
#[derive(Drop)]
pub struct DiskImage {
    pub name: String,
    blocks: u32,
    pub runs: Vec<Run>,
    areas: Vec<Area>,
}

impl DiskImage {
    /// A disk without areas.
    pub fn new(alloc: Global) -> DiskImage {
        DiskImage {
            name: String::new(alloc),
            blocks: 0,
            runs: Vec::new(alloc),
            areas: Vec::new(alloc),
        }
    }

    /// Takes the next line of a file of images: whether the image ends with it.
    pub fn take_line(&mut self, alloc: Global, line: &str) -> Result<bool> {
        let words: Vec<&str> = line.split_whitespace().collect(alloc)?;
        match words.as_slice() {
            ["image", name, _, blocks, _] => {
                *self = DiskImage::new(alloc);
                self.name.push_str(name)?;
                self.blocks = blocks.parse()?;
            }
            ["log", log, head, count] => self.runs.push(Run {
                log: log.parse()?,
                head: head.parse()?,
                count: count.parse()?,
            })?,
            ["area", _, length] => self.areas.push(Area {
                length: length.parse()?,
                bytes: Vec::new(alloc),
            })?,
            ["at", offset, parts @ ..] => {
                let area = self.areas.last_mut().context("bytes of no area")?;
                put_parts(alloc, &mut area.bytes, offset.parse()?, parts)?;
            }
            ["end"] => return Ok(true),
            _ => bail!("no line of an image: {line}"),
        }
        Ok(false)
    }

    /// The bytes of all areas.
    pub fn areas(&self, alloc: Global) -> Result<Vec<Vec<u8>>, AllocError> {
        let mut areas = Vec::with_capacity(alloc, self.areas.len())?;
        for area in &self.areas {
            let mut bytes = area.bytes.to_vec(alloc)?;
            bytes.resize(area.length, 0)?;
            areas.push(bytes)?;
        }
        Ok(areas)
    }

    /// The same, where of this run only so many blocks are left.
    pub fn areas_cut(&self, alloc: Global, run: Run, cut: u32) -> Result<Vec<Vec<u8>>, AllocError> {
        let mut areas = self.areas(alloc)?;
        if let Some(bytes) = areas.get_mut(run.log as usize + 1) {
            cut_run(bytes, run.head, self.blocks, cut);
        }
        Ok(areas)
    }
}

// Puts zeros and bytes behind one another, from an offset on which is not below those that were put before.
fn put_parts(alloc: Global, bytes: &mut Vec<u8>, offset: usize, parts: &[&str]) -> Result<()> {
    if offset < bytes.len() {
        bail!("an offset that falls: {offset}");
    }
    bytes.resize(offset, 0)?;
    let mut are_zeros = true;
    for part in parts {
        if are_zeros {
            let zeros: usize = part.parse()?;
            bytes.resize(bytes.len().saturating_add(zeros), 0)?;
        } else {
            let part = hex::decode(alloc, *part)?;
            bytes.extend_from_slice(&part)?;
        }
        are_zeros = !are_zeros;
    }
    if !are_zeros {
        bail!("zeros without bytes");
    }
    Ok(())
}

// Only so many blocks of the run are left in the log's area, and no others.
fn cut_run(bytes: &mut [u8], head: u64, blocks: u32, cut: u32) {
    for block in cut..blocks {
        let place = (head % u64::from(blocks) + u64::from(block)) % u64::from(blocks);
        if let Some(block) = bytes.chunks_mut(BLOCK).nth(place as usize) {
            block.fill(0);
        }
    }
}
