//! Recovers the disks of images.txt, whole and with each log cut short, and prints what came of each.
#![tactic(auto)]

mod bodies;
mod case;
mod comparison;
mod engine;
mod image;
mod opening;
mod plain;

use case::line_of;
use image::DiskImage;
use std::alloc::{AllocError, Global};
use std::fs;

// The lines of an image: whole, as cut 0 of log 0, and with each run cut short.
fn lines_of(alloc: Global, image: &DiskImage) -> Result<String, AllocError> {
    let mut lines = String::new(alloc);
    let whole = line_of(alloc, image.areas(alloc)?)?;
    put_line(&mut lines, &image.name, 0, 0, &whole)?;
    for run in &image.runs {
        for cut in 0..run.count {
            let line = line_of(alloc, image.areas_cut(alloc, *run, cut)?)?;
            put_line(&mut lines, &image.name, run.log, cut, &line)?;
        }
    }
    Ok(lines)
}

fn put_line(
    lines: &mut String,
    name: &str,
    log: u32,
    cut: u32,
    line: &str,
) -> Result<(), AllocError> {
    writeln!(lines, "{name} {log} {cut} {line}")
}

fn main(rt: HostRuntime) -> anyhow::Result<()> {
    let alloc = rt.alloc();
    let text = fs::read_to_string(&rt, "images.txt")?;
    let mut image = DiskImage::new(alloc);
    for line in text.lines() {
        if image.take_line(alloc, line)? {
            print!(rt; "{}", lines_of(alloc, &image)?)?;
        }
    }
    Ok(())
}
