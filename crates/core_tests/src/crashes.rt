// All that a crash may leave after a run.
use crate::runs::Run;
use plain_core::{Core, Entry, Kind};
use std::alloc::{AllocError, Global};

/// What each log and then each page may be left with: of each log, how many records from its head on; of each page, which of the
/// run's versions. Of each log each prefix that holds all up to its flushed number. Of each page all contents that it has had,
/// with a number up to the least flushed one, which hold its changes up to the greatest cut.
pub fn choices_of(alloc: Global, run: &Run) -> Result<Vec<Vec<usize>>, AllocError> {
    let mut choices = Vec::new(alloc);
    for log in 1..=run.core.settings.workers {
        choices.push(prefixes(alloc, &run.core, log)?)?;
    }
    for page in 0..run.core.settings.pages {
        choices.push(versions(alloc, run, page)?)?;
    }
    Ok(choices)
}

fn prefixes(alloc: Global, core: &Core, log: u64) -> Result<Vec<usize>, AllocError> {
    let head = *core.heads.get(log);
    let flushed = *core.flushed.get(log);
    let mut prefixes = Vec::new(alloc);
    let mut all: usize = 0;
    for entry in core.entries.iter().rev() {
        if is_in_log(entry, log, head) {
            if flushed < entry.number {
                prefixes.push(all)?;
            }
            all = all.saturating_add(1);
        }
    }
    prefixes.push(all)?;
    Ok(prefixes)
}

/// It is a record of the log behind its head.
pub fn is_in_log(entry: &Entry, log: u64, head: u64) -> bool {
    entry.kind != Kind::Read && entry.log == log && head < entry.number
}

fn versions(alloc: Global, run: &Run, page: u64) -> Result<Vec<usize>, AllocError> {
    let mut least = 0;
    for entry in &run.core.entries {
        for one in &entry.refs {
            if one.page == page && entry.number <= run.core.cut {
                least = entry.number.max(least);
            }
        }
    }
    let mut versions = Vec::new(alloc);
    for (place, version) in run.versions.iter().enumerate() {
        let number = version.made.number;
        if version.page == page && least <= number && number <= run.core.flushed_by_all() {
            versions.push(place)?;
        }
    }
    Ok(versions)
}

/// The saved contents of each page are among them.
pub fn admit_saved(run: &Run, choices: &[Vec<usize>]) -> bool {
    let pages = choices.iter().skip(run.core.settings.workers as usize);
    for (page, versions) in pages.enumerate() {
        let number = run.core.saved.get(page as u64).number;
        let mut is_admitted = false;
        for place in versions {
            is_admitted = is_admitted || run.has_number(*place, number);
        }
        if !is_admitted {
            return false;
        }
    }
    true
}

/// How many crashes there are.
pub fn count_of(choices: &[Vec<usize>]) -> usize {
    let mut count: usize = 1;
    for some in choices {
        count = count.saturating_mul(some.len());
    }
    count
}

/// The crash with a number below the count: one of each, by the digits of the number.
pub fn crash_of(
    alloc: Global,
    choices: &[Vec<usize>],
    number: usize,
) -> Result<Vec<usize>, AllocError> {
    let mut crash = Vec::new(alloc);
    let mut left = number;
    for some in choices {
        if !some.is_empty() {
            crash.push(some[left % some.len()])?;
            left /= some.len();
        }
    }
    Ok(crash)
}
