// Redo: which records count, and what they make of the pages.
ghost use Rattle.std.specs.Prelude.{◌≡◌, ◌++◌, Some, None, IfOk};
ghost use Rattle.image_model.specs.Entries as entries;
ghost use Rattle.image_model.specs.Redo as redoing;
ghost use Rattle.image_model.specs.Images as images;
ghost use Rattle.plain_images.specs.Records.{entry_of, entries_of, page_of};
ghost use Rattle.plain_images.specs.Images.{base_or, bases_of, pages_of, placing_of, placings_of, placed_by, counted, redone_of};

use crate::changes::{applied, copy_of, free};
use crate::records::{Page, Record};
use std::alloc::{AllocError, Global};

/// A page as a record left it.
#[derive(Debug, Drop)]
pub struct Placed {
    pub page: u64,
    pub made: Page,
}

/// Whether a record counted.
#[derive(Clone, Copy, Debug, PartialEq, Eq)]
pub struct Mark {
    pub log: u32,
    pub number: u64,
    pub counts: bool,
}

/// What redo leaves: the pages that records placed over the bases, and which records counted, the newest first.
#[derive(Debug, Drop)]
pub struct Redone {
    pub placed: Vec<Placed>,
    pub marks: Vec<Mark>,
}

/// Redo of the records, of which the last is to be redone first. A record counts if each of its pages stands at its prev, or at
/// the record's number or beyond; it changes those that stand at their prev.
///
/// # Errors
/// Where memory runs out.
pub fn redo(alloc: Global, bases: &[Option<Page>], records: &[Record]) -> Result<Redone, AllocError>
    ensures { IfOk result (λ d. redone_of bases.now d ≡ redoing.redo (bases_of bases.now) (entries_of records.now)) }
{
    let mut redone = Redone {
        placed: Vec::new(alloc),
        marks: Vec::new(alloc),
    };
    let mut left = records.len();
    while left > 0 {
        left -= 1;
        redone = redo_one(alloc, bases, redone, &records[left])?;
    }
    Ok(redone)
}

fn redo_one(
    alloc: Global,
    bases: &[Option<Page>],
    redone: Redone,
    entry: &Record,
) -> Result<Redone, AllocError>
    ensures { IfOk result (λ d. redone_of bases.now d ≡ redoing.redo_one (redone_of bases.now redone) (entry_of entry.now)) }
{
    let Redone { placed, mut marks } = redone;
    let counts = stands(bases, &placed, entry);
    marks.insert(
        0,
        Mark {
            log: entry.log,
            number: entry.number,
            counts,
        },
    )?;
    if counts {
        let newer = place(alloc, bases, &placed, entry)?;
        let placed = over(newer, placed)?;
        return Ok(Redone { placed, marks });
    }
    Ok(Redone { placed, marks })
}

// Each page stands at its prev, or at the record's number or beyond.
pub(crate) fn stands(bases: &[Option<Page>], placed: &[Placed], entry: &Record) -> bool
    ensures { result ≡ redoing.stands (pages_of bases.now placed.now) (entry_of entry.now) }
{
    for one in &entry.refs {
        let number = number_of(bases, placed, one.page);
        if number != one.prev && number < entry.number {
            return false;
        }
    }
    true
}

// Its pages that stand at their prev, as the record leaves them.
fn place(
    alloc: Global,
    bases: &[Option<Page>],
    placed: &[Placed],
    entry: &Record,
) -> Result<Vec<Placed>, AllocError>
    ensures { IfOk result (λ v. let r = entry_of entry.now in placings_of v.items ≡ placed_by (pages_of bases.now placed.now) r r.refs) }
{
    let mut newer = Vec::new(alloc);
    for one in &entry.refs {
        if number_of(bases, placed, one.page) == one.prev {
            newer.push(written(alloc, bases, placed, entry, one.page)?)?;
        }
    }
    Ok(newer)
}

fn written(
    alloc: Global,
    bases: &[Option<Page>],
    placed: &[Placed],
    entry: &Record,
    page: u64,
) -> Result<Placed, AllocError>
    ensures { IfOk result (λ x. placing_of x ≡ record { page = page; made = entries.written (entry_of entry.now) page (pages_of bases.now placed.now page) }) }
{
    let was = page_at(alloc, bases, placed, page)?;
    let node = applied(alloc, entry, page, &was.node)?;
    Ok(Placed {
        page,
        made: Page {
            number: entry.number,
            log: entry.log,
            node,
        },
    })
}

// The newer ones before the others.
fn over(mut newer: Vec<Placed>, mut placed: Vec<Placed>) -> Result<Vec<Placed>, AllocError>
    ensures { IfOk result (λ v. v.items ≡ newer.items ++ placed.items) }
{
    while let Some(one) = newer.pop() {
        placed.insert(0, one)?;
    }
    Ok(placed)
}

// The page's number.
pub(crate) fn number_of(bases: &[Option<Page>], placed: &[Placed], page: u64) -> u64
    ensures { let v = pages_of bases.now placed.now page in result ≡ v.gsn }
{
    for one in placed {
        if one.page == page {
            return one.made.number;
        }
    }
    base_number(bases, page)
}

// A page without a base has the number 0.
fn base_number(bases: &[Option<Page>], page: u64) -> u64
    ensures { let v = bases_of bases.now page in result ≡ v.gsn }
{
    match bases.get(page as usize) {
        Some(base) => number_or(base),
        None => 0,
    }
}

fn number_or(base: &Option<Page>) -> u64
    ensures { let v = images.page_or (base_or (Some base.now)) in result ≡ v.gsn }
{
    match base {
        Some(page) => page.number,
        None => 0,
    }
}

// A copy of the page.
pub(crate) fn page_at(
    alloc: Global,
    bases: &[Option<Page>],
    placed: &[Placed],
    page: u64,
) -> Result<Page, AllocError>
    ensures { IfOk result (λ v. page_of v ≡ pages_of bases.now placed.now page) }
{
    for one in placed {
        if one.page == page {
            return copy_page(alloc, &one.made);
        }
    }
    copy_base(alloc, bases, page)
}

// A page without a base is free.
fn copy_base(alloc: Global, bases: &[Option<Page>], page: u64) -> Result<Page, AllocError>
    ensures { IfOk result (λ v. page_of v ≡ bases_of bases.now page) }
{
    match bases.get(page as usize) {
        Some(base) => copy_or(alloc, base),
        None => Ok(no_page(alloc)),
    }
}

fn copy_or(alloc: Global, base: &Option<Page>) -> Result<Page, AllocError>
    ensures { IfOk result (λ v. page_of v ≡ images.page_or (base_or (Some base.now))) }
{
    match base {
        Some(page) => copy_page(alloc, page),
        None => Ok(no_page(alloc)),
    }
}

fn no_page(alloc: Global) -> Page
    ensures { page_of result ≡ images.page_or None }
{
    Page {
        number: 0,
        log: 0,
        node: free(alloc),
    }
}

fn copy_page(alloc: Global, page: &Page) -> Result<Page, AllocError>
    ensures { IfOk result (λ v. page_of v ≡ page_of page.now) }
{
    Ok(Page {
        number: page.number,
        log: page.log,
        node: copy_of(alloc, &page.node)?,
    })
}

// Whether the record of the log and the number counted.
pub(crate) fn counts(marks: &[Mark], log: u32, number: u64) -> bool
    ensures { result ≡ counted marks.now log number }
{
    for mark in marks {
        if log == mark.log && number == mark.number {
            return mark.counts;
        }
    }
    false
}
