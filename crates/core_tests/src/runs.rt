// The run of a list, and all contents that its pages have had.
use crate::expectations::List;
use crate::maps::map_of_leaves;
use crate::openings::opened;
use crate::steps::event_of;
use plain_core::{Core, Page, Refusal};
use plain_images::Pair;
use std::alloc::{AllocError, Global};

/// The map at first, the last state, the contents that pages have had, the oldest first, and the place of the first event
/// that was answered otherwise than is written.
#[derive(Drop)]
pub struct Run {
    pub first: Vec<Pair>,
    pub core: Core,
    pub versions: Vec<Version>,
    pub wrong: Option<usize>,
}

/// Contents that a page has had.
#[derive(Drop)]
pub struct Version {
    pub page: u64,
    pub made: Page,
}

/// The run of a list's events.
pub fn run_of(alloc: Global, list: &List) -> Result<Run, Refusal> {
    let mut core = opened(alloc, list.opening)?;
    let first = map_of_leaves(alloc, &core)?;
    let mut versions = Vec::new(alloc);
    note(alloc, &core, &mut versions)?;
    let mut wrong = None;
    for (place, (step, is_met)) in list.steps.iter().enumerate() {
        let event = event_of(alloc, *step)?;
        if core.step(alloc, &event)? != *is_met && wrong.is_none() {
            wrong = Some(place);
        }
        note(alloc, &core, &mut versions)?;
    }
    Ok(Run {
        first,
        core,
        versions,
        wrong,
    })
}

// Pages that have other contents than ever before are noted: each change has a number of its own.
fn note(alloc: Global, core: &Core, versions: &mut Vec<Version>) -> Result<(), AllocError> {
    for place in 0..core.settings.pages {
        let page = core.pages.get(place);
        let mut is_new = true;
        for version in versions.iter() {
            if version.page == place && version.made.number == page.number {
                is_new = false;
            }
        }
        if is_new {
            versions.push(Version {
                page: place,
                made: page.copy(alloc)?,
            })?;
        }
    }
    Ok(())
}

impl Run {
    /// The contents at a place have this number.
    pub fn has_number(&self, place: usize, number: u64) -> bool {
        match self.versions.get(place) {
            Some(version) => version.made.number == number,
            None => false,
        }
    }
}
