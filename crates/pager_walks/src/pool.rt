// Where pages stand, by the rules.
use crate::counts::see;
use crate::nodes::{copy_of, number_of};
use crate::plain::Plain;
use plain_images::Node;
use std::alloc::{AllocError, Global};

/// Where a page stands.
#[derive(Clone, Copy, Debug, PartialEq, Eq)]
pub enum Place {
    Cold,
    Hot(u32),
    Cooling(u32),
}

/// Where it stands; its node, with the number of its last change; the node that was saved, with its number; and whether it was saved
/// since the last sync of the pages' area.
#[derive(Drop)]
pub struct Page {
    pub place: Place,
    pub number: u64,
    pub node: Node,
    pub saved: u64,
    pub base: Node,
    pub late: bool,
}

impl Plain {
    /// The page stands there, and the frame has this page.
    pub fn stand(&mut self, page: u32, place: Place, frame: u32, here: Option<u32>) {
        if let Some(it) = self.pages.get_mut(page as usize) {
            it.place = place;
        }
        if let Some(it) = self.frames.get_mut(frame as usize) {
            *it = here;
        }
    }

    pub fn place(&self, page: u32) -> Place {
        match self.pages.get(page as usize) {
            Some(it) => it.place,
            None => Place::Cold,
        }
    }

    pub fn is_hot(&self, page: u32) -> bool {
        matches!(self.place(page), Place::Hot(_))
    }

    pub fn page_in(&self, frame: usize) -> Option<u32> {
        self.frames.get(frame).copied().unwrap_or(None)
    }

    // The page that stands hot in a frame.
    fn hot_in(&self, frame: usize) -> Option<u32> {
        let page = self.page_in(frame)?;
        if self.is_hot(page) { Some(page) } else { None }
    }

    // From the page in a frame down to one with no hot child.
    fn candidate(&self, frame: usize) -> Option<u32> {
        let mut page = self.hot_in(frame)?;
        for _level in 0..8 {
            match self.hot_child(page) {
                None => return Some(page),
                Some(child) => page = child,
            }
        }
        None
    }

    // The first of those that it names.
    fn hot_child(&self, page: u32) -> Option<u32> {
        let node = self.node(page)?;
        if !node.live || node.level == 0 {
            return None;
        }
        for pair in &node.pairs {
            let child = number_of(pair.word);
            if self.is_hot(child) {
                return Some(child);
            }
        }
        None
    }

    // The page cools: it stands behind the others.
    fn cool(&mut self, page: u32) -> Result<(), AllocError> {
        if let Place::Hot(frame) = self.place(page) {
            self.stand(page, Place::Cooling(frame), frame, Some(page));
            self.queue.push(page)?;
        }
        Ok(())
    }

    // The hand goes on until a page has cooled that is not on the way; once round at most.
    fn turn(&mut self, way: &[u32]) -> Result<Option<u32>, AllocError> {
        let frames = self.frames.len();
        let start = if self.hand < frames { self.hand } else { 0 };
        for step in 0..frames {
            let at = start.saturating_add(step);
            let frame = if at < frames { at } else { at - frames };
            self.hand = frame.saturating_add(1);
            if let Some(page) = self.candidate(frame) {
                if page != 0 && !way.contains(&page) {
                    if self.hot_in(frame) != Some(page) {
                        see(&mut self.counts.deep);
                    }
                    self.cool(page)?;
                    return Ok(Some(page));
                }
            }
        }
        Ok(None)
    }

    // It may leave its frame.
    fn may_leave(&self, page: u32) -> bool {
        match self.pages.get(page as usize) {
            Some(it) => it.number <= self.flushed,
            None => false,
        }
    }

    // The first page of the queue that may leave, or one that is cooled for it.
    fn leaver(&mut self, way: &[u32]) -> Result<Option<u32>, AllocError> {
        for at in 0..self.queue.len() {
            let Some(page) = self.queue.get(at).copied() else {
                return Ok(None);
            };
            if self.may_leave(page) {
                if at > 0 {
                    see(&mut self.counts.passed);
                }
                return Ok(Some(page));
            }
        }
        for _turn in 0..self.frames.len() {
            let Some(page) = self.turn(way)? else {
                return Ok(None);
            };
            if self.may_leave(page) {
                see(&mut self.counts.chilled_for_one);
                return Ok(Some(page));
            }
        }
        Ok(None)
    }

    // The pages' area is synced.
    fn settle(&mut self) {
        see(&mut self.counts.settles);
        for it in &mut self.pages {
            it.late = false;
        }
    }

    // The page is saved. Where it was since the last sync of the area, that is made first.
    fn save(&mut self, alloc: Global, page: u32) -> Result<(), AllocError> {
        let late = match self.pages.get(page as usize) {
            Some(it) => it.late,
            None => false,
        };
        if late {
            self.settle();
        }
        if let Some(it) = self.pages.get_mut(page as usize) {
            it.base = copy_of(alloc, &it.node)?;
            it.saved = it.number;
            it.late = true;
        }
        see(&mut self.counts.saves);
        Ok(())
    }

    // The page leaves its frame, saved first where it is dirty.
    fn leave(&mut self, alloc: Global, page: u32) -> Result<(), AllocError> {
        let Place::Cooling(frame) = self.place(page) else {
            return Ok(());
        };
        match self.pages.get(page as usize) {
            Some(it) if it.saved < it.number => self.save(alloc, page)?,
            _ => see(&mut self.counts.clean),
        }
        self.queue.retain(|other| *other != page);
        self.stand(page, Place::Cold, frame, None);
        self.empty.push(frame)?;
        Ok(())
    }

    // The frame for a page: pages cool until the queue has a tenth of the frames, and one leaves where no frame is empty. None: none can.
    fn room(&mut self, alloc: Global, way: &[u32]) -> Result<Option<u32>, AllocError> {
        let share = (self.frames.len() / 10).max(1);
        for _turn in 0..share {
            if self.queue.len() >= share || self.turn(way)?.is_none() {
                break;
            }
        }
        if self.empty.is_empty() {
            let Some(page) = self.leaver(way)? else {
                see(&mut self.counts.crowded);
                return Ok(None);
            };
            self.leave(alloc, page)?;
        }
        Ok(self.empty.pop())
    }

    // Whether the page came into a frame, where the pages of the way stay.
    fn came(&mut self, alloc: Global, page: u32, way: &[u32]) -> Result<bool, AllocError> {
        match self.place(page) {
            Place::Hot(_) => {}
            Place::Cooling(frame) => {
                see(&mut self.counts.rescues);
                self.queue.retain(|other| *other != page);
                self.stand(page, Place::Hot(frame), frame, Some(page));
            }
            Place::Cold => {
                let Some(frame) = self.room(alloc, way)? else {
                    return Ok(false);
                };
                see(&mut self.counts.fills);
                self.stand(page, Place::Hot(frame), frame, Some(page));
            }
        }
        Ok(true)
    }

    /// The page comes into a frame, where the pages of the way stay; behind a sync where there is none for it. False: not even then.
    pub fn come(&mut self, alloc: Global, page: u32, way: &[u32]) -> Result<bool, AllocError> {
        if self.came(alloc, page, way)? {
            return Ok(true);
        }
        self.flush();
        self.came(alloc, page, way)
    }
}
