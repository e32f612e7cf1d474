// Lock rows.
ghost use Rattle.std.specs.Prelude.{◌≡◌, ◌<◌, length, MatchOption, true};
ghost use Rattle.core_commit.specs.core_state.States as core;
ghost use Rattle.core_commit.specs.core_state.Needs.{is_held_by, may_hold};
ghost use Rattle.transactions.specs.Memory.{mode_of};
ghost use Rattle.mem_journal.specs.Rows.{row_locked, row_unlocked, IsRow, IsLeastOther, IsInTheWay, HasNoOther};

use transactions::Mode;

/// Who holds the row alone, which sessions share it, the stamp of its last exclusive end, and the greatest end of a reader.
#[derive(Clone, Copy)]
pub struct Row {
    pub holder: Option<u32>,
    pub readers: [bool; 17],
    pub number: u64,
    pub log: u32,
    pub read_end: u64,
}

impl Row {
    fn is_held_by(&self, w: u32) -> bool
        ensures { result ≡ is_held_by self.now.holder w }
    {
        match self.holder {
            Some(holder) => holder == w,
            None => false,
        }
    }

    // The row, with the session as its holder or among its readers.
    pub(crate) fn locked(self, w: u32, mode: Mode) -> Row
        requires { w < 17 }
        ensures { result ≡ row_locked self w mode }
    {
        if self.is_held_by(w) {
            return self;
        }
        let mut row = self;
        match mode {
            Mode::Shared => {
                row.readers[w as usize] = true;
                row
            }
            Mode::Alone => {
                row.holder = Some(w);
                row.readers = [false; 17];
                row
            }
        }
    }

    // The row without the session, whose last end had this number.
    pub(crate) fn unlocked(self, w: u32, end: u64) -> Row
        requires { w < 17 }
        ensures { result ≡ row_unlocked self w end }
    {
        let mut row = self;
        row.readers[w as usize] = false;
        if self.is_held_by(w) {
            row.holder = None;
            row.number = self.number.max(end);
            row.log = w;
            return row;
        }
        row.read_end = self.read_end.max(end);
        row
    }

    // The least numbered other reader.
    fn other_reader(&self, w: u32) -> Option<u32>
        ensures { MatchOption result (HasNoOther self.now.readers w) (IsLeastOther self.now.readers w) }
    {
        for v in 0..17 {
            if self.readers[v] && v as u32 != w {
                return Some(v as u32);
            }
        }
        None
    }

    /// Who stands in the session's way: the one who holds the row alone, else the least numbered other reader.
    pub fn in_the_way(&self, w: u32, mode: Mode) -> Option<u32>
        ensures { (o : core.Row) → IsRow o self.now → MatchOption result (may_hold o w (mode_of mode) ≡ true) (IsInTheWay o w (mode_of mode)) }
    {
        if self.is_held_by(w) {
            return None;
        }
        if let Some(holder) = self.holder {
            return Some(holder);
        }
        match mode {
            Mode::Shared => None,
            Mode::Alone => self.other_reader(w),
        }
    }
}
