// The rules of the numbers that a script's output tells, of what is durable, and of what a put and a del make of the tree, as a plain program beside the engine: it was
// written from the rules in words. No page leaves its frame.
use crate::rule_files::{
    Block, Commit, Kind, Left, Master, NEVER, Purged, Record, copy_of, is_before, set,
};
use crate::rule_trees::{FULL, LEVELS, Pair, Shape, THIN, Tree};
use crate::runs::MEMORY;
use map_model::{Answer, Answered, Call, Refusal};
use std::alloc::{AllocError, Global};
use std::collections::BTreeMap;
use std::process::Abort;

// The moment at which an opening is done; calls and lines are counted from there. Its master was written one moment before.
pub(crate) const OPENED: u64 = 1000;

// What a block has room for, and what a change or a put-back takes of it, an end, a split with half a node's pairs, a lift with all of them, and a purge with no key, a join and a drop
// with no pair.
const ROOM: u64 = 2000;

const CHANGE: u64 = 53;

const END: u64 = 25;

const SPLIT: u64 = 551;

const LIFT: u64 = 999;

const PURGE: u64 = 30;

const JOIN: u64 = 70;

const DROP: u64 = 39;

// What a purge takes for each key, and a join and a drop for each pair.
const KEY: u64 = 8;

const PAIR: u64 = 16;

// How many pairs a scan tells.
const PAIRS: u64 = 64;

// A number and the log that has its record. Log 0 is none.
#[derive(Clone, Copy)]
struct Stamp {
    number: u64,
    log: u32,
}

const NONE: Stamp = Stamp { number: 0, log: 0 };

// A lock row: its last end of one that held it alone, and the greatest end of one that read it.
#[derive(Clone, Copy)]
struct Row {
    stamp: Stamp,
    read: u64,
}

const FREE: Row = Row {
    stamp: NONE,
    read: 0,
};

// A row that a session holds until its transaction ends, alone or beside others that read it.
#[derive(Clone, Copy)]
struct Held {
    session: u32,
    row: u64,
    is_alone: bool,
}

// A change of an open transaction: its key, and the value before.
#[derive(Clone, Copy)]
struct Change {
    session: u32,
    key: u64,
    was: Option<u64>,
}

// A session and its log: its last record's number, up to where it is flushed, the block in hand with its room, and the commits since its last flush.
#[derive(Clone, Copy)]
struct Session {
    is_open: bool,
    begun: u64,
    clock: u64,
    floor: u64,
    debt: u64,
    last: u64,
    flushed: u64,
    commits: u64,
    block: Option<usize>,
    room: u64,
}

/// A script, and what the rules say of it.
#[derive(Drop)]
pub(crate) struct Rules {
    pub alloc: Global,
    rows: Vec<Row>,
    group: u64,
    pub count: u32,
    sessions: Vec<Session>,
    // Of each page, and whether it stands in a frame: the root does from the opening on.
    stamps: Vec<Stamp>,
    in_frame: Vec<bool>,
    held: Vec<Held>,
    changes: Vec<Change>,
    pub records: Vec<Record>,
    pub blocks: Vec<Block>,
    pub masters: Vec<Master>,
    pub commits: Vec<Commit>,
    map: BTreeMap<u64, u64>,
    tree: Tree,
    pub purged: Vec<Purged>,
    pub generation: u64,
    /// How many calls of the disk were made by now, and lines put.
    pub moment: u64,
    pub text: String,
    pub printed: String,
    pub transcript: Vec<Answered>,
}

impl Session {
    // As it stands behind an opening: all numbers begin at the base.
    fn new(base: u64) -> Session {
        Session {
            is_open: false,
            begun: 0,
            clock: base,
            floor: base,
            debt: 0,
            last: base,
            flushed: base,
            commits: 0,
            block: None,
            room: 0,
        }
    }
}

impl Rules {
    /// An opening, which writes a master.
    pub(crate) fn open<R: Abort>(
        rt: &R,
        alloc: Global,
        left: &Left,
        count: u32,
        rows: usize,
        group: u64,
    ) -> Rules {
        let session = Session::new(left.base);
        let mut in_frame = Vec::new(alloc);
        for page in 0..left.tree.count() {
            in_frame.push(page == 0).expect(rt, MEMORY);
        }
        let mut rules = Rules {
            alloc,
            rows: vec![in alloc; FREE; rows].expect(rt, MEMORY),
            group,
            count,
            sessions: vec![in alloc; session; count as usize].expect(rt, MEMORY),
            stamps: vec![in alloc; NONE; left.tree.count()].expect(rt, MEMORY),
            in_frame,
            held: Vec::new(alloc),
            changes: Vec::new(alloc),
            records: Vec::new(alloc),
            blocks: Vec::new(alloc),
            masters: Vec::new(alloc),
            commits: Vec::new(alloc),
            map: copy_of(rt, alloc, &left.map),
            tree: left.tree.copied(rt),
            purged: Vec::new(alloc),
            generation: left.generation.saturating_add(1),
            moment: OPENED,
            text: String::new(alloc),
            printed: left.first_line(rt, alloc),
            transcript: Vec::new(alloc),
        };
        rules.tick();
        let first = Master {
            floor: left.base,
            written: OPENED - 1,
            synced: OPENED,
        };
        rules.masters.push(first).expect(rt, MEMORY);
        rules
    }

    // One call of the disk, or one line that goes out.
    fn tick(&mut self) -> u64 {
        self.moment = self.moment.saturating_add(1);
        self.moment
    }

    fn session(&self, session: u32) -> Option<&Session> {
        self.sessions.get(session.saturating_sub(1) as usize)
    }

    fn session_mut(&mut self, session: u32) -> Option<&mut Session> {
        self.sessions.get_mut(session.saturating_sub(1) as usize)
    }

    pub(crate) fn is_open(&self, session: u32) -> bool {
        match self.session(session) {
            Some(found) => found.is_open,
            None => false,
        }
    }

    fn begun(&self, session: u32) -> u64 {
        match self.session(session) {
            Some(found) => found.begun,
            None => 0,
        }
    }

    // Up to where every log is flushed.
    fn least_flushed(&self) -> u64 {
        let mut least = NEVER;
        for one in &self.sessions {
            least = least.min(one.flushed);
        }
        least
    }

    // A stamp that is met raises the clock, and the debt where it is of another log and above the floor.
    fn touch(&mut self, session: u32, stamp: Stamp) {
        if let Some(me) = self.session_mut(session) {
            me.clock = me.clock.max(stamp.number);
            if stamp.number > me.floor && stamp.log != session && stamp.log != 0 {
                me.debt = me.debt.max(stamp.number);
            }
        }
    }

    fn row_of(&self, key: u64) -> u64 {
        let rows = self.rows.len() as u64;
        if rows == 0 {
            return 0;
        }
        key % rows
    }

    // The session that stands in the way: who holds the row alone, else the least that reads it.
    fn holder(&self, session: u32, row: u64, is_alone: bool) -> Option<u32> {
        let mut least = None;
        for held in &self.held {
            if held.row == row && held.session != session && (is_alone || held.is_alone) {
                least = match least {
                    Some(other) if other < held.session => Some(other),
                    _ => Some(held.session),
                };
            }
        }
        least
    }

    // The session takes a row, and meets its stamp and its readers' end.
    fn lock<R: Abort>(&mut self, rt: &R, session: u32, row: u64, is_alone: bool) {
        let found = self.rows.get(row as usize).copied().unwrap_or(FREE);
        self.touch(session, found.stamp);
        if let Some(me) = self.session_mut(session) {
            me.clock = me.clock.max(found.read);
        }
        let held = Held {
            session,
            row,
            is_alone,
        };
        self.held.push(held).expect(rt, MEMORY);
    }

    // Its rows are given back at the number of its end.
    fn unlock<R: Abort>(&mut self, rt: &R, session: u32, number: u64) {
        let mut others = Vec::new(self.alloc);
        for held in &self.held {
            if held.session != session {
                others.push(*held).expect(rt, MEMORY);
            } else if let Some(row) = self.rows.get_mut(held.row as usize) {
                if held.is_alone {
                    let log = session;
                    row.stamp = Stamp { number, log };
                } else {
                    row.read = row.read.max(number);
                }
            }
        }
        self.held = others;
    }

    // Writes the block in hand.
    fn write_block(&mut self, session: u32) {
        let moment = self.tick();
        if let Some(me) = self.session_mut(session) {
            let block = me.block.take();
            if let Some(place) = block {
                if let Some(found) = self.blocks.get_mut(place) {
                    found.written = moment;
                }
            }
        }
    }

    // The block that takes a record of this size: one that is full is written.
    fn block_for<R: Abort>(&mut self, rt: &R, session: u32, size: u64) -> usize {
        let Some(me) = self.session(session).copied() else {
            return 0;
        };
        match me.block {
            Some(place) if size <= me.room => place,
            found => {
                if found.is_some() {
                    self.write_block(session);
                }
                let place = self.blocks.len();
                let block = Block {
                    session,
                    written: NEVER,
                    synced: NEVER,
                };
                self.blocks.push(block).expect(rt, MEMORY);
                if let Some(me) = self.session_mut(session) {
                    me.block = Some(place);
                    me.room = ROOM;
                }
                place
            }
        }
    }

    // A record takes the next number.
    fn stage<R: Abort>(&mut self, rt: &R, session: u32, size: u64, kind: Kind) -> u64 {
        let block = self.block_for(rt, session, size);
        let begun = self.begun(session);
        let mut number = 0;
        if let Some(me) = self.session_mut(session) {
            number = me.clock.saturating_add(1);
            me.clock = number;
            me.last = number;
            me.room = me.room.saturating_sub(size);
        }
        let record = Record {
            session,
            begun,
            number,
            block,
            kind,
        };
        self.records.push(record).expect(rt, MEMORY);
        number
    }

    // The session meets a page's stamp.
    fn touch_page(&mut self, session: u32, page: usize) {
        let stamp = self.stamps.get(page).copied().unwrap_or(NONE);
        self.touch(session, stamp);
    }

    fn touch_leaf(&mut self, session: u32, key: u64) {
        let (leaf, _) = self.tree.leaf_of(key);
        self.touch_page(session, leaf);
    }

    // One that changes pages meets their stamps first, and becomes them.
    fn stage_change<R: Abort>(&mut self, rt: &R, session: u32, size: u64, kind: Kind) {
        for page in kind.pages() {
            if let Some(page) = page {
                self.touch_page(session, page);
            }
        }
        let number = self.stage(rt, session, size, kind);
        let log = session;
        for page in kind.pages() {
            if let Some(page) = page {
                if let Some(stamp) = self.stamps.get_mut(page) {
                    *stamp = Stamp { number, log };
                }
            }
        }
    }

    // The same of a change of the tree's shape.
    fn stage_shape<R: Abort>(&mut self, rt: &R, session: u32, size: u64, shape: Shape) {
        self.stage_change(rt, session, size, Kind::Shape(shape));
        self.tree.shape(rt, shape, &[]);
    }

    // Writes the block in hand, and syncs the log.
    fn flush(&mut self, session: u32) {
        if let Some(
            Session {
                block: Some(_),
                last,
                ..
            },
        ) = self.session(session).copied()
        {
            self.write_block(session);
            let moment = self.tick();
            for block in &mut self.blocks {
                if block.session == session && block.synced == NEVER {
                    block.synced = moment;
                }
            }
            if let Some(me) = self.session_mut(session) {
                me.flushed = last;
                me.commits = 0;
            }
        }
    }

    // A line of the output.
    fn say<R: Abort>(&mut self, rt: &R, line: Result<String, AllocError>) {
        let line = line.expect(rt, MEMORY);
        self.printed.push_str(&line).expect(rt, MEMORY);
        self.printed.push_str("\n").expect(rt, MEMORY);
        self.tick();
    }

    fn tell<R: Abort>(&mut self, rt: &R, session: u32, call: Call, answer: Answer) {
        let line = Answered {
            session,
            call,
            answer,
        };
        self.transcript.push(line).expect(rt, MEMORY);
    }

    fn refuse<R: Abort>(&mut self, rt: &R, session: u32, call: Call, why: Refusal, words: &str) {
        self.say(rt, format!(in self.alloc; "{session} {words}"));
        self.tell(rt, session, call, Answer::Refused(why));
    }

    // A begin clears a debt that is flushed everywhere.
    fn begin<R: Abort>(&mut self, rt: &R, session: u32) {
        if self.is_open(session) {
            self.refuse(
                rt,
                session,
                Call::Begin,
                Refusal::InTransaction,
                "in-transaction",
            );
            return;
        }
        let flushed = self.least_flushed();
        if let Some(me) = self.session_mut(session) {
            me.is_open = true;
            me.begun = me.begun.saturating_add(1);
            me.floor = flushed;
            if me.debt <= flushed {
                me.debt = 0;
            }
        }
        let number = self.begun(session);
        self.say(
            rt,
            format!(in self.alloc; "{session} begun {session}.{number}"),
        );
        self.tell(rt, session, Call::Begin, Answer::Begun { number });
    }

    // Whether the lock is refused. Then the transaction is aborted.
    fn is_refused<R: Abort>(
        &mut self,
        rt: &R,
        session: u32,
        call: Call,
        key: u64,
        is_alone: bool,
    ) -> bool {
        let row = self.row_of(key);
        match self.holder(session, row, is_alone) {
            Some(holder) => {
                self.say(rt, format!(in self.alloc; "{session} conflict {holder}"));
                self.tell(
                    rt,
                    session,
                    call,
                    Answer::Refused(Refusal::Conflict { holder }),
                );
                self.abort(rt, session, call);
                true
            }
            None => {
                self.lock(rt, session, row, is_alone);
                false
            }
        }
    }

    fn get<R: Abort>(&mut self, rt: &R, session: u32, call: Call, key: u64) {
        if self.is_refused(rt, session, call, key, false) {
            return;
        }
        self.bring_way(rt, key);
        self.touch_leaf(session, key);
        let found = self.map.get(&key).copied();
        match found {
            Some(value) => self.say(rt, format!(in self.alloc; "{session} value {value}")),
            None => self.say(rt, format!(in self.alloc; "{session} none")),
        }
        self.tell(rt, session, call, Answer::Value(found));
    }

    fn tell_pair<R: Abort>(&mut self, rt: &R, session: u32, call: Call, key: u64, value: u64) {
        self.say(rt, format!(in self.alloc; "{session} pair {key} {value}"));
        self.tell(rt, session, call, Answer::Pair { key, value });
    }

    // Goes from leaf to leaf and from entry to entry, and tells the pairs. Of each entry that it meets it takes the row, of one that was deleted too; a leaf's stamp is
    // met with a pair, or behind the last entry. What it is answered behind the pairs; none if a lock was refused.
    fn walk<R: Abort>(
        &mut self,
        rt: &R,
        session: u32,
        call: Call,
        from: u64,
        to: u64,
    ) -> Option<Answer> {
        let mut pairs = 0u64;
        let mut next = from;
        for _ in 0..self.tree.count() {
            self.bring_way(rt, next);
            let (leaf, high) = self.tree.leaf_of(next);
            for Pair { key, .. } in &self.tree.pairs(rt, leaf) {
                if *key < next {
                    continue;
                }
                if self.is_refused(rt, session, call, *key, false) {
                    return None;
                }
                if let Some(value) = self.map.get(key).copied() {
                    self.touch_page(session, leaf);
                    if *key > to {
                        return Some(Answer::End);
                    }
                    self.tell_pair(rt, session, call, *key, value);
                    pairs = pairs.saturating_add(1);
                    if *key == to {
                        return Some(Answer::End);
                    }
                    if pairs == PAIRS {
                        let from = key.saturating_add(1);
                        return Some(Answer::More { from });
                    }
                }
            }
            self.touch_page(session, leaf);
            match high {
                Some(high) if high <= to => next = high,
                _ => return Some(Answer::End),
            }
        }
        Some(Answer::End)
    }

    // From a key above its last one it meets nothing.
    fn scan<R: Abort>(&mut self, rt: &R, session: u32, call: Call, from: u64, to: u64) {
        let answer = if from > to {
            Some(Answer::End)
        } else {
            self.walk(rt, session, call, from, to)
        };
        let Some(answer) = answer else {
            return;
        };
        match answer {
            Answer::More { from } => self.say(rt, format!(in self.alloc; "{session} more {from}")),
            _ => self.say(rt, format!(in self.alloc; "{session} end")),
        }
        self.tell(rt, session, call, answer);
    }

    // Whether nobody has the key's row, and all logs are flushed up to its last end.
    fn is_settled(&self, key: u64) -> bool {
        let row = self.row_of(key);
        for held in &self.held {
            if held.row == row {
                return false;
            }
        }
        let found = self.rows.get(row as usize).copied().unwrap_or(FREE);
        found.stamp.number <= self.least_flushed()
    }

    // The deleted keys of a leaf that nobody can need.
    fn purgeable<R: Abort>(&self, rt: &R, leaf: usize) -> Vec<u64> {
        let mut keys = Vec::new(self.alloc);
        for Pair { key, .. } in &self.tree.pairs(rt, leaf) {
            if self.map.get(key).is_none() && self.is_settled(*key) {
                keys.push(*key).expect(rt, MEMORY);
            }
        }
        keys
    }

    // These go out of their leaf, by one record.
    fn purge<R: Abort>(&mut self, rt: &R, session: u32, page: usize, keys: &[u64]) {
        let record = self.records.len();
        for key in keys {
            let key = *key;
            self.purged.push(Purged { record, key }).expect(rt, MEMORY);
        }
        let size = PURGE.saturating_add(KEY.saturating_mul(keys.len() as u64));
        let shape = Shape::Purge { page };
        self.stage_change(rt, session, size, Kind::Shape(shape));
        self.tree.shape(rt, shape, keys);
    }

    // A page comes into a frame by a read, and stays there.
    fn bring(&mut self, page: usize) {
        let mut is_read = false;
        if let Some(is_there) = self.in_frame.get_mut(page) {
            is_read = !*is_there;
            *is_there = true;
        }
        if is_read {
            self.tick();
        }
    }

    // The pages on the way to a key come into frames.
    fn bring_way<R: Abort>(&mut self, rt: &R, key: u64) {
        for page in &self.tree.way(rt, key) {
            self.bring(*page);
        }
    }

    // One change of the tree towards room for a key whose leaf is full. What nobody can need goes first; where there is no such, of the full pages above the leaf,
    // without a gap, the topmost is split, and if all are full the root is lifted. False where there are too few free pages for all that it takes.
    fn is_grown<R: Abort>(&mut self, rt: &R, session: u32, key: u64) -> bool {
        let (leaf, _) = self.tree.leaf_of(key);
        let going = self.purgeable(rt, leaf);
        if going.len() > 0 {
            self.purge(rt, session, leaf, &going);
            return true;
        }
        let mut full = 0usize;
        let mut left = 0;
        let mut parent = None;
        for page in self.tree.way(rt, key).iter().rev() {
            if self.tree.len(*page) < FULL {
                parent = Some(*page);
                break;
            }
            full = full.saturating_add(1);
            left = *page;
        }
        let takes = match parent {
            Some(_) => full,
            None => full.saturating_add(1),
        };
        let free = self.tree.count().saturating_sub(self.tree.used());
        match self.tree.least_free() {
            Some(right) if takes <= free => {
                self.bring(right);
                match parent {
                    Some(parent) => {
                        let shape = Shape::Split {
                            left,
                            right,
                            parent,
                        };
                        self.stage_shape(rt, session, SPLIT, shape);
                    }
                    None => self.stage_shape(rt, session, LIFT, Shape::Lift { child: right }),
                }
                true
            }
            _ => false,
        }
    }

    // Whether there is room for a key, also by changes of the tree.
    fn is_room<R: Abort>(&mut self, rt: &R, session: u32, key: u64) -> bool {
        for _ in 0..LEVELS.saturating_add(2) {
            let (leaf, _) = self.tree.leaf_of(key);
            if self.tree.has_entry(leaf, key) || self.tree.len(leaf) < FULL {
                return true;
            }
            if !self.is_grown(rt, session, key) {
                return false;
            }
        }
        false
    }

    // Two pages are joined, or a page is the root's one child.
    fn shrink<R: Abort>(&mut self, rt: &R, session: u32, shape: Shape) {
        let (least, page) = match shape {
            Shape::Join { right, .. } => (JOIN, right),
            Shape::Drop { child } => (DROP, child),
            _ => return,
        };
        let size = least.saturating_add(PAIR.saturating_mul(self.tree.len(page) as u64));
        self.stage_shape(rt, session, size, shape);
    }

    // Behind a thin leaf each level of the key's way is joined where it is thin, up to the first page that is not. Last the root is dropped, if it has one pair.
    fn join_up<R: Abort>(&mut self, rt: &R, session: u32, key: u64) {
        for level in 0..LEVELS {
            let way = self.tree.way(rt, key);
            // Above the root there is none, and the root is page 0.
            let place = way.len().saturating_sub(level).saturating_sub(1);
            let page = way.get(place).copied().unwrap_or(0);
            if page == 0 || self.tree.len(page) > THIN {
                break;
            }
            let parent = way.get(place.saturating_sub(1)).copied().unwrap_or(0);
            // A neighbour is looked at, whether or not it is joined.
            if let Some((left, right)) = self.tree.sisters(page, parent) {
                self.bring(left);
                self.bring(right);
            }
            if let Some(shape) = self.tree.join_of(page, parent) {
                self.shrink(rt, session, shape);
            }
        }
        if let Some(shape) = self.tree.drop_of() {
            self.shrink(rt, session, shape);
        }
    }

    // What comes before a del of a live key. A leaf that is not the root is thin by the entries that somebody can need: then the others go, all by one record, and the way up
    // is joined.
    fn tidy<R: Abort>(&mut self, rt: &R, session: u32, key: u64) {
        let (leaf, _) = self.tree.leaf_of(key);
        let going = self.purgeable(rt, leaf);
        if leaf == 0 || self.tree.len(leaf) > THIN.saturating_add(going.len()) {
            return;
        }
        if going.len() > 0 {
            self.purge(rt, session, leaf, &going);
        }
        self.join_up(rt, session, key);
    }

    // A del of an absent key reads the leaf, and makes no record; one of a live key may tidy. A put of a key without an entry may need room.
    fn write<R: Abort>(&mut self, rt: &R, session: u32, call: Call, key: u64, value: Option<u64>) {
        if self.is_refused(rt, session, call, key, true) {
            return;
        }
        self.bring_way(rt, key);
        if value.is_some() && !self.is_room(rt, session, key) {
            self.refuse(rt, session, call, Refusal::NoPages, "no-pages");
            return;
        }
        let was = self.map.get(&key).copied();
        if was.is_some() && value.is_none() {
            self.tidy(rt, session, key);
        }
        if was.is_some() || value.is_some() {
            let change = Change { session, key, was };
            self.changes.push(change).expect(rt, MEMORY);
            let (page, _) = self.tree.leaf_of(key);
            self.tree.add_entry(rt, page, key);
            set(rt, &mut self.map, key, value);
            let kind = Kind::Change { page, key, value };
            self.stage_change(rt, session, CHANGE, kind);
        } else {
            self.touch_leaf(session, key);
        }
        match was {
            Some(was) => self.say(rt, format!(in self.alloc; "{session} was {was}")),
            None => self.say(rt, format!(in self.alloc; "{session} was none")),
        }
        self.tell(rt, session, call, Answer::Was(was));
    }

    // The changes of a session are put back, the newest first, or forgotten.
    fn end_changes<R: Abort>(&mut self, rt: &R, session: u32, is_undone: bool) {
        let mut others = Vec::new(self.alloc);
        for _ in 0..self.changes.len() {
            if let Some(change) = self.changes.pop() {
                if change.session != session {
                    others.push(change).expect(rt, MEMORY);
                } else if is_undone {
                    set(rt, &mut self.map, change.key, change.was);
                    let (page, _) = self.tree.leaf_of(change.key);
                    self.stage_change(rt, session, CHANGE, Kind::PutBack { page });
                }
            }
        }
        for _ in 0..others.len() {
            if let Some(change) = others.pop() {
                self.changes.push(change).expect(rt, MEMORY);
            }
        }
    }

    // What its end needs of other logs: its debt, where that is not flushed everywhere.
    fn need(&self, session: u32) -> u64 {
        match self.session(session) {
            Some(me) if me.debt > self.least_flushed() => me.debt,
            _ => 0,
        }
    }

    // Its end gives the rows back, before anything is flushed. The answer is its number.
    fn end<R: Abort>(&mut self, rt: &R, session: u32, kind: Kind) -> u64 {
        let number = self.stage(rt, session, END, kind);
        self.unlock(rt, session, number);
        if let Some(me) = self.session_mut(session) {
            me.is_open = false;
        }
        number
    }

    fn commit<R: Abort>(&mut self, rt: &R, session: u32) {
        self.end_changes(rt, session, false);
        let need = self.need(session);
        let at = self.end(rt, session, Kind::Commit { need });
        let number = self.begun(session);
        let commit = Commit {
            session,
            begun: number,
            at,
            need,
            told: NEVER,
        };
        self.commits.push(commit).expect(rt, MEMORY);
        let mut is_due = false;
        if let Some(me) = self.session_mut(session) {
            me.commits = me.commits.saturating_add(1);
            is_due = me.commits >= self.group;
        }
        if is_due {
            self.flush(session);
        }
        self.say(
            rt,
            format!(in self.alloc; "{session} committed {session}.{number} at {at}"),
        );
        self.tell(rt, session, Call::Commit, Answer::Committed { number, at });
    }

    fn abort<R: Abort>(&mut self, rt: &R, session: u32, call: Call) {
        self.end_changes(rt, session, true);
        let need = self.need(session);
        self.end(rt, session, Kind::Abort { need });
        let number = self.begun(session);
        self.say(
            rt,
            format!(in self.alloc; "{session} aborted {session}.{number}"),
        );
        self.tell(rt, session, call, Answer::Aborted { number });
    }

    // Whether a commit's log has it, and every log what it needs.
    fn is_ripe(&self, commit: Commit) -> bool {
        match self.session(commit.session) {
            Some(me) => me.flushed >= commit.at && self.least_flushed() >= commit.need,
            None => false,
        }
    }

    // The first commit that is ripe and was not told, by its number and then its session.
    fn next_ripe(&self) -> Option<usize> {
        let mut first: Option<(usize, Commit)> = None;
        for place in 0..self.commits.len() {
            let commit = self.commits[place];
            if commit.told == NEVER && self.is_ripe(commit) {
                first = match first {
                    Some((at, other)) if is_before(other, commit) => Some((at, other)),
                    _ => Some((place, commit)),
                };
            }
        }
        match first {
            Some((place, _)) => Some(place),
            None => None,
        }
    }

    fn tell_durable<R: Abort>(&mut self, rt: &R) {
        for _ in 0..self.commits.len() {
            let Some(place) = self.next_ripe() else {
                return;
            };
            if let Some(Commit { session, begun, .. }) = self.commits.get(place).copied() {
                self.say(
                    rt,
                    format!(in self.alloc; "{session} durable {session}.{begun}"),
                );
            }
            if let Some(commit) = self.commits.get_mut(place) {
                commit.told = self.moment;
            }
        }
    }

    /// Adds a line to the script.
    pub(crate) fn add<R: Abort>(&mut self, rt: &R, session: u32, call: Call) {
        let alloc = self.alloc;
        let text = match call {
            Call::Get { key } => format!(in alloc; "{session} get {key}\n"),
            Call::Put { key, value } => format!(in alloc; "{session} put {key} {value}\n"),
            Call::Del { key } => format!(in alloc; "{session} del {key}\n"),
            Call::Scan { from, to } => format!(in alloc; "{session} scan {from} {to}\n"),
            Call::Commit => format!(in alloc; "{session} commit\n"),
            Call::Abort => format!(in alloc; "{session} abort\n"),
            _ => format!(in alloc; "{session} begin\n"),
        }
        .expect(rt, MEMORY);
        self.text.push_str(&text).expect(rt, MEMORY);
        self.answer(rt, session, call);
        self.tell_durable(rt);
    }

    fn answer<R: Abort>(&mut self, rt: &R, session: u32, call: Call) {
        if let Call::Begin = call {
            self.begin(rt, session);
        } else if !self.is_open(session) {
            self.refuse(rt, session, call, Refusal::NoTransaction, "no-transaction");
        } else {
            match call {
                Call::Get { key } => self.get(rt, session, call, key),
                Call::Put { key, value } => self.write(rt, session, call, key, Some(value)),
                Call::Del { key } => self.write(rt, session, call, key, None),
                Call::Scan { from, to } => self.scan(rt, session, call, from, to),
                Call::Commit => self.commit(rt, session),
                _ => self.abort(rt, session, call),
            }
        }
    }

    /// Adds a sync: each log is flushed, and then, where some log ends below the greatest clock, a master is written with that as its floor.
    pub(crate) fn add_sync<R: Abort>(&mut self, rt: &R) {
        self.text.push_str("sync\n").expect(rt, MEMORY);
        let mut at = 0;
        for session in 1..=self.count {
            self.flush(session);
        }
        for one in &self.sessions {
            at = at.max(one.clock);
        }
        let mut is_below = false;
        for one in &self.sessions {
            is_below = is_below || one.last != at;
        }
        if is_below {
            let written = self.tick();
            let synced = self.tick();
            let floor = at;
            let master = Master {
                floor,
                written,
                synced,
            };
            self.masters.push(master).expect(rt, MEMORY);
        }
        for one in &mut self.sessions {
            one.clock = at;
            one.last = at;
            one.flushed = at;
            one.commits = 0;
        }
        self.say(rt, format!(in self.alloc; "synced {at}"));
        self.tell(rt, 0, Call::Sync, Answer::Synced { at });
        self.tell_durable(rt);
    }
}
