// The tree by the plain rules: which node stands in which page, and what the records of its shape make of it.
use crate::runs::MEMORY;
use std::alloc::Global;
use std::process::Abort;

/// How many pairs a node has room for.
pub(crate) const FULL: usize = 60;

// How many of these a split leaves where they are.
const HALF: usize = 30;

/// A page is thin with so many pairs, or with fewer, and two are joined that have at most so many together.
pub(crate) const THIN: usize = 15;

const JOINED: usize = 45;

/// A tree has fewer levels.
pub(crate) const LEVELS: usize = 9;

/// A pair of a node: where its child's keys begin, and the child's page. In a leaf an entry's key.
#[derive(Clone, Copy)]
pub(crate) struct Pair {
    pub key: u64,
    pub page: usize,
}

/// A page: a node, a leaf where its level is 0, or free.
#[derive(Drop)]
struct Node {
    is_live: bool,
    level: usize,
    pairs: Vec<Pair>,
}

/// A change of the tree's shape, by the pages that it changes. The keys of a purge stand elsewhere.
#[derive(Clone, Copy)]
pub(crate) enum Shape {
    Split {
        left: usize,
        right: usize,
        parent: usize,
    },
    Lift {
        child: usize,
    },
    Purge {
        page: usize,
    },
    Join {
        left: usize,
        right: usize,
        parent: usize,
    },
    Drop {
        child: usize,
    },
}

/// The pages, of which the first is the root.
#[derive(Drop)]
pub(crate) struct Tree {
    alloc: Global,
    nodes: Vec<Node>,
}

impl Shape {
    /// The pages that it changes.
    pub(crate) fn pages(&self) -> [Option<usize>; 3] {
        match *self {
            Shape::Split {
                left,
                right,
                parent,
            }
            | Shape::Join {
                left,
                right,
                parent,
            } => [Some(left), Some(right), Some(parent)],
            Shape::Lift { child } | Shape::Drop { child } => [Some(0), Some(child), None],
            Shape::Purge { page } => [Some(page), None, None],
        }
    }
}

impl Tree {
    /// An empty root, and so many pages in all.
    pub(crate) fn new<R: Abort>(rt: &R, alloc: Global, pages: usize) -> Tree {
        let mut nodes = Vec::new(alloc);
        for page in 0..pages {
            let node = Node {
                is_live: page == 0,
                level: 0,
                pairs: Vec::new(alloc),
            };
            nodes.push(node).expect(rt, MEMORY);
        }
        Tree { alloc, nodes }
    }

    pub(crate) fn copied<R: Abort>(&self, rt: &R) -> Tree {
        let mut nodes = Vec::new(self.alloc);
        for node in &self.nodes {
            let copy = Node {
                is_live: node.is_live,
                level: node.level,
                pairs: self.some_of(rt, &node.pairs, 0, FULL),
            };
            nodes.push(copy).expect(rt, MEMORY);
        }
        Tree {
            alloc: self.alloc,
            nodes,
        }
    }

    /// How many pages there are, and how many have a node.
    pub(crate) fn count(&self) -> usize {
        self.nodes.len()
    }

    pub(crate) fn used(&self) -> usize {
        let mut used = 0usize;
        for node in &self.nodes {
            if node.is_live {
                used = used.saturating_add(1);
            }
        }
        used
    }

    pub(crate) fn least_free(&self) -> Option<usize> {
        for (page, node) in self.nodes.iter().enumerate() {
            if !node.is_live {
                return Some(page);
            }
        }
        None
    }

    /// How many pairs a page has.
    pub(crate) fn len(&self, page: usize) -> usize {
        match self.nodes.get(page) {
            Some(node) => node.pairs.len(),
            None => 0,
        }
    }

    fn level(&self, page: usize) -> usize {
        match self.nodes.get(page) {
            Some(node) => node.level,
            None => 0,
        }
    }

    // The pairs from one place up to another.
    fn some_of<R: Abort>(&self, rt: &R, pairs: &[Pair], from: usize, to: usize) -> Vec<Pair> {
        let mut some = Vec::new(self.alloc);
        for (place, pair) in pairs.iter().enumerate() {
            if from <= place && place < to {
                some.push(*pair).expect(rt, MEMORY);
            }
        }
        some
    }

    /// A copy of a page's pairs.
    pub(crate) fn pairs<R: Abort>(&self, rt: &R, page: usize) -> Vec<Pair> {
        match self.nodes.get(page) {
            Some(node) => self.some_of(rt, &node.pairs, 0, FULL),
            None => Vec::new(self.alloc),
        }
    }

    // The child on the way to a key, and where the next one begins.
    fn child(&self, page: usize, key: u64) -> Option<(usize, Option<u64>)> {
        let node = self.nodes.get(page)?;
        if node.level == 0 {
            return None;
        }
        let mut found = None;
        for pair in &node.pairs {
            if found.is_none() || pair.key <= key {
                found = Some((pair.page, None));
            } else if let Some((child, None)) = found {
                found = Some((child, Some(pair.key)));
            }
        }
        found
    }

    /// The pages on the way to a key, from the root to its leaf.
    pub(crate) fn way<R: Abort>(&self, rt: &R, key: u64) -> Vec<usize> {
        let mut way = Vec::new(self.alloc);
        let mut page = 0;
        for _ in 0..LEVELS {
            way.push(page).expect(rt, MEMORY);
            match self.child(page, key) {
                Some((child, _)) => page = child,
                None => return way,
            }
        }
        way
    }

    /// The leaf of a key, and where the next one begins, if it is not the last.
    pub(crate) fn leaf_of(&self, key: u64) -> (usize, Option<u64>) {
        let mut page = 0;
        let mut high = None;
        for _ in 0..LEVELS {
            match self.child(page, key) {
                Some((child, next)) => {
                    page = child;
                    if next.is_some() {
                        high = next;
                    }
                }
                None => return (page, high),
            }
        }
        (page, high)
    }

    pub(crate) fn has_entry(&self, page: usize, key: u64) -> bool {
        if let Some(node) = self.nodes.get(page) {
            for pair in &node.pairs {
                if pair.key == key {
                    return true;
                }
            }
        }
        false
    }

    fn set(&mut self, page: usize, level: usize, pairs: Vec<Pair>) {
        if let Some(node) = self.nodes.get_mut(page) {
            node.is_live = true;
            node.level = level;
            node.pairs = pairs;
        }
    }

    // A pair comes at its place.
    fn add_pair<R: Abort>(&mut self, rt: &R, page: usize, new: Pair) {
        let mut pairs = Vec::new(self.alloc);
        let mut is_added = false;
        for pair in &self.pairs(rt, page) {
            if !is_added && new.key < pair.key {
                pairs.push(new).expect(rt, MEMORY);
                is_added = true;
            }
            pairs.push(*pair).expect(rt, MEMORY);
        }
        if !is_added {
            pairs.push(new).expect(rt, MEMORY);
        }
        let level = self.level(page);
        self.set(page, level, pairs);
    }

    /// A key that is changed in a leaf has an entry there.
    pub(crate) fn add_entry<R: Abort>(&mut self, rt: &R, page: usize, key: u64) {
        if !self.has_entry(page, key) {
            self.add_pair(rt, page, Pair { key, page: 0 });
        }
    }

    // These keys have no entry any more.
    fn purge<R: Abort>(&mut self, rt: &R, page: usize, keys: &[u64]) {
        let mut pairs = Vec::new(self.alloc);
        for pair in &self.pairs(rt, page) {
            if !keys.contains(&pair.key) {
                pairs.push(*pair).expect(rt, MEMORY);
            }
        }
        self.set(page, 0, pairs);
    }

    // The second half of a page's pairs goes to a free page, which the parent names.
    fn split<R: Abort>(&mut self, rt: &R, left: usize, right: usize, parent: usize) {
        let pairs = self.pairs(rt, left);
        let level = self.level(left);
        let lower = self.some_of(rt, &pairs, 0, HALF);
        let upper = self.some_of(rt, &pairs, HALF, FULL);
        if let Some(first) = pairs.get(HALF) {
            let key = first.key;
            self.set(left, level, lower);
            self.set(right, level, upper);
            self.add_pair(rt, parent, Pair { key, page: right });
        }
    }

    // The root's pairs go to a free page, and the root has that child alone.
    fn lift<R: Abort>(&mut self, rt: &R, child: usize) {
        let pairs = self.pairs(rt, 0);
        let level = self.level(0);
        self.set(child, level, pairs);
        let mut only = Vec::new(self.alloc);
        only.push(Pair {
            key: 0,
            page: child,
        })
        .expect(rt, MEMORY);
        self.set(0, level.saturating_add(1), only);
    }

    // The right page's pairs go to the left one, and the parent names it no more.
    fn join<R: Abort>(&mut self, rt: &R, left: usize, right: usize, parent: usize) {
        let mut pairs = self.pairs(rt, left);
        for pair in &self.pairs(rt, right) {
            pairs.push(*pair).expect(rt, MEMORY);
        }
        let mut named = Vec::new(self.alloc);
        for pair in &self.pairs(rt, parent) {
            if pair.page != right {
                named.push(*pair).expect(rt, MEMORY);
            }
        }
        let level = self.level(left);
        self.set(left, level, pairs);
        self.set(parent, level.saturating_add(1), named);
        self.free(right);
    }

    // The root takes the pairs of its one child.
    fn drop_root<R: Abort>(&mut self, rt: &R, child: usize) {
        let pairs = self.pairs(rt, child);
        let level = self.level(child);
        self.set(0, level, pairs);
        self.free(child);
    }

    fn free(&mut self, page: usize) {
        let none = Vec::new(self.alloc);
        if let Some(node) = self.nodes.get_mut(page) {
            node.is_live = false;
            node.pairs = none;
        }
    }

    /// The join of a thin page with the next one of its parent, or the last one with the one before it, if both have few pairs together.
    pub(crate) fn join_of(&self, page: usize, parent: usize) -> Option<Shape> {
        let (left, right) = self.sisters(page, parent)?;
        if self.len(left).saturating_add(self.len(right)) > JOINED {
            return None;
        }
        Some(Shape::Join {
            left,
            right,
            parent,
        })
    }

    /// A page and its right neighbour under the parent, or its left one and itself, where it is the last.
    pub(crate) fn sisters(&self, page: usize, parent: usize) -> Option<(usize, usize)> {
        let node = self.nodes.get(parent)?;
        let mut before = None;
        let mut pages = None;
        for pair in &node.pairs {
            if before == Some(page) {
                pages = Some((page, pair.page));
            } else if pair.page == page {
                pages = match before {
                    Some(left) => Some((left, page)),
                    None => None,
                };
            }
            before = Some(pair.page);
        }
        pages
    }

    /// The drop of the root's one child.
    pub(crate) fn drop_of(&self) -> Option<Shape> {
        let root = self.nodes.get(0)?;
        match root.pairs.first() {
            Some(pair) if root.level > 0 && root.pairs.len() == 1 => {
                let child = pair.page;
                Some(Shape::Drop { child })
            }
            _ => None,
        }
    }

    /// A record changes the shape. These are the keys that a purge takes out.
    pub(crate) fn shape<R: Abort>(&mut self, rt: &R, shape: Shape, keys: &[u64]) {
        match shape {
            Shape::Split {
                left,
                right,
                parent,
            } => self.split(rt, left, right, parent),
            Shape::Lift { child } => self.lift(rt, child),
            Shape::Purge { page } => self.purge(rt, page, keys),
            Shape::Join {
                left,
                right,
                parent,
            } => self.join(rt, left, right, parent),
            Shape::Drop { child } => self.drop_root(rt, child),
        }
    }
}
