// The heads of the logs.
ghost use Rattle.std.specs.Prelude.{◌≡◌, ℕ, ◌+◌, ◌-◌, ◌<◌, ◌≤◌, ◌++◌, length, slice_index, slice_set, take, drop, replicate};

use std::marker::Model;

/// For each log, from log 1 on, the number of its first block. There are at most sixteen logs.
#[derive(Drop)]
pub struct Heads {
    logs: usize,
    blocks: [u64; 16],
}

impl Model for Heads {
    ghost use Rattle.std.specs.Prelude.{List, ℕ, ◌≤◌, take};

    ghost Value = { List ℕ };

    ghost view = { λ h. take h.logs h.blocks };

    ghost invariant = { λ h. h.logs ≤ 16 };
}

impl Heads {
    /// Heads of so many logs, all at block 0.
    pub fn new(logs: u32) -> Heads
        requires { logs ≤ 16 }
        ensures { result ≡ replicate logs 0 }
    {
        Heads {
            logs: logs as usize,
            blocks: [0; 16],
        }
    }

    /// How many logs there are.
    pub fn logs(&self) -> u32
        ensures answer { result ≡ length self.now }
        ensures bound { result ≤ 16 }
    {
        self.logs as u32
    }

    /// The first block of a log.
    pub fn head(&self, log: u32) -> u64
        requires some { 0 < log }
        requires within { log ≤ length self.now }
        ensures { result ≡ slice_index self.now (log - 1) }
    {
        let blocks = &self.blocks;
        blocks[log as usize - 1]
    }

    pub fn set_head(&mut self, log: u32, block: u64)
        requires some { 0 < log }
        requires within { log ≤ length self.old }
        ensures { self.new ≡ slice_set self.old (log - 1) block }
    {
        let blocks = &mut self.blocks;
        blocks[log as usize - 1] = block;
    }

    /// Writes the heads from word 7 on.
    pub fn put(&self, words: &mut [u64; 126])
        ensures { words.new ≡ take 7 words.old ++ (self.now ++ drop (7 + length self.now) words.old) }
    {
        let logs = self.logs;
        words[7..7 + logs].copy_from_slice(&self.blocks[..logs]);
    }

    /// The heads of so many logs, from word 7 on.
    pub fn take(words: &[u64; 126], logs: usize) -> Heads
        requires { logs ≤ 16 }
        ensures { result ≡ take logs (drop 7 words.now) }
    {
        let mut blocks = [0; 16];
        blocks[..logs].copy_from_slice(&words[7..7 + logs]);
        Heads { logs, blocks }
    }
}
