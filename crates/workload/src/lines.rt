// The lines of a workload, one by one.
ghost use Rattle.std.specs.Prelude.{◌≡◌, ◌≤◌, [], ◌∷◌, MatchOption};
ghost use Rattle.workload.specs.Lines.{lines_of};

use crate::draws::{LAST, call_at};
use rand_pcg::Lcg64Xsh32;
use script_lang::Line;
use std::marker::Model;

/// The lines of a workload that are still to come.
#[derive(Drop)]
pub struct Workload {
    // Which workload it is; the lines are those of this number.
    number: u64,
    words: Lcg64Xsh32,
    count: u32,
    workers: u32,
    // How many transactions are done, and the place of the next line in the one in hand.
    done: u32,
    place: u32,
}

impl Model for Workload {
    ghost use Rattle.std.specs.Prelude.{List};
    ghost use Rattle.script_lang.specs.declared.line.Line.{Line};
    ghost use Rattle.workload.specs.Inside.{Stands, to_come};

    ghost Value = { List Line };

    ghost view = { λ w. to_come w.number w.count w.workers w.done w.place };

    ghost invariant = { λ w. Stands w.number w.count w.workers w.done w.place w.words };
}

impl Workload {
    /// The workload of a number: so many transactions, of so many workers' sessions in turn.
    pub fn new(number: u64, count: u32, workers: u32) -> Workload
        requires { 1 ≤ workers }
        ensures { result ≡ lines_of number count workers }
    {
        Workload {
            number,
            words: Lcg64Xsh32::new(number, 1),
            count,
            workers,
            done: 0,
            place: 0,
        }
    }

    /// Takes the next line. Behind the last there is none, however often it is asked.
    pub fn next(&mut self) -> Option<Line>
        ensures { MatchOption result ((self.old ≡ []) × (self.new ≡ [])) (λ line. self.old ≡ line ∷ self.new) }
    {
        if self.done == self.count {
            return None;
        }
        let session = 1 + self.done % self.workers;
        let call = call_at(self.place, &mut self.words);
        if self.place == LAST {
            self.place = 0;
            self.done += 1;
            return Some(Line { session, call });
        }
        self.place += 1;
        Some(Line { session, call })
    }
}
