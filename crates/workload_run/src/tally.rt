// What is counted of the answers to a workload.
ghost use Rattle.std.specs.Prelude.{◌≡◌, ◌∷◌, [], List, true, false};
ghost use Rattle.map_model.specs.Pairings.{is_open_line};
ghost use Rattle.map_model.specs.declared.call.Answered.{Answered};
ghost use Rattle.workload_run.specs.Counts.{begun_by, draw_refusals, goes_on, is_refusal, refusals_by};
ghost use Rattle.workload_run.specs.Inside.{Counts, IsTally};

use map_model::{Answer, Call};

/// What is counted so far.
#[derive(Clone, Copy, Debug)]
pub(crate) struct Tally {
    /// The newest begin was not refused.
    pub begun: bool,
    pub refused: u64,
    pub pairs: u64,
    pub sum: u128,
    /// Where a walk goes on behind the newest answer, if it does.
    pub on: Option<u64>,
}

impl Tally {
    pub fn new() -> Tally
        ensures { IsTally result [] }
    {
        Tally {
            begun: true,
            refused: 0,
            pairs: 0,
            sum: 0,
            on: None,
        }
    }

    /// The first answer to a line.
    pub fn begin_line(&mut self, call: &Call, answer: &Answer)
        ensures { (xs : List Answered) (x : Answered) → IsTally self.old xs → is_open_line xs ≡ false → x.call ≡ call.now → x.answer ≡ answer.now → IsTally self.new (x ∷ xs) }
    {
        self.refused = self
            .refused
            .saturating_add(refusals(self.begun, call, answer));
        self.begun = begun_by(self.begun, call, answer);
        self.count(answer);
    }

    /// A further one.
    pub fn go_on(&mut self, answer: &Answer)
        ensures { (xs : List Answered) (x : Answered) → IsTally self.old xs → is_open_line xs ≡ true → x.answer ≡ answer.now → IsTally self.new (x ∷ xs) }
    {
        self.count(answer);
    }

    // The pair that an answer tells, and where a walk goes on behind it.
    fn count(&mut self, answer: &Answer)
        ensures { Counts answer.now self.old self.new }
    {
        self.on = goes_on(answer);
        if let Answer::Pair { key: _, value } = *answer {
            self.pairs = self.pairs.saturating_add(1);
            self.sum = self.sum.saturating_add(u128::from(value));
        }
    }
}

fn is_refusal(answer: &Answer) -> bool
    ensures { result ≡ is_refusal answer.now }
{
    match *answer {
        Answer::Refused(_) => true,
        _ => false,
    }
}

// A draw counts as refused if it was, or the begin of its transaction.
fn refusals(begun: bool, call: &Call, answer: &Answer) -> u64
    ensures { result ≡ refusals_by begun call.now answer.now }
{
    match *call {
        Call::Get { .. } => draw_refusals(begun, answer),
        Call::Put { .. } => draw_refusals(begun, answer),
        Call::Del { .. } => draw_refusals(begun, answer),
        _ => 0,
    }
}

fn draw_refusals(begun: bool, answer: &Answer) -> u64
    ensures { result ≡ draw_refusals begun answer.now }
{
    if !begun || is_refusal(answer) { 1 } else { 0 }
}

fn begun_by(begun: bool, call: &Call, answer: &Answer) -> bool
    ensures { result ≡ begun_by begun call.now answer.now }
{
    match *call {
        Call::Begin => !is_refusal(answer),
        _ => begun,
    }
}

fn goes_on(answer: &Answer) -> Option<u64>
    ensures { result ≡ goes_on answer.now }
{
    match *answer {
        Answer::Begun { .. } => Some(0),
        Answer::More { from } => Some(from),
        _ => None,
    }
}
