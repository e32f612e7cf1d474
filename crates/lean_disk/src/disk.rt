// A disk of several areas, and one area of it: what each call does to what they tell.
ghost use Rattle.std.specs.Prelude.{◌≡◌, ◌+◌, ℕ, length, IsTrue};
ghost use Rattle.lean_disk.specs.Calls.{IsHere, IsOut, Looked, Noted, Rejoined, Split, Synced, Within, Wrote};
ghost use Rattle.lean_disk.specs.Faults.{HasCause, HasSum};
ghost use Rattle.lean_disk.specs.Story.{IsLawful, Seat, Story, Tells};

/// What a read answers: how many bytes it gave.
#[derive(Clone, Copy, Debug, PartialEq, Eq)]
pub enum Read {
    /// So many bytes, fewer than were asked for only at the area's end.
    Got(usize),
    Failed,
}

/// What a write or a sync answers.
#[derive(Clone, Copy, Debug, PartialEq, Eq)]
pub enum Did {
    Done,
    Failed,
}

/// One area of a disk, for the worker whose area it is.
pub trait Part {
    /// What it tells.
    ghost story: { Self → Story };

    /// Which area it is, and whose.
    ghost seat: { Self → Seat };

    /// How often it has failed.
    ghost faults: { Self → ℕ };

    /// Reads the bytes from place `at` on.
    fn read(&mut self, at: u64, into: &mut [u8]) -> Read
        ensures bound { Within result (length into.old) }
        ensures looked { Looked (seat self.old).area at into.old into.new result (story self.old) (story self.new) }
        ensures seat { seat self.new ≡ seat self.old }
        ensures cause { HasCause (faults self.old) (faults self.new) (result ≡ Read.Failed) };

    /// Writes the bytes from place `at` on. Until a sync a crash may leave anything in their place.
    fn write(&mut self, at: u64, bytes: &[u8]) -> Did
        ensures wrote { Wrote (seat self.old).area at bytes.now result (story self.old) (story self.new) }
        ensures seat { seat self.new ≡ seat self.old }
        ensures cause { HasCause (faults self.old) (faults self.new) (result ≡ Did.Failed) };

    /// After Done a crash leaves what a read gives.
    fn sync(&mut self) -> Did
        ensures synced { Synced (seat self.old).area result (story self.old) (story self.new) }
        ensures seat { seat self.new ≡ seat self.old }
        ensures cause { HasCause (faults self.old) (faults self.new) (result ≡ Did.Failed) };

    ghost lawful: { (p : Self) → IsLawful (story p) };

    /// Where it tells of crashes, it tells of its area.
    ghost seated: { (p : Self) → IsTrue (story p).counts → Tells (story p) (seat p).area };
}

/// Several areas under one clock: 0 is the master's, 1 the pages', `1 + s` the log of session s.
pub trait Disk: Send {
    /// An area that was handed out.
    type Part: Part + Send + Drop;

    /// What it tells.
    ghost story: { Self → Story };

    /// How often it has failed.
    ghost faults: { Self → ℕ };

    /// Reads the bytes of an area from place `at` on.
    fn read(&mut self, area: u32, at: u64, into: &mut [u8]) -> Read
        ensures bound { Within result (length into.old) }
        ensures looked { Looked area at into.old into.new result (story self.old) (story self.new) }
        ensures cause { HasCause (faults self.old) (faults self.new) (result ≡ Read.Failed) };

    /// Writes the bytes from place `at` of an area on. Until a sync a crash may leave anything in their place.
    fn write(&mut self, area: u32, at: u64, bytes: &[u8]) -> Did
        ensures wrote { Wrote area at bytes.now result (story self.old) (story self.new) }
        ensures cause { HasCause (faults self.old) (faults self.new) (result ≡ Did.Failed) };

    /// After Done a crash leaves of the area what a read gives.
    fn sync(&mut self, area: u32) -> Did
        ensures synced { Synced area result (story self.old) (story self.new) }
        ensures cause { HasCause (faults self.old) (faults self.new) (result ≡ Did.Failed) };

    /// An output line was put.
    fn note(&mut self)
        ensures noted { Noted (story self.old) (story self.new) }
        ensures faults { faults self.new ≡ faults self.old };

    /// Hands an area out. Until it is back, no call on it is to be made here.
    fn split(&mut self, area: u32) -> Self::Part
        requires here { IsHere (story self.old) area }
        ensures split { Split area (story self.old) (story self.new) (Self.Part.story result) }
        ensures seat { (Self.Part.seat result).area ≡ area }
        ensures since { Tells (Self.Part.story result) area → (Self.Part.seat result).since + 1 ≡ (story self.new).moment }
        ensures faults { faults self.new ≡ faults self.old }
        ensures none { Self.Part.faults result ≡ 0 };

    /// Takes it back, with its bytes, its calls and its faults.
    fn rejoin(&mut self, area: u32, part: Self::Part)
        requires out { IsOut (story self.old) area (Self.Part.story part) }
        requires seat { (Self.Part.seat part).area ≡ area }
        requires notes { Tells (Self.Part.story part) area → (Self.Part.story part).notes ≡ (story self.old).notes }
        requires since { Tells (Self.Part.story part) area → (Self.Part.seat part).since + 1 ≡ (story self.old).moment }
        ensures rejoined { Rejoined area (story self.old) (Self.Part.story part) (story self.new) }
        ensures faults { HasSum (faults self.old) (Self.Part.faults part) (faults self.new) };

    ghost lawful: { (d : Self) → IsLawful (story d) };

    /// Where it tells of crashes, it tells of each area.
    ghost whole: { (d : Self) (a : ℕ) → IsTrue (story d).counts → Tells (story d) a };
}
