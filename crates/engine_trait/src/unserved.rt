// Why a call of a session was not served.
ghost use Rattle.std.specs.Prelude.{◌≡◌};
ghost use Rattle.engine_trait.specs.declared.unserved.Unserved.TheVariants as unserved;

use map_model::Refusal;

/// Why a call was not answered.
#[derive(Clone, Copy, Debug, PartialEq, Eq)]
pub enum Unanswered {
    /// An earlier call met a fault of the disk or a damaged page. The engine is as it was.
    Broken,
    /// The disk failed. Only `Broken` is answered from then on.
    DiskFault,
    /// The page at this place of the pages' area is not as the engine left it. Only `Broken` is answered from then on.
    Damaged { place: u64 },
}

/// Why a call was not served: it was refused, which is an answer; or it has none.
#[derive(Clone, Copy, Debug, PartialEq, Eq)]
pub enum Unserved {
    /// The engine works on.
    Refused(Refusal),
    /// The engine works no longer.
    Unanswered(Unanswered),
}

impl From<Refusal> for Unserved {
    ghost from_gives = { λ why e. e ≡ unserved.Refused why };

    fn from(why: Refusal) -> Unserved {
        Unserved::Refused(why)
    }
}

impl From<Unanswered> for Unserved {
    ghost from_gives = { λ why e. e ≡ unserved.Unanswered why };

    fn from(why: Unanswered) -> Unserved {
        Unserved::Unanswered(why)
    }
}
