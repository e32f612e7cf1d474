// What holds of every disk in memory.
ghost use Rattle.lean_disk.specs.Laws.{EveryArea, EveryMoment};

/// At each moment of a disk in memory a crash is told of.
pub fn every_moment()
    ensures { EveryMoment }
{}

/// A disk in memory that tells of crashes tells of each of its areas.
pub fn every_area()
    ensures { EveryArea }
{}
