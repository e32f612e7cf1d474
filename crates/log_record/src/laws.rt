// What the definitions say of one another.
ghost use Rattle.log_record.specs.Laws.{EveryLonger, EveryRecordIn};

/// The record that stands first is the one that the grammar says, or none does.
pub fn every_record_in()
    ensures { EveryRecordIn }
{}

/// More bytes behind do not change it.
pub fn every_longer()
    ensures { EveryLonger }
{}
