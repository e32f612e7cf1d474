//! What an image of the disk stands for, as lists of records and pages.
#![tactic(auto)]

ghost use Rattle.image_model.specs.Laws.{EveryDamage, EveryUndone};

/// A damage is found exactly where a rule is broken.
pub fn every_damage()
    ensures { EveryDamage }
{}

/// The recovered pages are a tree whose live pairs are the map for which the image stands.
pub fn every_undone()
    ensures { EveryUndone }
{}
