//! What holds of the slots of an image, of the image that formatting leaves, and of records listed in another order.
#![tactic(auto)]

ghost use Rattle.image_laws.specs.Bases.{EveryBase};
ghost use Rattle.image_laws.specs.Formatted.{EveryFormatted};
ghost use Rattle.image_laws.specs.Orders.{EveryOrder};

/// A page's base is its newest slot that is no later than the master's generation.
pub fn every_base()
    ensures { EveryBase }
{}

/// A formatted image is clean, and stands for the empty map.
pub fn every_formatted()
    ensures { EveryFormatted }
{}

/// What an image tells of its transactions does not depend on the order in which its records are listed.
pub fn every_order()
    ensures { EveryOrder }
{}
