//! Laws over the definitions of this crate.

ghost use Rattle.placed_items.specs.Places.{FirstPlace};

use crate::Identified;

/// At the place of an id stands an item of it, and none before it; where it has no place no item stands under it.
pub fn first_place<T: Identified>()
    ensures { FirstPlace T.id }
{}
