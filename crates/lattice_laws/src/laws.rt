//! Laws of every lattice: what follows from the order for whatever means the join of two values.

ghost use Rattle.lattice_laws.specs.Order.{IsAssociative, IsCommutative, IsIdempotent, IsLeastAbove};

use crate::join::Join;

/// A value joined with itself means the same.
pub fn idem<J: Join>()
    ensures { IsIdempotent J.admitted J.order }
{}

/// The order of two values does not matter.
pub fn comm<J: Join>()
    ensures { IsCommutative J.admitted J.order }
{}

/// Nor does the grouping of three.
pub fn assoc<J: Join>()
    ensures { IsAssociative J.admitted J.order }
{}

/// A join is below exactly the values that are above both.
pub fn least<J: Join>()
    ensures { IsLeastAbove J.admitted J.order }
{}
