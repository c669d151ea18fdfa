//! A caller of `lattice_laws`.

ghost use Rattle.std.specs.Prelude.{OnOk, OnErr, ◌≡◌};

use lattice_laws::Join;
use std::alloc::{AllocError, Global};

/// Takes in what another copy knows: then this one knows that, and all that it knew.
pub fn learn<V: Join>(alloc: Global, copy: &mut V, other: V) -> Result<(), AllocError>
    ensures learned { OnOk result (V.order other copy.new) }
    ensures kept { OnOk result (V.order copy.old copy.new) }
    ensures err { OnErr result (copy.new ≡ copy.old) }
{
    copy.join_in(alloc, other)
}
