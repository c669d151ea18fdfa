//! Stamps and great numbers, for C.

ghost use Rattle.std.specs.Prelude.{◌≡◌};
ghost use Rattle.node_for_c.specs.Numbers.{IsNearest, whole};

use stamp_register::Stamp;

/// The clock of a setting and the node that made it.
#[repr(C)]
#[derive(Drop, Clone, Copy)]
pub struct Stamped {
    pub clock: u64,
    pub node: u8,
}

/// What C is told where there is no stamp.
pub const NO_STAMP: Stamp = Stamp { clock: 0, node: 0 };

impl Stamped {
    /// A stamp as C has it.
    pub fn of(stamp: Stamp) -> Stamped
        ensures { result ≡ record { clock = stamp.clock; node = stamp.node } }
    {
        Stamped {
            clock: stamp.clock,
            node: stamp.node,
        }
    }
}

/// A number of up to 128 bits: `low + 2^64 * high`.
#[repr(C)]
#[derive(Drop, Clone, Copy)]
pub struct Wide {
    pub low: u64,
    pub high: u64,
}

const TWO_64: u128 = 18_446_744_073_709_551_616;

impl Wide {
    /// A number in its two halves.
    pub fn of(number: u128) -> Wide
        ensures { whole result ≡ number }
    {
        Wide {
            low: (number % TWO_64) as u64,
            high: (number / TWO_64) as u64,
        }
    }
}

/// The number of 64 bits that is nearest to this one.
pub fn narrow(number: i128) -> i64
    ensures { IsNearest number result }
{
    if number > i128::from(i64::MAX) {
        return i64::MAX;
    }
    if number < i128::from(i64::MIN) {
        return i64::MIN;
    }
    number as i64
}
