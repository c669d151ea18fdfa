//! The version of the library.

ghost use Rattle.std.specs.Prelude.{◌≡◌};
ghost use Rattle.failreg_c.specs.Version.{library_version};

/// Version 0.2.0.
const VERSION: u32 = 200;

/// Answers the version of the library: its first number times 10000, its second times 100, and its
/// third, added up. A program compares it with the `FAILREG_VERSION` that it was compiled with.
#[unsafe(no_mangle)]
pub extern "C" fn failreg_version() -> u32
    ensures { result ≡ library_version }
{
    VERSION
}
