//! The version of the library.
ghost use Rattle.std.specs.Prelude.{◌≡◌};

/// Returns the version, 100 * major + minor: 100 is version 1.0. A new major version requires changes of callers; a new minor version
/// adds functions. `LW_VERSION` in `include/lw.h` is the same number, and package versions begin with it.
#[unsafe(no_mangle)]
pub extern "C" fn lw_version() -> u32
    ensures { result ≡ 100 }
{
    100
}
