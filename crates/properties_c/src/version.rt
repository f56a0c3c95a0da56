// The version of the interface, and the release.

ghost use Rattle.std.specs.Prelude.{◌≡◌};

/// Returns the number of the interface: 4.
#[unsafe(no_mangle)]
pub extern "C" fn todrenval_version() -> u32
    ensures { result ≡ 4 }
{
    4
}

/// Returns the release as a number: 1.28.0 is 12800.
#[unsafe(no_mangle)]
pub extern "C" fn todrenval_release() -> u32
    ensures { result ≡ 12800 }
{
    12800
}
