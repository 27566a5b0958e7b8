// The number of this release, for C.
ghost use Rattle.std.specs.Prelude.{◌≡◌};
ghost use Rattle.balkwizu.specs.Version.{version};

const MAJOR: u32 = 3;

const MINOR: u32 = 0;

const PATCH: u32 = 0;

// Returns the release's three numbers in one word, each but the first in eight bits: a later release is a larger number.
// C: uint32_t balkwizu_version(void)
#[unsafe(no_mangle)]
pub extern "C" fn balkwizu_version() -> u32
    ensures { result ≡ version }
{
    65536 * MAJOR + (256 * MINOR + PATCH)
}
