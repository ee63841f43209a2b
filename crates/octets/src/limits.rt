// How far a record may reach, and what a version allows.
ghost use Rattle.std.specs.Prelude.{◌≡◌};
ghost use Rattle.octets.specs.Prefixed.{reach};
ghost use Rattle.octets.specs.Versions.{longest_first};

// "the first 65,536 bytes"
pub const WINDOW: usize = 65536;

// The bytes of a record's length, and of an event.
pub const PREFIX: usize = 2;

pub const EVENT: usize = 11;

// How far a record may reach: no further than the input and the window.
pub fn reach(s: &[u8]) -> usize
    ensures { result ≡ reach s.now }
{
    s.len().min(WINDOW)
}

// The longest first record of each version from 0 on. No trail has version 0.
const LONGESTS: [u64; 2] = [0, 23];

// The longest first record of a trail of the version, 0 where there is no such version.
#[tactic(auto, unfolding(crate::specs::Versions::longest_first))]
pub fn longest_first(version: u8) -> u64
    ensures { result ≡ longest_first version }
{
    LONGESTS.get(usize::from(version)).copied().unwrap_or(0)
}
