//! Numbers in bytes, the least byte first.
ghost use Rattle.std.specs.Prelude.{◌≡◌, ◌+◌, ◌≤◌, length};
ghost use Rattle.fallible_elf.specs.Numbers.{u16_at, u32_at, u64_at};

/// The number of the two bytes from a place on.
///
/// Requires that they lie in `bytes`.
#[tactic(auto, unfolding(crate::specs::Numbers::u16_at))]
pub fn u16_at(bytes: &[u8], place: usize) -> u16
    requires { place + 2 ≤ length bytes.now }
    ensures { result ≡ u16_at bytes.now place }
{
    u16::from_le_bytes([bytes[place], bytes[place + 1]])
}

/// The number of the four bytes from a place on.
///
/// Requires that they lie in `bytes`.
#[tactic(auto, unfolding(crate::specs::Numbers::u32_at))]
pub fn u32_at(bytes: &[u8], place: usize) -> u32
    requires { place + 4 ≤ length bytes.now }
    ensures { result ≡ u32_at bytes.now place }
{
    u32::from_le_bytes([
        bytes[place],
        bytes[place + 1],
        bytes[place + 2],
        bytes[place + 3],
    ])
}

/// The number of the eight bytes from a place on.
///
/// Requires that they lie in `bytes`.
#[tactic(auto, unfolding(crate::specs::Numbers::u64_at))]
pub fn u64_at(bytes: &[u8], place: usize) -> u64
    requires { place + 8 ≤ length bytes.now }
    ensures { result ≡ u64_at bytes.now place }
{
    u64::from_le_bytes([
        bytes[place],
        bytes[place + 1],
        bytes[place + 2],
        bytes[place + 3],
        bytes[place + 4],
        bytes[place + 5],
        bytes[place + 6],
        bytes[place + 7],
    ])
}
