//! Numbers in bytes, the greatest byte first.
ghost use Rattle.std.specs.Prelude.{◌≡◌, ◌+◌, ◌≤◌, length};
ghost use Rattle.fallible_pg.specs.Numbers.{u16_at, u32_at};

// The number of the two bytes from a place on.
#[tactic(auto, unfolding(crate::specs::Numbers::u16_at))]
pub(crate) fn u16_at(bytes: &[u8], place: usize) -> u16
    requires { place + 2 ≤ length bytes.now }
    ensures { result ≡ u16_at bytes.now place }
{
    u16::from_be_bytes([bytes[place], bytes[place + 1]])
}

// The number of the four bytes from a place on.
#[tactic(auto, unfolding(crate::specs::Numbers::u32_at))]
pub(crate) fn u32_at(bytes: &[u8], place: usize) -> u32
    requires { place + 4 ≤ length bytes.now }
    ensures { result ≡ u32_at bytes.now place }
{
    u32::from_be_bytes([
        bytes[place],
        bytes[place + 1],
        bytes[place + 2],
        bytes[place + 3],
    ])
}
