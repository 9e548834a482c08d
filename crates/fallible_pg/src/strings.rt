//! Strings in bytes.
ghost use Rattle.std.specs.Prelude.{◌≡◌};
ghost use Rattle.fallible_pg.specs.Strings.{before, before_zero};

// The bytes before the first one that is a mark.
pub(crate) fn before(mark: u8, bytes: &[u8]) -> &[u8]
    ensures { result.now ≡ before mark bytes.now }
{
    for place in 0..bytes.len() {
        if bytes[place] == mark {
            return &bytes[..place];
        }
    }
    bytes
}

// The bytes before the first 0.
pub(crate) fn before_zero(bytes: &[u8]) -> &[u8]
    ensures { result.now ≡ before_zero bytes.now }
{
    before(0, bytes)
}
