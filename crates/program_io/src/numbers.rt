//! Numbers that texts write.
ghost use Rattle.std.specs.Prelude.{◌≡◌};
ghost use Rattle.program_io.specs.Numbers.{number_of};

/// The number below 2 ^ 64 that a text writes in decimal digits, if it writes one. A plus may stand first.
pub fn number_of(text: &str) -> Option<u64>
    ensures { result ≡ number_of text.now }
{
    text.parse::<u64>().ok()
}
