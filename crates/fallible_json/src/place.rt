//! The line and the column of a byte of a text.
ghost use Rattle.std.specs.Prelude.{◌≡◌, ◌+◌, ◌-◌, ◌<◌, ◌≤◌, ◌^◌, drop, length, slice_index};
ghost use Rattle.fallible_json.specs.Places.{chars_in, is_within, lines_in, place_after_bytes, place_of};

// Whether a byte goes on with a character of UTF-8.
fn is_within(byte: u8) -> bool
    ensures { result ≡ is_within byte }
{
    byte >= 128 && byte < 192
}

// How many line feeds there are.
fn lines_in(bytes: &[u8]) -> usize
    ensures count { result ≡ lines_in bytes.now }
    ensures few { result ≤ length bytes.now }
{
    // In a loop, which a compiler makes count many bytes at a time; `filter` and `count` took 2 instructions a byte more.
    let mut count = 0;
    for byte in bytes {
        if *byte == b'\n' {
            count += 1;
        }
    }
    count
}

// How many characters begin.
fn chars_in(bytes: &[u8]) -> usize
    ensures count { result ≡ chars_in bytes.now }
    ensures few { result ≤ length bytes.now }
{
    let mut count = 0;
    for byte in bytes {
        if !is_within(*byte) {
            count += 1;
        }
    }
    count
}

// Where the last line begins.
fn line_start(bytes: &[u8]) -> usize
    ensures within { result ≤ length bytes.now }
    ensures last { lines_in (drop result bytes.now) ≡ 0 }
    ensures first { 0 < result → slice_index bytes.now (result - 1) ≡ 10 }
{
    let mut at = bytes.len();
    while 0 < at && bytes[at - 1] != b'\n' {
        at -= 1;
    }
    at
}

// The line and the column of what comes after bytes of which the first has these.
pub(crate) fn place_after_bytes(origin: (usize, usize), bytes: &[u8]) -> (usize, usize)
    requires line { origin.0 + length bytes.now ≤ 2 ^ 63 }
    requires column { origin.1 + length bytes.now ≤ 2 ^ 63 }
    ensures { result ≡ place_after_bytes origin bytes.now }
{
    let lines = lines_in(bytes);
    if lines == 0 {
        return (origin.0, origin.1 + chars_in(bytes));
    }
    let start = line_start(bytes);
    (origin.0 + lines, 1 + chars_in(&bytes[start..]))
}

/// The line and the column of a byte, both from 1. A line ends after a line feed, and each character before it in its line counts one for the column. After the last byte they are those of a further one.
pub fn place_of(text: &[u8], byte: usize) -> (usize, usize)
    ensures { result ≡ place_of text.now byte }
{
    if byte < text.len() {
        place_after_bytes((1, 1), &text[..byte])
    } else {
        place_after_bytes((1, 1), text)
    }
}
