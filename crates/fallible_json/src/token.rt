//! The tokens of JSON, and the bytes that each has.
ghost use Rattle.std.specs.Prelude.{◌≡◌};
ghost use Rattle.fallible_json.specs.Tokens.{after, after_escape, after_exponent, after_fraction, after_inside, after_integer, after_sign, begun_by, first_digit, goes_if, goes_on, is_blank, is_escaped, letter_begun, sign_of, token_of};

/// What a token is.
#[derive(Clone, Copy, Debug, PartialEq, Eq)]
pub enum Token {
    /// `[`
    BeginArray,
    /// `]`
    EndArray,
    /// `{`
    BeginObject,
    /// `}`
    EndObject,
    /// `:`
    NameSeparator,
    /// `,`
    ValueSeparator,
    /// A string.
    Text,
    /// A number.
    Number,
    /// `true`, `false` or `null`.
    Literal,
}

// What the bytes so far of a token are.
#[derive(Clone, Copy, Debug)]
pub(crate) enum Phase {
    // A token that no byte goes on with.
    Whole(Token),
    // A string without its last quote.
    Inside,
    // A string up to a backslash.
    Escape,
    // A string up to an escape in which so many hexadecimal digits are missing.
    FourDigits,
    ThreeDigits,
    TwoDigits,
    OneDigit,
    // A number up to its minus.
    Minus,
    // A number up to a first digit that is 0.
    Zero,
    // A number up to a digit of its integer.
    Integer,
    // A number up to its point.
    Point,
    // A number up to a digit of its fraction.
    Fraction,
    // A number up to its `e`.
    Exponent,
    // A number up to the sign of its exponent.
    Sign,
    // A number up to a digit of its exponent.
    Power,
    // The letters so far of a literal.
    T,
    Tr,
    Tru,
    F,
    Fa,
    Fal,
    Fals,
    N,
    Nu,
    Nul,
}

// Whether a byte stands between tokens: a blank, a tab, a line feed or a carriage return.
pub(crate) fn is_blank(byte: u8) -> bool
    ensures { result ≡ is_blank byte }
{
    byte == b' ' || byte == b'\t' || byte == b'\n' || byte == b'\r'
}

// A phase, where a test holds.
fn goes_if(test: bool, phase: Phase) -> Option<Phase>
    ensures { result ≡ goes_if test phase }
{
    if test { Some(phase) } else { None }
}

// The token that a byte alone is, if it is one.
pub(crate) fn sign_of(byte: u8) -> Option<Token>
    ensures { result ≡ sign_of byte }
{
    match byte {
        b'[' => Some(Token::BeginArray),
        b']' => Some(Token::EndArray),
        b'{' => Some(Token::BeginObject),
        b'}' => Some(Token::EndObject),
        b':' => Some(Token::NameSeparator),
        b',' => Some(Token::ValueSeparator),
        _ => None,
    }
}

// What the first digit of a number begins.
fn first_digit(byte: u8) -> Option<Phase>
    ensures { result ≡ first_digit byte }
{
    if byte == b'0' {
        Some(Phase::Zero)
    } else {
        goes_if(byte.is_ascii_digit(), Phase::Integer)
    }
}

// What a quote, a minus, a letter or a digit begins.
pub(crate) fn letter_begun(byte: u8) -> Option<Phase>
    ensures { result ≡ letter_begun byte }
{
    match byte {
        b'"' => Some(Phase::Inside),
        b'-' => Some(Phase::Minus),
        b't' => Some(Phase::T),
        b'f' => Some(Phase::F),
        b'n' => Some(Phase::N),
        _ => first_digit(byte),
    }
}

// What a byte begins, if it begins a token.
pub(crate) fn begun_by(byte: u8) -> Option<Phase>
    ensures { result ≡ begun_by byte }
{
    match sign_of(byte) {
        Some(sign) => Some(Phase::Whole(sign)),
        None => letter_begun(byte),
    }
}

// A string with one byte more.
fn after_inside(byte: u8) -> Option<Phase>
    ensures { result ≡ after_inside byte }
{
    match byte {
        b'"' => Some(Phase::Whole(Token::Text)),
        b'\\' => Some(Phase::Escape),
        _ => goes_if(byte >= 32, Phase::Inside),
    }
}

// Whether a byte may stand alone after a backslash.
fn is_escaped(byte: u8) -> bool
    ensures { result ≡ is_escaped byte }
{
    byte == b'"'
        || byte == b'\\'
        || byte == b'/'
        || byte == b'b'
        || byte == b'f'
        || byte == b'n'
        || byte == b'r'
        || byte == b't'
}

// A string with the byte after a backslash.
fn after_escape(byte: u8) -> Option<Phase>
    ensures { result ≡ after_escape byte }
{
    if byte == b'u' {
        Some(Phase::FourDigits)
    } else {
        goes_if(is_escaped(byte), Phase::Inside)
    }
}

// A number with one byte after its fraction.
fn after_fraction(byte: u8) -> Option<Phase>
    ensures { result ≡ after_fraction byte }
{
    goes_if(byte == b'e' || byte == b'E', Phase::Exponent)
}

// A number with one byte after its integer.
fn after_integer(byte: u8) -> Option<Phase>
    ensures { result ≡ after_integer byte }
{
    if byte == b'.' {
        Some(Phase::Point)
    } else {
        after_fraction(byte)
    }
}

// A number with one byte after the sign of its exponent.
fn after_sign(byte: u8) -> Option<Phase>
    ensures { result ≡ after_sign byte }
{
    goes_if(byte.is_ascii_digit(), Phase::Power)
}

// A number with one byte after its `e`.
fn after_exponent(byte: u8) -> Option<Phase>
    ensures { result ≡ after_exponent byte }
{
    if byte == b'+' || byte == b'-' {
        Some(Phase::Sign)
    } else {
        after_sign(byte)
    }
}

// A token with one byte more, if the byte goes on with it.
pub(crate) fn after(phase: Phase, byte: u8) -> Option<Phase>
    ensures { result ≡ after phase byte }
{
    match phase {
        Phase::Whole(_) => None,
        Phase::Inside => after_inside(byte),
        Phase::Escape => after_escape(byte),
        Phase::FourDigits => goes_if(byte.is_ascii_hexdigit(), Phase::ThreeDigits),
        Phase::ThreeDigits => goes_if(byte.is_ascii_hexdigit(), Phase::TwoDigits),
        Phase::TwoDigits => goes_if(byte.is_ascii_hexdigit(), Phase::OneDigit),
        Phase::OneDigit => goes_if(byte.is_ascii_hexdigit(), Phase::Inside),
        Phase::Minus => first_digit(byte),
        Phase::Zero => after_integer(byte),
        Phase::Integer => {
            if byte.is_ascii_digit() {
                Some(Phase::Integer)
            } else {
                after_integer(byte)
            }
        }
        Phase::Point => goes_if(byte.is_ascii_digit(), Phase::Fraction),
        Phase::Fraction => {
            if byte.is_ascii_digit() {
                Some(Phase::Fraction)
            } else {
                after_fraction(byte)
            }
        }
        Phase::Exponent => after_exponent(byte),
        Phase::Sign | Phase::Power => after_sign(byte),
        Phase::T => goes_if(byte == b'r', Phase::Tr),
        Phase::Tr => goes_if(byte == b'u', Phase::Tru),
        Phase::Tru => goes_if(byte == b'e', Phase::Whole(Token::Literal)),
        Phase::F => goes_if(byte == b'a', Phase::Fa),
        Phase::Fa => goes_if(byte == b'l', Phase::Fal),
        Phase::Fal => goes_if(byte == b's', Phase::Fals),
        Phase::Fals => goes_if(byte == b'e', Phase::Whole(Token::Literal)),
        Phase::N => goes_if(byte == b'u', Phase::Nu),
        Phase::Nu => goes_if(byte == b'l', Phase::Nul),
        Phase::Nul => goes_if(byte == b'l', Phase::Whole(Token::Literal)),
    }
}

// Whether a byte goes on with a token.
pub(crate) fn goes_on(phase: Phase, byte: u8) -> bool
    ensures { result ≡ goes_on phase byte }
{
    after(phase, byte).is_some()
}

// The token, if its bytes so far are one.
pub(crate) fn token_of(phase: Phase) -> Option<Token>
    ensures { result ≡ token_of phase }
{
    match phase {
        Phase::Whole(token) => Some(token),
        Phase::Zero | Phase::Integer | Phase::Fraction | Phase::Power => Some(Token::Number),
        _ => None,
    }
}
