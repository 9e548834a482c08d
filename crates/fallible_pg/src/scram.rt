//! The words of SCRAM-SHA-256 (RFC 5802 and RFC 7677), over a hash that is handed in.
ghost use Rattle.std.specs.Prelude.{◌≡◌, ◌<◌, ◌≤◌, ◌++◌, ◌&&◌, ℕ, List, length, bytes_eq, codes, take, drop, nat_lt, MatchOption, MatchResult, vec_items};
ghost use Rattle.fallible_pg.specs.Scram.{Answers, Asks, answer_says, answer_wants, answer_words, digits_part, last_words, nonce_part, rounds_of, said_words, salt_part, sent_first, xored};
ghost use Rattle.fallible_pg.specs.Sent.{sent_message};
ghost use Rattle.program_io.specs.Numbers.{number_of};
ghost use Rattle.fallible_pg.specs.declared.sending.Unsent.TheVariants.{Long, Memory};

use crate::base64::{base64, from_base64};
use crate::sending::{Unsent, message_of};
use crate::strings::before;
use program_io::numbers::number_of;
use std::alloc::Global;
use std::str::from_utf8;

/// SHA-256, and what is made of it.
pub trait Hash {
    // the hash of bytes
    ghost hash: { List ℕ → List ℕ };

    // the HMAC of a message, by a key
    ghost hmac: { List ℕ → List ℕ → List ℕ };

    // what a password is stretched to, by a salt and a number of rounds
    ghost stretch: { List ℕ → List ℕ → ℕ → List ℕ };

    /// The hash of bytes.
    fn hash(&self, bytes: &[u8]) -> [u8; 32]
        ensures { result ≡ hash bytes.now };

    /// The HMAC of a message, by a key.
    fn hmac(&self, key: &[u8], message: &[u8]) -> [u8; 32]
        ensures { result ≡ hmac key.now message.now };

    /// What a password is stretched to, by a salt and a number of rounds: PBKDF2 with this HMAC.
    fn stretch(&self, password: &[u8], salt: &[u8], rounds: u64) -> [u8; 32]
        ensures { result ≡ stretch password.now salt.now rounds };
}

// Texts one after the other.
fn concatenated(alloc: Global, a: &[u8], b: &[u8], c: &[u8]) -> Result<Vec<u8>, Unsent>
    ensures { MatchResult result (λ text. vec_items text ≡ a.now ++ b.now ++ c.now)
        (λ why. why ≡ Memory) }
{
    let mut text = Vec::new(alloc);
    text.extend_from_slice(a)?;
    text.extend_from_slice(b)?;
    text.extend_from_slice(c)?;
    Ok(text)
}

/// What a client sends first, by a text of its own that no one can guess, without a comma. It fails with `Long` only above 1,073,741,792 bytes.
pub fn scram_first_message(alloc: Global, nonce: &[u8]) -> Result<Vec<u8>, Unsent>
    ensures { MatchResult result
        (λ sent. (vec_items sent ≡ sent_first nonce.now) × (length nonce.now ≤ 1073741792))
        (λ why. why ≡ Long → 1073741792 < length nonce.now) }
{
    let words = concatenated(alloc, b"n,,", b"n=,r=", nonce)?;
    if words.len() > 1_073_741_800 {
        return Err(Unsent::Long);
    }
    let size = (words.len() as u32).to_be_bytes();
    let body = concatenated(alloc, b"SCRAM-SHA-256\0", &size, &words)?;
    message_of(alloc, b"p", &body)
}

// The parts of what a server asks.
#[derive(Clone, Copy, Debug)]
struct Question<'a> {
    // the client's text and the server's
    nonce: &'a [u8],
    // the salt, in base64
    salt: &'a [u8],
    // how many rounds, in digits
    digits: &'a [u8],
}

// The bytes after so many; none where there are fewer.
fn beyond(bytes: &[u8], count: usize) -> &[u8]
    ensures { result.now ≡ drop count bytes.now }
{
    if count <= bytes.len() {
        &bytes[count..]
    } else {
        &[]
    }
}

// The parts that a text has, if a server asks well by it. Whether it does is for the caller to see.
fn parts_of(asked: &[u8]) -> Question<'_>
    ensures nonce { result.nonce.now ≡ nonce_part asked.now }
    ensures salt { result.salt.now ≡ salt_part asked.now }
    ensures digits { result.digits.now ≡ digits_part asked.now }
{
    let words = beyond(asked, 2);
    let nonce = before(b',', words);
    let salted = beyond(beyond(words, nonce.len()), 3);
    let salt = before(b',', salted);
    let digits = beyond(beyond(salted, salt.len()), 3);
    Question {
        nonce,
        salt,
        digits,
    }
}

// Whether a text that a server asks has these parts.
fn has_parts(alloc: Global, asked: &[u8], parts: Question<'_>) -> Result<bool, Unsent>
    ensures { MatchResult result (λ has. has ≡ bytes_eq
        (codes "r=" ++ parts.entry.nonce.now ++ codes ",s=" ++ parts.entry.salt.now ++ codes ",i="
        ++ parts.entry.digits.now) asked.now) (λ why. why ≡ Memory) }
{
    let last = concatenated(alloc, parts.salt, b",i=", parts.digits)?;
    let rest = concatenated(alloc, parts.nonce, b",s=", last.as_slice())?;
    let text = concatenated(alloc, b"r", b"=", rest.as_slice())?;
    Ok(text.as_slice() == asked)
}

// The number that a text writes, if it writes one.
fn number_in(text: &[u8]) -> Option<u64>
    ensures { result ≡ number_of text.now }
{
    match from_utf8(text) {
        Ok(text) => number_of(text),
        Err(_) => None,
    }
}

// The number of rounds that digits write, if they write one.
fn rounds_of(digits: &[u8]) -> Option<u64>
    ensures { result ≡ rounds_of digits.now }
{
    if digits.len() >= 1 && digits[0] > b'0' {
        number_in(digits)
    } else {
        None
    }
}

// Whether a text begins with another and goes on.
fn goes_on_from(text: &[u8], start: &[u8]) -> bool
    ensures { result ≡ (nat_lt (length start.now) (length text.now)
        && bytes_eq (take (length start.now) text.now) start.now) }
{
    start.len() < text.len() && &text[..start.len()] == start
}

// The first 32 bytes of two texts, joined by exclusive or.
fn xored(alloc: Global, a: &[u8], b: &[u8]) -> Result<Vec<u8>, Unsent>
    requires first { 32 ≤ length a.now }
    requires second { 32 ≤ length b.now }
    ensures { MatchResult result (λ both. vec_items both ≡ xored 32 a.now b.now)
        (λ why. why ≡ Memory) }
{
    let mut both = Vec::new(alloc);
    for place in 0..32 {
        both.extend_from_slice(&[a[place] ^ b[place]])?;
    }
    Ok(both)
}

// All that was said, of which both prove that they know the password.
fn said_words(alloc: Global, own: &[u8], asked: &[u8], nonce: &[u8]) -> Result<Vec<u8>, Unsent>
    ensures { MatchResult result (λ said. vec_items said ≡ said_words own.now asked.now nonce.now)
        (λ why. why ≡ Memory) }
{
    let first = concatenated(alloc, b"n=,r=", own, b",")?;
    let last = concatenated(alloc, b",", b"c=biws,r=", nonce)?;
    concatenated(alloc, &first, asked, &last)
}

// What the client answers.
fn answer_words<H: Hash>(
    alloc: Global,
    hash: &H,
    nonce: &[u8],
    stretched: &[u8],
    said: &[u8],
) -> Result<Vec<u8>, Unsent>
    ensures { MatchResult result (λ words. vec_items words
        ≡ answer_words H.hash H.hmac nonce.now stretched.now said.now) (λ why. why ≡ Memory) }
{
    let key = hash.hmac(stretched, b"Client Key");
    let stored = hash.hash(&key);
    let signature = hash.hmac(&stored, said);
    let proof = xored(alloc, &key, &signature)?;
    let text = base64(alloc, &proof)?;
    let unproved = concatenated(alloc, b"c=biws,r=", nonce, &[])?;
    concatenated(alloc, &unproved, b",p=", &text)
}

// What the server says last, where it knows the password too.
fn last_words<H: Hash>(
    alloc: Global,
    hash: &H,
    stretched: &[u8],
    said: &[u8],
) -> Result<Vec<u8>, Unsent>
    ensures { MatchResult result (λ words. vec_items words
        ≡ last_words H.hash H.hmac stretched.now said.now) (λ why. why ≡ Memory) }
{
    let key = hash.hmac(stretched, b"Server Key");
    let signature = hash.hmac(&key, said);
    let text = base64(alloc, &signature)?;
    concatenated(alloc, b"v=", &text, &[])
}

/// A client's answer to what a server asks, and by which words the server proves that it knows the password too.
#[derive(Debug, Drop)]
pub struct Answer {
    words: Vec<u8>,
    wanted: Vec<u8>,
}

/// The answer to what a server asks, after the client sent a text of its own first; `None` only where the server doesn't ask well: in other words, with a number of rounds that is none or begins with a 0 or a plus, or by a text that adds nothing to the client's, doesn't begin with it, or has a comma. It never fails with `Long`.
pub fn answer_of<H: Hash>(
    alloc: Global,
    hash: &H,
    password: &[u8],
    own: &[u8],
    asked: &[u8],
) -> Result<Option<Answer>, Unsent>
    ensures { MatchResult result (λ found. MatchOption found
        ((nonce salt digits : List ℕ) (rounds : ℕ) → ¬ (Asks own.now asked.now nonce salt digits rounds))
        (λ answer. Answers H.hash H.hmac H.stretch password.now own.now asked.now
        (answer_says answer) (answer_wants answer))) (λ why. why ≡ Memory) }
{
    let parts = parts_of(asked);
    let Some(salt) = from_base64(alloc, parts.salt)? else {
        return Ok(None);
    };
    let Some(rounds) = rounds_of(parts.digits) else {
        return Ok(None);
    };
    if !has_parts(alloc, asked, parts)? || !goes_on_from(parts.nonce, own) {
        return Ok(None);
    }
    let stretched = hash.stretch(password, &salt, rounds);
    let said = said_words(alloc, own, asked, parts.nonce)?;
    let words = answer_words(alloc, hash, parts.nonce, &stretched, &said)?;
    let wanted = last_words(alloc, hash, &stretched, &said)?;
    Ok(Some(Answer { words, wanted }))
}

impl Answer {
    /// The message that says it. It fails with `Long` only above 1,073,741,819 bytes.
    pub fn message(&self, alloc: Global) -> Result<Vec<u8>, Unsent>
        ensures { MatchResult result
            (λ sent. (vec_items sent ≡ sent_message (codes "p") (answer_says self.now))
            × (length (answer_says self.now) ≤ 1073741819))
            (λ why. why ≡ Long → 1073741819 < length (answer_says self.now)) }
    {
        message_of(alloc, b"p", &self.words)
    }

    /// Whether the server proves by these words that it knows the password.
    pub fn is_proved_by(&self, words: &[u8]) -> bool
        ensures { result ≡ bytes_eq words.now (answer_wants self.now) }
    {
        words == self.wanted.as_slice()
    }
}
