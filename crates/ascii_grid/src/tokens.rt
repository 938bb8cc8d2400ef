// Bytes between tokens, and their places.
ghost use Rattle.std.specs.Prelude.{◌≡◌, ◌≤◌, ◌<◌, ℕ, length, get_or, true, false};
ghost use Rattle.lists_and_answers.specs.Texts.{is_white};
ghost use Rattle.ascii_grid.specs.Tokens.{next};

use geotransform::LONGEST_DECIMAL;
use lists_and_answers::is_white;

/// The most bytes of a token.
pub const LONGEST_TOKEN: usize = LONGEST_DECIMAL;

/// How many bytes of a token are kept: one more than it may have.
pub const MOST_KEPT: usize = LONGEST_TOKEN + 1;

/// The place of the next byte.
pub fn next(at: u64) -> u64
    ensures { result ≡ next at }
{
    at.saturating_add(1)
}

/// Where the first white byte from a place on stands, or the end.
pub fn dark_end(bytes: &[u8], from: usize) -> usize
    requires { from ≤ length bytes.now }
    ensures least { from ≤ result }
    ensures within { result ≤ length bytes.now }
    ensures dark { (k : ℕ) → from ≤ k → k < result → is_white (get_or bytes.now k 0) ≡ false }
    ensures white { result < length bytes.now → is_white (get_or bytes.now result 0) ≡ true }
{
    for i in from..bytes.len() {
        if is_white(bytes[i]) {
            return i;
        }
    }
    bytes.len()
}

/// Where the first byte from a place on stands that isn't white, or the end.
pub fn white_end(bytes: &[u8], from: usize) -> usize
    requires { from ≤ length bytes.now }
    ensures least { from ≤ result }
    ensures within { result ≤ length bytes.now }
    ensures white { (k : ℕ) → from ≤ k → k < result → is_white (get_or bytes.now k 0) ≡ true }
{
    for i in from..bytes.len() {
        if !is_white(bytes[i]) {
            return i;
        }
    }
    bytes.len()
}

/// How many bytes stand in front of the first white one, or of the end.
pub fn dark_len(bytes: &[u8]) -> usize
    ensures within { result ≤ length bytes.now }
    ensures dark { (k : ℕ) → k < result → is_white (get_or bytes.now k 0) ≡ false }
    ensures white { result < length bytes.now → is_white (get_or bytes.now result 0) ≡ true }
{
    dark_end(bytes, 0)
}

/// How many bytes stand in front of the first one that isn't white, or of the end.
pub fn white_len(bytes: &[u8]) -> usize
    ensures within { result ≤ length bytes.now }
    ensures white { (k : ℕ) → k < result → is_white (get_or bytes.now k 0) ≡ true }
{
    white_end(bytes, 0)
}
