// A key and its value that stand in front of bytes.
ghost use Rattle.std.specs.Prelude.{◌≡◌, ◌≤◌, ◌<◌, ◌-◌, ℕ, length, take, get_or, true, false, Some, IfSome};
ghost use Rattle.lists_and_answers.specs.Texts.{is_white};
ghost use Rattle.ascii_grid.specs.Scanning.{longest_token};
ghost use Rattle.ascii_grid.specs.Values.{is_body_start};
ghost use Rattle.ascii_grid.specs.Keys.{key_of};

use crate::head_parts::Key;
use crate::keys::key_of;
use crate::tokens::{LONGEST_TOKEN, dark_end, dark_len, white_end};
use crate::values::is_body_start;
use lists_and_answers::is_white;

/// A key, how many bytes it has, and where its value begins and ends.
#[derive(Clone, Copy)]
pub struct Pair {
    pub key: Key,
    pub len: usize,
    pub from: usize,
    pub end: usize,
}

// How many bytes the token in front has, 0 where it has more than 64 or begins a body. One of two bytes, the first of
// which is above `@`, is told at once.
#[inline(always)]
#[tactic(auto, using(crate::proofs::Names::two_dark, crate::proofs::Names::two_head))]
fn name_len(bytes: &[u8]) -> usize
    ensures short { result ≤ longest_token }
    ensures within { result ≤ length bytes.now }
    ensures dark { (k : ℕ) → k < result → is_white (get_or bytes.now k 0) ≡ false }
    ensures head { is_body_start (take result bytes.now) ≡ false }
{
    if bytes.len() > 2 && bytes[0] > b'@' && bytes[1] > b' ' && is_white(bytes[2]) {
        return 2;
    }
    let len = dark_len(bytes);
    if len > LONGEST_TOKEN || is_body_start(&bytes[..len]) {
        return 0;
    }
    len
}

/// The key and its value that stand in front, where white space stands behind both.
pub fn pair_at(bytes: &[u8]) -> Option<Pair>
    ensures named { IfSome result (λ p. 0 < p.len) }
    ensures short { IfSome result (λ p. p.len ≤ longest_token) }
    ensures name { IfSome result (λ p. (k : ℕ) → k < p.len → is_white (get_or bytes.now k 0) ≡ false) }
    ensures head { IfSome result (λ p. is_body_start (take p.len bytes.now) ≡ false) }
    ensures key { IfSome result (λ p. key_of (take p.len bytes.now) ≡ Some p.key) }
    ensures behind { IfSome result (λ p. p.len < p.from) }
    ensures some { IfSome result (λ p. p.from < p.end) }
    ensures few { IfSome result (λ p. p.end - p.from ≤ longest_token) }
    ensures within { IfSome result (λ p. p.end < length bytes.now) }
    ensures white { IfSome result (λ p. (k : ℕ) → p.len ≤ k → k < p.from → is_white (get_or bytes.now k 0) ≡ true) }
    ensures dark { IfSome result (λ p. (k : ℕ) → p.from ≤ k → k < p.end → is_white (get_or bytes.now k 0) ≡ false) }
    ensures last { IfSome result (λ p. is_white (get_or bytes.now p.end 0) ≡ true) }
{
    let len = name_len(bytes);
    if len == 0 {
        return None;
    }
    let key = key_of(&bytes[..len])?;
    let from = white_end(bytes, len);
    let end = dark_end(bytes, from);
    if len < from && from < end && end - from <= LONGEST_TOKEN && end < bytes.len() {
        Some(Pair {
            key,
            len,
            from,
            end,
        })
    } else {
        None
    }
}
