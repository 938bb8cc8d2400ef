// The samples of a row, read in pieces.
ghost use Rattle.std.specs.Prelude.{◌≡◌, ℕ, ℤ, ◌≤◌, ◌<◌, ◌+◌, length, take, get_or, true, false, [], ◌∷◌, ◌++◌, List};
ghost use Rattle.std.specs.Prelude.{◌||◌, ◌==◌, nat_le, min, drop};
ghost use Rattle.lists_and_answers.specs.Places.{StandsAt};
ghost use Rattle.lists_and_answers.specs.Texts.{is_white};
ghost use Rattle.ascii_grid.specs.Scan.{is_open};
ghost use Rattle.ascii_grid.specs.Scanning.{longest_token, padded};
ghost use Rattle.ascii_grid.specs.Row.{value_or_zero, put, reading, row_ended, row_byte, row_fed, Fills, row_of};
ghost use Rattle.ascii_grid.specs.Row.{ended_in, ended_from, fresh, HasRead};

use crate::open::Open;
use crate::tokens::{LONGEST_TOKEN, dark_len, white_len};
use crate::values::{value_at, value_in};
use lists_and_answers::is_white;
use std::marker::Model;

/// What was read of a row so far: how many samples are filled, the token that is open, and whether an
/// empty piece ended the row.
#[derive(Drop)]
pub struct RowState {
    held: Open,
    filled: usize,
    over: bool,
}

impl Model for RowState {
    ghost use Rattle.ascii_grid.specs.Row.{RowNow};

    ghost Value = { RowNow };

    ghost view = { λ s. record { held = s.held; filled = s.filled; over = s.over } };
}

impl RowState {
    /// Nothing was read. It takes no memory.
    #[tactic(auto, using(crate::proofs::Rows::fresh_fills, crate::proofs::Files::fresh_reads))]
    pub fn new() -> RowState
        ensures state { result ≡ fresh }
        ensures fills { (out : List ℤ) → Fills result out [] }
        ensures reads { (out : List ℤ) (file : List ℕ) (from : ℕ) → HasRead result out file from from }
    {
        RowState {
            held: Open::new(),
            filled: 0,
            over: false,
        }
    }

    // Reads a byte.
    #[tactic(auto, unfolding(crate::specs::Row::row_byte))]
    fn add(&mut self, c: u8, out: &mut [i32])
        requires { self.old.filled ≤ length out.old }
        ensures fed { reading self.new out.new ≡ row_byte (reading self.old out.old) c }
        ensures over { self.new.over ≡ self.old.over }
        ensures room { self.new.filled ≤ length out.new }
        ensures size { length out.new ≡ length out.old }
    {
        if !is_white(c) {
            self.held.push(c);
            return;
        }
        self.filled = ended(&self.held, self.filled, out);
        self.held.pass();
    }

    // Reads a whole token of this value, where none is open, and a byte of white space behind it.
    fn add_whole(&mut self, token: &[u8], value: i32, out: &mut [i32])
        requires value { value ≡ value_or_zero token.now }
        requires filled { self.old.filled ≤ length out.old }
        requires some { 0 < length token.now }
        requires few { length token.now ≤ longest_token }
        requires dark { (k : ℕ) → k < length token.now → is_white (get_or token.now k 0) ≡ false }
        requires closed { self.old.held.text ≡ [] }
        ensures fed { (c : ℕ) → is_white c ≡ true → reading self.new out.new ≡ row_fed (reading self.old out.old)
            (token.now ++ c ∷ []) }
        ensures over { self.new.over ≡ self.old.over }
        ensures room { self.new.filled ≤ length out.new }
        ensures size { length out.new ≡ length out.old }
    {
        self.filled = put_value(value, self.filled, out);
        self.held.pass_token(token.len());
    }

    // Reads white space, where no token is open.
    fn add_white(&mut self, white: &[u8])
        requires some { 0 < length white.now }
        requires white { (k : ℕ) → k < length white.now → is_white (get_or white.now k 0) ≡ true }
        requires closed { self.old.held.text ≡ [] }
        ensures fed { (out : List ℤ) → reading self.new out ≡ row_fed (reading self.old out) white.now }
        ensures over { self.new.over ≡ self.old.over }
        ensures filled { self.new.filled ≡ self.old.filled }
    {
        self.held.pass_white(white.len());
    }

    // Reads the first of these bytes: white space, or a whole token with the white space behind it, where
    // none is open, else one byte. How many it read.
    fn add_part(&mut self, bytes: &[u8], out: &mut [i32]) -> usize
        requires filled { self.old.filled ≤ length out.old }
        requires some { 0 < length bytes.now }
        ensures some { 0 < result }
        ensures within { result ≤ length bytes.now }
        ensures fed { reading self.new out.new ≡ row_fed (reading self.old out.old) (take result bytes.now) }
        ensures over { self.new.over ≡ self.old.over }
        ensures room { self.new.filled ≤ length out.new }
        ensures size { length out.new ≡ length out.old }
    {
        if !self.held.is_open() {
            if let Some((n, value)) = value_at(bytes) {
                self.add_whole(&bytes[..n], value, out);
                return n + 1;
            }
            let n = white_len(bytes);
            if n > 0 {
                self.add_white(&bytes[..n]);
                return n;
            }
            let n = dark_len(bytes);
            if n > 0 && n <= LONGEST_TOKEN && n < bytes.len() {
                let token = &bytes[..n];
                self.add_whole(token, value_or_zero(token), out);
                return n + 1;
            }
        }
        self.add(bytes[0], out);
        1
    }

    // Reads the bytes of a piece.
    fn take(&mut self, bytes: &[u8], out: &mut [i32])
        requires { self.old.filled ≤ length out.old }
        ensures fed { reading self.new out.new ≡ row_fed (reading self.old out.old) bytes.now }
        ensures over { self.new.over ≡ self.old.over }
        ensures room { self.new.filled ≤ length out.new }
        ensures size { length out.new ≡ length out.old }
    {
        let mut at = 0;
        while at < bytes.len() {
            at += self.add_part(&bytes[at..], out);
        }
    }

    // Whether so many samples are filled.
    fn is_full(&self, n: usize) -> bool
        ensures { result ≡ (self.now.filled == n) }
    {
        self.filled == n
    }

    // Ends the row.
    fn close(&mut self, out: &mut [i32])
        requires { self.old.filled ≤ length out.old }
        ensures row { out.new ≡ padded (row_ended (reading self.old out.old)) }
        ensures over { self.new.over ≡ true }
        ensures filled { self.new.filled ≡ length out.new }
        ensures size { length out.new ≡ length out.old }
    {
        let filled = ended(&self.held, self.filled, out);
        pad(filled, out);
        self.held.pass();
        self.filled = out.len();
        self.over = true;
    }

    // Reads a piece.
    #[tactic(auto, using(crate::proofs::Rows::fills_more, crate::proofs::Rows::counted))]
    fn read(&mut self, bytes: &[u8], out: &mut [i32]) -> bool
        requires { self.old.filled ≤ length out.old }
        ensures fills { (text : List ℕ) → Fills self.old out.old text → 0 < length bytes.now →
            Fills self.new out.new (text ++ bytes.now) }
        ensures row { (text : List ℕ) → Fills self.old out.old text → result ≡ true →
            out.new ≡ row_of (length out.new) (text ++ bytes.now) }
        ensures whole { result ≡ ((length bytes.now == 0) || (self.old.over || (self.new.filled == length out.new))) }
        ensures counted { 0 < length bytes.now → self.old.over ≡ false → self.new.filled ≡ min (length out.old)
            (self.old.filled + ended_from (is_open self.old.held.text) bytes.now) }
        ensures ended { (text : List ℕ) → Fills self.old out.old text → 0 < length bytes.now →
            result ≡ nat_le (length out.new) (ended_in (text ++ bytes.now)) }
        ensures over { self.new.over ≡ (self.old.over || (length bytes.now == 0)) }
        ensures room { self.new.filled ≤ length out.new }
        ensures size { length out.new ≡ length out.old }
    {
        if bytes.is_empty() {
            self.close(out);
            return true;
        }
        if self.over {
            self.close(out);
            return true;
        }
        self.take(bytes, out);
        self.is_full(out.len())
    }
}

/// Reads a further piece of a row's bytes into `out`, which has a place for each sample of the row and
/// is the same from piece to piece. True once all of it is filled. An empty piece ends the last token,
/// and what is then missing is 0. A token that is no value, or whose value isn't of Int32, reads as 0.
///
/// False exactly where no piece so far was empty and fewer tokens than `out` has places have ended in
/// these pieces; a token ends at the white space behind it. It takes no memory.
pub fn decode_more(state: &mut RowState, bytes: &[u8], out: &mut [i32]) -> bool
    requires room { state.old.filled ≤ length out.old }
    // what was read goes on with these bytes
    ensures fills { (text : List ℕ) → Fills state.old out.old text → 0 < length bytes.now →
        Fills state.new out.new (text ++ bytes.now) }
    // once it is true, the samples are the first values of all bytes
    ensures row { (text : List ℕ) → Fills state.old out.old text → result ≡ true →
        out.new ≡ row_of (length out.new) (text ++ bytes.now) }
    // when it is true
    ensures whole { result ≡ ((length bytes.now == 0) || (state.old.over || (state.new.filled == length out.new))) }
    ensures counted { 0 < length bytes.now → state.old.over ≡ false → state.new.filled ≡ min (length out.old)
        (state.old.filled + ended_from (is_open state.old.held.text) bytes.now) }
    ensures over { state.new.over ≡ (state.old.over || (length bytes.now == 0)) }
    ensures ended { (text : List ℕ) → Fills state.old out.old text → 0 < length bytes.now →
        result ≡ nat_le (length out.new) (ended_in (text ++ bytes.now)) }
    // the bytes of a file from a place on
    ensures more { (file : List ℕ) (from at : ℕ) → HasRead state.old out.old file from at → StandsAt file bytes.now at →
        0 < length bytes.now → HasRead state.new out.new file from (at + length bytes.now) }
    ensures line { (file : List ℕ) (from at : ℕ) → HasRead state.old out.old file from at → StandsAt file bytes.now at →
        0 < length bytes.now → result ≡ true → out.new ≡ row_of (length out.new) (drop from file) }
    ensures end { (file : List ℕ) (from at : ℕ) → HasRead state.old out.old file from at → length file ≤ at →
        length bytes.now ≡ 0 → out.new ≡ row_of (length out.new) (drop from file) }
    ensures filled { state.new.filled ≤ length out.new }
    ensures size { length out.new ≡ length out.old }
{
    state.read(bytes, out)
}

// The value of a token, 0 where it has none.
fn value_or_zero(text: &[u8]) -> i32
    ensures { result ≡ value_or_zero text.now }
{
    value_in(0, text).unwrap_or(0)
}

// Puts a value into the row, where there is room.
fn put_value(value: i32, filled: usize, out: &mut [i32]) -> usize
    requires { filled ≤ length out.old }
    ensures row { (token : List ℕ) → value ≡ value_or_zero token → record { filled = result; out = out.new }
        ≡ put (record { filled = filled; out = out.old }) token }
    ensures room { result ≤ length out.new }
    ensures size { length out.new ≡ length out.old }
{
    if filled < out.len() {
        out[filled] = value;
        filled + 1
    } else {
        filled
    }
}

// Puts the value of a token into the row, where there is room.
fn put(token: &[u8], filled: usize, out: &mut [i32]) -> usize
    requires { filled ≤ length out.old }
    ensures row { record { filled = result; out = out.new } ≡ put (record { filled = filled; out = out.old })
        token.now }
    ensures room { result ≤ length out.new }
    ensures size { length out.new ≡ length out.old }
{
    put_value(value_or_zero(token), filled, out)
}

// Puts the value of the open token into the row, where there is one and there is room.
fn ended(held: &Open, filled: usize, out: &mut [i32]) -> usize
    requires { filled ≤ length out.old }
    ensures row { record { filled = result; out = out.new } ≡ row_ended
        (record { held = held.now; row = record { filled = filled; out = out.old } }) }
    ensures room { result ≤ length out.new }
    ensures size { length out.new ≡ length out.old }
{
    if held.is_open() {
        put(held.text(), filled, out)
    } else {
        filled
    }
}

// Fills the rest with 0.
fn pad(filled: usize, out: &mut [i32])
    requires { filled ≤ length out.old }
    ensures { out.new ≡ padded (record { filled = filled; out = out.old }) }
{
    out[filled..].fill(0);
}
