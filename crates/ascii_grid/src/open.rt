// The token that is open while bytes come in pieces.
ghost use Rattle.std.specs.Prelude.{◌≡◌, ℕ, ◌≤◌, ◌+◌, [], min};
ghost use Rattle.ascii_grid.specs.Scan.{Open, opened, passed, passed_over, is_open};

use crate::tokens::{MOST_KEPT, next};
use std::marker::Model;

/// The token that is open, and where the text stands. Of a token one byte more is kept than it may
/// have.
#[derive(Drop)]
pub struct Open {
    at: u64,
    begun: u64,
    len: usize,
    bytes: [u8; MOST_KEPT],
}

impl Model for Open {
    ghost use Rattle.std.specs.Prelude.{◌≤◌, take};
    ghost use Rattle.ascii_grid.specs.Scan.{Open};
    ghost use Rattle.ascii_grid.specs.Tokens.{most_kept};

    ghost Value = { Open };

    ghost view = { λ o. record { at = o.at; begun = o.begun; text = take o.len o.bytes } };

    ghost invariant = { λ o. o.len ≤ most_kept };
}

impl Open {
    /// The front of a text, with no token open.
    pub fn new() -> Open
        ensures { result ≡ record { at = 0; begun = 0; text = [] } }
    {
        Open {
            at: 0,
            begun: 0,
            len: 0,
            bytes: [0; MOST_KEPT],
        }
    }

    /// Whether a token is open.
    pub fn is_open(&self) -> bool
        ensures { result ≡ is_open self.now.text }
    {
        self.len > 0
    }

    /// The bytes of the token so far.
    pub fn text(&self) -> &[u8]
        ensures { result.now ≡ self.now.text }
    {
        &self.bytes[..self.len]
    }

    /// The place of the token's first byte.
    pub fn begun(&self) -> u64
        ensures { result ≡ self.now.begun }
    {
        self.begun
    }

    /// Where the text stands.
    pub fn place(&self) -> u64
        ensures { result ≡ self.now.at }
    {
        self.at
    }

    /// Where the text stands behind so many bytes more.
    pub fn place_behind(&self, len: usize) -> u64
        ensures { result ≡ min (self.now.at + len) 18446744073709551615 }
    {
        self.at.saturating_add(len as u64)
    }

    /// Takes all up to a whole token of so many bytes, which begins at a place, and the white space behind it.
    pub fn pass_token_at(&mut self, at: u64, len: usize)
        ensures { self.new ≡ passed_over at len }
    {
        self.begun = at;
        self.len = 0;
        self.at = at.saturating_add(len as u64).saturating_add(1);
    }

    /// Takes a whole token of so many bytes, where none is open, and the white space behind it.
    pub fn pass_token(&mut self, len: usize)
        ensures { self.new ≡ passed_over self.old.at len }
    {
        self.pass_token_at(self.at, len);
    }

    /// Takes so many bytes of white space, where no token is open.
    pub fn pass_white(&mut self, len: usize)
        ensures { self.new
            ≡ record { at = min (self.old.at + len) 18446744073709551615; begun = self.old.begun; text = [] } }
    {
        self.len = 0;
        self.at = self.at.saturating_add(len as u64);
    }

    /// Takes a byte of a token.
    pub fn push(&mut self, c: u8)
        ensures { self.new ≡ opened self.old c }
    {
        if self.len == 0 {
            self.begun = self.at;
        }
        if self.len < MOST_KEPT {
            self.bytes[self.len] = c;
            self.len += 1;
        }
        self.at = next(self.at);
    }

    /// Takes white space.
    pub fn pass(&mut self)
        ensures { self.new ≡ passed self.old }
    {
        self.len = 0;
        self.at = next(self.at);
    }
}
