// The places of rows.
ghost use Rattle.std.specs.Prelude.{◌≡◌, ◌<◌, ◌++◌, [], ◌∷◌, length, OnOk, OnErr, slice_get, Some};

use geotransform::MOST_SIDE;
use std::alloc::{AllocError, Global};
use std::marker::Model;

/// From so many rows on, room is made for all that a grid may have.
const MANY: usize = 1_048_576;

/// The place of the first byte of the first token of each row, counted from the text's first byte.
#[derive(Drop)]
pub struct Starts {
    places: Vec<u64>,
}

impl Model for Starts {
    ghost use Rattle.std.specs.Prelude.{List, ℕ};

    ghost Value = { List ℕ };

    ghost view = { λ s. s.places.items };
}

impl Starts {
    /// No row; it takes no memory.
    pub fn new(alloc: Global) -> Starts
        ensures empty { result ≡ [] }
    {
        Starts {
            places: Vec::new(alloc),
        }
    }

    // Makes room for a further row: for as many as there are, or for all that a grid may have, so that room is moved
    // once where much of it would stay behind.
    fn make_room(&mut self) -> Result<(), AllocError>
        ensures same { self.new ≡ self.old }
    {
        let count = self.places.len();
        let most = MOST_SIDE as usize;
        if count < MANY {
            self.places.reserve(1)
        } else {
            self.places.reserve_exact(most.saturating_sub(count))
        }
    }

    /// Appends the place of a row.
    pub fn push(&mut self, place: u64) -> Result<(), AllocError>
        ensures ok { OnOk result (self.new ≡ self.old ++ place ∷ []) }
        ensures err { OnErr result (self.new ≡ self.old) }
    {
        if self.places.len() == self.places.capacity() {
            self.make_room()?;
        }
        self.places.push(place)?;
        Ok(())
    }

    /// The number of rows.
    pub fn len(&self) -> usize
        ensures count { result ≡ length self.now }
    {
        self.places.len()
    }

    /// Lends the place of a row, counted from 0.
    pub fn get(&self, at: usize) -> &u64
        requires within { at < length self.now }
        ensures item { slice_get self.now at ≡ Some result.now }
    {
        &self.places[at]
    }

    /// Lends the places in order.
    pub fn as_slice(&self) -> &[u64]
        ensures items { result.now ≡ self.now }
    {
        self.places.as_slice()
    }
}
