// Blocks that were asked for and not held.
use band_blocks::BlockKey;

// At most so many are remembered.
const MOST: usize = 32;

/// The blocks of files that points missed last, each of them read by a pixel alone: so many as the pool has
/// room for, and at most 32. A block that is missed again while it is one of them would still be held if it
/// had been loaded.
#[derive(Drop)]
pub struct Missed {
    keys: [Option<BlockKey>; 32],
    room: usize,
    // Where the next one is put.
    turn: usize,
}

// Whether it is this key.
fn is_key(held: Option<BlockKey>, key: &BlockKey) -> bool {
    match held {
        Some(held) => held == *key,
        None => false,
    }
}

impl Missed {
    /// None was missed, beside a pool of so many blocks.
    pub fn new(room: u32) -> Missed {
        Missed {
            keys: [None; 32],
            room: room as usize,
            turn: 0,
        }
    }

    // Whether a block is one of them.
    fn has(&self, key: &BlockKey) -> bool {
        for at in 0..MOST {
            if is_key(self.keys[at], key) {
                return true;
            }
        }
        false
    }

    // Puts a block in place of the one that was missed longest ago.
    fn put(&mut self, key: BlockKey) {
        let at = self.turn.min(MOST - 1);
        self.keys[at] = Some(key);
        self.turn = at + 1;
        if self.turn == MOST || self.turn >= self.room {
            self.turn = 0;
        }
    }

    /// Whether a block that is missed isn't one of them. It is from then on.
    pub fn is_new(&mut self, key: BlockKey) -> bool {
        if self.has(&key) {
            return false;
        }
        self.put(key);
        true
    }
}
