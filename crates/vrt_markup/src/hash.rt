// A hash of texts.
ghost use Rattle.std.specs.Prelude.{◌≡◌};
ghost use Rattle.vrt_markup.specs.Hashes.{text_hash};

use std::hash::{DefaultHasher, Hasher};

/// SipHash-1-3 of a key and a text behind it. Two texts of one hash take some billions of tries, many of one hash far
/// more; with a key that is made of the texts themselves no such two can be looked for beforehand.
#[tactic(auto, unfolding(crate::specs::Hashes::text_hash))]
pub fn text_hash(key: u64, text: &[u8]) -> u64
    ensures hash { result ≡ text_hash key text.now }
{
    let mut hasher = DefaultHasher::new();
    hasher.write(&key.to_le_bytes());
    hasher.write(text);
    hasher.finish()
}
