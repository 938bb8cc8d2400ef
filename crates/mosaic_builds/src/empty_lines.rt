// Lists of lines without those that are empty.
ghost use Rattle.std.specs.Prelude.{◌≡◌, ◌≤◌, ◌<◌, ◌+◌, ◌==◌, ◌↔◌, ℕ, true, List, ◌∷◌, ◌++◌, length, take, drop};
ghost use Rattle.std.specs.Str.{IsUtf8};
ghost use Rattle.std.specs.Str.Lines.{lines};
ghost use Rattle.mosaic_builds.specs.Feeds.{without_empty};
ghost use Rattle.mosaic_builds.specs.Inputs.{filled};

// Puts a byte behind those that are kept, unless it is a line feed where a line begins. The result is how many are
// kept.
#[tactic(auto, using(crate::proofs::Feeds::passed_over, crate::proofs::Feeds::kept_behind))]
fn keep_byte(bytes: &mut [u8], kept: usize, begins: bool, byte: u8) -> usize
    requires room { kept < length bytes.old }
    ensures front { (rest : List ℕ) → take result bytes.new ++ without_empty (byte == 10) rest ≡ take kept bytes.old
        ++ without_empty begins (byte ∷ rest) }
    ensures later { (n : ℕ) → kept < n → drop n bytes.new ≡ drop n bytes.old }
    ensures few { result ≤ kept + 1 }
    ensures size { length bytes.new ≡ length bytes.old }
{
    if byte == b'\n' && begins {
        kept
    } else {
        bytes[kept] = byte;
        kept + 1
    }
}

// Moves the bytes that are kept to the front: all but each line feed where a line begins. The result is how many.
fn move_kept(bytes: &mut [u8]) -> usize
    ensures kept { take result bytes.new ≡ without_empty true bytes.old }
    ensures few { result ≤ length bytes.old }
    ensures size { length bytes.new ≡ length bytes.old }
{
    let mut kept = 0;
    let mut begins = true;
    for at in 0..bytes.len() {
        let byte = bytes[at];
        kept = keep_byte(bytes, kept, begins, byte);
        begins = byte == b'\n';
    }
    kept
}

/// Takes out the line feeds that end empty lines: at the start, and behind another one.
pub fn drop_empty_lines(bytes: &mut Vec<u8>)
    ensures kept { bytes.new.items ≡ without_empty true bytes.old.items }
    ensures lines { filled (lines bytes.new.items) ≡ filled (lines bytes.old.items) }
    ensures text { IsUtf8 bytes.new.items ↔ IsUtf8 bytes.old.items }
    ensures short { length bytes.new.items ≤ length bytes.old.items }
{
    let kept = move_kept(bytes);
    bytes.truncate(kept);
}
