// Writing a document: line by line, each with two spaces in front for each level.
ghost use Rattle.std.specs.Prelude.{◌≡◌, ℕ, ℤ, pos, suc, ◌<◌, ◌≤◌, ◌*◌, ◌*ℤ◌, ◌^◌, ◌++◌, [], ◌∷◌, codes};
ghost use Rattle.std.specs.Prelude.{OnOk, OnErr, unsigned_abs};
ghost use Rattle.std.specs.Fmt.{decimal, signed_decimal};
ghost use Rattle.lists_and_answers.specs.Growth.{KeepsFront};
ghost use Rattle.vrt_profile.specs.Values.{scale_limit};
ghost use Rattle.vrt_writing.specs.Spelled.{indent, escape, escaped, end_text, micro_text, part_text};

use geotransform::{Ticks, print_short};
use itoa::Buffer;
use std::alloc::AllocError;

// The spaces in front of a line of a level.
fn indent(level: usize) -> &'static [u8]
    requires level { level ≤ 3 }
    ensures spaces { result.now ≡ indent level }
{
    match level {
        0 => b"",
        1 => b"  ",
        2 => b"    ",
        _ => b"      ",
    }
}

/// Begins a tag: the spaces of its level, `<` and its name.
#[tactic(auto, using(crate::proofs::Pieces::three, crate::proofs::Pieces::keeps_one, crate::proofs::Pieces::keeps_two))]
pub fn push_start(level: usize, name: &[u8], out: &mut Vec<u8>) -> Result<(), AllocError>
    requires level { level ≤ 3 }
    ensures ok { OnOk result (out.new.items ≡ out.old.items ++ (indent level ++ 60 ∷ name.now)) }
    ensures err { OnErr result (KeepsFront out.old.items out.new.items) }
{
    out.extend_from_slice(indent(level))?;
    out.push(b'<')?;
    out.extend_from_slice(name)?;
    Ok(())
}

/// Ends a line with an end tag.
#[tactic(auto, using(crate::proofs::Pieces::three, crate::proofs::Pieces::keeps_one, crate::proofs::Pieces::keeps_two))]
pub fn push_end(name: &[u8], out: &mut Vec<u8>) -> Result<(), AllocError>
    ensures ok { OnOk result (out.new.items ≡ out.old.items ++ end_text name.now) }
    ensures err { OnErr result (KeepsFront out.old.items out.new.items) }
{
    out.extend_from_slice(b"</")?;
    out.extend_from_slice(name)?;
    out.extend_from_slice(b">\n")?;
    Ok(())
}

/// Appends a line that is an end tag alone.
#[tactic(auto, using(crate::proofs::Pieces::two, crate::proofs::Pieces::keeps_same, crate::proofs::Pieces::keeps_more))]
pub fn push_end_line(level: usize, name: &[u8], out: &mut Vec<u8>) -> Result<(), AllocError>
    requires level { level ≤ 3 }
    ensures ok { OnOk result (out.new.items ≡ out.old.items ++ (indent level ++ end_text name.now)) }
    ensures err { OnErr result (KeepsFront out.old.items out.new.items) }
{
    out.extend_from_slice(indent(level))?;
    push_end(name, out)?;
    Ok(())
}

// Appends a character, or its entity.
#[tactic(auto, using(crate::proofs::Pieces::keeps_same))]
fn push_escape(c: u8, out: &mut Vec<u8>) -> Result<(), AllocError>
    ensures ok { OnOk result (out.new.items ≡ out.old.items ++ escape c) }
    ensures err { OnErr result (KeepsFront out.old.items out.new.items) }
{
    match c {
        b'&' => out.extend_from_slice(b"&amp;"),
        b'<' => out.extend_from_slice(b"&lt;"),
        b'>' => out.extend_from_slice(b"&gt;"),
        b'"' => out.extend_from_slice(b"&quot;"),
        b'\'' => out.extend_from_slice(b"&apos;"),
        _ => {
            out.push(c)?;
            Ok(())
        }
    }
}

/// Appends a text, its special characters as entities.
#[tactic(auto, using(crate::proofs::Pieces::keeps_more))]
pub fn push_escaped(text: &str, out: &mut Vec<u8>) -> Result<(), AllocError>
    ensures ok { OnOk result (out.new.items ≡ out.old.items ++ escaped text.now) }
    ensures err { OnErr result (KeepsFront out.old.items out.new.items) }
{
    for c in text.as_bytes() {
        push_escape(*c, out)?;
    }
    Ok(())
}

/// Appends a whole number.
#[tactic(auto, using(crate::proofs::Pieces::keeps_same))]
pub fn push_number(n: u64, out: &mut Vec<u8>) -> Result<(), AllocError>
    ensures ok { OnOk result (out.new.items ≡ out.old.items ++ decimal n) }
    ensures err { OnErr result (KeepsFront out.old.items out.new.items) }
{
    let mut buffer = Buffer::new();
    out.extend_from_slice(buffer.format(n).as_bytes())
}

/// Appends a whole number with its sign.
#[tactic(auto, using(crate::proofs::Pieces::keeps_same))]
pub fn push_signed(n: i128, out: &mut Vec<u8>) -> Result<(), AllocError>
    ensures ok { OnOk result (out.new.items ≡ out.old.items ++ signed_decimal n) }
    ensures err { OnErr result (KeepsFront out.old.items out.new.items) }
{
    let mut buffer = Buffer::new();
    out.extend_from_slice(buffer.format(n).as_bytes())
}

// Millionths in ticks.
fn micro_ticks(v: i64) -> Ticks
    requires small { unsigned_abs v < 10 ^ 17 }
    ensures ticks { result ≡ v *ℤ pos 180000000000 }
{
    Ticks::of(v as i128 * 180_000_000_000)
}

/// Appends a number of millionths, without zeros at its end.
pub fn push_micro(v: i64, out: &mut Vec<u8>) -> Result<(), AllocError>
    requires small { unsigned_abs v < 10 ^ 17 }
    ensures ok { OnOk result (out.new.items ≡ out.old.items ++ micro_text v) }
    ensures err { OnErr result (KeepsFront out.old.items out.new.items) }
{
    print_short(micro_ticks(v), out)
}

// Parts of 10^12 in ticks.
fn part_ticks(v: i128) -> Ticks
    requires small { unsigned_abs v < scale_limit }
    ensures ticks { result ≡ v *ℤ pos 180000 }
{
    Ticks::of(v * 180_000)
}

/// Appends a number of parts of 10^12, without zeros at its end.
pub fn push_part(v: i128, out: &mut Vec<u8>) -> Result<(), AllocError>
    requires small { unsigned_abs v < scale_limit }
    ensures ok { OnOk result (out.new.items ≡ out.old.items ++ part_text v) }
    ensures err { OnErr result (KeepsFront out.old.items out.new.items) }
{
    print_short(part_ticks(v), out)
}
