// Texts as bytes: letters in any case, tokens between blanks, and parts that are appended one after another.
ghost use Rattle.std.specs.Prelude.{◌≡◌, ◌≤◌, ◌++◌, length, OnOk, OnErr};
ghost use Rattle.std.specs.List.{prefix_len};
ghost use Rattle.lists_and_answers.specs.Growth.{KeepsFront};
ghost use Rattle.lists_and_answers.specs.Texts.{joined, same_letters, is_white, is_blank, is_in_token, token_at};

use std::alloc::AllocError;

/// Whether two texts are the same but for the case of ASCII letters.
pub fn same_letters(a: &[u8], b: &[u8]) -> bool
    ensures letters { result ≡ same_letters a.now b.now }
{
    a.eq_ignore_ascii_case(b)
}

/// Whether a byte is white space: a space, or one from 9 to 13.
pub fn is_white(byte: u8) -> bool
    ensures white { result ≡ is_white byte }
{
    byte == b' ' || (9 <= byte && byte <= 13)
}

// Whether a byte is a space or a tab.
fn is_blank(byte: u8) -> bool
    ensures { result ≡ is_blank byte }
{
    byte == b'\t' || byte == b' '
}

// The number of blanks in front.
fn blanks(text: &[u8]) -> usize
    ensures count { result ≡ prefix_len is_blank text.now }
    ensures bound { result ≤ length text.now }
{
    text.iter().take_while(|byte| is_blank(**byte)).count()
}

// The number of bytes before the first blank.
fn token_len(text: &[u8]) -> usize
    ensures count { result ≡ prefix_len is_in_token text.now }
    ensures bound { result ≤ length text.now }
{
    text.iter().take_while(|byte| !is_blank(**byte)).count()
}

/// The first token of a line, all that stands between blanks, and what follows it. It is empty where there is none.
pub fn token_at(line: &[u8]) -> (&[u8], &[u8])
    ensures cut { (result.0.now, result.1.now) ≡ token_at line.now }
{
    let (_, line) = line.split_at(blanks(line));
    line.split_at(token_len(line))
}

/// Appends these parts, one after another. Where memory is refused, what was held before stands at the front.
pub fn push_all(parts: &[&[u8]], out: &mut Vec<u8>) -> Result<(), AllocError>
    ensures ok { OnOk result (out.new.items ≡ out.old.items ++ joined parts.now) }
    ensures err { OnErr result (KeepsFront out.old.items out.new.items) }
{
    for part in parts {
        out.extend_from_slice(part)?;
    }
    Ok(())
}
