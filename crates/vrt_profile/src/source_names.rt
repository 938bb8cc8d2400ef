// Names of sources: resolved from a document's folder, and related to it.
ghost use Rattle.std.specs.Prelude.{◌≡◌, ◌↔◌, ◌<◌, ◌++◌, ◌∷◌, ◌≢◌, Err, true, List, ℕ, length, option_map};
ghost use Rattle.std.specs.Prelude.{string_bytes, IfOk, IsErrOf};
ghost use Rattle.outside.specs.Paths.{normal, IsName, is_absolute, longest_name};
ghost use Rattle.vrt_markup.specs.Items.{strip, byte_at};
ghost use Rattle.vrt_profile.specs.Values.{SourceValue};
ghost use Rattle.vrt_profile.specs.Resolve.{folder_for, resolved_text, some_text, behind_folder, related};

use crate::document::Source;
use outside::{Name, NameFault, Text};
use std::alloc::{AllocError, Global};

// The greatest length of a name in bytes.
const LONGEST: u64 = outside::LONGEST_NAME as u64;

fn is_absolute(text: &str) -> bool
    ensures absolute { result ≡ is_absolute text.now }
{
    text.as_bytes().first() == Some(&b'/')
}

// The folder that a source's text is taken from, if it is taken from one.
fn folder_for<'a>(base: &'a Name, source: &Source) -> Option<&'a str>
    ensures folder { option_map (λ p. p.now) result ≡ folder_for base.now source.now }
{
    if source.relative && !is_absolute(source.file.as_str()) {
        base.folder_part()
    } else {
        None
    }
}

/// How many bytes the text has whose normal form is the name of a source: the source's text, behind
/// the folder of the document and a slash where it is relative to it.
pub fn resolved_len(base: &Name, source: &Source) -> u64
    ensures length { result ≡ length (resolved_text base.now source.now) }
{
    let own = source.file.as_str().len() as u64;
    match folder_for(base, source) {
        None => own,
        Some(folder) => folder.len() as u64 + 1 + own,
    }
}

// A text in a folder.
fn in_folder(alloc: Global, folder: &str, text: &str) -> Result<String, AllocError>
    ensures text { IfOk result (λ all. string_bytes all ≡ folder.now ++ 47 ∷ text.now) }
{
    let mut all = String::with_capacity(alloc, folder.len() + 1 + text.len())?;
    all.push_str(folder)?;
    all.push('/')?;
    all.push_str(text)?;
    Ok(all)
}

/// The name of a source of the document with the name `base`. Where the source's text is relative,
/// `base` has a folder and the text doesn't begin with a slash, it is the normal form of the folder, a
/// slash and the text; else that of the text alone. `TooLong` comes exactly where the text that is
/// normalised passes 4,096 bytes (`resolved_len` tells how many it has), `Memory` where memory is
/// refused, and `Empty` never.
#[inline(always)]
pub fn resolve(alloc: Global, base: &Name, source: &Source) -> Result<Name, NameFault>
    ensures ok { IfOk result (λ name. name ≡ normal (resolved_text base.now source.now)) }
    ensures valid { IfOk result IsName }
    ensures too_long { IsErrOf result NameFault.TooLong ↔ (longest_name < length (resolved_text base.now source.now)) }
    ensures never_empty { result ≢ Err NameFault.Empty }
{
    if resolved_len(base, source) > LONGEST {
        return Err(NameFault::TooLong);
    }
    source.rules();
    match folder_for(base, source) {
        None => Name::read(alloc, source.file.as_str()),
        Some(folder) => {
            let text = in_folder(alloc, folder, source.file.as_str())?;
            Name::read(alloc, text.as_str())
        }
    }
}

// What stands behind a front, where the text begins with it.
#[tactic(auto, using(crate::proofs::Related::stripped))]
fn behind_front<'a>(front: &str, text: &'a str) -> Option<&'a str>
    ensures behind { option_map (λ p. p.now) result ≡ strip front.now text.now }
{
    text.strip_prefix(front)
}

// What stands behind a slash in front.
#[tactic(auto, using(crate::proofs::Related::byte_stripped))]
fn behind_slash(text: &str) -> Option<&str>
    ensures behind { option_map (λ p. p.now) result ≡ byte_at 47 text.now }
{
    text.strip_prefix('/')
}

fn some_text(text: &str) -> Option<&str>
    ensures some { option_map (λ p. p.now) result ≡ some_text text.now }
{
    if text.is_empty() { None } else { Some(text) }
}

// What stands behind a folder and a slash.
fn behind_folder<'a>(folder: &str, name: &'a str) -> Option<&'a str>
    ensures behind { option_map (λ p. p.now) result ≡ behind_folder folder.now name.now }
{
    let slashed = behind_front(folder, name)?;
    let rest = behind_slash(slashed)?;
    some_text(rest)
}

// Whether a text is relative, and the text.
fn related<'a>(base: &Name, name: &'a Name) -> (bool, &'a str)
    ensures relative { result.0 ≡ (related base.now name.now).0 }
    ensures text { result.1.now ≡ (related base.now name.now).1 }
{
    let text = name.as_str();
    match base.folder_part() {
        None => (!is_absolute(text), text),
        Some(folder) => match behind_folder(folder, text) {
            Some(rest) => (true, rest),
            None => (false, text),
        },
    }
}

/// How a document with the name `base` names a file: whether its text is relative, and the text. It is
/// relative where the base has no folder and the name isn't absolute, or the name begins with the
/// base's folder and a slash and goes on behind them.
pub fn relate(alloc: Global, base: &Name, name: &Name) -> Result<(bool, Text), AllocError>
    ensures related { IfOk result (λ x. x ≡ related base.now name.now) }
{
    let (relative, text) = related(base, name);
    let text = Text::new(alloc, text)?;
    Ok((relative, text))
}

/// A source that names a file as `relate` does resolves to that file's name, and no limit is passed.
#[tactic(auto, using(crate::proofs::Related::related_text, crate::proofs::Related::related_name))]
pub fn related_resolves()
    ensures text { (base name : List ℕ) → IsName name → (s : SourceValue) → s.relative ≡ (related base name).0 →
        s.file ≡ (related base name).1 → resolved_text base s ≡ name }
    ensures name { (base name : List ℕ) → IsName name → (s : SourceValue) → s.relative ≡ (related base name).0 →
        s.file ≡ (related base name).1 → normal (resolved_text base s) ≡ name }
{}
