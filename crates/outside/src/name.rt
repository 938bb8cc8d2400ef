// Names of files.
ghost use Rattle.std.specs.Prelude.{◌≡◌, ◌↔◌, ◌<◌, ℕ, length, take, ◌-◌, option_map, IsTrue, IfOk, IsErrOf, [], codes};
ghost use Rattle.std.specs.Option.{unwrap_or};
ghost use Rattle.lists_and_answers.specs.Texts.{same_letters};
ghost use Rattle.outside.specs.Paths.{normal, IsName, longest_name};
ghost use Rattle.outside.specs.Names.{cut_last, behind_last, folder_part, last_part, ending_of, extension_of_ending};
ghost use Rattle.outside.specs.Names.{extension_of};
ghost use Rattle.outside.specs.Names.{is_raw, has_no_lower, header_ending, header_of};
ghost use Rattle.outside.specs.declared.name.NameFault.TheVariants as name_fault;

use crate::Text;
use crate::path::normalise;
use lists_and_answers::Items;
use std::alloc::{AllocError, Global};
use std::marker::Model;

/// The greatest length of a name in bytes, before and after it is normalised.
pub const LONGEST_NAME: usize = 4096;

/// Why a text gives no name.
#[derive(Clone, Copy, Debug, PartialEq, Eq)]
pub enum NameFault {
    Empty,
    TooLong,
    Memory,
}

impl From<AllocError> for NameFault {
    ghost from_gives = { λ _ e. e ≡ name_fault.Memory };

    fn from(_: AllocError) -> Self {
        NameFault::Memory
    }
}

/// The kinds of files, by the endings of their names.
#[derive(Clone, Copy, Debug, PartialEq, Eq)]
pub enum Ext {
    /// Raw samples, line by line and in a line band by band.
    Bil,
    /// Raw samples, pixel by pixel.
    Bip,
    /// Raw samples, band by band.
    Bsq,
    /// A DTED cell of level 0.
    Dt0,
    /// A DTED cell of level 1.
    Dt1,
    /// A DTED cell of level 2.
    Dt2,
    /// An SRTM tile.
    Hgt,
    /// An Arc/Info ASCII grid.
    Asc,
    /// An Arc/Info ASCII grid.
    Grd,
    /// A mosaic.
    Vrt,
}

/// A path in its normal form, of 1 to 4,096 bytes.
#[derive(Drop)]
pub struct Name {
    text: Text,
}

impl Model for Name {
    ghost use Rattle.std.specs.Prelude.{List, ℕ};
    ghost use Rattle.outside.specs.Paths.{IsName};

    ghost Value = { List ℕ };

    ghost view = { λ a. a.text };

    ghost invariant = { λ a. IsName a.text };
}

/// A list of names.
pub type Names = Items<Name>;

// What stands before the last `byte` of a text, and what stands behind it.
fn cut_last(text: &str, byte: char) -> Option<(&str, &str)>
    requires { byte < 128 }
    ensures { option_map (λ p. (p.0.now, p.1.now)) result ≡ cut_last byte text.now }
{
    text.rsplit_once(byte)
}

// What stands behind the last `byte` of a text.
fn behind_last(text: &str, byte: char) -> Option<&str>
    requires { byte < 128 }
    ensures { option_map (λ p. p.now) result ≡ behind_last byte text.now }
{
    match cut_last(text, byte) {
        Some((_, rest)) => Some(rest),
        None => None,
    }
}

// What stands before the last slash of a name.
#[tactic(auto, unfolding(crate::specs::Names::folder_part))]
pub(crate) fn folder_of(name: &str) -> Option<&str>
    ensures { option_map (λ p. p.now) result ≡ folder_part name.now }
{
    match cut_last(name, '/') {
        Some((folder, _)) => Some(folder),
        None => None,
    }
}

// What stands behind the last slash of a name, or all of it where there is none.
#[tactic(auto, unfolding(crate::specs::Names::last_part))]
fn last_part_of(name: &str) -> &str
    ensures { result.now ≡ last_part name.now }
{
    behind_last(name, '/').unwrap_or(name)
}

// What follows the last point of the last part of a name.
#[tactic(auto, unfolding(crate::specs::Names::ending_of))]
fn ending_of(name: &str) -> Option<&str>
    ensures { option_map (λ p. p.now) result ≡ ending_of name.now }
{
    behind_last(last_part_of(name), '.')
}

// Whether two texts have the same letters, in upper or lower case.
fn same_letters(a: &str, b: &str) -> bool
    ensures { result ≡ same_letters a.now b.now }
{
    a.eq_ignore_ascii_case(b)
}

// The kind of an ending: one line for each kind.
#[tactic(auto, unfolding(crate::specs::Names::extension_of_ending))]
fn extension_of_ending(ending: &str) -> Option<Ext>
    ensures { result ≡ extension_of_ending ending.now }
{
    match ending {
        _ if same_letters(ending, "bil") => Some(Ext::Bil),
        _ if same_letters(ending, "bip") => Some(Ext::Bip),
        _ if same_letters(ending, "bsq") => Some(Ext::Bsq),
        _ if same_letters(ending, "dt0") => Some(Ext::Dt0),
        _ if same_letters(ending, "dt1") => Some(Ext::Dt1),
        _ if same_letters(ending, "dt2") => Some(Ext::Dt2),
        _ if same_letters(ending, "hgt") => Some(Ext::Hgt),
        _ if same_letters(ending, "asc") => Some(Ext::Asc),
        _ if same_letters(ending, "grd") => Some(Ext::Grd),
        _ if same_letters(ending, "vrt") => Some(Ext::Vrt),
        _ => None,
    }
}

// Whether no letter is in lower case.
fn has_no_lower(text: &str) -> bool
    ensures { result ≡ has_no_lower text.now }
{
    for byte in text.as_bytes() {
        if byte.is_ascii_lowercase() {
            return false;
        }
    }
    true
}

// The header's ending beside data with this ending.
fn header_ending(ending: &str) -> &str
    ensures { result.now ≡ header_ending ending.now }
{
    if has_no_lower(ending) { "HDR" } else { "hdr" }
}

// What stands before the ending of a name, its point included, and the ending.
fn cut_ending(name: &str) -> (&str, &str)
    ensures ending { result.1.now ≡ unwrap_or (ending_of name.now) [] }
    ensures stem { result.0.now ≡ take (length name.now - length (unwrap_or (ending_of name.now) [])) name.now }
{
    let ending = ending_of(name).unwrap_or("");
    let at = name.len() - ending.len();
    let (stem, _) = name.split_at(at);
    (stem, ending)
}

impl Name {
    /// The normal form of a text. `Empty` comes exactly for the empty text, `TooLong` exactly for
    /// one of more than 4,096 bytes, `Memory` where no memory is had.
    pub fn read(alloc: Global, text: &str) -> Result<Name, NameFault>
        ensures ok { IfOk result (λ name. name ≡ normal text.now) }
        ensures valid { IfOk result (λ name. IsName name) }
        ensures empty { IsErrOf result NameFault.Empty ↔ (length text.now ≡ 0) }
        ensures too_long { IsErrOf result NameFault.TooLong ↔ (longest_name < length text.now) }
    {
        if text.is_empty() {
            return Err(NameFault::Empty);
        }
        if text.len() > LONGEST_NAME {
            return Err(NameFault::TooLong);
        }
        Ok(Name {
            text: normalise(alloc, text)?,
        })
    }

    /// The kind that follows the last point of the last part, compared without case. None comes
    /// exactly where there is no point, or where what follows it is the ending of no kind.
    #[tactic(auto, unfolding(crate::specs::Names::extension_of))]
    pub fn extension(&self) -> Option<Ext>
        ensures kind { result ≡ extension_of self.now }
    {
        extension_of_ending(ending_of(self.text.as_str())?)
    }

    /// The name of the header beside raw data: its ending is `hdr`, or `HDR` where all letters of
    /// the data's ending are in upper case.
    #[tactic(auto, unfolding(crate::specs::Names::header_of))]
    pub fn header(&self, alloc: Global) -> Result<Name, AllocError>
        requires raw { IsTrue (is_raw (extension_of self.now)) }
        ensures header { IfOk result (λ name. name ≡ header_of self.now) }
    {
        let (stem, ending) = cut_ending(self.text.as_str());
        let mut text = String::from_str(alloc, stem)?;
        text.push_str(header_ending(ending))?;
        Ok(Name {
            text: Text::of(text),
        })
    }

    /// What stands before the last slash. None comes exactly where there is no slash.
    pub fn folder_part(&self) -> Option<&str>
        ensures folder_part { option_map (λ p. p.now) result ≡ folder_part self.now }
    {
        folder_of(self.text.as_str())
    }

    /// What stands behind the last slash, or the whole name where there is none.
    pub fn last_part(&self) -> &str
        ensures last_part { result.now ≡ last_part self.now }
    {
        last_part_of(self.text.as_str())
    }

    /// The name as a text.
    pub fn as_str(&self) -> &str
        ensures name { result.now ≡ self.now }
        ensures valid { IsName self.now }
    {
        self.text.as_str()
    }

    /// Whether the two are one name.
    pub fn is(&self, other: &Name) -> bool
        ensures { IsTrue result ↔ (self.now ≡ other.now) }
    {
        self.text.as_str() == other.text.as_str()
    }

    /// The same name once more.
    pub fn try_clone(&self) -> Result<Name, AllocError>
        ensures same { IfOk result (λ name. name ≡ self.now) }
    {
        Ok(Name {
            text: self.text.try_clone()?,
        })
    }
}
