// Texts that records and faults hold.
ghost use Rattle.std.specs.Prelude.{◌≡◌, ◌↔◌, IsTrue, IfOk, string_bytes};

use arrayvec::ArrayString;
use std::alloc::{AllocError, Global};
use std::marker::Model;

/// Where a text's bytes stand: up to 24 in the value itself, more of them apart.
#[derive(Drop)]
enum Held {
    Here(ArrayString<24>),
    Apart(String),
}

/// A text, which contracts see as its bytes. One of up to 24 bytes takes no memory.
#[derive(Drop)]
pub struct Text {
    held: Held,
}

impl Model for Text {
    ghost use Rattle.std.specs.Prelude.{List, ℕ};
    ghost use Rattle.outside.specs.Held.{held_bytes};

    ghost Value = { List ℕ };

    ghost view = { λ a. held_bytes a.held };
}

impl Text {
    /// A text of its own with these bytes.
    pub fn new(alloc: Global, text: &str) -> Result<Text, AllocError>
        ensures same { IfOk result (λ new. new ≡ text.now) }
    {
        match ArrayString::from(text) {
            Ok(few) => Ok(Text {
                held: Held::Here(few),
            }),
            Err(_) => Ok(Text::of(String::from_str(alloc, text)?)),
        }
    }

    // The text of a string.
    pub(crate) fn of(text: String) -> Text
        ensures same { result ≡ string_bytes text }
    {
        Text {
            held: Held::Apart(text),
        }
    }

    /// Its bytes, as a `str`.
    pub fn as_str(&self) -> &str
        ensures text { result.now ≡ self.now }
    {
        match &self.held {
            Held::Here(text) => text.as_str(),
            Held::Apart(text) => text.as_str(),
        }
    }

    /// Whether the two have the same bytes.
    pub fn is(&self, other: &Text) -> bool
        ensures same { IsTrue result ↔ (self.now ≡ other.now) }
    {
        self.as_str() == other.as_str()
    }

    /// The same text once more.
    pub fn try_clone(&self) -> Result<Text, AllocError>
        ensures same { IfOk result (λ new. new ≡ self.now) }
    {
        match &self.held {
            Held::Here(text) => Ok(Text {
                held: Held::Here(*text),
            }),
            Held::Apart(text) => Ok(Text::of(text.clone()?)),
        }
    }
}
