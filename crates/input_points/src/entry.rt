// What the lines of an input say.
ghost use Rattle.std.specs.Prelude.{◌≡◌};
ghost use Rattle.input_points.specs.Entries.{ends};

use crate::position::Position;

/// What a line says. A line of blanks says nothing; a point is two numbers, the column or x first; a line past
/// 4,096 bytes is bad, and so is one that holds anything else. Line 16,777,217 is one too many.
#[derive(Clone, Copy, PartialEq, Eq)]
pub enum LineKind {
    Blank,
    Point(Position, Position),
    Bad,
    TooMany,
}

impl LineKind {
    /// Whether no line is read behind such a one.
    pub fn ends(&self) -> bool
        ensures { result ≡ ends self.now }
    {
        match self {
            LineKind::Blank | LineKind::Point(_, _) => false,
            LineKind::Bad | LineKind::TooMany => true,
        }
    }
}

/// A line: its number, counted from 1, and what it says.
#[derive(Clone, Copy, PartialEq, Eq)]
pub struct Entry {
    pub line: u32,
    pub kind: LineKind,
}
