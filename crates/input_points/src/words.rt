// The words of a line.
ghost use Rattle.std.specs.Prelude.{◌≡◌, ◌≤◌, length, true, MatchOption};
ghost use Rattle.std.specs.List.{prefix_len, list_all};
ghost use Rattle.std.specs.Str.Lines.{strip_carriage_return};
ghost use Rattle.geotransform.specs.Decimal.{ticks_of};
ghost use Rattle.input_points.specs.Lines.{is_in_line};
ghost use Rattle.input_points.specs.Cuts.{IsLineIn};
ghost use Rattle.input_points.specs.Points.{point_of, line_kind_of};

use crate::entry::LineKind;
use crate::position::Position;
use lists_and_answers::token_at;

/// The most bytes that a line may have without its end.
pub const LONGEST: usize = 4096;

fn point_of(first: &[u8], second: &[u8]) -> LineKind
    ensures { result ≡ point_of (ticks_of first.now) (ticks_of second.now) }
{
    let Some(x) = Position::read(first) else {
        return LineKind::Bad;
    };
    let Some(y) = Position::read(second) else {
        return LineKind::Bad;
    };
    LineKind::Point(x, y)
}

/// What a line says, of which its end is no part.
#[tactic(auto, unfolding(crate::specs::Points::line_kind_of))]
pub fn line_kind_of(line: &[u8]) -> LineKind
    ensures { result ≡ line_kind_of line.now }
{
    if line.len() > LONGEST {
        return LineKind::Bad;
    }
    let (first, rest) = token_at(line);
    if first.is_empty() {
        return LineKind::Blank;
    }
    let (second, rest) = token_at(rest);
    let (third, _) = token_at(rest);
    if third.is_empty() {
        point_of(first, second)
    } else {
        LineKind::Bad
    }
}

/// A line without the carriage return before its line feed.
pub fn without_return(line: &[u8]) -> &[u8]
    ensures { result.now ≡ strip_carriage_return line.now }
{
    match line {
        [front @ .., b'\r'] => front,
        _ => line,
    }
}

fn line_len(text: &[u8]) -> usize
    ensures count { result ≡ prefix_len is_in_line text.now }
    ensures bound { result ≤ length text.now }
{
    text.iter().take_while(|c| **c != b'\n').count()
}

/// The bytes before the first line feed, and none where there is no line feed.
#[tactic(auto, using(crate::proofs::Lines::all_inside, crate::proofs::Lines::line_in))]
pub fn line_in(text: &[u8]) -> Option<&[u8]>
    ensures { MatchOption result (list_all is_in_line text.now ≡ true) (λ line. IsLineIn line.now text.now) }
{
    let (line, rest) = text.split_at(line_len(text));
    if rest.is_empty() { None } else { Some(line) }
}
