use crate::tables::all_hold;
use input_points::{Entry, LineKind, PointLines, Position, entries_of};
use itoa::Buffer;
use lists_and_answers::push_all;
use std::alloc::{AllocError, Global};
use std::test::*;

fn number(n: i128) -> Option<Position> {
    let mut digits = Buffer::new();
    Position::read(digits.format(n).as_bytes())
}

// A point, or a blank line, which no input has in its place, where a number is none of a point.
fn at(x: i128, y: i128) -> LineKind {
    match (number(x), number(y)) {
        (Some(x), Some(y)) => LineKind::Point(x, y),
        _ => LineKind::Blank,
    }
}

// Adds what a line says, and tells whether it has the next number. They are numbered from 1.
fn add(out: &mut Vec<LineKind>, line: u32, kind: LineKind) -> bool {
    out.push(kind).is_ok() && line as usize == out.len()
}

// Adds what the lines of a piece say, up to one that ends the reading.
fn read_piece(reader: &mut PointLines, piece: &[u8], out: &mut Vec<LineKind>) -> bool {
    let mut left = piece;
    for _ in 0..=piece.len() {
        let (entry, used) = reader.next(left);
        let Some(Entry { line, kind }) = entry else {
            return true;
        };
        if !add(out, line, kind) {
            return false;
        }
        left = &left[used..];
    }
    true
}

fn read_end(reader: PointLines, out: &mut Vec<LineKind>) -> bool {
    match reader.finish() {
        Some(Entry { line, kind }) => add(out, line, kind),
        None => true,
    }
}

// What the lines of an input say that comes in two pieces.
fn read_pieces(mut reader: PointLines, front: &[u8], back: &[u8], out: &mut Vec<LineKind>) -> bool {
    read_piece(&mut reader, front, out)
        && read_piece(&mut reader, back, out)
        && read_end(reader, out)
}

// Whether the input has these lines, where the first of its two pieces has so many bytes.
fn is_read(alloc: Global, input: &[u8], first: usize, want: &[LineKind]) -> bool {
    let Ok(reader) = PointLines::new(alloc) else {
        return false;
    };
    let (front, back) = input.split_at(first.min(input.len()));
    let mut kinds = Vec::new(alloc);
    read_pieces(reader, front, back, &mut kinds) && kinds.as_slice() == want
}

// Whether the input has these lines, wherever it is cut.
fn has_lines(alloc: Global, input: &str, want: &[LineKind]) -> bool {
    for first in 0..=input.len() {
        if !is_read(alloc, input.as_bytes(), first, want) {
            return false;
        }
    }
    true
}

// Whether three points are read, with a line that is none and one that is not reached.
fn reads_three(alloc: Global) -> bool {
    let lines = [at(0, 0), at(9, 9), at(2, 1), LineKind::Bad];
    let three = &lines[..3];
    has_lines(alloc, "0 0\n9 9\n2 1", three)
        && has_lines(alloc, "0 0\r\n\t9 \t 9.0\r\n 2 1e0 \n", three)
        && has_lines(alloc, "0 0\n9 9\n2 1\nx\n1 1\n", &lines)
}

// Whether lines that are blank are.
fn reads_blanks(alloc: Global) -> bool {
    let lines = [LineKind::Blank, LineKind::Blank, at(-1, 2), LineKind::Blank];
    has_lines(alloc, "\n \t\r\n-1 +2\n\n", &lines) && has_lines(alloc, "", &[])
}

#[test]
fn points(rt: HostRuntime) {
    assert!(rt; reads_three(rt.alloc()) && reads_blanks(rt.alloc()));
}

// Inputs of one bad line.
const BAD: &str = "x|1|1 2 3|1e12 0|1 2\r|1 2\r\r\n|1,2\n";

fn is_bad(alloc: Global, input: &str) -> Option<bool> {
    Some(has_lines(alloc, input, &[LineKind::Bad]))
}

#[test]
fn bad_lines(rt: HostRuntime) {
    all_hold(&rt, rt.alloc(), BAD, is_bad);
}

// A point behind so many blanks, with this end.
fn wide(alloc: Global, blanks: usize, end: &str) -> Result<Vec<u8>, AllocError> {
    let mut input = vec![in alloc; b' '; blanks]?;
    push_all(&[b"1 2", end.as_bytes()], &mut input)?;
    Ok(input)
}

const CUTS: [usize; 7] = [0, 1, 4095, 4096, 4097, 4098, 5000];

// Whether an input is this one line, cut at each of the places.
fn is_line(alloc: Global, input: &[u8], cuts: &[usize], want: &[LineKind]) -> bool {
    for first in cuts {
        if !is_read(alloc, input, *first, want) {
            return false;
        }
    }
    true
}

// Whether a point behind so many blanks is this line.
fn is_wide(alloc: Global, blanks: usize, end: &str, want: &[LineKind]) -> bool {
    match wide(alloc, blanks, end) {
        Ok(input) => is_line(alloc, &input, &CUTS, want),
        Err(_) => false,
    }
}

// Ends of lines.
const ENDS: &str = "|\n|\r\n";

// Whether the longest line is read with this end, and a longer one isn't.
fn is_bounded(alloc: Global, end: &str) -> Option<bool> {
    let longest = is_wide(alloc, 4093, end, &[at(1, 2)]);
    Some(longest && is_wide(alloc, 4094, end, &[LineKind::Bad]))
}

#[test]
fn long_lines(rt: HostRuntime) {
    all_hold(&rt, rt.alloc(), ENDS, is_bounded);
}

const PIECES: [&[u8]; 4] = [b"0 0\n9", b"", b" 9\r", b"\n2 1"];

fn entry(line: u32, kind: LineKind) -> Entry {
    Entry { line, kind }
}

// Whether four pieces, one of them empty, have these three lines.
fn has_entries(alloc: Global) -> Result<bool, AllocError> {
    let want = [entry(1, at(0, 0)), entry(2, at(9, 9)), entry(3, at(2, 1))];
    let entries = entries_of(alloc, &PIECES)?;
    Ok(entries.as_slice() == want.as_slice())
}

#[test]
fn in_pieces(rt: HostRuntime) -> Result<(), Fail> {
    assert!(rt; has_entries(rt.alloc())?);
    Ok(())
}

// Whether a line of more bytes than a line may have is refused before it ends, and nothing behind it is read.
fn refuses_early(mut reader: PointLines) -> bool {
    let blanks = [b' '; 4098];
    let bad = Entry {
        line: 1,
        kind: LineKind::Bad,
    };
    reader.next(&blanks[..4097]) == (None, 4097)
        && reader.next(&blanks[..1]) == (Some(bad), 1)
        && reader.next(b"\n1 2\n") == (None, 5)
        && reader.finish() == None
}

#[test]
fn refused_early(rt: HostRuntime) -> Result<(), Fail> {
    assert!(rt; refuses_early(PointLines::new(rt.alloc())?));
    Ok(())
}
