// Mosaics of inputs, as texts: a line for each skipped input, and then the document or lines of it; or the refusal.
use crate::asking::options;
use crate::inputs::folder;
use buildvrt::{BuildFault, BuildOptions, Reason, Skipped, mosaic};
use catalog::{Head, head_of};
use lists_and_answers::{Items, push_all};
use outside::{MemFolder, Name};
use std::alloc::{AllocError, Global};
use std::process::Abort;
use std::test::*;
use vrt_profile::Document;
use vrt_writing::write;

/// What a row shows, the names of the inputs, what is asked for, and what comes.
pub type Case = (&'static str, &'static str, &'static str, &'static str);

fn head_in(alloc: Global, folder: &mut MemFolder, name: &str) -> Option<Head> {
    let name = Name::read(alloc, name).ok()?;
    head_of(alloc, folder, &name, false).ok()
}

fn add_head(alloc: Global, folder: &mut MemFolder, name: &str, heads: &mut Items<Head>) -> bool {
    match head_in(alloc, folder, name) {
        Some(head) => heads.push(head).is_ok(),
        None => false,
    }
}

fn heads_in(alloc: Global, folder: &mut MemFolder, inputs: &str) -> Option<Items<Head>> {
    let mut heads = Items::new(alloc);
    for name in inputs.split_ascii_whitespace() {
        if !add_head(alloc, folder, name, &mut heads) {
            return None;
        }
    }
    Some(heads)
}

fn reason_word(reason: Reason) -> &'static str {
    match reason {
        Reason::Geotransform => "geotransform",
        Reason::Srs => "srs",
        Reason::Bands => "bands",
        Reason::BandType => "type",
    }
}

fn push_reason(name: &str, reason: Reason, out: &mut Vec<u8>) -> Result<(), AllocError> {
    let word = reason_word(reason);
    push_all(&[name.as_bytes(), b" "], out)?;
    push_all(&[word.as_bytes(), b"\n"], out)
}

fn name_of(heads: &[Head], input: u32) -> &str {
    match heads.get(input as usize) {
        Some(head) => head.name.as_str(),
        None => "no input",
    }
}

fn push_skipped(heads: &[Head], skipped: &[Skipped], out: &mut Vec<u8>) -> Result<(), AllocError> {
    for skip in skipped {
        push_reason(name_of(heads, skip.input), skip.reason, out)?;
    }
    Ok(())
}

fn has_front(line: &str, fronts: &[&str]) -> bool {
    for front in fronts {
        if line.starts_with(front) {
            return true;
        }
    }
    false
}

// Adds the lines that begin with one of these, without the blanks before them.
fn push_lines(text: &str, fronts: &[&str], out: &mut Vec<u8>) -> Result<(), AllocError> {
    for line in text.lines() {
        let line = line.trim_start();
        if has_front(line, fronts) {
            push_all(&[line.as_bytes(), b"\n"], out)?;
        }
    }
    Ok(())
}

// Adds the lines of a document that begin with one of these, or the whole document where there are none of these.
fn push_document(
    alloc: Global,
    document: &Document,
    fronts: &[&str],
    out: &mut Vec<u8>,
) -> Result<(), AllocError> {
    if fronts.is_empty() {
        return write(document, out);
    }
    let mut text = Vec::new(alloc);
    write(document, &mut text)?;
    match std::str::from_utf8(&text) {
        Ok(text) => push_lines(text, fronts, out),
        Err(_) => out.extend_from_slice(b"no text\n"),
    }
}

fn push_fault(fault: BuildFault, out: &mut Vec<u8>) -> Result<(), AllocError> {
    match fault {
        BuildFault::Nothing => out.extend_from_slice(b"nothing\n"),
        BuildFault::Strict { name, reason } => {
            push_all(&[b"strictly "], out)?;
            push_reason(name.as_str(), reason, out)
        }
        BuildFault::Limit => out.extend_from_slice(b"limit\n"),
        BuildFault::Memory => out.extend_from_slice(b"memory\n"),
    }
}

// Adds what comes of these inputs.
fn push_mosaic(
    alloc: Global,
    heads: &[Head],
    options: &BuildOptions,
    fronts: &[&str],
    out: &mut Vec<u8>,
) -> Result<(), AllocError> {
    if heads.len() > 65_536 {
        return out.extend_from_slice(b"too many inputs\n");
    }
    match mosaic(alloc, heads, options) {
        Err(fault) => push_fault(fault, out),
        Ok((document, skipped)) => {
            push_skipped(heads, skipped.as_slice(), out)?;
            push_document(alloc, &document, fronts, out)
        }
    }
}

// Whether this comes of these inputs.
fn comes(
    alloc: Global,
    heads: &[Head],
    options: &BuildOptions,
    fronts: &[&str],
    wanted: &str,
) -> bool {
    let mut out = Vec::new(alloc);
    push_mosaic(alloc, heads, options, fronts, &mut out).is_ok()
        && out.as_slice() == wanted.as_bytes()
}

// Whether a case comes as it is to be.
fn holds(
    alloc: Global,
    folder: &mut MemFolder,
    (_, inputs, ask, wanted): Case,
    fronts: &[&str],
) -> Option<bool> {
    let options = options(alloc, ask)?;
    let heads = heads_in(alloc, folder, inputs)?;
    Some(comes(alloc, heads.as_slice(), &options, fronts, wanted))
}

/// The first case over the datasets of a folder that comes otherwise. Of a document only the lines count that begin
/// with one of these, or all where there are none of these.
pub fn wrong_in(
    alloc: Global,
    folder: &mut MemFolder,
    cases: &[Case],
    fronts: &[&str],
) -> Option<&'static str> {
    for at in 0..cases.len() {
        if holds(alloc, folder, cases[at], fronts) != Some(true) {
            return Some(cases[at].0);
        }
    }
    None
}

/// The same over the datasets that mosaics are made of.
pub fn wrong_case(alloc: Global, cases: &[Case], fronts: &[&str]) -> Option<&'static str> {
    match folder(alloc) {
        Some(mut folder) => wrong_in(alloc, &mut folder, cases, fronts),
        None => Some("the datasets are put"),
    }
}

/// Asserts that no case is wrong.
pub fn none_wrong(rt: &impl Abort, wrong: Option<&str>) {
    assert_eq!(*rt; wrong, None);
}
