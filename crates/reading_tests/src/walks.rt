use crate::fixtures::{
    Case, File, all_hold, cut, document, folder_of, is_count, is_number, name_of, none_wrong, put,
    tells,
};
use catalog::{Catalog, open_all};
use outside::{CountingFolder, Folder, MemFolder, Name};
use std::alloc::Global;
use std::process::Abort;
use std::test::*;

// Whether the walk over a name gives the number of its dataset, or says that.
fn goes_over<R: Abort, F: Folder>(
    rt: &R,
    alloc: Global,
    cat: &mut Catalog,
    folder: &mut F,
    name: &Name,
    verify: bool,
    said: &str,
) -> bool {
    match open_all(alloc, cat, folder, name, verify) {
        Ok(id) => is_count(Some(said), id as u64),
        Err(fault) => tells(rt, alloc, &fault, said),
    }
}

/// Whether the walk goes so: the name that it begins with, behind `sums ` where they are asked for; the number of its
/// dataset or what is said; and the number of datasets then.
pub fn goes<R: Abort, F: Folder>(
    rt: &R,
    alloc: Global,
    cat: &mut Catalog,
    folder: &mut F,
    step: &str,
) -> bool {
    let (walk, rest) = cut(step, "; ");
    let (said, count) = cut(rest, "; ");
    let verify = walk.starts_with("sums ");
    let name = name_of(rt, alloc, walk.strip_prefix("sums ").unwrap_or(walk));
    goes_over(rt, alloc, cat, folder, &name, verify, said)
        && is_count(Some(count), cat.count() as u64)
}

// Puts a mosaic: its name and its sources.
fn put_mosaic<R: Abort>(rt: &R, alloc: Global, folder: &mut MemFolder, mosaic: &str) {
    let (name, sources) = cut(mosaic, " ");
    let text = document(rt, alloc, sources);
    put(rt, alloc, folder, name, text.as_slice());
}

// The data of one pixel.
const DATA: [File<'static>; 2] = [("t.bil", &[7]), ("t.hdr", b"NROWS 1\nNCOLS 1\n")];

// A folder with the mosaics of these lines, and with the data of one pixel under `t.bil`, whose call of this number
// fails.
fn with_mosaics<R: Abort>(rt: &R, alloc: Global, call: u64, mosaics: &str) -> MemFolder {
    let mut folder = folder_of(rt, alloc, call, &DATA);
    for mosaic in mosaics.lines() {
        put_mosaic(rt, alloc, &mut folder, mosaic);
    }
    folder
}

// The mosaics, each in a line, the call that fails, and how the walk goes.
#[derive(Clone, Copy)]
struct Walk<'a>(&'a str, u64, &'a str);

const ROWS: [Walk<'static>; 16] = [
    Walk("a.vrt", 0, "./a.vrt; 0; 1"),
    Walk("a.vrt ./a.vrt#1", 0, "a.vrt; cycle a.vrt; 0"),
    Walk("a.vrt ./b.vrt#1\nb.vrt a.vrt#1", 0, "a.vrt; cycle a.vrt; 0"),
    Walk("a.vrt b.vrt#1 ./b.vrt#1\nb.vrt t.bil#1", 0, "a.vrt; 0; 3"),
    Walk(
        "d/a.vrt N00E000.hgt#1",
        0,
        "d/a.vrt; absent d/N00E000.hgt; 0",
    ),
    Walk("a.vrt t.bil#2", 0, "a.vrt; band t.bil 2; 0"),
    Walk(
        "a.vrt b.vrt#2\nb.vrt N00E000.hgt#1",
        0,
        "a.vrt; absent N00E000.hgt; 0",
    ),
    Walk("a.vrt x.tif#1", 0, "a.vrt; unknown x.tif; 0"),
    Walk("", 0, "a.vrt; absent a.vrt; 0"),
    Walk("a.vrt t.bil#1 t.bil#3 x.tif#1", 0, "a.vrt; band t.bil 3; 0"),
    // The mosaic takes two calls of the folder, and the data of its source three.
    Walk("a.vrt t.bil#1", 1, "a.vrt; folder; 0"),
    Walk("a.vrt t.bil#1", 2, "a.vrt; folder; 0"),
    Walk("a.vrt t.bil#1", 3, "a.vrt; folder; 0"),
    Walk("a.vrt t.bil#1", 4, "a.vrt; folder; 0"),
    Walk("a.vrt t.bil#1", 5, "a.vrt; folder; 0"),
    Walk("a.vrt t.bil#1", 6, "a.vrt; 0; 2"),
];

impl Case for Walk<'_> {
    // Whether the first walk over these mosaics goes so.
    fn holds<R: Abort>(&self, rt: &R, alloc: Global) -> bool {
        let Walk(mosaics, call, step) = *self;
        let mut folder = with_mosaics(rt, alloc, call, mosaics);
        let mut cat = Catalog::new(alloc);
        goes(rt, alloc, &mut cat, &mut folder, step)
    }
}

#[test]
fn walks_of_mosaics(rt: HostRuntime) {
    all_hold(&rt, rt.alloc(), &ROWS);
}

// The number of the dataset that a source of a mosaic names, where there is such a source.
fn member(cat: &Catalog, id: u32, band: u32, source: u32) -> Option<u32> {
    if id >= cat.count() {
        return None;
    }
    let document = cat.document(id)?;
    if band as usize >= document.bands.len() {
        return None;
    }
    let sources = &document.bands.get(band as usize).sources;
    if source as usize >= sources.len() {
        return None;
    }
    let _source = sources.get(source as usize);
    Some(cat.member(id, band, source))
}

// The height of a dataset, where there is one of this number.
fn height(cat: &Catalog, id: u32) -> Option<u32> {
    if id >= cat.count() {
        return None;
    }
    Some(cat.height(id))
}

// Seventeen mosaics, each of which names the next, and the last one the data.
const CHAIN: &str = "m0.vrt m1.vrt#1\n\
    m1.vrt m2.vrt#1\n\
    m2.vrt m3.vrt#1\n\
    m3.vrt m4.vrt#1\n\
    m4.vrt m5.vrt#1\n\
    m5.vrt m6.vrt#1\n\
    m6.vrt m7.vrt#1\n\
    m7.vrt m8.vrt#1\n\
    m8.vrt m9.vrt#1\n\
    m9.vrt m10.vrt#1\n\
    m10.vrt m11.vrt#1\n\
    m11.vrt m12.vrt#1\n\
    m12.vrt m13.vrt#1\n\
    m13.vrt m14.vrt#1\n\
    m14.vrt m15.vrt#1\n\
    m15.vrt m16.vrt#1\n\
    m16.vrt t.bil#1";

const STEPS: [&str; 4] = [
    "m0.vrt; deep m16.vrt; 0",
    "m1.vrt; 0; 17",
    "m0.vrt; deep m16.vrt; 17",
    "m2.vrt; 1; 17",
];

/// The first of these steps that goes otherwise.
pub fn first_astray<R: Abort>(
    rt: &R,
    alloc: Global,
    cat: &mut Catalog,
    folder: &mut MemFolder,
    steps: &[&str],
) -> Option<usize> {
    for (at, step) in steps.iter().enumerate() {
        if !goes(rt, alloc, cat, folder, step) {
            return Some(at);
        }
    }
    None
}

// The first of these steps that goes otherwise, or how many there are where the first dataset has another height then.
fn walk_chain<R: Abort>(rt: &R, alloc: Global, steps: &[&str]) -> Option<usize> {
    let mut folder = with_mosaics(rt, alloc, 0, CHAIN);
    let mut cat = Catalog::new(alloc);
    let wrong = first_astray(rt, alloc, &mut cat, &mut folder, steps);
    if height(&cat, 0) == Some(16) {
        return wrong;
    }
    Some(wrong.unwrap_or(steps.len()))
}

// The seventeenth mosaic on a path is one too many, also where it was met whole on a shorter one.
#[test]
fn deep_mosaics(rt: HostRuntime) {
    none_wrong(&rt, walk_chain(&rt, rt.alloc(), &STEPS));
}

// Sixteen mosaics, each of which names the next twice, and the last one the data.
const TWICE: &str = "m0.vrt m1.vrt#1 m1.vrt#1\n\
    m1.vrt m2.vrt#1 m2.vrt#1\n\
    m2.vrt m3.vrt#1 m3.vrt#1\n\
    m3.vrt m4.vrt#1 m4.vrt#1\n\
    m4.vrt m5.vrt#1 m5.vrt#1\n\
    m5.vrt m6.vrt#1 m6.vrt#1\n\
    m6.vrt m7.vrt#1 m7.vrt#1\n\
    m7.vrt m8.vrt#1 m8.vrt#1\n\
    m8.vrt m9.vrt#1 m9.vrt#1\n\
    m9.vrt m10.vrt#1 m10.vrt#1\n\
    m10.vrt m11.vrt#1 m11.vrt#1\n\
    m11.vrt m12.vrt#1 m12.vrt#1\n\
    m12.vrt m13.vrt#1 m13.vrt#1\n\
    m13.vrt m14.vrt#1 m14.vrt#1\n\
    m14.vrt m15.vrt#1 m15.vrt#1\n\
    m15.vrt t.bil#1 t.bil#1";

// Whether the mosaics and the data are linked as they name each other.
fn is_linked(cat: &Catalog) -> bool {
    height(cat, 0) == Some(16)
        && height(cat, 16) == Some(0)
        && member(cat, 0, 0, 1) == Some(1)
        && member(cat, 15, 0, 0) == Some(16)
}

// How many files a walk opens that goes to its end and links the mosaics.
fn walk_twice<R: Abort>(rt: &R, alloc: Global) -> Option<u64> {
    let mut folder = CountingFolder::new(with_mosaics(rt, alloc, 0, TWICE));
    let mut cat = Catalog::new(alloc);
    if goes(rt, alloc, &mut cat, &mut folder, "m0.vrt; 0; 17") && is_linked(&cat) {
        return Some(folder.opens());
    }
    None
}

// Each name is read once, however often it is named.
#[test]
fn each_name_once(rt: HostRuntime) {
    is_number(&rt, walk_twice(&rt, rt.alloc()), 18);
}

// Adds a text to a document.
fn add<R: Abort>(rt: &R, document: &mut String, text: &str) {
    document.push_str(text).expect(rt, "memory");
}

// Adds so many sources to a document.
fn add_sources<R: Abort>(rt: &R, document: &mut String, count: u32) {
    for _ in 0..count {
        add(
            rt,
            document,
            "<SimpleSource><SourceFilename>t.bil</SourceFilename></SimpleSource>",
        );
    }
}

// A document of 262,143 sources, the last of which is `b.vrt`.
fn long_document<R: Abort>(rt: &R, alloc: Global) -> String {
    let mut text = String::new(alloc);
    add(
        rt,
        &mut text,
        "<VRTDataset rasterXSize=\"1\" rasterYSize=\"1\"><VRTRasterBand dataType=\"Byte\">",
    );
    add_sources(rt, &mut text, 262_142);
    add(
        rt,
        &mut text,
        "<SimpleSource><SourceFilename>b.vrt</SourceFilename></SimpleSource></VRTRasterBand></VRTDataset>",
    );
    text
}

const FEW: &str = "b.vrt t.bil#1\nc.vrt x.tif#1";

const COUNTED: [&str; 2] = ["a.vrt; 0; 3", "c.vrt; limit sources 262145; 3"];

// A folder with the long document and the others.
fn long_folder<R: Abort>(rt: &R, alloc: Global) -> MemFolder {
    let text = long_document(rt, alloc);
    let mut folder = with_mosaics(rt, alloc, 0, FEW);
    put(rt, alloc, &mut folder, "a.vrt", text.as_bytes());
    folder
}

// The first of these steps that goes otherwise.
fn walk_long<R: Abort>(rt: &R, alloc: Global, steps: &[&str]) -> Option<usize> {
    let mut folder = long_folder(rt, alloc);
    let mut cat = Catalog::new(alloc);
    first_astray(rt, alloc, &mut cat, &mut folder, steps)
}

// The sources of all mosaics are counted together, and each before its name is resolved.
#[test]
fn sources_of_all_mosaics(rt: HostRuntime) {
    none_wrong(&rt, walk_long(&rt, rt.alloc(), &COUNTED));
}
