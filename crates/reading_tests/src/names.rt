use crate::fixtures::{Case, all_hold, name_of};
use outside::{Ext, Name, NameFault, Text};
use std::alloc::Global;
use std::process::Abort;
use std::test::*;

// The longest text that gives a name, and one byte.
const LONGEST: usize = 4096;

// A text, and the name that it gives.
#[derive(Clone, Copy)]
struct Named<'a>(&'a str, &'a str);

const NORMAL: [Named<'static>; 24] = [
    Named("a", "a"),
    Named("a/b", "a/b"),
    Named("/a/b", "/a/b"),
    Named("./a.bil", "a.bil"),
    Named("a//b", "a/b"),
    Named("a/./b", "a/b"),
    Named("a/b/", "a/b"),
    Named("a/../b", "b"),
    Named("a/b/../../c", "c"),
    Named("a/..", "."),
    Named(".", "."),
    Named("..", ".."),
    Named("../a", "../a"),
    Named("../../a/b", "../../a/b"),
    Named("..//../a", "../../a"),
    Named("../.a", "../.a"),
    Named("../a/../b", "../b"),
    Named("a/../../b", "../b"),
    Named("../../a/..", "../.."),
    Named("/", "/"),
    Named("//", "/"),
    Named("/..", "/"),
    Named("/../a", "/a"),
    Named("/a/..", "/"),
];

// A name, and its kind.
#[derive(Clone, Copy)]
struct Kind<'a>(&'a str, Option<Ext>);

const KINDS: [Kind<'static>; 19] = [
    Kind("a.bil", Some(Ext::Bil)),
    Kind("a.bip", Some(Ext::Bip)),
    Kind("a.BSQ", Some(Ext::Bsq)),
    Kind("a.b.bil", Some(Ext::Bil)),
    Kind("/d/a.Bip", Some(Ext::Bip)),
    Kind(".bsq", Some(Ext::Bsq)),
    Kind("w.dt0", Some(Ext::Dt0)),
    Kind("w.DT1", Some(Ext::Dt1)),
    Kind("w.Dt2", Some(Ext::Dt2)),
    Kind("d/N00E000.hgt", Some(Ext::Hgt)),
    Kind("g.asc", Some(Ext::Asc)),
    Kind("g.GRD", Some(Ext::Grd)),
    Kind("m.vrt", Some(Ext::Vrt)),
    Kind("x.bil/y", None),
    Kind("a.bil.b", None),
    Kind("a.tif", None),
    Kind("bil", None),
    Kind("a.", None),
    Kind("..", None),
];

// Raw data, and the header beside it.
#[derive(Clone, Copy)]
struct Header<'a>(&'a str, &'a str);

const HEADERS: [Header<'static>; 6] = [
    Header("a.bsq", "a.hdr"),
    Header("a.Bsq", "a.hdr"),
    Header("A.BIP", "A.HDR"),
    Header(".bil", ".hdr"),
    Header("/d.bil/a.b.BIL", "/d.bil/a.b.HDR"),
    Header("../a.bip", "../a.hdr"),
];

impl Case for Named<'_> {
    // Whether the text gives this name.
    fn holds<R: Abort>(&self, rt: &R, alloc: Global) -> bool {
        name_of(rt, alloc, self.0).as_str() == self.1
    }
}

#[test]
fn reads_names(rt: HostRuntime) {
    all_hold(&rt, rt.alloc(), &NORMAL);
}

// Why a text gives no name, or None where it gives one.
fn refusal(alloc: Global, text: &str) -> Option<NameFault> {
    Name::read(alloc, text).err()
}

// Adds a text to another.
fn add<R: Abort>(rt: &R, text: &mut String, more: &str) {
    text.push_str(more).expect(rt, "memory");
}

// The longest text that gives a name.
fn longest<R: Abort>(rt: &R, alloc: Global) -> String {
    let mut text = String::new(alloc);
    for _ in 0..LONGEST {
        add(rt, &mut text, "a");
    }
    text
}

// Whether the empty text and one that is a byte too long are refused, and the longest one gives a name.
fn are_bounded<R: Abort>(rt: &R, alloc: Global) -> bool {
    let mut text = longest(rt, alloc);
    let whole = name_of(rt, alloc, text.as_str()).as_str().len() == LONGEST;
    add(rt, &mut text, "/");
    whole
        && refusal(alloc, "") == Some(NameFault::Empty)
        && refusal(alloc, text.as_str()) == Some(NameFault::TooLong)
}

#[test]
fn refuses_names(rt: HostRuntime) {
    assert!(rt; are_bounded(&rt, rt.alloc()));
}

impl Case for Kind<'_> {
    // Whether the name is of this kind.
    fn holds<R: Abort>(&self, rt: &R, alloc: Global) -> bool {
        name_of(rt, alloc, self.0).extension() == self.1
    }
}

#[test]
fn tells_kinds(rt: HostRuntime) {
    all_hold(&rt, rt.alloc(), &KINDS);
}

// Whether raw data have this header beside them; false for a name of another kind.
fn has_header<R: Abort>(rt: &R, alloc: Global, name: &Name, header: &str) -> bool {
    if let Some(Ext::Bil | Ext::Bip | Ext::Bsq) = name.extension() {
        return name.header(alloc).expect(rt, "memory").as_str() == header;
    }
    false
}

impl Case for Header<'_> {
    // Whether the name is that of raw data, with this header beside it.
    fn holds<R: Abort>(&self, rt: &R, alloc: Global) -> bool {
        let name = name_of(rt, alloc, self.0);
        has_header(rt, alloc, &name, self.1)
    }
}

#[test]
fn names_headers(rt: HostRuntime) {
    all_hold(&rt, rt.alloc(), &HEADERS);
}

// Whether the folder of a name is this one.
fn is_in<R: Abort>(rt: &R, alloc: Global, text: &str, folder: Option<&str>) -> bool {
    name_of(rt, alloc, text).folder_part() == folder
}

// Whether a name keeps its last part, and is its copy.
fn keeps_name<R: Abort>(rt: &R, alloc: Global) -> bool {
    let name = name_of(rt, alloc, "d/a.bil");
    let copy = name.try_clone().expect(rt, "memory");
    name.last_part() == "a.bil" && name.is(&copy)
}

fn text_of<R: Abort>(rt: &R, alloc: Global, text: &str) -> Text {
    Text::new(alloc, text).expect(rt, "memory")
}

// Whether a text is kept as it is, is its copy, and is no other.
fn keeps_text<R: Abort>(rt: &R, alloc: Global) -> bool {
    let text = text_of(rt, alloc, "no/../name");
    let copy = text.try_clone().expect(rt, "memory");
    let other = text_of(rt, alloc, "name");
    text.as_str() == "no/../name" && text.is(&copy) && !text.is(&other)
}

#[test]
fn keeps_texts(rt: HostRuntime) {
    assert!(rt; keeps_name(&rt, rt.alloc()) && keeps_text(&rt, rt.alloc()));
}

// Whether folders of names are told.
fn are_folders_told<R: Abort>(rt: &R, alloc: Global) -> bool {
    is_in(rt, alloc, "d/a.bil", Some("d"))
        && is_in(rt, alloc, "/a", Some(""))
        && is_in(rt, alloc, "a", None)
}

#[test]
fn tells_folders(rt: HostRuntime) {
    assert!(rt; are_folders_told(&rt, rt.alloc()));
}
