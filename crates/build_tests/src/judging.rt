// Which inputs are skipped, and why: the bands of the documents, and their files.
use crate::cases::{Case, none_wrong, wrong_case};
use std::test::*;

static SKIPPED: [Case; 27] = [
    (
        "none",
        "a.vrt b.vrt",
        "m.vrt",
        "<VRTRasterBand dataType=\"Byte\" band=\"1\">
<SourceFilename relativeToVRT=\"1\">a.vrt</SourceFilename>
<SourceFilename relativeToVRT=\"1\">b.vrt</SourceFilename>
",
    ),
    (
        "an input twice",
        "a.vrt a.vrt",
        "m.vrt strictly",
        "<VRTRasterBand dataType=\"Byte\" band=\"1\">
<SourceFilename relativeToVRT=\"1\">a.vrt</SourceFilename>
<SourceFilename relativeToVRT=\"1\">a.vrt</SourceFilename>
",
    ),
    (
        "no geotransform",
        "a.vrt placeless.vrt b.vrt",
        "m.vrt",
        "placeless.vrt geotransform
<VRTRasterBand dataType=\"Byte\" band=\"1\">
<SourceFilename relativeToVRT=\"1\">a.vrt</SourceFilename>
<SourceFilename relativeToVRT=\"1\">b.vrt</SourceFilename>
",
    ),
    (
        "columns that go west",
        "a.vrt west.vrt",
        "m.vrt",
        "west.vrt geotransform
<VRTRasterBand dataType=\"Byte\" band=\"1\">
<SourceFilename relativeToVRT=\"1\">a.vrt</SourceFilename>
",
    ),
    (
        "lines that go north",
        "north.vrt a.vrt",
        "m.vrt",
        "north.vrt geotransform
<VRTRasterBand dataType=\"Byte\" band=\"1\">
<SourceFilename relativeToVRT=\"1\">a.vrt</SourceFilename>
",
    ),
    (
        "another coordinate system",
        "x.vrt y.vrt x.vrt",
        "m.vrt",
        "y.vrt srs
<VRTRasterBand dataType=\"Byte\" band=\"1\">
<SourceFilename relativeToVRT=\"1\">x.vrt</SourceFilename>
<SourceFilename relativeToVRT=\"1\">x.vrt</SourceFilename>
",
    ),
    (
        "a coordinate system beside none",
        "a.vrt x.vrt",
        "m.vrt",
        "x.vrt srs
<VRTRasterBand dataType=\"Byte\" band=\"1\">
<SourceFilename relativeToVRT=\"1\">a.vrt</SourceFilename>
",
    ),
    (
        "no coordinate system beside an empty one",
        "empty.vrt a.vrt empty.vrt",
        "m.vrt",
        "a.vrt srs
<VRTRasterBand dataType=\"Byte\" band=\"1\">
<SourceFilename relativeToVRT=\"1\">empty.vrt</SourceFilename>
<SourceFilename relativeToVRT=\"1\">empty.vrt</SourceFilename>
",
    ),
    (
        "a band more",
        "a.vrt two.vrt",
        "m.vrt",
        "two.vrt bands
<VRTRasterBand dataType=\"Byte\" band=\"1\">
<SourceFilename relativeToVRT=\"1\">a.vrt</SourceFilename>
",
    ),
    (
        "a band less",
        "two.vrt a.vrt",
        "m.vrt",
        "a.vrt bands
<VRTRasterBand dataType=\"Byte\" band=\"1\">
<SourceFilename relativeToVRT=\"1\">two.vrt</SourceFilename>
<VRTRasterBand dataType=\"Byte\" band=\"2\">
<SourceFilename relativeToVRT=\"1\">two.vrt</SourceFilename>
",
    ),
    (
        "other counts of bands, of which one is chosen",
        "a.vrt two.vrt byte_int.vrt",
        "m.vrt bands 1",
        "<VRTRasterBand dataType=\"Byte\" band=\"1\">
<SourceFilename relativeToVRT=\"1\">a.vrt</SourceFilename>
<SourceFilename relativeToVRT=\"1\">two.vrt</SourceFilename>
<SourceFilename relativeToVRT=\"1\">byte_int.vrt</SourceFilename>
",
    ),
    (
        "the first lacks the chosen band",
        "a.vrt two.vrt b.vrt",
        "m.vrt bands 2",
        "a.vrt bands
b.vrt bands
<VRTRasterBand dataType=\"Byte\" band=\"1\">
<SourceFilename relativeToVRT=\"1\">two.vrt</SourceFilename>
",
    ),
    (
        "all lack one of the chosen bands",
        "two.vrt byte_int.vrt",
        "m.vrt bands 1,3",
        "nothing\n",
    ),
    (
        "another type",
        "a.vrt int.vrt",
        "m.vrt",
        "int.vrt type
<VRTRasterBand dataType=\"Byte\" band=\"1\">
<SourceFilename relativeToVRT=\"1\">a.vrt</SourceFilename>
",
    ),
    (
        "another type of the second band",
        "two.vrt byte_int.vrt",
        "m.vrt",
        "byte_int.vrt type
<VRTRasterBand dataType=\"Byte\" band=\"1\">
<SourceFilename relativeToVRT=\"1\">two.vrt</SourceFilename>
<VRTRasterBand dataType=\"Byte\" band=\"2\">
<SourceFilename relativeToVRT=\"1\">two.vrt</SourceFilename>
",
    ),
    (
        "another type of the chosen band",
        "two.vrt byte_int.vrt int_byte.vrt",
        "m.vrt bands 2",
        "byte_int.vrt type
<VRTRasterBand dataType=\"Byte\" band=\"1\">
<SourceFilename relativeToVRT=\"1\">two.vrt</SourceFilename>
<SourceFilename relativeToVRT=\"1\">int_byte.vrt</SourceFilename>
",
    ),
    (
        "types band by band, in the order that is chosen",
        "byte_int.vrt int_byte.vrt two.vrt byte_int.vrt",
        "m.vrt bands 2,1",
        "int_byte.vrt type
two.vrt type
<VRTRasterBand dataType=\"Int16\" band=\"1\">
<SourceFilename relativeToVRT=\"1\">byte_int.vrt</SourceFilename>
<SourceFilename relativeToVRT=\"1\">byte_int.vrt</SourceFilename>
<VRTRasterBand dataType=\"Byte\" band=\"2\">
<SourceFilename relativeToVRT=\"1\">byte_int.vrt</SourceFilename>
<SourceFilename relativeToVRT=\"1\">byte_int.vrt</SourceFilename>
",
    ),
    (
        "other types and counts, separate",
        "a.vrt int.vrt two.vrt ints.vrt",
        "m.vrt separate",
        "<VRTRasterBand dataType=\"Byte\" band=\"1\">
<SourceFilename relativeToVRT=\"1\">a.vrt</SourceFilename>
<VRTRasterBand dataType=\"Int16\" band=\"2\">
<SourceFilename relativeToVRT=\"1\">int.vrt</SourceFilename>
<VRTRasterBand dataType=\"Byte\" band=\"3\">
<SourceFilename relativeToVRT=\"1\">two.vrt</SourceFilename>
<VRTRasterBand dataType=\"Int16\" band=\"4\">
<SourceFilename relativeToVRT=\"1\">ints.vrt</SourceFilename>
",
    ),
    (
        "places and coordinate systems, separate",
        "a.vrt placeless.vrt int.vrt x.vrt b.vrt",
        "m.vrt separate",
        "placeless.vrt geotransform
x.vrt srs
<VRTRasterBand dataType=\"Byte\" band=\"1\">
<SourceFilename relativeToVRT=\"1\">a.vrt</SourceFilename>
<VRTRasterBand dataType=\"Int16\" band=\"2\">
<SourceFilename relativeToVRT=\"1\">int.vrt</SourceFilename>
<VRTRasterBand dataType=\"Byte\" band=\"3\">
<SourceFilename relativeToVRT=\"1\">b.vrt</SourceFilename>
",
    ),
    (
        "the reference is the first that isn't skipped",
        "lost.vrt north.vrt int.vrt a.vrt x.vrt int.vrt",
        "m.vrt",
        "lost.vrt geotransform
north.vrt geotransform
a.vrt type
x.vrt srs
<VRTRasterBand dataType=\"Int16\" band=\"1\">
<SourceFilename relativeToVRT=\"1\">int.vrt</SourceFilename>
<SourceFilename relativeToVRT=\"1\">int.vrt</SourceFilename>
",
    ),
    (
        "the first reason of several",
        "a.vrt lost.vrt other.vrt ints.vrt int.vrt",
        "m.vrt",
        "lost.vrt geotransform
other.vrt srs
ints.vrt bands
int.vrt type
<VRTRasterBand dataType=\"Byte\" band=\"1\">
<SourceFilename relativeToVRT=\"1\">a.vrt</SourceFilename>
",
    ),
    (
        "the first skipped input, strictly",
        "a.vrt b.vrt int.vrt placeless.vrt",
        "m.vrt strictly",
        "strictly int.vrt type\n",
    ),
    (
        "the first of all, strictly",
        "two.vrt placeless.vrt",
        "m.vrt bands 1,3 strictly",
        "strictly two.vrt bands\n",
    ),
    (
        "nothing is skipped, strictly",
        "x.vrt x.vrt",
        "m.vrt strictly",
        "<VRTRasterBand dataType=\"Byte\" band=\"1\">
<SourceFilename relativeToVRT=\"1\">x.vrt</SourceFilename>
<SourceFilename relativeToVRT=\"1\">x.vrt</SourceFilename>
",
    ),
    (
        "all are skipped",
        "placeless.vrt west.vrt north.vrt",
        "m.vrt",
        "nothing\n",
    ),
    ("no input", "", "m.vrt", "nothing\n"),
    ("no input, strictly", "", "m.vrt strictly", "nothing\n"),
];

static LINES: [&str; 2] = ["<VRTRasterBand", "<SourceFilename"];

#[test]
fn skipped_inputs(rt: HostRuntime) {
    none_wrong(&rt, wrong_case(rt.alloc(), &SKIPPED, &LINES));
}
