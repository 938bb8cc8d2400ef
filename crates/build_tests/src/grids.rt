// The grids of mosaics, the rectangles of their inputs, and their limits.
use crate::cases::{Case, none_wrong, wrong_case};
use std::test::*;

static GRIDS: [Case; 23] = [
    (
        "one input",
        "one.vrt",
        "m.vrt",
        "<VRTDataset rasterXSize=\"4\" rasterYSize=\"2\">
<GeoTransform>0, 1, 0, 2, 0, -1</GeoTransform>
<DstRect xOff=\"0\" yOff=\"0\" xSize=\"4\" ySize=\"2\"/>
",
    ),
    (
        "the union of two places",
        "one.vrt west_and_south.vrt",
        "m.vrt",
        "<VRTDataset rasterXSize=\"7\" rasterYSize=\"10\">
<GeoTransform>-3, 1, 0, 2, 0, -1</GeoTransform>
<DstRect xOff=\"3\" yOff=\"0\" xSize=\"4\" ySize=\"2\"/>
<DstRect xOff=\"0\" yOff=\"9\" xSize=\"1\" ySize=\"1\"/>
",
    ),
    (
        "highest",
        "one.vrt fine.vrt",
        "m.vrt highest",
        "<VRTDataset rasterXSize=\"12\" rasterYSize=\"4\">
<GeoTransform>0, 0.5, 0, 2, 0, -0.5</GeoTransform>
<DstRect xOff=\"0\" yOff=\"0\" xSize=\"8\" ySize=\"4\"/>
<DstRect xOff=\"8\" yOff=\"0\" xSize=\"4\" ySize=\"4\"/>
",
    ),
    (
        "lowest",
        "one.vrt fine.vrt",
        "m.vrt lowest",
        "<VRTDataset rasterXSize=\"6\" rasterYSize=\"2\">
<GeoTransform>0, 1, 0, 2, 0, -1</GeoTransform>
<DstRect xOff=\"0\" yOff=\"0\" xSize=\"4\" ySize=\"2\"/>
<DstRect xOff=\"4\" yOff=\"0\" xSize=\"2\" ySize=\"2\"/>
",
    ),
    (
        "average",
        "one.vrt fine.vrt",
        "m.vrt",
        "<VRTDataset rasterXSize=\"8\" rasterYSize=\"3\">
<GeoTransform>0, 0.75, 0, 2, 0, -0.75</GeoTransform>
<DstRect xOff=\"0\" yOff=\"0\" xSize=\"5\" ySize=\"3\"/>
<DstRect xOff=\"5\" yOff=\"0\" xSize=\"3\" ySize=\"3\"/>
",
    ),
    (
        "highest of each axis",
        "one.vrt flat.vrt",
        "m.vrt highest",
        "<VRTDataset rasterXSize=\"10\" rasterYSize=\"8\">
<GeoTransform>0, 1, 0, 2, 0, -0.25</GeoTransform>
<DstRect xOff=\"0\" yOff=\"0\" xSize=\"4\" ySize=\"8\"/>
<DstRect xOff=\"6\" yOff=\"0\" xSize=\"4\" ySize=\"8\"/>
",
    ),
    (
        "lowest of each axis",
        "one.vrt flat.vrt",
        "m.vrt lowest",
        "<VRTDataset rasterXSize=\"5\" rasterYSize=\"2\">
<GeoTransform>0, 2, 0, 2, 0, -1</GeoTransform>
<DstRect xOff=\"0\" yOff=\"0\" xSize=\"2\" ySize=\"2\"/>
<DstRect xOff=\"3\" yOff=\"0\" xSize=\"2\" ySize=\"2\"/>
",
    ),
    (
        "average of each axis",
        "one.vrt flat.vrt",
        "m.vrt",
        "<VRTDataset rasterXSize=\"7\" rasterYSize=\"3\">
<GeoTransform>0, 1.5, 0, 2, 0, -0.625</GeoTransform>
<DstRect xOff=\"0\" yOff=\"0\" xSize=\"3\" ySize=\"3\"/>
<DstRect xOff=\"4\" yOff=\"0\" xSize=\"3\" ySize=\"3\"/>
",
    ),
    (
        "given pixels",
        "one.vrt fine.vrt",
        "m.vrt steps 2 1",
        "<VRTDataset rasterXSize=\"3\" rasterYSize=\"2\">
<GeoTransform>0, 2, 0, 2, 0, -1</GeoTransform>
<DstRect xOff=\"0\" yOff=\"0\" xSize=\"2\" ySize=\"2\"/>
<DstRect xOff=\"2\" yOff=\"0\" xSize=\"1\" ySize=\"2\"/>
",
    ),
    (
        "a skipped input counts nowhere",
        "one.vrt small_int.vrt",
        "m.vrt highest",
        "small_int.vrt type
<VRTDataset rasterXSize=\"4\" rasterYSize=\"2\">
<GeoTransform>0, 1, 0, 2, 0, -1</GeoTransform>
<DstRect xOff=\"0\" yOff=\"0\" xSize=\"4\" ySize=\"2\"/>
",
    ),
    (
        "a mean of three, and an offset before rounding",
        "three.vrt double.vrt double.vrt",
        "m.vrt",
        "<VRTDataset rasterXSize=\"5\" rasterYSize=\"4\">
<GeoTransform>0, 1.6666666666666667, 0, 0, 0, -1.6666666666666667</GeoTransform>
<DstRect xOff=\"0\" yOff=\"0\" xSize=\"2\" ySize=\"2\"/>
<DstRect xOff=\"2\" yOff=\"0\" xSize=\"4\" ySize=\"4\"/>
<DstRect xOff=\"2\" yOff=\"0\" xSize=\"4\" ySize=\"4\"/>
",
    ),
    (
        "a mean of four at half a tick",
        "least.vrt least.vrt least.vrt twice_least.vrt",
        "m.vrt",
        "<VRTDataset rasterXSize=\"157\" rasterYSize=\"2\">
<GeoTransform>0, 0.0000000000000001, 0, 0, 0, -0.0000000000000001</GeoTransform>
<DstRect xOff=\"0\" yOff=\"0\" xSize=\"78\" ySize=\"1\"/>
<DstRect xOff=\"0\" yOff=\"0\" xSize=\"78\" ySize=\"1\"/>
<DstRect xOff=\"0\" yOff=\"0\" xSize=\"78\" ySize=\"1\"/>
<DstRect xOff=\"0\" yOff=\"0\" xSize=\"157\" ySize=\"2\"/>
",
    ),
    (
        "an extent within",
        "one.vrt",
        "m.vrt extent 1 0 3 1",
        "<VRTDataset rasterXSize=\"2\" rasterYSize=\"1\">
<GeoTransform>1, 1, 0, 1, 0, -1</GeoTransform>
<DstRect xOff=\"-1\" yOff=\"-1\" xSize=\"4\" ySize=\"2\"/>
",
    ),
    (
        "an extent around",
        "one.vrt",
        "m.vrt extent -2 -1 5 4",
        "<VRTDataset rasterXSize=\"7\" rasterYSize=\"5\">
<GeoTransform>-2, 1, 0, 4, 0, -1</GeoTransform>
<DstRect xOff=\"2\" yOff=\"2\" xSize=\"4\" ySize=\"2\"/>
",
    ),
    (
        "an extent with halves",
        "one.vrt",
        "m.vrt extent 0.5 0 3 1.5",
        "<VRTDataset rasterXSize=\"3\" rasterYSize=\"2\">
<GeoTransform>0.5, 1, 0, 1.5, 0, -1</GeoTransform>
<DstRect xOff=\"0\" yOff=\"0\" xSize=\"4\" ySize=\"2\"/>
",
    ),
    (
        "an extent with less than halves",
        "one.vrt",
        "m.vrt extent 0.75 0 3 1.25",
        "<VRTDataset rasterXSize=\"2\" rasterYSize=\"1\">
<GeoTransform>0.75, 1, 0, 1.25, 0, -1</GeoTransform>
<DstRect xOff=\"-1\" yOff=\"-1\" xSize=\"4\" ySize=\"2\"/>
",
    ),
    (
        "an extent of less than half a pixel",
        "one.vrt",
        "m.vrt extent 0 1.75 0.25 2",
        "<VRTDataset rasterXSize=\"1\" rasterYSize=\"1\">
<GeoTransform>0, 1, 0, 2, 0, -1</GeoTransform>
<DstRect xOff=\"0\" yOff=\"0\" xSize=\"4\" ySize=\"2\"/>
",
    ),
    (
        "an input of less than half a pixel",
        "one.vrt",
        "m.vrt steps 100 100",
        "<VRTDataset rasterXSize=\"1\" rasterYSize=\"1\">
<GeoTransform>0, 100, 0, 2, 0, -100</GeoTransform>
<DstRect xOff=\"0\" yOff=\"0\" xSize=\"1\" ySize=\"1\"/>
",
    ),
    (
        "left out in the west",
        "one.vrt fine.vrt",
        "m.vrt steps 1 1 extent 4 0 6 2",
        "<VRTDataset rasterXSize=\"2\" rasterYSize=\"2\">
<GeoTransform>4, 1, 0, 2, 0, -1</GeoTransform>
<DstRect xOff=\"0\" yOff=\"0\" xSize=\"2\" ySize=\"2\"/>
",
    ),
    (
        "left out in the east, and still part of the mean",
        "one.vrt fine.vrt",
        "m.vrt extent 0 0 4 2",
        "<VRTDataset rasterXSize=\"5\" rasterYSize=\"3\">
<GeoTransform>0, 0.75, 0, 2, 0, -0.75</GeoTransform>
<DstRect xOff=\"0\" yOff=\"0\" xSize=\"5\" ySize=\"3\"/>
",
    ),
    (
        "left out in the north",
        "one.vrt west_and_south.vrt",
        "m.vrt extent -3 -8 4 0",
        "<VRTDataset rasterXSize=\"7\" rasterYSize=\"8\">
<GeoTransform>-3, 1, 0, 0, 0, -1</GeoTransform>
<DstRect xOff=\"0\" yOff=\"7\" xSize=\"1\" ySize=\"1\"/>
",
    ),
    (
        "left out in the south",
        "one.vrt west_and_south.vrt",
        "m.vrt extent -3 -7 4 2",
        "<VRTDataset rasterXSize=\"7\" rasterYSize=\"9\">
<GeoTransform>-3, 1, 0, 2, 0, -1</GeoTransform>
<DstRect xOff=\"3\" yOff=\"0\" xSize=\"4\" ySize=\"2\"/>
",
    ),
    (
        "all are left out",
        "one.vrt",
        "m.vrt extent 10 0 12 2",
        "<VRTDataset rasterXSize=\"2\" rasterYSize=\"2\">
<GeoTransform>10, 1, 0, 2, 0, -1</GeoTransform>
",
    ),
];

static LIMITS: [Case; 17] = [
    (
        "the greatest sides",
        "origin.vrt last.vrt",
        "m.vrt",
        "<VRTDataset rasterXSize=\"4194304\" rasterYSize=\"4194304\">
<GeoTransform>0, 1, 0, 0, 0, -1</GeoTransform>
<DstRect xOff=\"0\" yOff=\"0\" xSize=\"1\" ySize=\"1\"/>
<DstRect xOff=\"4194303\" yOff=\"4194303\" xSize=\"1\" ySize=\"1\"/>
",
    ),
    ("a column more", "origin.vrt far.vrt", "m.vrt", "limit\n"),
    ("a line more", "origin.vrt south.vrt", "m.vrt", "limit\n"),
    (
        "a given extent of the greatest width",
        "origin.vrt",
        "m.vrt steps 1 1 extent 0 -1 4194304.4 0",
        "<VRTDataset rasterXSize=\"4194304\" rasterYSize=\"1\">
<GeoTransform>0, 1, 0, 0, 0, -1</GeoTransform>
<DstRect xOff=\"0\" yOff=\"0\" xSize=\"1\" ySize=\"1\"/>
",
    ),
    (
        "a given extent of half a pixel more",
        "origin.vrt",
        "m.vrt steps 1 1 extent 0 -1 4194304.5 0",
        "limit\n",
    ),
    (
        "a given extent of a line more",
        "origin.vrt",
        "m.vrt steps 1 1 extent 0 -4194304.5 1 0",
        "limit\n",
    ),
    (
        "small pixels",
        "origin.vrt",
        "m.vrt steps 0.0000000000000001 1",
        "limit\n",
    ),
    (
        "a west side that rounds to the limit of places",
        "at_the_end.bil",
        "m.vrt",
        "limit\n",
    ),
    (
        "a west side that rounds to the last place",
        "near_the_end.bil",
        "m.vrt",
        "<VRTDataset rasterXSize=\"1\" rasterYSize=\"1\">
<GeoTransform>-999999999999.9999999999999999, 0.0000000000000001, 0, 0.5, 0, -1</GeoTransform>
<DstRect xOff=\"0\" yOff=\"0\" xSize=\"1\" ySize=\"1\"/>
",
    ),
    (
        "a top that rounds to the limit of places",
        "at_the_top.bil",
        "m.vrt",
        "limit\n",
    ),
    (
        "the widest rectangle",
        "wide.vrt",
        "m.vrt steps 1 1 extent 0 0 1 1",
        "<VRTDataset rasterXSize=\"1\" rasterYSize=\"1\">
<GeoTransform>0, 1, 0, 1, 0, -1</GeoTransform>
<DstRect xOff=\"0\" yOff=\"0\" xSize=\"8388608\" ySize=\"1\"/>
",
    ),
    (
        "a wider rectangle",
        "wide.vrt",
        "m.vrt steps 0.9999999 1 extent 0 0 1 1",
        "limit\n",
    ),
    (
        "a wider rectangle, separate",
        "wide.vrt",
        "m.vrt steps 0.9999999 1 extent 0 0 1 1 separate",
        "limit\n",
    ),
    (
        "a wider rectangle that is left out",
        "wide.vrt",
        "m.vrt steps 0.5 1 extent -10 0 -9 1",
        "<VRTDataset rasterXSize=\"2\" rasterYSize=\"1\">
<GeoTransform>-10, 0.5, 0, 1, 0, -1</GeoTransform>
",
    ),
    (
        "the highest rectangle",
        "tall.vrt",
        "m.vrt steps 1 1 extent 0 0 1 1",
        "<VRTDataset rasterXSize=\"1\" rasterYSize=\"1\">
<GeoTransform>0, 1, 0, 1, 0, -1</GeoTransform>
<DstRect xOff=\"0\" yOff=\"0\" xSize=\"1\" ySize=\"8388608\"/>
",
    ),
    (
        "a higher rectangle",
        "tall.vrt",
        "m.vrt steps 1 0.9999999 extent 0 0 1 1",
        "limit\n",
    ),
    (
        "a higher rectangle behind one that fits",
        "origin.vrt tall.vrt",
        "m.vrt steps 1 0.9999999 extent 0 -1 1 1",
        "limit\n",
    ),
];

static PLACES: [&str; 3] = ["<VRTDataset", "<GeoTransform", "<DstRect"];

#[test]
fn grids(rt: HostRuntime) {
    none_wrong(&rt, wrong_case(rt.alloc(), &GRIDS, &PLACES));
}

#[test]
fn limits(rt: HostRuntime) {
    none_wrong(&rt, wrong_case(rt.alloc(), &LIMITS, &PLACES));
}
