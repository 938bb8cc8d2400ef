// The NODATA of bands and of their sources.
use crate::cases::{Case, none_wrong, wrong_case};
use std::test::*;

static MARKS: [Case; 24] = [
    (
        "no band has one",
        "a.vrt b.vrt",
        "m.vrt",
        "<SimpleSource>\n<SimpleSource>\n",
    ),
    (
        "each source has that of its input, the band that of the first",
        "nine.vrt seven.vrt",
        "m.vrt",
        "<NoDataValue>9</NoDataValue>
<ComplexSource>
<NODATA>9</NODATA>
<ComplexSource>
<NODATA>7</NODATA>
",
    ),
    (
        "the first has none",
        "a.vrt seven.vrt",
        "m.vrt",
        "<SimpleSource>\n<ComplexSource>\n<NODATA>7</NODATA>\n",
    ),
    (
        "the second has none",
        "nine.vrt b.vrt",
        "m.vrt",
        "<NoDataValue>9</NoDataValue>\n<ComplexSource>\n<NODATA>9</NODATA>\n<SimpleSource>\n",
    ),
    (
        "a number below 0",
        "below.vrt",
        "m.vrt",
        "<NoDataValue>-5</NoDataValue>\n<ComplexSource>\n<NODATA>-5</NODATA>\n",
    ),
    (
        "the number of a skipped input",
        "below.vrt nine.vrt below.vrt",
        "m.vrt band none",
        "nine.vrt type
<ComplexSource>
<NODATA>-5</NODATA>
<ComplexSource>
<NODATA>-5</NODATA>
",
    ),
    (
        "a number for the sources",
        "nine.vrt b.vrt",
        "m.vrt source 3",
        "<NoDataValue>3</NoDataValue>
<ComplexSource>
<NODATA>3</NODATA>
<ComplexSource>
<NODATA>3</NODATA>
",
    ),
    (
        "a number for sources that have none",
        "a.vrt b.vrt",
        "m.vrt source 3",
        "<NoDataValue>3</NoDataValue>
<ComplexSource>
<NODATA>3</NODATA>
<ComplexSource>
<NODATA>3</NODATA>
",
    ),
    (
        "no NODATA for the sources",
        "nine.vrt seven.vrt",
        "m.vrt source none",
        "<NoDataValue>9</NoDataValue>\n<SimpleSource>\n<SimpleSource>\n",
    ),
    (
        "a number for the bands",
        "nine.vrt b.vrt",
        "m.vrt band 4",
        "<NoDataValue>4</NoDataValue>\n<ComplexSource>\n<NODATA>9</NODATA>\n<SimpleSource>\n",
    ),
    (
        "a number for bands that have none",
        "a.vrt",
        "m.vrt band 4",
        "<NoDataValue>4</NoDataValue>\n<SimpleSource>\n",
    ),
    (
        "no NODATA for the bands",
        "nine.vrt seven.vrt",
        "m.vrt band none",
        "<ComplexSource>\n<NODATA>9</NODATA>\n<ComplexSource>\n<NODATA>7</NODATA>\n",
    ),
    (
        "no NODATA for the bands, a number for the sources",
        "nine.vrt",
        "m.vrt source 3 band none",
        "<ComplexSource>\n<NODATA>3</NODATA>\n",
    ),
    (
        "a number for each",
        "nine.vrt",
        "m.vrt source 3 band 4",
        "<NoDataValue>4</NoDataValue>\n<ComplexSource>\n<NODATA>3</NODATA>\n",
    ),
    (
        "a number for the bands, none for the sources",
        "nine.vrt",
        "m.vrt source none band 4",
        "<NoDataValue>4</NoDataValue>\n<SimpleSource>\n",
    ),
    (
        "none for either",
        "nine.vrt seven.vrt",
        "m.vrt source none band none",
        "<SimpleSource>\n<SimpleSource>\n",
    ),
    (
        "a number for the sources past the type",
        "nine.vrt",
        "m.vrt source 300",
        "<ComplexSource>\n<NODATA>300</NODATA>\n",
    ),
    (
        "the greatest number of the type",
        "nine.vrt",
        "m.vrt band 255",
        "<NoDataValue>255</NoDataValue>\n<ComplexSource>\n<NODATA>9</NODATA>\n",
    ),
    (
        "a number for the bands past the type",
        "nine.vrt",
        "m.vrt band 256",
        "<ComplexSource>\n<NODATA>9</NODATA>\n",
    ),
    (
        "a number for the bands past the type, beside one for the sources within it",
        "nine.vrt",
        "m.vrt source 3 band -1",
        "<ComplexSource>\n<NODATA>3</NODATA>\n",
    ),
    (
        "separate bands have that of their input",
        "nine.vrt b.vrt below.vrt nine_none.vrt",
        "m.vrt separate",
        "<NoDataValue>9</NoDataValue>
<ComplexSource>
<NODATA>9</NODATA>
<SimpleSource>
<NoDataValue>-5</NoDataValue>
<ComplexSource>
<NODATA>-5</NODATA>
<NoDataValue>9</NoDataValue>
<ComplexSource>
<NODATA>9</NODATA>
",
    ),
    (
        "separate bands, a number for the sources within one of the types",
        "nine.vrt below.vrt",
        "m.vrt source 300 separate",
        "<ComplexSource>
<NODATA>300</NODATA>
<NoDataValue>300</NoDataValue>
<ComplexSource>
<NODATA>300</NODATA>
",
    ),
    (
        "separate bands, no NODATA for the sources",
        "nine.vrt below.vrt",
        "m.vrt source none separate",
        "<NoDataValue>9</NoDataValue>\n<SimpleSource>\n<NoDataValue>-5</NoDataValue>\n<SimpleSource>\n",
    ),
    (
        "separate bands, a number for the bands within one of the types",
        "below.vrt b.vrt",
        "m.vrt band -7 separate",
        "<NoDataValue>-7</NoDataValue>\n<ComplexSource>\n<NODATA>-5</NODATA>\n<SimpleSource>\n",
    ),
];

static PAIRS: [Case; 2] = [
    (
        "two bands, of which one has it",
        "nine_none.vrt",
        "m.vrt",
        "<NoDataValue>9</NoDataValue>
<ComplexSource>
<SourceBand>1</SourceBand>
<NODATA>9</NODATA>
<SimpleSource>
<SourceBand>2</SourceBand>
",
    ),
    (
        "the same turned",
        "nine_none.vrt nine_none.vrt",
        "m.vrt bands 2,1",
        "<SimpleSource>
<SourceBand>2</SourceBand>
<SimpleSource>
<SourceBand>2</SourceBand>
<NoDataValue>9</NoDataValue>
<ComplexSource>
<SourceBand>1</SourceBand>
<NODATA>9</NODATA>
<ComplexSource>
<SourceBand>1</SourceBand>
<NODATA>9</NODATA>
",
    ),
];

static ONE_BAND: [&str; 4] = ["<NoDataValue", "<ComplexSource", "<SimpleSource", "<NODATA"];

static MORE_BANDS: [&str; 5] = [
    "<NoDataValue",
    "<ComplexSource",
    "<SimpleSource",
    "<SourceBand",
    "<NODATA",
];

#[test]
fn nodata_of_bands_and_sources(rt: HostRuntime) {
    none_wrong(&rt, wrong_case(rt.alloc(), &MARKS, &ONE_BAND));
}

#[test]
fn nodata_of_more_bands(rt: HostRuntime) {
    none_wrong(&rt, wrong_case(rt.alloc(), &PAIRS, &MORE_BANDS));
}
