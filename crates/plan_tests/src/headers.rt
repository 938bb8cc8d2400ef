// The headers of raw data that is planned.
use crate::asking::options;
use crate::plans::{none_wrong, source_head};
use catalog::Head;
use esri_hdr::write;
use std::alloc::Global;
use std::test::*;
use translate_plan::{Driver, Plan, TranslateOptions, plan};

/// The source, what is asked for, and the header.
type Row<'a> = (&'a str, &'a str, &'a str);

const HEADERS: [Row<'static>; 2] = [
    (
        "five",
        "o.bil window 3 0 4 1 nodata 9",
        "BYTEORDER      I\nLAYOUT         BIL\nNROWS          1\nNCOLS          4\nNBANDS         1\n\
        NBITS          8\nSKIPBYTES      0\nBANDROWBYTES   4\nTOTALROWBYTES  4\nBANDGAPBYTES   0\n\
        PIXELTYPE      UNSIGNEDINT\nNODATA         9\n",
    ),
    (
        "placed",
        "o.bil",
        "BYTEORDER      I\nLAYOUT         BIL\nNROWS          3\nNCOLS          2\nNBANDS         2\n\
        NBITS          16\nSKIPBYTES      0\nBANDROWBYTES   4\nTOTALROWBYTES  8\nBANDGAPBYTES   0\n\
        PIXELTYPE      SIGNEDINT\nULXMAP         0.5\nULYMAP         9.75\nXDIM           1\nYDIM           0.5\n",
    ),
];

fn is_written(alloc: Global, plan: &Plan, wanted: &str) -> bool {
    match plan.driver {
        Driver::EHdr => {
            let mut out = Vec::new(alloc);
            write(&plan.raw_head(), &mut out).is_ok() && out.as_slice() == wanted.as_bytes()
        }
        Driver::Dted { .. } | Driver::SrtmHgt | Driver::AaiGrid | Driver::Vrt => false,
    }
}

fn is_planned(alloc: Global, options: &TranslateOptions, head: &Head, wanted: &str) -> bool {
    match plan(options, head) {
        Ok(plan) => is_written(alloc, &plan, wanted),
        Err(_) => false,
    }
}

fn row_holds(alloc: Global, (source, ask, wanted): Row<'_>) -> Option<bool> {
    let options = options(alloc, ask)?;
    let head = source_head(alloc, source)?;
    Some(is_planned(alloc, &options, &head, wanted))
}

fn wrong_row(alloc: Global, rows: &[Row<'_>]) -> Option<usize> {
    for at in 0..rows.len() {
        if row_holds(alloc, rows[at]) != Some(true) {
            return Some(at);
        }
    }
    None
}

#[test]
fn heads_of_raw_data(rt: HostRuntime) {
    none_wrong(&rt, wrong_row(rt.alloc(), &HEADERS));
}
