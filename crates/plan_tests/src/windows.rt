// Windows in pixels, and sizes of outputs.
use crate::plans::{Row, all_hold};
use std::test::*;

// Windows and sizes of a source of five columns and one line.
const WINDOWS: [Row<'static>; 43] = [
    ("five", "o.bil", "5 1 of 0 0 5 1: 0 Byte -"),
    ("five", "o.bil size 2 1", "2 1 of 0 0 5 1: 0 Byte -"),
    ("five", "o.bil size 0 0", "EmptyWindow"),
    ("five", "o.bil size 0 2", "10 2 of 0 0 5 1: 0 Byte -"),
    ("five", "o.bil size 0 200%", "10 2 of 0 0 5 1: 0 Byte -"),
    ("five", "o.bil size 10 0", "10 2 of 0 0 5 1: 0 Byte -"),
    ("five", "o.bil size 50% 100%", "2 1 of 0 0 5 1: 0 Byte -"),
    ("five", "o.bil size 59% 199%", "2 1 of 0 0 5 1: 0 Byte -"),
    ("five", "o.bil size 19% 100%", "EmptyWindow"),
    ("five", "o.bil size 0% 1", "EmptyWindow"),
    ("five", "o.bil size 0 0%", "EmptyWindow"),
    (
        "five",
        "o.bil window 0 0 5 2 size 0 1",
        "3 1 of 0 0 5 2: 0 Byte -",
    ),
    (
        "five",
        "o.bil window 0 0 5 2 size 3 0",
        "3 1 of 0 0 5 2: 0 Byte -",
    ),
    ("five", "o.bil window 0 0 5 2 size 1 0", "EmptyWindow"),
    (
        "five",
        "o.bil size 4194304 1",
        "4194304 1 of 0 0 5 1: 0 Byte -",
    ),
    (
        "five",
        "o.bil size 1 4194304",
        "1 4194304 of 0 0 5 1: 0 Byte -",
    ),
    ("five", "o.bil size 4194305 1", "Limit"),
    ("five", "o.bil size 1 4194305", "Limit"),
    ("five", "o.bil size 0 4194304", "Limit"),
    ("five", "o.bil size 0% 999999999", "EmptyWindow"),
    ("five", "o.bil window 3 0 4 1", "4 1 of 3 0 4 1: 0 Byte -"),
    ("five", "o.bil window 3 0 4 1 wholly", "Outside"),
    (
        "five",
        "o.bil window 3 0 4 1 partly",
        "4 1 of 3 0 4 1: 0 Byte -",
    ),
    ("five", "o.bil window 5 0 1 1 partly", "Outside"),
    ("five", "o.bil window 5 0 1 1", "1 1 of 5 0 1 1: 0 Byte -"),
    (
        "five",
        "o.bil window 4 0 1 1 wholly",
        "1 1 of 4 0 1 1: 0 Byte -",
    ),
    ("five", "o.bil window 0 0 6 1 wholly", "Outside"),
    ("five", "o.bil window 0 0 5 2 wholly", "Outside"),
    ("five", "o.bil window -1 0 2 1 wholly", "Outside"),
    ("five", "o.bil window 0 -1 1 2 wholly", "Outside"),
    (
        "five",
        "o.bil window -1 0 2 1 partly",
        "2 1 of -1 0 2 1: 0 Byte -",
    ),
    ("five", "o.bil window -1 0 1 1 partly", "Outside"),
    ("five", "o.bil window 0 -1 5 1 partly", "Outside"),
    ("five", "o.bil window 0 1 5 1 partly", "Outside"),
    ("five", "o.bil window 0 0 0 1", "EmptyWindow"),
    ("five", "o.bil window 0 0 1 -1", "EmptyWindow"),
    ("five", "o.bil window 0 0 4194305 0", "EmptyWindow"),
    ("five", "o.bil window 0 0 4194305 1", "Limit"),
    ("five", "o.bil window 0 0 1 4194305", "Limit"),
    (
        "five",
        "o.bil window 0 0 4194304 4194304",
        "4194304 4194304 of 0 0 4194304 4194304: 0 Byte -",
    ),
    (
        "five",
        "o.bil window 8388608 -8388608 1 1",
        "1 1 of 8388608 -8388608 1 1: 0 Byte -",
    ),
    ("five", "o.bil window 8388609 0 1 1", "Limit"),
    ("five", "o.bil window 0 -8388609 1 1", "Limit"),
];

#[test]
fn plans_windows_and_sizes(rt: HostRuntime) {
    all_hold(&rt, rt.alloc(), &WINDOWS);
}
