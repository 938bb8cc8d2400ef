// The keys of a header, by their numbers in the order in which they are checked.
ghost use Rattle.std.specs.Prelude.{◌≡◌, ◌<◌, ◌-◌, ◌++◌, length, replicate};
ghost use Rattle.esri_hdr.specs.Text.{name_of};

pub const NROWS: usize = 0;

pub const NCOLS: usize = 1;

pub const NBANDS: usize = 2;

pub const NBITS: usize = 3;

pub const BYTEORDER: usize = 4;

pub const LAYOUT: usize = 5;

pub const SKIPBYTES: usize = 6;

pub const PIXELTYPE: usize = 7;

pub const BANDROWBYTES: usize = 8;

pub const TOTALROWBYTES: usize = 9;

pub const BANDGAPBYTES: usize = 10;

pub const ULXMAP: usize = 11;

pub const ULYMAP: usize = 12;

pub const XDIM: usize = 13;

pub const YDIM: usize = 14;

pub const NODATA: usize = 15;

/// The names of the keys.
pub const NAMES: [&str; 16] = [
    "NROWS",
    "NCOLS",
    "NBANDS",
    "NBITS",
    "BYTEORDER",
    "LAYOUT",
    "SKIPBYTES",
    "PIXELTYPE",
    "BANDROWBYTES",
    "TOTALROWBYTES",
    "BANDGAPBYTES",
    "ULXMAP",
    "ULYMAP",
    "XDIM",
    "YDIM",
    "NODATA",
];

/// A key's name, filled with spaces to 15 columns.
pub fn label(key: usize) -> &'static [u8]
    requires { key < 16 }
    ensures { result.now ≡ name_of key ++ replicate (15 - length (name_of key)) 32 }
{
    match key {
        NROWS => b"NROWS          ",
        NCOLS => b"NCOLS          ",
        NBANDS => b"NBANDS         ",
        NBITS => b"NBITS          ",
        BYTEORDER => b"BYTEORDER      ",
        LAYOUT => b"LAYOUT         ",
        SKIPBYTES => b"SKIPBYTES      ",
        PIXELTYPE => b"PIXELTYPE      ",
        BANDROWBYTES => b"BANDROWBYTES   ",
        TOTALROWBYTES => b"TOTALROWBYTES  ",
        BANDGAPBYTES => b"BANDGAPBYTES   ",
        ULXMAP => b"ULXMAP         ",
        ULYMAP => b"ULYMAP         ",
        XDIM => b"XDIM           ",
        YDIM => b"YDIM           ",
        _ => b"NODATA         ",
    }
}
