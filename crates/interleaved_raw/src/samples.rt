// Samples and their bytes.
ghost use Rattle.std.specs.Prelude.{◌≡◌, ◌<◌, ◌≤◌, ◌⊎◌, ℕ, ◌+◌, ◌-◌, ◌*◌, ◌/◌, ◌%◌, ◌^◌, List, length, map};
ghost use Rattle.std.specs.Prelude.{true, pos, get_or};
ghost use Rattle.std.specs.List.{range_with_len, All};
ghost use Rattle.std.specs.Int.{w16, w32, cast_signed, cast_unsigned};
ghost use Rattle.geotransform.specs.Types.{is_in};
ghost use Rattle.esri_hdr.specs.Head.{sample_len};
ghost use Rattle.lists_and_answers.specs.Places.{StandsAt};
ghost use Rattle.interleaved_raw.specs.Raw.{position_of, value_of, bits_of, number_in, sample_at, raw_at};
ghost use Rattle.interleaved_raw.specs.Raw.{row_of, Holds, strided_at, bytes_at, sample_bytes, IsBetween};

use crate::sample_places::stride;
use byteorder::{BigEndian, ByteOrder, LittleEndian};
use esri_hdr::{RawHead, sample_len};
use geotransform::{PixelType, Sample};

fn value_of(kind: PixelType, bits: u64) -> Sample
    requires { bits < 256 ^ sample_len kind }
    ensures value { result ≡ value_of kind bits }
    ensures range { is_in kind result ≡ true }
{
    match kind {
        PixelType::Byte | PixelType::UInt16 | PixelType::UInt32 | PixelType::UInt64 => bits as i128,
        PixelType::Int8 => (bits as u8).cast_signed() as i128,
        PixelType::Int16 => (bits as u16).cast_signed() as i128,
        PixelType::Int32 => (bits as u32).cast_signed() as i128,
        PixelType::Int64 => bits.cast_signed() as i128,
    }
}

// The bits that the bytes of a sample write in an order.
fn bits_by<O: ByteOrder>(kind: PixelType, bytes: &[u8]) -> u64
    requires { length bytes.now ≡ sample_len kind }
    ensures value { result ≡ O.number_of (sample_len kind) bytes.now }
    ensures fits { result < 256 ^ sample_len kind }
{
    match kind {
        PixelType::Byte | PixelType::Int8 => O::read_uint(bytes, 1),
        PixelType::UInt16 | PixelType::Int16 => O::read_u16(bytes) as u64,
        PixelType::UInt32 | PixelType::Int32 => O::read_u32(bytes) as u64,
        PixelType::UInt64 | PixelType::Int64 => O::read_u64(bytes),
    }
}

fn bits_in(head: &RawHead, bytes: &[u8]) -> u64
    requires { length bytes.now ≡ sample_len head.now.kind }
    ensures value { result ≡ number_in head.now.big (sample_len head.now.kind) bytes.now }
    ensures fits { result < 256 ^ sample_len head.now.kind }
{
    if head.big {
        bits_by::<BigEndian>(head.kind, bytes)
    } else {
        bits_by::<LittleEndian>(head.kind, bytes)
    }
}

/// The sample at the front of the bytes, in the head's byte order and type.
pub fn decode_sample(head: &RawHead, bytes: &[u8]) -> Sample
    requires enough { sample_len head.now.kind ≤ length bytes.now }
    ensures value { result ≡ sample_at head.now bytes.now }
    ensures range { is_in head.now.kind result ≡ true }
    // bytes that stand in a file at a sample's place are that sample
    ensures file { (file : List ℕ) (band x y : ℕ) → StandsAt file bytes.now (position_of head.now band x y) →
        result ≡ raw_at head.now file band x y }
{
    let bits = bits_in(head, &bytes[..sample_len(head.kind)]);
    value_of(head.kind, bits)
}

/// Reads as many samples as `out` takes, which stand a stride apart.
#[tactic(auto, using(crate::proofs::Runs::filled))]
pub fn decode_run(head: &RawHead, bytes: &[u8], out: &mut [Sample])
    requires holds { Holds head.now bytes.now (length out.old) }
    ensures samples { out.new ≡ map (strided_at head.now bytes.now) (range_with_len 0 (length out.old)) }
    ensures range { All (λ n. is_in head.now.kind n ≡ true) out.new }
    // bytes that stand in a file at a sample's place are the samples of its band and line from there on
    ensures file { (file : List ℕ) (band x y : ℕ) → StandsAt file bytes.now (position_of head.now band x y) →
        out.new ≡ row_of head.now file band x y (length out.old) }
{
    let stride = stride(head) as usize;
    for i in 0..out.len() {
        out[i] = decode_sample(head, &bytes[i * stride..]);
    }
}

#[tactic(auto, using(crate::proofs::Bits::bits_fit))]
fn bits_of(kind: PixelType, n: Sample) -> u64
    requires { is_in kind n ≡ true }
    ensures value { result ≡ bits_of kind n }
    ensures fits { result < 256 ^ sample_len kind }
{
    match kind {
        PixelType::Byte | PixelType::UInt16 | PixelType::UInt32 | PixelType::UInt64 => n as u64,
        PixelType::Int8 => (n as i8).cast_unsigned() as u64,
        PixelType::Int16 => (n as i16).cast_unsigned() as u64,
        PixelType::Int32 => (n as i32).cast_unsigned() as u64,
        PixelType::Int64 => (n as i64).cast_unsigned(),
    }
}

// Writes the bits of a sample over its bytes in an order.
fn write_bits<O: ByteOrder>(kind: PixelType, bits: u64, bytes: &mut [u8])
    requires fits { bits < 256 ^ sample_len kind }
    requires len { length bytes.old ≡ sample_len kind }
    ensures { bytes.new ≡ O.bytes_of (sample_len kind) bits }
{
    match kind {
        PixelType::Byte | PixelType::Int8 => return O::write_uint(bytes, bits, 1),
        PixelType::UInt16 | PixelType::Int16 => return O::write_u16(bytes, bits as u16),
        PixelType::UInt32 | PixelType::Int32 => return O::write_u32(bytes, bits as u32),
        PixelType::UInt64 | PixelType::Int64 => return O::write_u64(bytes, bits),
    }
}

/// Writes a sample over the bytes.
fn write_sample(head: &RawHead, n: Sample, bytes: &mut [u8])
    requires range { is_in head.now.kind n ≡ true }
    requires len { length bytes.old ≡ sample_len head.now.kind }
    ensures { bytes.new ≡ sample_bytes head.now n }
{
    let bits = bits_of(head.kind, n);
    if head.big {
        write_bits::<BigEndian>(head.kind, bits, bytes);
    } else {
        write_bits::<LittleEndian>(head.kind, bits, bytes);
    }
}

/// Writes the samples a stride apart. All bytes between them stay.
pub fn encode_run(head: &RawHead, samples: &[Sample], bytes: &mut [u8])
    requires holds { Holds head.now bytes.old (length samples.now) }
    requires range { All (λ n. is_in head.now.kind n ≡ true) samples.now }
    ensures bytes { (i : ℕ) → i < length samples.now → bytes_at head.now bytes.new i ≡ sample_bytes head.now
        (get_or samples.now i (pos 0)) }
    ensures samples { map (strided_at head.now bytes.new) (range_with_len 0 (length samples.now)) ≡ samples.now }
    ensures others { (j : ℕ) → IsBetween head.now (length samples.now) j → get_or bytes.new j 0 ≡ get_or bytes.old j 0 }
{
    let stride = stride(head) as usize;
    let s = sample_len(head.kind);
    for i in 0..samples.len() {
        let at = i * stride;
        write_sample(head, samples[i], &mut bytes[at..at + s]);
    }
}
