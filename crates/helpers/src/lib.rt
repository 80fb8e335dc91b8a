// One field of a file: a little-endian number, bytes passed over, a zero-ended name, a text. Each
// reader takes the file and a position, and answers the field with the position after it.
#![tactic(auto)]

ghost use Rattle.std.specs.Prelude.{◌≡◌, ◌+◌, ◌*◌, ◌^◌, ◌≤◌, ◌<◌, IfOk, length, leb};
ghost use Rattle.format.specs.Bytes.{le, all_ones, name_length, text_length, to_multiple_of8};
ghost use Rattle.format.specs.Format.{done, number, skip, name, text, nothing, read, signature as signed};
ghost use Rattle.records.specs.Refusals.{refusal_number};
ghost use Rattle.helpers.specs.Answers.{out, place_out, sized};
ghost use Rattle.helpers.specs.Addresses.{address as address_format};

use records::{Address, Refusal};

// A field's value and the position after it, or why it is refused. File and position are two
// parameters and no struct, since each contract would have to say that the struct that is handed on
// has the caller's file.
pub type Parsed<T> = Result<(T, usize), Refusal>;

// The file has `count` bytes from `at` on.
fn has(file: &[u8], at: usize, count: usize) -> bool
    ensures { result ≡ leb (at + count) (length file.now) }
{
    if file.len() < at {
        return false;
    }
    if file.len() - at < count {
        return false;
    }
    true
}

fn wide(b: u8) -> u64
    ensures { (result ≡ b) × (result < 256) }
{
    b as u64
}

// The number in 1, 2, 3, 4 or 8 bytes that the file has. Each is made of smaller ones: with one loop
// for all, reading a field takes twice the instructions.
fn bytes_1(file: &[u8], at: usize) -> u64
    requires { at + 1 ≤ length file.now }
    ensures { (result ≡ le file.now at 1) × (result < 256) }
{
    wide(file[at])
}

fn bytes_2(file: &[u8], at: usize) -> u64
    requires { at + 2 ≤ length file.now }
    ensures { (result ≡ le file.now at 2) × (result < 65536) }
{
    bytes_1(file, at) + 256 * bytes_1(file, at + 1)
}

fn bytes_3(file: &[u8], at: usize) -> u64
    requires { at + 3 ≤ length file.now }
    ensures { (result ≡ le file.now at 3) × (result < 16777216) }
{
    bytes_2(file, at) + 65536 * bytes_1(file, at + 2)
}

pub fn bytes_4(file: &[u8], at: usize) -> u64
    requires { at + 4 ≤ length file.now }
    ensures { (result ≡ le file.now at 4) × (result < 4294967296) }
{
    bytes_2(file, at) + 65536 * bytes_2(file, at + 2)
}

fn bytes_8(file: &[u8], at: usize) -> u64
    requires { at + 8 ≤ length file.now }
    ensures { result ≡ le file.now at 8 }
{
    bytes_4(file, at) + 4294967296 * bytes_4(file, at + 4)
}

// The number in as many bytes as `size` says.
pub fn bytes_of(file: &[u8], at: usize, size: usize) -> u64
    requires { (size ≤ 8) × (at + size ≤ length file.now) }
    ensures { result ≡ le file.now at size }
{
    match size {
        0 => 0,
        1 => bytes_1(file, at),
        2 => bytes_2(file, at),
        3 => bytes_3(file, at),
        4 => bytes_4(file, at),
        5 => bytes_4(file, at) + 4294967296 * bytes_1(file, at + 4),
        6 => bytes_4(file, at) + 4294967296 * bytes_2(file, at + 4),
        7 => bytes_4(file, at) + 4294967296 * bytes_3(file, at + 4),
        _ => bytes_8(file, at),
    }
}

// A number of `size` bytes, where `size` is known to be a width. Every other number is read by this.
fn le(file: &[u8], at: usize, size: usize) -> Parsed<u64>
    requires { size ≤ 8 }
    ensures value { out result ≡ read file.now (number size done) at }
    ensures below { IfOk result (λ p. p.0 < 2 ^ (8 * size)) }
{
    if has(file, at, size) {
        Ok((bytes_of(file, at, size), at + size))
    } else {
        Err(Refusal::Short)
    }
}

// The widths that the fields have. They stay by their names: a trait over their types would say as
// much with a ghost value and a law for each.
pub fn le_u8(file: &[u8], at: usize) -> Parsed<u8>
    ensures { out result ≡ read file.now (number 1 done) at }
{
    let (value, next) = le(file, at, 1)?;
    Ok((value as u8, next))
}

pub fn le_u16(file: &[u8], at: usize) -> Parsed<u16>
    ensures { out result ≡ read file.now (number 2 done) at }
{
    let (value, next) = le(file, at, 2)?;
    Ok((value as u16, next))
}

pub fn le_u24(file: &[u8], at: usize) -> Parsed<u32>
    ensures { out result ≡ read file.now (number 3 done) at }
{
    let (value, next) = le(file, at, 3)?;
    Ok((value as u32, next))
}

pub fn le_u32(file: &[u8], at: usize) -> Parsed<u32>
    ensures { out result ≡ read file.now (number 4 done) at }
{
    let (value, next) = le(file, at, 4)?;
    Ok((value as u32, next))
}

pub fn le_u64(file: &[u8], at: usize) -> Parsed<u64>
    ensures { out result ≡ read file.now (number 8 done) at }
{
    varint(file, at, 8)
}

// A number of `size` bytes, where `size` is known to be a width.
pub fn varint(file: &[u8], at: usize, size: usize) -> Parsed<u64>
    requires { size ≤ 8 }
    ensures { out result ≡ read file.now (number size done) at }
{
    le(file, at, size)
}

// A number of `size` bytes; a size above 8 is refused as a width.
pub fn varint_size(file: &[u8], at: usize, size: usize) -> Parsed<u64>
    ensures { out result ≡ read file.now (sized size) at }
{
    if 8 < size {
        return Err(Refusal::Width);
    }
    varint(file, at, size)
}

// All ones in `width` bytes.
pub fn all_ones(width: usize) -> u64
    requires { width ≤ 8 }
    ensures { result ≡ all_ones width }
{
    match width {
        0 => 0,
        1 => 0xff,
        2 => 0xffff,
        3 => 0xff_ffff,
        4 => 0xffff_ffff,
        5 => 0xff_ffff_ffff,
        6 => 0xffff_ffff_ffff,
        7 => 0xff_ffff_ffff_ffff,
        _ => 0xffff_ffff_ffff_ffff,
    }
}

// An address of `size` bytes, where `size` is known to be a width.
pub fn address(file: &[u8], at: usize, size: usize) -> Parsed<Address>
    requires { size ≤ 8 }
    ensures { out result ≡ read file.now (address_format size) at }
{
    let (value, next) = varint(file, at, size)?;
    if value == all_ones(size) {
        return Ok((Address::Undefined, next));
    }
    Ok((Address::Number(value), next))
}

// `count` bytes are passed over.
pub fn take(file: &[u8], at: usize, count: usize) -> Result<usize, Refusal>
    ensures { place_out result ≡ read file.now (skip count nothing) at }
{
    if has(file, at, count) {
        Ok(at + count)
    } else {
        Err(Refusal::Short)
    }
}

// How many bytes make `n` bytes a multiple of 8.
pub fn to_multiple_of_8(n: usize) -> usize
    ensures { result ≡ to_multiple_of8 n }
{
    (8 - n % 8) % 8
}

// How many bytes from `at` on are not zero, at most `limit`. The file's end stops it too.
fn name_length(file: &[u8], at: usize, limit: usize) -> usize
    requires { at ≤ length file.now }
    ensures { (result ≡ name_length file.now at limit) × (at + result ≤ length file.now) }
{
    let room = file.len() - at;
    let most = if room < limit { room } else { limit };
    for n in 0..most {
        if file[at + n] == 0 {
            return n;
        }
    }
    most
}

// A name that ends before its first zero or at `limit` bytes.
pub fn take_till(file: &[u8], at: usize, limit: usize) -> Parsed<usize>
    ensures { out result ≡ read file.now (name limit done) at }
{
    if file.len() < at {
        return Err(Refusal::Short);
    }
    let n = name_length(file, at, limit);
    let end = at + n;
    if end < file.len() {
        return Ok((n, end));
    }
    if n == limit {
        return Ok((n, end));
    }
    Err(Refusal::Short)
}

// How many of the `count` bytes at `at` are left without the zeros at their end.
fn text_length(file: &[u8], at: usize, count: usize) -> usize
    requires { at + count ≤ length file.now }
    ensures { (result ≡ text_length file.now at count) × (result ≤ count) }
{
    for n in (0..count).rev() {
        if file[at + n] != 0 {
            return n + 1;
        }
    }
    0
}

// A text in `count` bytes, without the zeros at its end.
pub fn trim_end(file: &[u8], at: usize, count: usize) -> Parsed<usize>
    ensures { out result ≡ read file.now (text count done) at }
{
    if has(file, at, count) {
        Ok((text_length(file, at, count), at + count))
    } else {
        Err(Refusal::Short)
    }
}

// A signature: four given bytes, the lowest first. Others are refused.
pub fn signature(file: &[u8], at: usize, mark: u32, refusal: Refusal) -> Result<usize, Refusal>
    ensures { place_out result ≡ read file.now (signed mark (refusal_number refusal)) at }
{
    let (value, next) = le_u32(file, at)?;
    if value != mark {
        return Err(refusal);
    }
    Ok(next)
}
