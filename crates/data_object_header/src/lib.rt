// The fields of an object header (data_object.rs, data_object).
#![tactic(auto)]

ghost use Rattle.std.specs.Prelude.{◌≡◌, ◌≤◌, ◌^◌, ◌%◌};
ghost use Rattle.helpers.specs.Answers.{out};
ghost use Rattle.format.specs.Bits.{bit};
ghost use Rattle.format.specs.Format.{read, pick};
ghost use Rattle.data_object_header.specs.Headers.{header_fields};

use helpers::{Parsed, le_u8, signature, take, varint};
use records::Refusal;

// The flags and the chunk size of a header.
#[derive(Clone, Copy)]
pub struct HeaderFields {
    pub flags: u8,
    pub size: u64,
}

// The bytes of the times, where flag bit 5 is set.
fn times_size(flags: u8) -> usize
    ensures { result ≡ pick (bit flags 5) 16 0 }
{
    if flags & 32 != 0 { 16 } else { 0 }
}

// Flag bits 0 and 1 give the width of the chunk size.
fn chunk_size_width(flags: u8) -> usize
    ensures { (result ≡ 2 ^ (flags % 4)) × (result ≤ 8) }
{
    1usize << (flags & 3)
}

// Signature, version, flags and chunk size.
pub fn header_fields(file: &[u8], at: usize) -> Parsed<HeaderFields>
    ensures { out result ≡ read file.now header_fields at }
{
    let version_at = signature(file, at, 0x5244484F, Refusal::Signature)?;
    let (version, flags_at) = le_u8(file, version_at)?;
    if version != 2 {
        return Err(Refusal::Version);
    }
    let (flags, times_at) = le_u8(file, flags_at)?;
    if flags & 16 != 0 {
        return Err(Refusal::HeaderFlags);
    }
    let size_at = take(file, times_at, times_size(flags))?;
    let (size, start) = varint(file, size_at, chunk_size_width(flags))?;
    if 16777216 < size {
        return Err(Refusal::ChunkSize);
    }
    Ok((HeaderFields { flags, size }, start))
}
