// The messages on how data are stored, but for their layout: fill value old and new, filter pipeline
// (ohdr_message.rs).
#![tactic(auto)]

ghost use Rattle.std.specs.Prelude.{◌≡◌};
ghost use Rattle.helpers.specs.Answers.{place_out};
ghost use Rattle.format.specs.Format.{read, times, nothing};
ghost use Rattle.ohdr_storage.specs.Storage.{fill_old, fill12, fill3, fill, filter1, filter2, filter_of, reserved, filter_pipeline};

use helpers::{le_u8, le_u16, le_u32, take, varint};
use records::Refusal;

// A size and that many bytes, without a test of either.
pub fn message_data_fill_old(file: &[u8], at: usize) -> Result<usize, Refusal>
    ensures { place_out result ≡ read file.now fill_old at }
{
    let (size, value_at) = le_u32(file, at)?;
    take(file, value_at, size as usize)
}

// Versions 1 and 2, after the version.
fn fill_12(file: &[u8], at: usize) -> Result<usize, Refusal>
    ensures { place_out result ≡ read file.now fill12 at }
{
    let (allocation, write_at) = le_u8(file, at)?;
    if allocation != 2 && allocation != 3 {
        return Err(Refusal::DataFill);
    }
    let (write, defined_at) = le_u8(file, write_at)?;
    if write != 2 {
        return Err(Refusal::DataFill);
    }
    let (defined, size_at) = le_u8(file, defined_at)?;
    if 1 < defined {
        return Err(Refusal::DataFill);
    }
    if defined == 1 {
        return message_data_fill_old(file, size_at);
    }
    Ok(size_at)
}

// Version 3, after the version: flag bit 5 brings the fill value.
fn fill_3(file: &[u8], at: usize) -> Result<usize, Refusal>
    ensures { place_out result ≡ read file.now fill3 at }
{
    let (flags, size_at) = le_u8(file, at)?;
    if flags & 32 != 0 {
        return message_data_fill_old(file, size_at);
    }
    Ok(size_at)
}

pub fn message_data_fill(file: &[u8], at: usize) -> Result<usize, Refusal>
    ensures { place_out result ≡ read file.now fill at }
{
    let (version, fields_at) = le_u8(file, at)?;
    match version {
        1 | 2 => fill_12(file, fields_at),
        3 => fill_3(file, fields_at),
        _ => Err(Refusal::DataFill),
    }
}

// A filter of version 1. A name's length is rounded up to 8 in 16 bits, as a release build of the Rust does.
fn filter_1(file: &[u8], at: usize) -> Result<usize, Refusal>
    ensures { place_out result ≡ read file.now filter1 at }
{
    let (_, length_at) = le_u16(file, at)?;
    let (name_length, flags_at) = le_u16(file, length_at)?;
    let (_, values_at) = le_u16(file, flags_at)?;
    let (values, name_at) = le_u16(file, values_at)?;
    if 4096 < values {
        return Err(Refusal::FilterPipeline);
    }
    let padded = (name_length as usize + 7) / 8 * 8 % 65536;
    let data_at = take(file, name_at, padded)?;
    let padding_at = take(file, data_at, 4 * (values as usize))?;
    take(file, padding_at, 4 * (values as usize % 2))
}

fn filter_2(file: &[u8], at: usize) -> Result<usize, Refusal>
    ensures { place_out result ≡ read file.now filter2 at }
{
    let (_, flags_at) = le_u16(file, at)?;
    let (_, values_at) = le_u16(file, flags_at)?;
    let (values, data_at) = le_u16(file, values_at)?;
    if 4096 < values {
        return Err(Refusal::FilterPipeline);
    }
    take(file, data_at, 4 * (values as usize))
}

fn filter(file: &[u8], at: usize, version: u8) -> Result<usize, Refusal>
    ensures { place_out result ≡ read file.now (filter_of version) at }
{
    if version == 1 {
        filter_1(file, at)
    } else {
        filter_2(file, at)
    }
}

// `count` filters, one after another.
fn all_filters(file: &[u8], at: usize, count: u8, version: u8) -> Result<usize, Refusal>
    ensures { place_out result ≡ read file.now (times count (filter_of version) nothing) at }
{
    let mut place = at;
    for _ in 0..count {
        place = filter(file, place, version)?;
    }
    Ok(place)
}

// The six reserved bytes of version 1 must be zero.
fn pipeline_reserved(file: &[u8], at: usize, version: u8) -> Result<usize, Refusal>
    ensures { place_out result ≡ read file.now (reserved version) at }
{
    if version != 1 {
        return Ok(at);
    }
    let (value, next) = varint(file, at, 6)?;
    if value != 0 {
        return Err(Refusal::FilterPipeline);
    }
    Ok(next)
}

pub fn message_filter_pipeline(file: &[u8], at: usize) -> Result<usize, Refusal>
    ensures { place_out result ≡ read file.now filter_pipeline at }
{
    let (version, filters_at) = le_u8(file, at)?;
    if version != 1 && version != 2 {
        return Err(Refusal::FilterPipeline);
    }
    let (filters, reserved_at) = le_u8(file, filters_at)?;
    if 32 <= filters {
        return Err(Refusal::FilterPipeline);
    }
    let list_at = pipeline_reserved(file, reserved_at, version)?;
    all_filters(file, list_at, filters, version)
}
