// An entry of an object header by itself (ohdr_message.rs, message_entry and message_kind): its
// prefix, its body by its type, and the rest of its size.
#![tactic(auto)]

ghost use Rattle.std.specs.Prelude.{◌≡◌, ◌+◌, ◌-◌, ◌≤◌, ℕ, Result};
ghost use Rattle.records.specs.declared.Refusal.{Refusal};
ghost use Rattle.helpers.specs.Answers.{out, place_out};
ghost use Rattle.format.specs.Format.{Out, read, skip, nothing};
ghost use Rattle.parser.specs.States.{Widths};
ghost use Rattle.ohdr_entry.specs.Continuations.{continuation};
ghost use Rattle.ohdr_entry.specs.Entries.{creation_order, prefix as prefix_format, plain_body, layout_body, attribute_body, body, message_held, continuation_held, closed, entry};
ghost use Rattle.ohdr_entry.specs.Answers.{position_of, figures_of, seen, entry_out};

use element_number::{number_bits, number_case};
use helpers::{Parsed, address, le_u8, le_u16, take, varint};
use ohdr_attribute::message_attribute;
use ohdr_dataspace::message_data_space;
use ohdr_datatype::message_data_type;
use ohdr_info::{message_attribute_info, message_group_info, message_link_info};
use ohdr_layout::message_data_layout;
use ohdr_storage::{message_data_fill, message_data_fill_old, message_filter_pipeline};
use parser::State;
use records::{Address, Part, Refusal};
use row::Row;

// Where a continuation block stands, and how many bytes it has.
#[derive(Clone, Copy)]
pub struct Continuation {
    pub offset: u64,
    pub length: u64,
}

// What stands before an entry's body.
#[derive(Clone, Copy)]
pub struct Prefix {
    pub kind: u8,
    pub size: u16,
    pub flags: u8,
}

// What a row shows of a body: its name and its part, where it has them, and its number.
#[derive(Clone, Copy)]
pub struct Figures {
    pub name: Option<Part>,
    pub part: Option<Part>,
    pub number_case: u64,
    pub number_bits: u64,
}

#[derive(Clone, Copy)]
pub enum Entry {
    Message(Row),
    Continuation(Continuation),
}

// The creation order, where header flag bit 2 is set.
fn creation_order(file: &[u8], at: usize, header_flags: u8) -> Result<usize, Refusal>
    ensures { place_out result ≡ read file.now (creation_order header_flags) at }
{
    if header_flags & 4 == 0 {
        return Ok(at);
    }
    let (_, next) = le_u16(file, at)?;
    Ok(next)
}

// Flags other than bits 0 and 2 are refused.
fn entry_prefix(file: &[u8], at: usize, header_flags: u8) -> Parsed<Prefix>
    ensures { out result ≡ read file.now (prefix_format header_flags) at }
{
    let (kind, size_at) = le_u8(file, at)?;
    let (size, flags_at) = le_u16(file, size_at)?;
    let (flags, order_at) = le_u8(file, flags_at)?;
    if flags & 0b1111_1010 != 0 {
        return Err(Refusal::EntryFlags);
    }
    let next = creation_order(file, order_at, header_flags)?;
    Ok((Prefix { kind, size, flags }, next))
}

// A reading of which the position alone is kept. The reader is handed in and not what it read, so
// that what it reads has room here alone.
fn position<T: Drop, F: FnOnce() -> Parsed<T>>(read: F) -> Result<usize, Refusal>
    requires { F.pre read }
    ensures { (o : Out T) → ((r : Result (T × ℕ) Refusal) → F.post read r → out r ≡ o) → place_out result ≡ position_of o }
{
    let (_, next) = read()?;
    Ok(next)
}

// A body of which a row shows no name, part or number. A body that is skipped has no fields.
fn plain_body(file: &[u8], at: usize, kind: u8, state: State) -> Result<usize, Refusal>
    requires { Widths state }
    ensures { place_out result ≡ position_of (read file.now (plain_body state kind) at) }
{
    match kind {
        1 => position(|| message_data_space(file, at, state)),
        2 => position(|| message_link_info(file, at, state)),
        3 => position(|| message_data_type(file, at, 32)),
        4 => message_data_fill_old(file, at),
        5 => message_data_fill(file, at),
        10 => position(|| message_group_info(file, at)),
        11 => message_filter_pipeline(file, at),
        21 => position(|| message_attribute_info(file, at, state)),
        _ => Ok(at),
    }
}

// A layout: its data are its part.
fn body_data_layout(file: &[u8], at: usize, state: State) -> Parsed<Figures>
    requires { Widths state }
    ensures { out result ≡ figures_of (read file.now (layout_body state) at) }
{
    let (layout, next) = message_data_layout(file, at, state)?;
    let figures = Figures {
        name: None,
        part: Some(layout.data),
        number_case: 0,
        number_bits: 0,
    };
    Ok((figures, next))
}

// An attribute: its name, and its value, a text as its part.
fn body_attribute(file: &[u8], at: usize, state: State) -> Parsed<Figures>
    requires { Widths state }
    ensures { out result ≡ figures_of (read file.now (attribute_body state) at) }
{
    let (attribute, next) = message_attribute(file, at, state)?;
    let figures = Figures {
        name: Some(attribute.name),
        part: attribute.value.text(),
        number_case: number_case(attribute.value),
        number_bits: number_bits(attribute.value),
    };
    Ok((figures, next))
}

// A body by the type of its message.
fn message_kind(file: &[u8], at: usize, kind: u8, state: State) -> Parsed<Figures>
    requires { Widths state }
    ensures { out result ≡ figures_of (read file.now (body state kind) at) }
{
    match kind {
        8 => body_data_layout(file, at, state),
        12 => body_attribute(file, at, state),
        _ => {
            let next = plain_body(file, at, kind, state)?;
            let figures = Figures {
                name: None,
                part: None,
                number_case: 0,
                number_bits: 0,
            };
            Ok((figures, next))
        }
    }
}

// The rest of an entry's size, where its fields used less: an entry ends at the larger of the two.
fn close_entry(file: &[u8], body_at: usize, size: u16, used: usize) -> Result<usize, Refusal>
    requires { body_at ≤ used }
    ensures { place_out result ≡ read file.now (skip (body_at + size - used) nothing) used }
{
    let fields = used - body_at;
    take(file, used, (size as usize).saturating_sub(fields))
}

// The offset is tested before the length is read; their sum must not pass the end-of-file address.
// An undefined offset has no block, however large the end-of-file address.
pub fn message_continuation(file: &[u8], at: usize, state: State) -> Parsed<Continuation>
    requires { Widths state }
    ensures { out result ≡ read file.now (continuation state) at }
{
    let offsets = state.size_of_offsets;
    let lengths = state.size_of_lengths;
    let end = state.end_of_file_address;
    let (address, length_at) = address(file, at, offsets)?;
    let Address::Number(offset) = address else {
        return Err(Refusal::ContinuationRange);
    };
    if !state.is_address_valid(offset) {
        return Err(Refusal::ContinuationRange);
    }
    let (length, next) = varint(file, length_at, lengths)?;
    if length < 8 {
        return Err(Refusal::ContinuationRange);
    }
    if end - offset < length {
        return Err(Refusal::ContinuationRange);
    }
    Ok((Continuation { offset, length }, next))
}

// A continuation, closed. Its block is not read here.
fn entry_continuation(file: &[u8], body_at: usize, prefix: Prefix, state: State) -> Parsed<Entry>
    requires { Widths state }
    ensures { entry_out result ≡ seen (read file.now (closed continuation_held state prefix body_at) body_at) }
{
    let (continuation, used) = message_continuation(file, body_at, state)?;
    let next = close_entry(file, body_at, prefix.size, used)?;
    Ok((Entry::Continuation(continuation), next))
}

// A message, closed.
fn entry_message(file: &[u8], body_at: usize, prefix: Prefix, state: State) -> Parsed<Entry>
    requires { Widths state }
    ensures { entry_out result ≡ seen (read file.now (closed message_held state prefix body_at) body_at) }
{
    // no `?` here: it would copy the figures
    match message_kind(file, body_at, prefix.kind, state) {
        Err(refusal) => Err(refusal),
        Ok((figures, used)) => {
            let next = close_entry(file, body_at, prefix.size, used)?;
            let row = Row {
                kind: prefix.kind as u64,
                flags: prefix.flags as u64,
                size: prefix.size as u64,
                body: body_at,
                name: figures.name,
                part: figures.part,
                number_case: figures.number_case,
                number_bits: figures.number_bits,
            };
            Ok((Entry::Message(row), next))
        }
    }
}

// An entry by itself: its prefix, its body, and the rest of its size.
pub fn entry_alone(file: &[u8], at: usize, header_flags: u8, state: State) -> Parsed<Entry>
    requires { Widths state }
    ensures { entry_out result ≡ seen (read file.now (entry state header_flags) at) }
{
    let (prefix, body_at) = entry_prefix(file, at, header_flags)?;
    if prefix.kind == 16 {
        entry_continuation(file, body_at, prefix, state)
    } else {
        entry_message(file, body_at, prefix, state)
    }
}
