// The data layout message (ohdr_message.rs), with the data that it leads to as a part of the file.
#![tactic(auto)]

ghost use Rattle.std.specs.Prelude.{◌≡◌, take as take_list};
ghost use Rattle.helpers.specs.Answers.{out, place_out};
ghost use Rattle.format.specs.Format.{read, bytes, nothing};
ghost use Rattle.parser.specs.States.{Widths};
ghost use Rattle.ohdr_layout.specs.DataLayouts.{compact, contiguous, contiguous_part, data_from, raw_data_lem, data_layout};

use helpers::{Parsed, address, le_u8, le_u16, take, varint};
use parser::State;
use records::{Address, DataLayout, Part, Refusal};

const NO_BYTES: Part = Part {
    position: 0,
    length: 0,
};

// Compact storage, after the class: its data are passed over.
fn layout_compact(file: &[u8], at: usize) -> Parsed<DataLayout>
    ensures { out result ≡ read file.now compact at }
{
    let (size, data_at) = le_u16(file, at)?;
    let next = take(file, data_at, size as usize)?;
    Ok((
        DataLayout {
            address: None,
            data: NO_BYTES,
        },
        next,
    ))
}

// The first `size` bytes of what is lent, as a part of it; all of them where there are fewer.
pub fn contiguous_bytes(from: &[u8], size: usize) -> &[u8]
    ensures { result.now ≡ take_list size from.now }
{
    if from.len() < size {
        return from;
    }
    &from[..size]
}

// The file has `size` bytes from an address on. They are read as a part of the file.
fn data_at(file: &[u8], address: usize, size: usize) -> Result<usize, Refusal>
    ensures { place_out result ≡ read file.now (bytes size nothing) address }
{
    if file.len() < address {
        return Err(Refusal::Short);
    }
    let part = contiguous_bytes(&file[address..], size);
    if part.len() < size {
        return Err(Refusal::Short);
    }
    Ok(address + size)
}

// The part that starts at an address; an empty one has no address.
fn part_of(address: usize, size: usize) -> Part
    ensures { result ≡ contiguous_part address size }
{
    if size == 0 {
        NO_BYTES
    } else {
        Part {
            position: address,
            length: size,
        }
    }
}

// The data at an address between 0 and end-of-file; at any other there are none. The position stays
// where it is.
fn data_from(file: &[u8], at: usize, state: State, address: u64, size: usize) -> Parsed<Part>
    ensures { out result ≡ read file.now (data_from state size address) at }
{
    if !state.is_address_valid(address) {
        return Ok((NO_BYTES, at));
    }
    data_at(file, address as usize, size)?;
    Ok((part_of(address as usize, size), at))
}

// The data at an address; at the undefined one there are none.
fn raw_data(file: &[u8], at: usize, state: State, address: Address, size: usize) -> Parsed<Part>
    ensures { out result ≡ read file.now (raw_data_lem state size address) at }
{
    match address {
        Address::Undefined => Ok((NO_BYTES, at)),
        Address::Number(number) => data_from(file, at, state, number, size),
    }
}

// Contiguous storage, after the class.
fn layout_contiguous(file: &[u8], at: usize, state: State) -> Parsed<DataLayout>
    requires { Widths state }
    ensures { out result ≡ read file.now (contiguous state) at }
{
    let (address, size_at) = address(file, at, state.size_of_offsets)?;
    let (size, next) = varint(file, size_at, state.size_of_lengths)?;
    if 268435456 <= size {
        return Err(Refusal::DataLayout);
    }
    let (data, next) = raw_data(file, next, state, address, size as usize)?;
    Ok((
        DataLayout {
            address: Some(address),
            data,
        },
        next,
    ))
}

pub fn message_data_layout(file: &[u8], at: usize, state: State) -> Parsed<DataLayout>
    requires { Widths state }
    ensures { out result ≡ read file.now (data_layout state) at }
{
    let (version, class_at) = le_u8(file, at)?;
    if version != 3 {
        return Err(Refusal::DataLayout);
    }
    let (class, fields_at) = le_u8(file, class_at)?;
    match class {
        0 => layout_compact(file, fields_at),
        1 => layout_contiguous(file, fields_at, state),
        2 => Err(Refusal::Chunked),
        _ => Err(Refusal::DataLayout),
    }
}
