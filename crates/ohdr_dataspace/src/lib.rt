// The dataspace message (ohdr_message.rs, message_data_space).
#![tactic(auto)]

ghost use Rattle.std.specs.Prelude.{◌≡◌, ℕ, ◌≤◌, IfOk};
ghost use Rattle.helpers.specs.Answers.{out};
ghost use Rattle.format.specs.Format.{read};
ghost use Rattle.records.specs.Elements.{TrueSpace};
ghost use Rattle.parser.specs.States.{Widths};
ghost use Rattle.ohdr_dataspace.specs.DataSpaces.{dimension as dimension_format, dimensions as dimensions_format, maximum_sizes, data_space1, data_space2, data_space};
ghost use Rattle.ohdr_dataspace.specs.Answers.{data_space_sizes, fields_out, Few};

use element_count::elements;
use helpers::{Parsed, all_ones, le_u8, take, varint};
use parser::State;
use records::{DataSpace, Dimensions, Refusal};

// What stands before the sizes.
#[derive(Clone, Copy)]
struct Fields {
    dimensionality: u8,
    flags: u8,
    kind: Option<u8>,
}

// One size; a maximum size may be unlimited.
fn dimension(file: &[u8], at: usize, width: usize, maximum: bool) -> Parsed<u64>
    requires { width ≤ 8 }
    ensures { out result ≡ read file.now (dimension_format width maximum) at }
{
    let (size, next) = varint(file, at, width)?;
    if size <= 1000000 {
        return Ok((size, next));
    }
    if !maximum {
        return Err(Refusal::DataSpace);
    }
    if size == all_ones(width) {
        Ok((size, next))
    } else {
        Err(Refusal::DataSpace)
    }
}

// `count` sizes.
fn dimensions(file: &[u8], at: usize, count: u8, width: usize, maximum: bool) -> Parsed<Dimensions>
    requires { (count ≤ 4) × (width ≤ 8) }
    ensures { out result ≡ read file.now (dimensions_format count width maximum) at }
{
    let mut sizes = [0u64; 4];
    let mut place = at;
    for i in 0..count as usize {
        let (size, next) = dimension(file, place, width, maximum)?;
        sizes[i] = size;
        place = next;
    }
    Ok((Dimensions { sizes, count }, place))
}

// The maximum sizes, or none.
fn maximum_sizes(
    file: &[u8],
    at: usize,
    count: u8,
    width: usize,
    present: bool,
) -> Parsed<Dimensions>
    requires { (count ≤ 4) × (width ≤ 8) }
    ensures { out result ≡ read file.now (maximum_sizes count width present) at }
{
    if present {
        return dimensions(file, at, count, width, true);
    }
    Ok((Dimensions::default(), at))
}

// The sizes and the maximum sizes, with which both versions end.
fn data_space_sizes(file: &[u8], at: usize, fields: Fields, width: usize) -> Parsed<DataSpace>
    requires { (fields.dimensionality ≤ 4) × (width ≤ 8) }
    ensures result_value { out result ≡ read file.now (data_space_sizes width fields.dimensionality fields.flags fields.kind) at }
    ensures true_space { IfOk result (λ p. TrueSpace p.0) }
{
    let Fields {
        dimensionality,
        flags,
        kind,
    } = fields;
    let (dimension_size, maximum_at) = dimensions(file, at, dimensionality, width, false)?;
    let present = flags & 1 != 0;
    let (dimension_max_size, end) = maximum_sizes(
        file,
        maximum_at,
        dimensionality,
        width,
        present,
    )?;
    let elements = elements(kind, dimension_size);
    let data_space = DataSpace {
        dimension_size,
        dimension_max_size,
        dimensionality,
        flags,
        kind,
        elements,
    };
    Ok((data_space, end))
}

// Version 1, from behind its version to its sizes.
fn data_space_1(file: &[u8], at: usize) -> Parsed<Fields>
    ensures by_index { (width : ℕ) → fields_out file.now width result ≡ read file.now (data_space1 width) at }
    ensures few { Few result }
{
    let (dimensionality, flags_at) = le_u8(file, at)?;
    if 4 < dimensionality {
        return Err(Refusal::DataSpace);
    }
    let (flags, reserved_at) = le_u8(file, flags_at)?;
    if flags & 2 != 0 {
        return Err(Refusal::DataSpace);
    }
    let sizes_at = take(file, reserved_at, 5)?;
    let fields = Fields {
        dimensionality,
        flags,
        kind: None,
    };
    Ok((fields, sizes_at))
}

// Version 2, from behind its version to its sizes.
fn data_space_2(file: &[u8], at: usize) -> Parsed<Fields>
    ensures by_index { (width : ℕ) → fields_out file.now width result ≡ read file.now (data_space2 width) at }
    ensures few { Few result }
{
    let (dimensionality, flags_at) = le_u8(file, at)?;
    if 4 < dimensionality {
        return Err(Refusal::DataSpace);
    }
    let (flags, kind_at) = le_u8(file, flags_at)?;
    let (kind, sizes_at) = le_u8(file, kind_at)?;
    let fields = Fields {
        dimensionality,
        flags,
        kind: Some(kind),
    };
    Ok((fields, sizes_at))
}

// The version, and its table up to the sizes.
fn data_space_fields(file: &[u8], at: usize) -> Parsed<Fields>
    ensures result_value { (state : State) → fields_out file.now state.size_of_lengths result ≡ read file.now (data_space state) at }
    ensures few { Few result }
{
    let (version, next) = le_u8(file, at)?;
    match version {
        1 => data_space_1(file, next),
        2 => data_space_2(file, next),
        _ => Err(Refusal::DataSpace),
    }
}

// A dataspace that is read is true.
pub fn message_data_space(file: &[u8], at: usize, state: State) -> Parsed<DataSpace>
    requires { Widths state }
    ensures result_value { out result ≡ read file.now (data_space state) at }
    ensures true_space { IfOk result (λ p. TrueSpace p.0) }
{
    let (fields, sizes_at) = data_space_fields(file, at)?;
    data_space_sizes(file, sizes_at, fields, state.size_of_lengths)
}
