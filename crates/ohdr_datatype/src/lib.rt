// The datatype message (ohdr_message.rs, message_data_type), with types inside types.
#![tactic(auto)]

ghost use Rattle.std.specs.Prelude.{◌≡◌};
ghost use Rattle.helpers.specs.Answers.{out, place_out};
ghost use Rattle.format.specs.Format.{read, times};
ghost use Rattle.ohdr_datatype.specs.DataTypes.{known_version, known_class, known_type, data_type_header, fixed_properties, float_properties, ieee, float_format, member as memberFormat, plain, list_properties, list_size, properties, data_type};

use helpers::{Parsed, le_u8, le_u16, le_u24, le_u32};
use ohdr_member::member_fields;
use records::{DataFormat, DataType, FloatProperties, Refusal};

// The first eight bytes of a datatype.
#[derive(Clone, Copy)]
pub struct DataTypeHeader {
    pub class_and_version: u8,
    pub class_bit_field: u32,
    pub size: u32,
}

// IEEE single and double.
const SINGLE: FloatProperties = FloatProperties {
    bit_offset: 0,
    bit_precision: 32,
    exponent_location: 23,
    exponent_size: 8,
    mantissa_location: 0,
    mantissa_size: 23,
    exponent_bias: 127,
};

const DOUBLE: FloatProperties = FloatProperties {
    bit_offset: 0,
    bit_precision: 64,
    exponent_location: 52,
    exponent_size: 11,
    mantissa_location: 0,
    mantissa_size: 52,
    exponent_bias: 1023,
};

// Versions and classes that are read.
fn known_version(version: u8) -> bool
    ensures { result ≡ known_version version }
{
    version == 1 || version == 3
}

fn known_class(class: u8) -> bool
    ensures { result ≡ known_class class }
{
    match class {
        0 => true,
        1 => true,
        3 => true,
        6 => true,
        7 => true,
        9 => true,
        _ => false,
    }
}

fn known_type(class_and_version: u8) -> bool
    ensures { result ≡ known_type class_and_version }
{
    if known_version(class_and_version >> 4) {
        known_class(class_and_version & 15)
    } else {
        false
    }
}

fn data_type_header(file: &[u8], at: usize) -> Parsed<DataTypeHeader>
    ensures { out result ≡ read file.now data_type_header at }
{
    let (class_and_version, bits_at) = le_u8(file, at)?;
    if !known_type(class_and_version) {
        return Err(Refusal::DataType);
    }
    let (class_bit_field, size_at) = le_u24(file, bits_at)?;
    let (size, next) = le_u32(file, size_at)?;
    if 64 <= size {
        return Err(Refusal::DataType);
    }
    Ok((
        DataTypeHeader {
            class_and_version,
            class_bit_field,
            size,
        },
        next,
    ))
}

fn fixed_properties(file: &[u8], at: usize) -> Parsed<Option<DataFormat>>
    ensures { out result ≡ read file.now fixed_properties at }
{
    let (bit_offset, precision_at) = le_u16(file, at)?;
    let (bit_precision, next) = le_u16(file, precision_at)?;
    Ok((
        Some(DataFormat::Fixed {
            bit_offset,
            bit_precision,
        }),
        next,
    ))
}

fn float_properties(file: &[u8], at: usize) -> Parsed<FloatProperties>
    ensures { out result ≡ read file.now float_properties at }
{
    let (bit_offset, precision_at) = le_u16(file, at)?;
    let (bit_precision, exponent_at) = le_u16(file, precision_at)?;
    let (exponent_location, exponent_size_at) = le_u8(file, exponent_at)?;
    let (exponent_size, mantissa_at) = le_u8(file, exponent_size_at)?;
    let (mantissa_location, mantissa_size_at) = le_u8(file, mantissa_at)?;
    let (mantissa_size, bias_at) = le_u8(file, mantissa_size_at)?;
    let (exponent_bias, next) = le_u32(file, bias_at)?;
    Ok((
        FloatProperties {
            bit_offset,
            bit_precision,
            exponent_location,
            exponent_size,
            mantissa_location,
            mantissa_size,
            exponent_bias,
        },
        next,
    ))
}

fn is_ieee(f: FloatProperties) -> bool
    ensures { result ≡ ieee f }
{
    f == SINGLE || f == DOUBLE
}

fn float_format(file: &[u8], at: usize) -> Parsed<Option<DataFormat>>
    ensures { out result ≡ read file.now float_format at }
{
    let (f, next) = float_properties(file, at)?;
    if !is_ieee(f) {
        return Err(Refusal::DataType);
    }
    Ok((Some(DataFormat::Float(f)), next))
}

// A member of a compound, with its type.
#[cycle(types)]
fn member(file: &[u8], at: usize, version: u8, size: u32, levels: usize) -> Result<usize, Refusal>
    ensures { place_out result ≡ read file.now (memberFormat version size (data_type levels)) at }
{
    let type_at = member_fields(file, at, version, size)?;
    let (_, next) = message_data_type(file, type_at, levels)?;
    Ok(next)
}

// As many members as `count` says.
#[cycle(types)]
fn compound(
    file: &[u8],
    at: usize,
    count: u32,
    version: u8,
    size: u32,
    levels: usize,
) -> Parsed<Option<DataFormat>>
    ensures { out result ≡ read file.now (times count (memberFormat version size (data_type levels)) plain) at }
{
    let mut place = at;
    for _ in 0..count {
        place = member(file, place, version, size, levels)?;
    }
    Ok((None, place))
}

// The base type of a variable-length type.
#[cycle(types)]
fn list_properties(file: &[u8], at: usize, levels: usize) -> Parsed<Option<DataFormat>>
    ensures { out result ≡ read file.now (list_properties (data_type levels)) at }
{
    let (base, next) = message_data_type(file, at, levels)?;
    Ok((base.data_fmt, next))
}

// What follows the header, by its class.
#[cycle(types)]
fn type_properties(
    file: &[u8],
    at: usize,
    header: DataTypeHeader,
    levels: usize,
) -> Parsed<Option<DataFormat>>
    ensures { out result ≡ read file.now (properties header (data_type levels)) at }
{
    let cv = header.class_and_version;
    let bits = header.class_bit_field;
    let size = header.size;
    match cv & 15 {
        0 => fixed_properties(file, at),
        1 => float_format(file, at),
        3 | 7 => Ok((None, at)),
        6 => compound(file, at, bits & 65535, cv >> 4, size, levels),
        9 => list_properties(file, at, levels),
        _ => Err(Refusal::DataType),
    }
}

// The size of a variable-length type's list, which is the type's own.
fn list_size(header: DataTypeHeader) -> Option<u32>
    ensures { result ≡ list_size header }
{
    (header.class_and_version & 15 == 9).then_some(header.size)
}

// A datatype. `levels` is how many may stand one inside another.
#[cycle(types)]
pub fn message_data_type(file: &[u8], at: usize, levels: usize) -> Parsed<DataType>
    ensures { out result ≡ read file.now (data_type levels) at }
{
    if levels == 0 {
        return Err(Refusal::TypeLevel);
    }
    let (header, body_at) = data_type_header(file, at)?;
    let (data_fmt, next) = type_properties(file, body_at, header, levels - 1)?;
    Ok((
        DataType {
            class_and_version: header.class_and_version,
            class_bit_field: header.class_bit_field,
            size: header.size,
            list_size: list_size(header),
            data_fmt,
        },
        next,
    ))
}
