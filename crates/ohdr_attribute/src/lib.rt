// The attribute message (ohdr_message.rs, message_attribute): a name, and the value of a text or of a
// number.
#![tactic(auto)]

ghost use Rattle.std.specs.Prelude.{◌≡◌, ◌||◌, ℕ, eqb};
ghost use Rattle.helpers.specs.Answers.{out, place_out};
ghost use Rattle.format.specs.Format.{found, read};
ghost use Rattle.parser.specs.States.{Widths};
ghost use Rattle.records.specs.Elements.{elements_of, count_of, TrueSpace};
ghost use Rattle.number_form.specs.Forms.{number_form};
ghost use Rattle.ohdr_attribute.specs.Attributes.{padding, text_value, list_value, other_value, element_value, value, space_value, valueless, name_and_value, encoding, attribute_fields, attribute};

use element_count::times;
use element_number::number_value;
use helpers::{Parsed, le_u8, le_u16, take, to_multiple_of_8, trim_end};
use number_form::number_form;
use ohdr_dataspace::message_data_space;
use ohdr_datatype::message_data_type;
use parser::State;
use records::{Attribute, DataSpace, DataType, Part, Refusal, Value};

// What stands before the name.
#[derive(Clone, Copy)]
pub struct AttributeFields {
    pub version: u8,
    pub name_size: u16,
}

// How many bytes follow a name, a type or a space of `n` bytes.
fn eight_padding(version: u8, n: usize) -> usize
    ensures { result ≡ padding version n }
{
    if version == 1 { to_multiple_of_8(n) } else { 0 }
}

// The encoding byte of version 3.
fn encoding_byte(file: &[u8], at: usize, version: u8) -> Result<usize, Refusal>
    ensures { place_out result ≡ read file.now (encoding version) at }
{
    if version != 3 {
        return Ok(at);
    }
    let (_, next) = le_u8(file, at)?;
    Ok(next)
}

fn known_version(version: u8) -> bool
    ensures { result ≡ (eqb version 1 || eqb version 3) }
{
    version == 1 || version == 3
}

fn attribute_fields(file: &[u8], at: usize) -> Parsed<AttributeFields>
    ensures { out result ≡ read file.now attribute_fields at }
{
    let (version, flags_at) = le_u8(file, at)?;
    if !known_version(version) {
        return Err(Refusal::Attribute);
    }
    let (_, name_size_at) = le_u8(file, flags_at)?;
    let (name_size, type_size_at) = le_u16(file, name_size_at)?;
    if 4096 < name_size {
        return Err(Refusal::Attribute);
    }
    let (_, space_size_at) = le_u16(file, type_size_at)?;
    let (_, encoding_at) = le_u16(file, space_size_at)?;
    let next = encoding_byte(file, encoding_at, version)?;
    Ok((AttributeFields { version, name_size }, next))
}

// A text in all the bytes of the elements. One that no file can hold leaves the file.
fn text_value(file: &[u8], at: usize, total: Option<u64>) -> Parsed<Value>
    ensures { (n : ℕ) → total ≡ count_of n → out result ≡ read file.now (text_value n) at }
{
    let Some(n) = total else {
        return Err(Refusal::Short);
    };
    let (length, next) = trim_end(file, at, n as usize)?;
    let text = Part {
        position: at,
        length,
    };
    Ok((Value::Text(text), next))
}

// A variable-length value: as many bytes as its size.
fn list_value(file: &[u8], at: usize, size: u32) -> Parsed<Value>
    ensures { out result ≡ read file.now (list_value size) at }
{
    if 12 < size {
        return Err(Refusal::Attribute);
    }
    let next = take(file, at, size as usize)?;
    Ok((Value::None, next))
}

// The bytes of another class, passed where they are 1 to 1,048,576.
fn other_value(file: &[u8], at: usize, total: Option<u64>) -> Parsed<Value>
    ensures { (n : ℕ) → total ≡ count_of n → out result ≡ read file.now (other_value n) at }
{
    let Some(n) = total else {
        return Ok((Value::None, at));
    };
    if n < 1 {
        return Ok((Value::None, at));
    }
    if 1048576 < n {
        return Ok((Value::None, at));
    }
    let next = take(file, at, n as usize)?;
    Ok((Value::None, next))
}

// One element: its number, or its bytes passed where its form has none.
fn element_value(file: &[u8], at: usize, datatype: DataType) -> Parsed<Value>
    ensures { out result ≡ read file.now (element_value (number_form datatype) datatype) at }
{
    let bits = datatype.class_bit_field;
    let size = datatype.size;
    let Some(form) = number_form(datatype) else {
        return other_value(file, at, Some(size as u64));
    };
    let (number, next) = number_value(file, at, form, bits, size)?;
    Ok((Value::Number(number), next))
}

fn is_one(count: Option<u64>) -> bool
    ensures { (n : ℕ) → count ≡ count_of n → result ≡ eqb n 1 }
{
    count == Some(1)
}

// The value, by the type's class and size and the space's elements.
fn attribute_value(file: &[u8], at: usize, datatype: DataType, space: DataSpace) -> Parsed<Value>
    requires { TrueSpace space }
    ensures { out result ≡ read file.now (value datatype (elements_of space)) at }
{
    let size = datatype.size;
    let count = space.elements;
    let total = times(count, size as u64);
    match datatype.class_and_version & 15 {
        3 if 0 < size => text_value(file, at, total),
        9 => list_value(file, at, size),
        _ if is_one(count) => element_value(file, at, datatype),
        _ => other_value(file, at, total),
    }
}

// Space and value, after the type and its padding.
fn space_and_value(
    file: &[u8],
    at: usize,
    version: u8,
    state: State,
    datatype: DataType,
) -> Parsed<Value>
    requires { Widths state }
    ensures { out result ≡ read file.now (space_value version state datatype) at }
{
    let (space, upto) = message_data_space(file, at, state)?;
    let value_at = take(file, upto, eight_padding(version, upto - at))?;
    attribute_value(file, value_at, datatype, space)
}

// An attribute whose type, space or value failed ends where its type began.
fn without_value(name: Part, at: usize) -> Parsed<Attribute>
    ensures { out result ≡ found (valueless name) at }
{
    let value = Value::None;
    Ok((Attribute { name, value }, at))
}

// Type, space and value of an attribute with this name; an attribute without value where one fails.
fn name_and_value(
    file: &[u8],
    at: usize,
    version: u8,
    state: State,
    name: Part,
) -> Parsed<Attribute>
    requires { Widths state }
    ensures { out result ≡ read file.now (name_and_value version state name) at }
{
    let Ok((datatype, upto)) = message_data_type(file, at, 32) else {
        return without_value(name, at);
    };
    let Ok(space_at) = take(file, upto, eight_padding(version, upto - at)) else {
        return without_value(name, at);
    };
    let Ok((value, next)) = space_and_value(file, space_at, version, state, datatype) else {
        return without_value(name, at);
    };
    Ok((Attribute { name, value }, next))
}

pub fn message_attribute(file: &[u8], at: usize, state: State) -> Parsed<Attribute>
    requires { Widths state }
    ensures { out result ≡ read file.now (attribute state) at }
{
    let (fields, name_at) = attribute_fields(file, at)?;
    let name_size = fields.name_size as usize;
    let (length, padding_at) = trim_end(file, name_at, name_size)?;
    let type_at = take(file, padding_at, eight_padding(fields.version, name_size))?;
    let name = Part {
        position: name_at,
        length,
    };
    name_and_value(file, type_at, fields.version, state, name)
}
