// The words of the records of an object, each at its place in an array of 65.
#![tactic(auto)]

ghost use Rattle.std.specs.Prelude.{◌≡◌, [], ◌∷◌, ◌+◌, ◌≤◌};
ghost use Rattle.std.proofs.lemmas.List.Edits.{sets};
ghost use Rattle.record_words.specs.Words.{optional_words, address_words, optional_address_words, dimensions_words, elements_words, data_space_words, format_words, data_type_words, link_info_words, group_info_words, attribute_info_words, data_layout_words};

use records::{
    Address, AttributeInfo, DataFormat, DataLayout, DataSpace, DataType, Dimensions,
    FloatProperties, GroupInfo, LinkInfo,
};

// The fields that a format lacks.
const NO_FIELDS: FloatProperties = FloatProperties {
    bit_offset: 0,
    bit_precision: 0,
    exponent_location: 0,
    exponent_size: 0,
    mantissa_location: 0,
    mantissa_size: 0,
    exponent_bias: 0,
};

// Whether the field is there, and its value, which is 0 where it is not.
fn put_optional(words: &mut [u64; 65], at: usize, field: Option<u64>)
    requires { at + 2 ≤ 65 }
    ensures { words.new ≡ sets words.old at (optional_words field) }
{
    words[at] = u64::from(field.is_some());
    words[at + 1] = field.unwrap_or(0);
}

// Whether the address is undefined, and its number, which is 0 where it is.
fn put_address(words: &mut [u64; 65], at: usize, address: Address)
    requires { at + 2 ≤ 65 }
    ensures { words.new ≡ sets words.old at (address_words address) }
{
    match address {
        Address::Undefined => {
            words[at] = 1;
            words[at + 1] = 0;
        }
        Address::Number(number) => {
            words[at] = 0;
            words[at + 1] = number;
        }
    }
}

fn put_optional_address(words: &mut [u64; 65], at: usize, field: Option<Address>)
    requires { at + 3 ≤ 65 }
    ensures { words.new ≡ sets words.old at (optional_address_words field) }
{
    words[at] = u64::from(field.is_some());
    put_address(words, at + 1, field.unwrap_or(Address::Number(0)));
}

fn put_dimensions(words: &mut [u64; 65], at: usize, dimensions: Dimensions)
    requires { at + 5 ≤ 65 }
    ensures { words.new ≡ sets words.old at (dimensions_words dimensions) }
{
    words[at] = dimensions.count as u64;
    words[at + 1] = dimensions.sizes[0];
    words[at + 2] = dimensions.sizes[1];
    words[at + 3] = dimensions.sizes[2];
    words[at + 4] = dimensions.sizes[3];
}

// Whether the elements are too many, and their number, which is 0 where they are.
fn put_elements(words: &mut [u64; 65], elements: Option<u64>)
    ensures { words.new ≡ sets words.old 18 (elements_words elements) }
{
    words[18] = u64::from(elements.is_none());
    words[19] = elements.unwrap_or(0);
}

pub fn put_data_space(words: &mut [u64; 65], space: DataSpace)
    ensures { words.new ≡ sets words.old 4 (data_space_words space) }
{
    words[4] = space.dimensionality as u64;
    words[5] = space.flags as u64;
    put_optional(words, 6, space.kind.map(u64::from));
    put_dimensions(words, 8, space.dimension_size);
    put_dimensions(words, 13, space.dimension_max_size);
    put_elements(words, space.elements);
}

// The kind of a format and its seven fields.
fn put_format_fields(words: &mut [u64; 65], kind: u64, fields: FloatProperties)
    ensures { words.new ≡ sets words.old 25 (kind ∷ fields.bit_offset ∷ fields.bit_precision ∷ fields.exponent_location ∷ fields.exponent_size ∷ fields.mantissa_location ∷ fields.mantissa_size ∷ fields.exponent_bias ∷ []) }
{
    words[25] = kind;
    words[26] = fields.bit_offset as u64;
    words[27] = fields.bit_precision as u64;
    words[28] = fields.exponent_location as u64;
    words[29] = fields.exponent_size as u64;
    words[30] = fields.mantissa_location as u64;
    words[31] = fields.mantissa_size as u64;
    words[32] = fields.exponent_bias as u64;
}

fn put_format(words: &mut [u64; 65], format: Option<DataFormat>)
    ensures { words.new ≡ sets words.old 25 (format_words format) }
{
    match format {
        None => put_format_fields(words, 0, NO_FIELDS),
        Some(
            DataFormat::Fixed {
                bit_offset,
                bit_precision,
            },
        ) => {
            let fields = FloatProperties {
                bit_offset,
                bit_precision,
                ..NO_FIELDS
            };
            put_format_fields(words, 1, fields)
        }
        Some(DataFormat::Float(fields)) => put_format_fields(words, 2, fields),
    }
}

pub fn put_data_type(words: &mut [u64; 65], datatype: DataType)
    ensures { words.new ≡ sets words.old 20 (data_type_words datatype) }
{
    words[20] = datatype.class_and_version as u64;
    words[21] = datatype.class_bit_field as u64;
    words[22] = datatype.size as u64;
    put_optional(words, 23, datatype.list_size.map(u64::from));
    put_format(words, datatype.data_fmt);
}

pub fn put_link_info(words: &mut [u64; 65], info: LinkInfo)
    ensures { words.new ≡ sets words.old 33 (link_info_words info) }
{
    words[33] = info.flags as u64;
    put_optional(words, 34, info.maximum_creation_index);
    put_address(words, 36, info.fractal_heap_address);
    put_address(words, 38, info.address_btree_index);
    put_optional_address(words, 40, info.address_btree_order);
}

pub fn put_group_info(words: &mut [u64; 65], info: GroupInfo)
    ensures { words.new ≡ sets words.old 43 (group_info_words info) }
{
    words[43] = info.flags as u64;
    put_optional(words, 44, info.maximum_compact_value.map(u64::from));
    put_optional(words, 46, info.minimum_dense_value.map(u64::from));
    put_optional(words, 48, info.number_of_entries.map(u64::from));
    put_optional(words, 50, info.length_of_entries.map(u64::from));
}

pub fn put_attribute_info(words: &mut [u64; 65], info: AttributeInfo)
    ensures { words.new ≡ sets words.old 52 (attribute_info_words info) }
{
    words[52] = info.flags as u64;
    words[53] = info.maximum_creation_index;
    put_address(words, 54, info.fractal_heap_address);
    put_address(words, 56, info.attribute_name_btree);
    put_address(words, 58, info.attribute_creation_order_btree);
}

pub fn put_data_layout(words: &mut [u64; 65], layout: DataLayout)
    ensures { words.new ≡ sets words.old 60 (data_layout_words layout) }
{
    put_optional_address(words, 60, layout.address);
    words[63] = layout.data.position as u64;
    words[64] = layout.data.length as u64;
}
