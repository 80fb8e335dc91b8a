// The records of a data object, by value, as data_object.rs and fractal_heap.rs declare them, and
// the reasons for which a file or a header is refused.
#![tactic(auto)]

ghost use Rattle.std.specs.Prelude.{◌≡◌};
ghost use Rattle.records.specs.Refusals.{refusal_number};
ghost use Rattle.records.specs.Numbers.{value_text};
ghost use Rattle.records.specs.Elements.{TrueSpace};
ghost use Rattle.records.specs.Defaults.{no_dimensions, default_data_space, default_link_info, default_group_info, default_attribute_info, default_data_type, default_data_layout};

// Why a file or a header is refused. `refusal_number` gives each its number.
#[derive(Clone, Copy)]
pub enum Refusal {
    // 1: width not 2 to 8
    Width,
    // 2: file above 2,147,483,648 bytes
    FileSize,
    // 3: short: a needed byte lies past the file
    Short,
    // 4: not `OHDR`
    Signature,
    // 5: header version
    Version,
    // 6: header flag bit 4
    HeaderFlags,
    // 7: chunk size
    ChunkSize,
    // 8: entry flags
    EntryFlags,
    // 9: dataspace
    DataSpace,
    // 10: link info
    LinkInfo,
    // 11: datatype
    DataType,
    // 12: fill
    DataFill,
    // 13: layout
    DataLayout,
    // 14: chunked (class 2)
    Chunked,
    // 15: group info
    GroupInfo,
    // 16: filter pipeline
    FilterPipeline,
    // 17: attribute
    Attribute,
    // 18: attribute info
    AttributeInfo,
    // 19: continuation range
    ContinuationRange,
    // 20: not `OCHK`
    ContinuationSignature,
    // 21: 26th block level
    BlockLevel,
    // 22: 33rd type level
    TypeLevel,
    // 23: 4,097th entry
    Entries,
    // 24: table too small
    Table,
    // 25: not the format signature of a superblock
    SuperBlockSignature,
    // 26: superblock version
    SuperBlockVersion,
    // 27: base address
    BaseAddress,
    // 28: checksum
    Checksum,
    // 29: more than 32 names, or more than the answers lent
    Names,
}

impl Refusal {
    // The numbers are written out, and no discriminants, so that a wrong program can have two alike.
    pub fn number(self) -> u64
        ensures { result ≡ refusal_number self }
    {
        match self {
            Refusal::Width => 1,
            Refusal::FileSize => 2,
            Refusal::Short => 3,
            Refusal::Signature => 4,
            Refusal::Version => 5,
            Refusal::HeaderFlags => 6,
            Refusal::ChunkSize => 7,
            Refusal::EntryFlags => 8,
            Refusal::DataSpace => 9,
            Refusal::LinkInfo => 10,
            Refusal::DataType => 11,
            Refusal::DataFill => 12,
            Refusal::DataLayout => 13,
            Refusal::Chunked => 14,
            Refusal::GroupInfo => 15,
            Refusal::FilterPipeline => 16,
            Refusal::Attribute => 17,
            Refusal::AttributeInfo => 18,
            Refusal::ContinuationRange => 19,
            Refusal::ContinuationSignature => 20,
            Refusal::BlockLevel => 21,
            Refusal::TypeLevel => 22,
            Refusal::Entries => 23,
            Refusal::Table => 24,
            Refusal::SuperBlockSignature => 25,
            Refusal::SuperBlockVersion => 26,
            Refusal::BaseAddress => 27,
            Refusal::Checksum => 28,
            Refusal::Names => 29,
        }
    }
}

// An address of the file, or the undefined one, at which nothing stands. It is no Option, since a
// record may lack an address: an Option in an Option would not tell which of the two is meant.
#[derive(Clone, Copy)]
pub enum Address {
    Undefined,
    Number(u64),
}

// How the bits of a floating-point number stand in its bytes.
#[derive(Clone, Copy, PartialEq, Eq)]
pub struct FloatProperties {
    pub bit_offset: u16,
    pub bit_precision: u16,
    pub exponent_location: u8,
    pub exponent_size: u8,
    pub mantissa_location: u8,
    pub mantissa_size: u8,
    pub exponent_bias: u32,
}

// How the bits of a number stand in its bytes.
#[derive(Clone, Copy)]
pub enum DataFormat {
    Fixed { bit_offset: u16, bit_precision: u16 },
    Float(FloatProperties),
}

// At most four sizes: the first `count` of `sizes`, and then zeros. They are no Vec, since there is
// no heap.
#[derive(Clone, Copy)]
pub struct Dimensions {
    pub sizes: [u64; 4],
    pub count: u8,
}

impl Default for Dimensions {
    ghost is_default = { λ r. r ≡ no_dimensions };

    fn default() -> Self {
        Self {
            sizes: [0; 4],
            count: 0,
        }
    }
}

// The sizes of an array, and how many elements they make, unless they are too many for 64 bits.
#[derive(Clone, Copy)]
pub struct DataSpace {
    pub dimension_size: Dimensions,
    pub dimension_max_size: Dimensions,
    pub dimensionality: u8,
    pub flags: u8,
    pub kind: Option<u8>,
    pub elements: Option<u64>,
}

impl Default for DataSpace {
    ghost is_default = { λ r. (r ≡ default_data_space) × TrueSpace r };

    // Without sizes it has one element.
    fn default() -> Self {
        Self {
            dimension_size: Dimensions::default(),
            dimension_max_size: Dimensions::default(),
            dimensionality: 0,
            flags: 0,
            kind: None,
            elements: Some(1),
        }
    }
}

#[derive(Clone, Copy)]
pub struct LinkInfo {
    pub flags: u8,
    pub maximum_creation_index: Option<u64>,
    pub fractal_heap_address: Address,
    pub address_btree_index: Address,
    pub address_btree_order: Option<Address>,
}

impl Default for LinkInfo {
    ghost is_default = { λ r. r ≡ default_link_info };

    fn default() -> Self {
        Self {
            flags: 0,
            maximum_creation_index: None,
            fractal_heap_address: Address::Number(0),
            address_btree_index: Address::Number(0),
            address_btree_order: None,
        }
    }
}

#[derive(Clone, Copy)]
pub struct GroupInfo {
    pub flags: u8,
    pub maximum_compact_value: Option<u16>,
    pub minimum_dense_value: Option<u16>,
    pub number_of_entries: Option<u16>,
    pub length_of_entries: Option<u16>,
}

impl Default for GroupInfo {
    ghost is_default = { λ r. r ≡ default_group_info };

    fn default() -> Self {
        Self {
            flags: 0,
            maximum_compact_value: None,
            minimum_dense_value: None,
            number_of_entries: None,
            length_of_entries: None,
        }
    }
}

#[derive(Clone, Copy)]
pub struct AttributeInfo {
    pub flags: u8,
    pub maximum_creation_index: u64,
    pub fractal_heap_address: Address,
    pub attribute_name_btree: Address,
    pub attribute_creation_order_btree: Address,
}

impl Default for AttributeInfo {
    ghost is_default = { λ r. r ≡ default_attribute_info };

    fn default() -> Self {
        Self {
            flags: 0,
            maximum_creation_index: 0,
            fractal_heap_address: Address::Number(0),
            attribute_name_btree: Address::Number(0),
            attribute_creation_order_btree: Address::Number(0),
        }
    }
}

#[derive(Clone, Copy)]
pub struct DataType {
    pub class_and_version: u8,
    pub class_bit_field: u32,
    pub size: u32,
    pub list_size: Option<u32>,
    pub data_fmt: Option<DataFormat>,
}

impl Default for DataType {
    ghost is_default = { λ r. r ≡ default_data_type };

    fn default() -> Self {
        Self {
            class_and_version: 0,
            class_bit_field: 0,
            size: 0,
            list_size: None,
            data_fmt: None,
        }
    }
}

// Bytes of the file, from a position on.
#[derive(Clone, Copy)]
pub struct Part {
    pub position: usize,
    pub length: usize,
}

// A layout's data as bytes of the file, beside the address that the layout has for them. Compact
// data have no address.
#[derive(Clone, Copy)]
pub struct DataLayout {
    pub address: Option<Address>,
    pub data: Part,
}

impl Default for DataLayout {
    ghost is_default = { λ r. r ≡ default_data_layout };

    fn default() -> Self {
        Self {
            address: None,
            data: Part {
                position: 0,
                length: 0,
            },
        }
    }
}

// A number: a whole one, without or with a sign, a single or a double, its bits as they are stored.
// A NaN never is a float here: it would lose its sign and its payload. It is held by its bits.
#[derive(Clone, Copy)]
pub enum Number {
    Unsigned(u64),
    Signed(i64),
    Single(f32),
    Double(f64),
    SingleNan(u32),
    DoubleNan(u64),
}

// The value of an attribute: a text, as bytes of the file, or a number; many have none. `None` is a
// case and no Option around it, since each reader of a value tells three cases apart.
#[derive(Clone, Copy)]
pub enum Value {
    None,
    Text(Part),
    Number(Number),
}

impl Value {
    pub fn text(self) -> Option<Part>
        ensures { result ≡ value_text self }
    {
        match self {
            Value::None => None,
            Value::Text(p) => Some(p),
            Value::Number(_) => None,
        }
    }
}

// An attribute's name, and its value.
#[derive(Clone, Copy)]
pub struct Attribute {
    pub name: Part,
    pub value: Value,
}
