// The superblock at the beginning of a file (super_block.rs), of versions 2 and 3.
#![tactic(auto)]

ghost use Rattle.std.specs.Prelude.{◌≡◌, ◌≤◌};
ghost use Rattle.helpers.specs.Answers.{out};
ghost use Rattle.format.specs.Format.{read};
ghost use Rattle.helpers.specs.Addresses.{defined_address};
ghost use Rattle.super_block.specs.SuperBlocks.{addresses as address_fields, super_block, super_block_of};
ghost use Rattle.super_block.specs.Answers.{WidthsRead};

use helpers::{Parsed, address, le_u8, le_u32, le_u64, varint};
use lookup3::checksum_matches;
use parser::{FILE_LIMIT, width_allowed};
use records::{Address, Refusal};

// The signature's eight bytes as a number, and the versions that are known.
const FORMAT_SIGNATURE: u64 = 0x0A1A0A0D46444889;

const FIRST_VERSION: u8 = 2;

const LAST_VERSION: u8 = 3;

// Widths are in bytes; the base address is 0. An undefined end-of-file or root address is refused, so
// these two are numbers.
#[derive(Clone, Copy)]
pub struct SuperBlock {
    pub size_of_offsets: u8,
    pub size_of_lengths: u8,
    pub base_address: u64,
    pub superblock_extension_address: Address,
    pub end_of_file_address: u64,
    pub root_group_object_header_address: u64,
}

// An address that may not be undefined: an undefined one is short.
fn defined_address(file: &[u8], at: usize, size: usize) -> Parsed<u64>
    requires { size ≤ 8 }
    ensures { out result ≡ read file.now (defined_address size 3) at }
{
    let (stored, next) = address(file, at, size)?;
    match stored {
        Address::Undefined => Err(Refusal::Short),
        Address::Number(number) => Ok((number, next)),
    }
}

// The fields from the base address on.
fn addresses(file: &[u8], at: usize, size_of_offsets: u8, size_of_lengths: u8) -> Parsed<SuperBlock>
    requires { size_of_offsets ≤ 8 }
    ensures { out result ≡ read file.now (address_fields size_of_offsets size_of_lengths) at }
{
    let width = size_of_offsets as usize;
    let (base_address, at) = varint(file, at, width)?;
    if base_address != 0 {
        return Err(Refusal::BaseAddress);
    }
    let (superblock_extension_address, at) = address(file, at, width)?;
    let (end_of_file_address, at) = defined_address(file, at, width)?;
    let (root_group_object_header_address, at) = defined_address(file, at, width)?;
    let (_, at) = le_u32(file, at)?;
    let block = SuperBlock {
        size_of_offsets,
        size_of_lengths,
        base_address,
        superblock_extension_address,
        end_of_file_address,
        root_group_object_header_address,
    };
    Ok((block, at))
}

// The fields of a superblock at a file's first byte.
fn super_block_fields(file: &[u8]) -> Parsed<SuperBlock>
    ensures { out result ≡ read file.now super_block 0 }
{
    let (signature, at) = le_u64(file, 0)?;
    if signature != FORMAT_SIGNATURE {
        return Err(Refusal::SuperBlockSignature);
    }
    let (version, at) = le_u8(file, at)?;
    if version < FIRST_VERSION {
        return Err(Refusal::SuperBlockVersion);
    }
    if LAST_VERSION < version {
        return Err(Refusal::SuperBlockVersion);
    }
    let (size_of_offsets, at) = le_u8(file, at)?;
    if !width_allowed(size_of_offsets as u64) {
        return Err(Refusal::Width);
    }
    let (size_of_lengths, at) = le_u8(file, at)?;
    if !width_allowed(size_of_lengths as u64) {
        return Err(Refusal::Width);
    }
    let (_, at) = le_u8(file, at)?;
    addresses(file, at, size_of_offsets, size_of_lengths)
}

// The superblock of a file, which stands at its first byte. A file that is too large is refused
// before a byte of it is read, a checksum that does not match after the last field.
pub fn super_block(file: &[u8]) -> Parsed<SuperBlock>
    ensures result_value { out result ≡ super_block_of file.now }
    ensures widths_read { WidthsRead result }
{
    if FILE_LIMIT < file.len() {
        return Err(Refusal::FileSize);
    }
    let (block, at) = super_block_fields(file)?;
    if !checksum_matches(file, 0, at - 4) {
        return Err(Refusal::Checksum);
    }
    Ok((block, at))
}
