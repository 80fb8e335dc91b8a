// The project's operations for firmware: C functions on numbers and byte slices. None requires
// anything of its caller.
#![tactic(auto)]

ghost use Rattle.std.specs.Prelude.{◌≡◌, length, take, drop};
ghost use Rattle.helpers.specs.Answers.{out};
ghost use Rattle.listing_text.specs.Listing.{listing_of, Counts};
ghost use Rattle.super_block.specs.SuperBlocks.{super_block_of};
ghost use Rattle.data_object_check.specs.Checked.{Checked};
ghost use Rattle.data_object_words.specs.Handed.{Handed, TrueWords};
ghost use Rattle.data_object_root.specs.Root.{HandedRoot, CheckedRoot};
ghost use Rattle.firmware.specs.Words.{found_row, lookup_of, names_of, check_of};
ghost use Rattle.firmware.specs.Blocks.{words_of_address, block_of};
ghost use Rattle.firmware.specs.Handed.{HandedRow, HandedNames, HandedPart, HandedCheck};

use data_object_check::{HeaderFigures, check_data_object};
use data_object_root::{check_root, root_words};
use data_object_words::header_words;
use helpers::Parsed;
use listing_text::list;
use lookup::lookup;
use lookup_names::lookup_names;
use records::{Address, Refusal};
use super_block::{SuperBlock, super_block};

// Bytes of the file, from a position on.
#[repr(C)]
#[derive(Drop)]
pub struct PartWords {
    pub position: u64,
    pub length: u64,
}

// An address: whether it is undefined (1 or 0), and its number, which is 0 where it is.
#[repr(C)]
#[derive(Drop)]
pub struct AddressWords {
    pub undefined: u64,
    pub number: u64,
}

// A superblock: 0 or the number of its refusal, and its fields, which are 0 where it is refused.
#[repr(C)]
#[derive(Drop)]
pub struct SuperBlockWords {
    pub refused: u64,
    pub size_of_offsets: u64,
    pub size_of_lengths: u64,
    pub base_address: u64,
    pub superblock_extension_address: AddressWords,
    pub end_of_file_address: u64,
    pub root_group_object_header_address: u64,
}

// A lookup: 0 or the number of its refusal, whether a row was found (1 or 0), and that row.
#[repr(C)]
#[derive(Drop)]
pub struct LookupWords {
    pub refused: u64,
    pub found: u64,
    pub row: u64,
}

// A check: 0 or the number of its refusal, and the figures of the header, which are 0 where it is
// refused.
#[repr(C)]
#[derive(Drop)]
pub struct CheckWords {
    pub refused: u64,
    pub next: u64,
    pub entries: u64,
    pub rows: u64,
}

fn found_row(refused: u64, found: u64, row: u64) -> LookupWords
    ensures { result ≡ found_row refused found row }
{
    LookupWords {
        refused,
        found,
        row,
    }
}

impl From<Result<Option<usize>, Refusal>> for LookupWords {
    ghost from_gives = { λ answer words. words ≡ lookup_of answer };

    fn from(answer: Result<Option<usize>, Refusal>) -> Self {
        match answer {
            Ok(Some(row)) => found_row(0, 1, row as u64),
            Ok(None) => found_row(0, 0, 0),
            Err(refusal) => {
                let number = refusal.number();
                found_row(number, 0, 0)
            }
        }
    }
}

fn names_word(answer: Result<(), Refusal>) -> u64
    ensures { result ≡ names_of answer }
{
    match answer {
        Ok(()) => 0,
        Err(refusal) => refusal.number(),
    }
}

impl From<Result<HeaderFigures, Refusal>> for CheckWords {
    ghost from_gives = { λ answer words. words ≡ check_of answer };

    fn from(answer: Result<HeaderFigures, Refusal>) -> Self {
        match answer {
            Ok(figures) => CheckWords {
                refused: 0,
                next: figures.next as u64,
                entries: figures.entries as u64,
                rows: figures.rows as u64,
            },
            Err(refusal) => {
                let number = refusal.number();
                CheckWords {
                    refused: number,
                    next: 0,
                    entries: 0,
                    rows: 0,
                }
            }
        }
    }
}

impl From<Address> for AddressWords {
    ghost from_gives = { λ address words. words ≡ words_of_address address };

    fn from(address: Address) -> Self {
        match address {
            Address::Undefined => AddressWords {
                undefined: 1,
                number: 0,
            },
            Address::Number(number) => AddressWords {
                undefined: 0,
                number,
            },
        }
    }
}

impl From<Parsed<SuperBlock>> for SuperBlockWords {
    ghost from_gives = { λ answer words. words ≡ block_of (out answer) };

    fn from(answer: Parsed<SuperBlock>) -> Self {
        match answer {
            Err(refusal) => {
                let number = refusal.number();
                let none = AddressWords::from(Address::Number(0));
                SuperBlockWords {
                    refused: number,
                    size_of_offsets: 0,
                    size_of_lengths: 0,
                    base_address: 0,
                    superblock_extension_address: none,
                    end_of_file_address: 0,
                    root_group_object_header_address: 0,
                }
            }
            Ok((block, _)) => {
                let extension = block.superblock_extension_address;
                SuperBlockWords {
                    refused: 0,
                    size_of_offsets: block.size_of_offsets as u64,
                    size_of_lengths: block.size_of_lengths as u64,
                    base_address: block.base_address,
                    superblock_extension_address: AddressWords::from(extension),
                    end_of_file_address: block.end_of_file_address,
                    root_group_object_header_address: block.root_group_object_header_address,
                }
            }
        }
    }
}

// The number that dowringaf.h has as DOWRINGAF_LIBRARY_VERSION.
const LIBRARY_VERSION: u64 = 1;

// The version of what C is handed, for a caller to compare with its header's.
#[unsafe(no_mangle)]
pub extern "C" fn dowringaf_version() -> u64
    ensures { result ≡ 1 }
{
    LIBRARY_VERSION
}

// The superblock of a plain file.
#[unsafe(no_mangle)]
pub extern "C" fn dowringaf_super_block(file: &[u8]) -> SuperBlockWords
    ensures { result ≡ block_of (super_block_of file.now) }
{
    let answer = super_block(file);
    SuperBlockWords::from(answer)
}

// The object header at a position, checked without a table.
#[unsafe(no_mangle)]
pub extern "C" fn dowringaf_check_data_object(
    file: &[u8],
    position: u64,
    offset_width: u64,
    length_width: u64,
    end_of_file: u64,
) -> CheckWords
    ensures { HandedCheck (Checked file.now offset_width length_width end_of_file position) result }
{
    let answer = check_data_object(file, position, offset_width, length_width, end_of_file);
    CheckWords::from(answer)
}

// The root's object header of a plain file, checked without a table.
#[unsafe(no_mangle)]
pub extern "C" fn dowringaf_check_root_object(file: &[u8]) -> CheckWords
    ensures { HandedCheck (CheckedRoot file.now) result }
{
    let answer = check_root(file);
    CheckWords::from(answer)
}

// The root's object header of a plain file: its messages in the table, and its words in the order
// of `words_of`.
#[unsafe(no_mangle)]
pub extern "C" fn dowringaf_root_object(file: &[u8], table: &mut [u64], words: &mut [u64; 65])
    ensures handed_root { HandedRoot file.now (length table.old) table.new words.new }
    ensures true_words { TrueWords words.new }
{
    root_words(file, table, words);
}

// An object header at a position: its messages in the table, and its words in the order of
// `words_of`.
#[unsafe(no_mangle)]
pub extern "C" fn dowringaf_data_object(
    file: &[u8],
    position: u64,
    offset_width: u64,
    length_width: u64,
    end_of_file: u64,
    table: &mut [u64],
    words: &mut [u64; 65],
)
    ensures handed { Handed file.now offset_width length_width end_of_file position (length table.old) table.new words.new }
    ensures true_words { TrueWords words.new }
{
    header_words(
        file,
        position,
        offset_width,
        length_width,
        end_of_file,
        table,
        words,
    );
}

// The first of the `rows` rows of a table whose name in the file is `name`.
#[unsafe(no_mangle)]
pub extern "C" fn dowringaf_lookup(
    file: &[u8],
    table: &[u64],
    rows: usize,
    name: &[u8],
) -> LookupWords
    ensures { HandedRow file.now table.now rows name.now result }
{
    let answer = lookup(file, table, rows, name);
    LookupWords::from(answer)
}

// For each wanted name, a part of the text, what `dowringaf_lookup` finds: its row plus one, or 0.
#[unsafe(no_mangle)]
pub extern "C" fn dowringaf_lookup_names(
    file: &[u8],
    table: &[u64],
    rows: usize,
    text: &[u8],
    names: &[u64],
    answers: &mut [u64],
) -> u64
    ensures { HandedNames file.now table.now rows text.now names.now (length answers.old) answers.new result }
{
    let answer = lookup_names(file, table, rows, text, names, answers);
    names_word(answer)
}

// A part that lies in the file, as it is; 0 and 0 for one that leaves it. No reference crosses to
// C, so the caller finds the bytes from the two numbers.
#[unsafe(no_mangle)]
pub extern "C" fn dowringaf_layout_data(file: &[u8], position: usize, length: usize) -> PartWords
    ensures { HandedPart file.now (record { position = position; length = length }) result }
{
    if file.len() < position {
        return PartWords {
            position: 0,
            length: 0,
        };
    }
    if file.len() - position < length {
        return PartWords {
            position: 0,
            length: 0,
        };
    }
    PartWords {
        position: position as u64,
        length: length as u64,
    }
}

// The listing of a plain file, put at the start of out; the answer is its length, and what stands
// behind it is left alone.
#[unsafe(no_mangle)]
pub extern "C" fn dowringaf_list(file: &[u8], out: &mut [u8; 98304]) -> usize
    ensures counts { Counts result out.new }
    ensures out_after { take result out.new ≡ listing_of file.now }
    ensures out_unchanged { drop result out.new ≡ drop result out.old }
{
    list(file, out)
}
