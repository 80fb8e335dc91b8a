// The root's object header of a plain file: where it lies, and with which widths it is read, stands
// in the file's own superblock (parser.rs, parse, but for its test of the file's length).
#![tactic(auto)]

ghost use Rattle.std.specs.Prelude.{◌≡◌, length};
ghost use Rattle.format.specs.Bytes.{AreBytes};
ghost use Rattle.records.specs.Refusals.{refusal_number};
ghost use Rattle.data_object_words.specs.Handed.{TrueWords};
ghost use Rattle.data_object_root.specs.Root.{refused_words, HandedRoot, CheckedRoot};

use data_object_check::{HeaderFigures, check_data_object};
use data_object_words::header_words;
use records::Refusal;
use row::clear_behind;
use super_block::super_block;

// The words of a file that is refused: the refusal's number, and the default records, of which the
// dataspace has one element.
fn put_refusal(words: &mut [u64], refusal: Refusal)
    requires { length words.old ≡ 65 }
    ensures { words.new ≡ refused_words (refusal_number refusal) }
{
    clear_behind(words, 0);
    words[0] = refusal.number();
    words[19] = 1;
}

// The root's object header: its messages in the table, and its words. A superblock that is refused
// leaves the table all zero.
pub fn root_words(file: &[u8], table: &mut [u64], words: &mut [u64; 65])
    ensures handed_root { HandedRoot file.now (length table.old) table.new words.new }
    ensures true_words { TrueWords words.new }
    ensures are_bytes { AreBytes file.now }
{
    match super_block(file) {
        Err(refusal) => {
            clear_behind(table, 0);
            put_refusal(words, refusal);
        }
        Ok((block, _)) => header_words(
            file,
            block.root_group_object_header_address,
            block.size_of_offsets as u64,
            block.size_of_lengths as u64,
            block.end_of_file_address,
            table,
            words,
        ),
    }
}

// The root's object header, checked without a table.
pub fn check_root(file: &[u8]) -> Result<HeaderFigures, Refusal>
    ensures { CheckedRoot file.now result }
{
    let (block, _) = super_block(file)?;
    let root = block.root_group_object_header_address;
    let offsets = block.size_of_offsets as u64;
    let lengths = block.size_of_lengths as u64;
    check_data_object(file, root, offsets, lengths, block.end_of_file_address)
}
