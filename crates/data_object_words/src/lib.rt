// The words of a decoded object header, for what takes numbers alone: 65 of them, in a lent array.
#![tactic(auto)]

ghost use Rattle.std.specs.Prelude.{◌≡◌, ◌≤◌, length};
ghost use Rattle.std.proofs.lemmas.List.Edits.{sets};
ghost use Rattle.format.specs.Bytes.{AreBytes};
ghost use Rattle.data_object_words.specs.Words.{answer_words, words_of};
ghost use Rattle.data_object_words.specs.Handed.{Handed, TrueWords};

use data_object::{DataObject, data_object};
use record_words::{
    put_attribute_info, put_data_layout, put_data_space, put_data_type, put_group_info,
    put_link_info,
};
use records::Refusal;

// Takes the array as a slice, since only a slice tells its caller how long it is.
fn put_answer(words: &mut [u64], answer: Result<(usize, usize), Refusal>)
    requires { 3 ≤ length words.old }
    ensures { words.new ≡ sets words.old 0 (answer_words answer) }
{
    match answer {
        Ok((next, entries)) => {
            words[0] = 0;
            words[1] = next as u64;
            words[2] = entries as u64;
        }
        Err(refusal) => {
            words[0] = refusal.number();
            words[1] = 0;
            words[2] = 0;
        }
    }
}

// All the words of an object, whatever stood in the array before.
fn put_words(object: DataObject, words: &mut [u64; 65])
    ensures { words.new ≡ words_of object }
{
    put_answer(words, object.answer);
    words[3] = object.rows as u64;
    put_data_space(words, object.ds);
    put_data_type(words, object.dt);
    put_link_info(words, object.li);
    put_group_info(words, object.gi);
    put_attribute_info(words, object.ai);
    put_data_layout(words, object.layout);
}

// An object header at a position: its messages in the table, and its words. Whoever decodes a header
// does it by this function, so that the object is nowhere kept but in its words.
pub fn header_words(
    file: &[u8],
    position: u64,
    offset_width: u64,
    length_width: u64,
    end_of_file: u64,
    table: &mut [u64],
    words: &mut [u64; 65],
)
    ensures handed { Handed file.now offset_width length_width end_of_file position (length table.old) table.new words.new }
    ensures true_words { TrueWords words.new }
    ensures are_bytes { AreBytes file.now }
{
    let object = data_object(
        file,
        position,
        offset_width,
        length_width,
        end_of_file,
        table,
    );
    put_words(object, words);
}
