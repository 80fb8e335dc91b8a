// Decoding an object header into a lent table (data_object.rs, data_object and
// build_data_object_from_messages), and the bytes of its data.
#![tactic(auto)]

ghost use Rattle.std.specs.Prelude.{◌≡◌, ◌/◌, ◌≤◌, length};
ghost use Rattle.format.specs.Bytes.{AreBytes};
ghost use Rattle.row.specs.Rows.{row_words};
ghost use Rattle.records.specs.Elements.{TrueSpace};
ghost use Rattle.parser.specs.States.{Widths};
ghost use Rattle.data_object.specs.Decoded.{Decoded, bytes_of};
ghost use Rattle.data_object.specs.DecodedLaws.{Built, RejectedAs};

use data_object_messages::data_object_messages;
use data_object_winners::{
    last_rows, winning_attribute_info, winning_data_layout, winning_data_space, winning_data_type,
    winning_group_info, winning_link_info,
};
use ohdr_closing::{Limits, Progress};
use ohdr_layout::contiguous_bytes;
use parser::State;
use records::{AttributeInfo, DataLayout, DataSpace, DataType, GroupInfo, LinkInfo, Part, Refusal};
use row::{clear_behind, rows_in};

// An object header: the next position and the entries read, or why it is refused; the rows of the
// table that are filled, and the records that win. Where it is refused, no row and the defaults.
#[derive(Clone, Copy)]
pub struct DataObject {
    pub answer: Result<(usize, usize), Refusal>,
    pub rows: usize,
    pub dt: DataType,
    pub ds: DataSpace,
    pub li: LinkInfo,
    pub ai: AttributeInfo,
    pub gi: GroupInfo,
    pub layout: DataLayout,
}

// A header that is refused hands no record out.
fn rejected(refusal: Refusal) -> DataObject
    ensures rejected_as { RejectedAs refusal result }
    ensures true_space { TrueSpace result.ds }
{
    DataObject {
        answer: Err(refusal),
        rows: 0,
        dt: DataType::default(),
        ds: DataSpace::default(),
        li: LinkInfo::default(),
        ai: AttributeInfo::default(),
        gi: GroupInfo::default(),
        layout: DataLayout::default(),
    }
}

// The records that win among the messages of a table.
fn build_data_object_from_messages(
    file: &[u8],
    table: &[u64],
    progress: Progress,
    state: State,
) -> DataObject
    requires { Widths state × (progress.rows ≤ length table.now / row_words) }
    ensures built { Built file.now table.now progress state result }
    ensures true_space { TrueSpace result.ds }
{
    let mut last = [0usize; 22];
    last_rows(table, progress.rows, &mut last);
    DataObject {
        answer: Ok((progress.at, progress.entries)),
        rows: progress.rows,
        dt: winning_data_type(file, table, last[3]),
        ds: winning_data_space(file, table, last[1], state),
        li: winning_link_info(file, table, last[2], state),
        ai: winning_attribute_info(file, table, last[21], state),
        gi: winning_group_info(file, table, last[10]),
        layout: winning_data_layout(file, table, last[8], state),
    }
}

// An object header at a position. Its messages go into the table, one a row, then zeros; a header
// that is refused leaves the table all zero. Words that a row fills are not cleared before. The
// dataspace that is handed out is true, accepted or refused. The file is one of bytes, which what is
// said of numbers asks for.
pub fn data_object(
    file: &[u8],
    position: u64,
    offset_width: u64,
    length_width: u64,
    end_of_file: u64,
    table: &mut [u64],
) -> DataObject
    ensures decoded { Decoded file.now offset_width length_width end_of_file position (length table.old) result table.new }
    ensures true_space { TrueSpace result.ds }
    ensures are_bytes { AreBytes file.now }
{
    let limits = Limits {
        entries: 4096,
        beyond: Refusal::Entries,
        rows: Some(rows_in(table)),
    };
    let read = data_object_messages(
        file,
        table,
        position,
        offset_width,
        length_width,
        end_of_file,
        limits,
    );
    match read {
        Err(stopped) => {
            clear_behind(table, 0);
            rejected(stopped.refusal)
        }
        Ok((progress, state)) => {
            clear_behind(table, progress.rows);
            build_data_object_from_messages(file, table, progress, state)
        }
    }
}

// The bytes of a part, as a part of the caller's file; none where it leaves the file.
pub fn layout_data(file: &[u8], part: Part) -> &[u8]
    ensures { result.now ≡ bytes_of file.now part }
{
    let position = part.position;
    let length = part.length;
    if file.len() < position {
        return &file[..0];
    }
    if file.len() - position < length {
        return &file[..0];
    }
    let from = &file[position..];
    contiguous_bytes(from, length)
}
