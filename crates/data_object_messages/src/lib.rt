// The messages of an object header within limits (data_object.rs, data_object): the tests that come
// first, the header's fields, and the walk over its entries. Checking a header and filling a table
// are both this.
#![tactic(auto)]

ghost use Rattle.std.specs.Prelude.{◌≡◌, ◌≤◌, IfOk, length};
ghost use Rattle.parser.specs.States.{file_limit, Widths};
ghost use Rattle.ohdr_closing.specs.Answers.{Lends, limits_of, walk_out};
ghost use Rattle.data_object_messages.specs.Messages.{messages_out, header_on, decode_on, StateRead};

use data_object_header::header_fields;
use ohdr_closing::{Limits, Progress, Stopped, with_entries};
use ohdr_walk::{Header, collect_all_messages};
use parser::{FILE_LIMIT, State};
use records::Refusal;

// The header's fields, and then its messages.
fn header_messages(
    file: &[u8],
    table: &mut [u64],
    position: usize,
    state: State,
    limits: Limits,
) -> Result<Progress, Stopped>
    requires { Widths state × (length file.now ≤ file_limit) × Lends limits table.old }
    ensures { walk_out result table.new ≡ header_on file.now state position (limits_of limits) table.old }
{
    let (fields, start) = with_entries(header_fields(file, position), 0)?;
    let end = start + fields.size as usize;
    let header = Header {
        state,
        flags: fields.flags,
    };
    collect_all_messages(file, table, header, limits, position, start, end)
}

// The messages of the object header at a position, and the state of the file; those messages that
// have a row go into the table. A refusal leaves the table's words free, as that of
// `collect_all_messages` does: the caller clears them. Position, widths and end of file are four
// numbers, here and above, as C hands them in.
pub fn data_object_messages(
    file: &[u8],
    table: &mut [u64],
    position: u64,
    offset_width: u64,
    length_width: u64,
    end_of_file: u64,
    limits: Limits,
) -> Result<(Progress, State), Stopped>
    requires { Lends limits table.old }
    ensures table_after { messages_out result table.new ≡ decode_on file.now offset_width length_width end_of_file position (limits_of limits) table.old }
    ensures state_read { IfOk result (λ r. StateRead offset_width length_width end_of_file r.1) }
{
    let made = State::new(offset_width, length_width, end_of_file);
    let state = with_entries(made, 0)?;
    if FILE_LIMIT < file.len() {
        return Err(Stopped {
            refusal: Refusal::FileSize,
            entries: 0,
        });
    }
    let progress = header_messages(file, table, position as usize, state, limits)?;
    Ok((progress, state))
}
