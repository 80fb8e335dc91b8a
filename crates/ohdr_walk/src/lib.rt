// Entries and the blocks that continuations open (ohdr_message.rs, message_entry, message_continue
// and collect_all_messages), with the rows of a lent table.
#![tactic(auto)]

ghost use Rattle.std.specs.Prelude.{◌≡◌, ◌≤◌, length};
ghost use Rattle.parser.specs.States.{Widths};
ghost use Rattle.ohdr_closing.specs.Answers.{Lends, walked_of, walk_out};
ghost use Rattle.ohdr_entry.specs.Entries.{prefix_size};
ghost use Rattle.ohdr_walk.specs.Code.{entry_of, run_of, walk_of};

use helpers::signature;
use ohdr_closing::{Limits, Progress, Stopped, close_block, header_end, take_row, with_entries};
use ohdr_entry::{Entry, entry_alone};
use parser::State;
use records::Refusal;

// What does not change while a header is walked: the state of the file, and the header's flags.
#[derive(Clone, Copy)]
pub struct Header {
    pub state: State,
    pub flags: u8,
}

// The bytes of an entry before its body.
pub fn message_prefix_size(flags: u8) -> usize
    ensures { result ≡ prefix_size flags }
{
    if flags & 4 != 0 { 6 } else { 4 }
}

// An entry, and where it is a continuation the block that it opens. `levels` more levels of blocks
// are allowed.
#[cycle(blocks)]
fn message_entry(
    file: &[u8],
    table: &mut [u64],
    header: Header,
    limits: Limits,
    from: Progress,
    levels: usize,
) -> Result<Progress, Stopped>
    requires { Widths header.state × (levels ≤ 25) × (from.rows ≤ from.entries) × Lends limits table.old }
    ensures { walk_out result table.new ≡ entry_of file.now header limits levels from.at (walked_of from table.old) }
{
    if limits.entries <= from.entries {
        return with_entries(Err(limits.beyond), from.entries);
    }
    let begun = from.entries + 1;
    match entry_alone(file, from.at, header.flags, header.state) {
        Err(refusal) => with_entries(Err(refusal), begun),
        Ok((Entry::Message(row), next)) => take_row(table, limits, from, row, next),
        Ok((Entry::Continuation(block), next)) => {
            if levels == 0 {
                return with_entries(Err(Refusal::BlockLevel), begun);
            }
            let offset = block.offset as usize;
            let whole = offset + block.length as usize;
            let mark = signature(file, offset, 0x4B48434F, Refusal::ContinuationSignature);
            let first = Progress {
                at: with_entries(mark, begun)?,
                rows: from.rows,
                entries: begun,
            };
            let last = message_block(file, table, header, limits, first, whole - 4, levels - 1)?;
            close_block(file, offset, whole, last, next)
        }
    }
}

// Entries from a position on, while position plus prefix is at most the end: a header's own, or a
// block's.
#[cycle(blocks)]
fn message_block(
    file: &[u8],
    table: &mut [u64],
    header: Header,
    limits: Limits,
    from: Progress,
    end: usize,
    levels: usize,
) -> Result<Progress, Stopped>
    requires { Widths header.state × (levels ≤ 25) × (from.rows ≤ from.entries) × Lends limits table.old × (from.entries ≤ limits.entries) × (from.at ≤ length file.now) }
    ensures { walk_out result table.new ≡ run_of file.now header limits levels end from.at (walked_of from table.old) }
{
    let prefix = message_prefix_size(header.flags);
    // how many entries there are shows only as they are read
    let mut progress = from;
    while progress.at + prefix <= end {
        progress = message_entry(file, table, header, limits, progress, levels)?;
    }
    Ok(progress)
}

// The entries of a header at `from`, from `at` on within its chunk's end, and what closes it. Of a
// refusal the table is no part: its words are left free, and rows of messages before it may stand
// there. Whoever hands the table on clears it.
pub fn collect_all_messages(
    file: &[u8],
    table: &mut [u64],
    header: Header,
    limits: Limits,
    from: usize,
    at: usize,
    end: usize,
) -> Result<Progress, Stopped>
    requires { Widths header.state × Lends limits table.old × (at ≤ length file.now) × (from ≤ end) }
    ensures { walk_out result table.new ≡ walk_of file.now header limits from end at table.old }
{
    let first = Progress {
        at,
        rows: 0,
        entries: 0,
    };
    let last = message_block(file, table, header, limits, first, end, 25)?;
    let next = with_entries(header_end(file, from, end, last.at), last.entries)?;
    Ok(Progress { at: next, ..last })
}
