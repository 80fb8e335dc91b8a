// Checking an object header without a table: what it holds, or why it is refused. Whoever fills a
// table afterwards knows how many rows it needs.
#![tactic(auto)]

ghost use Rattle.data_object_check.specs.Checked.{Checked};

use data_object_messages::data_object_messages;
use ohdr_closing::Limits;
use records::Refusal;

// The next position, the entries read, and the rows that the messages take.
#[derive(Clone, Copy)]
pub struct HeaderFigures {
    pub next: usize,
    pub entries: usize,
    pub rows: usize,
}

// The object header at a position: walked as where a table is filled, and nothing is stored.
pub fn check_data_object(
    file: &[u8],
    position: u64,
    offset_width: u64,
    length_width: u64,
    end_of_file: u64,
) -> Result<HeaderFigures, Refusal>
    ensures { Checked file.now offset_width length_width end_of_file position result }
{
    let limits = Limits {
        entries: 4096,
        beyond: Refusal::Entries,
        rows: None,
    };
    let read = data_object_messages(
        file,
        &mut [],
        position,
        offset_width,
        length_width,
        end_of_file,
        limits,
    );
    match read {
        Err(stopped) => Err(stopped.refusal),
        Ok((progress, _)) => Ok(HeaderFigures {
            next: progress.at,
            entries: progress.entries,
            rows: progress.rows,
        }),
    }
}
