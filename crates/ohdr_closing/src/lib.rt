// What a walk at a header's entries is limited by and how far it has come, the row that a message
// takes, and what closes a block and a header.
#![tactic(auto)]

ghost use Rattle.std.specs.Prelude.{◌≡◌, List, ℕ, ◌+◌, ◌≤◌, ◌<◌};
ghost use Rattle.helpers.specs.Answers.{place_out};
ghost use Rattle.format.specs.Format.{read};
ghost use Rattle.grammar.specs.Grammar.{block_end, header_end};
ghost use Rattle.lookup3.specs.Lookup3.{sum_matches};
ghost use Rattle.ohdr_closing.specs.Answers.{Lends, with_entries, row_taken, block_closed, walk_out};

use helpers::take;
use lookup3::checksum_matches;
use records::Refusal;
use row::{Row, put_row};

// How many entries are allowed and what refuses the next, and how many rows there are: a message
// beyond them is refused. Where there is no table messages are counted alone. The table stands beside
// them and not within, since it is lent on to the blocks that entries open; `Lends` ties the two.
#[derive(Clone, Copy)]
pub struct Limits {
    pub entries: usize,
    pub beyond: Refusal,
    pub rows: Option<usize>,
}

// How far a walk has come: the next position, the rows taken, the entries begun.
#[derive(Clone, Copy)]
pub struct Progress {
    pub at: usize,
    pub rows: usize,
    pub entries: usize,
}

// What refused a walk, and the entries begun by then.
#[derive(Clone, Copy)]
pub struct Stopped {
    pub refusal: Refusal,
    pub entries: usize,
}

// A refusal, with the entries begun by then.
pub fn with_entries<T>(read: Result<T, Refusal>, entries: usize) -> Result<T, Stopped>
    ensures { result ≡ with_entries entries read }
{
    read.map_err(|refusal| Stopped { refusal, entries })
}

// A message's words go into the next row, or it is counted alone, and the walk goes on at `next`.
pub fn take_row(
    table: &mut [u64],
    limits: Limits,
    from: Progress,
    row: Row,
    next: usize,
) -> Result<Progress, Stopped>
    requires { Lends limits table.old × (from.rows ≤ from.entries) × (from.entries < limits.entries) }
    ensures { walk_out result table.new ≡ row_taken limits from row next table.old }
{
    let entries = from.entries + 1;
    let taken = Progress {
        at: next,
        rows: from.rows + 1,
        entries,
    };
    match limits.rows {
        None => Ok(taken),
        Some(rows) if from.rows < rows => {
            put_row(table, from.rows, row);
            Ok(taken)
        }
        Some(_) => Err(Stopped {
            refusal: Refusal::Table,
            entries,
        }),
    }
}

// The bytes up to a block's end, where it is not yet reached, and the block's checksum.
fn block_end(file: &[u8], from: usize, whole: usize, at: usize) -> Result<usize, Refusal>
    requires { from + 4 ≤ whole }
    ensures { place_out result ≡ read file.now (block_end (sum_matches file.now) from whole at) at }
{
    let next = take(file, at, whole.saturating_sub(at))?;
    if !checksum_matches(file, from, whole - 4) {
        return Err(Refusal::Checksum);
    }
    Ok(next)
}

// What closes a block whose entries were walked up to `last`; reading resumes after its entry.
pub fn close_block(
    file: &[u8],
    from: usize,
    whole: usize,
    last: Progress,
    next: usize,
) -> Result<Progress, Stopped>
    requires { from + 4 ≤ whole }
    ensures { (t : List ℕ) → walk_out result t ≡ block_closed file.now from whole last next t }
{
    with_entries(block_end(file, from, whole, last.at), last.entries)?;
    Ok(Progress { at: next, ..last })
}

// The bytes up to a header's end, where it is not yet reached, and the header's checksum.
pub fn header_end(file: &[u8], from: usize, end: usize, at: usize) -> Result<usize, Refusal>
    requires { from ≤ end }
    ensures { place_out result ≡ read file.now (header_end (sum_matches file.now) from end at) at }
{
    let reached = take(file, at, end.saturating_sub(at))?;
    let next = take(file, reached, 4)?;
    if !checksum_matches(file, from, end) {
        return Err(Refusal::Checksum);
    }
    Ok(next)
}
