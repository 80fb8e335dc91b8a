// Many names in one go: for each of them the row that the single lookup finds.
#![tactic(auto)]

ghost use Rattle.std.specs.Prelude.{length};
ghost use Rattle.lookup_names.specs.Names.{NameAnswered, LookedNames};

use lookup::lookup;
use records::Refusal;
use row::rows_in;

// The most names of a set.
pub const MOST_NAMES: usize = 32;

// The answer of one name, which is a part of the text: its first row plus one, or 0 where no row has
// it or it leaves the text. The room after the position is tested, so that no sum can wrap.
fn lookup_name(
    file: &[u8],
    table: &[u64],
    rows: usize,
    text: &[u8],
    position: usize,
    size: usize,
) -> u64
    ensures { NameAnswered file.now table.now rows text.now (record { position = position; length = size }) result }
{
    if text.len() < position {
        return 0;
    }
    let room = text.len() - position;
    if room < size {
        return 0;
    }
    match lookup(file, table, rows, &text[position..position + size]) {
        Ok(Some(row)) => row as u64 + 1,
        Ok(None) => 0,
        Err(_) => 0,
    }
}

// The first of the `rows` rows of the table for each name of a set, in the names' order. The set has
// position and length in the text for each name; an odd last word is none. Too many names, or a row
// count that the table has no rows for, are refused, and then no name has an answer.
pub fn lookup_names(
    file: &[u8],
    table: &[u64],
    rows: usize,
    text: &[u8],
    names: &[u64],
    answers: &mut [u64],
) -> Result<(), Refusal>
    ensures { LookedNames file.now table.now rows text.now names.now (length answers.old) answers.new result }
{
    let count = names.len() / 2;
    answers.fill(0);
    if answers.len().min(MOST_NAMES) < count {
        return Err(Refusal::Names);
    }
    if rows_in(table) < rows {
        return Err(Refusal::Table);
    }
    for k in 0..count {
        let position = names[2 * k] as usize;
        let size = names[2 * k + 1] as usize;
        let answer = lookup_name(file, table, rows, text, position, size);
        answers[k] = answer;
    }
    Ok(())
}
