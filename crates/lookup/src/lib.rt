// The first attribute of a table whose name is the wanted one.
#![tactic(auto)]

ghost use Rattle.std.specs.Prelude.{◌<◌, ◌/◌, length};
ghost use Rattle.row.specs.Rows.{row_words, row_at};
ghost use Rattle.lookup.specs.Lookup.{NameAt, Looked};

use records::Refusal;
use row::{row_at, rows_in};

// The type of an attribute.
const ATTRIBUTE: u64 = 12;

// Where the name of row i stands, if the row is an attribute and its name has `wanted` bytes, all
// of them in the file. The room after the position is tested, so that no sum can wrap.
fn row_name(file: &[u8], table: &[u64], i: usize, wanted: usize) -> Option<usize>
    requires { i < length table.now / row_words }
    ensures { NameAt file.now (row_at table.now i) wanted result }
{
    let row = row_at(table, i);
    if row.kind != ATTRIBUTE {
        return None;
    }
    let part = row.name?;
    if part.length != wanted {
        return None;
    }
    if file.len() < part.position {
        return None;
    }
    if file.len() - part.position < wanted {
        return None;
    }
    Some(part.position)
}

// The first of the `rows` rows of the table whose name in the file is `name`, or a row count that
// the table has no rows for.
pub fn lookup(
    file: &[u8],
    table: &[u64],
    rows: usize,
    name: &[u8],
) -> Result<Option<usize>, Refusal>
    ensures { Looked file.now table.now rows name.now result }
{
    if rows_in(table) < rows {
        return Err(Refusal::Table);
    }
    // rows outside, name bytes inside, and a label that is left at the first mismatch or match: the
    // scope asks for this form
    let mut found = None;
    'rows: for row in 0..rows {
        let Some(position) = row_name(file, table, row, name.len()) else {
            continue 'rows;
        };
        for k in 0..name.len() {
            if file[position + k] != name[k] {
                continue 'rows;
            }
        }
        found = Some(row);
        break 'rows;
    }
    Ok(found)
}
