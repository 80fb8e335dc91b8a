// A row of the lent table: its words, writing one, and reading one. How many words a row has is
// known here alone.
#![tactic(auto)]

ghost use Rattle.std.specs.Prelude.{◌≡◌, ◌++◌, ◌+◌, ◌-◌, ◌*◌, ◌/◌, ◌≤◌, ◌<◌, length, take, replicate};
ghost use Rattle.std.proofs.lemmas.List.Edits.{sets};
ghost use Rattle.row.specs.Rows.{row_words, part_words, part_at, row_at, put_row};

use records::Part;

// The words of a row.
pub const ROW_WORDS: usize = 12;

// A message's type, flags and size, the position of its body, its name and its part, where it has
// them, and which number it has, and the number's bits. Type and number are no enums, since they are
// words of the table, where any word may stand, and C reads them.
#[derive(Clone, Copy)]
pub struct Row {
    pub kind: u64,
    pub flags: u64,
    pub size: u64,
    pub body: usize,
    pub name: Option<Part>,
    pub part: Option<Part>,
    pub number_case: u64,
    pub number_bits: u64,
}

// The whole rows of a table.
pub fn rows_in(table: &[u64]) -> usize
    ensures { result ≡ length table.now / row_words }
{
    table.len() / ROW_WORDS
}

// A part in three words of the table.
fn put_part(table: &mut [u64], at: usize, part: Option<Part>)
    requires { at + 3 ≤ length table.old }
    ensures { table.new ≡ sets table.old at (part_words part) }
{
    match part {
        None => {
            table[at] = 0;
            table[at + 1] = 0;
            table[at + 2] = 0;
        }
        Some(p) => {
            table[at] = 1;
            table[at + 1] = p.position as u64;
            table[at + 2] = p.length as u64;
        }
    }
}

// Row i of the table, written.
pub fn put_row(table: &mut [u64], i: usize, row: Row)
    requires { i < length table.old / row_words }
    ensures { table.new ≡ put_row table.old i row }
{
    let first = i * ROW_WORDS;
    table[first] = row.kind;
    table[first + 1] = row.flags;
    table[first + 2] = row.size;
    table[first + 3] = row.body as u64;
    put_part(table, first + 4, row.name);
    put_part(table, first + 7, row.part);
    table[first + 10] = row.number_case;
    table[first + 11] = row.number_bits;
}

// A part in three words of the table, read: there is one where its first word is 1.
fn part_at(table: &[u64], at: usize) -> Option<Part>
    requires { at + 3 ≤ length table.now }
    ensures { result ≡ part_at table.now at }
{
    if table[at] != 1 {
        return None;
    }
    Some(Part {
        position: table[at + 1] as usize,
        length: table[at + 2] as usize,
    })
}

// Row i of the table, read.
pub fn row_at(table: &[u64], i: usize) -> Row
    requires { i < length table.now / row_words }
    ensures { result ≡ row_at table.now i }
{
    let first = i * ROW_WORDS;
    let name = part_at(table, first + 4);
    let part = part_at(table, first + 7);
    Row {
        kind: table[first],
        flags: table[first + 1],
        size: table[first + 2],
        body: table[first + 3] as usize,
        name,
        part,
        number_case: table[first + 10],
        number_bits: table[first + 11],
    }
}

// The type of row i alone, for a pass over many rows.
pub fn kind_at(table: &[u64], i: usize) -> u64
    requires { i < length table.now / row_words }
    ensures { result ≡ (row_at table.now i).kind }
{
    table[i * ROW_WORDS]
}

// Every word behind the first `rows` rows zero.
pub fn clear_behind(table: &mut [u64], rows: usize)
    requires { rows * row_words ≤ length table.old }
    ensures { table.new ≡ take (rows * row_words) table.old ++ replicate (length table.old - rows * row_words) 0 }
{
    table[rows * ROW_WORDS..].fill(0);
}
