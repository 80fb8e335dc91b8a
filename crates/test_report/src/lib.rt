// The report of a decoded header, or the numbers of its rows, compared piece after piece with the
// bytes that are expected.
#![tactic(auto)]

ghost use Rattle.std.specs.Prelude.{◌/◌, ◌≤◌, ◌<◌, length, get_or};
ghost use Rattle.std.specs.List.{FoldsTo};
ghost use Rattle.row.specs.Rows.{row_words, first_rows};
ghost use Rattle.text.specs.Text.{field};
ghost use Rattle.test_report.specs.Follows.{Follows, Whole, start};
ghost use Rattle.test_report.specs.Report.{piece_of, head_of, row_line, lines_of, row_lines, data_of, words_line, records_of, refused_of, report_of, number_line, numbers_of};

use data_object::layout_data;
use records::Part;
use row::{Row, row_at};

// In all of these the answer is the position up to which the expected bytes are met, or none where
// they differ before it; `from` is the answer of what came before.

// The bytes stand next.
pub fn expect_bytes(expected: &[u8], from: Option<usize>, bytes: &[u8]) -> Option<usize>
    ensures { Follows expected.now from result bytes.now }
{
    let at = from?;
    if bytes.is_empty() {
        return Some(at);
    }
    let rest = expected.get(at..)?;
    if rest.starts_with(bytes) {
        Some(at + bytes.len())
    } else {
        None
    }
}

// A figure, or a hyphen where there is none, stands next, and then the byte that ends it.
pub fn expect_field(
    expected: &[u8],
    from: Option<usize>,
    figure: Option<u64>,
    end: u8,
) -> Option<usize>
    ensures { Follows expected.now from result (field figure end) }
{
    let mut out = [0u8; 21];
    let k = text::put_field(&mut out, 0, figure, end);
    expect_bytes(expected, from, &out[..k])
}

// Whether a text that was met from the start on is all that is expected.
pub fn ends(expected: &[u8], reached: Option<usize>) -> bool
    ensures { Whole expected.now reached result }
{
    match reached {
        Some(at) => expected.len() <= at,
        None => false,
    }
}

// The length of a part and its bytes, or a hyphen.
fn expect_piece(
    expected: &[u8],
    from: Option<usize>,
    file: &[u8],
    part: Option<Part>,
) -> Option<usize>
    ensures { Follows expected.now from result (piece_of file.now part) }
{
    match part {
        None => expect_field(expected, from, None, b','),
        Some(p) => {
            let met = expect_field(expected, from, Some(p.length as u64), b',');
            let bytes = layout_data(file, p);
            expect_bytes(expected, met, bytes)
        }
    }
}

fn expect_head(expected: &[u8], from: Option<usize>, row: Row) -> Option<usize>
    ensures { Follows expected.now from result (head_of row) }
{
    let met = expect_field(expected, from, Some(row.kind), b',');
    let met = expect_field(expected, met, Some(row.flags), b',');
    let met = expect_field(expected, met, Some(row.size), b',');
    expect_field(expected, met, Some(row.body as u64), b',')
}

fn expect_row(expected: &[u8], from: Option<usize>, file: &[u8], row: Row) -> Option<usize>
    ensures { Follows expected.now from result (row_line file.now row) }
{
    let met = expect_head(expected, from, row);
    let met = expect_piece(expected, met, file, row.name);
    let met = expect_bytes(expected, met, b",");
    let met = expect_piece(expected, met, file, row.part);
    expect_bytes(expected, met, b"\n")
}

// The rows of a table stand next, each as `expect` meets it.
fn expect_each<F: Fn(Option<usize>, Row) -> Option<usize>>(
    from: Option<usize>,
    table: &[u64],
    rows: usize,
    expect: F,
) -> Option<usize>
    requires counted { rows ≤ length table.now / row_words }
    requires callable { F.IsAlwaysCallable expect }
    ensures { FoldsTo (F.post expect) from (first_rows table.now rows) result }
{
    let mut met = from;
    for i in 0..rows {
        met = expect(met, row_at(table, i));
    }
    met
}

fn expect_rows(
    expected: &[u8],
    from: Option<usize>,
    file: &[u8],
    table: &[u64],
    rows: usize,
) -> Option<usize>
    requires { rows ≤ length table.now / row_words }
    ensures { Follows expected.now from result (row_lines file.now (first_rows table.now rows)) }
{
    expect_each(
        from,
        table,
        rows,
        |met, row| expect_row(expected, met, file, row),
    )
}

fn expect_data(expected: &[u8], from: Option<usize>, file: &[u8], part: Part) -> Option<usize>
    ensures { Follows expected.now from result (data_of file.now part) }
{
    let met = expect_bytes(expected, from, b"data,");
    let met = expect_piece(expected, met, file, Some(part));
    expect_bytes(expected, met, b"\n")
}

// The words from one place to another, the last among them, as the rest of a line.
fn expect_words(
    expected: &[u8],
    from: Option<usize>,
    words: &[u64; 65],
    first: usize,
    last: usize,
) -> Option<usize>
    requires { (first ≤ last) × (last < 65) }
    ensures { Follows expected.now from result (words_line words.now first last) }
{
    let mut met = from;
    for i in first..last {
        met = expect_field(expected, met, Some(words[i]), b',');
    }
    expect_field(expected, met, Some(words[last]), b'\n')
}

// A line for each record; a layout's data stand elsewhere.
fn expect_records(expected: &[u8], from: Option<usize>, words: &[u64; 65]) -> Option<usize>
    ensures { Follows expected.now from result (records_of words.now) }
{
    let met = expect_bytes(expected, from, b"dataspace,");
    let met = expect_words(expected, met, words, 4, 19);
    let met = expect_bytes(expected, met, b"datatype,");
    let met = expect_words(expected, met, words, 20, 32);
    let met = expect_bytes(expected, met, b"link_info,");
    let met = expect_words(expected, met, words, 33, 42);
    let met = expect_bytes(expected, met, b"group_info,");
    let met = expect_words(expected, met, words, 43, 51);
    let met = expect_bytes(expected, met, b"attribute_info,");
    let met = expect_words(expected, met, words, 52, 59);
    let met = expect_bytes(expected, met, b"layout,");
    expect_words(expected, met, words, 60, 62)
}

fn expect_refused(expected: &[u8]) -> Option<usize>
    ensures { Follows expected.now start result refused_of }
{
    expect_bytes(expected, Some(0), b"refused\n")
}

// How far the report of a header, given as its words and its table, stands at the start of what is
// expected.
pub fn expect_report(
    expected: &[u8],
    file: &[u8],
    table: &[u64],
    words: &[u64; 65],
) -> Option<usize>
    requires { get_or words.now 3 0 ≤ length table.now / row_words }
    ensures { Follows expected.now start result (report_of file.now table.now words.now) }
{
    if words[0] != 0 {
        return expect_refused(expected);
    }
    let part = Part {
        position: words[63] as usize,
        length: words[64] as usize,
    };
    let met = expect_bytes(expected, Some(0), b"read,");
    let met = expect_words(expected, met, words, 1, 3);
    let met = expect_rows(expected, met, file, table, words[3] as usize);
    let met = expect_records(expected, met, words);
    expect_data(expected, met, file, part)
}

// Which number a row has, and its bits.
fn expect_number(expected: &[u8], from: Option<usize>, row: Row) -> Option<usize>
    ensures { Follows expected.now from result (number_line row) }
{
    let met = expect_field(expected, from, Some(row.number_case), b',');
    expect_field(expected, met, Some(row.number_bits), b'\n')
}

fn expect_row_numbers(
    expected: &[u8],
    from: Option<usize>,
    table: &[u64],
    rows: usize,
) -> Option<usize>
    requires { rows ≤ length table.now / row_words }
    ensures { Follows expected.now from result (lines_of number_line (first_rows table.now rows)) }
{
    expect_each(
        from,
        table,
        rows,
        |met, row| expect_number(expected, met, row),
    )
}

// How far the numbers of a header's rows stand at the start of what is expected.
pub fn expect_numbers(expected: &[u8], table: &[u64], words: &[u64; 65]) -> Option<usize>
    requires { get_or words.now 3 0 ≤ length table.now / row_words }
    ensures { Follows expected.now start result (numbers_of table.now words.now) }
{
    if words[0] != 0 {
        return expect_refused(expected);
    }
    expect_row_numbers(expected, Some(0), table, words[3] as usize)
}
