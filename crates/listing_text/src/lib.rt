// The listing: from a file, or a header in it, to the text that is written.
#![tactic(auto)]

ghost use Rattle.std.specs.Prelude.{◌≡◌, ◌+◌, ◌*◌, ◌/◌, ◌≤◌, length, get_or, take, drop};
ghost use Rattle.row.specs.Rows.{row_words, first_rows};
ghost use Rattle.text.specs.Text.{Wrote};
ghost use Rattle.grammar.specs.Walk.{lent};
ghost use Rattle.data_object_header.specs.Headers.{decode};
ghost use Rattle.listing_text.specs.Listing.{head_of, place_of, line_of, lines_of, end_of, refused_of, result_of, words_text, header_text, listing_of, Counts};

use data_object_check::check_data_object;
use data_object_words::header_words;
use records::Part;
use row::{ROW_WORDS, Row, row_at};
use super_block::super_block;

fn put_head(out: &mut [u8], at: usize, i: usize, row: Row) -> usize
    requires { at + 105 ≤ length out.old }
    ensures wrote { Wrote out.old at out.new result (head_of i row) }
    ensures upper_bound { result ≤ at + 105 }
{
    let at = text::put_field(out, at, Some(i as u64), b',');
    let at = text::put_field(out, at, Some(row.kind), b',');
    let at = text::put_field(out, at, Some(row.flags), b',');
    let at = text::put_field(out, at, Some(row.size), b',');
    text::put_field(out, at, Some(row.body as u64), b',')
}

// The position and the length of a part, or two hyphens.
fn put_part(out: &mut [u8], at: usize, part: Option<Part>, end: u8) -> usize
    requires { at + 42 ≤ length out.old }
    ensures wrote { Wrote out.old at out.new result (place_of part end) }
    ensures upper_bound { result ≤ at + 42 }
{
    let at = text::put_field(out, at, part.map(|p| p.position as u64), b',');
    text::put_field(out, at, part.map(|p| p.length as u64), end)
}

fn put_line(out: &mut [u8], at: usize, i: usize, row: Row) -> usize
    requires { at + 189 ≤ length out.old }
    ensures wrote { Wrote out.old at out.new result (line_of i row) }
    ensures upper_bound { result ≤ at + 189 }
{
    let at = put_head(out, at, i, row);
    let at = put_part(out, at, row.name, b',');
    put_part(out, at, row.part, b'\n')
}

fn put_lines(out: &mut [u8], table: &[u64], rows: usize) -> usize
    requires { (rows ≤ length table.now / row_words) × (rows * 189 ≤ length out.old) }
    ensures wrote { Wrote out.old 0 out.new result (lines_of 0 (first_rows table.now rows)) }
    ensures upper_bound { result ≤ rows * 189 }
{
    let mut at = 0;
    for i in 0..rows {
        at = put_line(out, at, i, row_at(table, i));
    }
    at
}

fn put_end(out: &mut [u8], at: usize, next: u64, entries: u64) -> usize
    requires { at + 46 ≤ length out.old }
    ensures { Wrote out.old at out.new result (end_of next entries) }
{
    let at = text::put_text(out, at, b"end,");
    let at = text::put_field(out, at, Some(next), b',');
    text::put_field(out, at, Some(entries), b'\n')
}

// The line of a refusal, put at the start of out.
pub fn put_refused(out: &mut [u8], n: u64) -> usize
    requires { 29 ≤ length out.old }
    ensures { Wrote out.old 0 out.new result (refused_of n) }
{
    let at = text::put_text(out, 0, b"refused,");
    text::put_field(out, at, Some(n), b'\n')
}

// A header's words, with the rows of its table, as text.
fn put_result(out: &mut [u8], table: &[u64], words: &[u64; 65]) -> usize
    requires { (get_or words.now 3 0 ≤ length table.now / row_words) × (get_or words.now 3 0 * 189 + 46 ≤ length out.old) }
    ensures { Wrote out.old 0 out.new result (words_text words.now (first_rows table.now (get_or words.now 3 0))) }
{
    let refused = words[0];
    if refused != 0 {
        return put_refused(out, refused);
    }
    let at = put_lines(out, table, words[3] as usize);
    put_end(out, at, words[1], words[2])
}

// The rows of the header at a position, filled into a table, as text. A line has at most 189 bytes
// and the last at most 46, so out has room for 512 rows.
fn fill_header(
    file: &[u8],
    position: u64,
    offset_width: u64,
    length_width: u64,
    end_of_file: u64,
    out: &mut [u8; 98304],
) -> usize
    ensures { Wrote out.old 0 out.new result (result_of (decode file.now offset_width length_width end_of_file position (lent 512))) }
{
    let mut table = [0u64; 512 * ROW_WORDS];
    let mut words = [0u64; 65];
    header_words(
        file,
        position,
        offset_width,
        length_width,
        end_of_file,
        &mut table,
        &mut words,
    );
    put_result(out, &table, &words)
}

// The listing of the header at a position, put at the start of out; the answer is its length, and
// what stands behind it is left alone. It is checked first, so that what is wrong behind the 512th
// row has its own number.
pub fn list_header(
    file: &[u8],
    position: u64,
    offset_width: u64,
    length_width: u64,
    end_of_file: u64,
    out: &mut [u8; 98304],
) -> usize
    ensures counts { Counts result out.new }
    ensures out_after { take result out.new ≡ header_text file.now offset_width length_width end_of_file position }
    ensures out_unchanged { drop result out.new ≡ drop result out.old }
{
    match check_data_object(file, position, offset_width, length_width, end_of_file) {
        Err(refusal) => {
            let check = refusal.number();
            put_refused(out, check)
        }
        Ok(_) => fill_header(file, position, offset_width, length_width, end_of_file, out),
    }
}

// The listing of a plain file: that of its root's header, which its own superblock leads to.
pub fn list(file: &[u8], out: &mut [u8; 98304]) -> usize
    ensures counts { Counts result out.new }
    ensures out_after { take result out.new ≡ listing_of file.now }
    ensures out_unchanged { drop result out.new ≡ drop result out.old }
{
    if 65536 < file.len() {
        return put_refused(out, 2);
    }
    match super_block(file) {
        Err(refusal) => {
            let number = refusal.number();
            put_refused(out, number)
        }
        Ok((block, _)) => list_header(
            file,
            block.root_group_object_header_address,
            block.size_of_offsets as u64,
            block.size_of_lengths as u64,
            block.end_of_file_address,
            out,
        ),
    }
}

// The listing of what was read into a buffer that has one byte more than is taken, so that whoever
// fills it can tell a file that is too long from one that is not. A count above the buffer's length
// is that length.
pub fn list_input(input: &[u8; 65537], n: usize, out: &mut [u8; 98304]) -> usize
    ensures counts { Counts result out.new }
    ensures out_after { take result out.new ≡ listing_of (take n input.now) }
    ensures out_unchanged { drop result out.new ≡ drop result out.old }
{
    if input.len() < n {
        return list(input, out);
    }
    list(&input[..n], out)
}
