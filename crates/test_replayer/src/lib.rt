// Whether a case passes: its input has the listing, with the line of its check where it is a header,
// the report or the numbers of its header, or the sum, that is expected.
#![tactic(auto)]

ghost use Rattle.std.specs.Prelude.{◌≡◌, ◌/◌, ◌≤◌, length, get_or};
ghost use Rattle.format.specs.Format.{read};
ghost use Rattle.row.specs.Rows.{row_words};
ghost use Rattle.text.specs.Text.{Wrote};
ghost use Rattle.helpers.specs.Answers.{out};
ghost use Rattle.data_object_check.specs.Checked.{check_out};
ghost use Rattle.test_report.specs.Follows.{Follows, start};
ghost use Rattle.test_replayer.specs.Checks.{passed_line, check_line, Checks};
ghost use Rattle.test_replayer.specs.Leads.{lead as lead_format};
ghost use Rattle.test_replayer.specs.Passes.{Lists, ListsHeader, HeaderSays, Sums, Says};
ghost use Rattle.test_replayer.specs.Replays.{Replays, text_of};

use data_object_check::{HeaderFigures, check_data_object};
use data_object_words::header_words;
use helpers::{Parsed, bytes_4, le_u8, le_u64};
use listing_text::{list, list_header, put_refused};
use lookup3::lookup3;
use records::Refusal;
use row::ROW_WORDS;
use test_report::{ends, expect_numbers, expect_report};

// What is expected of an input: the listing of a plain file; of a header in a file behind the
// values that are given by hand, its listing with the line of its check, its report, or its
// numbers; or the sum of its bytes.
#[derive(Clone, Copy)]
pub enum Against {
    Listing,
    HeaderListing,
    Report,
    Numbers,
    Sum,
}

// The texts of a decoded header.
#[derive(Clone, Copy)]
pub enum DecodedText {
    Report,
    Numbers,
}

// The texts of a header.
#[derive(Clone, Copy)]
pub enum HeaderText {
    Listing,
    Decoded(DecodedText),
}

// What is given by hand, before the file: the widths of offsets and lengths, the end-of-file address
// and the position of the header.
#[derive(Drop)]
pub struct Lead {
    pub offsets: u8,
    pub lengths: u8,
    pub end_of_file: u64,
    pub position: u64,
}

fn read_lead(input: &[u8]) -> Parsed<Lead>
    ensures { out result ≡ read input.now lead_format 0 }
{
    let (offsets, at) = le_u8(input, 0)?;
    let (lengths, at) = le_u8(input, at)?;
    let (end_of_file, at) = le_u64(input, at)?;
    let (position, at) = le_u64(input, at)?;
    let lead = Lead {
        offsets,
        lengths,
        end_of_file,
        position,
    };
    Ok((lead, at))
}

// Whether a plain file has the listing that is expected.
fn lists(input: &[u8], expected: &[u8]) -> bool
    ensures { Lists input.now expected.now result }
{
    let mut out = [0u8; 98304];
    let n = list(input, &mut out);
    &out[..n] == expected
}

// What a check that passes tells: a word and the three figures.
fn put_passed(out: &mut [u8], figures: HeaderFigures) -> usize
    requires { 71 ≤ length out.old }
    ensures { Wrote out.old 0 out.new result (passed_line figures) }
{
    let at = text::put_text(out, 0, b"checked,");
    let at = text::put_field(out, at, Some(figures.next as u64), b',');
    let at = text::put_field(out, at, Some(figures.entries as u64), b',');
    text::put_field(out, at, Some(figures.rows as u64), b'\n')
}

// The line of a check, put at the start of out; the answer is its length.
fn put_checked(out: &mut [u8], answer: Result<HeaderFigures, Refusal>) -> usize
    requires { 71 ≤ length out.old }
    ensures { Wrote out.old 0 out.new result (check_line (check_out answer)) }
{
    match answer {
        Ok(figures) => put_passed(out, figures),
        Err(refusal) => {
            let number = refusal.number();
            put_refused(out, number)
        }
    }
}

// Whether the check of a header has the line that is expected.
fn checks(file: &[u8], lead: Lead, expected: &[u8]) -> bool
    ensures { Checks expected.now file.now lead result }
{
    let answer = check_data_object(
        file,
        lead.position,
        lead.offsets as u64,
        lead.lengths as u64,
        lead.end_of_file,
    );
    let mut line = [0u8; 71];
    let n = put_checked(&mut line, answer);
    &line[..n] == expected
}

// Whether the header of a file has the listing, and behind it the line of its check, that are
// expected.
fn lists_header(file: &[u8], lead: Lead, expected: &[u8]) -> bool
    ensures { ListsHeader expected.now file.now lead result }
{
    let mut out = [0u8; 98304];
    let n = list_header(
        file,
        lead.position,
        lead.offsets as u64,
        lead.lengths as u64,
        lead.end_of_file,
        &mut out,
    );
    match expected.strip_prefix(&out[..n]) {
        Some(rest) => checks(file, lead, rest),
        None => false,
    }
}

// How far the text of a decoded header stands at the start of what is expected.
fn expect_text(
    text: DecodedText,
    expected: &[u8],
    file: &[u8],
    table: &[u64],
    words: &[u64; 65],
) -> Option<usize>
    requires { get_or words.now 3 0 ≤ length table.now / row_words }
    ensures { Follows expected.now start result (text_of text file.now table.now words.now) }
{
    match text {
        DecodedText::Report => expect_report(expected, file, table, words),
        DecodedText::Numbers => expect_numbers(expected, table, words),
    }
}

// Whether the header of a file, decoded into a table of 64 rows, has the text that is expected.
fn replays(text: DecodedText, file: &[u8], lead: Lead, expected: &[u8]) -> bool
    ensures { Replays (text_of text file.now) expected.now file.now lead result }
{
    let mut table = [0u64; 64 * ROW_WORDS];
    let mut words = [0u64; 65];
    header_words(
        file,
        lead.position,
        lead.offsets as u64,
        lead.lengths as u64,
        lead.end_of_file,
        &mut table,
        &mut words,
    );
    let reached = expect_text(text, expected, file, &table, &words);
    ends(expected, reached)
}

// Whether the header behind the values given by hand has the text that is expected.
fn passes_header(text: HeaderText, input: &[u8], expected: &[u8]) -> bool
    ensures { HeaderSays text input.now expected.now result }
{
    let Ok((lead, start)) = read_lead(input) else {
        return false;
    };
    let file = &input[start..];
    match text {
        HeaderText::Listing => lists_header(file, lead, expected),
        HeaderText::Decoded(decoded) => replays(decoded, file, lead, expected),
    }
}

// Whether the sum of the input is the one that is expected, in four bytes.
fn sums(input: &[u8], expected: &[u8]) -> bool
    ensures { Sums input.now expected.now result }
{
    if expected.len() == 4 {
        return bytes_4(expected, 0) as u32 == lookup3(input);
    }
    false
}

pub fn passes(against: Against, input: &[u8], expected: &[u8]) -> bool
    ensures { Says against input.now expected.now result }
{
    match against {
        Against::Listing => lists(input, expected),
        Against::HeaderListing => passes_header(HeaderText::Listing, input, expected),
        Against::Report => passes_header(HeaderText::Decoded(DecodedText::Report), input, expected),
        Against::Numbers => passes_header(
            HeaderText::Decoded(DecodedText::Numbers),
            input,
            expected,
        ),
        Against::Sum => sums(input, expected),
    }
}
