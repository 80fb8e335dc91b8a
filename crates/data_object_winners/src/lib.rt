// The records that win among the messages of a header (data_object.rs,
// build_data_object_from_messages).
#![tactic(auto)]

ghost use Rattle.std.specs.Prelude.{◌≡◌, ◌/◌, ◌≤◌, MatchResult, length};
ghost use Rattle.row.specs.Rows.{row_words};
ghost use Rattle.records.specs.Defaults.{default_data_space, default_link_info, default_group_info, default_attribute_info, default_data_type, default_data_layout};
ghost use Rattle.records.specs.Elements.{TrueSpace};
ghost use Rattle.parser.specs.States.{Widths};
ghost use Rattle.ohdr_info.specs.Info.{link_info, group_info, attribute_info};
ghost use Rattle.ohdr_layout.specs.DataLayouts.{data_layout};
ghost use Rattle.ohdr_datatype.specs.DataTypes.{data_type};
ghost use Rattle.ohdr_dataspace.specs.DataSpaces.{data_space};
ghost use Rattle.data_object_winners.specs.Winners.{last_rows, body_of, winner};

use helpers::Parsed;
use ohdr_dataspace::message_data_space;
use ohdr_datatype::message_data_type;
use ohdr_info::{message_attribute_info, message_group_info, message_link_info};
use ohdr_layout::message_data_layout;
use parser::State;
use records::{AttributeInfo, DataLayout, DataSpace, DataType, GroupInfo, LinkInfo};
use row::{kind_at, row_at};

// For each type below 22 the last of the first `rows` rows with it, counted from 1. One pass over
// the rows serves all the records that win.
pub fn last_rows(table: &[u64], rows: usize, last: &mut [usize])
    requires { (rows ≤ length table.now / row_words) × (22 ≤ length last.old) }
    ensures { last.new ≡ last_rows last.old table.now rows }
{
    for row in 0..rows {
        let kind = kind_at(table, row) as usize;
        if kind < 22 {
            last[kind] = row + 1;
        }
    }
}

// Where the row with this number, counted from 1, has its body.
fn last_body(table: &[u64], row: usize) -> Option<usize>
    requires { row ≤ length table.now / row_words }
    ensures { result ≡ body_of table.now row }
{
    if row == 0 {
        return None;
    }
    Some(row_at(table, row - 1).body)
}

// What was read, or the default where it is refused.
fn value_or_default<T: Default + Drop>(parsed: Parsed<T>) -> T
    ensures { MatchResult parsed (λ p. result ≡ p.0) (λ _. T.is_default result) }
{
    match parsed {
        Ok((value, _)) => value,
        Err(_) => T::default(),
    }
}

// The dataspace that wins: the one in the body of the last row of its type, or the default. So it is
// with the other records that win. The reader is no parameter of one function for all, whose contract
// would have to say of a closure what each of these says of a format.
pub fn winning_data_space(file: &[u8], table: &[u64], row: usize, state: State) -> DataSpace
    requires { Widths state × (row ≤ length table.now / row_words) }
    ensures value { result ≡ winner file.now (data_space state) default_data_space (body_of table.now row) }
    ensures true_space { TrueSpace result }
{
    let Some(body) = last_body(table, row) else {
        return DataSpace::default();
    };
    value_or_default(message_data_space(file, body, state))
}

pub fn winning_data_type(file: &[u8], table: &[u64], row: usize) -> DataType
    requires { row ≤ length table.now / row_words }
    ensures { result ≡ winner file.now (data_type 32) default_data_type (body_of table.now row) }
{
    let Some(body) = last_body(table, row) else {
        return DataType::default();
    };
    value_or_default(message_data_type(file, body, 32))
}

pub fn winning_link_info(file: &[u8], table: &[u64], row: usize, state: State) -> LinkInfo
    requires { Widths state × (row ≤ length table.now / row_words) }
    ensures { result ≡ winner file.now (link_info state) default_link_info (body_of table.now row) }
{
    let Some(body) = last_body(table, row) else {
        return LinkInfo::default();
    };
    value_or_default(message_link_info(file, body, state))
}

pub fn winning_group_info(file: &[u8], table: &[u64], row: usize) -> GroupInfo
    requires { row ≤ length table.now / row_words }
    ensures { result ≡ winner file.now group_info default_group_info (body_of table.now row) }
{
    let Some(body) = last_body(table, row) else {
        return GroupInfo::default();
    };
    value_or_default(message_group_info(file, body))
}

pub fn winning_attribute_info(file: &[u8], table: &[u64], row: usize, state: State) -> AttributeInfo
    requires { Widths state × (row ≤ length table.now / row_words) }
    ensures { result ≡ winner file.now (attribute_info state) default_attribute_info (body_of table.now row) }
{
    let Some(body) = last_body(table, row) else {
        return AttributeInfo::default();
    };
    value_or_default(message_attribute_info(file, body, state))
}

pub fn winning_data_layout(file: &[u8], table: &[u64], row: usize, state: State) -> DataLayout
    requires { Widths state × (row ≤ length table.now / row_words) }
    ensures { result ≡ winner file.now (data_layout state) default_data_layout (body_of table.now row) }
{
    let Some(body) = last_body(table, row) else {
        return DataLayout::default();
    };
    value_or_default(message_data_layout(file, body, state))
}
