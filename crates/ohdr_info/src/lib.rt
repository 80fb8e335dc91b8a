// The messages that describe an object's links and attributes: link info, group info, attribute info
// (ohdr_message.rs).
#![tactic(auto)]

ghost use Rattle.std.specs.Prelude.{◌≡◌, IsTrue, IsFalse};
ghost use Rattle.helpers.specs.Answers.{out};
ghost use Rattle.format.specs.Format.{read};
ghost use Rattle.parser.specs.States.{Widths};
ghost use Rattle.ohdr_info.specs.Info.{link_info, group_info, attribute_info};

use helpers::{Parsed, address, le_u8, le_u16, le_u64};
use parser::State;
use records::{Address, AttributeInfo, GroupInfo, LinkInfo, Refusal};

// What counts for an address that is not there.
const ABSENT: Address = Address::Number(0);

// A field where it is present, and else what counts for it; nothing is read then.
fn cond<T: Drop, F: FnOnce() -> Parsed<T>>(
    at: usize,
    present: bool,
    absent: T,
    read: F,
) -> Parsed<T>
    requires { IsTrue present → F.pre read }
    ensures given { IsTrue present → F.post read result }
    ensures none { IsFalse present → result ≡ Ok (absent, at) }
{
    if present { read() } else { Ok((absent, at)) }
}

pub fn message_link_info(file: &[u8], at: usize, state: State) -> Parsed<LinkInfo>
    requires { Widths state }
    ensures { out result ≡ read file.now (link_info state) at }
{
    let width = state.size_of_offsets;
    let (version, flags_at) = le_u8(file, at)?;
    if version != 0 {
        return Err(Refusal::LinkInfo);
    }
    let (flags, index_at) = le_u8(file, flags_at)?;
    let tracked = flags & 1 != 0;
    let indexed = flags & 2 != 0;
    let (index, heap_at) = cond(index_at, tracked, 0, || le_u64(file, index_at))?;
    let (heap, names_at) = address(file, heap_at, width)?;
    let (names, order_at) = address(file, names_at, width)?;
    let (order, next) = cond(order_at, indexed, ABSENT, || address(file, order_at, width))?;
    Ok((
        LinkInfo {
            flags,
            maximum_creation_index: tracked.then_some(index),
            fractal_heap_address: heap,
            address_btree_index: names,
            address_btree_order: indexed.then_some(order),
        },
        next,
    ))
}

pub fn message_group_info(file: &[u8], at: usize) -> Parsed<GroupInfo>
    ensures { out result ≡ read file.now group_info at }
{
    let (version, flags_at) = le_u8(file, at)?;
    if version != 0 {
        return Err(Refusal::GroupInfo);
    }
    let (flags, compact_at) = le_u8(file, flags_at)?;
    let phase = flags & 1 != 0;
    let estimated = flags & 2 != 0;
    let (compact, dense_at) = cond(compact_at, phase, 0, || le_u16(file, compact_at))?;
    let (dense, entries_at) = cond(dense_at, phase, 0, || le_u16(file, dense_at))?;
    let (entries, length_at) = cond(entries_at, estimated, 0, || le_u16(file, entries_at))?;
    let (length, next) = cond(length_at, estimated, 0, || le_u16(file, length_at))?;
    Ok((
        GroupInfo {
            flags,
            maximum_compact_value: phase.then_some(compact),
            minimum_dense_value: phase.then_some(dense),
            number_of_entries: estimated.then_some(entries),
            length_of_entries: estimated.then_some(length),
        },
        next,
    ))
}

pub fn message_attribute_info(file: &[u8], at: usize, state: State) -> Parsed<AttributeInfo>
    requires { Widths state }
    ensures { out result ≡ read file.now (attribute_info state) at }
{
    let width = state.size_of_offsets;
    let (version, flags_at) = le_u8(file, at)?;
    if version != 0 {
        return Err(Refusal::AttributeInfo);
    }
    let (flags, index_at) = le_u8(file, flags_at)?;
    let tracked = flags & 1 != 0;
    let indexed = flags & 2 != 0;
    let (index, heap_at) = cond(index_at, tracked, 0, || le_u16(file, index_at))?;
    let (heap, names_at) = address(file, heap_at, width)?;
    let (names, order_at) = address(file, names_at, width)?;
    let (order, next) = cond(order_at, indexed, ABSENT, || address(file, order_at, width))?;
    Ok((
        AttributeInfo {
            flags,
            maximum_creation_index: index as u64,
            fractal_heap_address: heap,
            attribute_name_btree: names,
            attribute_creation_order_btree: order,
        },
        next,
    ))
}
