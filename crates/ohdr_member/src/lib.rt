// A member of a compound datatype, before its type (ohdr_message.rs, message_data_type).
#![tactic(auto)]

ghost use Rattle.std.specs.Prelude.{◌≡◌};
ghost use Rattle.helpers.specs.Answers.{place_out};
ghost use Rattle.format.specs.Format.{read};
ghost use Rattle.ohdr_member.specs.Members.{member3, member1, member_fields};

use helpers::{le_u8, le_u32, take, take_till, to_multiple_of_8};
use records::Refusal;

// A member of a version 3 compound, before its type.
fn member_3(file: &[u8], at: usize, size: u32) -> Result<usize, Refusal>
    ensures { place_out result ≡ read file.now (member3 size) at }
{
    let (_, closing_at) = take_till(file, at, 4095)?;
    let offset_at = take(file, closing_at, 1)?;
    if 0 < size {
        let (_, next) = le_u8(file, offset_at)?;
        return Ok(next);
    }
    Ok(offset_at)
}

// A member of a version 1 compound, before its type.
fn member_1(file: &[u8], at: usize) -> Result<usize, Refusal>
    ensures { place_out result ≡ read file.now member1 at }
{
    let (length, closing_at) = take_till(file, at, 255)?;
    let padding_at = take(file, closing_at, 1)?;
    let offset_at = take(file, padding_at, to_multiple_of_8(length % 8 + 1))?;
    let (_, dimensionality_at) = le_u32(file, offset_at)?;
    let (dimensionality, unused_at) = le_u8(file, dimensionality_at)?;
    if dimensionality != 0 {
        return Err(Refusal::DataType);
    }
    take(file, unused_at, 27)
}

pub fn member_fields(file: &[u8], at: usize, version: u8, size: u32) -> Result<usize, Refusal>
    ensures { place_out result ≡ read file.now (member_fields version size) at }
{
    if version == 3 {
        member_3(file, at, size)
    } else {
        member_1(file, at)
    }
}
