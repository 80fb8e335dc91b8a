// Which forms of a datatype's element are a number: of classes 0 and 1, by the class bits and the
// properties.
#![tactic(auto)]

ghost use Rattle.std.specs.Prelude.{◌≡◌, ◌≤◌};
ghost use Rattle.number_form.specs.Forms.{whole_size, fixed_form, is_float, float_form, number_form};

use records::{DataFormat, DataType};

// Which number the bytes of an element are.
#[derive(Clone, Copy)]
pub enum NumberForm {
    Unsigned,
    Signed,
    Single,
    Double,
}

#[tactic(auto, unfolding(crate::specs::Forms::whole_size))]
fn whole_size(size: u32) -> bool
    ensures { result ≡ whole_size size }
{
    size == 1 || size == 2 || size == 4 || size == 8
}

// All bits of 1, 2, 4 or 8 bytes, with a sign where class bit 3 is set.
fn fixed_form(bits: u32, size: u32, bit_offset: u16, bit_precision: u16) -> Option<NumberForm>
    ensures { result ≡ fixed_form bits size bit_offset bit_precision }
{
    if !whole_size(size) {
        return None;
    }
    if bit_offset != 0 {
        return None;
    }
    if bit_precision as u32 != 8 * size {
        return None;
    }
    if bits & 8 == 0 {
        return Some(NumberForm::Unsigned);
    }
    Some(NumberForm::Signed)
}

// A float in all bits of so many bytes. Class bit 6 is that of the VAX order; bits 4 and 5 are the
// mantissa's normalization, bits 8 to 15 the place of the sign.
fn is_float(bits: u32, size: u32, bit_precision: u16, width: u32) -> bool
    requires { (1 ≤ width) × (width ≤ 8) }
    ensures { result ≡ is_float bits size bit_precision width }
{
    if bit_precision as u32 != 8 * width {
        return false;
    }
    if size != width {
        return false;
    }
    if bits & 64 != 0 {
        return false;
    }
    if bits >> 4 & 3 != 2 {
        return false;
    }
    bits >> 8 & 255 == 8 * width - 1
}

fn float_form(bits: u32, size: u32, bit_precision: u16) -> Option<NumberForm>
    ensures { result ≡ float_form bits size bit_precision }
{
    if is_float(bits, size, bit_precision, 4) {
        return Some(NumberForm::Single);
    }
    if is_float(bits, size, bit_precision, 8) {
        return Some(NumberForm::Double);
    }
    None
}

// The number of a datatype, where it has one. A variable-length type has its base type's format, so
// the class is tested.
pub fn number_form(datatype: DataType) -> Option<NumberForm>
    ensures { result ≡ number_form datatype }
{
    let class = datatype.class_and_version & 15;
    let bits = datatype.class_bit_field;
    let size = datatype.size;
    match datatype.data_fmt? {
        DataFormat::Fixed {
            bit_offset,
            bit_precision,
        } => {
            if class != 0 {
                return None;
            }
            fixed_form(bits, size, bit_offset, bit_precision)
        }
        DataFormat::Float(f) => {
            if class != 1 {
                return None;
            }
            float_form(bits, size, f.bit_precision)
        }
    }
}
