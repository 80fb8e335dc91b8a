// The number in one element of a form that has one, its bits as they are stored, and the two words
// that a row has of it.
#![tactic(auto)]

ghost use Rattle.std.specs.Prelude.{◌≡◌, true, ◌-◌, ◌*◌, ◌^◌, ◌<◌, ◌≤◌};
ghost use Rattle.helpers.specs.Answers.{out};
ghost use Rattle.std.specs.Float.Ieee.{to_bits};
ghost use Rattle.std.specs.Float.{binary32, binary64};
ghost use Rattle.format.specs.Bytes.{swap};
ghost use Rattle.format.specs.Format.{read};
ghost use Rattle.records.specs.Numbers.{twos, number_case, number_bits, value_case, value_bits};
ghost use Rattle.number_form.specs.Forms.{whole_size, Sized};
ghost use Rattle.element_number.specs.Values.{element as element_format, signed_of, single_of, double_of, number_of, number_value};
ghost use Rattle.element_number.specs.Answers.{Below};

use helpers::{Parsed, varint};
use number_form::NumberForm;
use records::{Number, Value};

// The lowest `size` bytes of a number in the other order: of all its bytes, the highest ones.
fn swap_of(v: u64, size: u32) -> u64
    requires { whole_size size ≡ true }
    ensures { result ≡ swap size v }
{
    v.swap_bytes() >> (64 - 8 * size)
}

// An element as one number, in the byte order of class bit 0.
fn element(file: &[u8], at: usize, bits: u32, size: u32) -> Parsed<u64>
    requires { whole_size size ≡ true }
    ensures { (out result ≡ read file.now (element_format bits size) at) × Below result size }
{
    let (v, next) = varint(file, at, size as usize)?;
    if bits & 1 == 0 {
        return Ok((v, next));
    }
    Ok((swap_of(v, size), next))
}

// Half as many numbers as the bytes can hold: from there on a signed one is below zero.
fn half_of(size: u32) -> u64
    requires { whole_size size ≡ true }
    ensures { (result ≡ 2 ^ (8 * size - 1)) × (2 * result ≡ 2 ^ (8 * size)) × (0 < result) × (result ≤ 2 ^ 63) }
{
    1 << (8 * size - 1)
}

fn signed_of(half: u64, v: u64) -> i64
    requires { (0 < half) × (half ≤ 2 ^ 63) × (v < 2 * half) }
    ensures { result ≡ signed_of half v }
{
    if v < half {
        v as i64
    } else {
        -1 - ((half - 1 - (v - half)) as i64)
    }
}

// A NaN is no float here, since it would lose its bits. Single and double are two functions, here and
// below, since no trait over both promises bits.
fn single_of(bits: u32) -> Number
    ensures { result ≡ single_of bits }
{
    if 0x7f80_0000 < bits % 0x8000_0000 {
        return Number::SingleNan(bits);
    }
    Number::Single(f32::from_bits(bits))
}

fn double_of(bits: u64) -> Number
    ensures { result ≡ double_of bits }
{
    if 0x7ff0_0000_0000_0000 < bits % 0x8000_0000_0000_0000 {
        return Number::DoubleNan(bits);
    }
    Number::Double(f64::from_bits(bits))
}

// An element of this form.
fn number_of(form: NumberForm, size: u32, v: u64) -> Number
    requires { Sized form size × (v < 2 ^ (8 * size)) }
    ensures { result ≡ number_of form size v }
{
    match form {
        NumberForm::Unsigned => Number::Unsigned(v),
        NumberForm::Signed => Number::Signed(signed_of(half_of(size), v)),
        NumberForm::Single => single_of(v as u32),
        NumberForm::Double => double_of(v),
    }
}

// The number in one element of this form.
pub fn number_value(
    file: &[u8],
    at: usize,
    form: NumberForm,
    bits: u32,
    size: u32,
) -> Parsed<Number>
    requires { Sized form size }
    ensures { out result ≡ read file.now (number_value form bits size) at }
{
    let (v, next) = element(file, at, bits, size)?;
    Ok((number_of(form, size, v), next))
}

// The bits of a signed number, as two's complement.
fn signed_bits(x: i64) -> u64
    ensures { result ≡ twos x }
{
    x.cast_unsigned()
}

// The bits of a float; of the NaN they are those that IEEE 754 prefers.
fn single_bits(x: f32) -> u32
    ensures { result ≡ to_bits binary32 x }
{
    if x.is_nan() { 0x7fc0_0000 } else { x.to_bits() }
}

fn double_bits(x: f64) -> u64
    ensures { result ≡ to_bits binary64 x }
{
    if x.is_nan() {
        0x7ff8_0000_0000_0000
    } else {
        x.to_bits()
    }
}

fn bits_of(n: Number) -> u64
    ensures { result ≡ number_bits n }
{
    match n {
        Number::Unsigned(v) => v,
        Number::Signed(x) => signed_bits(x),
        Number::Single(x) => single_bits(x) as u64,
        Number::Double(x) => double_bits(x),
        Number::SingleNan(b) => b as u64,
        Number::DoubleNan(b) => b,
    }
}

fn case_of(n: Number) -> u64
    ensures { result ≡ number_case n }
{
    match n {
        Number::Unsigned(_) => 1,
        Number::Signed(_) => 2,
        Number::Single(_) => 3,
        Number::Double(_) => 4,
        Number::SingleNan(_) => 3,
        Number::DoubleNan(_) => 4,
    }
}

// Which number a value is, and its bits; 0 and 0 where it is none.
pub fn number_case(value: Value) -> u64
    ensures { result ≡ value_case value }
{
    match value {
        Value::None | Value::Text(_) => 0,
        Value::Number(n) => case_of(n),
    }
}

pub fn number_bits(value: Value) -> u64
    ensures { result ≡ value_bits value }
{
    match value {
        Value::None | Value::Text(_) => 0,
        Value::Number(n) => bits_of(n),
    }
}
