// The checksum that closes superblocks, object headers and their continuation blocks: Jenkins'
// lookup3, which is the published `hashlittle` with initial value 0.
#![tactic(auto)]

ghost use Rattle.std.specs.Prelude.{◌≡◌, ◌+◌, ◌≤◌, ◌<◌, length};
ghost use Rattle.format.specs.Bytes.{le};
ghost use Rattle.lookup3.specs.Lookup3.{mix_line, mix, final_line, final_mix, add_block, start, lookup3, sum_matches};

use helpers::{bytes_4, bytes_of};

// The three words that bytes are mixed into.
#[derive(Clone, Copy)]
pub struct Words {
    a: u32,
    b: u32,
    c: u32,
}

// One line of the published mix. The words are handed on under the names of the next line.
fn mix_line(w: Words, k: u32) -> Words
    requires { (0 < k) × (k < 32) }
    ensures { result ≡ mix_line k w }
{
    Words {
        a: w.b,
        b: w.c.wrapping_add(w.b),
        c: w.a.wrapping_sub(w.c) ^ w.c.rotate_left(k),
    }
}

fn mix(w: Words) -> Words
    ensures { result ≡ mix w }
{
    let first = mix_line(mix_line(mix_line(w, 4), 6), 8);
    mix_line(mix_line(mix_line(first, 16), 19), 4)
}

// One line of the published final, with the names handed on likewise.
fn final_line(w: Words, k: u32) -> Words
    requires { (0 < k) × (k < 32) }
    ensures { result ≡ final_line k w }
{
    Words {
        a: w.b,
        b: (w.c ^ w.b).wrapping_sub(w.b.rotate_left(k)),
        c: w.a,
    }
}

fn final_mix(w: Words) -> u32
    ensures { result ≡ final_mix w }
{
    let first = final_line(final_line(final_line(w, 14), 11), 25);
    final_line(final_line(final_line(final_line(first, 16), 4), 14), 24).b
}

// The 12 bytes from `at`, which are there.
fn add_block(part: &[u8], at: usize, w: Words) -> Words
    requires { at + 12 ≤ length part.now }
    ensures { result ≡ add_block part.now at w }
{
    Words {
        a: w.a.wrapping_add(bytes_4(part, at) as u32),
        b: w.b.wrapping_add(bytes_4(part, at + 4) as u32),
        c: w.c.wrapping_add(bytes_4(part, at + 8) as u32),
    }
}

// The 4 bytes from `at`, and a zero for each that is not there.
fn word(part: &[u8], at: usize) -> u32
    ensures { result ≡ le part.now at 4 }
{
    if part.len() < at {
        return 0;
    }
    if part.len() - at < 4 {
        return bytes_of(part, at, part.len() - at) as u32;
    }
    bytes_4(part, at) as u32
}

// The bytes from `at` to the end, which may be fewer than 12.
fn add_last(part: &[u8], at: usize, w: Words) -> Words
    requires { at ≤ length part.now }
    ensures { result ≡ add_block part.now at w }
{
    Words {
        a: w.a.wrapping_add(word(part, at)),
        b: w.b.wrapping_add(word(part, at + 4)),
        c: w.c.wrapping_add(word(part, at + 8)),
    }
}

fn start(length: usize) -> Words
    ensures { result ≡ start length }
{
    let word = 0xDEADBEEFu32.wrapping_add((length % 4294967296) as u32);
    Words {
        a: word,
        b: word,
        c: word,
    }
}

// The sum of the bytes of a part.
pub fn lookup3(part: &[u8]) -> u32
    ensures { result ≡ lookup3 part.now }
{
    let length = part.len();
    let mut w = start(length);
    if length == 0 {
        return w.c;
    }
    let whole = (length - 1) / 12;
    for i in 0..whole {
        w = mix(add_block(part, 12 * i, w));
    }
    final_mix(add_last(part, 12 * whole, w))
}

// Whether the checksum stored at `end` is that of the bytes from `from` up to it.
pub fn checksum_matches(file: &[u8], from: usize, end: usize) -> bool
    requires { (from ≤ end) × (end + 4 ≤ length file.now) }
    ensures { result ≡ sum_matches file.now from end }
{
    let stored = bytes_4(file, end) as u32;
    let sum = lookup3(&file[from..end]);
    stored == sum
}
