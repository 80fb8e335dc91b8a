// How many elements a dataspace has: the one place that multiplies its sizes.
#![tactic(auto)]

ghost use Rattle.std.specs.Prelude.{◌≡◌, ℕ, ◌*◌, take};
ghost use Rattle.records.specs.Elements.{product as product_of, is_null, elements_by, count_of};

use records::Dimensions;

// `n` times as many. Too many, taken no times, are none.
pub fn times(elements: Option<u64>, n: u64) -> Option<u64>
    ensures { (m : ℕ) → elements ≡ count_of m → result ≡ count_of (m * n) }
{
    match elements {
        Some(count) => count.checked_mul(n),
        None if n == 0 => Some(0),
        None => None,
    }
}

// The product of the sizes, 1 if there are none.
fn product(dimensions: Dimensions) -> Option<u64>
    ensures { result ≡ count_of (product_of (take dimensions.count dimensions.sizes)) }
{
    let n = dimensions.count.min(4) as usize;
    let mut count = Some(1);
    for &size in &dimensions.sizes[..n] {
        count = times(count, size);
    }
    count
}

fn is_null(kind: Option<u8>) -> bool
    ensures { result ≡ is_null kind }
{
    kind == Some(2)
}

// The elements of a dataspace by its kind and its sizes.
pub fn elements(kind: Option<u8>, dimensions: Dimensions) -> Option<u64>
    ensures { result ≡ count_of (elements_by kind dimensions) }
{
    if is_null(kind) {
        return Some(0);
    }
    product(dimensions)
}
