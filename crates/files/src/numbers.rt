// Numbers in a file: four bytes each, the low one first.
ghost use Rattle.std.specs.Prelude.{◌≡◌, ◌+◌, ◌*◌, ◌/◌, ◌<◌, ◌≤◌, min, length, IfOk};
ghost use Rattle.files.specs.Numbers.{number_at, numbers_in, plan_size, plan_words};

use std::alloc::{AllocError, Global};

// The number whose four bytes begin at a place: what a file's parts mean is told by place.
pub fn number_at(bytes: &[u8], at: usize) -> u64
    requires { at + 4 ≤ length bytes.now }
    ensures value { result ≡ number_at bytes.now at }
    ensures bound { result < 4294967296 }
{
    u64::from(u32::from_le_bytes([bytes[at], bytes[at + 1], bytes[at + 2], bytes[at + 3]]))
}

// The first numbers of a file, at most so many; bytes that make no whole number are left.
pub fn numbers(heap: Global, bytes: &[u8], most: usize) -> Result<Vec<u64>, AllocError>
    ensures { IfOk result (λ v. v.items ≡ numbers_in (min most (length bytes.now / 4)) bytes.now) }
{
    bytes
        .chunks_exact(4)
        .map(|number| number_at(number, 0))
        .take(most)
        .collect(heap)
}

// How many numbers the plan takes that a file begins with, by its counts.
fn plan_size(bytes: &[u8]) -> usize
    ensures { result ≡ plan_size bytes.now }
{
    if bytes.len() < 12 {
        return 3;
    }
    let size = 3 + number_at(bytes, 0) + 6 * number_at(bytes, 4) + 3 * number_at(bytes, 8);
    size as usize
}

// The words of the plan that a file begins with.
pub fn read_plan(heap: Global, bytes: &[u8]) -> Result<Vec<u64>, AllocError>
    ensures { IfOk result (λ v. v.items ≡ plan_words bytes.now) }
{
    numbers(heap, bytes, plan_size(bytes))
}
