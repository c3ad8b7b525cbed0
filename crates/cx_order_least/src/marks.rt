//! Marks of numbers.

ghost use Rattle.std.specs.Prelude.{◌≡◌, ℕ, true, false, replicate, IfOk, IfSome, IfNone};
ghost use Rattle.cx_order_least.specs.Links.{is_left};

use std::alloc::{AllocError, Global};

/// Whether a number is there and not marked.
pub(crate) fn is_left(marks: &[bool], number: usize) -> bool
    ensures { result ≡ is_left marks.now number }
{
    match marks.get(number) {
        Some(mark) => !*mark,
        None => false,
    }
}

/// The first number that isn't marked.
pub(crate) fn first_left(marks: &[bool]) -> Option<usize>
    ensures left { IfSome result (λ k. is_left marks.now k ≡ true) }
    ensures none { IfNone result ((k : ℕ) → is_left marks.now k ≡ false) }
{
    for number in 0..marks.len() {
        if is_left(marks, number) {
            return Some(number);
        }
    }
    None
}

/// So many numbers, none marked.
pub(crate) fn no_marks(alloc: Global, count: usize) -> Result<Vec<bool>, AllocError>
    ensures { IfOk result (λ marks. marks.items ≡ replicate count false) }
{
    vec![in alloc; false; count]
}
