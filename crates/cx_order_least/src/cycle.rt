//! A cycle among numbers of which none may come next.

ghost use Rattle.std.specs.Prelude.{◌≡◌, ℕ, ◌+◌, ◌<◌, ◌≤◌, ◌∷◌, true, length, slice_index, take, IfOk, IfSome, IfNone};
ghost use Rattle.cx_order_least.specs.Links.{before_by, is_left, IsBlocked};
ghost use Rattle.cx_order_least.specs.Orders.{IsCycle, IsChain, count};

use crate::candidates::blocked_by;
use crate::links::Links;
use crate::marks::{is_left, no_marks};
use cx_text::Memory;
use std::alloc::Global;
use std::collections::VecDeque;

/// The first place of a number.
fn place_of(path: &[usize], number: usize) -> Option<usize>
    ensures within { IfSome result (λ i. i < length path.now) }
    ensures found { IfSome result (λ i. slice_index path.now i ≡ number) }
    ensures none { IfNone result (count number path.now ≡ 0) }
{
    for place in 0..path.len() {
        if path[place] == number {
            return Some(place);
        }
    }
    None
}

/// A way from number to number, and the number that comes again.
#[derive(Drop)]
struct Walk {
    path: Vec<usize>,
    last: usize,
}

/// Goes back from number to number until one comes again.
fn walk_back(
    alloc: Global,
    before: &mut Links,
    marks: &[bool],
    start: usize,
) -> Result<Walk, Memory>
    requires start { is_left marks.now start ≡ true }
    requires blocked { (k : ℕ) → is_left marks.now k ≡ true → IsBlocked marks.now before.old k }
    requires size { length before.old ≡ length marks.now }
    ensures chain { IfOk result (λ w. IsChain (before_by before.old) (w.last ∷ w.path.items)) }
    ensures again { IfOk result (λ walk. 0 < count walk.last walk.path.items) }
    ensures once { IfOk result (λ walk. (k : ℕ) → count k walk.path.items ≤ 1) }
{
    let mut seen = no_marks(alloc, marks.len())?;
    let mut path = VecDeque::new(alloc);
    let mut last = start;
    'walk: while is_left(&seen, last) {
        seen[last] = true;
        path.push_front(last)?;
        last = blocked_by(before, marks, last);
    }
    Ok(Walk {
        path: path.into_vec(),
        last,
    })
}

/// The cycle at the beginning of a walk.
fn cycle_of(walk: Walk) -> Vec<usize>
    requires again { 0 < count walk.last walk.path.items }
    ensures { let path = walk.path.items in
        (i : ℕ)
        × (i < length path)
        × (slice_index path i ≡ walk.last)
        × (result.items ≡ take (i + 1) path) }
{
    let Walk { mut path, last } = walk;
    match place_of(&path, last) {
        Some(place) => path.truncate(place + 1),
        None => unreachable!(),
    }
    path
}

/// The place of a least number.
fn least_place(numbers: &[usize]) -> usize
    requires { 0 < length numbers.now }
    ensures within { result < length numbers.now }
    ensures least { (k : ℕ) → k < length numbers.now
        → slice_index numbers.now result ≤ slice_index numbers.now k }
{
    let mut least = 0;
    for place in 0..numbers.len() {
        if numbers[place] < numbers[least] {
            least = place;
        }
    }
    least
}

/// A cycle of numbers without mark, each of which another without mark must stand before. It begins with its least number.
pub(crate) fn cycle_from(
    alloc: Global,
    before: &mut Links,
    marks: &[bool],
    start: usize,
) -> Result<Vec<usize>, Memory>
    requires start { is_left marks.now start ≡ true }
    requires blocked { (k : ℕ) → is_left marks.now k ≡ true → IsBlocked marks.now before.old k }
    requires size { length before.old ≡ length marks.now }
    ensures { IfOk result (λ cycle. IsCycle (before_by before.old) cycle.items) }
{
    let mut cycle = cycle_of(walk_back(alloc, before, marks, start)?);
    let place = least_place(&cycle);
    cycle.rotate_left(place);
    Ok(cycle)
}
