//! Which number may come next.

ghost use Rattle.std.specs.Prelude.{◌≡◌, ◌⊎◌, ℕ, ◌-◌, ◌<◌, ◌==◌, nat_lt, ◌||◌, true, false, [], ◌∷◌, length, slice_get, Some, IfOk, IfSome, IfNone, OnOk};
ghost use Rattle.cx_order_least.specs.Links.{has, links, row, is_left, IsBlocked, KeepsLeft, GetsNone};

use crate::links::Links;
use crate::marks::is_left;
use cx_text::Memory;
use std::alloc::Global;
use std::collections::BTreeSet;
use std::marker::Model;

/// Numbers that may be the next one. Contracts see them in order.
#[derive(Drop)]
pub(crate) struct Candidates {
    numbers: BTreeSet<usize>,
}

impl Model for Candidates {
    ghost use Rattle.std.specs.Prelude.{List, ℕ};

    ghost Value = { List ℕ };

    ghost view = { λ candidates. candidates.numbers.keys };
}

impl Candidates {
    /// No numbers.
    pub(crate) fn new(alloc: Global) -> Self
        ensures { result ≡ [] }
    {
        Candidates {
            numbers: BTreeSet::new(alloc),
        }
    }

    /// Adds a number.
    pub(crate) fn insert(&mut self, number: usize) -> Result<(), Memory>
        ensures { OnOk result ((k : ℕ) → has self.new k ≡ (has self.old k || number == k)) }
    {
        self.numbers.insert(number)?;
        Ok(())
    }

    /// Takes the least number out.
    pub(crate) fn pop_first(&mut self) -> Option<usize>
        ensures removed { IfSome result (λ x. self.old ≡ x ∷ self.new) }
        ensures above { IfSome result (λ x. (k : ℕ) → has self.new k ≡ true → x < k) }
        ensures none { IfNone result (self.old ≡ []) }
        ensures empty { IfNone result (self.new ≡ []) }
    {
        self.numbers.pop_first()
    }
}

/// All numbers below a count.
pub(crate) fn all_candidates(alloc: Global, count: usize) -> Result<Candidates, Memory>
    ensures { IfOk result (λ candidates. (k : ℕ) → has candidates k ≡ nat_lt k count) }
{
    let mut candidates = Candidates::new(alloc);
    'numbers: for number in 0..count {
        candidates.insert(number)?;
    }
    Ok(candidates)
}

/// Adds numbers.
pub(crate) fn insert_all(candidates: &mut Candidates, numbers: &[usize]) -> Result<(), Memory>
    ensures { OnOk result
        ((k : ℕ) → has candidates.new k ≡ (has candidates.old k || has numbers.now k)) }
{
    'numbers: for number in numbers {
        candidates.insert(*number)?;
    }
    Ok(())
}

/// The last number of a number's list.
fn last_of(before: &Links, number: usize) -> Option<usize>
    requires { number < length before.now }
    ensures { result ≡ slice_get (row before.now number) (length (row before.now number) - 1) }
{
    before.row(number).last().copied()
}

/// A number without mark that must stand before this one. Marked ones at the end of its list are taken off.
pub(crate) fn blocker(before: &mut Links, marks: &[bool], number: usize) -> Option<usize>
    requires { number < length before.old }
    ensures length { length before.new ≡ length before.old }
    ensures kept { KeepsLeft marks.now before.old before.new }
    ensures fewer { GetsNone before.old before.new }
    ensures left { IfSome result (λ a. is_left marks.now a ≡ true) }
    ensures found { IfSome result (λ a. links before.old number a ≡ true) }
    ensures none { IfNone result
        ((a : ℕ) → links before.old number a ≡ true → is_left marks.now a ≡ false) }
{
    'taken: loop {
        match last_of(before, number) {
            None => return None,
            Some(last) => {
                if is_left(marks, last) {
                    return Some(last);
                }
            }
        }
        before.pop(number);
    }
}

/// Takes the least number out before which none without mark must stand. Smaller ones are taken out too.
pub(crate) fn next_free(
    candidates: &mut Candidates,
    before: &mut Links,
    marks: &[bool],
) -> Option<usize>
    requires { (k : ℕ) → has candidates.old k ≡ true → k < length before.old }
    ensures length { length before.new ≡ length before.old }
    ensures kept { KeepsLeft marks.now before.old before.new }
    ensures fewer { GetsNone before.old before.new }
    ensures found { IfSome result (λ x. has candidates.old x ≡ true) }
    ensures free { IfSome result
        (λ x. (a : ℕ) → links before.old x a ≡ true → is_left marks.now a ≡ false) }
    ensures less { (k : ℕ) → has candidates.new k ≡ true → has candidates.old k ≡ true }
    ensures above { IfSome result (λ x. (k : ℕ) → has candidates.new k ≡ true → x < k) }
    ensures blocked { (k : ℕ) → has candidates.old k ≡ true
        → (result ≡ Some k) ⊎ ((has candidates.new k ≡ true) ⊎ IsBlocked marks.now before.old k) }
    ensures none { IfNone result (candidates.new ≡ []) }
{
    'taken: while let Some(number) = candidates.pop_first() {
        if blocker(before, marks, number).is_none() {
            return Some(number);
        }
    }
    None
}

/// One without mark that must stand before a number that such a one must stand before.
pub(crate) fn blocked_by(before: &mut Links, marks: &[bool], number: usize) -> usize
    requires within { number < length before.old }
    requires blocked { IsBlocked marks.now before.old number }
    ensures length { length before.new ≡ length before.old }
    ensures kept { KeepsLeft marks.now before.old before.new }
    ensures fewer { GetsNone before.old before.new }
    ensures left { is_left marks.now result ≡ true }
    ensures found { links before.old number result ≡ true }
{
    match blocker(before, marks, number) {
        Some(blocker) => blocker,
        None => unreachable!(),
    }
}
