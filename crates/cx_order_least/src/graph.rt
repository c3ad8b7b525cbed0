//! What must stand before what.

ghost use Rattle.std.specs.Prelude.{◌≡◌, ℕ, ◌<◌, false, length, IfOk, OnOk};
ghost use Rattle.cx_order_least.specs.Links.{links, before_by, after_by, HoldsBefore, HoldsAfter, with_pair, with_pair_within};
ghost use Rattle.cx_order_least.specs.Orders.{pair_within};

use crate::links::Links;
use cx_text::Memory;
use std::alloc::Global;

/// Per number, which must stand before it, and before which it must stand.
#[derive(Drop)]
pub(crate) struct Graph {
    pub before: Links,
    pub after: Links,
}

impl Graph {
    /// Numbers below a count, and no pair.
    fn empty(alloc: Global, count: usize) -> Result<Self, Memory>
        ensures before_length { IfOk result (λ graph. length graph.before ≡ count) }
        ensures after_length { IfOk result (λ graph. length graph.after ≡ count) }
        ensures before { IfOk result (λ graph. (a b : ℕ) → links graph.before b a ≡ false) }
        ensures after { IfOk result (λ graph. (a b : ℕ) → links graph.after a b ≡ false) }
    {
        Ok(Graph {
            before: Links::new(alloc, count)?,
            after: Links::new(alloc, count)?,
        })
    }

    /// Adds the pair of a number and one before which it must stand.
    fn add(&mut self, first: usize, second: usize) -> Result<(), Memory>
        requires first { first < length self.old.after }
        requires second { second < length self.old.before }
        ensures before_length { OnOk result (length self.new.before ≡ length self.old.before) }
        ensures after_length { OnOk result (length self.new.after ≡ length self.old.after) }
        ensures before { let said = with_pair (before_by self.old.before) first second in
            OnOk result (HoldsBefore said self.new.before) }
        ensures after { let said = with_pair (after_by self.old.after) first second in
            OnOk result (HoldsAfter said self.new.after) }
    {
        self.before.push(second, first)?;
        self.after.push(first, second)?;
        Ok(())
    }

    /// Adds a pair if both numbers lie below a count.
    fn add_within(&mut self, count: usize, first: usize, second: usize) -> Result<(), Memory>
        requires after { length self.old.after ≡ count }
        requires before { length self.old.before ≡ count }
        ensures before_length { OnOk result (length self.new.before ≡ count) }
        ensures after_length { OnOk result (length self.new.after ≡ count) }
        ensures before { let old = before_by self.old.before in
            let said = with_pair_within count old first second in
            OnOk result (HoldsBefore said self.new.before) }
        ensures after { let old = after_by self.old.after in
            let said = with_pair_within count old first second in
            OnOk result (HoldsAfter said self.new.after) }
    {
        if first < count && second < count {
            return self.add(first, second);
        }
        Ok(())
    }

    /// The pairs whose numbers lie below a count.
    pub(crate) fn new(alloc: Global, count: usize, pairs: &[(usize, usize)]) -> Result<Self, Memory>
        ensures before_length { IfOk result (λ graph. length graph.before ≡ count) }
        ensures after_length { IfOk result (λ graph. length graph.after ≡ count) }
        ensures before { IfOk result (λ g. HoldsBefore (pair_within count pairs.now) g.before) }
        ensures after { IfOk result (λ g. HoldsAfter (pair_within count pairs.now) g.after) }
    {
        let mut graph = Graph::empty(alloc, count)?;
        'pairs: for (first, second) in pairs {
            graph.add_within(count, *first, *second)?;
        }
        Ok(graph)
    }
}
