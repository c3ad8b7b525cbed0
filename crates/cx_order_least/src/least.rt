//! The least order of numbers, some of which must stand before others.

ghost use Rattle.std.specs.Prelude.{◌≡◌, ℕ, nat_lt, false, [], length, replicate, IfOk};
ghost use Rattle.cx_order_least.specs.Links.{has, HoldsBefore, HoldsAfter};
ghost use Rattle.cx_order_least.specs.Orders.{pair_before, pair_within, numbers};
ghost use Rattle.cx_order_least.specs.Sorting.{IsSorted};

use crate::candidates::{Candidates, all_candidates, insert_all, next_free};
use crate::cycle::cycle_from;
use crate::graph::Graph;
use crate::marks::{first_left, no_marks};
use crate::outcome::Sorted;
use cx_text::{List, Memory};
use std::alloc::Global;

/// Numbers that are put in order one after another.
#[derive(Drop)]
struct Sorting {
    graph: Graph,
    marks: Vec<bool>,
    candidates: Candidates,
    order: Vec<usize>,
}

impl Sorting {
    /// The sorting of so many numbers, of which none is in the order yet.
    fn new(alloc: Global, count: usize, pairs: &[(usize, usize)]) -> Result<Self, Memory>
        ensures marks { IfOk result (λ s. s.marks.items ≡ replicate count false) }
        ensures before_length { IfOk result (λ s. length s.graph.before ≡ count) }
        ensures after_length { IfOk result (λ s. length s.graph.after ≡ count) }
        ensures before { let said = pair_within count pairs.now in
            IfOk result (λ s. HoldsBefore said s.graph.before) }
        ensures after { let said = pair_within count pairs.now in
            IfOk result (λ s. HoldsAfter said s.graph.after) }
        ensures candidates { IfOk result (λ s. (k : ℕ) → has s.candidates k ≡ nat_lt k count) }
        ensures order { IfOk result (λ s. s.order.items ≡ []) }
    {
        Ok(Sorting {
            graph: Graph::new(alloc, count, pairs)?,
            marks: no_marks(alloc, count)?,
            candidates: all_candidates(alloc, count)?,
            order: Vec::new(alloc),
        })
    }
}

/// The least of all orders of the numbers below a count in which the first number of each pair stands before its second one,
/// or a cycle of pairs. Pairs of other numbers have no effect.
pub fn least_order(alloc: Global, count: usize, pairs: &[(usize, usize)]) -> Result<Sorted, Memory>
    ensures { IfOk result (λ sorted. IsSorted (pair_before pairs.now) (numbers count) sorted) }
{
    let mut sorting = Sorting::new(alloc, count, pairs)?;
    'placed: while let Some(next) = next_free(
        &mut sorting.candidates,
        &mut sorting.graph.before,
        &sorting.marks,
    ) {
        sorting.marks[next] = true;
        insert_all(&mut sorting.candidates, sorting.graph.after.row(next))?;
        sorting.order.push(next)?;
    }
    let Sorting {
        mut graph,
        marks,
        order,
        ..
    } = sorting;
    match first_left(&marks) {
        None => Ok(Sorted::InOrder(List::new(order))),
        Some(start) => Ok(Sorted::InCycle(List::new(cycle_from(
            alloc,
            &mut graph.before,
            &marks,
            start,
        )?))),
    }
}
