//! Numbers with pairs, and their least orders or cycles, worked out by hand.

use cx_order_least::{Sorted, least_order};
use cx_text::List;
use std::alloc::Global;
use std::test::Fail;
use test_cases::same;

/// How many numbers there are, pairs of them, and the least order.
const ORDERS: &[(usize, &[(usize, usize)], &[usize])] = &[
    (0, &[], &[]),
    (3, &[], &[0, 1, 2]),
    (3, &[(0, 1), (1, 2)], &[0, 1, 2]),
    (2, &[(1, 0)], &[1, 0]),
    (3, &[(2, 0)], &[1, 2, 0]),
    (3, &[(2, 1), (1, 0)], &[2, 1, 0]),
    (4, &[(3, 0), (2, 1)], &[2, 1, 3, 0]),
    (4, &[(3, 0), (3, 0), (0, 9)], &[1, 2, 3, 0]),
    (5, &[(4, 0), (3, 4)], &[1, 2, 3, 4, 0]),
    (5, &[(1, 0), (3, 2), (2, 0)], &[1, 3, 2, 0, 4]),
];

/// The same where there is none, and a cycle.
const CYCLES: &[(usize, &[(usize, usize)], &[usize])] = &[
    (3, &[(0, 1), (1, 2), (2, 0)], &[0, 1, 2]),
    (1, &[(0, 0)], &[0]),
    (4, &[(3, 1), (1, 3), (0, 2)], &[1, 3]),
];

/// Whether there is an order; and the order, or a cycle.
fn sorted(
    alloc: Global,
    count: usize,
    pairs: &[(usize, usize)],
) -> Result<(bool, List<usize>), Fail> {
    match least_order(alloc, count, pairs)? {
        Sorted::InOrder(order) => Ok((true, order)),
        Sorted::InCycle(cycle) => Ok((false, cycle)),
    }
}

/// Tests a row of `ORDERS` or of `CYCLES`.
fn is_sorted(
    alloc: Global,
    is_order: bool,
    count: usize,
    pairs: &[(usize, usize)],
    want: &[usize],
) -> Result<(), Fail> {
    let (found, numbers) = sorted(alloc, count, pairs)?;
    same(
        &(count, pairs),
        &(found, numbers.as_slice()),
        &(is_order, want),
    )
}

#[test]
fn orders_are_the_least_and_cycles_begin_with_the_least(rt: HostRuntime) -> Result<(), Fail> {
    for (is_order, table) in [(true, ORDERS), (false, CYCLES)] {
        for (count, pairs, want) in table {
            is_sorted(rt.alloc(), is_order, *count, pairs, want)?;
        }
    }
    Ok(())
}
