//! Worked rows: weights of planes, parts, the least width, and the widths that are chosen.

ghost use Rattle.std.specs.Prelude.{◌≤◌, ◌^◌, All, IsTrue};
ghost use Rattle.cx_balance.specs.Choosing.{CanChoose};

use cx_balance::choose;
use cx_text::List;
use std::test::Fail;
use test_cases::same;

const ROWS: &[(&[u128], u32, u32, &[u32])] = &[
    (&[1, 1, 1, 1, 8, 8, 1, 1], 2, 1, &[5, 3]),
    (&[1, 1, 1, 1, 8, 8, 1, 1], 3, 1, &[5, 1, 2]),
    (&[1, 1, 1, 1, 1, 1, 1, 1, 1, 1], 3, 1, &[4, 3, 3]),
    (&[8, 108, 108, 308, 8, 8, 8, 8], 3, 1, &[3, 1, 4]),
    // the first share ends after one plane, and the last part needs two
    (&[9, 1, 1, 1], 2, 2, &[2, 2]),
    (&[1, 1, 1, 9], 2, 2, &[2, 2]),
];

/// Whether each plane weighs from 1 to 2^70.
fn are_weights(planes: &[u128]) -> bool
    ensures some { IsTrue result → All (λ w. 1 ≤ w) planes.now }
    ensures most { IsTrue result → All (λ w. w ≤ 2 ^ 70) planes.now }
{
    'planes: for plane in planes {
        if *plane < 1 || *plane > 1 << 70 {
            return false;
        }
    }
    true
}

/// Whether so many parts, each at least so wide, can be chosen.
fn can_choose(planes: &List<u128>, parts: u32, least: u32) -> bool
    ensures { IsTrue result → CanChoose planes.now parts least }
{
    let room = parts as usize * least as usize <= planes.len() && planes.len() <= 16777216;
    1 <= parts && parts <= 512 && 1 <= least && room && are_weights(planes.as_slice())
}

#[test]
fn parts_weigh_about_as_much(rt: HostRuntime) -> Result<(), Fail> {
    for row in ROWS {
        let (planes, parts, least, want) = *row;
        let weights = List::new(planes.to_vec(rt.alloc())?);
        if !can_choose(&weights, parts, least) {
            return Err(Fail::new(format_args!("{row:?}: nothing can be chosen")));
        }
        let widths = choose(rt.alloc(), &weights, parts, least)?;
        same(row, &widths.as_slice(), &want)?;
    }
    Ok(())
}
