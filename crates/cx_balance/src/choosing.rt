//! The widths of a direction's parts.
ghost use Rattle.std.specs.Prelude.{◌≡◌, ◌<◌, ◌≤◌, ◌+◌, ◌-◌, ◌*◌, ◌^◌, suc, min, max, length, IfOk};
ghost use Rattle.cx_cut.specs.Axis.{sum_of};
ghost use Rattle.cx_balance.specs.Choosing.{chosen, CanChoose, WidthsFit, ArePlacesFair, WeighAbout};
ghost use Rattle.cx_balance.specs.Walking.{HasWalked};

use cx_text::{List, Memory};
use std::alloc::Global;

/// How far the shares have come along the planes.
#[derive(Drop)]
struct Walk {
    /// The number of planes before.
    end: usize,
    /// What they weigh together.
    weight: u128,
}

/// The widths of so many parts of a direction, each at least so wide, by the weights of its planes.
///
/// A part begins where its equal share of the whole weight does: after the fewest planes that weigh
/// the shares before it. Where that leaves a part thinner than `least`, the place is moved.
/// No plane weighs more than 2^70, so that 128 bits hold every product.
///
/// # Errors
///
/// `Memory` when out of memory.
#[tactic(auto, using(crate::proofs::ChooseLaws::answer_fits, crate::proofs::ChooseLaws::answer_even))]
pub fn choose(
    alloc: Global,
    planes: &List<u128>,
    parts: u32,
    least: u32,
) -> Result<List<u32>, Memory>
    requires { CanChoose planes.now parts least }
    ensures value { IfOk result (λ widths. widths ≡ chosen planes.now parts least) }
    ensures fits { IfOk result (λ widths. WidthsFit planes.now parts least widths) }
    ensures even { IfOk result (λ widths. ArePlacesFair planes.now parts least
        → WeighAbout planes.now parts widths) }
{
    choose_by(alloc, planes.as_slice(), parts, least)
}

/// The widths, chosen in one walk along the planes.
#[tactic(auto, using(crate::proofs::WalkLaws::sum_fits, crate::proofs::WalkLaws::products_fit, crate::proofs::WalkLaws::goal_fits, crate::proofs::WalkLaws::choosing_start, crate::proofs::WalkLaws::choosing_on, crate::proofs::WalkLaws::choosing_end))]
fn choose_by(alloc: Global, planes: &[u128], parts: u32, least: u32) -> Result<List<u32>, Memory>
    requires { CanChoose planes.now parts least }
    ensures { IfOk result (λ widths. widths ≡ chosen planes.now parts least) }
{
    let total = total_weight(planes);
    let mut widths = List::empty(alloc);
    let mut walk = Walk { end: 0, weight: 0 };
    let mut place = 0;
    'parts: for j in 1..parts {
        reach(&mut walk, planes, parts, j as u128 * total);
        let next = next_place(
            walk.end,
            place,
            planes.len(),
            least as usize,
            (parts - j) as usize,
        );
        widths.push((next - place) as u32)?;
        place = next;
    }
    widths.push((planes.len() - place) as u32)?;
    Ok(widths)
}

/// What all planes weigh together.
#[tactic(auto, using(crate::proofs::WalkLaws::weight_more, crate::proofs::WalkLaws::weight_within, crate::proofs::WalkLaws::weight_all))]
fn total_weight(planes: &[u128]) -> u128
    requires { sum_of planes.now < 2 ^ 128 }
    ensures { result ≡ sum_of planes.now }
{
    let mut total = 0;
    'planes: for plane in planes {
        total += plane;
    }
    total
}

/// Walks on to where the weight, times the number of parts, reaches a goal.
#[tactic(auto, using(crate::proofs::WalkLaws::walk_fits, crate::proofs::WalkLaws::walk_index, crate::proofs::WalkLaws::walk_on, crate::proofs::WalkLaws::weight_within, crate::proofs::WalkLaws::once))]
fn reach(walk: &mut Walk, planes: &[u128], parts: u32, goal: u128)
    requires some { 1 ≤ parts }
    requires fits { parts * sum_of planes.now < 2 ^ 128 }
    requires goal { goal ≤ parts * sum_of planes.now }
    requires walk { HasWalked planes.now parts goal walk.old.end walk.old.weight }
    ensures walk { HasWalked planes.now parts goal walk.new.end walk.new.weight }
    ensures reached { goal ≤ parts * walk.new.weight }
{
    'planes: while parts as u128 * walk.weight < goal {
        walk.weight += planes[walk.end];
        walk.end += 1;
    }
}

/// Where the next part begins, with so many parts left: where its share does, unless that leaves a
/// part too thin.
fn next_place(share: usize, place: usize, count: usize, least: usize, left: usize) -> usize
    requires room { place + suc left * least ≤ count }
    requires few { count ≤ 16777216 }
    ensures value { result ≡ min (max share (place + least)) (count - left * least) }
    ensures after { place + least ≤ result }
    ensures room { result + left * least ≤ count }
{
    let rest = left * least;
    share.max(place + least).min(count - rest)
}
