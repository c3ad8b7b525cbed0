//! Flows of heat between two points.
ghost use Rattle.std.specs.Prelude.{◌≡◌, ◌≤ℤ◌, ◌^◌, ◌-◌, ◌-ℤ◌, ◌*ℤ◌, pos, negsuc, int_div};
ghost use Rattle.cx_thorn_physics.specs.Flux.{flow, flow_between, gain_between, is_passable};

/// A point's mask and its heat.
#[derive(Clone, Copy, Drop)]
pub struct Spot {
    pub mask: i64,
    pub heat: i64,
}

/// What comes in from one neighbour less what goes out to the other.
#[inline(always)]
pub(crate) fn gain_between(factor: i64, down: Spot, point: Spot, up: Spot) -> i128
    ensures value { result ≡ gain_between factor down point up }
    ensures low { negsuc (2 ^ 121) ≤ℤ result }
    ensures high { result ≤ℤ pos (2 ^ 121) }
{
    less(
        flow_between(factor, down, point),
        flow_between(factor, point, up),
    )
}

/// One flow less another.
#[inline(always)]
fn less(comes: i128, goes: i128) -> i128
    requires low { (negsuc (2 ^ 119) ≤ℤ comes) × (negsuc (2 ^ 119) ≤ℤ goes) }
    requires high { (comes ≤ℤ pos (2 ^ 119)) × (goes ≤ℤ pos (2 ^ 119)) }
    ensures value { result ≡ comes -ℤ goes }
    ensures low { negsuc (2 ^ 121) ≤ℤ result }
    ensures high { result ≤ℤ pos (2 ^ 121) }
{
    comes - goes
}

/// The flow from one point to another; none where a mask is 0.
#[inline(always)]
fn flow_between(factor: i64, from: Spot, to: Spot) -> i128
    ensures value { result ≡ flow_between factor from to }
    ensures low { negsuc (2 ^ 119) ≤ℤ result }
    ensures high { result ≤ℤ pos (2 ^ 119) }
{
    if is_passable(from.mask) && is_passable(to.mask) {
        flow(factor, from.heat, to.heat)
    } else {
        0
    }
}

/// Whether a mask lets heat pass.
#[inline(always)]
pub(crate) fn is_passable(mask: i64) -> bool
    ensures { result ≡ is_passable mask }
{
    mask != 0
}

/// A factor's 256ths of how much hotter the one point is, rounded toward 0.
#[inline(always)]
fn flow(factor: i64, from: i64, to: i64) -> i128
    ensures value { result ≡ flow factor from to }
    ensures low { negsuc (2 ^ 119) ≤ℤ result }
    ensures high { result ≤ℤ pos (2 ^ 119) }
{
    in_256ths(product(factor, difference(from, to)))
}

/// How much hotter the one point is, exactly.
#[inline(always)]
fn difference(from: i64, to: i64) -> i128
    ensures value { result ≡ from -ℤ to }
    ensures low { negsuc (2 ^ 64 - 2) ≤ℤ result }
    ensures high { result ≤ℤ pos (2 ^ 64 - 1) }
{
    from as i128 - to as i128
}

/// A factor times a difference, exactly.
#[tactic(auto, using(crate::proofs::FlowLaws::product_fits))]
#[inline(always)]
fn product(factor: i64, difference: i128) -> i128
    requires low { negsuc (2 ^ 64 - 2) ≤ℤ difference }
    requires high { difference ≤ℤ pos (2 ^ 64 - 1) }
    ensures { result ≡ factor *ℤ difference }
{
    factor as i128 * difference
}

/// A number over 256, rounded toward 0.
#[tactic(auto, using(crate::proofs::FlowLaws::above, crate::proofs::FlowLaws::below))]
#[inline(always)]
fn in_256ths(number: i128) -> i128
    ensures value { result ≡ int_div number (pos 256) }
    ensures low { negsuc (2 ^ 119) ≤ℤ result }
    ensures high { result ≤ℤ pos (2 ^ 119) }
{
    number / 256
}
