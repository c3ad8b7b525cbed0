//! Numbers over pieces of a grid, joined in 128 bits.
ghost use Rattle.std.specs.Prelude.{◌≡◌, ◌≤◌, ◌+◌, ◌*◌, ◌^◌, ◌≤ℤ◌, neg_ℤ, pos};
ghost use Rattle.cx_reduce.specs.Partials.{IsWithin, joined, joined_by, Finishes};

use cx_plan::ItemKind;
use cx_rule::Overflow;
use std::marker::Model;

/// The number of a reduction over some points of a grid.
#[derive(Debug, Drop)]
pub struct Partial {
    pub(crate) kind: ItemKind,
    pub(crate) points: u32,
    pub(crate) number: i128,
}

impl Model for Partial {
    ghost use Rattle.cx_reduce.specs.Partials.{Reduced, IsReduced};

    ghost Value = { Reduced };

    ghost view = { λ p. record { kind = p.kind; points = p.points; number = p.number } };

    ghost invariant = { λ p. IsReduced (record {
      kind = p.kind;
      points = p.points;
      number = p.number;
    }) };
}

impl Partial {
    /// A copy of the partial result.
    pub fn copy(&self) -> Self
        ensures { result ≡ self.now }
    {
        Partial {
            kind: self.kind,
            points: self.points,
            number: self.number,
        }
    }
}

/// Two numbers over so many points joined.
pub(crate) fn combine(kind: ItemKind, a: i128, b: i128, m: u32, n: u32) -> i128
    requires a { IsWithin m a }
    requires b { IsWithin n b }
    requires few { m + n ≤ 2 ^ 24 }
    ensures value { result ≡ joined_by kind a b }
    ensures within { IsWithin (m + n) result }
{
    match kind {
        ItemKind::Sum | ItemKind::Count => a + b,
        ItemKind::Least => a.min(b),
        ItemKind::Greatest => a.max(b),
        ItemKind::Cell | ItemKind::Scalar => a,
    }
}

/// The number over the points of both, which are of one kind and have at most 2^24 points together.
pub fn join(a: Partial, b: Partial) -> Partial
    requires kind { b.kind ≡ a.kind }
    requires few { a.points + b.points ≤ 2 ^ 24 }
    ensures { result ≡ joined a b }
{
    Partial {
        kind: a.kind,
        points: a.points + b.points,
        number: combine(a.kind, a.number, b.number, a.points, b.points),
    }
}

/// The joined number as one of a type with this range.
///
/// # Errors
///
/// `Overflow` exactly where it isn't in the range.
pub fn finish(p: Partial, low: i64, high: i64) -> Result<i64, Overflow>
    ensures { Finishes p.number low high result }
{
    if i128::from(low) <= p.number && p.number <= i128::from(high) {
        Ok(p.number as i64)
    } else {
        Err(Overflow)
    }
}
