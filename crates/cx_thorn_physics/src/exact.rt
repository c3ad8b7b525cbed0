//! Exact sums, told as 64 bits or as none.
ghost use Rattle.std.specs.Prelude.{◌≡◌};
ghost use Rattle.cx_thorn_physics.specs.Exact.{in_64_bits};

/// The number where it has 64 bits, else none.
#[tactic(auto, using(crate::proofs::Ranges::fits, crate::proofs::Ranges::misfits))]
pub(crate) fn in_64_bits(number: i128) -> Option<i64>
    ensures { result ≡ in_64_bits number }
{
    i64::try_from(number).ok()
}
