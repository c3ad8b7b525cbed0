//! The scalars by which a part finds its way.
ghost use Rattle.std.specs.Prelude.{◌≡◌};
ghost use Rattle.cx_rule.specs.States.{scalar_of};
ghost use Rattle.cx_core_part.specs.Tests.{CanTest, tested_number};

use cx_field::Patch;
use cx_flat::Op;

/// The number of the scalar that an operation tests; 0 where it tests none.
pub fn tested(op: &Op, patch: &Patch) -> i64
    requires { CanTest op.now patch.now }
    ensures { result ≡ tested_number op.now (scalar_of patch.now.numbers) }
{
    match op {
        Op::Test(scalar, _, _) => patch.scalar(*scalar),
        Op::Turn(scalar, _, _) => patch.scalar(*scalar),
        _ => 0,
    }
}
