//! The first jump of a list of operations that is always taken.

ghost use Rattle.std.specs.Prelude.{◌≡◌, ◌<◌, ◌^◌};
ghost use Rattle.cx_core_place.specs.Skips.{skipped, landed};

use cx_flat::Op;

/// How many operations a jump skips.
fn skipped(op: &Op) -> Option<u32>
    ensures { result ≡ skipped op.now }
{
    match op {
        Op::Skip(count) => Some(*count),
        _ => None,
    }
}

/// Where the first jump leads; without one to the end.
fn landed(ops: &[Op]) -> usize
    ensures { result ≡ landed ops.now }
{
    'ops: for (place, op) in ops.iter().enumerate() {
        if let Some(count) = skipped(op) {
            return place + count as usize;
        }
    }
    ops.len()
}

/// Where the first jump leads, as the number of an operation, of which a job has far fewer than 2^32.
pub(crate) fn landing_place(ops: &[Op]) -> u32
    ensures { landed ops.now < 2 ^ 32 → result ≡ landed ops.now }
{
    landed(ops).min(u32::MAX as usize) as u32
}
