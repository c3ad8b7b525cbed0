//! Copies of faults.

ghost use Rattle.std.specs.Prelude.{◌≡◌, IfOk};

use cx_expr::ExprFault;
use cx_scope::ScopeFault;
use cx_text::{Memory, Text};
use std::alloc::Global;

/// A copy of a fault of an expression.
pub(crate) fn copy_fault(alloc: Global, fault: &ExprFault) -> Result<ExprFault, Memory>
    ensures { IfOk result (λ copy. copy ≡ fault.now) }
{
    Ok(match fault {
        ExprFault::UnknownName(name) => ExprFault::UnknownName(name.copy(alloc)?),
        ExprFault::NotNumber(name) => ExprFault::NotNumber(name.copy(alloc)?),
        ExprFault::NotText(name) => ExprFault::NotText(name.copy(alloc)?),
        ExprFault::Range(sign) => ExprFault::Range(sign.copy(alloc)?),
    })
}

/// A copy of a fault of a name.
pub(crate) fn copy_scope_fault(alloc: Global, fault: &ScopeFault) -> Result<ScopeFault, Memory>
    ensures { IfOk result (λ copy. copy ≡ fault.now) }
{
    Ok(match fault {
        ScopeFault::NotFound(name) => ScopeFault::NotFound(name.copy(alloc)?),
        ScopeFault::Hidden(name) => ScopeFault::Hidden(name.copy(alloc)?),
        ScopeFault::NoStorage(name) => ScopeFault::NoStorage(name.copy(alloc)?),
        ScopeFault::NoLevel(name) => ScopeFault::NoLevel(name.copy(alloc)?),
        ScopeFault::NotScalar(name) => ScopeFault::NotScalar(name.copy(alloc)?),
        ScopeFault::NotGrid(name) => ScopeFault::NotGrid(name.copy(alloc)?),
        ScopeFault::Memory => ScopeFault::Memory,
    })
}
