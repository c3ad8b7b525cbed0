//! Wires between as many parts as a grid has at most.
ghost use Rattle.std.specs.Prelude.{◌≡◌, IfOk};
ghost use Rattle.cx_core.specs.Starts.{AreEmpty};
ghost use Rattle.cx_wire.specs.Memory.{bare_queue, told_queue};

use cx_text::{List, Memory};
use cx_wire::{AlteringWire, FailingWire, MemoryWire, NotingWire};
use std::alloc::Global;

/// A wire in memory.
pub fn wire(alloc: Global) -> Result<MemoryWire, Memory>
    ensures parts { IfOk result (λ wire. wire.parts ≡ 512) }
    ensures told { IfOk result (λ wire. AreEmpty (told_queue wire)) }
    ensures bare { IfOk result (λ wire. AreEmpty (bare_queue wire)) }
{
    let wire = MemoryWire::new(alloc, 512)?;
    Ok(wire)
}

/// The same wire, but a value is altered on its way.
pub fn altering(alloc: Global) -> Result<AlteringWire, Memory>
    ensures parts { IfOk result (λ wire. wire.wire.parts ≡ 512) }
    ensures bare { IfOk result (λ wire. AreEmpty (bare_queue wire.wire)) }
{
    let carried = wire(alloc)?;
    let altering = AlteringWire::new(carried);
    Ok(altering)
}

/// The same wire, but one call of it fails.
pub fn failing(alloc: Global, fail: u64) -> Result<FailingWire, Memory>
    ensures parts { IfOk result (λ wire. wire.wire.parts ≡ 512) }
    ensures told { IfOk result (λ wire. AreEmpty (told_queue wire.wire)) }
{
    let carried = wire(alloc)?;
    let calls = List::new(Vec::from_array(alloc, [fail])?);
    let failing = FailingWire::new(carried, calls);
    Ok(failing)
}

/// The same wire, but it notes what is sent.
pub fn noting(alloc: Global) -> Result<NotingWire, Memory>
    ensures parts { IfOk result (λ wire. wire.wire.parts ≡ 512) }
    ensures told { IfOk result (λ wire. AreEmpty (told_queue wire.wire)) }
{
    let carried = wire(alloc)?;
    let noting = NotingWire::new(alloc, carried);
    Ok(noting)
}
