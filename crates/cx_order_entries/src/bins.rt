//! The bins.

ghost use Rattle.std.specs.Prelude.{◌≡◌, ◌<◌, IfSome};
ghost use Rattle.cx_order_entries.specs.Bins.{plain, bin_of};
ghost use Rattle.cx_plan.specs.Lookups.{bin_name, bin_count};
ghost use Rattle.cx_order_entries.specs.declared.fault.EntryFault.TheVariants as faults;
ghost use Rattle.cx_order_entries.specs.Entries.{unknown_bin, bin_fault};
ghost use Rattle.cx_text.specs.Telling.{Tells};
ghost use Rattle.cx_order_entries.specs.Seen.{seen_entries};

use crate::counted::Entry;
use crate::fault::EntryFault;
use cx_plan::Bin;
use cx_sched::Spot;
use cx_text::same_name;
use std::alloc::Global;

/// How many bins there are.
pub const BINS: usize = Bin::ALL.len();

/// The name of a bin by its number.
pub fn bin_name(bin: usize) -> &'static [u8]
    ensures { result.now ≡ bin_name bin }
{
    match Bin::ALL.get(bin) {
        Some(bin) => bin.name(),
        None => b"",
    }
}

/// A name without the `CCTK_` at its beginning.
fn plain(name: &[u8]) -> &[u8]
    ensures { result.now ≡ plain name.now }
{
    if name.len() >= 5 && same_name(&name[..5], b"CCTK_") {
        &name[5..]
    } else {
        name
    }
}

/// The number of the bin of a name, which may begin with `CCTK_`.
pub(crate) fn bin_of(name: &[u8]) -> Option<usize>
    ensures bin { result ≡ bin_of name.now }
    ensures within { IfSome result (λ bin. bin < bin_count) }
{
    let plain = plain(name);
    for bin in 0..BINS {
        if same_name(plain, bin_name(bin)) {
            return Some(bin);
        }
    }
    None
}

/// Tests that an entry placed at a bin names one that exists.
fn check_bin(alloc: Global, spot: &Spot) -> Result<(), EntryFault>
    ensures { Tells faults.Memory (unknown_bin spot.now) result }
{
    match spot {
        Spot::At(name) => {
            if bin_of(name.as_slice()).is_some() {
                return Ok(());
            }
            Err(EntryFault::UnknownBin(name.copy(alloc)?))
        }
        Spot::Inside(_) => Ok(()),
    }
}

/// Tests that each entry stands in a group or in a bin that is there.
pub fn check_bins(alloc: Global, entries: &[Entry<'_>]) -> Result<(), EntryFault>
    ensures { Tells faults.Memory (bin_fault (seen_entries entries.now)) result }
{
    'entries: for entry in entries {
        check_bin(alloc, &entry.block.spot)?;
    }
    Ok(())
}
