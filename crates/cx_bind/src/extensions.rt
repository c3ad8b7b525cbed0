//! What thorns add to the ranges of parameters, by their full names.

ghost use Rattle.std.specs.Prelude.{◌≡◌, ◌++◌, IfOk, OnOk};
ghost use Rattle.cx_bind.specs.NameRanges.{AddsRanges, AreAdded};
ghost use Rattle.cx_bind.specs.Parameters.{added};
ghost use Rattle.cx_text.specs.Bytes.{folded};

use crate::copies::push_ranges;
use crate::name_ranges::NameRanges;
use crate::parameters::Extension;
use cx_param::Range;
use cx_text::{List, Memory};
use std::alloc::Global;
use std::marker::Model;

/// Extensions, with their ranges by full names. Contracts see the extensions.
#[derive(Drop)]
pub(crate) struct ExtensionTable {
    extensions: List<Extension>,
    ranges: NameRanges,
}

impl Model for ExtensionTable {
    ghost use Rattle.std.specs.Prelude.{List};
    ghost use Rattle.cx_bind.specs.declared.parameters.Extension.{Extension};
    ghost use Rattle.cx_bind.specs.NameRanges.{AreAdded};

    ghost Value = { List Extension };

    ghost view = { λ t. t.extensions };

    ghost invariant = { λ t. AreAdded t.extensions t.ranges };
}

/// Adds the ranges of an extension to those of the parameter that it extends.
fn add_extension(
    alloc: Global,
    ranges: &mut NameRanges,
    extension: &Extension,
) -> Result<(), Memory>
    ensures { OnOk result
        (AddsRanges (folded extension.now.full) extension.now.ranges ranges.old ranges.new) }
{
    ranges.add(
        alloc,
        extension.full.as_slice(),
        extension.ranges.as_slice(),
    )
}

/// For each parameter that is extended, the ranges of its extensions in their order.
fn ranges_by_names(alloc: Global, extensions: &[Extension]) -> Result<NameRanges, Memory>
    ensures { IfOk result (λ ranges. AreAdded extensions.now ranges) }
{
    let mut ranges = NameRanges::new(alloc);
    'extensions: for extension in extensions {
        add_extension(alloc, &mut ranges, extension)?;
    }
    Ok(ranges)
}

impl ExtensionTable {
    /// The table of these extensions.
    pub(crate) fn new(alloc: Global, extensions: List<Extension>) -> Result<Self, Memory>
        ensures { IfOk result (λ table. table ≡ extensions) }
    {
        let ranges = ranges_by_names(alloc, extensions.as_slice())?;
        Ok(ExtensionTable { extensions, ranges })
    }

    /// Adds what extensions add to the parameter of a full name.
    pub(crate) fn push_extra_ranges(
        &self,
        alloc: Global,
        ranges: &mut List<Range>,
        full: &[u8],
    ) -> Result<(), Memory>
        ensures { OnOk result (ranges.new ≡ ranges.old ++ added self.now full.now) }
    {
        match self.ranges.get(alloc, full)? {
            Some(more) => push_ranges(alloc, ranges, more.as_slice()),
            None => Ok(()),
        }
    }
}
