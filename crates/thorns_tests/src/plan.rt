//! Bins, and past levels as texts have them.

use cx_plan::{Bin, Region, level_text, region_text};
use std::alloc::Global;
use std::test::Fail;
use test_cases::same;

/// A full name, how many levels back, and the name of that level.
type Past = (&'static str, u8, &'static str);

const PAST: &[Past] = &[
    ("wave::phi", 0, "wave::phi"),
    ("wave::phi", 2, "wave::phi_p_p"),
    ("wave::phi[2]", 1, "wave::phi_p[2]"),
    ("O[d::a", 1, "O[d::a_p"),
    ("O[d::a[2]", 1, "O[d::a_p[2]"),
];

/// A level has the name that its row says.
fn level_is_named(alloc: Global, past: &Past) -> Result<(), Fail> {
    let (full, level, want) = *past;
    let text = level_text(alloc, full.as_bytes(), level)?;
    same(
        &("level", level, "of", full),
        &text.as_slice(),
        &want.as_bytes(),
    )
}

#[test]
fn past_levels_stand_before_the_bracket_of_a_copy(rt: HostRuntime) -> Result<(), Fail> {
    for past in PAST {
        level_is_named(rt.alloc(), past)?;
    }
    Ok(())
}

/// A bin has the number of its place, and the first 13 are run.
fn bin_stands(place: usize, bin: &Bin) -> Result<(), Fail> {
    let found = (bin.number(), bin.is_run());
    same(&("bin", place), &found, &(place, place < 13))
}

/// The names of the first and the last bin, and of a region.
fn names() -> [&'static [u8]; 3] {
    [
        Bin::Startup.name(),
        Bin::PostRecoverVariables.name(),
        region_text(Region::Everywhere),
    ]
}

const NAMES: [&[u8]; 3] = [b"STARTUP", b"POST_RECOVER_VARIABLES", b"everywhere"];

#[test]
fn bins_stand_at_their_numbers() -> Result<(), Fail> {
    for (place, bin) in Bin::ALL.iter().enumerate() {
        bin_stands(place, bin)?;
    }
    same(
        &"the first bin, the last one, and a region",
        &names(),
        &NAMES,
    )
}
