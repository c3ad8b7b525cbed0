//! Names as texts have them.
ghost use Rattle.std.specs.Prelude.{◌≡◌, ◌≤◌, ◌++◌, length, IfOk, OnOk};
ghost use Rattle.cx_plan.specs.Names.{region_text, past, last_bracket, ends_with_bracket, bracket_of, level_text};

use crate::Region;
use cx_text::{Memory, Text};
use std::alloc::Global;

/// A region's word.
pub fn region_text(region: Region) -> &'static [u8]
    ensures { result.now ≡ region_text region }
{
    match region {
        Region::Interior => b"interior",
        Region::Boundary => b"boundary",
        Region::Everywhere => b"everywhere",
    }
}

/// Adds `_p` once for each level back.
fn push_past(text: &mut Text, level: u8) -> Result<(), Memory>
    ensures { OnOk result (text.new ≡ text.old ++ past level) }
{
    'levels: for _ in 0..level {
        text.push_slice(b"_p")?;
    }
    Ok(())
}

/// The place of the last `[`, or the end.
fn last_bracket(full: &[u8]) -> usize
    ensures place { result ≡ last_bracket (length full.now) 0 full.now }
    ensures within { result ≤ length full.now }
{
    let mut place = full.len();
    'bytes: for k in 0..full.len() {
        if full[k] == b'[' {
            place = k;
        }
    }
    place
}

/// Whether a full name ends with the number of a copy.
fn ends_with_bracket(full: &[u8]) -> bool
    ensures { result ≡ ends_with_bracket full.now }
{
    !full.is_empty() && full[full.len() - 1] == b']'
}

/// Where the bracket of a copy begins, or the end.
fn bracket_of(full: &[u8]) -> usize
    ensures place { result ≡ bracket_of full.now }
    ensures within { result ≤ length full.now }
{
    if ends_with_bracket(full) {
        last_bracket(full)
    } else {
        full.len()
    }
}

/// Adds a variable's full name with a level's `_p`.
fn push_level(text: &mut Text, full: &[u8], level: u8) -> Result<(), Memory>
    ensures { OnOk result (text.new ≡ text.old ++ level_text full.now level) }
{
    let bracket = bracket_of(full);
    text.push_slice(&full[..bracket])?;
    push_past(text, level)?;
    text.push_slice(&full[bracket..])
}

/// A variable's full name with `_p` once for each level back, before the bracket of a copy: `wave::phi_p` is `wave::phi` one
/// level back, `wave::phi_p[2]` is `wave::phi[2]`.
///
/// # Errors
///
/// `Memory` where there is no room for it.
pub fn level_text(alloc: Global, full: &[u8], level: u8) -> Result<Text, Memory>
    ensures { IfOk result (λ text. text ≡ level_text full.now level) }
{
    let mut text = Text::new(Vec::new(alloc));
    push_level(&mut text, full, level)?;
    Ok(text)
}
