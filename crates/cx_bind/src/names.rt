//! Full names.

ghost use Rattle.std.specs.Prelude.{◌≡◌, IfOk};
ghost use Rattle.cx_plan.specs.Names.{full_name, bracketed};

use cx_text::{Memory, Text};
use std::alloc::Global;

/// The text `owner::name`.
pub fn full_name(alloc: Global, owner: &[u8], name: &[u8]) -> Result<Text, Memory>
    ensures { IfOk result (λ full. full ≡ full_name owner.now name.now) }
{
    let mut full = Text::from_slice(alloc, owner)?;
    full.push_slice(b"::")?;
    full.push_slice(name)?;
    Ok(full)
}

/// The text `name[k]`.
pub(crate) fn bracketed_name(alloc: Global, name: &[u8], k: u32) -> Result<Text, Memory>
    ensures { IfOk result (λ text. text ≡ bracketed name.now k) }
{
    let mut text = Text::from_slice(alloc, name)?;
    text.push_slice(b"[")?;
    text.push_slice(k.to_string(alloc)?.as_bytes())?;
    text.push_slice(b"]")?;
    Ok(text)
}
