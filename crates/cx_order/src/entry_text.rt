//! The text of an entry.

ghost use Rattle.std.specs.Prelude.{◌≡◌, ◌++◌, codes, OnOk};
ghost use Rattle.std.specs.List.{flat_map};
ghost use Rattle.cx_plan.specs.Names.{full_name};
ghost use Rattle.cx_order.specs.Files.{thorn_name};
ghost use Rattle.cx_order_entries.specs.Seen.{seen_entry};
ghost use Rattle.cx_order.specs.Texts.{level_name, touch_text, touches_text, name_text, test_text, sync_text, head_text, text_by};
ghost use Rattle.cx_order.specs.Worlds.{world_of};

use crate::context::Context;
use crate::meaning::Meaning;
use cx_order_entries::Entry;
use cx_plan::{Touch, VarId, level_text, region_text};
use cx_text::{Memory, Text};

/// Adds the full name of a variable with one `_p` for each past level.
fn push_level_name(
    text: &mut Text,
    context: &Context<'_>,
    variable: VarId,
    level: u8,
) -> Result<(), Memory>
    ensures { let w = world_of context.now in
        OnOk result (text.new ≡ text.old ++ level_name w variable level) }
{
    match context.variable(variable) {
        Some(info) => {
            let name = level_text(context.alloc, info.full.as_slice(), level)?;
            text.push_slice(name.as_slice())
        }
        None => Ok(()),
    }
}

/// Adds a blank and one access: the name of its level, and its region in parentheses.
fn push_touch(text: &mut Text, context: &Context<'_>, touch: &Touch) -> Result<(), Memory>
    ensures { OnOk result (text.new ≡ text.old ++ touch_text (world_of context.now) touch.now) }
{
    text.push_slice(b" ")?;
    push_level_name(text, context, touch.var, touch.level)?;
    text.push_slice(b"(")?;
    text.push_slice(region_text(touch.region))?;
    text.push_slice(b")")
}

/// Adds the accesses in order.
fn push_each_touch(text: &mut Text, context: &Context<'_>, touches: &[Touch]) -> Result<(), Memory>
    ensures { let w = world_of context.now in
        OnOk result (text.new ≡ text.old ++ flat_map (touch_text w) touches.now) }
{
    'touches: for touch in touches {
        push_touch(text, context, touch)?;
    }
    Ok(())
}

/// Adds what is read or written behind a word, unless it is nothing.
fn push_touches(
    text: &mut Text,
    context: &Context<'_>,
    word: &[u8],
    touches: &[Touch],
) -> Result<(), Memory>
    ensures { let w = world_of context.now in
        OnOk result (text.new ≡ text.old ++ touches_text word.now w touches.now) }
{
    if touches.is_empty() {
        return Ok(());
    }
    text.push_slice(word)?;
    push_each_touch(text, context, touches)
}

/// Adds a word and the name of a scalar, if the entry has one.
fn push_name(text: &mut Text, word: &[u8], name: &Option<Text>) -> Result<(), Memory>
    ensures { OnOk result (text.new ≡ text.old ++ name_text word.now name.now) }
{
    match name {
        Some(name) => {
            text.push_slice(word)?;
            text.push_slice(name.as_slice())
        }
        None => Ok(()),
    }
}

/// Adds the scalar of IF or WHILE behind the word, if there is one.
fn push_test(
    text: &mut Text,
    context: &Context<'_>,
    word: &[u8],
    scalar: Option<VarId>,
) -> Result<(), Memory>
    ensures { let w = world_of context.now in
        OnOk result (text.new ≡ text.old ++ test_text word.now w scalar) }
{
    match scalar {
        Some(variable) => {
            text.push_slice(word)?;
            push_level_name(text, context, variable, 0)
        }
        None => Ok(()),
    }
}

/// Adds a blank and the full name of a variable.
fn push_variable(text: &mut Text, context: &Context<'_>, variable: VarId) -> Result<(), Memory>
    ensures { let w = world_of context.now in
        OnOk result (text.new ≡ text.old ++ (codes " " ++ level_name w variable 0)) }
{
    text.push_slice(b" ")?;
    push_level_name(text, context, variable, 0)
}

/// Adds the full names of variables, with a blank before each.
fn push_variables(text: &mut Text, context: &Context<'_>, variables: &[VarId]) -> Result<(), Memory>
    ensures { let w = world_of context.now in
        OnOk result (text.new
        ≡ text.old ++ flat_map (λ v. codes " " ++ level_name w v 0) variables.now) }
{
    'variables: for variable in variables {
        push_variable(text, context, *variable)?;
    }
    Ok(())
}

/// Adds the variables that the entry synchronises; nothing if there are none.
fn push_sync(text: &mut Text, context: &Context<'_>, variables: &[VarId]) -> Result<(), Memory>
    ensures { OnOk result (text.new ≡ text.old ++ sync_text (world_of context.now) variables.now) }
{
    if variables.is_empty() {
        return Ok(());
    }
    text.push_slice(b" sync")?;
    push_variables(text, context, variables)
}

/// Adds the name of the thorn of this number.
fn push_thorn_name(text: &mut Text, context: &Context<'_>, thorn: u32) -> Result<(), Memory>
    ensures { OnOk result (text.new ≡ text.old ++ thorn_name context.now.bound.now thorn) }
{
    match context.bound.thorns().as_slice().get(thorn as usize) {
        Some(thorn) => text.push_slice(thorn.name.as_slice()),
        None => Ok(()),
    }
}

/// Adds a call's routine, behind its thorn.
fn push_call(text: &mut Text, context: &Context<'_>, entry: &Entry<'_>) -> Result<(), Memory>
    ensures { let name = thorn_name context.now.bound.now entry.now.thorn in
        let called = full_name name entry.now.block.now.name in
        OnOk result (text.new ≡ text.old ++ (codes "call " ++ called)) }
{
    text.push_slice(b"call ")?;
    push_thorn_name(text, context, entry.thorn)?;
    text.push_slice(b"::")?;
    text.push_slice(entry.block.name.as_slice())
}

/// Adds what an entry is, and its own name.
fn push_head(text: &mut Text, context: &Context<'_>, entry: &Entry<'_>) -> Result<(), Memory>
    ensures { let w = world_of context.now in
        OnOk result (text.new ≡ text.old ++ head_text w (seen_entry entry.now)) }
{
    if !entry.block.group {
        return push_call(text, context, entry);
    }
    text.push_slice(b"group ")?;
    text.push_slice(entry.block.name.as_slice())
}

/// Adds an entry as the text of a schedule has it, by what its names stand for.
pub(crate) fn push_entry_text(
    text: &mut Text,
    context: &Context<'_>,
    entry: &Entry<'_>,
    meaning: &Meaning,
) -> Result<(), Memory>
    ensures { let w = world_of context.now in
        OnOk result (text.new ≡ text.old ++ text_by w (seen_entry entry.now) meaning.now) }
{
    push_head(text, context, entry)?;
    push_name(text, b" as ", &entry.block.alias)?;
    push_test(text, context, b" if ", meaning.test)?;
    push_test(text, context, b" while ", meaning.turn)?;
    push_touches(text, context, b" reads", meaning.reads.as_slice())?;
    push_touches(text, context, b" writes", meaning.writes.as_slice())?;
    push_sync(text, context, meaning.sync.as_slice())
}
