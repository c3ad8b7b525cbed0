//! The built-in parameters.

ghost use Rattle.std.specs.Prelude.{◌≡◌, ◌++◌, ◌∷◌, [], codes, IfOk, OnOk, None, Some};
ghost use Rattle.cx_param.specs.declared.declarations.PType.TheVariants as ptypes;
ghost use Rattle.cx_param.specs.declared.ranges.Range.TheVariants as kinds;
ghost use Rattle.cx_bind.specs.BuiltIn.{from_to, parameter, int_parameter, unset_parameter, flag_parameter, text_parameter, terminate_parameter, cactus_parameters, grid_parameters, ghost_parameters, periodic_parameters, part_parameters, width_parameters, turn_parameters, balance_parameters, output_parameters, checkpoint_parameters, recover_parameter, recover_parameters, steer_parameters, driver_parameters, io_parameters, table};

use crate::Param;
use crate::copies::copy_ranges;
use crate::names::full_name;
use cx_param::{PType, ParamDecl, Range, Scope, Steer};
use cx_text::{List, Memory, Text};
use std::alloc::Global;

/// The greatest number of points of a direction.
const MAX_POINTS: i64 = 16_777_216;

/// The numbers between two ends, both among them.
fn from_to(ends: (i64, i64)) -> Range
    ensures { result ≡ from_to ends.0 ends.1 }
{
    Range::Ints {
        low: Some(ends.0),
        low_in: true,
        high: Some(ends.1),
        high_in: true,
        step: 1,
    }
}

/// Whose a built-in parameter is: the number of its thorn, and the implementation before the `::` of its full name.
#[derive(Clone, Copy)]
struct Owner<'a> {
    number: u32,
    implementation: &'a [u8],
}

/// A restricted parameter of a built-in thorn, which is never steered.
fn parameter(
    alloc: Global,
    owner: &Owner<'_>,
    ptype: PType,
    name: &[u8],
    ranges: List<Range>,
    default: &[u8],
) -> Result<Param, Memory>
    ensures { IfOk result
        (λ p. p
        ≡ parameter owner.now.number owner.now.implementation.now ptype name.now ranges
        default.now) }
{
    Ok(Param {
        full: full_name(alloc, owner.implementation, name)?,
        thorn: owner.number,
        ranges: copy_ranges(alloc, ranges.as_slice())?,
        decl: ParamDecl {
            scope: Scope::Restricted,
            ptype,
            name: Text::from_slice(alloc, name)?,
            length: None,
            alias: None,
            steer: Steer::Never,
            ranges,
            default: Some(Text::from_slice(alloc, default)?),
        },
    })
}

/// Adds a built-in number between two ends.
fn push_int(
    alloc: Global,
    table: &mut List<Param>,
    owner: &Owner<'_>,
    name: &[u8],
    ends: (i64, i64),
    default: &[u8],
) -> Result<(), Memory>
    ensures { OnOk result
        (table.new ≡ table.old
        ++ int_parameter owner.now.number owner.now.implementation.now name.now ends.0 ends.1
        default.now ∷ []) }
{
    let mut ranges = List::empty(alloc);
    ranges.push(from_to(ends))?;
    table.push(parameter(alloc, owner, PType::Int, name, ranges, default)?)
}

/// A number of a range, or -1.
fn push_unset(
    alloc: Global,
    table: &mut List<Param>,
    owner: &Owner<'_>,
    name: &[u8],
    ends: (i64, i64),
    default: &[u8],
) -> Result<(), Memory>
    ensures { OnOk result
        (table.new ≡ table.old
        ++ unset_parameter owner.now.number owner.now.implementation.now name.now ends.0
        ends.1 default.now ∷ []) }
{
    let mut ranges = List::empty(alloc);
    ranges.push(from_to((-1, -1)))?;
    ranges.push(from_to(ends))?;
    table.push(parameter(alloc, owner, PType::Int, name, ranges, default)?)
}

/// Adds a built-in yes or no.
fn push_flag(
    alloc: Global,
    table: &mut List<Param>,
    owner: &Owner<'_>,
    name: &[u8],
    default: &[u8],
) -> Result<(), Memory>
    ensures { OnOk result
        (table.new ≡ table.old
        ++ flag_parameter owner.now.number owner.now.implementation.now name.now default.now
        ∷ []) }
{
    let ranges = List::empty(alloc);
    table.push(parameter(alloc, owner, PType::Boolean, name, ranges, default)?)
}

/// Adds a built-in text, which may be any.
fn push_text(
    alloc: Global,
    table: &mut List<Param>,
    owner: &Owner<'_>,
    name: &[u8],
    default: &[u8],
) -> Result<(), Memory>
    ensures { OnOk result
        (table.new ≡ table.old
        ++ text_parameter owner.now.number owner.now.implementation.now name.now default.now
        ∷ []) }
{
    let mut ranges = List::empty(alloc);
    ranges.push(Range::AnyText)?;
    table.push(parameter(alloc, owner, PType::String, name, ranges, default)?)
}

/// Adds a word to those that a keyword may be.
fn push_word(alloc: Global, words: &mut List<Range>, word: &[u8]) -> Result<(), Memory>
    ensures { OnOk result (words.new ≡ words.old ++ kinds.Word word.now ∷ []) }
{
    words.push(Range::Word(Text::from_slice(alloc, word)?))
}

/// Adds a built-in keyword with its words.
fn push_keyword(
    alloc: Global,
    table: &mut List<Param>,
    owner: &Owner<'_>,
    name: &[u8],
    words: List<Range>,
    default: &[u8],
) -> Result<(), Memory>
    ensures { OnOk result
        (table.new ≡ table.old
        ++ parameter owner.now.number owner.now.implementation.now ptypes.Keyword name.now
        words default.now ∷ []) }
{
    table.push(parameter(alloc, owner, PType::Keyword, name, words, default)?)
}

/// The parameter that says when a run ends.
fn push_terminate(alloc: Global, table: &mut List<Param>, n: u32) -> Result<(), Memory>
    ensures { OnOk result (table.new ≡ table.old ++ terminate_parameter n ∷ []) }
{
    let owner = Owner {
        number: n,
        implementation: b"Cactus",
    };
    let mut words = List::empty(alloc);
    push_word(alloc, &mut words, b"iteration")?;
    push_keyword(alloc, table, &owner, b"terminate", words, b"iteration")
}

/// Adds the parameters of `Cactus`: the last iteration, the run's title and when it ends.
fn push_cactus(alloc: Global, table: &mut List<Param>, n: u32) -> Result<(), Memory>
    ensures { OnOk result (table.new ≡ table.old ++ cactus_parameters n) }
{
    let owner = Owner {
        number: n,
        implementation: b"Cactus",
    };
    push_int(alloc, table, &owner, b"cctk_itlast", (0, 1_000_000), b"10")?;
    push_text(alloc, table, &owner, b"cctk_run_title", b"")?;
    push_terminate(alloc, table, n)?;
    Ok(())
}

/// Adds the numbers of points in the three directions, and the one for all of them.
fn push_grid(alloc: Global, table: &mut List<Param>, n: u32) -> Result<(), Memory>
    ensures { OnOk result (table.new ≡ table.old ++ grid_parameters n) }
{
    let owner = Owner {
        number: n,
        implementation: b"driver",
    };
    push_int(alloc, table, &owner, b"global_nx", (1, MAX_POINTS), b"10")?;
    push_int(alloc, table, &owner, b"global_ny", (1, MAX_POINTS), b"10")?;
    push_int(alloc, table, &owner, b"global_nz", (1, MAX_POINTS), b"10")?;
    push_unset(
        alloc,
        table,
        &owner,
        b"global_nsize",
        (1, MAX_POINTS),
        b"-1",
    )?;
    Ok(())
}

/// Adds the ghost widths of the three directions, and the one for all of them.
fn push_ghosts(alloc: Global, table: &mut List<Param>, n: u32) -> Result<(), Memory>
    ensures { OnOk result (table.new ≡ table.old ++ ghost_parameters n) }
{
    let owner = Owner {
        number: n,
        implementation: b"driver",
    };
    push_unset(alloc, table, &owner, b"ghost_size", (0, 8), b"-1")?;
    push_int(alloc, table, &owner, b"ghost_size_x", (0, 8), b"1")?;
    push_int(alloc, table, &owner, b"ghost_size_y", (0, 8), b"1")?;
    push_int(alloc, table, &owner, b"ghost_size_z", (0, 8), b"1")?;
    Ok(())
}

/// Adds which directions are periodic.
fn push_periodic(alloc: Global, table: &mut List<Param>, n: u32) -> Result<(), Memory>
    ensures { OnOk result (table.new ≡ table.old ++ periodic_parameters n) }
{
    let owner = Owner {
        number: n,
        implementation: b"driver",
    };
    push_flag(alloc, table, &owner, b"periodic", b"no")?;
    push_flag(alloc, table, &owner, b"periodic_x", b"yes")?;
    push_flag(alloc, table, &owner, b"periodic_y", b"yes")?;
    push_flag(alloc, table, &owner, b"periodic_z", b"yes")?;
    Ok(())
}

/// Adds the numbers of parts in the three directions.
fn push_parts(alloc: Global, table: &mut List<Param>, n: u32) -> Result<(), Memory>
    ensures { OnOk result (table.new ≡ table.old ++ part_parameters n) }
{
    let owner = Owner {
        number: n,
        implementation: b"driver",
    };
    push_int(alloc, table, &owner, b"parts_x", (1, 512), b"1")?;
    push_int(alloc, table, &owner, b"parts_y", (1, 512), b"1")?;
    push_int(alloc, table, &owner, b"parts_z", (1, 512), b"1")?;
    Ok(())
}

/// Adds the widths of the parts in the three directions.
fn push_widths(alloc: Global, table: &mut List<Param>, n: u32) -> Result<(), Memory>
    ensures { OnOk result (table.new ≡ table.old ++ width_parameters n) }
{
    let owner = Owner {
        number: n,
        implementation: b"driver",
    };
    push_text(alloc, table, &owner, b"widths_x", b"")?;
    push_text(alloc, table, &owner, b"widths_y", b"")?;
    push_text(alloc, table, &owner, b"widths_z", b"")?;
    Ok(())
}

/// Adds how far parts may run ahead of each other, and the most passes of a `WHILE`.
fn push_turns(alloc: Global, table: &mut List<Param>, n: u32) -> Result<(), Memory>
    ensures { OnOk result (table.new ≡ table.old ++ turn_parameters n) }
{
    let owner = Owner {
        number: n,
        implementation: b"driver",
    };
    push_int(alloc, table, &owner, b"lead", (0, 64), b"0")?;
    push_int(
        alloc,
        table,
        &owner,
        b"while_limit",
        (1, 1_000_000),
        b"1000",
    )?;
    Ok(())
}

/// Adds where, what and how often a run writes output.
fn push_output(alloc: Global, table: &mut List<Param>, n: u32) -> Result<(), Memory>
    ensures { OnOk result (table.new ≡ table.old ++ output_parameters n) }
{
    let owner = Owner {
        number: n,
        implementation: b"IO",
    };
    push_text(alloc, table, &owner, b"out_dir", b".")?;
    push_text(alloc, table, &owner, b"out_vars", b"")?;
    push_int(alloc, table, &owner, b"out_every", (-1, 1_000_000), b"1")?;
    Ok(())
}

/// Adds where and how often a run saves checkpoints, and how many it keeps.
fn push_checkpoint(alloc: Global, table: &mut List<Param>, n: u32) -> Result<(), Memory>
    ensures { OnOk result (table.new ≡ table.old ++ checkpoint_parameters n) }
{
    let owner = Owner {
        number: n,
        implementation: b"IO",
    };
    push_int(
        alloc,
        table,
        &owner,
        b"checkpoint_every",
        (-1, 1_000_000),
        b"-1",
    )?;
    push_int(alloc, table, &owner, b"checkpoint_keep", (1, 7), b"1")?;
    push_flag(alloc, table, &owner, b"checkpoint_on_terminate", b"no")?;
    push_text(alloc, table, &owner, b"checkpoint_dir", b".")?;
    Ok(())
}

/// The words of `IO::recover`: no, auto and autoprobe.
fn recover_words(alloc: Global) -> Result<List<Range>, Memory>
    ensures { IfOk result
        (λ words. words ≡ kinds.Word (codes "no") ∷ kinds.Word (codes "auto")
        ∷ kinds.Word (codes "autoprobe") ∷ []) }
{
    let mut words = List::empty(alloc);
    push_word(alloc, &mut words, b"no")?;
    push_word(alloc, &mut words, b"auto")?;
    push_word(alloc, &mut words, b"autoprobe")?;
    Ok(words)
}

/// The parameter that says how a run begins.
fn push_mode(alloc: Global, table: &mut List<Param>, n: u32) -> Result<(), Memory>
    ensures { OnOk result (table.new ≡ table.old ++ recover_parameter n ∷ []) }
{
    let owner = Owner {
        number: n,
        implementation: b"IO",
    };
    let words = recover_words(alloc)?;
    push_keyword(alloc, table, &owner, b"recover", words, b"no")?;
    Ok(())
}

/// Adds whether and from where a run resumes from a checkpoint.
fn push_recover(alloc: Global, table: &mut List<Param>, n: u32) -> Result<(), Memory>
    ensures { OnOk result (table.new ≡ table.old ++ recover_parameters n) }
{
    let owner = Owner {
        number: n,
        implementation: b"IO",
    };
    push_text(alloc, table, &owner, b"recover_dir", b".")?;
    push_mode(alloc, table, n)?;
    push_flag(alloc, table, &owner, b"checkpoint_ID", b"no")?;
    Ok(())
}

/// Adds the name of the steer file.
fn push_steer(alloc: Global, table: &mut List<Param>, n: u32) -> Result<(), Memory>
    ensures { OnOk result (table.new ≡ table.old ++ steer_parameters n) }
{
    let owner = Owner {
        number: n,
        implementation: b"IO",
    };
    push_text(alloc, table, &owner, b"steer_file", b"")
}

/// Adds whether a checkpoint cuts the grid anew, and what its points weigh.
fn push_balance(alloc: Global, table: &mut List<Param>, n: u32) -> Result<(), Memory>
    ensures { OnOk result (table.new ≡ table.old ++ balance_parameters n) }
{
    let owner = Owner {
        number: n,
        implementation: b"driver",
    };
    push_flag(alloc, table, &owner, b"balance", b"no")?;
    push_text(alloc, table, &owner, b"weight", b"")?;
    push_int(alloc, table, &owner, b"weight_factor", (0, 1_048_576), b"1")?;
    Ok(())
}

/// Adds the parameters of the driver, in the order of their numbers.
fn push_driver(alloc: Global, table: &mut List<Param>, n: u32) -> Result<(), Memory>
    ensures { OnOk result (table.new ≡ table.old ++ driver_parameters n) }
{
    push_grid(alloc, table, n)?;
    push_ghosts(alloc, table, n)?;
    push_periodic(alloc, table, n)?;
    push_parts(alloc, table, n)?;
    push_widths(alloc, table, n)?;
    push_turns(alloc, table, n)?;
    Ok(())
}

/// Adds the parameters of `IO`, in the order of their numbers.
fn push_io(alloc: Global, table: &mut List<Param>, n: u32) -> Result<(), Memory>
    ensures { OnOk result (table.new ≡ table.old ++ io_parameters n) }
{
    push_output(alloc, table, n)?;
    push_checkpoint(alloc, table, n)?;
    push_recover(alloc, table, n)?;
    push_steer(alloc, table, n)?;
    Ok(())
}

/// All built-in parameters, for so many thorns.
pub(crate) fn table(alloc: Global, n: u32) -> Result<List<Param>, Memory>
    ensures { IfOk result (λ params. params ≡ table n) }
{
    let mut params = List::empty(alloc);
    push_cactus(alloc, &mut params, n)?;
    push_driver(alloc, &mut params, n)?;
    push_io(alloc, &mut params, n)?;
    push_balance(alloc, &mut params, n)?;
    Ok(params)
}
