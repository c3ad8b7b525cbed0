//! The numbers and the texts of a run, by the values of parameters.

ghost use Rattle.std.specs.Prelude.{◌≡◌, IfOk};
ghost use Rattle.cx_job_values.specs.RunNumbers.{while_limit, lead, balance, weight_name, weight_factor, out_every, keep, out_dir, checkpoint_dir, steer_file, recover_by, recover_of};

use crate::built_in::text_copy;
use cx_plan::Recover;
use cx_text::{Memory, Text};
use cx_values::{Values, holds_at, natural_within, number_at, number_within};
use std::alloc::Global;

/// How many turns a WHILE takes at most.
pub fn while_limit(alloc: Global, values: &Values) -> Result<u64, Memory>
    ensures { IfOk result (λ n. n ≡ while_limit values.now) }
{
    let n = natural_within(alloc, values, 1, 1_000_000, b"driver::while_limit")?;
    Ok(u64::from(n))
}

/// How many iterations a part may be ahead of another one.
pub fn lead(alloc: Global, values: &Values) -> Result<u64, Memory>
    ensures { IfOk result (λ n. n ≡ lead values.now) }
{
    let n = natural_within(alloc, values, 0, 64, b"driver::lead")?;
    Ok(u64::from(n))
}

/// Whether a checkpoint cuts the grid anew.
pub fn balance(alloc: Global, values: &Values) -> Result<bool, Memory>
    ensures { IfOk result (λ flag. flag ≡ balance values.now) }
{
    holds_at(alloc, values, b"driver::balance")
}

/// The name of the variable that weighs, empty where each point weighs 1.
pub fn weight_name(alloc: Global, values: &Values) -> Result<Text, Memory>
    ensures { IfOk result (λ name. name ≡ weight_name values.now) }
{
    text_copy(alloc, values, b"driver::weight")
}

/// By what the numbers of the variable that weighs are multiplied.
pub fn weight_factor(alloc: Global, values: &Values) -> Result<u64, Memory>
    ensures { IfOk result (λ n. n ≡ weight_factor values.now) }
{
    let n = natural_within(alloc, values, 0, 1_048_576, b"driver::weight_factor")?;
    Ok(u64::from(n))
}

/// At which iterations output is written.
pub fn out_every(alloc: Global, values: &Values) -> Result<i64, Memory>
    ensures { IfOk result (λ n. n ≡ out_every values.now) }
{
    number_within(alloc, values, -1, 1_000_000, b"IO::out_every")
}

/// The number of the last checkpoint slot that is used.
pub fn keep(alloc: Global, values: &Values) -> Result<u32, Memory>
    ensures { IfOk result (λ n. n ≡ keep values.now) }
{
    natural_within(alloc, values, 1, 7, b"IO::checkpoint_keep")
}

/// The folder of the output.
pub fn out_dir(alloc: Global, values: &Values) -> Result<Text, Memory>
    ensures { IfOk result (λ dir. dir ≡ out_dir values.now) }
{
    text_copy(alloc, values, b"IO::out_dir")
}

/// The folder of the checkpoints.
pub fn checkpoint_dir(alloc: Global, values: &Values) -> Result<Text, Memory>
    ensures { IfOk result (λ dir. dir ≡ checkpoint_dir values.now) }
{
    text_copy(alloc, values, b"IO::checkpoint_dir")
}

/// The name of the steer file, empty where no file steers.
pub fn steer_file(alloc: Global, values: &Values) -> Result<Text, Memory>
    ensures { IfOk result (λ name. name ≡ steer_file values.now) }
{
    text_copy(alloc, values, b"IO::steer_file")
}

/// How a run begins, by the place of the word among `no`, `auto` and `autoprobe`.
fn recover_by(place: i64) -> Recover
    ensures { result ≡ recover_by place }
{
    match place {
        1 => Recover::Auto,
        2 => Recover::Autoprobe,
        _ => Recover::No,
    }
}

/// How a run begins.
pub fn recover_of(alloc: Global, values: &Values) -> Result<Recover, Memory>
    ensures { IfOk result (λ recover. recover ≡ recover_of values.now) }
{
    let full = Text::from_slice(alloc, b"IO::recover")?;
    Ok(recover_by(number_at(values, &full)))
}
