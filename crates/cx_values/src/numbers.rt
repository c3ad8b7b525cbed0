//! The numbers and the flags of built-in parameters, and when a checkpoint is due by them.

ghost use Rattle.std.specs.Prelude.{◌≡◌, ◌≤◌, ◌≤ℤ◌, IfOk};
ghost use Rattle.cx_values.specs.Numbers.{within, number_at, number_within, natural_within, is_on, holds_at, itlast, checkpoint_every, on_end, dues_of, is_due_in};

use crate::values::Values;
use cx_param::Value;
use cx_plan::is_due_by;
use cx_text::{Memory, Text};
use std::alloc::Global;

/// The iterations at which a checkpoint is due: the last iteration, how often, and whether at the end.
#[derive(Clone, Copy)]
pub struct Dues {
    pub itlast: u64,
    pub every: i64,
    pub on_end: bool,
}

/// A number between two ends is itself; any other one stands for the nearer end.
pub fn within(low: i64, high: i64, n: i64) -> i64
    requires { low ≤ℤ high }
    ensures value { result ≡ within low high n }
    ensures from { low ≤ℤ result }
    ensures to { result ≤ℤ high }
{
    n.clamp(low, high)
}

/// The number of a parameter, or 0 where there is none.
pub fn number_at(values: &Values, full: &Text) -> i64
    ensures { result ≡ number_at values.now full.now }
{
    values.number(full, None).unwrap_or(0)
}

/// The number of a parameter whose range has these ends.
pub fn number_within(
    alloc: Global,
    values: &Values,
    low: i64,
    high: i64,
    full: &[u8],
) -> Result<i64, Memory>
    requires { low ≤ℤ high }
    ensures { IfOk result (λ n. n ≡ number_within values.now low high full.now) }
{
    let full = Text::from_slice(alloc, full)?;
    Ok(within(low, high, number_at(values, &full)))
}

/// The natural number of a parameter whose range has these ends.
pub fn natural_at(values: &Values, low: u32, high: u32, full: &Text) -> u32
    requires { low ≤ high }
    ensures value { result ≡ natural_within values.now low high full.now }
    ensures from { low ≤ result }
    ensures to { result ≤ high }
{
    within(i64::from(low), i64::from(high), number_at(values, full)) as u32
}

/// The natural number of a parameter whose range has these ends.
pub fn natural_within(
    alloc: Global,
    values: &Values,
    low: u32,
    high: u32,
    full: &[u8],
) -> Result<u32, Memory>
    requires { low ≤ high }
    ensures { IfOk result (λ n. n ≡ natural_within values.now low high full.now) }
{
    let full = Text::from_slice(alloc, full)?;
    Ok(natural_at(values, low, high, &full))
}

/// Whether a value is the flag yes.
fn is_on(value: &Value) -> bool
    ensures { result ≡ is_on value.now }
{
    match value {
        Value::Flag(flag) => *flag,
        Value::Number(_) | Value::Text(_) => false,
    }
}

/// Whether a flag is on.
pub fn is_on_at(values: &Values, full: &Text) -> bool
    ensures { result ≡ holds_at values.now full.now }
{
    match values.get(full, None) {
        Some(value) => is_on(value),
        None => false,
    }
}

/// Whether a flag is on.
pub fn holds_at(alloc: Global, values: &Values, full: &[u8]) -> Result<bool, Memory>
    ensures { IfOk result (λ holds. holds ≡ holds_at values.now full.now) }
{
    let full = Text::from_slice(alloc, full)?;
    Ok(is_on_at(values, &full))
}

/// The last iteration.
pub fn itlast(alloc: Global, values: &Values) -> Result<u64, Memory>
    ensures { IfOk result (λ n. n ≡ itlast values.now) }
{
    let n = natural_within(alloc, values, 0, 1_000_000, b"Cactus::cctk_itlast")?;
    Ok(u64::from(n))
}

/// At which iterations checkpoints are written.
pub fn checkpoint_every(alloc: Global, values: &Values) -> Result<i64, Memory>
    ensures { IfOk result (λ n. n ≡ checkpoint_every values.now) }
{
    number_within(alloc, values, -1, 1_000_000, b"IO::checkpoint_every")
}

/// Whether a checkpoint is written at the last iteration.
pub fn on_end(alloc: Global, values: &Values) -> Result<bool, Memory>
    ensures { IfOk result (λ flag. flag ≡ on_end values.now) }
{
    holds_at(alloc, values, b"IO::checkpoint_on_terminate")
}

/// The iterations at which a checkpoint is due, by the values of parameters.
pub(crate) fn dues_of(alloc: Global, values: &Values) -> Result<Dues, Memory>
    ensures { IfOk result (λ dues. dues ≡ dues_of values.now) }
{
    Ok(Dues {
        itlast: itlast(alloc, values)?,
        every: checkpoint_every(alloc, values)?,
        on_end: on_end(alloc, values)?,
    })
}

/// Whether a checkpoint is due at an iteration.
pub(crate) fn is_due_in(dues: Dues, n: u64) -> bool
    ensures { result ≡ is_due_in dues n }
{
    is_due_by(dues.itlast, dues.every, dues.on_end, n)
}
