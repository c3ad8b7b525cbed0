//! The values that ranges hold.

ghost use Rattle.std.specs.Prelude.{◌≡◌};
ghost use Rattle.cx_param.specs.Ranges.{is_above, is_below, is_on_step, holds, any_holds, allows};

use cx_text::{List, Text, Token, same_name};

/// Some of the values that a parameter may have.
#[derive(Debug, Drop)]
pub enum Range {
    /// The numbers between two ends, each of which is among them or not: those that lie a whole number of steps above
    /// the low end. With no low end there is no step, and with no end at a side no bound.
    Ints {
        low: Option<i64>,
        low_in: bool,
        high: Option<i64>,
        high_in: bool,
        step: u64,
    },
    /// One word, in any case.
    Word(Text),
    /// Every text: `""` or `".*"` in a `STRING` block.
    AnyText,
    /// Every text but the empty one: `".+"` in a `STRING` block.
    SomeText,
    /// What stands in a `REAL` block.
    Other(List<Token>),
}

/// A parameter's value.
#[derive(Debug, Drop)]
pub enum Value {
    Number(i64),
    Flag(bool),
    Text(Text),
}

/// Whether a number is above the low end, or equal to one that is in the range. No low end bounds nothing.
fn is_above(low: Option<i64>, low_in: bool, n: i64) -> bool
    ensures { result ≡ is_above low low_in n }
{
    match low {
        None => true,
        Some(low) => low < n || (low_in && low == n),
    }
}

/// Whether a number is below the high end, or equal to one that is in the range. No high end bounds nothing.
fn is_below(high: Option<i64>, high_in: bool, n: i64) -> bool
    ensures { result ≡ is_below high high_in n }
{
    match high {
        None => true,
        Some(high) => n < high || (high_in && high == n),
    }
}

/// Whether a number lies a whole number of steps from the low end. Without a low end each number does.
fn is_on_step(low: Option<i64>, step: u64, n: i64) -> bool
    ensures { result ≡ is_on_step low step n }
{
    match low {
        None => true,
        Some(low) => {
            if step == 0 {
                n == low
            } else {
                n.abs_diff(low) % step == 0
            }
        }
    }
}

impl Range {
    /// Whether the range holds a value. A word holds its spellings in any case. No range holds a flag, and none holds
    /// a value of another type.
    pub fn holds(&self, v: &Value) -> bool
        // The numbers between the ends and on a step from the low one, the spellings of a word, all texts, or all but
        // the empty one.
        ensures { result ≡ holds self.now v.now }
    {
        match (self, v) {
            (
                Range::Ints {
                    low,
                    low_in,
                    high,
                    high_in,
                    step,
                },
                Value::Number(n),
            ) => is_above(*low, *low_in, *n)
                && is_below(*high, *high_in, *n)
                && is_on_step(*low, *step, *n),
            (Range::Word(word), Value::Text(text)) => same_name(word.as_slice(), text.as_slice()),
            (Range::AnyText, Value::Text(_)) => true,
            (Range::SomeText, Value::Text(text)) => text.len() > 0,
            _ => false,
        }
    }
}

/// Whether one of the ranges holds the value.
fn any_holds(ranges: &[Range], v: &Value) -> bool
    ensures { result ≡ any_holds ranges.now v.now }
{
    ranges.iter().any(|range| range.holds(v))
}

/// Whether these ranges allow a value: one of them holds it, or it is a flag, since what stands in the block of a
/// `BOOLEAN` has no effect. So no range at all allows no number and no text.
pub fn allows(ranges: &List<Range>, v: &Value) -> bool
    // Every flag, and of the other values those that some range holds.
    ensures { result ≡ allows ranges.now v.now }
{
    match v {
        Value::Flag(_) => true,
        Value::Number(_) | Value::Text(_) => any_holds(ranges.as_slice(), v),
    }
}
