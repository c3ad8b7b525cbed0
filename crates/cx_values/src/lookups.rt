//! What is told of values.

ghost use Rattle.std.specs.Prelude.{◌≡◌, Some, find, position};
ghost use Rattle.std.specs.Option.{option_copied};
ghost use Rattle.cx_text.specs.Lexemes.{same_name};
ghost use Rattle.cx_plan.specs.Lists.{or_else};
ghost use Rattle.cx_expr.specs.Known.{known};
ghost use Rattle.cx_values.specs.Naming.{element};
ghost use Rattle.cx_values.specs.Assigned.{is_given, held_in, holds, held_named, get, number, known_value, known_held, used_as, thorn_finds};

use crate::tables::{AllGiven, Uses};
use crate::values::{Held, Slot, Values};
use cx_expr::{Found, Lookup};
use cx_param::Value;
use cx_text::Text;

/// The element that an index names.
pub(crate) fn element(length: Option<u32>, index: Option<u32>) -> Option<u32>
    ensures { result ≡ element length index }
{
    match (length, index) {
        (None, None) => Some(0),
        (Some(length), Some(index)) if index < length => Some(index),
        _ => None,
    }
}

/// The value that a setting gives an element; where nothing sets it, the parameter's default.
fn held_in<'a>(given: &'a AllGiven, parameter: usize, slot: &'a Slot, element: u32) -> &'a Held
    ensures { result.now ≡ held_in given.now parameter slot.now element }
{
    match given.find(parameter, element) {
        Some(one) => &one.held,
        None => &slot.default,
    }
}

/// The parameter that a name names among a thorn's own uses, else among those of all thorns.
fn used_by_any(uses: &Uses, globals: &Uses, name: &[u8]) -> Option<usize>
    ensures { result ≡ or_else (used_as name.now uses.now) (used_as name.now globals.now) }
{
    match uses.find(name) {
        Some(parameter) => Some(parameter),
        None => globals.find(name),
    }
}

impl Values {
    /// What a parameter holds, at an element if it is an array. None for an index that it doesn't have.
    fn find_held(&self, index: Option<u32>, parameter: usize) -> Option<&Held>
        ensures { option_copied result ≡ holds self.now index parameter }
    {
        let slot = self.slots.as_slice().get(parameter)?;
        let element = element(slot.length, index)?;
        Some(held_in(&self.given, parameter, slot, element))
    }

    /// What the parameter of a full name holds, at an element if it is an array.
    fn find_by_name(&self, full: &Text, index: Option<u32>) -> Option<&Held>
        ensures { option_copied result ≡ held_named self.now full.now index }
    {
        let parameter = self.slots.find(full.as_slice())?;
        self.find_held(index, parameter)
    }

    /// The value of a parameter by its full name, or with an index that of an element of an array.
    ///
    /// None where no parameter has this full name, where an array is asked for without an index or another parameter
    /// with one, and where the index isn't below the array's length.
    pub fn get(&self, full: &Text, index: Option<u32>) -> Option<&Value>
        ensures { option_copied result ≡ get self.now full.now index }
    {
        match self.find_by_name(full, index) {
            Some(held) => Some(&held.value),
            None => None,
        }
    }

    /// The number of a parameter's value: an `INT`'s own, 0 or 1 of a `BOOLEAN`, and of a `KEYWORD` its place among the
    /// words of the declaration and of all extensions.
    ///
    /// None where `get` answers None, and for a `STRING`.
    pub fn number(&self, full: &Text, index: Option<u32>) -> Option<i64>
        ensures { result ≡ number self.now full.now index }
    {
        match self.find_by_name(full, index) {
            Some(held) => held.number,
            None => None,
        }
    }

    /// The values as the expressions of a thorn see them, by the thorn's number in the order of activation: its own
    /// parameters, then those that it uses or extends, by the alias where one is given, then global ones.
    pub fn lookup(&self, thorn: u32) -> ThornView<'_>
        ensures values { result.values.now ≡ self.now }
        ensures thorn { result.thorn ≡ thorn }
    {
        ThornView {
            values: self,
            thorn,
        }
    }
}

/// The values as the expressions of one thorn see them.
#[derive(Clone, Copy, Debug)]
pub struct ThornView<'a> {
    pub values: &'a Values,
    /// The thorn's number in the order of activation.
    pub thorn: u32,
}

/// The value as a routine sees it: a flag is the number 0 or 1.
fn found_value(held: &Held) -> Found<'_>
    ensures { known result ≡ known_value held.now.value }
{
    match &held.value {
        Value::Number(n) => Found::Number(*n),
        Value::Flag(b) => Found::Number(i64::from(*b)),
        Value::Text(text) => Found::Text(text.as_slice()),
    }
}

impl ThornView<'_> {
    /// What the parameter holds that the thorn knows by this name, its own or one that it uses.
    fn find_held(&self, name: &Text, index: Option<u32>) -> Option<&Held>
        ensures { known_held (option_copied result)
            ≡ thorn_finds self.now.values.now self.now.thorn name.now index }
    {
        let uses = self.values.uses.as_slice().get(self.thorn as usize)?;
        let parameter = used_by_any(uses, &self.values.globals, name.as_slice())?;
        self.values.find_held(index, parameter)
    }
}

impl Lookup for ThornView<'_> {
    ghost finds = { λ v name index. thorn_finds v.values.now v.thorn name index };

    /// The value that the thorn knows by this name, at an element if the parameter is an array.
    fn find(&self, name: &Text, index: Option<u32>) -> Found<'_> {
        match self.find_held(name, index) {
            Some(held) => found_value(held),
            None => Found::Missing,
        }
    }
}
