//! The values of parameters, as plain data, with tables in which they are found.

use crate::tables::{AllGiven, Slots, Uses};
use cx_param::Value;
use cx_text::{List, Text};

/// A value, and the number that stands for it: an `INT`'s own, 0 or 1 of a `BOOLEAN`, the place of a `KEYWORD` among the
/// words of its declaration and then of all extensions. A `STRING` has none.
#[derive(Debug, Drop)]
pub struct Held {
    pub value: Value,
    pub number: Option<i64>,
}

/// A parameter by its full name.
#[derive(Debug, Drop)]
pub struct Slot {
    pub full: Text,
    /// The number of its elements, if it is an array.
    pub length: Option<u32>,
    /// What each element holds that no setting sets.
    pub default: Held,
}

/// What a setting gives.
#[derive(Debug, Drop)]
pub struct Given {
    /// The place of the parameter among the slots.
    pub parameter: usize,
    /// The number of the element, 0 where the parameter isn't an array.
    pub element: u32,
    pub held: Held,
}

/// A name by which a thorn uses a parameter.
#[derive(Debug, Drop)]
pub struct Use {
    pub name: Text,
    /// The place of the parameter among the slots.
    pub parameter: usize,
}

/// The values of all parameters.
#[derive(Debug, Drop)]
pub struct Values {
    /// The parameters: the built-in ones, and then the thorns', in the order of activation and of their files.
    pub slots: Slots,
    /// What settings give, in the order of the file.
    pub given: AllGiven,
    /// Of each thorn its own parameters, and then those that it uses and extends.
    pub uses: List<Uses>,
    /// The global parameters, which all thorns use.
    pub globals: Uses,
}
