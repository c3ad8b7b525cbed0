//! What a parameter file says.

use cx_text::{List, Text};

/// One line that sets a parameter.
#[derive(Debug, Drop)]
pub struct Setting {
    /// The thorn or the implementation that the parameter is named by, if it is.
    pub owner: Option<Text>,
    /// The parameter's name.
    pub name: Text,
    /// The number of an element, from 0 to 1,023, if the parameter is an array.
    pub index: Option<u32>,
    /// The value, as it is spelled.
    pub value: Text,
    /// The line of the name, counted from 1.
    pub line: u32,
}

/// What a parameter file says.
#[derive(Debug, Drop)]
pub struct Settings {
    /// The active thorns, each once, as they are spelled where they are named first.
    pub active: List<Text>,
    /// The settings, in file order.
    pub list: List<Setting>,
}
