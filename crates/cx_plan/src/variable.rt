//! Variables.

ghost use Rattle.std.specs.Prelude.{◌≡◌};
ghost use Rattle.cx_plan.specs.Types.{least, greatest};

use cx_text::{CType, Text};

/// A variable's number: its place among all variables.
#[derive(Clone, Copy, Debug, Drop, PartialEq, Eq)]
pub struct VarId(pub u32);

/// What is known of a variable.
#[derive(Debug, Drop)]
pub struct VarInfo {
    /// Its full name, as `implementation::name` or `thorn::name`.
    pub full: Text,
    pub ctype: CType,
    /// Whether it is one number, and no grid function.
    pub scalar: bool,
    /// How many time levels it has: the declared ones, and in a job the stored ones.
    pub levels: u8,
}

impl VarInfo {
    /// The least value that it can have: 0 for a BYTE, and that of 16, 32 or 64 signed bits.
    pub fn low(&self) -> i64
        ensures { result ≡ least self.now.ctype }
    {
        match self.ctype {
            CType::Byte => 0,
            CType::Int2 => i16::MIN as i64,
            CType::Int4 => i32::MIN as i64,
            CType::Int | CType::Int8 | CType::Char | CType::Real | CType::Complex => i64::MIN,
        }
    }

    /// The greatest value that it can have: 255 for a BYTE, and that of 16, 32 or 64 signed bits.
    pub fn high(&self) -> i64
        ensures { result ≡ greatest self.now.ctype }
    {
        match self.ctype {
            CType::Byte => 255,
            CType::Int2 => i16::MAX as i64,
            CType::Int4 => i32::MAX as i64,
            CType::Int | CType::Int8 | CType::Char | CType::Real | CType::Complex => i64::MAX,
        }
    }
}
