/// The type of a variable's or a parameter's values.
#[derive(Clone, Copy, Debug, Drop, PartialEq, Eq)]
pub enum CType {
    Char,
    Byte,
    Int,
    Int2,
    Int4,
    Int8,
    Real,
    Complex,
}
