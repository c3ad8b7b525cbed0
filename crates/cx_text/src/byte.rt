//! What a byte begins, and which bytes go on with it.

ghost use Rattle.std.specs.Prelude.{◌≡◌, ◌≤◌, length};
ghost use Rattle.std.specs.List.{prefix_len};
ghost use Rattle.cx_text.specs.Bytes.{role_of, style_role, ccl_role, par_role, thorns_role, has, goes_on, is_blank, is_in_name, is_escapable, is_quote, begins_name, is_printable, is_par_sign, is_pair, ignores_lines};

use crate::Style;

/// What a byte begins where neither a quoted text nor a comment is open.
#[derive(Clone, Copy)]
pub enum Role {
    Blank,
    LineFeed,
    Comment,
    IgnoredLine,
    Quote,
    Word,
    Number,
    /// A backslash, which joins its line to the next one.
    Joint,
    Sign,
    Bad,
}

/// Bytes of which a piece takes as many as stand there.
#[derive(Clone, Copy)]
pub enum Class {
    /// All but a line feed.
    Line,
    Blank,
    Digit,
    /// What goes on with a word.
    Word(Style),
}

/// Whether a byte is a space, a tab or a carriage return.
pub fn is_blank(byte: u8) -> bool
    ensures { result ≡ is_blank byte }
{
    byte == b' ' || byte == b'\t' || byte == b'\r'
}

/// Whether a byte is printable ASCII other than a blank.
fn is_printable(byte: u8) -> bool
    ensures { result ≡ is_printable byte }
{
    33 <= byte && byte <= 126
}

/// Whether a name can begin with this byte: a letter or an underscore.
fn begins_name(byte: u8) -> bool
    ensures { result ≡ begins_name byte }
{
    byte.is_ascii_alphabetic() || byte == b'_'
}

/// Whether a name can have this byte: a letter, a digit or an underscore.
fn is_in_name(byte: u8) -> bool
    ensures { result ≡ is_in_name byte }
{
    begins_name(byte) || byte.is_ascii_digit()
}

/// Whether a byte is a double or a single quote.
fn is_quote(byte: u8) -> bool
    ensures { result ≡ is_quote byte }
{
    byte == b'"' || byte == b'\''
}

/// Whether a backslash in a quoted text makes this byte stand for itself.
pub fn is_escapable(byte: u8) -> bool
    ensures { result ≡ is_escapable byte }
{
    is_quote(byte) || byte == b'\\'
}

/// Whether a byte is a sign of parameter files: `=`, `[` or `]`.
fn is_par_sign(byte: u8) -> bool
    ensures { result ≡ is_par_sign byte }
{
    byte == b'=' || byte == b'[' || byte == b']'
}

/// Whether two bytes are a sign: `::`, `<=`, `>=`, `==`, `!=`, `&&` or `||`.
pub fn is_pair(first: u8, second: u8) -> bool
    ensures { result ≡ is_pair first second }
{
    if second == b'=' {
        first == b'<' || first == b'>' || first == b'=' || first == b'!'
    } else {
        first == second && (first == b':' || first == b'&' || first == b'|')
    }
}

/// Whether a file of this style ignores lines that begin with `!`.
fn ignores_lines(style: Style) -> bool
    ensures { result ≡ ignores_lines style }
{
    !matches!(style, Style::Ccl)
}

/// What a byte begins in a ccl file.
fn ccl_role(byte: u8) -> Role
    ensures { result ≡ ccl_role byte }
{
    if is_quote(byte) {
        Role::Quote
    } else if begins_name(byte) {
        Role::Word
    } else if byte.is_ascii_digit() {
        Role::Number
    } else if byte == b'\\' {
        Role::Joint
    } else if is_printable(byte) {
        Role::Sign
    } else {
        Role::Bad
    }
}

/// What a byte begins in a parameter file.
fn par_role(byte: u8) -> Role
    ensures { result ≡ par_role byte }
{
    if byte == b'"' {
        Role::Quote
    } else if is_par_sign(byte) {
        Role::Sign
    } else if is_printable(byte) {
        Role::Word
    } else {
        Role::Bad
    }
}

/// What a byte begins in a list of thorns.
fn thorns_role(byte: u8) -> Role
    ensures { result ≡ thorns_role byte }
{
    if is_printable(byte) {
        Role::Word
    } else {
        Role::Bad
    }
}

/// What a byte that is no blank, line end or comment begins in a file of this style.
fn style_role(style: Style, byte: u8) -> Role
    ensures { result ≡ style_role style byte }
{
    match style {
        Style::Ccl => ccl_role(byte),
        Style::Par => par_role(byte),
        Style::Thorns => thorns_role(byte),
    }
}

/// What a byte begins. The line is fresh where nothing but blanks stands before on it.
pub fn role_of(style: Style, fresh: bool, byte: u8) -> Role
    ensures { result ≡ role_of style fresh byte }
{
    if is_blank(byte) {
        Role::Blank
    } else if byte == b'\n' {
        Role::LineFeed
    } else if byte == b'#' {
        Role::Comment
    } else if ignores_lines(style) && byte == b'!' && fresh {
        Role::IgnoredLine
    } else {
        style_role(style, byte)
    }
}

/// Whether a word goes on with this byte in a file of this style.
fn goes_on(style: Style, byte: u8) -> bool
    ensures { result ≡ goes_on style byte }
{
    match style {
        Style::Ccl => is_in_name(byte),
        Style::Par => is_printable(byte) && !(byte == b'#' || byte == b'"' || is_par_sign(byte)),
        Style::Thorns => is_printable(byte) && !(byte == b'#'),
    }
}

impl Class {
    /// Whether a byte is of the class.
    fn has(self, byte: u8) -> bool
        ensures { result ≡ has self byte }
    {
        match self {
            Class::Line => byte != b'\n',
            Class::Blank => is_blank(byte),
            Class::Digit => byte.is_ascii_digit(),
            Class::Word(style) => goes_on(style, byte),
        }
    }
}

/// How many bytes of a class stand at the front.
pub fn front_len(class: Class, bytes: &[u8]) -> usize
    ensures len { result ≡ prefix_len (has class) bytes.now }
    ensures within { result ≤ length bytes.now }
{
    for (index, byte) in bytes.iter().enumerate() {
        if !class.has(*byte) {
            return index;
        }
    }
    bytes.len()
}
