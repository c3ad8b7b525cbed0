//! The grammars of configuration files and of thorn lists as tables of rules.

use crate::configurations::{BOX, FILE};
use crate::derivations::Rules;
use crate::faults::Kind as File;
use crate::grammars::Grammar;
use cx_text::Kind;

/// What each capital letter derives. Every other byte is a token: `p`, `o`, `r` and `t` the keywords, `w` another word,
/// `a` a thorn in its arrangement, `5` what no rule names, a line feed a LineEnd.
const RULES: Rules = &[
    // configuration: skipped LineEnds, entries
    (b'C', &[b"SF"]),
    (b'F', &[b"", b"EF"]),
    (b'E', &[b"pSWS{I}S", b"oSWS{I}S", b"rStS:NL", b"rSVML"]),
    // any tokens inside braces
    (b'I', &[b"", b"WI", b"{I", b":I", b",I", b"\nI", b"5I"]),
    // names, and more names behind a name
    (b'N', &[b"", b"WM"]),
    (b'M', &[b"", b"WM", b",SWM"]),
    // a word, and one that isn't THORNS
    (b'W', &[b"t", b"V"]),
    (b'V', &[b"p", b"o", b"r", b"w"]),
    // LineEnd, and LineEnds that are skipped
    (b'L', &[b"\nS"]),
    (b'S', &[b"", b"\nS"]),
    // thorn list
    (b'P', &[b"", b"a\nP"]),
];

/// The words that rules name, by their letters.
const WORDS: &[(&[u8], u8)] = &[
    (b"PROVIDES", b'p'),
    (b"OPTIONAL", b'o'),
    (b"REQUIRES", b'r'),
    (b"THORNS", b't'),
];

/// Tokens, by their letters.
const TOKENS: &[(u8, Kind, &[u8])] = &[
    (b'p', Kind::Word, b"PROVIDES"),
    (b'o', Kind::Word, b"Optional"),
    (b'r', Kind::Word, b"requires"),
    (b't', Kind::Word, b"THORNS"),
    (b'w', Kind::Word, b"MPI"),
    (b'a', Kind::Word, b"CactusPUGH/PUGH"),
    (b'\n', Kind::LineEnd, b""),
    (b'5', Kind::Number, b"5"),
];

/// Configuration files.
pub const CONFIGURATION: &Grammar = &Grammar {
    file: File::Configuration,
    rules: RULES,
    start: b'C',
    words: WORDS,
    signs: b"{}:,",
    colons: b'5',
    quoted: b'5',
    other: b'5',
    tokens: TOKENS,
    beginnings: &[
        b"", b"o", b"pw{", b"r", b"rw", b"rw\n\n", b"rt\n", b"rt:", b"rt:w,", b"pw{5}",
    ],
    tried: b"portw{}:,\n5",
    texts: &[FILE],
    once: false,
};

/// Thorn lists.
pub const THORN_LIST: &Grammar = &Grammar {
    file: File::ThornList,
    rules: RULES,
    start: b'P',
    words: &[],
    signs: b"{}:,",
    colons: b'5',
    quoted: b'5',
    other: b'5',
    tokens: TOKENS,
    beginnings: &[b"", b"a", b"a\n"],
    tried: b"aw\n5",
    texts: &[BOX],
    once: false,
};
