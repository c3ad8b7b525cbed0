//! The grammar of interface files as a table of rules. No token of the files is marked, so marks aren't in it.

use crate::derivations::Rules;
use crate::faults::Kind as File;
use crate::grammars::Grammar;

/// What each capital letter derives. Every other byte is a token: `5` a number, `q` a quoted text, `x` a sign that no
/// rule names, a line feed a LineEnd, a small letter a word (see `WORDS`), `w` where it is none of those.
const RULES: Rules = &[
    // file: skipped LineEnds, items before the implementation's header, that header, items behind it
    (b'C', &[b"SA"]),
    (b'A', &[b"OA", b"iS:SWLZ"]),
    (b'Z', &[b"", b"OZ"]),
    // header, access, group, line; a word that begins an attribute begins no line of these files
    (b'O', &[b"hS:NL", b"aS:S", b"cSG", b"uIL", b"XfIL"]),
    (b'X', &[b"f", b"i", b"h", b"a", b"c", b"g", b"k", b"w"]),
    // group: name, copies, attributes, text, block
    (b'G', &[b"VSKETB"]),
    (b'K', &[b"", b"[S5S]S"]),
    (b'E', &[b"", b"YE"]),
    (
        b'Y',
        &[b"tS=SgS", b"nS=S5S", b"dS=SkS", b"zS=SUF", b"mS=SqS"],
    ),
    (b'U', &[b"WS", b"5S"]),
    (b'F', &[b"", b",SUF"]),
    (b'T', &[b"", b"qS"]),
    (b'B', &[b"", b"{S}ST", b"{SWSQ}ST"]),
    (b'Q', &[b"", b"WSQ", b",SWSQ"]),
    // names of a header, and more names behind a name
    (b'N', &[b"", b"WM"]),
    (b'M', &[b"", b"WM", b",SWM"]),
    // any tokens of a line
    (b'I', &[b"", b"WI", b"5I", b"qI", b"xI", b"PI"]),
    (b'P', &[b":", b"=", b",", b"[", b"]", b"{", b"}"]),
    // a word, and one that isn't FUNCTION
    (b'W', &[b"f", b"V"]),
    (
        b'V',
        &[
            b"i", b"h", b"a", b"c", b"u", b"t", b"n", b"d", b"z", b"m", b"g", b"k", b"w",
        ],
    ),
    // LineEnd, and LineEnds that are skipped
    (b'L', &[b"\nS"]),
    (b'S', &[b"", b"\nS"]),
];

/// The words that rules name, by their letters.
const WORDS: &[(&[u8], u8)] = &[
    (b"FUNCTION", b'f'),
    (b"IMPLEMENTS", b'i'),
    (b"INHERITS", b'h'),
    (b"FRIEND", b'h'),
    (b"PUBLIC", b'a'),
    (b"PROTECTED", b'a'),
    (b"PRIVATE", b'a'),
    (b"CHAR", b'c'),
    (b"BYTE", b'c'),
    (b"INT", b'c'),
    (b"INT2", b'c'),
    (b"INT4", b'c'),
    (b"INT8", b'c'),
    (b"REAL", b'c'),
    (b"COMPLEX", b'c'),
    (b"CCTK_CHAR", b'c'),
    (b"CCTK_BYTE", b'c'),
    (b"CCTK_INT", b'c'),
    (b"CCTK_INT2", b'c'),
    (b"CCTK_INT4", b'c'),
    (b"CCTK_INT8", b'c'),
    (b"CCTK_REAL", b'c'),
    (b"CCTK_COMPLEX", b'c'),
    (b"USES", b'u'),
    (b"INCLUDE", b'u'),
    (b"INCLUDES", b'u'),
    (b"PROVIDES", b'u'),
    (b"REQUIRES", b'u'),
    (b"SUBROUTINE", b'u'),
    (b"TYPE", b't'),
    (b"DIM", b'n'),
    (b"TIMELEVELS", b'n'),
    (b"DISTRIB", b'd'),
    (b"SIZE", b'z'),
    (b"GHOSTSIZE", b'z'),
    (b"TAGS", b'm'),
    (b"GF", b'g'),
    (b"ARRAY", b'g'),
    (b"SCALAR", b'g'),
    (b"DEFAULT", b'k'),
    (b"CONSTANT", b'k'),
];

/// Interface files.
pub const INTERFACE: &Grammar = &Grammar {
    file: File::Interface,
    rules: RULES,
    start: b'C',
    words: WORDS,
    signs: b":=,[]{}",
    colons: b'x',
    quoted: b'q',
    other: b'x',
    tokens: &[],
    beginnings: &[],
    tried: b"",
    texts: &[],
    once: false,
};
