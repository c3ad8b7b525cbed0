//! The grammar of param files as a table of rules.

use crate::derivations::Rules;
use crate::faults::Kind as File;
use crate::grammars::Grammar;

/// What each capital letter and each digit but 5 derives. Every other byte is a token: `p` the word of an access line but
/// SHARES, `s` SHARES, `u` USES or EXTENDS, `b`, `i`, `k` and `r` types, `k` those of texts, `a` AS, `e` STEERABLE, `n` how a
/// parameter is steered, `w` another word, `5` a number, `q` a quoted text, `~` two colons, `?` another sign, a line feed a
/// LineEnd.
const RULES: Rules = &[
    // the file, and what stands in it before and behind SHARES
    (b'C', &[b"SF"]),
    (
        b'F',
        &[
            b"", b"pS:SF", b"sS:SWSG", b"bSHBPF", b"kSHBPF", b"iSHIPF", b"rSHJ1F",
        ],
    ),
    (
        b'G',
        &[
            b"",
            b"pS:SF",
            b"sS:SWSG",
            b"uSbSHG",
            b"uSbSHB0G",
            b"uSkSHG",
            b"uSkSHB0G",
            b"uSiSHG",
            b"uSiSHI0G",
            b"uSrSHG",
            b"uSrSHJ0G",
        ],
    ),
    // a head: a name, a length, a comment, another name, how it is steered
    (b'H', &[b"WSLMAE"]),
    (b'L', &[b"", b"[S5S]S"]),
    (b'M', &[b"", b"qS"]),
    (b'A', &[b"", b"aSWS"]),
    (b'E', &[b"", b"eS=SnS"]),
    // a block of texts: lists with commas, each with its description
    (b'B', &[b"{SY}S"]),
    (b'Y', &[b"", b"qSTDY"]),
    (b'T', &[b"", b",SqST"]),
    (b'D', &[b"", b"~SqS"]),
    // a block of numbers: a range whose low end comes first, or one that begins with its colon or with its bracket
    (b'I', &[b"{SR}S"]),
    (b'R', &[b"", b"OZ3", b"U3", b"XVDR", b"QDR"]),
    (b'3', &[b"XVDR", b"QDR", b"~SqSR", b"6"]),
    (b'6', &[b"", b"OZ3", b"U3"]),
    (b'O', &[b"(S", b"[S"]),
    (b'U', &[b"*S", b"5S", b"-S5S"]),
    (b'Z', &[b"", b"U"]),
    (b'X', &[b":SZ", b":SZ:S5S"]),
    (b'Q', &[b")S", b"]S"]),
    (b'V', &[b"", b"Q"]),
    // a block of any tokens
    (b'J', &[b"{K}S"]),
    (b'K', &[b"", b"4K", b"\nK"]),
    // a default, one without effect, and one of any tokens
    (b'P', &[b"qS", b"WS", b"5S", b"-S5S"]),
    (b'0', &[b"", b"qS", b"5S", b"-S5S"]),
    (b'1', &[b"42", b"}2"]),
    (b'2', &[b"\nS", b"42", b"}2"]),
    // a word, and a token but LineEnd and the closing brace
    (
        b'W',
        &[
            b"p", b"s", b"u", b"b", b"i", b"k", b"r", b"a", b"e", b"n", b"w",
        ],
    ),
    (
        b'4',
        &[
            b"W", b"5", b"q", b"~", b"?", b":", b",", b"{", b"[", b"]", b"(", b")", b"*", b"-",
            b"=",
        ],
    ),
    // LineEnds that are skipped
    (b'S', &[b"", b"\nS"]),
];

/// The words that rules name, by their letters.
const WORDS: &[(&[u8], u8)] = &[
    (b"RESTRICTED", b'p'),
    (b"GLOBAL", b'p'),
    (b"SHARES", b's'),
    (b"USES", b'u'),
    (b"EXTENDS", b'u'),
    (b"BOOLEAN", b'b'),
    (b"INT", b'i'),
    (b"KEYWORD", b'k'),
    (b"STRING", b'k'),
    (b"CCTK_REAL", b'r'),
    (b"AS", b'a'),
    (b"STEERABLE", b'e'),
    (b"ALWAYS", b'n'),
    (b"RECOVER", b'n'),
];

/// Param files.
pub const PARAMS: &Grammar = &Grammar {
    file: File::Params,
    rules: RULES,
    start: b'C',
    words: WORDS,
    signs: b":,{}[]()*-=",
    colons: b'~',
    quoted: b'q',
    other: b'?',
    tokens: &[],
    beginnings: &[],
    tried: b"",
    texts: &[],
    once: false,
};
