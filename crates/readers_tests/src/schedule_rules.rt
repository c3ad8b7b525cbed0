//! The grammar of schedule files as a table of rules.

use crate::derivations::Rules;
use crate::faults::Kind as File;
use crate::grammars::Grammar;
use crate::schedules::FORMS;
use cx_text::Kind;

/// What each capital letter or digit below 5 derives. Every other byte is a token: `s`, `i`, `e`, `c`, `g`, `t`, `n`,
/// `a`, `h`, `b`, `f`, `l`, `y` and `r` the keywords STORAGE, IF, ELSE, SCHEDULE, GROUP, AT, IN, AS, WHILE, BEFORE,
/// AFTER, LANG, SYNC and READS, `o` a region, `w` another word, `d` two colons, `5` a number, `q` a quoted text, `=` an
/// operator, a line feed a LineEnd.
const RULES: Rules = &[
    // skipped LineEnds, nodes
    (b'C', &[b"SF"]),
    (b'F', &[b"", b"NF"]),
    (
        b'N',
        &[b"sS:O\nS", b"iS(SE)SBD", b"cSHK{SM}SQ", b"cSgSASAS{SM}SQ"],
    ),
    // body, otherwise
    (b'B', &[b"{SF}S", b"N"]),
    (b'D', &[b"", b"eSB"]),
    // expression
    (b'E', &[b"X", b"X=SX"]),
    (b'X', &[b"WS", b"WS[S5S]S", b"5S", b"(SE)S"]),
    // groups of a line of their own
    (b'O', &[b"", b"WO", b"WTO", b"WdSWO", b"WdSWTO"]),
    (b'T', &[b",", b"[S5S]", b"[S5S],"]),
    // head: its words, GROUP as a name, AT or IN
    (b'H', &[b"PSASWS", b"gSZSASWS", b"gSASRS", b"gSASASWS"]),
    (b'A', &[b"t", b"n"]),
    // clauses
    (b'K', &[b"", b"aSWSK", b"iSIK", b"hSIK", b"bSYK", b"fSYK"]),
    (b'I', &[b"WS", b"WSdSWS"]),
    (b'Y', &[b"WS", b"(SWSJ)S"]),
    (b'J', &[b"", b"WSJ", b",SWSJ"]),
    // lines: tokens, behind a word and not; groups with storage, names, names with regions
    (b'M', &[b"", b"lS:SL", b"sS:SU", b"yS:SV", b"rS:S0"]),
    (b'L', &[b"M", b"WS1", b":SL", b"2"]),
    (b'1', &[b"M", b"WS1", b"2"]),
    (
        b'2',
        &[
            b"(SL", b")SL", b"[SL", b"]SL", b",SL", b"dSL", b"5SL", b"qSL", b"{SL", b"=SL",
        ],
    ),
    (b'U', &[b"M", b"IU", b"I3U"]),
    (b'3', &[b",S", b"[S5S]S", b"[S5S]S,S"]),
    (b'V', &[b"M", b"IV", b"I,SV"]),
    (
        b'0',
        &[
            b"M",
            b"I0",
            b"I30",
            b"I(SoS)S0",
            b"I[S5S]S(SoS)S0",
            b"I(SoS)S,S0",
            b"I[S5S]S(SoS)S,S0",
        ],
    ),
    (b'Q', &[b"", b"qS"]),
    // words: any, none of GROUP, neither AT nor IN
    (b'W', &[b"t", b"n", b"R"]),
    (b'P', &[b"t", b"n", b"4"]),
    (b'Z', &[b"g", b"4"]),
    (b'R', &[b"Z"]),
    (
        b'4',
        &[
            b"s", b"i", b"e", b"c", b"a", b"h", b"b", b"f", b"l", b"y", b"r", b"o", b"w",
        ],
    ),
    // LineEnds that are skipped
    (b'S', &[b"", b"\nS"]),
];

/// The words that rules name, by their letters.
const WORDS: &[(&[u8], u8)] = &[
    (b"STORAGE", b's'),
    (b"IF", b'i'),
    (b"ELSE", b'e'),
    (b"SCHEDULE", b'c'),
    (b"GROUP", b'g'),
    (b"AT", b't'),
    (b"IN", b'n'),
    (b"AS", b'a'),
    (b"WHILE", b'h'),
    (b"BEFORE", b'b'),
    (b"AFTER", b'f'),
    (b"LANG", b'l'),
    (b"OPTIONS", b'l'),
    (b"TRIGGERS", b'l'),
    (b"SYNC", b'y'),
    (b"READS", b'r'),
    (b"WRITES", b'r'),
    (b"INTERIOR", b'o'),
    (b"BOUNDARY", b'o'),
    (b"EVERYWHERE", b'o'),
    (b"w", b'w'),
];

/// Tokens, by their letters.
const TOKENS: &[(u8, Kind, &[u8])] = &[
    (b's', Kind::Word, b"STORAGE"),
    (b'i', Kind::Word, b"if"),
    (b'e', Kind::Word, b"else"),
    (b'c', Kind::Word, b"schedule"),
    (b'g', Kind::Word, b"GROUP"),
    (b't', Kind::Word, b"AT"),
    (b'n', Kind::Word, b"in"),
    (b'a', Kind::Word, b"AS"),
    (b'l', Kind::Word, b"LANG"),
    (b'y', Kind::Word, b"SYNC"),
    (b'r', Kind::Word, b"READS"),
    (b'o', Kind::Word, b"Interior"),
    (b'w', Kind::Word, b"w"),
    (b'd', Kind::Sign, b"::"),
    (b'5', Kind::Number, b"5"),
    (b'q', Kind::Quoted, b"q"),
    (b'=', Kind::Sign, b"=="),
    (b'\n', Kind::LineEnd, b""),
];

/// Schedule files.
pub const SCHEDULE: &Grammar = &Grammar {
    file: File::Schedule,
    rules: RULES,
    start: b'C',
    words: WORDS,
    signs: b"{}()[]:,",
    colons: b'd',
    quoted: b'q',
    other: b'=',
    tokens: TOKENS,
    beginnings: &[
        b"",
        b"s:w",
        b"i(w)s:\n",
        b"c",
        b"cgt",
        b"cgtn",
        b"cwtw",
        b"cwtwb(w",
        b"cwtw{",
        b"cwtw{l:w",
        b"cwtw{y:w",
        b"cwtw{r:w",
        b"cwtw{y:}",
    ],
    tried: b"siegtaywd5{}([:,\n",
    texts: &[FORMS],
    once: true,
};
