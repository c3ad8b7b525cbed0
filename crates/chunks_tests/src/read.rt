//! Bytes that are chunks, and others.

use cx_chunks::read_chunk;
use std::test::Fail;
use test_cases::same;

// Why bytes are a chunk of so many pieces, or none.
struct Case {
    case: &'static str,
    text: &'static [u8],
    count: Option<usize>,
}

const CASES: &[Case] = &[
    Case {
        case: "no bytes",
        text: b"",
        count: Some(0),
    },
    Case {
        case: "a section",
        text: b"# life::cell iteration 0 part 1 of 3 from 0 3 size 2 2\n0 -1\n1 0\n\n",
        count: Some(1),
    },
    Case {
        case: "a part's number that isn't below the number of parts",
        text: b"# a iteration 7 part 4294967295 of 0 from 4294967295 size 1\n5\n\n",
        count: Some(1),
    },
    Case {
        case: "a line and a section",
        text: b"# a iteration 7 value 5\n# a iteration 7 part 0 of 1 from 0 size 1\n5\n\n",
        count: Some(2),
    },
    Case {
        case: "a section of a whole output",
        text: b"# a iteration 7 size 1\n5\n\n",
        count: None,
    },
    Case {
        case: "a part's number of 33 bits",
        text: b"# a iteration 7 part 4294967296 of 1 from 0 size 1\n5\n\n",
        count: None,
    },
    Case {
        case: "a leading zero",
        text: b"# a iteration 7 part 00 of 1 from 0 size 1\n5\n\n",
        count: None,
    },
    Case {
        case: "fewer coordinates than sizes",
        text: b"# a iteration 7 part 0 of 1 from 0 size 1 1\n5\n\n",
        count: None,
    },
    Case {
        case: "no coordinate",
        text: b"# a iteration 7 part 0 of 1 from size 1\n5\n\n",
        count: None,
    },
    Case {
        case: "four coordinates",
        text: b"# a iteration 7 part 0 of 1 from 0 0 0 0 size 1 1 1 1\n5\n\n",
        count: None,
    },
    Case {
        case: "two blanks",
        text: b"# a iteration 7 part 0  of 1 from 0 size 1\n5\n\n",
        count: None,
    },
    Case {
        case: "size 0",
        text: b"# a iteration 7 part 0 of 1 from 0 size 0\n\n\n",
        count: None,
    },
    Case {
        case: "no empty line",
        text: b"# a iteration 7 part 0 of 1 from 0 size 1\n5\n",
        count: None,
    },
    Case {
        case: "a value of 65 bits",
        text: b"# a iteration 7 part 0 of 1 from 0 size 1\n9223372036854775808\n\n",
        count: None,
    },
];

#[test]
fn chunks_are_read(rt: HostRuntime) -> Result<(), Fail> {
    let alloc = rt.alloc();
    for case in CASES {
        let found = read_chunk(alloc, case.text)?;
        let count = found.map(|pieces| pieces.len());
        same(&case.case, &count, &case.count)?;
    }
    Ok(())
}
