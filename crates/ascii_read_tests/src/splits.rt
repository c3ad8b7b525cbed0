//! Outputs of several variables, split by their names.

use cx_ascii_read::split;
use cx_text::{List, Memory, Text};
use std::alloc::Global;
use std::test::Fail;
use test_cases::same;

// An output, the names by which it is split, and the texts of these names; none where it isn't split.
struct Split {
    case: &'static str,
    text: &'static [u8],
    names: &'static [&'static [u8]],
    texts: Option<&'static [&'static [u8]]>,
}

// A field at rest and its sum at iterations 0 and 20: 300 bytes, of which the field has 227 and the sum 73.
const BOX: &[u8] = b"# wave::phi iteration 0 size 40\n\
    5 5 5 5 5 5 5 5 5 5 5 5 5 5 5 5 5 5 5 5 5 5 5 5 5 5 5 5 5 5 5 5 5 5 5 5 5 5 5 5\n\
    \n\
    # wave::total iteration 0 value 200\n\
    # wave::phi iteration 20 size 40\n\
    5 5 5 5 5 5 5 5 5 5 5 5 5 5 5 5 5 5 5 5 5 5 5 5 5 5 5 5 5 5 5 5 5 5 5 5 5 5 5 5\n\
    \n\
    # wave::total iteration 20 value 200\n";

const BOX_FIELD: &[u8] = b"# wave::phi iteration 0 size 40\n\
    5 5 5 5 5 5 5 5 5 5 5 5 5 5 5 5 5 5 5 5 5 5 5 5 5 5 5 5 5 5 5 5 5 5 5 5 5 5 5 5\n\
    \n\
    # wave::phi iteration 20 size 40\n\
    5 5 5 5 5 5 5 5 5 5 5 5 5 5 5 5 5 5 5 5 5 5 5 5 5 5 5 5 5 5 5 5 5 5 5 5 5 5 5 5\n\
    \n";

const BOX_SUM: &[u8] =
    b"# wave::total iteration 0 value 200\n# wave::total iteration 20 value 200\n";

const SPLITS: &[Split] = &[
    Split {
        case: "a field and its sum",
        text: BOX,
        names: &[b"wave::phi", b"wave::total"],
        texts: Some(&[BOX_FIELD, BOX_SUM]),
    },
    Split {
        case: "in the order of the names",
        text: BOX,
        names: &[b"wave::total", b"wave::phi"],
        texts: Some(&[BOX_SUM, BOX_FIELD]),
    },
    Split {
        case: "a name without records",
        text: b"# b iteration 1 value 5\n",
        names: &[b"a", b"b"],
        texts: Some(&[b"", b"# b iteration 1 value 5\n"]),
    },
    Split {
        case: "an empty output",
        text: b"",
        names: &[b"wave::phi"],
        texts: Some(&[b""]),
    },
    Split {
        case: "no names and no records",
        text: b"",
        names: &[],
        texts: Some(&[]),
    },
    Split {
        case: "no names",
        text: b"# b iteration 1 value 5\n",
        names: &[],
        texts: None,
    },
    Split {
        case: "the sum's name isn't among the names",
        text: BOX,
        names: &[b"wave::phi"],
        texts: None,
    },
    Split {
        case: "a name in other letters",
        text: b"# b iteration 1 value 5\n",
        names: &[b"B"],
        texts: None,
    },
    Split {
        case: "the last byte is missing",
        text: b"# b iteration 1 value 5\n# b iteration 2 value 5",
        names: &[b"b"],
        texts: None,
    },
];

fn texts_of(alloc: Global, texts: &[&[u8]]) -> Result<List<Text>, Memory> {
    let mut copies = List::empty(alloc);
    for text in texts {
        copies.push(Text::from_slice(alloc, text)?)?;
    }
    Ok(copies)
}

fn are_texts(found: &List<Text>, texts: &[&[u8]]) -> bool {
    let same = |(text, expected): (&Text, &&[u8])| text.as_slice() == *expected;
    found.len() == texts.len() && found.as_slice().iter().zip(texts).all(same)
}

fn is_split(alloc: Global, row: &Split) -> Result<bool, Memory> {
    let found = split(alloc, row.text, &texts_of(alloc, row.names)?)?;
    Ok(match (&found, row.texts) {
        (Some(found), Some(texts)) => are_texts(found, texts),
        (None, None) => true,
        _ => false,
    })
}

#[test]
fn outputs_are_split_by_name(rt: HostRuntime) -> Result<(), Fail> {
    let alloc = rt.alloc();
    for row in SPLITS {
        same(&row.case, &is_split(alloc, row)?, &true)?;
    }
    Ok(())
}
