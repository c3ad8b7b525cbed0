//! Texts and their records, and texts that are no output.

use cx_ascii_read::{Record, read_output};
use cx_text::Memory;
use std::alloc::Global;
use std::test::Fail;
use test_cases::same;

// A text that is one record, and this record.
struct Example {
    text: &'static [u8],
    full: &'static [u8],
    iteration: u64,
    size: &'static [u32],
    values: &'static [i64],
}

const EXAMPLES: &[Example] = &[
    Example {
        text: b"# ca::cell iteration 0 size 8\n0 0 0 1 0 0 0 0\n\n",
        full: b"ca::cell",
        iteration: 0,
        size: &[8],
        values: &[0, 0, 0, 1, 0, 0, 0, 0],
    },
    Example {
        text: b"# a iteration 12 size 2 3\n0 -8\n2 13\n4 5\n\n",
        full: b"a",
        iteration: 12,
        size: &[2, 3],
        values: &[0, -8, 2, 13, 4, 5],
    },
    Example {
        text: b"# cube iteration 7 size 1 2 2\n1\n2\n3\n-4\n\n",
        full: b"cube",
        iteration: 7,
        size: &[1, 2, 2],
        values: &[1, 2, 3, -4],
    },
    Example {
        text: b"# wave::total iteration 20 value 200\n",
        full: b"wave::total",
        iteration: 20,
        size: &[],
        values: &[200],
    },
    Example {
        text: b"# least iteration 18446744073709551615 value -9223372036854775808\n",
        full: b"least",
        iteration: 18_446_744_073_709_551_615,
        size: &[],
        values: &[-9_223_372_036_854_775_808],
    },
    Example {
        text: b"# ~!#size iteration 10 size 2\n9223372036854775807 -1\n\n",
        full: b"~!#size",
        iteration: 10,
        size: &[2],
        values: &[9_223_372_036_854_775_807, -1],
    },
];

fn is_example(record: &Record, example: &Example) -> bool {
    let named = record.full.as_slice() == example.full && record.iteration == example.iteration;
    named && record.size.as_slice() == example.size && record.values.as_slice() == example.values
}

#[test]
fn examples_are_read(rt: HostRuntime) -> Result<(), Fail> {
    let alloc = rt.alloc();
    for example in EXAMPLES {
        let Some(records) = read_output(alloc, example.text)? else {
            return Err(Memory.into());
        };
        same(&("iteration", example.iteration), &records.len(), &1)?;
        same(
            &("iteration", example.iteration),
            &records
                .as_slice()
                .iter()
                .all(|record| is_example(record, example)),
            &true,
        )?;
    }
    Ok(())
}

/// All examples, one after another.
fn whole_text(alloc: Global) -> Result<Vec<u8>, Memory> {
    let mut text = Vec::new(alloc);
    for example in EXAMPLES {
        text.extend_from_slice(example.text)?;
    }
    Ok(text)
}

#[test]
fn records_stand_in_order(rt: HostRuntime) -> Result<(), Fail> {
    let alloc = rt.alloc();
    let Some(records) = read_output(alloc, &whole_text(alloc)?)? else {
        return Err(Memory.into());
    };
    same(&"all examples", &records.len(), &EXAMPLES.len())?;
    for (record, example) in records.as_slice().iter().zip(EXAMPLES) {
        same(
            &("iteration", example.iteration),
            &is_example(record, example),
            &true,
        )?;
    }
    let none = read_output(alloc, b"")?;
    same(
        &"no bytes",
        &none.is_some_and(|records| records.is_empty()),
        &true,
    )
}

// What is no output, and why.
const OTHERS: &[(&[u8], &[u8])] = &[
    (b"a value too few", b"# a iteration 0 size 3\n1 2\n\n"),
    (b"a value too many", b"# a iteration 0 size 2\n1 2 3\n\n"),
    (b"a row too few", b"# a iteration 0 size 2 2\n1 2\n\n"),
    (b"a row too many", b"# a iteration 0 size 2 1\n1 2\n3 4\n\n"),
    (b"rows in one", b"# a iteration 0 size 2 2\n1 2 3 4\n\n"),
    (b"no empty line", b"# a iteration 0 size 2\n1 2\n"),
    (b"no end of a row", b"# a iteration 0 size 2\n1 2"),
    (b"two empty lines", b"# a iteration 0 size 2\n1 2\n\n\n"),
    (b"two blanks", b"# a iteration 0 size 2\n1  2\n\n"),
    (b"a blank behind a row", b"# a iteration 0 size 2\n1 2 \n\n"),
    (b"no size", b"# a iteration 0 size \n\n"),
    (b"size 0", b"# a iteration 0 size 0\n\n\n"),
    (b"four sizes", b"# a iteration 0 size 1 1 1 1\n1\n\n"),
    (b"size 16777217", b"# a iteration 0 size 16777217\n1\n\n"),
    (
        b"a size's leading zero",
        b"# a iteration 0 size 02\n1 2\n\n",
    ),
    (b"a leading zero", b"# a iteration 0 value 01\n"),
    (b"zero with a sign", b"# a iteration 0 value -0\n"),
    (b"a leading zero below 0", b"# a iteration 0 value -01\n"),
    (b"a plus", b"# a iteration 0 value +1\n"),
    (b"a sign alone", b"# a iteration 0 value -\n"),
    (b"no value", b"# a iteration 0 value \n"),
    (b"2^63", b"# a iteration 0 value 9223372036854775808\n"),
    (
        b"below -2^63",
        b"# a iteration 0 value -9223372036854775809\n",
    ),
    (
        b"iteration 2^64",
        b"# a iteration 18446744073709551616 value 1\n",
    ),
    (b"iteration below 0", b"# a iteration -1 value 1\n"),
    (
        b"an iteration's leading zero",
        b"# a iteration 00 value 1\n",
    ),
    (b"no end of a line", b"# a iteration 0 value 1"),
    (b"a carriage return", b"# a iteration 0 value 1\r\n"),
    (b"two values", b"# a iteration 0 value 1 2\n"),
    (b"an empty line alone", b"\n"),
    (b"an empty name", b"#  iteration 0 value 1\n"),
    (b"a name with a tab", b"# a\tb iteration 0 value 1\n"),
    (b"a name with byte 127", b"# a\x7f iteration 0 value 1\n"),
    (b"another word", b"# a iteration 0 values 1\n"),
    (b"no sign in front", b"a iteration 0 value 1\n"),
];

#[test]
fn others_are_none(rt: HostRuntime) -> Result<(), Fail> {
    let alloc = rt.alloc();
    for (why, text) in OTHERS {
        same(&why, &read_output(alloc, text)?.is_none(), &true)?;
    }
    Ok(())
}

// A section, and the line of a scalar behind its 30 bytes.
const TWO: &[u8] = b"# a iteration 1 size 2 1\n7 8\n\n# b iteration 1 value 5\n";

#[test]
fn no_front_but_a_record(rt: HostRuntime) -> Result<(), Fail> {
    let alloc = rt.alloc();
    for k in 1..TWO.len() {
        let found = read_output(alloc, &TWO[..k])?;
        same(&("at", k), &found.is_some(), &(k == 30))?;
    }
    Ok(())
}
