//! Output that is cut, read and put together again.

ghost use Rattle.std.specs.Prelude.{◌≡◌, All, length};
ghost use Rattle.cx_plan.specs.Whole.{IsVariable};
ghost use Rattle.cx_cut.specs.Cuts.{part_count};
ghost use Rattle.cx_chunks.specs.Laws.{IsCutOf};

use crate::samples::{CELLS, FIRST, LIVE, SECOND, cut_of, job};
use cx_ascii_read::{Record, read_output};
use cx_chunks::{ChunkFault, Piece, combine, cut_records, read_chunk};
use cx_cut::Cut;
use cx_plan::Job;
use cx_text::{List, Memory, Text};
use std::alloc::Global;
use std::test::Fail;
use test_cases::same;

// Two chunks, and the whole text or the fault's words.
struct Case {
    case: &'static str,
    chunks: [&'static [u8]; 2],
    words: &'static [u8],
}

const CASES: &[Case] = &[
    Case {
        case: "no iteration",
        chunks: [b"", b""],
        words: b"",
    },
    Case {
        case: "one section is missing",
        chunks: [
            FIRST,
            b"# ca::cell iteration 0 part 1 of 2 from 3 size 5\n1 0 0 0 0\n\n\
            # ca::cell iteration 2 part 1 of 2 from 3 size 5\n0 0 1 0 0\n\n",
        ],
        words: b"Missing 1 ca::cell 1",
    },
    Case {
        case: "the chunk of part 1 twice",
        chunks: [SECOND, SECOND],
        words: b"Stranger 0 ca::cell 0",
    },
    Case {
        case: "the chunk of part 0 twice",
        chunks: [FIRST, FIRST],
        words: b"Stranger 1 ca::cell 0",
    },
    Case {
        case: "an empty chunk beside lines alone",
        chunks: [b"# ca::live iteration 4 value -1\n", b""],
        words: b"# ca::live iteration 4 value -1\n",
    },
    Case {
        case: "values of 8, 32 and 64 bits",
        chunks: [
            b"# ca::cell iteration 1 part 0 of 2 from 0 size 3\n127 128 2147483648\n\n",
            b"# ca::cell iteration 1 part 1 of 2 from 3 size 5\n-128 -129 5 -2147483649 6\n\n",
        ],
        words: b"# ca::cell iteration 1 size 8\n127 128 2147483648 -128 -129 5 -2147483649 6\n\n",
    },
    Case {
        case: "lines in another order",
        chunks: [
            b"# ca::live iteration 12 value 7\n# ca::live iteration 3 value 6\n",
            b"",
        ],
        words: b"# ca::live iteration 3 value 6\n# ca::live iteration 12 value 7\n",
    },
    Case {
        case: "a line outside chunk 0",
        chunks: [FIRST, b"# ca::live iteration 2 value 2\n"],
        words: b"Stranger 1 ca::live 2",
    },
    Case {
        case: "a line of a grid variable",
        chunks: [b"# ca::cell iteration 5 value 1\n", b""],
        words: b"Stranger 0 ca::cell 5",
    },
    Case {
        case: "a section of a scalar",
        chunks: [
            b"# ca::live iteration 5 part 0 of 2 from 0 size 3\n1 2 3\n\n",
            b"",
        ],
        words: b"Stranger 0 ca::live 5",
    },
    Case {
        case: "a name in other letters",
        chunks: [
            b"# CA::cell iteration 5 part 0 of 2 from 0 size 3\n1 2 3\n\n",
            b"",
        ],
        words: b"Stranger 0 CA::cell 5",
    },
    Case {
        case: "another number of parts",
        chunks: [
            b"# ca::cell iteration 5 part 0 of 3 from 0 size 3\n1 2 3\n\n",
            b"",
        ],
        words: b"Stranger 0 ca::cell 5",
    },
    Case {
        case: "another first point",
        chunks: [
            b"# ca::cell iteration 5 part 0 of 2 from 1 size 3\n1 2 3\n\n",
            b"",
        ],
        words: b"Stranger 0 ca::cell 5",
    },
    Case {
        case: "another size",
        chunks: [
            b"# ca::cell iteration 5 part 0 of 2 from 0 size 4\n1 2 3 4\n\n",
            b"",
        ],
        words: b"Stranger 0 ca::cell 5",
    },
    Case {
        case: "the first that repeats an earlier one",
        chunks: [
            b"# ca::live iteration 1 value 1\n# ca::live iteration 2 value 1\n\
            # ca::live iteration 2 value 1\n# ca::live iteration 1 value 1\n",
            b"",
        ],
        words: b"Double 0 ca::live 2",
    },
    Case {
        case: "a stranger in chunk 1 before a double in chunk 0",
        chunks: [
            b"# ca::live iteration 1 value 1\n# ca::live iteration 1 value 1\n",
            b"# ca::live iteration 3 value 1\n",
        ],
        words: b"Stranger 1 ca::live 3",
    },
    Case {
        case: "the least iteration that is missing",
        chunks: [
            b"# ca::cell iteration 10 part 0 of 2 from 0 size 3\n1 2 3\n\n\
            # ca::cell iteration 9 part 0 of 2 from 0 size 3\n1 2 3\n\n",
            b"",
        ],
        words: b"Missing 1 ca::cell 9",
    },
];

/// Adds the pieces of a chunk, if the text is one.
fn push_pieces(alloc: Global, chunks: &mut List<List<Piece>>, text: &[u8]) -> Result<(), Memory> {
    match read_chunk(alloc, text)? {
        Some(pieces) => chunks.push(pieces),
        None => Ok(()),
    }
}

/// The pieces of each chunk.
fn pieces(alloc: Global, texts: &[&[u8]]) -> Result<List<List<Piece>>, Memory> {
    let mut chunks = List::empty(alloc);
    for text in texts {
        push_pieces(alloc, &mut chunks, text)?;
    }
    Ok(chunks)
}

fn joined(alloc: Global, texts: &List<Text>) -> Result<Text, Memory> {
    let mut whole = Text::new(Vec::new(alloc));
    for text in texts.as_slice() {
        whole.push_slice(text.as_slice())?;
    }
    Ok(whole)
}

fn words(alloc: Global, fault: &ChunkFault) -> Result<Text, Fail> {
    let words = format!(in alloc; "{fault}")?;
    Ok(Text::from_slice(alloc, words.as_bytes())?)
}

/// The whole text of these chunks, or the words of the fault.
fn combined(alloc: Global, job: &Job, cut: &Cut, chunks: &List<List<Piece>>) -> Result<Text, Fail>
    requires outputs { All (IsVariable job.now) job.now.out_vars }
    requires cut { IsCutOf job.now cut.now }
    requires chunks { length chunks.now ≡ part_count cut.now }
{
    match combine(alloc, job, cut, chunks) {
        Ok(texts) => Ok(joined(alloc, &texts)?),
        Err(fault) => words(alloc, &fault),
    }
}

/// What comes of the chunks that these bytes are.
fn outcome(alloc: Global, texts: &[&[u8]]) -> Result<Text, Fail> {
    let job = job(alloc)?;
    let cut = cut_of(alloc, &job)?;
    let chunks = pieces(alloc, texts)?;
    if chunks.len() != cut.count() as usize {
        return Err(Memory.into());
    }
    combined(alloc, &job, &cut, &chunks)
}

#[test]
fn pieces_are_joined_or_refused(rt: HostRuntime) -> Result<(), Fail> {
    let alloc = rt.alloc();
    for case in CASES {
        let found = outcome(alloc, &case.chunks)?;
        same(&case.case, &found.as_slice(), &case.words)?;
    }
    Ok(())
}

/// Adds the records of an output, if the text is one.
fn push_records(
    alloc: Global,
    outputs: &mut List<List<Record>>,
    text: &[u8],
) -> Result<(), Memory> {
    match read_output(alloc, text)? {
        Some(records) => outputs.push(records),
        None => Ok(()),
    }
}

/// The records of these outputs.
fn records(alloc: Global, texts: &[&[u8]]) -> Result<List<List<Record>>, Memory> {
    let mut outputs = List::empty(alloc);
    for text in texts {
        push_records(alloc, &mut outputs, text)?;
    }
    Ok(outputs)
}

/// The chunks of these outputs.
fn chunks(alloc: Global, texts: &[&[u8]]) -> Result<List<Text>, Fail> {
    let job = job(alloc)?;
    let cut = cut_of(alloc, &job)?;
    Ok(cut_records(alloc, &job, &cut, &records(alloc, texts)?)?)
}

#[test]
fn records_are_cut_and_joined(rt: HostRuntime) -> Result<(), Fail> {
    let alloc = rt.alloc();
    let found = chunks(alloc, &[CELLS, LIVE])?;
    let [first, second] = found.as_slice() else {
        return Err(Memory.into());
    };
    same(&"chunk 0", &first.as_slice(), &FIRST)?;
    same(&"chunk 1", &second.as_slice(), &SECOND)?;
    let whole = outcome(alloc, &[FIRST, SECOND])?;
    let mut want = Text::from_slice(alloc, CELLS)?;
    want.push_slice(LIVE)?;
    same(&"the whole", &whole.as_slice(), &want.as_slice())
}
