//! Schedule files, what they say, and their texts.

ghost use Rattle.std.specs.Prelude.{IfOk};
ghost use Rattle.cx_text.specs.declared.token.Style.TheVariants as styles;
ghost use Rattle.cx_text.specs.Printing.{HasSpelling};
ghost use Rattle.cx_sched.specs.Nodes.{schedule};

use cx_plan::Region;
use cx_sched::{Block, Node, Ref, ScheduleFile, Spot, print_schedule, read_schedule};
use cx_text::{CclFault, List, Style, Text, tokens};
use sample_files::{control, diffint, elemca, life2d, waveint};
use std::alloc::Global;
use std::test::Fail;
use test_cases::same;

/// A file with every node, clause and line.
pub const FORMS: &[u8] = br#"# forms
STORAGE: ca::cells[1], counts
SCHEDULE GROUP steps AT CCTK_EVOL AFTER early { }
if (x == 1)
  if (y) STORAGE: evens[2]
  else
  {
    schedule GROUP IN steps AS first IF w::on WHILE turns BEFORE (b, c d) BEFORE e AFTER f
    {
      LANG: C
      OPTIONS: 2 : "x"
      STORAGE: s[3] t,
      SYNC: u v::u
      reads: v::u_p[0](interior) READS w(boundary), x
      TRIGGERS: u
      WRITES: u (everywhere) SYNC
      SYNC: again
    } "one step"
  }
"#;

/// The blocks of that file: the clauses, then the lines, those of one kind joined.
const STEPS: &[u8] = b"group steps at CCTK_EVOL after early";

const STEP: &[u8] =
    b"GROUP in steps as first if w::on while turns before b c d e after f storage s[3] t sync u v::u again reads v::u_p[0](interior) READS(everywhere) w(boundary) x(everywhere) writes u(everywhere) SYNC(everywhere) rest LANG : C OPTIONS : 2 : x TRIGGERS : u text one step";

/// The files of the sample thorns, and how many nodes and blocks they have at the top.
pub const SAMPLES: &[(&str, &[u8], usize, usize)] = &[
    ("ElemCA", elemca::SCHEDULE, 5, 4),
    ("WaveInt", waveint::SCHEDULE, 5, 3),
    ("Control", control::SCHEDULE, 3, 2),
    ("Life2D", life2d::SCHEDULE, 5, 4),
    ("DiffInt", diffint::SCHEDULE, 5, 3),
];

/// Files, and what is printed of them.
const PRINTED: &[(&str, &[u8], &[u8])] = &[
    (
        "each form",
        FORMS,
        br#"STORAGE : ca :: cells [ 1 ] counts
schedule GROUP steps AT CCTK_EVOL AFTER ( early ) { }
if ( x == 1 ) {
if ( y ) {
STORAGE : evens [ 2 ]
}
else {
schedule GROUP IN steps AS first IF w :: on WHILE turns BEFORE ( b c d e ) AFTER ( f ) { LANG : C OPTIONS : 2 : "x" TRIGGERS : u STORAGE : s [ 3 ] t SYNC : u v :: u again READS : v :: u_p [ 0 ] ( interior ) READS ( everywhere ) w ( boundary ) x ( everywhere ) WRITES : u ( everywhere ) SYNC ( everywhere ) } "one step"
}
}
"#,
    ),
    (
        "a group named AT",
        b"schedule GROUP
AT in { }",
        b"schedule GROUP AT in { }
",
    ),
    (
        "a group named GROUP",
        b"schedule group GROUP IN at AS x { }",
        b"schedule GROUP GROUP IN at AS x { }
",
    ),
    (
        "ifs without braces",
        b"if (a && !(b || c)) if (d) { } else STORAGE: e[1],
else { }",
        b"if ( a && ! ( b || c ) ) {
if ( d ) {
}
else {
STORAGE : e [ 1 ]
}
}
",
    ),
    (
        "lines of one kind apart",
        br#"schedule x AT y { READS: a, b(interior) LANG: C READS READS: c[0] } "\"""#,
        br#"schedule x AT y { LANG : C READS READS : a ( everywhere ) b ( interior ) c [ 0 ] ( everywhere ) } "\""
"#,
    ),
];

/// Texts that are no schedule file, and their first fault.
pub const FAULTS: &[(&str, CclFault)] = &[
    ("schedule x AT EVOL\nAS a AS b { }\n", CclFault::Repeated(2)),
    ("if (a { }\n", CclFault::Unexpected(1)),
    (
        "schedule x AT EVOL IF a\nAS b\nIF c { }\n",
        CclFault::Repeated(3),
    ),
    (
        "schedule x AT EVOL WHILE a\nWHILE b { }\n",
        CclFault::Repeated(2),
    ),
    (
        "schedule x AT EVOL BEFORE a\nb { }\n",
        CclFault::Unexpected(2),
    ),
    ("schedule GROUP x\nEVOL { }\n", CclFault::Unexpected(2)),
    (
        "schedule x AT EVOL {\nSYNC: a foo\n: b }\n",
        CclFault::Unexpected(3),
    ),
    (
        "schedule x AT EVOL {\nLANG: C foo\n: b }\n",
        CclFault::Unexpected(3),
    ),
    (
        "schedule x AT EVOL {\nREADS: a(\nedge) }\n",
        CclFault::Unexpected(3),
    ),
    (
        "schedule x AT EVOL {\nREADS: a[4294967295]\n b[4294967296] }\n",
        CclFault::BadNumber(3),
    ),
    (
        "\nSTORAGE: a[4294967295]\nSTORAGE: a[\n4294967296]\n",
        CclFault::BadNumber(4),
    ),
    ("if (a)\n{ STORAGE: b }\n", CclFault::Unexpected(2)),
    (
        "if (a) STORAGE: b\nelse { }\nelse { }\n",
        CclFault::Unexpected(3),
    ),
    (
        "schedule x AT EVOL {\nSYNC: a::\nabcdefghijklmnopqrstuvwxyz_abcdefghijklmnopqrstuvwxyz_abcdefghijk }\n",
        CclFault::Limit(3),
    ),
];

/// What a text spells that has no fault.
fn file_of(alloc: Global, text: &[u8]) -> Result<ScheduleFile, Fail>
    ensures { IfOk result (λ file. HasSpelling styles.Ccl schedule.derives file) }
{
    let list = tokens(alloc, text, Style::Ccl)?;
    let file = read_schedule(alloc, &list)?;
    Ok(file)
}

/// Whether what is printed of a file is printed again of what it is read as.
fn is_printed_again(alloc: Global, text: &[u8]) -> Result<bool, Fail> {
    let file = file_of(alloc, text)?;
    let first = print_schedule(alloc, &file)?;
    let again = file_of(alloc, first.as_slice())?;
    let second = print_schedule(alloc, &again)?;
    Ok(first.as_slice() == second.as_slice())
}

fn push(out: &mut Vec<u8>, text: &[u8]) -> Result<(), Fail> {
    for byte in text {
        out.push(*byte)?;
    }
    Ok(())
}

fn push_ref(alloc: Global, out: &mut Vec<u8>, name: &Ref, number: Option<u32>) -> Result<(), Fail> {
    push(out, b" ")?;
    if let Some(owner) = &name.owner {
        push(out, owner.as_slice())?;
        push(out, b"::")?;
    }
    push(out, name.name.as_slice())?;
    if let Some(number) = number {
        push(out, format!(in alloc; "[{number}]")?.as_bytes())?;
    }
    Ok(())
}

fn push_names(out: &mut Vec<u8>, word: &[u8], names: &[Text]) -> Result<(), Fail> {
    if !names.is_empty() {
        push(out, word)?;
    }
    for name in names {
        push(out, b" ")?;
        push(out, name.as_slice())?;
    }
    Ok(())
}

fn push_scalar(
    alloc: Global,
    out: &mut Vec<u8>,
    word: &[u8],
    name: &Option<Ref>,
) -> Result<(), Fail> {
    if let Some(name) = name {
        push(out, word)?;
        push_ref(alloc, out, name, name.copy)?;
    }
    Ok(())
}

fn push_access(
    alloc: Global,
    out: &mut Vec<u8>,
    word: &[u8],
    access: &[(Ref, Region)],
) -> Result<(), Fail> {
    if !access.is_empty() {
        push(out, word)?;
    }
    for (name, region) in access {
        push_ref(alloc, out, name, name.copy)?;
        let region: &[u8] = match region {
            Region::Interior => b"(interior)",
            Region::Boundary => b"(boundary)",
            Region::Everywhere => b"(everywhere)",
        };
        push(out, region)?;
    }
    Ok(())
}

/// What a block says before its lines.
fn push_head(alloc: Global, out: &mut Vec<u8>, block: &Block) -> Result<(), Fail> {
    if block.group {
        push(out, b"group ")?;
    }
    push(out, block.name.as_slice())?;
    match &block.spot {
        Spot::At(bin) => {
            push(out, b" at ")?;
            push(out, bin.as_slice())?;
        }
        Spot::Inside(group) => {
            push(out, b" in ")?;
            push(out, group.as_slice())?;
        }
    }
    if let Some(alias) = &block.alias {
        push(out, b" as ")?;
        push(out, alias.as_slice())?;
    }
    push_scalar(alloc, out, b" if", &block.test)?;
    push_scalar(alloc, out, b" while", &block.turn)?;
    push_names(out, b" before", block.before.as_slice())?;
    push_names(out, b" after", block.after.as_slice())
}

/// What a block says in its lines.
fn push_lines(alloc: Global, out: &mut Vec<u8>, block: &Block) -> Result<(), Fail> {
    if !block.storage.is_empty() {
        push(out, b" storage")?;
    }
    for (name, levels) in block.storage.as_slice() {
        push_ref(alloc, out, name, *levels)?;
    }
    if !block.sync.is_empty() {
        push(out, b" sync")?;
    }
    for name in block.sync.as_slice() {
        push_ref(alloc, out, name, name.copy)?;
    }
    push_access(alloc, out, b" reads", block.reads.as_slice())?;
    push_access(alloc, out, b" writes", block.writes.as_slice())?;
    if !block.rest.is_empty() {
        push(out, b" rest")?;
    }
    for token in block.rest.as_slice() {
        push(out, b" ")?;
        push(out, token.text.as_slice())?;
    }
    if !block.text.is_empty() {
        push(out, b" text ")?;
        push(out, block.text.as_slice())?;
    }
    Ok(())
}

fn assert_block(alloc: Global, block: &Block, want: &[u8]) -> Result<(), Fail> {
    let mut shown = Vec::new(alloc);
    push_head(alloc, &mut shown, block)?;
    push_lines(alloc, &mut shown, block)?;
    same(&("block", &block.name), &shown.as_slice(), &want)
}

fn assert_storage(
    alloc: Global,
    place: &str,
    groups: &List<(Ref, Option<u32>)>,
    want: &[u8],
) -> Result<(), Fail> {
    let mut shown = Vec::new(alloc);
    for (name, levels) in groups.as_slice() {
        push_ref(alloc, &mut shown, name, *levels)?;
    }
    same(&("STORAGE", place), &shown.as_slice(), &want)
}

#[test]
fn each_form_is_read(rt: HostRuntime) -> Result<(), Fail> {
    let alloc = rt.alloc();
    let file = file_of(alloc, FORMS)?;
    let [
        Node::Storage(groups),
        Node::Block(steps),
        Node::Cond { yes, no, .. },
    ] = file.items.as_slice()
    else {
        return Err(Fail::new("other nodes at the top"));
    };
    assert_storage(alloc, "at the top", groups, b" ca::cells[1] counts")?;
    assert_block(alloc, steps, STEPS)?;
    same(&"the outer IF has no ELSE", &no.is_empty(), &true)?;
    let [Node::Cond { yes, no, .. }] = yes.as_slice() else {
        return Err(Fail::new("another body of the outer IF"));
    };
    let ([Node::Storage(groups)], [Node::Block(step)]) = (yes.as_slice(), no.as_slice()) else {
        return Err(Fail::new("other bodies of the inner IF"));
    };
    assert_storage(alloc, "in the inner IF", groups, b" evens[2]")?;
    assert_block(alloc, step, STEP)
}

/// How many nodes a file has at its top, and how many of them are blocks.
fn counts(file: &ScheduleFile) -> (usize, usize) {
    let mut blocks: usize = 0;
    for node in file.items.as_slice() {
        if matches!(node, Node::Block(_)) {
            blocks = blocks.saturating_add(1);
        }
    }
    (file.items.len(), blocks)
}

#[test]
fn files_are_printed_and_read_again(rt: HostRuntime) -> Result<(), Fail> {
    for (name, text, want) in PRINTED {
        let file = file_of(rt.alloc(), text)?;
        let printed = print_schedule(rt.alloc(), &file)?;
        same(&name, &printed.as_slice(), want)?;
    }
    for (name, text, nodes, blocks) in SAMPLES {
        same(&name, &is_printed_again(rt.alloc(), text)?, &true)?;
        let file = file_of(rt.alloc(), text)?;
        same(&name, &counts(&file), &(*nodes, *blocks))?;
    }
    Ok(())
}

/// A line so many times, and a last line after it.
fn repeated(alloc: Global, line: &str, times: usize, last: &str) -> Result<Vec<u8>, Fail> {
    let mut text = Vec::new(alloc);
    for _ in 0..times {
        push(&mut text, line.as_bytes())?;
    }
    push(&mut text, last.as_bytes())?;
    Ok(text)
}

/// What may be repeated so many times, what closes it, and the fault with one more.
const LIMITS: &[(&str, usize, &str, CclFault)] = &[
    ("if (1)\n", 32, "STORAGE:\n", CclFault::Limit(34)),
    ("STORAGE:\n", 4096, "", CclFault::Limit(4097)),
    (
        "schedule a AT b { LANG: SYNC: }\n",
        2048,
        "",
        CclFault::Limit(2049),
    ),
];

/// The fault of a line so many times.
fn fault_of(alloc: Global, line: &str, times: usize, last: &str) -> Result<Option<CclFault>, Fail> {
    let text = repeated(alloc, line, times, last)?;
    let list = tokens(alloc, text.as_slice(), Style::Ccl)?;
    Ok(read_schedule(alloc, &list).err())
}

#[test]
fn limits_hold(rt: HostRuntime) -> Result<(), Fail> {
    let alloc = rt.alloc();
    for (line, times, last, fault) in LIMITS {
        let most = fault_of(alloc, line, *times, last)?;
        let more = fault_of(alloc, line, times.saturating_add(1), last)?;
        let want = (None, Some(*fault));
        same(&(times, "times", line), &(most, more), &want)?;
    }
    Ok(())
}
