//! The elementary automaton, the cells of a row.

pub const INTERFACE: &[u8] = br#"implements: ca
public:
CCTK_BYTE cells TYPE=GF DIM=1 { cell } "cells"
CCTK_INT counts TYPE=SCALAR { live } "live cells"
"#;

pub const PARAM: &[u8] = br#"restricted:
INT rule "Wolfram's number" { 0:255 :: "any" } 90
INT start "the one cell" { 0:* :: "place" } 0
INT seed "random start" { -1 :: "one cell" 0:* :: "mixed" } -1
"#;

pub const SCHEDULE: &[u8] = br#"STORAGE: cells[1] counts[1]
schedule ca_init AT INITIAL { LANG: C WRITES: ca::cell(everywhere) } "start"
schedule ca_step AT EVOL
{
  LANG: C
  SYNC: cells
  READS: ca::cell(everywhere)
  WRITES: ca::cell(interior)
} "one step"
schedule ca_zero AT EVOL AFTER ca_step { LANG: C WRITES: ca::cell(boundary) } "edge"
schedule ca_count AT POSTSTEP { LANG: C READS: ca::cell(everywhere) WRITES: ca::live } "count"
"#;
