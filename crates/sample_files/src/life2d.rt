//! The game of life, the cells of a sheet.

pub const INTERFACE: &[u8] = br#"implements: life
public:
CCTK_BYTE cells TYPE=GF DIM=2 { cell } "cells"
CCTK_INT counts TYPE=SCALAR { live } "live cells"
"#;

pub const PARAM: &[u8] = br#"restricted:
INT born { 0:511 } 8
INT survive { 0:511 } 12
KEYWORD pattern { "glider" "random" } "glider"
INT seed { 0:* } 0
"#;

pub const SCHEDULE: &[u8] = br#"STORAGE: cells[1] counts[1]
schedule life_init AT INITIAL { LANG: C WRITES: life::cell(everywhere) } "start"
schedule life_step AT EVOL
{
  LANG: C
  SYNC: cells
  READS: life::cell(everywhere)
  WRITES: life::cell(interior)
} "one step"
schedule life_zero AT EVOL AFTER life_step { LANG: C WRITES: life::cell(boundary) } "edge"
schedule life_count AT POSTSTEP { LANG: C READS: life::cell(everywhere) WRITES: life::live } "count"
"#;
