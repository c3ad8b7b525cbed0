//! The heat equation.

pub const INTERFACE: &[u8] = br#"implements: diff
public:
CCTK_INT evolved TYPE=GF DIM=1 { u } "field"
CCTK_INT sums TYPE=SCALAR { total } "sum"
"#;

pub const PARAM: &[u8] = br#"restricted:
INT factor "in 256ths" { 0:* :: "" } 64
KEYWORD pattern "start" { "point" "uniform" "alternate" "random" } "point"
INT amount "height" { *:* :: "" } 8
INT start "place" { 0:* :: "" } 0
INT seed "mixing" { 0:* :: "" } 0
INT edge "boundary value" { *:* :: "" } 0
BOOLEAN sum "print the sum" { } "no"
"#;

pub const SCHEDULE: &[u8] = br#"STORAGE: evolved[1] sums[1]
schedule diff_init AT INITIAL
{ LANG: C WRITES: diff::u(everywhere) } "start"
schedule diff_step AT EVOL
{
  LANG: C
  SYNC: evolved
  READS: diff::u(everywhere)
  WRITES: diff::u(interior)
} "one step"
schedule diff_flat AT EVOL AFTER diff_step
{ LANG: C READS: diff::u(interior) WRITES: diff::u(boundary) } "flat edge"
if (sum)
{
  schedule diff_sum AT ANALYSIS
  { LANG: C READS: diff::u(everywhere) WRITES: diff::total } "sum"
}
"#;
