//! The wave equation.

pub const INTERFACE: &[u8] = br#"implements: wave
public:
CCTK_INT evolved TYPE=GF DIM=1 TIMELEVELS=3 { phi } "field"
CCTK_INT sums TYPE=SCALAR { total } "sum"
"#;

pub const PARAM: &[u8] = br#"restricted:
INT factor "in 256ths" { 0:* :: "" } 64
KEYWORD pattern "start" { "point" "uniform" "alternate" "random" } "point"
INT amount "height" { *:* :: "" } 8
INT start "place" { 0:* :: "" } 0
INT seed "mixing" { 0:* :: "" } 0
INT edge "boundary value" { *:* :: "" } 0
BOOLEAN sum "print the sum" { } "no"
"#;

pub const SCHEDULE: &[u8] = br#"STORAGE: evolved[3] sums[1]
schedule wave_init AT INITIAL
{ LANG: C WRITES: wave::phi(everywhere) wave::phi_p(everywhere) } "start"
schedule wave_step AT EVOL
{
  LANG: C
  SYNC: evolved
  READS: wave::phi_p(everywhere) wave::phi_p_p(interior)
  WRITES: wave::phi(interior)
} "one step"
schedule wave_flat AT EVOL AFTER wave_step
{ LANG: C READS: wave::phi(interior) WRITES: wave::phi(boundary) } "flat edge"
if (sum)
{
  schedule wave_sum AT ANALYSIS
  { LANG: C READS: wave::phi(everywhere) WRITES: wave::total } "sum"
}
"#;
