//! A count that a WHILE takes down.

pub const INTERFACE: &[u8] = br#"implements: control
public:
CCTK_INT counter TYPE=SCALAR { count } "turns left"
"#;

pub const PARAM: &[u8] = br#"restricted:
INT turns { 0:* } 3
INT drop { 0:* } 1
"#;

pub const SCHEDULE: &[u8] = br#"STORAGE: counter[1]
schedule control_set AT INITIAL { LANG: C WRITES: control::count } "set"
schedule control_spin AT EVOL WHILE control::count
{ LANG: C READS: control::count WRITES: control::count } "spin"
"#;
