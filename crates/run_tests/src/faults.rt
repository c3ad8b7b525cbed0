//! Files that make no job, and why.
use sample_files::File;

/// Files that stand in place of others or beside them, and what `check t.par` prints of them.
pub struct Fault {
    pub files: &'static [File],
    pub printed: &'static str,
}

/// Two thorns that do nothing.
pub const PLAIN: &[File] = &[
    File {
        name: "t.par",
        bytes: b"ActiveThorns = \"T U\"\n",
    },
    File {
        name: "ThornList",
        bytes: b"A/T\nA/U\n",
    },
    File {
        name: "arrangements/A/T/interface.ccl",
        bytes: b"implements: t\n",
    },
    File {
        name: "arrangements/A/T/param.ccl",
        bytes: b"",
    },
    File {
        name: "arrangements/A/T/schedule.ccl",
        bytes: b"",
    },
    File {
        name: "arrangements/A/U/interface.ccl",
        bytes: b"implements: u\n",
    },
    File {
        name: "arrangements/A/U/param.ccl",
        bytes: b"",
    },
    File {
        name: "arrangements/A/U/schedule.ccl",
        bytes: b"",
    },
];

/// What stands in place of the plain files or beside them, and what `check t.par` prints.
pub const FAULTS: &[Fault] = &[
    Fault {
        files: &[],
        printed: "accepted\n",
    },
    Fault {
        files: &[
            File {
                name: "ThornList",
                bytes: b"A/T\nA/V\n",
            },
            File {
                name: "t.par",
                bytes: b"ActiveThorns = \"T V\"\n",
            },
        ],
        printed: "refused: NoFile arrangements/A/V/interface.ccl\n",
    },
    Fault {
        files: &[File {
            name: "arrangements/A/T/interface.ccl",
            bytes: b"implements: t\n\x01\n",
        }],
        printed: "refused: arrangements/A/T/interface.ccl BadByte 2\n",
    },
    Fault {
        files: &[File {
            name: "arrangements/A/T/interface.ccl",
            bytes: b"implements: t\npublic:\nINT g\n\"open\n",
        }],
        printed: "refused: arrangements/A/T/interface.ccl OpenQuote 4\n",
    },
    Fault {
        files: &[File {
            name: "arrangements/A/T/schedule.ccl",
            bytes: b"schedule x",
        }],
        printed: "refused: arrangements/A/T/schedule.ccl Unexpected 1\n",
    },
    Fault {
        files: &[File {
            name: "arrangements/A/T/interface.ccl",
            bytes: b"implements: t\n\
        public:\n\
        INT g TYPE=GF TIMELEVELS=2 TIMELEVELS=3\n",
        }],
        printed: "refused: arrangements/A/T/interface.ccl Repeated 3\n",
    },
    Fault {
        files: &[File {
            name: "arrangements/A/T/interface.ccl",
            bytes: b"implements: t\nINT g DIM=4\n",
        }],
        printed: "refused: arrangements/A/T/interface.ccl BadNumber 2\n",
    },
    Fault {
        files: &[File {
            name: "arrangements/A/T/interface.ccl",
            bytes: b"implements: t\n\
        public:\n\
        INT g\n\
        {\n\
        aaaaaaaaaaaaaaaaaaaaaaaaaaaaaaaaaaaaaaaaaaaaaaaaaaaaaaaaaaaaaaaaa\n\
        }\n",
        }],
        printed: "refused: arrangements/A/T/interface.ccl Limit 5\n",
    },
    Fault {
        files: &[File {
            name: "t.par",
            bytes: b"ActiveThorns = \"T Xyz\"\n",
        }],
        printed: "refused: UnknownThorn Xyz\n",
    },
    Fault {
        files: &[File {
            name: "ThornList",
            bytes: b"A/T\nB/T\nA/U\n",
        }],
        printed: "refused: TwoThorns T\n",
    },
    Fault {
        files: &[File {
            name: "arrangements/A/U/interface.ccl",
            bytes: b"implements: t\n",
        }],
        printed: "refused: TwoProviders t T U\n",
    },
    Fault {
        files: &[File {
            name: "arrangements/A/T/interface.ccl",
            bytes: b"implements: t\ninherits: none\n",
        }],
        printed: "refused: MissingImplementation T none\n",
    },
    Fault {
        files: &[File {
            name: "arrangements/A/T/configuration.ccl",
            bytes: b"REQUIRES Fast\n",
        }],
        printed: "refused: MissingCapability T Fast\n",
    },
    Fault {
        files: &[File {
            name: "arrangements/A/T/configuration.ccl",
            bytes: b"REQUIRES THORNS: V\n",
        }],
        printed: "refused: MissingThorn T V\n",
    },
    Fault {
        files: &[File {
            name: "arrangements/A/T/param.ccl",
            bytes: b"shares: u\nUSES INT p\n",
        }],
        printed: "refused: NoParameter T u p\n",
    },
    Fault {
        files: &[
            File {
                name: "arrangements/A/U/param.ccl",
                bytes: b"restricted:\nINT p { 0:* } 0\n",
            },
            File {
                name: "arrangements/A/T/param.ccl",
                bytes: b"shares: u\nUSES BOOLEAN p\n",
            },
        ],
        printed: "refused: WrongType T p\n",
    },
    Fault {
        files: &[File {
            name: "arrangements/A/T/interface.ccl",
            bytes: b"implements: t\npublic:\nINT a { v }\nINT b { v }\n",
        }],
        printed: "refused: TwoVariables t::v\n",
    },
    Fault {
        files: &[File {
            name: "arrangements/A/T/param.ccl",
            bytes: b"INT p { 0:* } 0\nINT p { 0:* } 0\n",
        }],
        printed: "refused: TwoParameters T::p\n",
    },
    Fault {
        files: &[File {
            name: "arrangements/A/T/interface.ccl",
            bytes: b"implements: t\nCCTK_REAL r\n",
        }],
        printed: "refused: Unsupported T r\n",
    },
    Fault {
        files: &[File {
            name: "arrangements/A/T/interface.ccl",
            bytes: b"implements: t\n\
        public:\n\
        INT a TYPE=GF DIM=1\n\
        INT b TYPE=GF DIM=2\n",
        }],
        printed: "refused: TwoDims t::a t::b\n",
    },
    Fault {
        files: &[File {
            name: "arrangements/A/T/interface.ccl",
            bytes: b"implements: t\npublic:\nINT g[64] { a b c d e }\n",
        }],
        printed: "refused: Limit variables 320\n",
    },
    Fault {
        files: &[File {
            name: "arrangements/A/T/param.ccl",
            bytes: b"INT p { 0:10 } 11\n",
        }],
        printed: "refused: BadDefault T::p\n",
    },
    Fault {
        files: &[File {
            name: "t.par",
            bytes: b"ActiveThorns = \"T U\"\nt::q = 1\n",
        }],
        printed: "refused: UnknownParam 2\n",
    },
    Fault {
        files: &[
            File {
                name: "arrangements/A/T/param.ccl",
                bytes: b"INT p[2] { 0:* } 0\n",
            },
            File {
                name: "t.par",
                bytes: b"ActiveThorns = \"T U\"\nT::p = 1\n",
            },
        ],
        printed: "refused: Index 2\n",
    },
    Fault {
        files: &[File {
            name: "t.par",
            bytes: b"ActiveThorns = \"T U\"\ndriver::global_nx = x\n",
        }],
        printed: "refused: BadSpelling 2\n",
    },
    Fault {
        files: &[File {
            name: "t.par",
            bytes: b"ActiveThorns = \"T U\"\ndriver::global_nx = 0\n",
        }],
        printed: "refused: OutOfRange 2\n",
    },
    Fault {
        files: &[File {
            name: "t.par",
            bytes: b"ActiveThorns = \"T U\"\n\
        driver::global_nx = 1\n\
        driver::global_nx = 1\n",
        }],
        printed: "refused: Twice 3\n",
    },
    Fault {
        files: &[File {
            name: "arrangements/A/T/schedule.ccl",
            bytes: b"if (x) { }\n",
        }],
        printed: "refused: T UnknownName x\n",
    },
    Fault {
        files: &[
            File {
                name: "arrangements/A/T/param.ccl",
                bytes: b"KEYWORD k { \"a\" } \"a\"\n",
            },
            File {
                name: "arrangements/A/T/schedule.ccl",
                bytes: b"if (k + 1) { }\n",
            },
        ],
        printed: "refused: T NotNumber k\n",
    },
    Fault {
        files: &[
            File {
                name: "arrangements/A/T/param.ccl",
                bytes: b"INT n { 0:* } 0\n",
            },
            File {
                name: "arrangements/A/T/schedule.ccl",
                bytes: b"if (CCTK_Equals(n, \"a\")) { }\n",
            },
        ],
        printed: "refused: T NotText n\n",
    },
    Fault {
        files: &[File {
            name: "arrangements/A/T/schedule.ccl",
            bytes: b"if (7 / 0) { }\n",
        }],
        printed: "refused: T Range /\n",
    },
    Fault {
        files: &[File {
            name: "arrangements/A/T/schedule.ccl",
            bytes: b"schedule a AT NOON { }\n",
        }],
        printed: "refused: UnknownBin NOON\n",
    },
    Fault {
        files: &[File {
            name: "arrangements/A/T/schedule.ccl",
            bytes: b"schedule a AT EVOL { }\nschedule a AT EVOL { }\n",
        }],
        printed: "refused: TwoNames EVOL/a\n",
    },
    Fault {
        files: &[File {
            name: "arrangements/A/T/schedule.ccl",
            bytes: b"schedule GROUP P IN Q { }\nschedule GROUP Q IN P { }\n",
        }],
        printed: "refused: GroupCycle P,Q\n",
    },
    Fault {
        files: &[File {
            name: "arrangements/A/T/schedule.ccl",
            bytes: b"schedule A AT EVOL BEFORE B { }\n\
        schedule B AT EVOL BEFORE C { }\n\
        schedule C AT EVOL BEFORE A { }\n",
        }],
        printed: "refused: Cycle A,B,C\n",
    },
    Fault {
        files: &[File {
            name: "arrangements/A/T/schedule.ccl",
            bytes: b"STORAGE: g\n",
        }],
        printed: "refused: T NotFound g\n",
    },
    Fault {
        files: &[
            File {
                name: "arrangements/A/U/interface.ccl",
                bytes: b"implements: u\nINT h { w }\n",
            },
            File {
                name: "arrangements/A/T/schedule.ccl",
                bytes: b"schedule a AT EVOL { READS: w }\n",
            },
        ],
        printed: "refused: EVOL/a Hidden w\n",
    },
    Fault {
        files: &[
            File {
                name: "arrangements/A/T/interface.ccl",
                bytes: b"implements: t\n\
                public:\n\
                INT g TYPE=GF DIM=1 TIMELEVELS=2 { v }\n\
                INT s TYPE=SCALAR\n",
            },
            File {
                name: "arrangements/A/T/schedule.ccl",
                bytes: b"schedule a AT EVOL { READS: v }\n",
            },
        ],
        printed: "refused: EVOL/a NoStorage v\n",
    },
    Fault {
        files: &[
            File {
                name: "arrangements/A/T/interface.ccl",
                bytes: b"implements: t\n\
                public:\n\
                INT g TYPE=GF DIM=1 TIMELEVELS=2 { v }\n\
                INT s TYPE=SCALAR\n",
            },
            File {
                name: "arrangements/A/T/schedule.ccl",
                bytes: b"STORAGE: g[1]\nschedule a AT EVOL { READS: v_p }\n",
            },
        ],
        printed: "refused: EVOL/a NoLevel v_p\n",
    },
    Fault {
        files: &[
            File {
                name: "arrangements/A/T/interface.ccl",
                bytes: b"implements: t\n\
                public:\n\
                INT g TYPE=GF DIM=1 TIMELEVELS=2 { v }\n\
                INT s TYPE=SCALAR\n",
            },
            File {
                name: "arrangements/A/T/schedule.ccl",
                bytes: b"STORAGE: g\nschedule a AT EVOL IF v { }\n",
            },
        ],
        printed: "refused: EVOL/a NotScalar v\n",
    },
    Fault {
        files: &[
            File {
                name: "arrangements/A/T/interface.ccl",
                bytes: b"implements: t\n\
                public:\n\
                INT g TYPE=GF DIM=1 TIMELEVELS=2 { v }\n\
                INT s TYPE=SCALAR\n",
            },
            File {
                name: "arrangements/A/T/schedule.ccl",
                bytes: b"STORAGE: s\nschedule a AT EVOL { SYNC: s }\n",
            },
        ],
        printed: "refused: EVOL/a NotGrid s\n",
    },
    Fault {
        files: &[File {
            name: "arrangements/A/T/schedule.ccl",
            bytes: b"schedule GROUP g0 AT EVOL { }\n\
        schedule GROUP g1 IN g0 { }\n\
        schedule GROUP g2 IN g1 { }\n\
        schedule GROUP g3 IN g2 { }\n\
        schedule GROUP g4 IN g3 { }\n\
        schedule GROUP g5 IN g4 { }\n\
        schedule GROUP g6 IN g5 { }\n\
        schedule GROUP g7 IN g6 { }\n\
        schedule GROUP g8 IN g7 { }\n\
        schedule GROUP g9 IN g8 { }\n\
        schedule GROUP g10 IN g9 { }\n\
        schedule GROUP g11 IN g10 { }\n\
        schedule GROUP g12 IN g11 { }\n\
        schedule GROUP g13 IN g12 { }\n\
        schedule GROUP g14 IN g13 { }\n\
        schedule GROUP g15 IN g14 { }\n\
        schedule GROUP g16 IN g15 { }\n\
        schedule GROUP g17 IN g16 { }\n\
        schedule GROUP g18 IN g17 { }\n\
        schedule GROUP g19 IN g18 { }\n\
        schedule GROUP g20 IN g19 { }\n\
        schedule GROUP g21 IN g20 { }\n\
        schedule GROUP g22 IN g21 { }\n\
        schedule GROUP g23 IN g22 { }\n\
        schedule GROUP g24 IN g23 { }\n\
        schedule GROUP g25 IN g24 { }\n\
        schedule GROUP g26 IN g25 { }\n\
        schedule GROUP g27 IN g26 { }\n\
        schedule GROUP g28 IN g27 { }\n\
        schedule GROUP g29 IN g28 { }\n\
        schedule GROUP g30 IN g29 { }\n\
        schedule a IN g30 { }\n",
        }],
        printed: "refused: Limit depth 33\n",
    },
    Fault {
        files: &[File {
            name: "t.par",
            bytes: b"ActiveThorns = \"T U\"\nIO::out_vars = \"t::none\"\n",
        }],
        printed: "refused: output NotFound t::none\n",
    },
    Fault {
        files: &[File {
            name: "arrangements/A/T/schedule.ccl",
            bytes: b"schedule a AT EVOL { }\n",
        }],
        printed: "refused: UnknownRoutine EVOL/a\n",
    },
];

/// A grid function of two timelevels and a scalar of the first thorn.
const VARIABLES: File = File {
    name: "arrangements/A/T/interface.ccl",
    bytes: b"implements: t\n\
    public:\n\
    INT g TYPE=GF DIM=1 TIMELEVELS=2 { v }\n\
    INT s TYPE=SCALAR\n",
};

const STORED_GRID: File = File {
    name: "arrangements/A/T/schedule.ccl",
    bytes: b"STORAGE: g\n",
};

const STORED_SCALAR: File = File {
    name: "arrangements/A/T/schedule.ccl",
    bytes: b"STORAGE: s\n",
};

/// The same of the variable that weighs.
pub const WEIGHT_FAULTS: &[Fault] = &[
    Fault {
        files: &[
            VARIABLES,
            File {
                name: "arrangements/A/T/schedule.ccl",
                bytes: b"STORAGE: g[1]\n",
            },
            File {
                name: "t.par",
                bytes: b"ActiveThorns = \"T U\"\ndriver::weight = \"T::V\"\n",
            },
        ],
        printed: "accepted\n",
    },
    Fault {
        files: &[
            VARIABLES,
            STORED_GRID,
            File {
                name: "t.par",
                bytes: b"ActiveThorns = \"T U\"\ndriver::weight = \" t::v\"\n",
            },
        ],
        printed: "refused: weight NotFound  t::v\n",
    },
    Fault {
        files: &[
            VARIABLES,
            STORED_GRID,
            File {
                name: "t.par",
                bytes: b"ActiveThorns = \"T U\"\ndriver::weight = \"t::g\"\n",
            },
        ],
        printed: "refused: weight NotFound t::g\n",
    },
    Fault {
        files: &[
            VARIABLES,
            STORED_GRID,
            File {
                name: "t.par",
                bytes: b"ActiveThorns = \"T U\"\ndriver::weight = \"t::v_p\"\n",
            },
        ],
        printed: "refused: weight NotFound t::v_p\n",
    },
    Fault {
        files: &[
            VARIABLES,
            STORED_SCALAR,
            File {
                name: "t.par",
                bytes: b"ActiveThorns = \"T U\"\ndriver::weight = \"t::s\"\n",
            },
        ],
        printed: "refused: weight NotGrid t::s\n",
    },
    Fault {
        files: &[
            VARIABLES,
            STORED_SCALAR,
            File {
                name: "t.par",
                bytes: b"ActiveThorns = \"T U\"\ndriver::weight = \"t::v\"\n",
            },
        ],
        printed: "refused: weight NoStorage t::v\n",
    },
    Fault {
        files: &[
            VARIABLES,
            STORED_SCALAR,
            File {
                name: "t.par",
                bytes: b"ActiveThorns = \"T U\"\ndriver::weight = \"t::none\"\nIO::out_vars = \"t::v\"\n",
            },
        ],
        printed: "refused: output NoStorage t::v\n",
    },
];

/// What stands in place of the sample thorns' files or beside them, and what `check t.par` prints.
pub const SAMPLE_FAULTS: &[Fault] = &[
    Fault {
        files: &[
            File {
                name: "arrangements/Integer/ElemCA/schedule.ccl",
                bytes: b"STORAGE: cells[1] counts[1]\n\
                schedule ca_init AT INITIAL { LANG: C WRITES: ca::cell(everywhere) } \"start\"\n\
                schedule ca_step AT EVOL\n\
                {\n\
                \x20 LANG: C\n\
                \x20 SYNC: cells\n\
                \x20 READS: ca::cell(interior)\n\
                \x20 WRITES: ca::cell(interior)\n\
                } \"one step\"\n\
                schedule ca_zero AT EVOL AFTER ca_step { LANG: C WRITES: ca::cell(boundary) } \"edge\"\n\
                schedule ca_count AT POSTSTEP { LANG: C READS: ca::cell(everywhere) WRITES: ca::live } \"count\"\n",
            },
            File {
                name: "t.par",
                bytes: b"ActiveThorns = \"ElemCA\"\n\
                Cactus::cctk_itlast = 2\n\
                driver::global_nx = 8\n\
                driver::periodic = yes\n\
                ca::start = 3\n\
                IO::out_vars = \"ca::cell\"\n",
            },
        ],
        printed: "refused: RoutineMismatch EVOL/ca_step (reads ca::cell(interior) writes ca::cell(interior)) (reads ca::cell(everywhere) writes ca::cell(interior))\n",
    },
    Fault {
        files: &[File {
            name: "t.par",
            bytes: b"ActiveThorns = \"Life2D\"\n\
        driver::global_nx = 16777216\n\
        driver::global_ny = 2\n",
        }],
        printed: "refused: Limit points 33554432\n",
    },
    Fault {
        files: &[File {
            name: "t.par",
            bytes: b"ActiveThorns = \"WaveInt DiffInt ElemCA\"\n\
        driver::global_nx = 16777216\n",
        }],
        printed: "refused: Limit owned cells 83886080\n",
    },
    Fault {
        files: &[File {
            name: "t.par",
            bytes: b"ActiveThorns = \"DiffInt\"\ndriver::ghost_size = 0\n",
        }],
        printed: "refused: Shape EVOL/diff_step diff::u\n",
    },
    Fault {
        files: &[
            File {
                name: "arrangements/Integer/WaveInt/schedule.ccl",
                bytes: b"STORAGE: evolved[3] sums[1]\n\
                schedule wave_init AT INITIAL\n\
                { LANG: C WRITES: wave::phi(everywhere) wave::phi_p(everywhere) } \"start\"\n\
                schedule wave_step AT EVOL\n\
                {\n\
                \x20 LANG: C\n\
                \x20 READS: wave::phi_p(everywhere) wave::phi_p_p(interior)\n\
                \x20 WRITES: wave::phi(interior)\n\
                } \"one step\"\n\
                schedule wave_flat AT EVOL AFTER wave_step\n\
                { LANG: C READS: wave::phi(interior) WRITES: wave::phi(boundary) } \"flat edge\"\n\
                if (sum)\n\
                {\n\
                \x20 schedule wave_sum AT ANALYSIS\n\
                \x20 { LANG: C READS: wave::phi(everywhere) WRITES: wave::total } \"sum\"\n\
                }\n",
            },
            File {
                name: "t.par",
                bytes: b"ActiveThorns = \"WaveInt\"\n",
            },
        ],
        printed: "refused: Unset i EVOL/wave_flat wave::phi 0 G\n",
    },
    Fault {
        files: &[
            File {
                name: "arrangements/Integer/WaveInt/schedule.ccl",
                bytes: b"STORAGE: evolved[3] sums[1]\n\
                schedule wave_init1 AT INITIAL\n\
                { LANG: C WRITES: wave::phi(everywhere) } \"start\"\n\
                schedule wave_step AT EVOL\n\
                {\n\
                \x20 LANG: C\n\
                \x20 SYNC: evolved\n\
                \x20 READS: wave::phi_p(everywhere) wave::phi_p_p(interior)\n\
                \x20 WRITES: wave::phi(interior)\n\
                } \"one step\"\n\
                schedule wave_flat AT EVOL AFTER wave_step\n\
                { LANG: C READS: wave::phi(interior) WRITES: wave::phi(boundary) } \"flat edge\"\n\
                if (sum)\n\
                {\n\
                \x20 schedule wave_sum AT ANALYSIS\n\
                \x20 { LANG: C READS: wave::phi(everywhere) WRITES: wave::total } \"sum\"\n\
                }\n",
            },
            File {
                name: "t.par",
                bytes: b"ActiveThorns = \"WaveInt\"\n",
            },
        ],
        printed: "refused: Unset i EVOL/wave_step wave::phi 2 I\n",
    },
    Fault {
        files: &[
            File {
                name: "arrangements/Integer/WaveInt/schedule.ccl",
                bytes: b"STORAGE: evolved[3] sums[1]\n\
                schedule wave_init AT INITIAL\n\
                { LANG: C WRITES: wave::phi(everywhere) wave::phi_p(everywhere) } \"start\"\n\
                schedule wave_step AT EVOL\n\
                {\n\
                \x20 LANG: C\n\
                \x20 SYNC: evolved\n\
                \x20 READS: wave::phi_p(everywhere) wave::phi_p_p(interior)\n\
                \x20 WRITES: wave::phi(interior)\n\
                } \"one step\"\n\
                if (sum)\n\
                {\n\
                \x20 schedule wave_sum AT ANALYSIS\n\
                \x20 { LANG: C READS: wave::phi(everywhere) WRITES: wave::total } \"sum\"\n\
                }\n",
            },
            File {
                name: "t.par",
                bytes: b"ActiveThorns = \"WaveInt\"\n",
            },
        ],
        printed: "refused: Unset ii EVOL/wave_step wave::phi 1 B\n",
    },
    // A wave whose only start is after an IF, and the same without the IF.
    Fault {
        files: &[
            File {
                name: "arrangements/Integer/WaveInt/interface.ccl",
                bytes: b"implements: wave\n\
                inherits: control\n\
                public:\n\
                CCTK_INT evolved TYPE=GF DIM=1 TIMELEVELS=3 { phi } \"field\"\n\
                CCTK_INT sums TYPE=SCALAR { total } \"sum\"\n",
            },
            File {
                name: "arrangements/Integer/WaveInt/schedule.ccl",
                bytes: b"STORAGE: evolved[3] sums[1]\n\
                schedule wave_init AT INITIAL IF control::count\n\
                { LANG: C WRITES: wave::phi(everywhere) wave::phi_p(everywhere) } \"start\"\n\
                schedule wave_step AT EVOL\n\
                {\n\
                \x20 LANG: C\n\
                \x20 SYNC: evolved\n\
                \x20 READS: wave::phi_p(everywhere) wave::phi_p_p(interior)\n\
                \x20 WRITES: wave::phi(interior)\n\
                } \"one step\"\n\
                schedule wave_flat AT EVOL AFTER wave_step\n\
                { LANG: C READS: wave::phi(interior) WRITES: wave::phi(boundary) } \"flat edge\"\n\
                if (sum)\n\
                {\n\
                \x20 schedule wave_sum AT ANALYSIS\n\
                \x20 { LANG: C READS: wave::phi(everywhere) WRITES: wave::total } \"sum\"\n\
                }\n",
            },
            File {
                name: "t.par",
                bytes: b"ActiveThorns = \"Control WaveInt\"\n",
            },
        ],
        printed: "refused: Unset nix EVOL/wave_step wave::phi 1 I\n",
    },
    Fault {
        files: &[
            File {
                name: "arrangements/Integer/WaveInt/interface.ccl",
                bytes: b"implements: wave\n\
                inherits: control\n\
                public:\n\
                CCTK_INT evolved TYPE=GF DIM=1 TIMELEVELS=3 { phi } \"field\"\n\
                CCTK_INT sums TYPE=SCALAR { total } \"sum\"\n",
            },
            File {
                name: "t.par",
                bytes: b"ActiveThorns = \"Control WaveInt\"\n",
            },
        ],
        printed: "accepted\n",
    },
];
