//! Jobs whose grids are cut, and what commands print of them.
use sample_files::File;

/// A parameter file, the files that stand in place of others, a command, and what it prints.
pub struct Cut {
    pub name: &'static str,
    pub file: &'static [u8],
    pub others: &'static [File],
    pub word: &'static str,
    pub printed: &'static [u8],
}

pub const CUTS: &[Cut] = &[
    Cut {
        name: "a ring in three parts",
        file: b"ActiveThorns = \"ElemCA\"\n\
            driver::global_nx = 10\n\
            driver::periodic = yes\n\
            driver::parts_x = 3\n",
        others: &[],
        word: "parts",
        printed: b"part 0 from 0 size 4 low 2 high 1\n\
            part 1 from 4 size 3 low 0 high 2\n\
            part 2 from 7 size 3 low 1 high 0\n",
    },
    Cut {
        name: "a sheet in two parts",
        file: b"ActiveThorns = \"Life2D\"\n\
            driver::global_nx = 4\n\
            driver::global_ny = 3\n\
            driver::parts_x = 2\n",
        others: &[],
        word: "parts",
        printed: b"part 0 from 0 0 size 2 3 low - - high 1 -\n\
            part 1 from 2 0 size 2 3 low 0 - high - -\n",
    },
    // The sum of the widths.
    Cut {
        name: "widths whose sum is less",
        file: b"ActiveThorns = \"ElemCA\"\n\
            driver::global_nx = 10\n\
            driver::widths_x = \"4 4\"\n",
        others: &[],
        word: "check",
        printed: b"refused: WidthsDiffer 8 10\n",
    },
    // A grid with no interior point, and one with one.
    Cut {
        name: "no interior point",
        file: b"ActiveThorns = \"ElemCA\"\n\
            driver::global_nx = 4\n\
            driver::ghost_size = 2\n",
        others: &[],
        word: "check",
        printed: b"refused: GridTooSmall 4 5\n",
    },
    Cut {
        name: "one interior point",
        file: b"ActiveThorns = \"ElemCA\"\n\
            driver::global_nx = 5\n\
            driver::ghost_size = 2\n",
        others: &[],
        word: "check",
        printed: b"accepted\n",
    },
    // A part that is thinner than its ghost zone, and one that is as thin.
    Cut {
        name: "a part thinner than its ghost zone",
        file: b"ActiveThorns = \"ElemCA\"\n\
            driver::global_nx = 10\n\
            driver::ghost_size = 2\n\
            driver::widths_x = \"1 9\"\n",
        others: &[],
        word: "check",
        printed: b"refused: PartTooThin 1 2\n",
    },
    Cut {
        name: "a part as thin as its ghost zone",
        file: b"ActiveThorns = \"ElemCA\"\n\
            driver::global_nx = 10\n\
            driver::ghost_size = 2\n\
            driver::widths_x = \"2 8\"\n",
        others: &[],
        word: "check",
        printed: b"accepted\n",
    },
    // 27 times 19 parts, and 32 times 16.
    Cut {
        name: "513 parts",
        file: b"ActiveThorns = \"Life2D\"\n\
            driver::global_nx = 27\n\
            driver::global_ny = 19\n\
            driver::parts_x = 27\n\
            driver::parts_y = 19\n",
        others: &[],
        word: "check",
        printed: b"refused: TooMany 513 512\n",
    },
    Cut {
        name: "512 parts",
        file: b"ActiveThorns = \"Life2D\"\n\
            driver::global_nx = 32\n\
            driver::global_ny = 16\n\
            driver::parts_x = 32\n\
            driver::parts_y = 16\n",
        others: &[],
        word: "check",
        printed: b"accepted\n",
    },
    // 512 strips, each of 24 times 4,098 local points with 3 levels and 2 writes, and a window of 9 values and 1.
    Cut {
        name: "cells of 512 strips",
        file: b"ActiveThorns = \"WaveInt\"\n\
            driver::global_nsize = 4096\n\
            driver::ghost_size_x = 8\n\
            driver::periodic = yes\n\
            driver::parts_x = 512\n",
        others: &[File {
            name: "arrangements/Integer/WaveInt/interface.ccl",
            bytes: b"implements: wave\n\
                public:\n\
                CCTK_INT evolved TYPE=GF DIM=2 TIMELEVELS=3 { phi } \"field\"\n\
                CCTK_INT sums TYPE=SCALAR { total } \"sum\"\n",
        }],
        word: "check",
        printed: b"refused: Limit local cells 251786240\n",
    },
];
