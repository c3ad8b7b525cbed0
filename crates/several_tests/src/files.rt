//! The parameter files that take turns.

use sample_files::File;
use sample_runs::samples::{CA, SHORT_HEAT};

/// The automaton in a folder of the file's own name.
const OWN: &[u8] = b"ActiveThorns = \"ElemCA\"\n\
    Cactus::cctk_itlast = 2\n\
    driver::global_nx = 8\n\
    driver::periodic = yes\n\
    ca::start = 3\n\
    IO::out_vars = \"ca::cell\"\n\
    IO::out_dir = $parfile\n\
    IO::checkpoint_dir = $parfile\n";

/// The automaton with its outputs in one folder and its checkpoints in another.
const APART: &[u8] = b"ActiveThorns = \"ElemCA\"\n\
    IO::out_dir = $parfile\n\
    IO::checkpoint_dir = \"ca\"\n";

/// Waves in a box of forty points, with two checkpoints.
const BOX: &[u8] = b"ActiveThorns = \"WaveInt DiffInt ElemCA Control\"\n\
    Cactus::cctk_itlast = 40\n\
    driver::global_nx = 40\n\
    driver::parts_x = 3\n\
    wave::pattern = \"uniform\"\n\
    wave::amount = 5\n\
    wave::sum = yes\n\
    IO::out_dir = $parfile\n\
    IO::out_every = 20\n\
    IO::out_vars = \"wave::phi wave::total\"\n\
    IO::checkpoint_every = 20\n\
    IO::recover = \"autoprobe\"\n";

/// A glider in three parts, cut anew after iteration 4.
const GLIDER: &[u8] = b"ActiveThorns = \"Life2D\"\n\
    Cactus::cctk_itlast = 5\n\
    driver::global_nsize = 8\n\
    driver::periodic = yes\n\
    driver::parts_y = 3\n\
    driver::balance = yes\n\
    driver::weight = \"life::cell\"\n\
    driver::weight_factor = 100\n\
    life::pattern = \"glider\"\n\
    IO::checkpoint_every = 4\n\
    IO::checkpoint_dir = $parfile\n\
    IO::out_dir = $parfile\n";

/// Heat that leaves 16 bits in iteration 7, in a folder of its own.
const HEAT: &[u8] = b"ActiveThorns = \"DiffInt\"\n\
    Cactus::cctk_itlast = 20\n\
    driver::global_nx = 16\n\
    driver::periodic = yes\n\
    driver::parts_x = 4\n\
    diff::factor = 256\n\
    diff::amount = 100\n\
    diff::start = 2\n\
    IO::out_vars = \"diff::u\"\n\
    IO::out_dir = \"d\"\n\
    IO::checkpoint_dir = \"d\"\n";

/// Heat on as many points as a grid may have.
const MANY: &[u8] = b"ActiveThorns = \"DiffInt\"\n\
    driver::global_nx = 16777216\n\
    IO::out_dir = $parfile\n\
    IO::checkpoint_dir = $parfile\n";

/// A file under a name.
macro_rules! file {
    ($name:expr, $bytes:expr) => {
        File {
            name: $name,
            bytes: $bytes,
        }
    };
}

/// All of them; the interface is that of DiffInt, but for the type.
pub(crate) const FILES: &[File] = &[
    file!("ca.par", OWN),
    file!("box.par", BOX),
    file!("glider.par", GLIDER),
    file!("d.par", HEAT),
    file!("arrangements/Integer/DiffInt/interface.ccl", SHORT_HEAT),
    file!("a.par", CA),
    file!("b.par", CA),
    file!("apart.par", APART),
    file!("open.par", b"a = \"1\n"),
    file!("g1.par", MANY),
    file!("g2.par", MANY),
    file!("g3.par", MANY),
    file!("g4.par", MANY),
    file!("g5.par", MANY),
    file!("1.par", OWN),
    file!("2.par", OWN),
    file!("3.par", OWN),
    file!("4.par", OWN),
    file!("5.par", OWN),
    file!("6.par", OWN),
    file!("7.par", OWN),
    file!("8.par", OWN),
];
