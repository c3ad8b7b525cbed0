//! Parameter files of examples/ and of several crates of tests, and what they write.

pub const CA: &[u8] = b"ActiveThorns = \"ElemCA\"\n\
        Cactus::cctk_itlast = 2\n\
        driver::global_nx = 8\n\
        driver::periodic = yes\n\
        ca::start = 3\n\
        IO::out_vars = \"ca::cell\"\n";

/// The automaton's three iterations.
pub const CA_OUTPUT: &[u8] = b"# ca::cell iteration 0 size 8\n\
    0 0 0 1 0 0 0 0\n\
    \n\
    # ca::cell iteration 1 size 8\n\
    0 0 1 0 1 0 0 0\n\
    \n\
    # ca::cell iteration 2 size 8\n\
    0 1 0 0 0 1 0 0\n\
    \n";

pub const LIFE: &[u8] = b"# a glider on a sheet that is periodic both ways\n\
        ActiveThorns = \"Life2D\"\n\
        Cactus::cctk_itlast = 4\n\
        driver::global_nx = 8\n\
        driver::global_ny = 8\n\
        driver::periodic = yes\n\
        life::pattern = \"glider\"\n\
        IO::out_vars = \"life::cell life::live\"\n";

pub const WAVE: &[u8] = b"# a wave from one point of a ring\n\
        ActiveThorns = \"WaveInt\"\n\
        Cactus::cctk_itlast = 1\n\
        driver::global_nx = 6\n\
        driver::periodic = yes\n\
        wave::factor = 256\n\
        wave::pattern = \"point\"\n\
        wave::amount = 8\n\
        wave::start = 2\n\
        IO::out_vars = \"wave::phi\"\n";

pub const HEAT: &[u8] = b"# heat from one point of a rod with flat ends, and its sum\n\
        ActiveThorns = \"DiffInt\"\n\
        Cactus::cctk_itlast = 10\n\
        driver::global_nx = 16\n\
        diff::pattern = \"point\"\n\
        diff::amount = 1000\n\
        diff::start = 8\n\
        diff::sum = yes\n\
        IO::out_vars = \"diff::u diff::total\"\n";

pub const CONTROL: &[u8] = b"# turns that are counted down\n\
        ActiveThorns = \"Control\"\n\
        Cactus::cctk_itlast = 1\n\
        control::turns = 5\n\
        control::drop = 1\n\
        IO::out_vars = \"control::count\"\n";

pub const GLIDER: &[u8] =
    b"# a glider that goes once around a sheet, and is back after 48 iterations\n\
    ActiveThorns = \"Life2D\"\n\
    Cactus::cctk_itlast = 48\n\
    driver::global_nsize = 12\n\
    driver::periodic = yes\n\
    life::pattern = \"glider\"\n\
    IO::out_dir = $parfile\n\
    IO::out_every = 24\n\
    IO::out_vars = \"life::cell life::live\"\n";

pub const BOX: &[u8] = b"!DESC \"a wave, heat, cells and a count, together in one box\"\n\
    \n\
    Cactus::cctk_run_title = \"All in one box\"\n\
    \n\
    ActiveThorns = \"PUGH IOUtil\"\n\
    ActiveThorns = \"WaveInt DiffInt ElemCA Control\"\n\
    \n\
    Cactus::terminate   = \"iteration\"\n\
    Cactus::cctk_itlast = 40\n\
    \n\
    driver::global_nx   = 40\n\
    driver::ghost_size  = 1      # one ghost point per side\n\
    driver::parts_x     = 3\n\
    \n\
    wave::pattern = \"uniform\"\n\
    wave::amount  = 5\n\
    wave::sum     = yes\n\
    \n\
    IO::out_dir   = $parfile\n\
    IO::out_every = 20\n\
    IO::out_vars  = \"wave::phi\n\
    \x20                wave::total\"\n";

/// A checkpoint in each iteration, and a start from the newest one.
pub const EACH: &str = "IO::checkpoint_every = 1\nIO::recover = \"autoprobe\"\n";

/// Waves in a box of forty points, written in iterations 0, 20 and 40: their fields and their sums, of 341 and 110 bytes.
pub const BOX_FIELDS: &[u8] = b"# wave::phi iteration 0 size 40\n\
    5 5 5 5 5 5 5 5 5 5 5 5 5 5 5 5 5 5 5 5 5 5 5 5 5 5 5 5 5 5 5 5 5 5 5 5 5 5 5 5\n\
    \n\
    # wave::phi iteration 20 size 40\n\
    5 5 5 5 5 5 5 5 5 5 5 5 5 5 5 5 5 5 5 5 5 5 5 5 5 5 5 5 5 5 5 5 5 5 5 5 5 5 5 5\n\
    \n\
    # wave::phi iteration 40 size 40\n\
    5 5 5 5 5 5 5 5 5 5 5 5 5 5 5 5 5 5 5 5 5 5 5 5 5 5 5 5 5 5 5 5 5 5 5 5 5 5 5 5\n\
    \n";

pub const BOX_SUMS: &[u8] = b"# wave::total iteration 0 value 200\n\
    # wave::total iteration 20 value 200\n\
    # wave::total iteration 40 value 200\n";

/// Numbers that leave 16 bits in iteration 7, in four parts.
pub const LEAVES: &[u8] = b"ActiveThorns = \"DiffInt\"\n\
    Cactus::cctk_itlast = 20\n\
    driver::global_nx = 16\n\
    driver::periodic = yes\n\
    driver::parts_x = 4\n\
    diff::factor = 256\n\
    diff::amount = 100\n\
    diff::start = 2\n\
    IO::out_vars = \"diff::u\"\n";

/// DiffInt's interface, with its field in 16 bits.
pub const SHORT_HEAT: &[u8] = b"implements: diff\n\
    public:\n\
    CCTK_INT2 evolved TYPE=GF DIM=1 { u } \"field\"\n\
    CCTK_INT sums TYPE=SCALAR { total } \"sum\"\n";

/// What is printed of words that aren't a command.
pub const USAGE: &str = "usage: cactus run FILE [--turns SEED]\n\
        \x20      cactus check FILE\n\
        \x20      cactus schedule FILE\n\
        \x20      cactus describe FILE\n\
        \x20      cactus parts FILE\n\
        \x20      cactus make SEED SIZE\n\
        \x20      cactus chunk FILE\n\
        \x20      cactus recombine FILE\n\
        \x20      cactus batch FILE FILE [FILE ...]\n";
