//! Waves in a box of forty points with two checkpoints, and what a former version wrote of them.

/// The box in three parts.
pub(crate) const BOX: &[u8] = b"ActiveThorns = \"PUGH IOUtil\"\n\
    ActiveThorns = \"WaveInt DiffInt ElemCA Control\"\n\
    Cactus::cctk_run_title = \"box\"\n\
    Cactus::terminate = \"iteration\"\n\
    Cactus::cctk_itlast = 40\n\
    driver::global_nx = 40\n\
    driver::ghost_size = 1\n\
    driver::parts_x = 3\n\
    wave::pattern = \"uniform\"\n\
    wave::amount = 5\n\
    wave::sum = yes\n\
    IO::out_dir = $parfile\n\
    IO::out_every = 20\n\
    IO::out_vars = \"wave::phi wave::total\"\n\
    IO::checkpoint_every = 20\n\
    IO::checkpoint_keep = 2\n\
    IO::recover = \"autoprobe\"\n";

/// Its fields and sums in one file, as a former version wrote them up to the checkpoint of iteration 40: 300 bytes.
pub(crate) const FORMER: &[u8] = b"# wave::phi iteration 0 size 40\n\
    5 5 5 5 5 5 5 5 5 5 5 5 5 5 5 5 5 5 5 5 5 5 5 5 5 5 5 5 5 5 5 5 5 5 5 5 5 5 5 5\n\
    \n\
    # wave::total iteration 0 value 200\n\
    # wave::phi iteration 20 size 40\n\
    5 5 5 5 5 5 5 5 5 5 5 5 5 5 5 5 5 5 5 5 5 5 5 5 5 5 5 5 5 5 5 5 5 5 5 5 5 5 5 5\n\
    \n\
    # wave::total iteration 20 value 200\n";
