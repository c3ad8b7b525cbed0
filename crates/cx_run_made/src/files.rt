//! The files of a run that is made from a seed and a size.

ghost use Rattle.std.specs.Prelude.{◌≡◌, ◌++◌, ◌∷◌, [], codes, IfOk, OnOk};
ghost use Rattle.cx_run_made.specs.Files.{file_name, interface, made_files, parameters, params, schedule, thorn_list};

use cx_text::{List, Memory, Text};
use std::alloc::Global;

/// The name of the parameter file, `made.par`. It fails when out of memory.
pub fn file_name(alloc: Global) -> Result<Text, Memory>
    ensures { IfOk result (λ name. name ≡ file_name) }
{
    Text::from_slice(alloc, b"made.par")
}

/// The files of a run that is made from a seed and a size, each a name and its bytes: the list of thorns, the thorn Life2D's interface,
/// parameters and schedule, and the parameter file `made.par`. The run takes 20 iterations on a sheet of `size` times `size` points,
/// which is periodic both ways and cut into four times four parts, and begins with cells by the number `seed`.
///
/// It fails when out of memory.
pub fn made_files(alloc: Global, seed: u64, size: u32) -> Result<List<(Text, Text)>, Memory>
    ensures { IfOk result (λ files. files ≡ made_files seed size) }
{
    let mut files = List::empty(alloc);
    push_list(&mut files, alloc)?;
    push_interface(&mut files, alloc)?;
    push_params(&mut files, alloc)?;
    push_schedule(&mut files, alloc)?;
    files.push((file_name(alloc)?, parameters(alloc, seed, size)?))?;
    Ok(files)
}

/// Adds a file of this name and these bytes.
fn push_file(
    files: &mut List<(Text, Text)>,
    alloc: Global,
    name: &[u8],
    bytes: &[u8],
) -> Result<(), Memory>
    ensures { OnOk result (files.new ≡ files.old ++ (name.now, bytes.now) ∷ []) }
{
    files.push((
        Text::from_slice(alloc, name)?,
        Text::from_slice(alloc, bytes)?,
    ))
}

/// Adds the list of thorns.
fn push_list(files: &mut List<(Text, Text)>, alloc: Global) -> Result<(), Memory>
    ensures { OnOk result (files.new ≡ files.old ++ (codes "ThornList", thorn_list) ∷ []) }
{
    push_file(files, alloc, b"ThornList", b"Integer/Life2D\n")
}

/// Adds the thorn's interface.
fn push_interface(files: &mut List<(Text, Text)>, alloc: Global) -> Result<(), Memory>
    ensures { let name = codes "arrangements/Integer/Life2D/interface.ccl" in
        OnOk result (files.new ≡ files.old ++ (name, interface) ∷ []) }
{
    push_file(
        files,
        alloc,
        b"arrangements/Integer/Life2D/interface.ccl",
        b"implements: life\n\
        public:\n\
        CCTK_BYTE cells TYPE=GF DIM=2 { cell } \"cells\"\n\
        CCTK_INT counts TYPE=SCALAR { live } \"live cells\"\n",
    )
}

/// Adds the thorn's parameters.
fn push_params(files: &mut List<(Text, Text)>, alloc: Global) -> Result<(), Memory>
    ensures { let name = codes "arrangements/Integer/Life2D/param.ccl" in
        OnOk result (files.new ≡ files.old ++ (name, params) ∷ []) }
{
    push_file(
        files,
        alloc,
        b"arrangements/Integer/Life2D/param.ccl",
        b"restricted:\n\
        INT born { 0:511 } 8\n\
        INT survive { 0:511 } 12\n\
        KEYWORD pattern { \"glider\" \"random\" } \"glider\"\n\
        INT seed { 0:* } 0\n",
    )
}

/// Adds the thorn's schedule.
fn push_schedule(files: &mut List<(Text, Text)>, alloc: Global) -> Result<(), Memory>
    ensures { let name = codes "arrangements/Integer/Life2D/schedule.ccl" in
        OnOk result (files.new ≡ files.old ++ (name, schedule) ∷ []) }
{
    push_file(
        files,
        alloc,
        b"arrangements/Integer/Life2D/schedule.ccl",
        b"STORAGE: cells[1] counts[1]\n\
        schedule life_init AT INITIAL { LANG: C WRITES: life::cell(everywhere) } \"start\"\n\
        schedule life_step AT EVOL\n\
        {\n\
        \x20 LANG: C\n\
        \x20 SYNC: cells\n\
        \x20 READS: life::cell(everywhere)\n\
        \x20 WRITES: life::cell(interior)\n\
        } \"one step\"\n\
        schedule life_zero AT EVOL AFTER life_step { LANG: C WRITES: life::cell(boundary) } \"edge\"\n\
        schedule life_count AT POSTSTEP { LANG: C READS: life::cell(everywhere) WRITES: life::live } \"count\"\n",
    )
}

/// The bytes of the parameter file.
fn parameters(alloc: Global, seed: u64, size: u32) -> Result<Text, Memory>
    ensures { IfOk result (λ text. text ≡ parameters seed size) }
{
    let text = format!(in alloc;
        "ActiveThorns = \"Life2D\"\n\
        Cactus::cctk_itlast = 20\n\
        driver::global_nx = {size}\n\
        driver::global_ny = {size}\n\
        driver::periodic = yes\n\
        driver::parts_x = 4\n\
        driver::parts_y = 4\n\
        life::pattern = \"random\"\n\
        life::seed = {seed}\n\
        IO::out_dir = \"made\"\n\
        IO::checkpoint_dir = \"made\"\n\
        IO::out_every = 20\n\
        IO::out_vars = \"life::cell\"\n\
        IO::checkpoint_every = 10\n"
    )?;
    Ok(Text::new(text.into_bytes()))
}
