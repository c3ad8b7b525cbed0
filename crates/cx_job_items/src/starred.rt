//! The parameters that only say how and where a run is done.

ghost use Rattle.std.specs.Prelude.{◌≡◌};
ghost use Rattle.std.specs.List.{list_any};
ghost use Rattle.cx_text.specs.Lexemes.{among, same_name};
ghost use Rattle.cx_bind.specs.BuiltIn.{starred};

use cx_text::same_name;

const STARRED: [&[u8]; 15] = [
    b"driver::parts_x",
    b"driver::parts_y",
    b"driver::parts_z",
    b"driver::widths_x",
    b"driver::widths_y",
    b"driver::widths_z",
    b"driver::lead",
    b"driver::balance",
    b"driver::weight",
    b"driver::weight_factor",
    b"IO::out_dir",
    b"IO::checkpoint_dir",
    b"IO::recover_dir",
    b"IO::recover",
    b"IO::steer_file",
];

/// Whether a name is one of these, in any case.
fn is_one_of(names: &[&[u8]], name: &[u8]) -> bool
    ensures { result ≡ list_any (λ other. same_name name.now other.now) names.now }
{
    names.iter().any(|other| same_name(name, other))
}

/// Whether the parameter of this full name is one of them.
pub fn is_starred(full: &[u8]) -> bool
    ensures { result ≡ among starred full.now }
{
    is_one_of(&STARRED, full)
}
