//! The base name of a parameter file.

ghost use Rattle.std.specs.Prelude.{◌≡◌, IfOk};
ghost use Rattle.std.specs.List.{after_last};
ghost use Rattle.cx_parfile.specs.Values.{without_par, base_of};
ghost use Rattle.cx_text.specs.Bytes.{is_slash};

use cx_text::{Memory, Text};
use std::alloc::Global;

/// What follows the last slash; without a slash the whole name.
fn behind_slash(file: &[u8]) -> &[u8]
    ensures { result.now ≡ after_last is_slash file.now }
{
    let mut start = file.len();
    'bytes: while start > 0 && file[start - 1] != b'/' {
        start -= 1;
    }
    file.split_at(start).1
}

/// The name without `.par` at its end.
fn without_par(name: &[u8]) -> &[u8]
    ensures { result.now ≡ without_par name.now }
{
    name.strip_suffix(b".par").unwrap_or(name)
}

/// The base name of a parameter file, for which the value `$parfile` stands: what follows the last `/` of the file's
/// name, without a last `.par`.
pub fn base_of(alloc: Global, file: &Text) -> Result<Text, Memory>
    ensures { IfOk result (λ base. base ≡ base_of file.now) }
{
    Text::from_slice(alloc, without_par(behind_slash(file.as_slice())))
}
