//! The words of a batch.
ghost use Rattle.std.specs.Prelude.{◌≡◌, ◌&&◌, nat_le, option_map};
ghost use Rattle.std.specs.List.{list_all};
ghost use Rattle.cx_run.specs.Words.{is_file};
ghost use Rattle.cx_several.specs.Words.{are_files, begins_batch, files_asked};

use cx_text::Text;

/// Whether the first word is `batch`.
pub(crate) fn begins_batch(words: &[Text]) -> bool
    ensures { result ≡ begins_batch words.now }
{
    match words {
        [] => false,
        [word, ..] => word.as_slice() == b"batch".as_slice(),
    }
}

/// The files after the first word, if there are two to eight and each is the name of one.
pub(crate) fn files_of(words: &[Text]) -> Option<&[Text]>
    ensures { option_map (λ files. files.now) result ≡ files_asked words.now }
{
    match words {
        [] => None,
        [_, files @ ..] => { if are_files(files) { Some(files) } else { None } }
    }
}

/// Whether there are two to eight, and each is the name of a file.
fn are_files(words: &[Text]) -> bool
    ensures { result ≡ are_files words.now }
{
    is_count(words.len()) && all_files(words)
}

/// Whether it is a number from two to eight.
fn is_count(number: usize) -> bool
    ensures { result ≡ (nat_le 2 number && nat_le number 8) }
{
    number >= 2 && number <= 8
}

/// Whether each word is the name of a file.
fn all_files(words: &[Text]) -> bool
    ensures { result ≡ list_all is_file words.now }
{
    words.iter().all(|word| is_file(word.as_slice()))
}

/// Whether a name isn't empty and doesn't begin with a dash.
fn is_file(name: &[u8]) -> bool
    ensures { result ≡ is_file name.now }
{
    match name {
        [] => false,
        [first, ..] => *first != b'-',
    }
}
