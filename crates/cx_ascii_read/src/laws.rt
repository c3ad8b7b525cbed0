//! What is printed is read back.

ghost use Rattle.cx_ascii_read.specs.Printed.{SectionsAreRecords, LinesAreRecords, TextsJoin};
ghost use Rattle.cx_ascii_read.specs.Splitting.{SpelledIsSplit, SplitIsSpelled};

/// The law of the output file: with what `read_output` ensures, all that `section` and `scalar_line` print is read back.
///
/// - A section whose name is printable spells the record of its level, and nothing else.
/// - A scalar's line spells the record of its value, and nothing else.
/// - Texts one behind the other spell their records one behind the other.
pub fn printed()
    ensures sections { SectionsAreRecords }
    ensures lines { LinesAreRecords }
    ensures joined { TextsJoin }
{}

/// The law of an output that is split, with what `split` ensures.
///
/// - Records that all have one of the names are split.
/// - What is split is such records, and each text is that of the records of its name.
pub fn split_is_exact()
    ensures spelled { SpelledIsSplit }
    ensures split { SplitIsSpelled }
{}
