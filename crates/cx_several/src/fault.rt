//! Why the jobs of a batch aren't run.
ghost use Rattle.std.specs.Prelude.{◌≡◌, ◌⊎◌, ◌≤◌, ◌++◌, ◌∷◌, [], codes, drop, length, IfOk};
ghost use Rattle.cx_job.specs.declared.fault.JobFault.TheVariants as jobs;
ghost use Rattle.cx_run.specs.FaultWords.{fault_words, refused_text};
ghost use Rattle.cx_several.specs.Faults.{of_file};
ghost use Rattle.cx_several.specs.Texts.{fault_status, fault_text};
ghost use Rattle.cx_several.specs.declared.fault.BatchFault.TheVariants as faults;

use cx_job::JobFault;
use cx_run::Answer;
use cx_text::{Memory, Text};
use std::alloc::Global;

/// Why the jobs of a batch aren't run.
#[derive(Debug, Drop)]
pub enum BatchFault {
    /// The shelf failed.
    Shelf,
    /// The file of this name makes no job, and neither the shelf nor memory is the reason.
    Job(Text, JobFault),
    /// The jobs of these two files have a folder in common.
    SameFolder(Text, Text),
    /// All jobs together have so many cells, which is above the limit.
    Limit(u64),
    /// There was no memory left.
    Memory,
}

impl From<Memory> for BatchFault {
    ghost from_gives = { λ _ e. e ≡ faults.Memory };

    fn from(_: Memory) -> Self {
        BatchFault::Memory
    }
}

impl BatchFault {
    /// The status of the program.
    pub(crate) fn status(&self) -> u8
        ensures { result ≡ fault_status self.now }
    {
        match self {
            BatchFault::Shelf => 4,
            BatchFault::Job(_, _) => 2,
            BatchFault::SameFolder(_, _) => 2,
            BatchFault::Limit(_) => 2,
            BatchFault::Memory => 5,
        }
    }

    /// The text that is printed. It fails where memory runs out.
    pub(crate) fn text(self, alloc: Global) -> Result<Text, Memory>
        ensures { IfOk result (λ text. text ≡ fault_text self) }
    {
        match self {
            BatchFault::Shelf => Answer::Shelf.text(alloc),
            BatchFault::Job(file, fault) => unmade_text(alloc, &file, fault),
            BatchFault::SameFolder(a, b) => same_folder_text(alloc, &a, &b),
            BatchFault::Limit(number) => limit_text(alloc, number),
            BatchFault::Memory => Answer::Memory.text(alloc),
        }
    }
}

/// The fault of a file that makes no job, or want of memory.
pub(crate) fn of_file(alloc: Global, file: &Text, fault: JobFault) -> BatchFault
    ensures { (result ≡ faults.Memory) ⊎ (result ≡ of_file file.now fault) }
{
    match fault {
        JobFault::Shelf => BatchFault::Shelf,
        JobFault::Memory => BatchFault::Memory,
        fault => match file.copy(alloc) {
            Ok(name) => BatchFault::Job(name, fault),
            Err(Memory) => BatchFault::Memory,
        },
    }
}

/// The text of a file that makes no job.
fn unmade_text(alloc: Global, file: &Text, fault: JobFault) -> Result<Text, Memory>
    ensures { IfOk result (λ text. text ≡ codes "refused: " ++ file.now ++ codes " "
        ++ (fault_words fault ++ 10 ∷ [])) }
{
    let refused = Answer::Refused(fault).text(alloc)?;
    refused_line(alloc, file, after_refused(refused.as_slice()))
}

/// The line of a file that is refused for what these words say.
fn refused_line(alloc: Global, file: &Text, words: &[u8]) -> Result<Text, Memory>
    ensures { IfOk result (λ text. text ≡ codes "refused: " ++ file.now ++ codes " "
        ++ words.now) }
{
    let mut text = Text::from_slice(alloc, b"refused: ")?;
    text.push_slice(file.as_slice())?;
    text.push_slice(b" ")?;
    text.push_slice(words)?;
    Ok(text)
}

/// What comes after `refused: `, nine bytes.
fn after_refused(text: &[u8]) -> &[u8]
    requires { 9 ≤ length text.now }
    ensures { result.now ≡ drop 9 text.now }
{
    &text[9..]
}

/// The text of two files whose jobs have a folder in common.
fn same_folder_text(alloc: Global, a: &Text, b: &Text) -> Result<Text, Memory>
    ensures { IfOk result (λ text. text ≡ codes "refused: SameFolder " ++ a.now ++ codes " "
        ++ b.now ++ codes "\n") }
{
    let mut text = Text::from_slice(alloc, b"refused: SameFolder ")?;
    text.push_slice(a.as_slice())?;
    text.push_slice(b" ")?;
    text.push_slice(b.as_slice())?;
    text.push_slice(b"\n")?;
    Ok(text)
}

/// The text of jobs that have too many cells together.
fn limit_text(alloc: Global, number: u64) -> Result<Text, Memory>
    ensures { IfOk result (λ text. text
        ≡ refused_text (jobs.Limit (codes "batch cells") number)) }
{
    let what = Text::from_slice(alloc, b"batch cells")?;
    Answer::Refused(JobFault::Limit(what, number)).text(alloc)
}
