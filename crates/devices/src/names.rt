//! The names of the files of a call, and why they are no files for it.

ghost use Rattle.std.specs.Prelude.{◌≡◌};
ghost use Rattle.devices.specs.declared.names.FileFault.TheVariants as faults;

use std::alloc::AllocError;

/// A file of a call.
#[derive(Clone, Copy, Debug, PartialEq, Eq)]
pub enum CallFile {
    /// Standard input.
    Input,
    Second,
    Project,
    Resume,
    Tree,
    /// A log or a file of lemmas of a cube.
    Cube,
    Path,
    Guide,
    Import,
    Until,
    /// Standard output.
    Answer,
    RecordFile,
    Record,
    Export,
}

/// The names of the files of a call besides standard input and output. It writes the last three, and reads the others.
#[derive(Clone, Copy, Debug)]
pub struct FileNames<'a> {
    /// The second input, which an [`Opener`](crate::Opener) opens.
    pub second: Option<&'a str>,
    /// The option that names it.
    pub second_option: &'static str,
    pub project: Option<&'a str>,
    /// The record that the call goes on from. Its own may take the place of that one.
    pub resume: Option<&'a str>,
    /// The list of cubes, and the files that it names.
    pub tree: Option<&'a str>,
    pub cubes: &'a [String],
    /// The path of a cube.
    pub path: Option<&'a str>,
    pub guide: Option<&'a str>,
    pub import: Option<&'a str>,
    /// The file that ends the call.
    pub until: Option<&'a str>,
    /// The output of the record, which an [`Opener`](crate::Opener) opens.
    pub record_file: Option<&'a str>,
    /// The name that this output takes in the end, where it is a part beside it.
    pub record_name: Option<&'a str>,
    pub export: Option<&'a str>,
}

impl<'a> FileNames<'a> {
    /// No names.
    pub fn none() -> FileNames<'a> {
        FileNames {
            second: None,
            second_option: "",
            project: None,
            resume: None,
            tree: None,
            cubes: &[],
            path: None,
            guide: None,
            import: None,
            until: None,
            record_file: None,
            record_name: None,
            export: None,
        }
    }
}

/// Why the files of a call are not open.
#[derive(Clone, Copy, Debug, PartialEq, Eq)]
pub enum FileFault {
    /// The second of these files is written, and is the first, which the call reads or writes.
    Same(CallFile, CallFile),
    /// The second input can't be opened.
    Second,
    /// The record's file can't be made.
    Record,
    /// A part of the record is there: a search left it, or writes it now.
    Part,
    /// Memory ran out.
    Memory,
}

impl From<AllocError> for FileFault {
    ghost from_gives = { λ _ fault. fault ≡ faults.Memory };

    fn from(_error: AllocError) -> FileFault {
        FileFault::Memory
    }
}
