//! The files of a call: in which order they are opened, and that none is lost.

ghost use Rattle.std.specs.Prelude.{◌≡◌, ◌⊎◌, is_some, IfOk, IfErr, IfSome, OnOk, OnErr, option_copied};
ghost use Rattle.devices.specs.Files.{AddsActs, LosesNone, Loses, LosesFile, acts_of, openings, writings};

use crate::folder::{Disk, Folder};
use crate::names::{FileFault, FileNames};
use crate::standard::{InputReader, OutputWriter};
use std::alloc::Global;
use std::io::{self, ErrorKind};

/// The devices of a call's files, where it names them.
#[derive(Drop)]
pub struct CallFiles<F> {
    pub second: Option<InputReader<F>>,
    pub record_file: Option<OutputWriter<F>>,
}

/// Opens the files of calls.
#[derive(Drop)]
pub struct Opener<F> {
    pub(crate) folder: F,
}

/// The fault of an error: want of memory, or else this one.
fn file_fault(error: &io::Error, other: FileFault) -> FileFault
    requires { ¬ LosesFile other }
    ensures { ¬ LosesFile result }
{
    if error.kind() == ErrorKind::OutOfMemory {
        return FileFault::Memory;
    }
    other
}

/// The fault of a part that can't be made.
fn part_fault(error: &io::Error) -> FileFault
    ensures { ¬ LosesFile result }
{
    match error.kind() {
        ErrorKind::AlreadyExists => FileFault::Part,
        _ => file_fault(error, FileFault::Record),
    }
}

impl<'a, R> Opener<Disk<'a, R>> {
    /// An opener of the files that a program can open.
    pub fn new(alloc: Global, files: &'a R) -> Opener<Disk<'a, R>> {
        Opener {
            folder: Disk::new(alloc, files),
        }
    }
}

impl<F: Folder> Opener<F> {
    /// Opens the second input.
    #[tactic(auto, using(crate::proofs::Acts::adds_nothing, crate::proofs::Acts::adds_both))]
    fn open_second(
        &mut self,
        names: &FileNames<'_>,
    ) -> Result<Option<InputReader<F::File>>, FileFault>
        ensures opened { IfOk result (λ file. is_some file ≡ is_some names.now.second) }
        ensures fresh { IfOk result (λ file. IfSome file (λ device. device.failures ≡ 0)) }
        ensures fault { IfErr result (λ fault. ¬ LosesFile fault) }
        ensures done { OnOk result
            (AddsActs (F.acts self.old.folder) (openings (option_copied names.now.second)) (F.acts self.new.folder)) }
        ensures nothing { OnErr result (F.acts self.new.folder ≡ F.acts self.old.folder) }
    {
        let Some(name) = names.second else {
            return Ok(None);
        };
        match self.folder.open(name) {
            Ok(file) => Ok(Some(InputReader::new(file))),
            Err(error) => Err(file_fault(&error, FileFault::Second)),
        }
    }

    /// Opens the record's file, which is empty then: a part is made new.
    #[tactic(auto, using(crate::proofs::Acts::adds_nothing, crate::proofs::Acts::adds_both))]
    pub fn open_record(
        &mut self,
        names: &FileNames<'_>,
    ) -> Result<Option<OutputWriter<F::File>>, FileFault>
        ensures opened { IfOk result (λ file. is_some file ≡ is_some names.now.record_file) }
        ensures fresh { IfOk result (λ file. IfSome file (λ device. device.failures ≡ 0)) }
        ensures fault { IfErr result (λ fault. ¬ LosesFile fault) }
        ensures done { OnOk result (AddsActs (F.acts self.old.folder)
            (writings (option_copied names.now.record_file) (option_copied names.now.record_name)) (F.acts self.new.folder)) }
        ensures nothing { OnErr result (F.acts self.new.folder ≡ F.acts self.old.folder) }
    {
        let Some(name) = names.record_file else {
            return Ok(None);
        };
        let opened = match names.record_name {
            Some(_) => self.folder.make(name),
            None => self.folder.create(name),
        };
        match opened {
            Ok(file) => Ok(Some(OutputWriter::new(file))),
            Err(error) => Err(part_fault(&error)),
        }
    }

    /// Opens the files that a call names: its second input, and last the file of its record. Where a file would be lost, by
    /// whatever name, nothing is opened. If it fails, no file was made or emptied.
    #[tactic(auto, using(crate::proofs::Acts::adds_nothing, crate::proofs::Acts::adds_both))]
    pub fn open(&mut self, names: &FileNames<'_>) -> Result<CallFiles<F::File>, FileFault>
        ensures second { IfOk result (λ files. is_some files.second ≡ is_some names.now.second) }
        ensures record_file { IfOk result (λ files. is_some files.record_file ≡ is_some names.now.record_file) }
        ensures fresh_second { IfOk result (λ files. IfSome files.second (λ device. device.failures ≡ 0)) }
        ensures fresh_record { IfOk result (λ files. IfSome files.record_file (λ device. device.failures ≡ 0)) }
        ensures done { OnOk result (AddsActs (F.acts self.old.folder) (acts_of names.now) (F.acts self.new.folder)) }
        ensures kept { OnErr result ((F.acts self.new.folder ≡ F.acts self.old.folder)
            ⊎ AddsActs (F.acts self.old.folder) (openings (option_copied names.now.second)) (F.acts self.new.folder)) }
        ensures untouched { IfErr result
            (λ fault. LosesFile fault → F.acts self.new.folder ≡ F.acts self.old.folder) }
        ensures none { OnOk result (IfSome (F.places self.old.folder) (λ places. LosesNone places names.now)) }
        ensures loses { IfErr result (λ fault. IfSome (F.places self.old.folder)
            (λ places. LosesFile fault → Loses places names.now fault)) }
    {
        self.check(names)?;
        let second = self.open_second(names)?;
        let record_file = self.open_record(names)?;
        Ok(CallFiles {
            second,
            record_file,
        })
    }
}
