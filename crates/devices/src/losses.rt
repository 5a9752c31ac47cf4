//! That a call loses none of its files: no file that it writes is one that it reads, and no two that it writes are one.

ghost use Rattle.std.specs.Prelude.{◌↔◌, IfOk, IfErr, IfSome, IsTrue, OnOk, option_copied};
ghost use Rattle.devices.specs.Files.{AreOneFile, IsApart, IsNoCubeInput, IsNoInput, KeepsResumed, AreApart, IsLoss, Loses, LosesNone};

use crate::files::Opener;
use crate::folder::Folder;
use crate::names::{CallFile, FileFault, FileNames};
use std::alloc::AllocError;

/// The paths of standard input and output.
const STANDARD_INPUT: &str = "/dev/stdin";

const STANDARD_OUTPUT: &str = "/dev/stdout";

impl<F: Folder> Opener<F> {
    /// Whether both names are there, and lead to one file.
    fn are_one(&self, one: Option<&str>, other: Option<&str>) -> Result<bool, AllocError>
        ensures { IfOk result (λ are_one. IfSome (F.places self.now.folder) (λ places.
            IsTrue are_one ↔ AreOneFile places (option_copied one.entry) (option_copied other.entry))) }
    {
        match (one, other) {
            (Some(one), Some(other)) => self.folder.is_one_file(one, other),
            _ => Ok(false),
        }
    }

    /// The fault of an output that is a file of a cube.
    fn check_cubes(
        &self,
        names: &FileNames<'_>,
        output: CallFile,
        name: Option<&str>,
    ) -> Result<(), FileFault>
        ensures none { OnOk result (IfSome (F.places self.now.folder) (λ places.
            IsApart places names.now.cubes.now (option_copied name.entry))) }
        ensures loses { IfErr result (λ fault. IfSome (F.places self.now.folder) (λ places.
            IsLoss places names.now output (option_copied name.entry) fault)) }
    {
        for cube in names.cubes {
            if self.are_one(Some(cube.as_str()), name)? {
                return Err(FileFault::Same(CallFile::Cube, output));
            }
        }
        Ok(())
    }

    /// The fault of an output that is a file which the search of a cube reads, or a join.
    fn check_cube_inputs(
        &self,
        names: &FileNames<'_>,
        output: CallFile,
        name: Option<&str>,
    ) -> Result<(), FileFault>
        ensures none { OnOk result (IfSome (F.places self.now.folder) (λ places.
            IsNoCubeInput places names.now (option_copied name.entry))) }
        ensures loses { IfErr result (λ fault. IfSome (F.places self.now.folder) (λ places.
            IsLoss places names.now output (option_copied name.entry) fault)) }
    {
        if self.are_one(names.tree, name)? {
            return Err(FileFault::Same(CallFile::Tree, output));
        }
        if self.are_one(names.path, name)? {
            return Err(FileFault::Same(CallFile::Path, output));
        }
        if self.are_one(names.guide, name)? {
            return Err(FileFault::Same(CallFile::Guide, output));
        }
        if self.are_one(names.import, name)? {
            return Err(FileFault::Same(CallFile::Import, output));
        }
        self.check_cubes(names, output, name)
    }

    /// The fault of an output that is a file which the call reads, but for the record that it goes on from.
    fn check_inputs(
        &self,
        names: &FileNames<'_>,
        output: CallFile,
        name: Option<&str>,
    ) -> Result<(), FileFault>
        ensures none { OnOk result (IfSome (F.places self.now.folder) (λ places.
            IsNoInput places names.now (option_copied name.entry))) }
        ensures loses { IfErr result (λ fault. IfSome (F.places self.now.folder) (λ places.
            IsLoss places names.now output (option_copied name.entry) fault)) }
    {
        if self.are_one(Some(STANDARD_INPUT), name)? {
            return Err(FileFault::Same(CallFile::Input, output));
        }
        if self.are_one(names.second, name)? {
            return Err(FileFault::Same(CallFile::Second, output));
        }
        if self.are_one(names.project, name)? {
            return Err(FileFault::Same(CallFile::Project, output));
        }
        if self.are_one(names.until, name)? {
            return Err(FileFault::Same(CallFile::Until, output));
        }
        self.check_cube_inputs(names, output, name)
    }

    /// The fault of an output that is the record which the call goes on from. Its own record may take the place of that one,
    /// which is read by then.
    fn check_resumed(&self, names: &FileNames<'_>) -> Result<(), FileFault>
        ensures none { OnOk result (IfSome (F.places self.now.folder) (λ places. KeepsResumed places names.now)) }
        ensures loses { IfErr result (λ fault. IfSome (F.places self.now.folder) (λ places. Loses places names.now fault)) }
    {
        if self.are_one(names.resume, names.record_file)? {
            return Err(FileFault::Same(CallFile::Resume, CallFile::RecordFile));
        }
        if self.are_one(names.resume, names.export)? {
            return Err(FileFault::Same(CallFile::Resume, CallFile::Export));
        }
        if self.are_one(names.resume, Some(STANDARD_OUTPUT))? {
            return Err(FileFault::Same(CallFile::Resume, CallFile::Answer));
        }
        Ok(())
    }

    /// The fault of an output that is the answer's, or one of the other outputs that come before it.
    fn check_outputs(&self, names: &FileNames<'_>) -> Result<(), FileFault>
        ensures none { OnOk result (IfSome (F.places self.now.folder) (λ places. AreApart places names.now)) }
        ensures loses { IfErr result (λ fault. IfSome (F.places self.now.folder) (λ places. Loses places names.now fault)) }
    {
        let answer = Some(STANDARD_OUTPUT);
        if self.are_one(answer, names.record_file)? {
            return Err(FileFault::Same(CallFile::Answer, CallFile::RecordFile));
        }
        if self.are_one(answer, names.record_name)? {
            return Err(FileFault::Same(CallFile::Answer, CallFile::Record));
        }
        if self.are_one(answer, names.export)? {
            return Err(FileFault::Same(CallFile::Answer, CallFile::Export));
        }
        if self.are_one(names.record_file, names.record_name)? {
            return Err(FileFault::Same(CallFile::RecordFile, CallFile::Record));
        }
        if self.are_one(names.record_file, names.export)? {
            return Err(FileFault::Same(CallFile::RecordFile, CallFile::Export));
        }
        if self.are_one(names.record_name, names.export)? {
            return Err(FileFault::Same(CallFile::Record, CallFile::Export));
        }
        Ok(())
    }

    /// The fault of a call that would lose a file.
    pub fn check(&self, names: &FileNames<'_>) -> Result<(), FileFault>
        ensures none { OnOk result (IfSome (F.places self.now.folder) (λ places. LosesNone places names.now)) }
        ensures loses { IfErr result (λ fault. IfSome (F.places self.now.folder) (λ places. Loses places names.now fault)) }
    {
        self.check_outputs(names)?;
        self.check_resumed(names)?;
        self.check_inputs(names, CallFile::RecordFile, names.record_file)?;
        self.check_inputs(names, CallFile::Record, names.record_name)?;
        self.check_inputs(names, CallFile::Export, names.export)?;
        self.check_inputs(names, CallFile::Answer, Some(STANDARD_OUTPUT))
    }
}
