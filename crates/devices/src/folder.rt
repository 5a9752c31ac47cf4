//! The folder that a program finds its files in.

ghost use Rattle.std.specs.Prelude.{◌≡◌, ◌↔◌, ℕ, List, [], ◌∷◌, Option, Some, OnOk, OnErr, IfOk, IfSome, IsTrue};
ghost use Rattle.devices.specs.Files.{Act, was_opened, was_emptied, was_made, AddsActs, Places, AreOneFile};

use std::alloc::{AllocError, Global};
use std::fs::{self, Files, Metadata, OpenOptions};
use std::io::{self, ErrorKind};
use std::os::unix::fs::MetadataExt;

/// Where names lead to files, which are opened there.
pub trait Folder {
    type File: Drop;

    /// Where names lead, if the folder tells it.
    ghost places: { Self → Option Places };

    /// What was done to files, in its order, if the folder tells it.
    ghost acts: { Self → Option (List Act) };

    /// Whether two names lead to one file, or would make one. Devices and pipes are no files: they lose nothing where they
    /// are opened to be written.
    fn is_one_file(&self, one: &str, other: &str) -> Result<bool, AllocError>
        ensures { IfOk result (λ is_one. IfSome (places self.now) (λ places.
            IsTrue is_one ↔ AreOneFile places (Some one.now) (Some other.now))) };

    /// Opens a file to be read.
    fn open(&mut self, name: &str) -> io::Result<Self::File>
        ensures ok { OnOk result (AddsActs (acts self.old) (was_opened name.now ∷ []) (acts self.new)) }
        ensures err { OnErr result (acts self.new ≡ acts self.old) };

    /// Opens a file to be written, which is empty then.
    fn create(&mut self, name: &str) -> io::Result<Self::File>
        ensures ok { OnOk result (AddsActs (acts self.old) (was_emptied name.now ∷ []) (acts self.new)) }
        ensures err { OnErr result (acts self.new ≡ acts self.old) };

    /// Makes a file, and opens it to be written. Fails where there is one.
    fn make(&mut self, name: &str) -> io::Result<Self::File>
        ensures ok { OnOk result (AddsActs (acts self.old) (was_made name.now ∷ []) (acts self.new)) }
        ensures err { OnErr result (acts self.new ≡ acts self.old) };
}

/// The files of the system, which tell nothing.
#[derive(Drop)]
pub struct Disk<'a, R> {
    alloc: Global,
    files: &'a R,
}

/// Which file it is: its device, and its number there. Of one that is not there it is those of its folder, and its name.
#[derive(Debug, Drop, PartialEq)]
struct Place {
    device: u64,
    number: u64,
    name: String,
}

/// How many links are followed at most.
const MOST_LINKS: usize = 40;

/// What stands before the name of a file in its path, with the stroke, and the name.
pub fn split_path(path: &str) -> (&str, &str) {
    match path.rfind('/') {
        Some(place) => (
            path.get(..=place).unwrap_or(""),
            path.get(place..)
                .map_or("", |name| name.trim_start_matches('/')),
        ),
        None => ("", path),
    }
}

/// The path of the file that a name leads to, or would make, after all links at its end.
pub fn follow_links<R: Files>(files: &R, alloc: Global, name: &str) -> io::Result<String> {
    let mut path = String::from_str(alloc, name)?;
    for _ in 0..MOST_LINKS {
        let is_link = fs::symlink_metadata(files, path.as_str()).is_ok_and(
            |file| file.is_symlink(),
        );
        if !is_link {
            return Ok(path);
        }
        let link = files.read_link(alloc, path.as_str())?.into_string();
        if link.starts_with('/') {
            path = link;
        } else {
            let mut next = String::from_str(alloc, split_path(path.as_str()).0)?;
            next.push_str(link.as_str())?;
            path = next;
        }
    }
    Err(io::Error::from(ErrorKind::InvalidInput))
}

impl<'a, R> Disk<'a, R> {
    /// The files that a program can open.
    pub fn new(alloc: Global, files: &'a R) -> Disk<'a, R> {
        Disk { alloc, files }
    }
}

impl<R: Files> Disk<'_, R> {
    /// The place of what is there. None for what is no file.
    fn place_of(&self, file: &Metadata, name: &str) -> Result<Option<Place>, AllocError> {
        if file.ino() == 0 {
            return Ok(None);
        }
        Ok(Some(Place {
            device: file.dev(),
            number: file.ino(),
            name: String::from_str(self.alloc, name)?,
        }))
    }

    /// The place of a name of nothing.
    fn free_place(&self, name: &str) -> Result<Option<Place>, AllocError> {
        let path = match follow_links(self.files, self.alloc, name) {
            Ok(path) => path,
            Err(error) if error.kind() == ErrorKind::OutOfMemory => return Err(AllocError),
            Err(_) => return Ok(None),
        };
        let (folder, name) = split_path(path.as_str());
        let folder = if folder.is_empty() { "." } else { folder };
        match fs::metadata(self.files, folder) {
            Ok(file) => self.place_of(&file, name),
            Err(_) => Ok(None),
        }
    }

    fn find(&self, name: &str) -> Result<Option<Place>, AllocError> {
        match fs::metadata(self.files, name) {
            Ok(file) if file.is_file() => self.place_of(&file, ""),
            Err(error) if error.kind() == ErrorKind::NotFound => self.free_place(name),
            _ => Ok(None),
        }
    }
}

impl<R: Files> Folder for Disk<'_, R> {
    ghost use Rattle.std.specs.Prelude.{None};

    type File = R::File;

    ghost places = { λ disk. None };

    ghost acts = { λ disk. None };

    fn is_one_file(&self, one: &str, other: &str) -> Result<bool, AllocError> {
        let Some(one) = self.find(one)? else {
            return Ok(false);
        };
        Ok(self.find(other)?.is_some_and(|other| one == other))
    }

    fn open(&mut self, name: &str) -> io::Result<R::File> {
        fs::open(self.files, name)
    }

    fn create(&mut self, name: &str) -> io::Result<R::File> {
        fs::create(self.files, name)
    }

    fn make(&mut self, name: &str) -> io::Result<R::File> {
        OpenOptions::new()
            .write(true)
            .create_new(true)
            .open(self.files, name)
    }
}
