//! The disk over a file of the system.
ghost use Rattle.std.specs.Prelude.{◌≡◌, ◌≤◌, ◌++◌, ◌∷◌, ℕ, List, IfSome, length, codes, Contains, true};
ghost use Rattle.std.specs.Fs.{new_options, with_read, with_write, with_create_new};
ghost use Rattle.log_disk.specs.Faults.{Rose};
ghost use Rattle.system_disk.specs.Folders.{SLASH, folder_before};

use crate::retrying::{len_retrying, read_retrying};
use log_disk::{Failed, LogDisk};
use lsn_space::Word;
use std::fs::{File, Files, OpenOptions};
use std::io;
use std::io::{ErrorKind, Read};
use std::os::fd::AsRawFd;
use std::os::unix::fs::FileExt;

/// The number of the standard error, the last of the streams that every program begins with.
const LAST_STREAM: i32 = 2;

/// A file of the system, read and written at offsets. It tells nothing of its bytes, so nothing is
/// said of them here but what the system promises: a write of which the system refuses a part is a
/// fault, and after `sync` the bytes and the length are on the disk. From `attach` until it is dropped
/// it has the file's lock, so no other one attaches the file.
#[derive(Drop)]
pub struct FileDisk<R: Files<File = File> + Drop> {
    rt: R,
    file: Option<File>,
    faults: u64,
}

impl<R: Files<File = File> + Drop> FileDisk<R> {
    /// No file yet: until `attach` each other call is a fault.
    pub fn make(rt: R) -> Self
        ensures { result.faults ≡ 0 }
    {
        FileDisk {
            rt,
            file: None,
            faults: 0,
        }
    }

    /// How often a call has failed.
    pub fn faults(&self) -> u64
        ensures { result ≡ self.now.faults }
    {
        self.faults
    }

    fn fail(&mut self) -> Failed
        ensures later { self.old.faults ≤ self.new.faults }
        ensures rose { Rose self.old.faults self.new.faults }
    {
        self.faults = self.faults.saturating_add(1);
        Failed
    }
}

impl<R: Files<File = File> + Drop> LogDisk for FileDisk<R> {
    ghost use Rattle.std.specs.Prelude.{⊤, [], None};

    ghost honest = { λ _. ⊥ };

    ghost reads = { λ _. [] };

    ghost images = { λ _ _. ⊤ };

    ghost attached = { λ _. None };

    ghost moment = { λ _. 0 };

    ghost images_since = { λ _ _ _. ⊤ };

    ghost written_count = { λ _. 0 };

    ghost calls = { λ _. 0 };

    ghost faults = { λ disk. disk.faults };

    ghost read_is_image = { λ _ _. tt };

    ghost counts_now = { λ _ _ _ _ _. tt };

    ghost only_now = { λ _ _ _. tt };

    // Where it fails, the file that was attached before stays.
    fn attach(&mut self, name: &Word, make: bool) -> Result<(), Failed> {
        match open_file(&self.rt, name.text(), make) {
            Some(file) => {
                self.file = Some(file);
                Ok(())
            }
            None => Err(self.fail()),
        }
    }

    fn len(&mut self) -> Result<u64, Failed> {
        match len_of(&self.file) {
            Some(len) => Ok(len),
            None => Err(self.fail()),
        }
    }

    fn read_at(&mut self, at: u64, buf: &mut [u8]) -> Result<usize, Failed> {
        match read_from(&self.file, at, buf) {
            Some(count) => Ok(count),
            None => Err(self.fail()),
        }
    }

    fn write_at(&mut self, at: u64, bytes: &[u8]) -> Result<(), Failed> {
        match write_to(&self.file, at, bytes) {
            Some(_) => Ok(()),
            None => Err(self.fail()),
        }
    }

    fn sync(&mut self) -> Result<(), Failed> {
        match sync_of(&self.file) {
            Some(_) => Ok(()),
            None => Err(self.fail()),
        }
    }
}

/// Opens for reading and writing, with what the file holds left as it is, and takes the file's lock,
/// which goes back where the file is closed. Where another one has the lock there is no file.
fn open_file<R: Files<File = File>>(rt: &R, name: &str, make: bool) -> Option<File> {
    let file = open_or_make(rt, name, make)?;
    // A standard stream was closed, and the file got its number: what the program writes to the stream would go into it.
    if file.as_raw_fd() <= LAST_STREAM {
        return None;
    }
    // It doesn't wait. Where the file system has no locks nothing would keep a second writer out: no file either.
    file.try_lock().ok()?;
    // The entry of a new file stands in its folder, which has to be synced too; but first the file, empty as it is. The entry
    // of one that isn't on the disk may lead, after a crash, to what a deleted file left in its place.
    if make {
        file.sync_all().ok()?;
        File::open(rt, folder_of(name)).ok()?.sync_all().ok()?;
    }
    Some(file)
}

/// Opens the file that is there, or makes one where nothing has its name. A link that leads nowhere has the name, so nothing
/// is made for it: the entry would stand in the folder that the link names, which isn't the one that is synced.
fn open_or_make<R: Files<File = File>>(rt: &R, name: &str, make: bool) -> Option<File> {
    match log_options(false).open(rt, name) {
        Err(error) if make && error.kind() == ErrorKind::NotFound => make_file(rt, name),
        opened => opened.ok(),
    }
}

/// Makes the file. Where it came to be since it was missing, by another program or by a call that was interrupted once it had
/// made it, it is opened as it is, which is tried once.
fn make_file<R: Files<File = File>>(rt: &R, name: &str) -> Option<File> {
    match log_options(true).open(rt, name) {
        Err(error) if error.kind() == ErrorKind::AlreadyExists => log_options(false)
            .open(rt, name)
            .ok(),
        made => made.ok(),
    }
}

/// How a log's file is opened, or made anew: then it must not be there, not even as a link. What it holds is never cut off.
fn log_options(anew: bool) -> OpenOptions
    ensures { result ≡ with_create_new (with_write (with_read new_options true) true) anew }
{
    let mut options = OpenOptions::new();
    options.read(true).write(true).create_new(anew);
    options
}

/// The folder in which the file at this path stands: what is before the last slash.
pub fn folder_of(path: &str) -> &str
    ensures behind { (front name : List ℕ) → path.now ≡ front ++ SLASH ∷ name → (Contains name SLASH → ⊥)
        → result.now ≡ folder_before front }
    ensures alone { (Contains path.now SLASH → ⊥) → result.now ≡ codes "." }
{
    match path.rsplit_once('/') {
        Some((folder, _)) => { if folder.is_empty() { "/" } else { folder } }
        None => ".",
    }
}

fn len_of(file: &Option<File>) -> Option<u64> {
    match file {
        Some(file) => len_retrying(file).ok(),
        None => None,
    }
}

fn read_from(file: &Option<File>, at: u64, buf: &mut [u8]) -> Option<usize>
    ensures { IfSome result (λ count. count ≤ length buf.new) }
{
    match file {
        Some(file) => read_retrying(&mut ReaderAt { file, at }, buf).ok(),
        None => None,
    }
}

/// A file as a reader, each read of which is one at this offset.
#[derive(Drop)]
struct ReaderAt<'a> {
    file: &'a File,
    at: u64,
}

impl Read for ReaderAt<'_> {
    fn read(&mut self, buf: &mut [u8]) -> io::Result<usize> {
        self.file.read_at(buf, self.at)
    }
}

// `write_all_at` goes on after a short or interrupted write, and fails where the system takes no more.
fn write_to(file: &Option<File>, at: u64, bytes: &[u8]) -> Option<()> {
    match file {
        Some(file) => file.write_all_at(bytes, at).ok(),
        None => None,
    }
}

// The data and the length, without which the data could not be read again.
fn sync_of(file: &Option<File>) -> Option<()> {
    match file {
        Some(file) => file.sync_data().ok(),
        None => None,
    }
}
