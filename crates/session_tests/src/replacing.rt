//! The steps by which a file takes the place of another one, each of which may fail.

use setup_files::{is_same_file, out_file};
use std::alloc::{AllocError, Allocator, Global};
use std::cell::{Cell, RefCell};
use std::fs::{FileTimes, Metadata, OpenFile, OpenOptions, Permissions};
use std::io;
use std::io::{ErrorKind, Read, Seek, SeekFrom, Write};
use std::rt::Files;

// The names of the file that is replaced, and of the one that takes its place.
const OLD: &str = "stores";

const NEW: &str = "stores.new0";

// A folder that remembers the bytes of both files and what was done, and fails at the step of a number.
#[derive(Drop)]
struct Folder {
    alloc: Global,
    old: RefCell<Vec<u8>>,
    new: RefCell<Option<Vec<u8>>>,
    done: RefCell<Vec<&'static str>>,
    steps_left: Cell<u32>,
}

impl Folder {
    // One step less, or the one that fails.
    fn step(&self, what: &'static str) -> io::Result<()> {
        let left = self.steps_left.get();
        if left == 0 {
            return Err(io::Error::from(ErrorKind::Other));
        }
        self.steps_left.set(left - 1);
        let Ok(mut done) = self.done.try_borrow_mut() else {
            return Err(io::Error::from(ErrorKind::Other));
        };
        Ok(done.push(what)?)
    }
}

#[derive(Drop)]
struct Shelf<'d> {
    folder: &'d Folder,
}

#[derive(Drop)]
struct Opened<'d> {
    folder: &'d Folder,
    is_new: bool,
}

#[derive(Drop)]
struct NoNames;

impl Read for NoNames {
    fn read(&mut self, _buf: &mut [u8]) -> io::Result<usize> {
        Ok(0)
    }
}

impl Read for Opened<'_> {
    fn read(&mut self, _buf: &mut [u8]) -> io::Result<usize> {
        Ok(0)
    }
}

impl Write for Opened<'_> {
    fn write(&mut self, buf: &[u8]) -> io::Result<usize> {
        self.folder.step("write")?;
        let Ok(mut new) = self.folder.new.try_borrow_mut() else {
            return Err(io::Error::from(ErrorKind::Other));
        };
        match &mut *new {
            Some(bytes) if self.is_new => bytes.extend_from_slice(buf)?,
            _ => return Err(io::Error::from(ErrorKind::Other)),
        }
        Ok(buf.len())
    }

    fn flush(&mut self) -> io::Result<()> {
        Ok(())
    }
}

impl Seek for Opened<'_> {
    fn seek(&mut self, _to: SeekFrom) -> io::Result<u64> {
        Ok(0)
    }
}

impl OpenFile for Opened<'_> {
    fn metadata(&self) -> io::Result<Metadata> {
        self.folder.step("metadata")?;
        Ok(Metadata::of_file(3))
    }

    fn set_len(&self, _size: u64) -> io::Result<()> {
        Err(io::Error::from(ErrorKind::Unsupported))
    }

    fn sync_all(&self) -> io::Result<()> {
        self.folder.step("sync")
    }

    fn sync_data(&self) -> io::Result<()> {
        Err(io::Error::from(ErrorKind::Unsupported))
    }

    fn set_permissions(&self, _perm: Permissions) -> io::Result<()> {
        self.folder.step("permissions")
    }

    fn set_times(&self, _times: FileTimes) -> io::Result<()> {
        Err(io::Error::from(ErrorKind::Unsupported))
    }
}

impl<'d> Files for Shelf<'d> {
    type File = Opened<'d>;

    type Dir = NoNames;

    fn open_file(&self, how: &OpenOptions, path: &str) -> io::Result<Opened<'d>> {
        let is_new = how.asks_create_new();
        if is_new != (path == NEW) || how.asks_truncate() {
            return Err(io::Error::from(ErrorKind::Unsupported));
        }
        self.folder.step(if is_new { "create" } else { "open" })?;
        if is_new {
            let Ok(mut new) = self.folder.new.try_borrow_mut() else {
                return Err(io::Error::from(ErrorKind::Other));
            };
            *new = Some(Vec::new(self.folder.alloc));
        }
        Ok(Opened {
            folder: self.folder,
            is_new,
        })
    }

    fn open_dir(&self, _path: &str) -> io::Result<NoNames> {
        Ok(NoNames)
    }

    fn metadata(&self, _path: &str) -> io::Result<Metadata> {
        self.folder.step("look up")?;
        Ok(Metadata::of_file(3))
    }

    fn symlink_metadata(&self, _path: &str) -> io::Result<Metadata> {
        Ok(Metadata::of_file(3))
    }

    fn copy(&self, _from: &str, _to: &str) -> io::Result<u64> {
        Err(io::Error::from(ErrorKind::Unsupported))
    }

    fn rename(&self, from: &str, to: &str) -> io::Result<()> {
        self.folder.step("rename")?;
        if from != NEW || to != OLD {
            return Err(io::Error::from(ErrorKind::NotFound));
        }
        let (Ok(mut old), Ok(mut new)) = (
            self.folder.old.try_borrow_mut(),
            self.folder.new.try_borrow_mut(),
        ) else {
            return Err(io::Error::from(ErrorKind::Other));
        };
        match new.take() {
            Some(bytes) => *old = bytes,
            None => return Err(io::Error::from(ErrorKind::NotFound)),
        }
        Ok(())
    }

    fn remove_file(&self, path: &str) -> io::Result<()> {
        let Ok(mut new) = self.folder.new.try_borrow_mut() else {
            return Err(io::Error::from(ErrorKind::Other));
        };
        if path == NEW {
            *new = None;
        }
        Ok(())
    }

    fn create_dir(&self, _path: &str) -> io::Result<()> {
        Err(io::Error::from(ErrorKind::Unsupported))
    }

    fn remove_dir(&self, _path: &str) -> io::Result<()> {
        Err(io::Error::from(ErrorKind::Unsupported))
    }

    fn remove_dir_all<B: Allocator>(&self, _alloc: B, _path: &str) -> io::Result<()> {
        Err(io::Error::from(ErrorKind::Unsupported))
    }
}

// Writes two pieces over the old bytes.
fn replace(folder: &Folder) -> io::Result<()> {
    let shelf = (Shelf { folder }, folder.alloc);
    let mut out = out_file(&shelf, OLD)?;
    out.write_all(b"ne")?;
    out.write_all(b"w")?;
    out.flush()
}

fn folder_with(alloc: Global, steps_left: u32) -> Result<Folder, AllocError> {
    Ok(Folder {
        alloc,
        old: RefCell::new(Vec::from_slice(alloc, b"old")?),
        new: RefCell::new(None),
        done: RefCell::new(Vec::new(alloc)),
        steps_left: Cell::new(steps_left),
    })
}

// Whether these bytes stand under the name of the old file, and the new one is gone.
fn is_left(folder: &Folder, wanted: &[u8]) -> bool {
    match (folder.old.try_borrow(), folder.new.try_borrow()) {
        (Ok(old), Ok(new)) => old.as_slice() == wanted && new.is_none(),
        _ => false,
    }
}

fn has_done(folder: &Folder, steps: &[&'static str]) -> bool {
    match folder.done.try_borrow() {
        Ok(done) => done.as_slice() == steps,
        Err(_) => false,
    }
}

const STEPS: [&str; 8] = [
    "open",
    "metadata",
    "look up",
    "create",
    "permissions",
    "write",
    "sync",
    "rename",
];

#[test]
fn a_file_takes_the_place_of_another_one(rt: HostRuntime) {
    let folder = folder_with(rt.alloc(), 100).expect(&rt, "a folder");
    assert!(rt; replace(&folder).is_ok() && is_left(&folder, b"new"));
    assert!(rt; has_done(&folder, STEPS.as_slice()));
    assert!(rt; is_same_file(&Shelf { folder: &folder }, OLD, OLD));
}

// Where the target can't be looked up the old file is written as it stands, which the folder refuses.
#[test]
fn each_step_may_fail(rt: HostRuntime) {
    for step in 0..STEPS.len() as u32 {
        let folder = folder_with(rt.alloc(), step).expect(&rt, "a folder");
        let is_kept = replace(&folder).is_err() && is_left(&folder, b"old");
        assert!(rt; is_kept, "at {step}");
    }
}
