//! A file that takes the place of another one whole.

use crate::noted::Noted;
use std::fs::{File, OpenFile, OpenOptions};
use std::io::{BufWriter, ErrorKind, Write};
use std::os::unix::fs::MetadataExt;
use std::path::PathBuf;
use std::rt::Files;
use std::{fs, io, mem};

// The most links that are followed to a file, as Linux follows them.
const MOST_LINKS: u32 = 40;

// How many names of a new file are tried.
const MOST_NAMES: u32 = 1000;

// Room for what a new file's name has behind that of the file whose place it takes.
const SUFFIX: usize = 8;

/// A writer of the file of a path, through a buffer: its bytes take the place of the file at a flush, whole, and until then and
/// at any failure the file is as it was. Nothing is made before the first bytes are written, or none are flushed.
pub type OutFile<'a, R> = BufWriter<Noted<Replacing<'a, R>>>;

/// The writer of the file of a path. It takes all memory that writing takes.
pub fn out_file<'a, R: Files + AllocGlobal>(
    rt: &'a R,
    path: &'a str,
) -> io::Result<OutFile<'a, R>> {
    let replacing = Replacing::new(rt, path)?;
    BufWriter::new(rt.alloc(), Noted::new(replacing))
}

/// Whether two paths name the same regular file. A path that names nothing is that of no file.
pub fn is_same_file<R: Files>(rt: &R, one: &str, other: &str) -> bool {
    match (fs::metadata(rt, one), fs::metadata(rt, other)) {
        (Ok(one), Ok(other)) => one.is_file() && is_same(&one, &other),
        _ => false,
    }
}

fn is_same(one: &fs::Metadata, other: &fs::Metadata) -> bool {
    one.dev() == other.dev() && one.ino() == other.ino()
}

// How far the bytes of a file are on their way.
#[derive(Drop)]
enum State<F> {
    // Nothing was written or flushed.
    Unmade,
    // They are written into a new file beside the one whose place it is to take.
    Beside(F),
    // They are written where they are to stand, since what stands there is no regular file.
    Direct(F),
    // The new file has taken its place.
    Done,
    // A step failed, and there is no new file.
    GivenUp,
}

/// The file of a path on its way. A link is followed: what it names is replaced, and the link stays. What is there and is no
/// regular file, as a device or a pipe, is written as it stands.
pub struct Replacing<'a, R: Files> {
    rt: &'a R,
    path: &'a str,
    // The path behind all links.
    target: String,
    // The name of the new file, in the folder of the target.
    new: String,
    state: State<R::File>,
}

impl<'a, R: Files> Replacing<'a, R> {
    fn new(rt: &'a R, path: &'a str) -> io::Result<Replacing<'a, R>>
    where
        R: AllocGlobal,
    {
        let target = followed(rt, path)?.into_string();
        let mut new = String::new(rt.alloc());
        new.reserve(target.len().saturating_add(SUFFIX))?;
        Ok(Replacing {
            rt,
            path,
            target,
            new,
            state: State::Unmade,
        })
    }

    // Makes what the first bytes are written into, or what stays empty.
    fn make(&mut self) -> io::Result<()> {
        let permissions = match OpenOptions::new().write(true).open(self.rt, self.path) {
            Ok(old) => {
                let is = old.metadata()?;
                if !self.is_replaced(&is) {
                    self.state = State::Direct(old);
                    return Ok(());
                }
                Some(is.permissions())
            }
            Err(e) if e.kind() == ErrorKind::NotFound => None,
            Err(e) => return Err(e),
        };
        let file = self.make_beside()?;
        if let Some(permissions) = permissions {
            if let Err(e) = file.set_permissions(permissions) {
                self.remove();
                return Err(e);
            }
        }
        self.state = State::Beside(file);
        Ok(())
    }

    // Whether what was opened is a regular file, and the one that has the target's name.
    fn is_replaced(&self, opened: &fs::Metadata) -> bool {
        opened.is_file()
            && match fs::metadata(self.rt, self.target.as_str()) {
                Ok(target) => is_same(opened, &target),
                Err(_) => false,
            }
    }

    // Makes the new file, under the first name that no other file has.
    fn make_beside(&mut self) -> io::Result<R::File> {
        for number in 0..MOST_NAMES {
            self.name(number)?;
            match File::create_new(self.rt, self.new.as_str()) {
                Ok(file) => return Ok(file),
                Err(e) if e.kind() == ErrorKind::AlreadyExists => {}
                Err(e) => return Err(e),
            }
        }
        Err(io::Error::from(ErrorKind::AlreadyExists))
    }

    // Gives the new file the name of this number.
    fn name(&mut self, number: u32) -> io::Result<()> {
        self.new.clear();
        match write!(self.new, "{}.new{number}", self.target) {
            Ok(()) => Ok(()),
            Err(_) => Err(io::Error::from(ErrorKind::OutOfMemory)),
        }
    }

    // Puts the new file in the place of the target, once its bytes are on the disk.
    fn place(&self, file: &R::File) -> io::Result<()> {
        file.sync_all()?;
        fs::rename(self.rt, self.new.as_str(), self.target.as_str())
    }

    // Removes the new file, as far as the system does that.
    fn remove(&self) {
        let _ = fs::remove_file(self.rt, self.new.as_str());
    }

    // Leaves the target as it was, and takes no more bytes.
    fn give_up(&mut self) {
        if let State::Beside(_) = mem::replace(&mut self.state, State::GivenUp) {
            self.remove();
        }
    }
}

impl<R: Files> Write for Replacing<'_, R> {
    fn write(&mut self, buf: &[u8]) -> io::Result<usize> {
        if let State::Unmade = self.state {
            self.make()?;
        }
        let written = match &mut self.state {
            State::Beside(file) | State::Direct(file) => file.write(buf),
            _ => Err(io::Error::from(ErrorKind::Other)),
        };
        if let Err(e) = &written {
            if e.kind() != ErrorKind::Interrupted {
                self.give_up();
            }
        }
        written
    }

    // Where this fails the file is as it was.
    fn flush(&mut self) -> io::Result<()> {
        if let State::Unmade = self.state {
            self.make()?;
        }
        match mem::replace(&mut self.state, State::GivenUp) {
            State::Beside(file) => {
                let placed = self.place(&file);
                match &placed {
                    Ok(()) => self.state = State::Done,
                    Err(_) => self.remove(),
                }
                placed
            }
            State::Direct(file) => {
                let mut file = file;
                let flushed = file.flush();
                self.state = State::Direct(file);
                flushed
            }
            State::GivenUp => Err(io::Error::from(ErrorKind::Other)),
            state => {
                self.state = state;
                Ok(())
            }
        }
    }
}

impl<R: Files> Drop for Replacing<'_, R> {
    fn drop(mut self) {
        self.give_up();
        let Replacing {
            rt: _,
            path: _,
            target: _,
            new: _,
            state: _,
        } = self;
    }
}

// The path behind all links of a path. Of a path that names nothing it is the path itself.
fn followed<R: Files + AllocGlobal>(rt: &R, path: &str) -> io::Result<PathBuf> {
    let mut target = PathBuf::from_str(rt.alloc(), path)?;
    for _ in 0..MOST_LINKS {
        match target.as_path().read_link(rt) {
            Ok(next) => {
                target.pop();
                target.push(next)?;
            }
            Err(e) if e.kind() == ErrorKind::OutOfMemory => return Err(e),
            Err(_) => return Ok(target),
        }
    }
    // The system refuses to open a path with more links.
    Ok(target)
}
