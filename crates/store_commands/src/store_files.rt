//! Files that hold the bytes of stores.

ghost use Rattle.std.specs.Prelude.{◌≡◌, ◌≢◌, ℕ, List, IfErr, IfOk};
ghost use Rattle.store_commands.specs.Files.{IsRead, IsThere, Known, Unknown};

use hii_bytes::Cause;
use itoa::Buffer;
use setup_files::{Status, Terminals, WholeFile, file, is_same_file, refused, usage};
use std::alloc::{AllocError, Global};
use std::fs;
use std::io::ErrorKind;
use std::rt::Files;

const VARIABLE_AS_OUT: &str = "error: --out is a file of --efivars\n";

/// Files that are read whole by their paths.
pub trait StoreFiles {
    /// What is known of a path.
    ghost known: { Self → List ℕ → Known };

    /// The file of a path, whose bytes are of the store of an id, or the status with which the program ends, as is told then.
    fn read<'p>(&self, path: &'p str, id: u16) -> Result<WholeFile<'p>, Status>
        ensures path { IfOk result (λ file. file.path.now ≡ path.entry.now) }
        ensures bytes { IfOk result (λ file. IsRead (known self.now path.entry.now) file.bytes.items) }
        ensures err { IfErr result (λ status. status ≢ Status.Done) };

    /// The file of a configuration text, or the status with which the program ends, as is told then.
    fn read_config<'p>(&self, path: &'p str) -> Result<WholeFile<'p>, Status>
        ensures bytes { IfOk result (λ file. IsRead (known self.now path.entry.now) file.bytes.items) }
        ensures err { IfErr result (λ status. status ≢ Status.Done) };

    /// Whether there is a file of a path.
    fn is_there(&self, path: &str) -> bool
        ensures { IsThere (known self.now path.now) result };
}

/// The files of the system, of which nothing is known. That of `--out` is not read.
#[derive(Drop)]
pub struct SystemFiles<'a, R> {
    rt: &'a R,
    terminals: Terminals,
    out: Option<&'a str>,
}

impl<'a, R> SystemFiles<'a, R> {
    /// The files that a run reads, which writes the file of a path, if it writes one.
    pub fn new(rt: &'a R, terminals: Terminals, out: Option<&'a str>) -> SystemFiles<'a, R> {
        SystemFiles { rt, terminals, out }
    }
}

impl<R: Files + Print + Eprint + AllocGlobal> StoreFiles for SystemFiles<'_, R> {
    ghost known = { λ _ _. Unknown };

    fn read<'p>(&self, path: &'p str, id: u16) -> Result<WholeFile<'p>, Status> {
        if let Some(out) = self.out {
            if is_same_file(self.rt, path, out) {
                return Err(usage(self.rt, &VARIABLE_AS_OUT));
            }
        }
        let Ok(what) = what_is_read(self.rt.alloc(), id) else {
            return Err(refused(self.rt, self.terminals, Cause::OutOfMemory));
        };
        file(self.rt, self.terminals, path, what.as_str())
    }

    fn read_config<'p>(&self, path: &'p str) -> Result<WholeFile<'p>, Status> {
        file(self.rt, self.terminals, path, "read config")
    }

    fn is_there(&self, path: &str) -> bool {
        match fs::metadata(self.rt, path) {
            Ok(_) => true,
            Err(e) => e.kind() != ErrorKind::NotFound,
        }
    }
}

// What is told of a read of the bytes of a store that fails.
fn what_is_read(alloc: Global, id: u16) -> Result<String, AllocError> {
    let mut what = String::from_str(alloc, "read store ")?;
    let mut digits = Buffer::new();
    what.push_str(digits.format(id))?;
    Ok(what)
}
