//! The files that options give stores.

ghost use Rattle.std.specs.Prelude.{◌≡◌, option_copied};
ghost use Rattle.audit_answers.specs.GivenFiles.{last_given};

use audit_options::StoreFile;

/// The last file that is given to the store of an id.
pub fn last_given<'f, 'a>(files: &'f [StoreFile<'a>], id: u16) -> Option<&'f StoreFile<'a>>
    ensures { option_copied result ≡ last_given files.entry.now id }
{
    let mut last = None;
    for file in files {
        if file.id == id {
            last = Some(file);
        }
    }
    last
}
