//! Whether the file for the mended description is one of those that are read.

ghost use Rattle.std.specs.Prelude.{◌≤◌, length};

use crate::request::Request;
use std::fs;
use std::os::unix::fs::MetadataExt;
use std::rt::Files;

/// A file that is read.
#[derive(Clone, Copy)]
pub enum Source {
    /// That of the description.
    Description,
    /// That of the certificate.
    Certificate,
}

impl Source {
    /// What is said where it would be replaced.
    pub fn sentence(self) -> &'static str
        ensures { length result.now ≤ 64 }
    {
        match self {
            Source::Description => "the mended description would replace the description",
            Source::Certificate => "the mended description would replace the certificate",
        }
    }
}

/// Which of the files that are read is the one that is to be saved, whatever its name: by a link, or by another path.
pub fn source_saved<R: Files>(files: &R, request: &Request<'_>) -> Option<Source> {
    let saved = request.options.mend?;
    if is_same(files, request.desc, saved) {
        return Some(Source::Description);
    }
    if is_same(files, request.cert, saved) {
        return Some(Source::Certificate);
    }
    None
}

/// Whether two names are those of one plain file that is there. Links are followed.
fn is_same<R: Files>(files: &R, first: &str, second: &str) -> bool {
    match (fs::metadata(files, first), fs::metadata(files, second)) {
        (Ok(x), Ok(y)) => x.is_file() && x.dev() == y.dev() && x.ino() == y.ino(),
        _ => false,
    }
}
