//! The file of a name as an output.

ghost use Rattle.std.specs.Prelude.{None, false};

use crate::draft::Draft;
use rpcx::{Output, OutputFault};
use std::fs::{self, File, OpenOptions};
use std::io::{self, ErrorKind};
use std::os::unix::fs::MetadataExt;
use x_text::Out;

/// Whether both names lead to one file that is there, by links too.
pub fn lead_to_one_file(rt: &HostRuntime, one: &str, other: &str) -> bool {
    match (fs::metadata(rt, one), fs::metadata(rt, other)) {
        (Ok(one), Ok(other)) => one.dev() == other.dev() && one.ino() == other.ino(),
        _ => false,
    }
}

/// Whether the system took all that was written to a file: a fault of an earlier write may show only here. A
/// file system that cannot say so is believed.
fn is_written_out(file: &File) -> bool {
    match file.sync_data() {
        Ok(()) => true,
        Err(error) => matches!(
            error.kind(),
            ErrorKind::InvalidInput | ErrorKind::Unsupported
        ),
    }
}

/// The file of a name. A regular file, or one that is not there yet, is written beside its name first; what
/// is no regular file is written in place.
#[derive(Drop)]
pub struct Named<'a> {
    rt: &'a HostRuntime,
    name: &'a str,
    file: &'a str,
    draft: Option<Draft>,
}

impl<'a> Named<'a> {
    /// The file of the name, which must not be `file`, the one that is read.
    pub fn new(rt: &'a HostRuntime, name: &'a str, file: &'a str) -> Named<'a> {
        Named {
            rt,
            name,
            file,
            draft: None,
        }
    }

    /// Opens what takes the bytes.
    fn open_file(&mut self) -> io::Result<File> {
        if lead_to_one_file(self.rt, self.name, self.file) {
            return Err(io::Error::from(ErrorKind::InvalidInput));
        }
        let is_there = match fs::metadata(self.rt, self.name) {
            Ok(found) => {
                // A file that may not be written is not replaced either.
                let file = OpenOptions::new().write(true).open(self.rt, self.name)?;
                if !found.is_file() {
                    return Ok(file);
                }
                true
            }
            Err(error) if error.kind() == ErrorKind::NotFound => false,
            Err(error) => return Err(error),
        };
        let (draft, file) = Draft::make(self.rt, self.name, is_there)?;
        self.draft = Some(draft);
        Ok(file)
    }
}

impl Output for Named<'_> {
    type Opened = Out<File>;

    ghost standing = { λ _. None };

    ghost has_draft = { λ _. false };

    fn open(&mut self) -> Result<Out<File>, OutputFault> {
        match self.open_file() {
            Ok(file) => Ok(Out::new(file)),
            Err(error) if error.kind() == ErrorKind::OutOfMemory => Err(OutputFault::NoMemory),
            Err(_) => Err(OutputFault::Refused),
        }
    }

    fn keep(&mut self, opened: Out<File>) -> bool {
        let Some(draft) = self.draft.take() else {
            return true;
        };
        let file = opened.into_inner();
        let is_written = is_written_out(&file);
        drop(file);
        if !is_written {
            draft.remove(self.rt);
            return false;
        }
        draft.keep(self.rt)
    }

    fn let_go(&mut self, _opened: Out<File>) {
        if let Some(draft) = self.draft.take() {
            draft.remove(self.rt);
        }
    }
}
