//! A new file beside the one whose name it is to get.

use crate::named::lead_to_one_file;
use std::fs::{self, File, OpenOptions};
use std::io::{self, ErrorKind};
use std::os::unix::fs::{MetadataExt, OpenOptionsExt, chown};
use std::path::{Path, PathBuf};

/// How many links in a row a name may lead through, as Linux has it.
const MOST_LINKS: usize = 40;

/// How many names are tried for a new file.
const MOST_NAMES: usize = 1_000;

/// A new file, and the path that it is to get.
#[derive(Drop)]
pub struct Draft {
    path: PathBuf,
    target: PathBuf,
}

impl Draft {
    /// Makes a new file beside that of the name, with its permissions where it is there.
    pub fn make(rt: &HostRuntime, name: &str, is_there: bool) -> io::Result<(Draft, File)> {
        let target = target_of(rt, name)?;
        if is_there && !lead_to_one_file(rt, name, target.as_str()) {
            return Err(io::Error::from(ErrorKind::NotFound));
        }
        let (path, file) = make_beside(rt, target.as_path(), is_there)?;
        let draft = Draft { path, target };
        if is_there && let Err(error) = draft.take_permissions(rt, &file) {
            draft.remove(rt);
            return Err(error);
        }
        Ok((draft, file))
    }

    /// Gives the new file the owner, as far as that is allowed, and the permissions of the one that is there.
    fn take_permissions(&self, rt: &HostRuntime, file: &File) -> io::Result<()> {
        let found = fs::metadata(rt, &self.target)?;
        let _ = chown(rt, &self.path, None, Some(found.gid()));
        let _ = chown(rt, &self.path, Some(found.uid()), None);
        file.set_permissions(found.permissions())
    }

    /// Gives the new file the name, and answers whether it has it now. Where not it is removed.
    pub fn keep(self, rt: &HostRuntime) -> bool {
        let is_renamed = fs::rename(rt, &self.path, &self.target).is_ok();
        if !is_renamed {
            self.remove(rt);
        }
        is_renamed
    }

    /// Removes the new file.
    pub fn remove(self, rt: &HostRuntime) {
        let _ = fs::remove_file(rt, &self.path);
    }
}

/// The path that a name leads to by the links at its end, whether or not something is there.
fn target_of(rt: &HostRuntime, name: &str) -> io::Result<PathBuf> {
    let mut path = PathBuf::from_str(rt.alloc(), name)?;
    for _ in 0..MOST_LINKS {
        match fs::symlink_metadata(rt, &path) {
            Ok(found) if found.is_symlink() => path = target_of_link(rt, path.as_path())?,
            _ => return Ok(path),
        }
    }
    Err(io::Error::from(ErrorKind::FilesystemLoop))
}

/// The path that a link leads to.
fn target_of_link(rt: &HostRuntime, link: Path<'_>) -> io::Result<PathBuf> {
    let target = fs::read_link(rt, link)?;
    let folder = link.parent().unwrap_or(Path::new(""));
    Ok(folder.join(rt.alloc(), &target)?)
}

/// A new file beside this path. Where it is to replace one, nobody else can read it yet.
fn make_beside(
    rt: &HostRuntime,
    target: Path<'_>,
    is_private: bool,
) -> io::Result<(PathBuf, File)> {
    let Some(name) = target.file_name() else {
        return Err(io::Error::from(ErrorKind::InvalidFilename));
    };
    let mode = if is_private { 0o600 } else { 0o666 };
    for count in 0..MOST_NAMES {
        // Of a long name a front, so that the new one is not too long.
        let beside = format!(in rt.alloc(); ".{name:.50}.rpcgen-{count}")?;
        let path = target.with_file_name(rt.alloc(), beside.as_str())?;
        match make_file(rt, &path, mode) {
            Ok(file) => return Ok((path, file)),
            Err(error) if error.kind() == ErrorKind::AlreadyExists => {}
            Err(error) => return Err(error),
        }
    }
    Err(io::Error::from(ErrorKind::AlreadyExists))
}

/// Makes a file where there is none yet.
fn make_file(rt: &HostRuntime, path: &PathBuf, mode: u32) -> io::Result<File> {
    OpenOptions::new()
        .write(true)
        .create_new(true)
        .mode(mode)
        .open(rt, path)
}
