//! Replacing a file in one step.
use std::fs::{self, File, Files, OpenFile, OpenOptions};
use std::io::{self, ErrorKind, Write};
use std::os::unix::fs::OpenOptionsExt;

/// The number of names beside the file that are tried, if runs that were killed have left files.
const NAMES: usize = 16;

/// Makes `bytes` the contents of the file of this name, which has to exist. Any process that opens it finds
/// its old contents or all of `bytes`. After an error the file is unchanged, and the new file is removed; but
/// if its folder alone cannot be synced, the file is replaced. The permissions stay. A link is followed: the
/// file that it leads to is replaced. No clause can say what a file has, before or after.
pub fn replace<R: Files + Alloc>(rt: &R, name: &str, bytes: &[u8]) -> io::Result<()> {
    let target = fs::canonicalize(rt, name)?;
    let path = target.as_path().to_string_lossy();
    for n in 0..NAMES {
        let beside = format!(in rt.alloc(); "{path}.{n}.new")?;
        let opened = OpenOptions::new()
            .write(true)
            .create_new(true)
            .mode(0o600)
            .open(rt, beside.as_str());
        match opened {
            Ok(file) => return fill_and_rename(rt, file, beside.as_str(), path, bytes),
            Err(error) if error.kind() == ErrorKind::AlreadyExists => {}
            Err(error) => return Err(error),
        }
    }
    Err(io::Error::from(ErrorKind::AlreadyExists))
}

/// Fills the new file and gives it the name of the old one, or removes it.
fn fill_and_rename<R: Files>(
    rt: &R,
    mut file: R::File,
    beside: &str,
    path: &str,
    bytes: &[u8],
) -> io::Result<()> {
    let written = fill(rt, &mut file, path, bytes);
    drop(file);
    let done = written.and_then(|()| fs::rename(rt, beside, path));
    if done.is_err() {
        let _ = fs::remove_file(rt, beside);
        return done;
    }
    // The rename is durable only after its folder is synced.
    let (folder, _) = path.rsplit_once('/').unwrap_or(("", ""));
    match File::open(rt, if folder.is_empty() { "/" } else { folder }) {
        Ok(folder) => folder.sync_all(),
        Err(_) => Ok(()),
    }
}

/// Gives a new file the permissions of the old one and these bytes, on the disk.
fn fill<R: Files>(rt: &R, file: &mut R::File, old: &str, bytes: &[u8]) -> io::Result<()> {
    file.write_all(bytes)?;
    file.set_permissions(fs::metadata(rt, old)?.permissions())?;
    file.sync_all()
}
