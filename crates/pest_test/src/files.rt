//! The files of cases that a command line names, and the grammars beside them.

use program_support::folders::is_folder;
use program_support::messages::cannot_read;
use std::alloc::AllocError;
use std::fs;
use std::io::{self, Write};

/// A file of cases.
#[derive(Drop)]
pub struct CaseSource {
    pub name: String,
    /// Whether a folder has it, and not the command line.
    pub is_found: bool,
}

/// Finds the files of these names, those of folders in order. Reports folders that cannot be read, and
/// returns whether there are none.
pub fn find_sources(
    rt: &HostRuntime,
    names: &[&str],
    sources: &mut Vec<CaseSource>,
) -> Result<bool, AllocError> {
    let mut are_read = true;
    for name in names {
        if is_folder(rt, name) {
            are_read = add_folder(rt, name, sources)? && are_read;
        } else {
            let name = String::from_str(rt.alloc(), name)?;
            sources.push(CaseSource {
                name,
                is_found: false,
            })?;
        }
    }
    Ok(are_read)
}

/// Adds the files of a folder and of those below it, in order of their names.
fn add_folder(
    rt: &HostRuntime,
    name: &str,
    sources: &mut Vec<CaseSource>,
) -> Result<bool, AllocError> {
    let alloc = rt.alloc();
    let mut folders = Vec::new(alloc);
    let mut files = Vec::new(alloc);
    let mut are_read = true;
    folders.push(String::from_str(alloc, name)?)?;
    for _ in 0..u64::MAX {
        let Some(folder) = folders.pop() else {
            break;
        };
        if let Err(error) = list_folder(rt, folder.as_str(), ".txt", &mut folders, &mut files) {
            report_unread(rt, folder.as_str(), &error)?;
            are_read = false;
        }
    }
    files.sort()?;
    add_files(files, sources)?;
    Ok(are_read)
}

/// Adds files that a folder has.
fn add_files(files: Vec<String>, sources: &mut Vec<CaseSource>) -> Result<(), AllocError> {
    for name in files {
        sources.push(CaseSource {
            name,
            is_found: true,
        })?;
    }
    Ok(())
}

/// Reports a file or a folder that cannot be read.
pub fn report_unread(rt: &HostRuntime, name: &str, error: &io::Error) -> Result<(), AllocError> {
    let alloc = rt.alloc();
    let why = format!(in alloc; "{error}")?;
    let message = cannot_read(alloc, name, why.as_str())?;
    let _ = rt.stderr().write_all(message.as_bytes());
    Ok(())
}

/// Adds the folders in a folder, and its files with names of this ending.
fn list_folder(
    rt: &HostRuntime,
    folder: &str,
    ending: &str,
    folders: &mut Vec<String>,
    files: &mut Vec<String>,
) -> io::Result<()> {
    for entry in fs::read_dir(rt, folder)? {
        let entry = entry?;
        let path = String::from_str(rt.alloc(), entry.path().as_str())?;
        match entry.file_type() {
            Ok(kind) if kind.is_dir() => folders.push(path)?,
            Ok(kind) if kind.is_file() => {
                if path.as_str().ends_with(ending) {
                    files.push(path)?;
                }
            }
            _ => {}
        }
    }
    Ok(())
}

/// Returns the path `path` as the file `file` means it: a relative path starts from the folder of
/// `file`.
pub fn path_beside(rt: &HostRuntime, file: &str, path: &str) -> Result<String, AllocError> {
    let alloc = rt.alloc();
    match file.rsplit_once('/') {
        Some((folder, _)) if !path.starts_with('/') => format!(in alloc; "{folder}/{path}"),
        _ => String::from_str(alloc, path),
    }
}

/// Returns the path of the grammar for the file of cases `file`: the only `*.pest` in the folder of
/// `file`. If this folder has none, the folder above is searched, and then the folder `src` in the
/// folder above. Returns `None` if no grammar is found, or if a folder has more than one.
pub fn find_grammar(rt: &HostRuntime, file: &str) -> Result<Option<String>, AllocError> {
    for place in [".", "..", "../src"] {
        let folder = path_beside(rt, file, place)?;
        let mut grammars = Vec::new(rt.alloc());
        let mut folders = Vec::new(rt.alloc());
        let _ = list_folder(rt, folder.as_str(), ".pest", &mut folders, &mut grammars);
        match grammars.len() {
            0 => {}
            1 => return Ok(grammars.pop()),
            _ => return Ok(None),
        }
    }
    Ok(None)
}
