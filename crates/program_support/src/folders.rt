//! The grammars of a folder and of those below it.
ghost use Rattle.std.specs.Prelude.{All, IfOk};
ghost use Rattle.program_support.specs.Folders.{IsGrammarName};

use std::alloc::{AllocError, Global};
use std::fs;
use std::io::{self, ErrorKind};

/// A folder that cannot be read.
#[derive(Drop)]
pub struct UnreadFolder {
    pub name: String,
    pub why: String,
}

/// The files of a folder and of those below it.
#[derive(Drop)]
pub struct Folder {
    /// The names of its grammars, which end with `.pest`, in order.
    pub grammars: Vec<String>,
    /// The folders that cannot be read.
    pub unread: Vec<UnreadFolder>,
}

/// Returns whether a name is that of a folder. `-` is the name of standard input.
pub fn is_folder(rt: &HostRuntime, name: &str) -> bool {
    if name == "-" {
        return false;
    }
    match fs::metadata(rt, name) {
        Ok(metadata) => metadata.is_dir(),
        Err(_) => false,
    }
}

/// Finds the grammars of the folder named `name`, and of those below it. The only error is an allocation
/// failure. No clause can say what a folder has.
pub fn read_folder(rt: &HostRuntime, name: &str) -> Result<Folder, AllocError>
    ensures { IfOk result (λ folder. All IsGrammarName folder.grammars.items) }
{
    let alloc = rt.alloc();
    let mut folders = Vec::new(alloc);
    let mut grammars = Vec::new(alloc);
    let mut unread = Vec::new(alloc);
    folders.push(String::from_str(alloc, name)?)?;
    for _ in 0..u64::MAX {
        let Some(folder) = folders.pop() else {
            break;
        };
        if let Err(error) = list_folder(rt, folder.as_str(), &mut folders, &mut grammars) {
            unread.push(unread_folder(alloc, folder, &error)?)?;
        }
    }
    grammars.sort()?;
    Ok(Folder { grammars, unread })
}

/// Returns a folder that cannot be read, for an error.
fn unread_folder(
    alloc: Global,
    name: String,
    error: &io::Error,
) -> Result<UnreadFolder, AllocError> {
    let why = match error.kind() {
        ErrorKind::InvalidFilename => String::from_str(alloc, "a name in it is not UTF-8")?,
        _ => format!(in alloc; "{error}")?,
    };
    Ok(UnreadFolder { name, why })
}

/// Adds the folders in a folder, and its grammars. The error is that of the last entry that cannot be read,
/// or an allocation failure.
fn list_folder(
    rt: &HostRuntime,
    folder: &str,
    folders: &mut Vec<String>,
    files: &mut Vec<String>,
) -> io::Result<()>
    ensures { All IsGrammarName files.old.items → All IsGrammarName files.new.items }
{
    let mut outcome = Ok(());
    for entry in fs::read_dir(rt, folder)? {
        let entry = match entry {
            Ok(entry) => entry,
            Err(error) => {
                outcome = Err(error);
                continue;
            }
        };
        let path = String::from_str(rt.alloc(), entry.path().as_str())?;
        match entry.file_type() {
            Ok(kind) if kind.is_dir() => folders.push(path)?,
            Ok(kind) if kind.is_file() => add_grammar(path, files)?,
            _ => {}
        }
    }
    outcome
}

/// Adds a path of a grammar. Others are left out.
fn add_grammar(path: String, files: &mut Vec<String>) -> Result<(), AllocError>
    ensures { All IsGrammarName files.old.items → All IsGrammarName files.new.items }
{
    if path.as_str().ends_with(".pest") {
        files.push(path)?;
    }
    Ok(())
}
