//! The files that a command line names, those in folders among them.
ghost use Rattle.std.specs.Prelude.{All, OnOk};
ghost use Rattle.pest_fmt.specs.Sources.{AreFilesOf, AreOfNames, Gain};
ghost use Rattle.program_support.specs.Folders.{IsGrammarName};

use program_support::folders::{UnreadFolder, is_folder, read_folder};
use program_support::messages::cannot_read;
use std::alloc::AllocError;
use std::io::Write;

/// Finds the files of these names, those of folders in order, and adds them to `files`. Reports folders that
/// can't be read, and returns whether there are none. The only error is an allocation failure. No clause can
/// say which names are folders, nor what they have.
pub fn find_files(
    rt: &HostRuntime,
    names: &[&str],
    files: &mut Vec<String>,
) -> Result<bool, AllocError>
    ensures { OnOk result (Gain (AreOfNames names.now) files.old.items files.new.items) }
{
    let mut are_read = true;
    for name in names {
        let is_read = add_named(rt, name, files)?;
        are_read = are_read && is_read;
    }
    Ok(are_read)
}

/// Adds the file of a name, or the grammars of the folder of that name. Returns as `find_files` does.
fn add_named(rt: &HostRuntime, name: &str, files: &mut Vec<String>) -> Result<bool, AllocError>
    ensures { OnOk result (Gain (AreFilesOf name.now) files.old.items files.new.items) }
{
    if is_folder(rt, name) {
        return add_folder(rt, name, files);
    }
    files.push(String::from_str(rt.alloc(), name)?)?;
    Ok(true)
}

/// Adds the grammars of a folder and of those below it. Returns as `find_files` does.
fn add_folder(rt: &HostRuntime, name: &str, files: &mut Vec<String>) -> Result<bool, AllocError>
    ensures { OnOk result (Gain (All IsGrammarName) files.old.items files.new.items) }
{
    let mut folder = read_folder(rt, name)?;
    report_unread(rt, &folder.unread)?;
    files.append(&mut folder.grammars)?;
    Ok(folder.unread.is_empty())
}

/// Reports folders that can't be read.
fn report_unread(rt: &HostRuntime, folders: &[UnreadFolder]) -> Result<(), AllocError> {
    for folder in folders {
        let message = cannot_read(rt.alloc(), folder.name.as_str(), folder.why.as_str())?;
        let _ = rt.stderr().write_all(message.as_bytes());
    }
    Ok(())
}
