//! Reading files and folders.
ghost use Rattle.std.specs.Prelude.{◌≡◌, All, IfOk, IsSome, OnOk, string_bytes};
ghost use Rattle.pest_lint.specs.Sources.{AreFilesOf, AreOfNames, Gain, IsOfFolder};
ghost use Rattle.program_support.specs.Folders.{IsGrammarName};

use crate::lint::Source;
use program_support::folders::{UnreadFolder, is_folder, read_folder};
use program_support::input::{describe_flaw, read_input};
use std::alloc::{AllocError, Global};

/// The files of these names: of a folder all below it whose names end with `.pest`, in order. No clause can
/// say which names are folders, nor what they have.
pub fn read_sources(rt: &HostRuntime, names: &[&str]) -> Result<Vec<Source>, AllocError>
    ensures { IfOk result (λ sources. AreOfNames names.now sources.items) }
{
    let mut sources = Vec::new(rt.alloc());
    for name in names {
        read_named(rt, name, &mut sources)?;
    }
    Ok(sources)
}

/// Adds the file of a name, or those of the folder of that name.
fn read_named(rt: &HostRuntime, name: &str, sources: &mut Vec<Source>) -> Result<(), AllocError>
    ensures { OnOk result (Gain (AreFilesOf name.now) sources.old.items sources.new.items) }
{
    if is_folder(rt, name) {
        return add_folder(rt, name, sources);
    }
    sources.push(read_source(rt, name)?)?;
    Ok(())
}

/// The file of a name, or standard input for `-`.
fn read_source(rt: &HostRuntime, name: &str) -> Result<Source, AllocError>
    ensures { IfOk result (λ source. string_bytes source.name ≡ name.now) }
{
    let alloc = rt.alloc();
    let (bytes, why) = match read_input(rt, name) {
        Ok(bytes) => {
            let why = describe_flaw(alloc, &bytes)?;
            (bytes, why)
        }
        Err(error) => (Vec::new(alloc), Some(format!(in alloc; "{error}")?)),
    };
    Ok(Source {
        name: String::from_str(alloc, name)?,
        bytes,
        why,
    })
}

/// Adds the grammars of a folder and of those below it, behind the folders that can't be read.
fn add_folder(rt: &HostRuntime, name: &str, sources: &mut Vec<Source>) -> Result<(), AllocError>
    ensures { OnOk result (Gain (All IsOfFolder) sources.old.items sources.new.items) }
{
    let folder = read_folder(rt, name)?;
    add_unread(rt.alloc(), folder.unread.as_slice(), sources)?;
    read_files(rt, &folder.grammars, sources)
}

/// Adds folders that can't be read.
fn add_unread(
    alloc: Global,
    folders: &[UnreadFolder],
    sources: &mut Vec<Source>,
) -> Result<(), AllocError>
    ensures { OnOk result (Gain (All IsOfFolder) sources.old.items sources.new.items) }
{
    for folder in folders {
        sources.push(unread_source(alloc, folder)?)?;
    }
    Ok(())
}

/// A folder that can't be read, and why.
fn unread_source(alloc: Global, folder: &UnreadFolder) -> Result<Source, AllocError>
    ensures { IfOk result (λ source. IsSome source.why) }
{
    Ok(Source {
        name: folder.name.clone()?,
        bytes: Vec::new(alloc),
        why: Some(folder.why.clone()?),
    })
}

/// Adds the files of these names.
fn read_files(
    rt: &HostRuntime,
    names: &[String],
    sources: &mut Vec<Source>,
) -> Result<(), AllocError>
    requires { All IsGrammarName names.now }
    ensures { OnOk result (Gain (All IsOfFolder) sources.old.items sources.new.items) }
{
    for name in names {
        sources.push(read_source(rt, name.as_str())?)?;
    }
    Ok(())
}
