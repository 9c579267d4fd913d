//! Rules with which matching starts.
ghost use Rattle.std.specs.Prelude.{◌≡◌, IfOk, codes};
ghost use Rattle.pest_lint.specs.Starts.{names_of, values_of};

use crate::lint::{Source, UNREADABLE, text_of};
use clap::ArgMatches;
use front_names::Builtin;
use lint_hints::{definitions, nearest_name};
use lint_output::to_visible;
use std::alloc::{AllocError, Global};
use std::collections::HashSet;

/// The names that `--start` gives.
pub fn named_starts<'a>(
    alloc: Global,
    matches: &'a ArgMatches<'_>,
) -> Result<Vec<&'a str>, AllocError>
    ensures { IfOk result (λ starts.
        names_of starts.items ≡ values_of matches.entry.now (codes "start")) }
{
    let names = matches.get_strs("start").unwrap_or(&[]);
    let mut starts = Vec::new(alloc);
    for name in names {
        starts.push(*name)?;
    }
    Ok(starts)
}

/// The first of some names that is none of a rule in these files, nor `SOI`; none if a file can't be read.
pub(crate) fn unknown_start<'a>(
    alloc: Global,
    sources: &[Source],
    starts: &[&'a str],
) -> Result<Option<&'a str>, AllocError> {
    let names = defined_names(alloc, sources)?;
    let known = set_of(alloc, &names)?;
    let is_whole = sources.iter().all(|source| text_of(source).is_some());
    Ok(first_unknown(starts, &known).filter(|_| is_whole))
}

/// The first of some names that is not among others.
fn first_unknown<'a>(starts: &[&'a str], known: &HashSet<&str>) -> Option<&'a str> {
    for name in starts {
        if !is_known(*name, known) {
            return Some(*name);
        }
    }
    None
}

/// Whether a name is among others.
fn is_known(name: &str, known: &HashSet<&str>) -> bool {
    known.contains(&name)
}

/// A set of names, and `SOI`.
fn set_of<'n>(alloc: Global, names: &[&'n str]) -> Result<HashSet<&'n str>, AllocError> {
    let mut set = HashSet::new(alloc);
    set.insert(Builtin::Soi.name())?;
    for name in names {
        set.insert(*name)?;
    }
    Ok(set)
}

/// Reports on standard error that no rule has a name which `--start` gives, with a near one, and answers the
/// status.
pub(crate) fn report_start(
    rt: &HostRuntime,
    sources: &[Source],
    name: &str,
) -> Result<u8, AllocError>
    ensures { IfOk result (λ status. status ≡ 3) }
{
    let alloc = rt.alloc();
    let names = defined_names(alloc, sources)?;
    let shown = to_visible(alloc, name)?;
    match nearest_name(alloc, name, &names)? {
        Some(near) => {
            let near = to_visible(alloc, near)?;
            let _ = eprintln!(rt;
                "there is no rule named `{shown}` for --start; did you mean `{near}`?"
            );
        }
        None => {
            let _ = eprintln!(rt; "there is no rule named `{shown}` for --start");
        }
    }
    Ok(UNREADABLE)
}

/// The names that the files define.
fn defined_names(alloc: Global, sources: &[Source]) -> Result<Vec<&str>, AllocError> {
    let mut names = Vec::new(alloc);
    for source in sources {
        add_names(alloc, source, &mut names)?;
    }
    Ok(names)
}

/// Adds the names that a file defines.
fn add_names<'s>(
    alloc: Global,
    source: &'s Source,
    names: &mut Vec<&'s str>,
) -> Result<(), AllocError> {
    let text = text_of(source).unwrap_or("");
    for (start, end) in &definitions(alloc, text)? {
        names.push(text.get(*start..*end).unwrap_or(""))?;
    }
    Ok(())
}
