//! The program's work on each file.

use crate::arguments::{Task, TestRequest};
use crate::cases::{CaseFile, FileError, begins_as_cases, read_cases};
use crate::files::{CaseSource, find_grammar, path_beside, report_unread};
use crate::grammars::{GrammarError, compile_grammar};
use crate::report::{Tally, Tested, heading, print_summary, report_all};
use crate::updates::{apply_edits, find_edits};
use crate::verdicts::{Verdict, default_rule, judge_all, status_of};
use base_language::grammar::Rule;
use base_language::runtime::Error;
use matcher_support::compiled::CompiledGrammar;
use program_support::escape::escape;
use program_support::input::read_input;
use program_support::messages::{cannot_write, is_not_utf8, show_error};
use program_support::output::Output;
use program_support::replacement::replace;
use program_support::status::Status;
use std::alloc::AllocError;
use std::io::Write;

/// Does the work that `request` asks for on each file of `sources`. Returns the highest status of
/// all files. If standard output refuses a write, the remaining files are left out. The only error
/// is an allocation failure.
pub fn test_files(
    rt: &HostRuntime,
    sources: &[CaseSource],
    request: TestRequest<'_>,
) -> Result<Status, AllocError> {
    let mut tally = Tally::none();
    let mut status = Status::Done;
    if matches!(request.task, Task::Test | Task::Update) {
        status = print(rt, heading(request.format));
    }
    for source in sources {
        let one = test_file(rt, source, request, &mut tally)?;
        status = status.worse(one);
        if matches!(status, Status::Unwritable) {
            return Ok(status);
        }
    }
    match request.task {
        Task::List => Ok(status),
        Task::Test | Task::Update => end_run(rt, request, tally, status),
    }
}

/// Prints the numbers of cases, and reports if there is none. `status` is that of the files.
fn end_run(
    rt: &HostRuntime,
    request: TestRequest<'_>,
    tally: Tally,
    status: Status,
) -> Result<Status, AllocError> {
    let summary = print_summary(rt.alloc(), request.format, tally)?;
    let status = status.worse(print(rt, summary.as_str()));
    if tally.count() == 0 && matches!(status, Status::Done) {
        return Ok(complain(rt, "no case was found\n", Status::Unreadable));
    }
    Ok(status)
}

/// Prints a text.
fn print(rt: &HostRuntime, text: &str) -> Status {
    let mut out = Output::new(rt.stdout());
    match out.write_text(text) {
        Ok(()) => Status::Done,
        Err(_) => complain(rt, "cannot write to standard output\n", Status::Unwritable),
    }
}

/// Writes a message on standard error, and returns a status.
fn complain(rt: &HostRuntime, message: &str, status: Status) -> Status {
    let _ = rt.stderr().write_all(message.as_bytes());
    status
}

/// Tests a file.
fn test_file(
    rt: &HostRuntime,
    source: &CaseSource,
    request: TestRequest<'_>,
    tally: &mut Tally,
) -> Result<Status, AllocError> {
    let alloc = rt.alloc();
    let name = source.name.as_str();
    let bytes = match read_input(rt, name) {
        Ok(bytes) => bytes,
        Err(error) => {
            report_unread(rt, name, &error)?;
            return Ok(Status::Unreadable);
        }
    };
    let Ok(text) = str::from_utf8(&bytes) else {
        let message = is_not_utf8(alloc, name)?;
        return Ok(complain(rt, message.as_str(), Status::Unreadable));
    };
    if source.is_found && !begins_as_cases(text) {
        return Ok(Status::Done);
    }
    match read_cases(alloc, text) {
        Ok(cases) => test_text(rt, name, text, cases, request, tally),
        Err(FileError::Memory) => Err(AllocError),
        Err(FileError::Wrong { line, why }) => {
            let name = escape(alloc, name)?;
            let message = format!(in alloc; "cannot read {name}:{line}: {why}\n")?;
            Ok(complain(rt, message.as_str(), Status::Unreadable))
        }
    }
}

/// Tests the cases of a file.
fn test_text(
    rt: &HostRuntime,
    name: &str,
    text: &str,
    file: CaseFile<'_>,
    request: TestRequest<'_>,
    tally: &mut Tally,
) -> Result<Status, AllocError> {
    let mut file = file;
    if let Some(words) = request.filter {
        skip_unnamed(&mut file, words);
    }
    if matches!(request.task, Task::List) {
        return list_cases(rt, name, &file);
    }
    let block = match load_grammar(rt, name, &file, request)? {
        Ok(block) => block,
        Err(status) => return Ok(status),
    };
    let Some(rules) = CompiledGrammar::read(rt.alloc(), &block)? else {
        return Ok(Status::Stopped);
    };
    test_cases(rt, name, text, &file, &rules, request, tally)
}

/// Skips the cases whose names do not have these words.
fn skip_unnamed(file: &mut CaseFile<'_>, words: &str) {
    for case in file.cases.iter_mut() {
        case.is_skipped = case.is_skipped || !case.name.contains(words);
    }
}

/// Prints the names of the cases of a file.
fn list_cases(rt: &HostRuntime, name: &str, file: &CaseFile<'_>) -> Result<Status, AllocError> {
    let alloc = rt.alloc();
    let shown = escape(alloc, name)?;
    let mut out = String::new(alloc);
    for case in &file.cases {
        let title = escape(alloc, case.name)?;
        let line = case.line;
        write!(out, "{shown}:{line}: {title}\n")?;
    }
    Ok(print(rt, out.as_str()))
}

/// Compiles the grammar of a file of cases. Returns the status if that cannot be done, after a message.
fn load_grammar(
    rt: &HostRuntime,
    name: &str,
    file: &CaseFile<'_>,
    request: TestRequest<'_>,
) -> Result<Result<Vec<u8>, Status>, AllocError> {
    let alloc = rt.alloc();
    let grammar = match (request.grammar, file.head.grammar) {
        (Some(path), _) => Some(String::from_str(alloc, path)?),
        (None, Some(path)) => Some(path_beside(rt, name, path)?),
        (None, None) => find_grammar(rt, name)?,
    };
    match grammar {
        Some(grammar) => compile_file(rt, grammar.as_str(), request),
        None => {
            let name = escape(alloc, name)?;
            let message = format!(in alloc;
                "cannot test {name}: it needs a line `grammar: PATH` before its first case, or --grammar\n"
            )?;
            Ok(Err(complain(rt, message.as_str(), Status::Unreadable)))
        }
    }
}

/// Compiles the grammar in a file. Returns the status if that cannot be done, after a message.
fn compile_file(
    rt: &HostRuntime,
    name: &str,
    request: TestRequest<'_>,
) -> Result<Result<Vec<u8>, Status>, AllocError> {
    let alloc = rt.alloc();
    let bytes = match read_input(rt, name) {
        Ok(bytes) => bytes,
        Err(error) => {
            report_unread(rt, name, &error)?;
            return Ok(Err(Status::Unreadable));
        }
    };
    let Ok(text) = str::from_utf8(&bytes) else {
        let message = is_not_utf8(alloc, name)?;
        return Ok(Err(complain(rt, message.as_str(), Status::Unreadable)));
    };
    match compile_grammar(alloc, text, request.form) {
        Ok(block) => Ok(Ok(block)),
        Err(GrammarError::Memory) => Err(AllocError),
        Err(GrammarError::Unfit) => {
            let message = "the rules of the grammar cannot be run\n";
            Ok(Err(complain(rt, message, Status::Stopped)))
        }
        Err(GrammarError::Refused(errors)) => {
            report_errors(rt, name, &errors)?;
            Ok(Err(Status::Found))
        }
    }
}

/// Reports the errors of a grammar.
fn report_errors(rt: &HostRuntime, name: &str, errors: &[Error<Rule>]) -> Result<(), AllocError> {
    for error in errors {
        let message = show_error(rt.alloc(), Some(name), error)?;
        let _ = eprintln!(rt; "{message}");
    }
    Ok(())
}

/// Runs the cases of a file, reports the verdicts, and writes trees if this is asked for.
fn test_cases(
    rt: &HostRuntime,
    name: &str,
    text: &str,
    file: &CaseFile<'_>,
    rules: &CompiledGrammar<'_>,
    request: TestRequest<'_>,
    tally: &mut Tally,
) -> Result<Status, AllocError> {
    let alloc = rt.alloc();
    let is_update = matches!(request.task, Task::Update);
    let given = request.rule.or(file.head.rule);
    let default = default_rule(rules, given);
    let verdicts = judge_all(alloc, rules, default, &file.cases)?;
    let tested = Tested {
        name,
        rules,
        default,
    };
    let mut out = String::new(alloc);
    report_all(
        alloc,
        &mut out,
        request,
        tested,
        &file.cases,
        &verdicts,
        is_update,
        tally,
    )?;
    let status = status_of(&verdicts, is_update).worse(print(rt, out.as_str()));
    if is_update {
        return Ok(status.worse(update(rt, name, text, file, rules, &verdicts)?));
    }
    Ok(status)
}

/// Writes the found trees of cases whose trees differ into their file.
fn update(
    rt: &HostRuntime,
    name: &str,
    text: &str,
    file: &CaseFile<'_>,
    rules: &CompiledGrammar<'_>,
    verdicts: &[Verdict],
) -> Result<Status, AllocError> {
    let alloc = rt.alloc();
    let edits = find_edits(alloc, rules, text, &file.cases, verdicts)?;
    if edits.is_empty() {
        return Ok(Status::Done);
    }
    let Some(new) = apply_edits(alloc, text, &edits)? else {
        return Ok(complain(rt, "the file cannot be edited\n", Status::Stopped));
    };
    match replace(rt, name, new.as_bytes()) {
        Ok(()) => Ok(Status::Done),
        Err(error) => {
            let why = format!(in alloc; "{error}")?;
            let message = cannot_write(alloc, name, why.as_str())?;
            Ok(complain(rt, message.as_str(), Status::Unwritable))
        }
    }
}
