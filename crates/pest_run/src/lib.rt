//! Matches a text by a rule of a grammar, and prints the trees.
#![tactic(auto)]

ghost use Rattle.std.specs.Prelude.{◌≡◌, ◌≢◌, ◌≤◌, IfOk, None, false, true};
ghost use Rattle.std.specs.Process.{exit_status};
ghost use Rattle.pest_run.specs.Codes.{is_code};
ghost use Rattle.pest_run.specs.Listing.{ListsRules};
ghost use Rattle.pest_run.specs.Written.{IsReadable, PrintsTrees};

mod arguments;
mod codes;
mod explanations;
mod failures;
mod forms;
mod grammars;
mod listing;
mod matching;
mod messages;
mod missing;
mod outcomes;
mod paths;
mod properties;
mod rule_names;
mod run;
mod sources;
mod stack_rules;

pub use arguments::command;
use arguments::{
    Request, RuleForm, asks_for_rules, asks_why, compile_target, form_of, format_of, steps_of,
};
use clap::ArgMatches;
use codes::{compile_file, is_code, run_code};
use explanations::{explain_code, explain_failure};
use forms::note_forms;
use grammars::Reading;
use listing::list_file;
use missing::tell_missing;
use program_support::input::{describe_flaw, read_input};
use program_support::messages::cannot_write;
use program_support::output::{Output, RefusedWrite};
use program_support::status::Status;
use properties::note_property;
use run::run_files;
use sources::Source;
use std::alloc::{AllocError, Global};
use std::fs::File;
use std::io::{self, IsTerminal, Stderr, Write};
use std::process::ExitCode;

/// Reads the file of that name, or standard input for `-`. The source has the bytes, or the reason why they
/// cannot be read.
fn source<'a>(rt: &HostRuntime, name: &'a str) -> Result<Source<'a>, AllocError> {
    let alloc = rt.alloc();
    let (bytes, why) = match read_input(rt, name) {
        Ok(bytes) => (bytes, None),
        Err(error) => (Vec::new(alloc), Some(format!(in alloc; "{error}")?)),
    };
    let mut source = Source { name, bytes, why };
    if source.why.is_none() && !is_code(&source) {
        source.why = describe_flaw(alloc, &source.bytes)?;
    }
    Ok(source)
}

/// Returns the file of a grammar for what needs its text: a compiled grammar counts as a file that cannot be
/// read. The only error is an allocation failure.
fn text_source<'a>(rt: &HostRuntime, grammar: Source<'a>) -> Result<Source<'a>, AllocError>
    ensures code { IfOk result (λ source. is_code grammar.entry.name.now grammar.entry.bytes.items ≡ true
        → source.why ≢ None) }
    ensures text { IfOk result (λ source. is_code grammar.entry.name.now grammar.entry.bytes.items ≡ false
        → source ≡ grammar.entry) }
    ensures unread { IfOk result (λ source. grammar.entry.why ≢ None → source ≡ grammar.entry) }
{
    if grammar.why.is_some() {
        return Ok(grammar);
    }
    if !is_code(&grammar) {
        return Ok(grammar);
    }
    let alloc = rt.alloc();
    let why = "it is a compiled grammar, and this needs the grammar's text";
    Ok(Source {
        name: grammar.name,
        bytes: Vec::new(alloc),
        why: Some(String::from_str(alloc, why)?),
    })
}

/// Runs the program on two files with the process's own output, and returns the status.
fn match_files(
    rt: &HostRuntime,
    grammar: &Source<'_>,
    text: &Source<'_>,
    request: Request<'_>,
) -> u8
    ensures known { result ≤ 5 }
    ensures read { result ≢ 3 → IsReadable grammar.now × IsReadable text.now }
    ensures unread { IsReadable grammar.now → IsReadable text.now → result ≢ 3 }
    ensures matched { result ≡ 0
        → PrintsTrees request.entry.form grammar.now.bytes.items request.entry.rule.now text.now.bytes.items
        request.entry.format None None }
{
    let alloc = rt.alloc();
    let mut out = Output::new(rt.stdout());
    let mut err = error_output(rt);
    let mut reading = Reading::Nothing;
    let exit = run_files(
        alloc,
        grammar,
        text,
        request,
        &mut reading,
        &mut out,
        &mut err,
    );
    if exit.status == Status::Found.code() {
        let _ = print_more(alloc, &reading, text, request, &mut out, &mut err);
    }
    exit.status
}

/// Prints more on why there are no trees: what the text was missing, the open calls, if the request asks for
/// them, and whether the optimized rules match; or that a property is pest's.
fn print_more<W: Write, E: Write>(
    alloc: Global,
    reading: &Reading<'_>,
    text: &Source<'_>,
    request: Request<'_>,
    out: &mut Output<W>,
    err: &mut Output<E>,
) -> Result<(), RefusedWrite> {
    match reading {
        Reading::Nothing => Ok(()),
        Reading::Refused(property) => note_property(alloc, *property, err),
        Reading::Accepted(rules) => {
            tell_missing(alloc, rules, text, request, err)?;
            if request.why {
                explain_failure(alloc, rules, text, request, out, err)?;
            }
            match request.form {
                RuleForm::Written => note_forms(alloc, rules, text, request, err),
                RuleForm::Optimized => Ok(()),
            }
        }
    }
}

/// Runs the program on a compiled grammar and a text with the process's own output, and returns the status.
fn match_by_code(rt: &HostRuntime, code: &Source<'_>, text: &Source<'_>, request: Request<'_>) -> u8
    ensures known { result ≤ 6 }
    ensures read { result ≢ 3 → (code.now.why ≡ None) × IsReadable text.now }
{
    let alloc = rt.alloc();
    let mut out = Output::new(rt.stdout());
    let mut err = error_output(rt);
    let status = run_code(alloc, code, text, request, &mut out, &mut err).status;
    if request.why && status == Status::Found.code() {
        let _ = explain_code(alloc, code, text, request, &mut out, &mut err);
    }
    status
}

/// Compiles a grammar to the file named `target`, with the process's own output, and returns the exit status.
fn compile(rt: &HostRuntime, grammar: &Source<'_>, target: &str) -> Result<u8, AllocError>
    ensures known { IfOk result (λ status. status ≤ 5) }
{
    let alloc = rt.alloc();
    let mut err = error_output(rt);
    let mut reading = Reading::Nothing;
    match compile_file(alloc, grammar, &mut reading, &mut err) {
        Ok(block) => match write_code(rt, target, &block) {
            Ok(()) => Ok(Status::Done.code()),
            Err(error) => {
                let why = format!(in alloc; "{error}")?;
                let message = cannot_write(alloc, target, why.as_str())?;
                let _ = err.write_text(message.as_str());
                Ok(Status::Unwritable.code())
            }
        },
        Err(exit) => {
            if let Reading::Refused(property) = reading {
                let _ = note_property(alloc, property, &mut err);
            }
            Ok(exit.status)
        }
    }
}

/// Writes `bytes` to the file named `name`, or to standard output for `-`.
fn write_code(rt: &HostRuntime, name: &str, bytes: &[u8]) -> io::Result<()> {
    if name == "-" {
        let mut stdout = rt.stdout();
        stdout.write_all(bytes)?;
        stdout.flush()
    } else {
        File::create(rt, name)?.write_all(bytes)
    }
}

/// Lists the rules of a grammar with the process's own output, and returns the status.
fn list_names(rt: &HostRuntime, grammar: &Source<'_>) -> u8
    ensures known { result ≤ 4 }
    ensures read { result ≢ 3 → IsReadable grammar.now }
    ensures unread { IsReadable grammar.now → result ≢ 3 }
    ensures listed { result ≡ 0 → ListsRules grammar.now.bytes.items None None }
{
    let mut out = Output::new(rt.stdout());
    let mut err = error_output(rt);
    list_file(rt.alloc(), grammar, &mut out, &mut err).status
}

/// Returns the process's standard error.
fn error_output(rt: &HostRuntime) -> Output<Stderr> {
    let is_terminal = rt.stderr().is_terminal();
    Output::for_terminal(rt.stderr(), is_terminal)
}

/// Matches a text, compiles a grammar or lists its rules, as a command line asks, and returns the status. The
/// only error is an allocation failure.
pub fn answer(rt: &HostRuntime, matches: &ArgMatches<'_>) -> Result<ExitCode, AllocError>
    ensures known { IfOk result (λ exit. exit_status exit ≤ 6) }
{
    Ok(ExitCode::from(answer_request(rt, matches)?))
}

/// Does what a command line asks for, and returns the status.
fn answer_request(rt: &HostRuntime, matches: &ArgMatches<'_>) -> Result<u8, AllocError>
    ensures known { IfOk result (λ status. status ≤ 6) }
{
    let grammar = source(rt, matches.get_str("GRAMMAR").unwrap_or(""))?;
    if let Some(target) = compile_target(matches) {
        return compile(rt, &text_source(rt, grammar)?, target);
    }
    if asks_for_rules(matches) {
        return Ok(list_names(rt, &text_source(rt, grammar)?));
    }
    let text = source(rt, matches.get_str("TEXT").unwrap_or("-"))?;
    let request = Request {
        rule: matches.get_str("RULE").unwrap_or(""),
        format: format_of(matches),
        form: form_of(matches),
        steps: steps_of(matches),
        why: asks_why(matches),
    };
    if is_code(&grammar) {
        return Ok(match_by_code(rt, &grammar, &text, request));
    }
    Ok(match_files(rt, &grammar, &text, request))
}
