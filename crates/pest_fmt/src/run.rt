//! The program's work on each file.
ghost use Rattle.std.specs.Prelude.{◌≡◌, ◌⊎◌, [], IfOk};
ghost use Rattle.pest_fmt.specs.Files.{IsOfFile, IsOfRun};
ghost use Rattle.pest_fmt.specs.Processing.{IsKnown};

use crate::arguments::{Delivery, Target};
use crate::processing::{Processed, TextFile, process};
use format_grammar::Options;
use program_support::input::read_input;
use program_support::messages::{cannot_read, cannot_write, is_not_utf8};
use program_support::output::Output;
use program_support::replacement::replace;
use program_support::status::Status;
use std::alloc::AllocError;
use std::io::Write;

/// Formats the files of these names, `-` being standard input, and returns the status with the highest
/// number. Stops if standard output refuses a write. The only error is an allocation failure. No clause
/// can say what the files have, nor what becomes of them.
pub fn format_files(
    rt: &HostRuntime,
    names: &[String],
    delivery: Delivery,
    options: Options,
) -> Result<Status, AllocError>
    ensures known { IfOk result IsKnown }
    ensures each { IfOk result (IsOfRun options.line_ends delivery.target names.now) }
    ensures none { names.now ≡ [] → IfOk result (λ status. status ≡ Status.Done) }
{
    let mut status = Status::Done;
    let mut left = 0usize;
    for name in names {
        let name = name.as_str();
        let delivery = delivery.for_name(name);
        let one = format_file(rt, name, delivery, options)?;
        status = status.worse(one);
        left = count_with(left, one);
        if matches!(one, Status::Unwritable) && !matches!(delivery.target, Target::File) {
            return Ok(status);
        }
    }
    if matches!(delivery.target, Target::Difference) {
        report_count(rt, left, names.len());
    }
    Ok(status)
}

/// Returns how many files are not formatted: `left`, and one more if `one` is not that of a formatted file.
fn count_with(left: usize, one: Status) -> usize {
    match one {
        Status::Done => left,
        _ => left.saturating_add(1),
    }
}

/// Writes on standard error how many of `count` files are not formatted, if some are not.
fn report_count(rt: &HostRuntime, left: usize, count: usize) {
    if left != 0 {
        let _ = eprintln!(rt; "{left} of {count} files are not formatted");
    }
}

/// Formats the file of a name.
fn format_file(
    rt: &HostRuntime,
    name: &str,
    delivery: Delivery,
    options: Options,
) -> Result<Status, AllocError>
    ensures known { IfOk result IsKnown }
    ensures status { IfOk result (IsOfFile options.line_ends delivery.target) }
{
    let alloc = rt.alloc();
    let bytes = match read_input(rt, name) {
        Ok(bytes) => bytes,
        Err(error) => {
            let why = format!(in alloc; "{error}")?;
            let message = cannot_read(alloc, name, why.as_str())?;
            return Ok(report(rt, message.as_str(), Status::Unreadable));
        }
    };
    let Ok(text) = str::from_utf8(&bytes) else {
        let message = is_not_utf8(alloc, name)?;
        return Ok(report(rt, message.as_str(), Status::Unreadable));
    };
    let mut out = Output::new(rt.stdout());
    let mut err = Output::new(rt.stderr());
    let file = TextFile { name, text };
    match process(alloc, file, delivery, options, &mut out, &mut err)? {
        Processed::Ended(Status::Unwritable) => {
            Ok(report(rt, "cannot write to standard output\n", Status::Unwritable))
        }
        Processed::Ended(status) => Ok(status),
        Processed::Replacement(formatted) => put_back(rt, name, formatted.as_str()),
    }
}

/// Replaces a file by its formatted text.
fn put_back(rt: &HostRuntime, name: &str, formatted: &str) -> Result<Status, AllocError>
    ensures { IfOk result (λ status. (status ≡ Status.Done) ⊎ (status ≡ Status.Unwritable)) }
{
    match replace(rt, name, formatted.as_bytes()) {
        Ok(()) => Ok(Status::Done),
        Err(error) => {
            let alloc = rt.alloc();
            let why = format!(in alloc; "{error}")?;
            let message = cannot_write(alloc, name, why.as_str())?;
            Ok(report(rt, message.as_str(), Status::Unwritable))
        }
    }
}

/// Writes a message on standard error, and returns a status.
fn report(rt: &HostRuntime, message: &str, status: Status) -> Status
    ensures { result ≡ status }
{
    let _ = rt.stderr().write_all(message.as_bytes());
    status
}
