//! The command line.

use crate::examples::ExampleRequest;
use clap::{Arg, ArgMatches, Command};
use program_support::arguments::{add_argument, flag, new_command, option, positional};
use std::alloc::{AllocError, Global};

/// The exit statuses, as `--help` shows them.
const STATUSES: &str =
    "status: 0 printed, 1 the grammar is refused, has no such rule, or no example was found, \
     2 out of memory, 3 a file or the command line can't be read, 4 standard output can't be written";

/// Returns the arguments that the program takes.
pub fn command<'a>(alloc: Global) -> Result<Command<'a>, AllocError> {
    let about =
        "Prints texts that a rule of a pest grammar matches to their end, the simplest one first";
    let command = new_command(alloc, "pest-example", about, STATUSES)?;
    let command = add_argument(
        command,
        number(alloc, "count", "The number of examples", "1"),
    )?;
    let command = add_argument(command, number(alloc, "seed", "The seed of chance", "1"))?;
    let size = "How many choices of an example are left to chance, at most";
    let command = add_argument(command, number(alloc, "size", size, "20"))?;
    let json = "Prints each example as a string of JSON on a line of its own";
    let command = add_argument(command, flag(alloc, "json", json))?;
    let grammar = "A grammar; - is standard input";
    let command = add_argument(
        command,
        positional(alloc, "GRAMMAR", grammar).required(true),
    )?;
    let rule = positional(alloc, "RULE", "The rule that matches the texts").required(true);
    add_argument(command, rule)
}

/// Returns the option `--name` for a number, with the default `default`.
fn number<'a>(alloc: Global, name: &'a str, help: &'a str, default: &'a str) -> Arg<'a> {
    option(alloc, name, help).default_value(default)
}

/// Returns the request of a command line, or `None` if a number cannot be read.
pub fn request_of<'m>(matches: &'m ArgMatches<'_>) -> Option<ExampleRequest<'m>> {
    Some(ExampleRequest {
        rule: matches.get_str("RULE")?,
        count: matches.get_str("count")?.parse().ok()?,
        seed: matches.get_str("seed")?.parse().ok()?,
        size: matches.get_str("size")?.parse().ok()?,
    })
}
