//! The command line of the program by its own name.

use crate::tools::Tool;
use clap::Command;
use program_support::arguments::new_command;
use std::alloc::{AllocError, Global};

/// The tools, as `--help` lists them.
const TOOLS: [Tool; 8] = [
    Tool::Lint,
    Tool::Run,
    Tool::Test,
    Tool::Example,
    Tool::Fmt,
    Tool::Doc,
    Tool::Lsp,
    Tool::Check,
];

/// Examples, as `--help` shows them.
const EXAMPLES: &str = "examples:
  pest lint json.pest                 report what is wrong with a grammar
  pest run json.pest value data.json  match a file by the rule `value`, and print the trees
  pest test                           test grammars by the cases in the folder `tests`
`pest help COMMAND` shows the options of a command, and its exit statuses";

/// Returns the command line that the program accepts.
pub fn command<'a>(alloc: Global) -> Result<Command<'a>, AllocError> {
    let command = new_command(alloc, "pest", "Tools for pest grammars", EXAMPLES)?;
    let mut command = command
        .subcommand_required(true)
        .arg_required_else_help(true);
    for tool in TOOLS {
        command = command.subcommand(tool.command(alloc)?.name(tool.name()))?;
    }
    Ok(command)
}
