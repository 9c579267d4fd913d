//! The tools: libraries with a command line.
ghost use Rattle.std.specs.Prelude.{◌≡◌, ◌≢◌, ◌≤◌, IfOk, IfSome};
ghost use Rattle.std.specs.Process.{exit_status};
ghost use Rattle.pest.specs.Tools.{command_name, program_name};

use clap::{ArgMatches, Command};
use std::alloc::{AllocError, Global};
use std::process::ExitCode;

/// A tool. It is a command of this program. By a link of its own name, it is a program.
#[derive(Clone, Copy, Debug, PartialEq, Eq)]
pub enum Tool {
    Check,
    Lint,
    Fmt,
    Run,
    Doc,
    Lsp,
    Test,
    Example,
}

impl Tool {
    /// Returns the tool of the command named `name`, as `lint`.
    pub fn by_command(name: &str) -> Option<Tool>
        ensures { IfSome result (λ tool. command_name tool ≡ name.now) }
    {
        match name {
            "check" => Some(Tool::Check),
            "lint" => Some(Tool::Lint),
            "fmt" => Some(Tool::Fmt),
            "run" => Some(Tool::Run),
            "doc" => Some(Tool::Doc),
            "lsp" => Some(Tool::Lsp),
            "test" => Some(Tool::Test),
            "example" => Some(Tool::Example),
            _ => None,
        }
    }

    /// Returns the tool of the program named `name`, as `pest-lint`.
    pub fn by_program(name: &str) -> Option<Tool>
        ensures { IfSome result (λ tool. program_name tool ≡ name.now) }
    {
        match name {
            "pest-check" => Some(Tool::Check),
            "pest-lint" => Some(Tool::Lint),
            "pest-fmt" => Some(Tool::Fmt),
            "pest-run" => Some(Tool::Run),
            "pest-doc" => Some(Tool::Doc),
            "pest-language-server" => Some(Tool::Lsp),
            "pest-test" => Some(Tool::Test),
            "pest-example" => Some(Tool::Example),
            _ => None,
        }
    }

    /// Returns the name of the tool's command.
    pub fn name(self) -> &'static str
        ensures { result.now ≡ command_name self }
    {
        match self {
            Tool::Check => "check",
            Tool::Lint => "lint",
            Tool::Fmt => "fmt",
            Tool::Run => "run",
            Tool::Doc => "doc",
            Tool::Lsp => "lsp",
            Tool::Test => "test",
            Tool::Example => "example",
        }
    }

    /// Returns the command line that the tool accepts, under the name of its own program.
    pub fn command<'a>(self, alloc: Global) -> Result<Command<'a>, AllocError> {
        match self {
            Tool::Check => pest_check::command(alloc),
            Tool::Lint => pest_lint::command(alloc),
            Tool::Fmt => pest_fmt::command(alloc),
            Tool::Run => pest_run::command(alloc),
            Tool::Doc => pest_doc::command(alloc),
            Tool::Lsp => pest_language_server::command(alloc),
            Tool::Test => pest_test::command(alloc),
            Tool::Example => pest_example::command(alloc),
        }
    }

    /// Answers a command line of the tool, and returns the status. The only error is an allocation failure.
    pub fn answer(self, rt: &HostRuntime, matches: &ArgMatches<'_>) -> Result<ExitCode, AllocError>
        ensures known { self ≢ Tool.Lsp → IfOk result (λ exit. exit_status exit ≤ 6) }
    {
        match self {
            Tool::Check => Ok(pest_check::answer(rt, matches)),
            Tool::Lint => pest_lint::answer(rt, matches),
            Tool::Fmt => pest_fmt::answer(rt, matches),
            Tool::Run => pest_run::answer(rt, matches),
            Tool::Doc => pest_doc::answer(rt, matches),
            Tool::Lsp => Ok(pest_language_server::serve(rt)),
            Tool::Test => pest_test::answer(rt, matches),
            Tool::Example => pest_example::answer(rt, matches),
        }
    }
}
