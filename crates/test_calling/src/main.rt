//! Prints the optimized rules of the grammar on standard input, and the builtins that it uses.
#![tactic(auto)]

pub mod callers;
pub mod facts;
pub mod laws;
pub mod mapped;
pub mod tags;
pub mod trees;

use pest_meta::optimizer::release;
use pest_meta::{Report, parse_and_optimize, unwrap_or_report};
use std::io;
use std::process::ExitCode;

fn main(rt: HostRuntime) -> io::Result<ExitCode> {
    tags::print_examples(&rt)?;
    trees::print_examples(&rt)?;
    let alloc = rt.alloc();
    let grammar = io::read_to_string(alloc, rt.stdin())?;
    match unwrap_or_report(alloc, parse_and_optimize(alloc, grammar.as_str())) {
        Ok((builtins, rules)) => {
            for builtin in &builtins {
                println!(rt; "uses {builtin}")?;
            }
            for rule in &rules {
                println!(rt; "{}: {}", rule.name, rule.expr)?;
            }
            // Drops iteratively: a rule of many alternatives is a deep tree, which would overflow the stack.
            release(rules);
            Ok(ExitCode::from(0))
        }
        Err(Report::Text(report)) => {
            eprintln!(rt; "{report}")?;
            Ok(ExitCode::from(1))
        }
        Err(Report::Memory) => {
            eprintln!(rt; "out of memory")?;
            Ok(ExitCode::from(2))
        }
    }
}
