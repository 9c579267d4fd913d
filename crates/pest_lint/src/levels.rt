//! Codes that `--allow` and `--deny` name.
use clap::ArgMatches;
use lint_diagnostics::{Code, Severity};
use lint_output::to_visible;
use std::alloc::{AllocError, Global};

/// The codes that an option names, or what is wrong with the first name that cannot be taken.
pub(crate) enum Named<'a> {
    Codes(Vec<Code>),
    /// No code has this name.
    Unknown(&'a str),
    /// The code of this name is one of errors, which cannot be allowed.
    OfErrors(&'a str),
}

/// Returns the codes that the option named `option` names.
///
/// # Errors
/// `AllocError` if an allocation fails.
pub(crate) fn codes_named<'a>(
    alloc: Global,
    matches: &'a ArgMatches<'_>,
    option: &str,
    takes_errors: bool,
) -> Result<Named<'a>, AllocError> {
    let names = matches.get_strs(option).unwrap_or(&[]);
    let mut codes = Vec::new(alloc);
    for name in names {
        let Some(code) = Code::from_name(*name) else {
            return Ok(Named::Unknown(*name));
        };
        if !takes_errors && matches!(code.severity(), Severity::Error) {
            return Ok(Named::OfErrors(*name));
        }
        codes.push(code)?;
    }
    Ok(Named::Codes(codes))
}

/// Reports on standard error what is wrong with a name, and returns no codes; or returns the codes.
///
/// # Errors
/// `AllocError` if an allocation fails.
pub(crate) fn codes_or_report(
    rt: &HostRuntime,
    named: Named<'_>,
) -> Result<Option<Vec<Code>>, AllocError> {
    match named {
        Named::Codes(codes) => Ok(Some(codes)),
        Named::Unknown(name) => {
            let name = to_visible(rt.alloc(), name)?;
            let _ = eprintln!(rt; "there is no code `{name}`; pest-lint --list shows all");
            Ok(None)
        }
        Named::OfErrors(name) => {
            let name = to_visible(rt.alloc(), name)?;
            let _ = eprintln!(rt; "`{name}` is an error, and errors cannot be allowed");
            Ok(None)
        }
    }
}
