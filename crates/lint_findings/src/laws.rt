//! Laws over the definitions alone.
ghost use Rattle.lint_findings.specs.OneCode.{HasOneCode};

/// Proves that a message of an error has one code, whatever it was made of. So the definitions of the front
/// end, which give the messages and the pieces of a text's errors, give their codes too.
pub fn one_code()
    ensures { HasOneCode }
{}
