//! Laws of code that fits its rules.
ghost use Rattle.std.specs.Prelude.{◌≡◌, ◌≤◌, false, length, true};
ghost use Rattle.matcher_code.specs.Lists.{CodeLists};
ghost use Rattle.matcher_code.specs.StackUses.{is_stackless};
ghost use Rattle.matcher_compiler.specs.Extents.{IsFitting, grammar_size, grammar_stack, most_operations};
ghost use Rattle.matcher_program.specs.Programs.{grammar_of};
ghost use Rattle.matcher_program.specs.declared.form.Program.{Program};

/// Code of a grammar without the stack does not use the stack.
pub fn rules_without_stack_have_stackless_code()
    ensures { (p : Program) (code : CodeLists) → IsFitting p code
        → grammar_stack (grammar_of p.rules.items) ≡ false → is_stackless code ≡ true }
{}

/// The number of operations is linear in the size of the grammar.
pub fn code_is_linear_in_rules()
    ensures { (p : Program) (code : CodeLists) → IsFitting p code
        → length code.ops ≤ most_operations (grammar_size (grammar_of p.rules.items)) }
{}
