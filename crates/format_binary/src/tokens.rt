//! Tokens of the meta-grammar as numbers.
ghost use Rattle.std.specs.Prelude.{◌≡◌, ◌∷◌, [], ◌++◌, IfOk, OnOk};
ghost use Rattle.format_binary.specs.Tokens.{event_numbers, number_of, token_numbers};

use base_language::grammar::Rule;
use front_syntax::grammar::TokenEvent;
use std::alloc::{AllocError, Global};

/// Returns tokens as numbers, three for each event. The only error is an allocation failure.
pub fn tokens_numbers(alloc: Global, events: &[TokenEvent]) -> Result<Vec<usize>, AllocError>
    ensures { IfOk result (λ numbers. numbers.items ≡ token_numbers events.now) }
{
    let mut numbers = Vec::new(alloc);
    for event in events {
        push_event(&mut numbers, *event)?;
    }
    Ok(numbers)
}

/// Appends the three numbers of an event.
fn push_event(numbers: &mut Vec<usize>, event: TokenEvent) -> Result<(), AllocError>
    ensures { OnOk result (numbers.new.items ≡ numbers.old.items ++ event_numbers event) }
{
    match event {
        TokenEvent::Start { rule, pos, partner } => {
            push_three(numbers, number_of(rule), pos, partner)
        }
        TokenEvent::End { pos, partner } => push_three(numbers, 0, pos, partner),
    }
}

/// Appends three numbers.
fn push_three(
    numbers: &mut Vec<usize>,
    number: usize,
    pos: usize,
    partner: usize,
) -> Result<(), AllocError>
    ensures { OnOk result (numbers.new.items ≡ numbers.old.items ++ (number ∷ pos ∷ partner ∷ [])) }
{
    numbers.push(number)?;
    numbers.push(pos)?;
    numbers.push(partner)?;
    Ok(())
}

/// Returns one more than the index of a rule in the meta-grammar. `EOI` has the number after all rules.
fn number_of(rule: Rule) -> usize
    ensures { result ≡ number_of rule }
{
    match rule {
        Rule::EOI => 66,
        other => other as usize,
    }
}
