//! Laws over the definitions alone.
ghost use Rattle.base_language.specs.Language.Expression.{Grammar};
ghost use Rattle.base_language.specs.Language.LooseMeaning.{Restored};
ghost use Rattle.base_language.specs.Rewritings.Wrapping.{EachRestored};
ghost use Rattle.front_restorer.specs.Agreeing.{AgreesLoosely, WrappersSuffice};

/// Restored rules have wrappers where a failure could lose an entry of the stack, if `WHITESPACE` and
/// `COMMENT` reach no `POP` and no `POP_ALL`; so it does not matter what a failed `POP` or `POP_ALL`
/// leaves.
pub fn restored_rules_agree()
    ensures safe { (g h : Grammar) → EachRestored g h → WrappersSuffice h → Restored h }
    ensures agree { (g h : Grammar) → EachRestored g h → WrappersSuffice h → AgreesLoosely h }
{}
