//! Laws over the definitions alone.
ghost use Rattle.std.specs.Prelude.{◌≡◌, ◌≢◌, ℕ, List};
ghost use Rattle.base_ast.specs.Ast.{rules_of};
ghost use Rattle.base_ast.specs.Optimized.{optimized_rules_of};
ghost use Rattle.base_ast.specs.declared.ast.Rule as bare;
ghost use Rattle.base_ast.specs.declared.optimized.OptimizedRule.{OptimizedRule};
ghost use Rattle.format_json.specs.Reading.{AreOptimizedRules, AreRules, FitTheirTypes};
ghost use Rattle.format_json.specs.Refusals.{IsRefusedAsOptimized, IsRefusedAsRules};
ghost use Rattle.format_json.specs.declared.refusal.Refusal.{Refusal};
ghost use Rattle.format_json.specs.declared.refusal.Refusal.TheVariants.{Memory};

/// Proves that a text is read as one list of rules at most, wherever their parts lie in memory. So rules
/// that are written and read back are the same.
pub fn one_list_of_rules()
    ensures rules { (text : List ℕ) (rules others : List bare.Rule) → AreRules text rules
        → AreRules text others → rules_of rules ≡ rules_of others }
    ensures optimized { (text : List ℕ) (rules others : List OptimizedRule) → AreOptimizedRules text rules
        → AreOptimizedRules text others → optimized_rules_of rules ≡ optimized_rules_of others }
{}

/// Proves that a text that is refused, but for want of memory, has no rules whose numbers fit their types.
pub fn refused_has_no_rules()
    ensures rules { (text : List ℕ) (refusal : Refusal) (rules : List bare.Rule) → refusal ≢ Memory
        → IsRefusedAsRules text refusal → FitTheirTypes (rules_of rules) → AreRules text rules → ⊥ }
    ensures optimized { (text : List ℕ) (refusal : Refusal) (rules : List OptimizedRule)
        → refusal ≢ Memory → IsRefusedAsOptimized text refusal
        → FitTheirTypes (optimized_rules_of rules) → AreOptimizedRules text rules → ⊥ }
{}
