//! Laws over the definitions alone.
ghost use Rattle.std.specs.Prelude.{◌≡◌, ◌<◌, ◌^◌, All, ℕ, List, length};
ghost use Rattle.base_ast.specs.Optimized.{optimized_rules_of};
ghost use Rattle.base_ast.specs.declared.optimized.OptimizedRule.{OptimizedRule};
ghost use Rattle.format_binary.specs.Format.{optimized_rules_bytes};
ghost use Rattle.format_binary.specs.Indices.{HasIndices};

/// Proves that bytes are those of one list of optimized rules at most, wherever their parts lie in memory.
pub fn one_list_of_rules()
    ensures { (bytes : List ℕ) (rules others : List OptimizedRule) → length bytes < 2 ^ 64
        → All (λ r. HasIndices r.expr) rules → All (λ r. HasIndices r.expr) others
        → bytes ≡ optimized_rules_bytes rules → bytes ≡ optimized_rules_bytes others
        → optimized_rules_of rules ≡ optimized_rules_of others }
{}
