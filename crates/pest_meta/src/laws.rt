//! Laws about the definitions alone, and about printing and reading.
ghost use Rattle.std.specs.Prelude.{◌≡◌, codes, false, true};
ghost use Rattle.base_language.specs.Language.CharacterBounds.{HasCharacterBounds};
ghost use Rattle.base_language.specs.Language.Expression.{Grammar};
ghost use Rattle.base_language.specs.Language.KnownNames.{HasKnownNames};
ghost use Rattle.base_language.specs.Rewritings.Listing.{EachListed};
ghost use Rattle.base_language.specs.Rewritings.Rewriting.{Chain, IsDone, Joins, Rotates, SkipsUntil};
ghost use Rattle.base_language.specs.Rewritings.Wrapping.{EachRestored, RestoresTo};
ghost use Rattle.front_optimizer.specs.Passes.{IsFactoring, IsUnrolling};
ghost use Rattle.front_restorer.specs.Agreeing.{WrappersSuffice};
ghost use Rattle.pest_meta.specs.Laws.{FlawedGiveNothing, HasOneListOfBuiltins, HasOneListOfRules, HasOneListOfTrees};
ghost use Rattle.pest_meta.specs.Laws.{HasOneOptimization, HasOneRefusal, HasOneResult, HasTreesOrFails, IsNotBoth};
ghost use Rattle.pest_meta.specs.Laws.{AcceptedHaveAnswers, HaveOptimizations, NamesComeFirst, OfAnswers};
ghost use Rattle.pest_meta.specs.Laws.{SpellsOneGrammar};
ghost use Rattle.pest_meta.specs.PrintedRows.{PrintedRows};
ghost use Rattle.pest_meta.specs.ReadsBack.{GrammarsReadBack, GrammarTextsExist, NamesAreIdentifiers};
ghost use Rattle.pest_meta.specs.ReadsBack.{PredicateBeforeQuestionMark, ReadsAsOne};
ghost use Rattle.pest_meta.specs.ReadsBack.{ReadsBack, TagsAreTagIds, TextsExist, is_name, is_tag};

/// Proves that a text spells at most one list of rules.
pub fn spells_one_grammar()
    ensures { SpellsOneGrammar }
{}

/// Proves that a text has at most one list of trees. If a text has trees, there is no syntax error
/// for it. If the trees have a flaw, they are read as no rules. So if there is an answer for a
/// text, there is no reason to refuse the text.
pub fn one_kind_of_answer()
    ensures trees { HasOneListOfTrees }
    ensures syntax { HasTreesOrFails }
    ensures flaws { FlawedGiveNothing }
    ensures exclusive { IsNotBoth }
{}

/// Proves that a text is refused with at most one list of errors. Two such lists have the same
/// length, and their errors have the same messages and spans. If names are wrong, the list has only
/// errors of names, and no flaw or finding.
pub fn one_refusal()
    ensures names { NamesComeFirst }
    ensures errors { HasOneRefusal }
{}

/// Proves that the condition on a pass determines its result for a body. The same is true for the
/// condition on the wrappers, and for the condition on all passes together.
pub fn one_result()
    ensures rotate { HasOneResult (λ y. IsDone Rotates) }
    ensures skip { (g : Grammar) → HasOneResult (λ y. IsDone (SkipsUntil g y)) }
    ensures unroll { HasOneResult (λ y. IsUnrolling) }
    ensures concatenate { HasOneResult (λ y. IsDone (Joins y)) }
    ensures factor { HasOneResult IsFactoring }
    ensures restore { (g : Grammar) → HasOneResult (λ y. RestoresTo g) }
    ensures optimize { HasOneOptimization }
{}

/// Proves that a text has an answer if its rules are accepted and its names are in order: such rules can
/// always be optimized.
pub fn accepted_rules_have_an_answer()
    ensures optimized { HaveOptimizations }
    ensures answered { AcceptedHaveAnswers }
{}

/// Proves that a text has at most one answer: two answers have the same names of builtins and the
/// same rules.
pub fn one_answer()
    ensures builtins { HasOneListOfBuiltins }
    ensures rules { HasOneListOfRules }
{}

/// Proves that the optimizer keeps one premise: no call leads from `WHITESPACE` or `COMMENT` to
/// `POP` or `POP_ALL`. If a grammar meets it, the grammar after a rewriting step, after the pass
/// `list` or after the addition of wrappers meets it, too.
pub fn wrappers_still_suffice()
    ensures steps { (g h : Grammar) → Chain g h → WrappersSuffice g → WrappersSuffice h }
    ensures listing { (g h : Grammar) → EachListed g h → WrappersSuffice g → WrappersSuffice h }
    ensures wrappers { (g h : Grammar) → EachRestored g h → WrappersSuffice g → WrappersSuffice h }
{}

/// Proves that the rules of an answer call only rules and builtins, and that both bounds of each
/// range in them are one character. This is also true for the rules that `optimize_with_spans`
/// returns.
pub fn answers_can_be_run()
    ensures known_names { OfAnswers HasKnownNames }
    ensures character_bounds { OfAnswers HasCharacterBounds }
{}

/// An expression that is printed as a rule's body is read as the same expression, once sequences and
/// choices are nested to the right in both.
///
/// The text of a grammar can say the expression. This means: names are identifiers. Tags are texts
/// that the rule `tag_id` matches after `#`. Strings are texts, also those of `PUSH_LITERAL`. The
/// bounds of ranges are single characters. Numbers fit their types, and no greatest count is 0.
/// There is no forward search and no wrapper.
pub fn reads_back()
    ensures { ReadsBack }
{}

/// Take a grammar whose names and bodies the text of a grammar can say. The grammar is printed with
/// one line for each rule and with the signs of the rule types. The printed text is read as the
/// same rules, after sequences and choices are nested to the right in both. The names need not be
/// distinct.
pub fn grammars_read_back()
    ensures { GrammarsReadBack }
{}

/// The texts of `reads_back` and `grammars_read_back` exist: all characters of printed expressions
/// are Unicode scalar values.
pub fn texts_exist()
    ensures rule { TextsExist }
    ensures grammar { GrammarTextsExist }
{}

/// The names in `reads_back` are the texts that the rule `identifier` of the meta-grammar matches
/// as a whole.
pub fn names_are_identifiers()
    ensures { NamesAreIdentifiers }
{}

/// The tags in `reads_back` are the texts that the rule `tag_id` of the meta-grammar matches as a
/// whole after `#`. Unlike a name, a tag may begin with `PUSH`.
pub fn tags_are_tag_ids()
    ensures takes { TagsAreTagIds }
    ensures may_begin_with_push { (is_tag (codes "PUSHED") ≡ true) × (is_name (codes "PUSHED") ≡ false) }
{}

/// A text is read as at most one grammar, up to the nesting of sequences and choices.
pub fn reads_as_one()
    ensures { ReadsAsOne }
{}

/// If a predicate before `?` were printed without parentheses, it would not read back: `!e?` is
/// read as the predicate of an option.
pub fn predicate_before_question_mark()
    ensures { PredicateBeforeQuestionMark }
{}

/// Some expressions are printed as the rows of `PrintedRows` show.
pub fn printed_rows()
    ensures { PrintedRows }
{}
