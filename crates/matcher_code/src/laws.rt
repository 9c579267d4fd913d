//! Laws over the definitions alone.
ghost use Rattle.std.specs.Prelude.{◌≡◌, ◌<◌, ◌*◌, ◌==◌, ◌&&◌, ◌||◌, ℕ, ℤ, Bool, List, [], IsUtf8, Option, Some, chars, codes, false, get_or, if◌then◌else◌, length, map, nat_eq, not, true};
ghost use Rattle.std.specs.Char.{eq_ignore_ascii_case};
ghost use Rattle.base_language.specs.Language.Expression.{Choice, Expression, Grammar, Ident, NegPred, Rep, Rule, Seq, rule_of};
ghost use Rattle.base_language.specs.Language.Meaning.{Does, Run, Task, body_mode, gives_token, seen_from, with_top};
ghost use Rattle.base_language.specs.Language.State.{AtomicMode, Classes, Failure, Mode, None', Outcome, State, Success, moved};
ghost use Rattle.base_language.specs.Language.Text.{Text};
ghost use Rattle.base_language.specs.Language.Matching.{character_outcome, concatenated, distance, drop_outcome, end_outcome, newline_outcome, peek_outcome, pop_outcome, slice_outcome, text_outcome, with_stack};
ghost use Rattle.matcher_code.specs.Failures.{end_failures, failures_at, in_silence};
ghost use Rattle.matcher_code.specs.declared.state.Places.{Places};
ghost use Rattle.matcher_code.specs.CommentRules.{IsCommentBody, comment_outcome};
ghost use Rattle.matcher_code.specs.Comments.{can_delimit};
ghost use Rattle.matcher_code.specs.Reading.{text_of};
ghost use Rattle.matcher_code.specs.Sets.{IsSetOf};
ghost use Rattle.matcher_code.specs.Steps.{Config, jump, op_at, steps};
ghost use Rattle.matcher_code.specs.Lists.{CodeLists, is_covered};
ghost use Rattle.matcher_code.specs.declared.code.Op.TheVariants as op;
ghost use Rattle.base_language.specs.Language.WellFormed.{InRules};
ghost use Rattle.matcher_code.specs.Begun.{ComesTo, IsEmptyRead};
ghost use Rattle.matcher_code.specs.Endings.{IsFound, IsOver};
ghost use Rattle.matcher_code.specs.Laid.{AreLaid, HasOutcome, IsEnd, IsPoint, IsTight, MatchesText, MayPerform, Performs, Point, Searches, skip_set};
ghost use Rattle.base_language.specs.Language.Expected.{expected_at};
ghost use Rattle.matcher_code.specs.Paths.{last_name, paths_at};
ghost use Rattle.matcher_code.specs.Reached.{Comes, IsAt, IsGuarded, MayAsk};
ghost use Rattle.matcher_code.specs.Results.{HasAttempts, HasFailed, HasSucceeded, start_config, start_of, traced_start};
ghost use Rattle.matcher_code.specs.Sizes.{least_steps, size};

/// If the operation 0 is `Fail` and each point of a list is laid by points of the list, the code of a
/// point does its task: from each state, and for each outcome of the task there, the machine comes to where
/// the outcome goes on, with its trees, the furthest position of its failures and the numbers of the names
/// that are expected where they are asked for, in at most eight steps for each rule of the relation of
/// matching that the derivation applies. Code that is not exact is asked for nothing at any place of the
/// text.
pub fn laid_code_does_its_task()
    ensures { (exact : Bool) (g : Grammar) (classes : Classes) (code : CodeLists) (number : Text → ℕ)
        (points : List Point) → op_at code [] 0 ≡ op.Fail → AreLaid exact g classes code number points
        → (k : Task) (l n w : ℕ) → IsPoint points k l n w
        → (text : List ℕ) (s : State) (c : Config) → IsAt text s c.at c.stack → MayAsk exact text c.asked
        → IsGuarded w c → (o : Outcome) (d : Does g classes k s o)
        → Comes code text number l n w o (failures_at c.asked d) (least_steps k) (8 * size d) c }
{}

/// In such code, a run from a point that comes to an end has an outcome of the point's task.
pub fn runs_that_end_have_outcomes()
    ensures { (exact : Bool) (g : Grammar) (classes : Classes) (code : CodeLists) (number : Text → ℕ)
        (points : List Point) → op_at code [] 0 ≡ op.Fail → AreLaid exact g classes code number points
        → (k : Task) (l n w : ℕ) → IsPoint points k l n w
        → (text : List ℕ) (s : State) (c : Config) → IsAt text s c.at c.stack → MayAsk exact text c.asked
        → IsGuarded w c → (m : ℕ) → IsOver code text m (jump l c) → IsFound g classes k s }
{}

/// In such code, let a point go on at `Halt`, and at `Lose` where its task fails. A run from the start of a
/// text that comes to `Halt` has the end and the trees of the task's success; one that comes to `Lose` has
/// the furthest failure of its failure; both have the numbers of the names that are expected where they
/// are asked for; and one that has not ended has taken fewer than eight steps for each rule of the relation
/// of matching that any derivation applies.
pub fn runs_have_results()
    ensures halts { (exact : Bool) (g : Grammar) (classes : Classes) (code : CodeLists) (number : Text → ℕ)
        (points : List Point) → op_at code [] 0 ≡ op.Fail → AreLaid exact g classes code number points
        → (k : Task) (l n w : ℕ) → IsPoint points k l n w → 0 < w
        → op_at code [] n ≡ op.Halt → op_at code [] w ≡ op.Lose
        → (text : List ℕ) → IsUtf8 text → ((i : ℕ) → get_or text i 0 < 256)
        → (asked : Places) → MayAsk exact text asked
        → (m : ℕ) → op_at code [] (steps code text m (start_config l asked)).pc ≡ op.Halt
        → HasSucceeded g classes number k text (steps code text m (start_config l asked)) }
    ensures loses { (exact : Bool) (g : Grammar) (classes : Classes) (code : CodeLists) (number : Text → ℕ)
        (points : List Point) → op_at code [] 0 ≡ op.Fail → AreLaid exact g classes code number points
        → (k : Task) (l n w : ℕ) → IsPoint points k l n w → 0 < w
        → op_at code [] n ≡ op.Halt → op_at code [] w ≡ op.Lose
        → (text : List ℕ) → IsUtf8 text → ((i : ℕ) → get_or text i 0 < 256)
        → (asked : Places) → MayAsk exact text asked
        → (m : ℕ) → op_at code [] (steps code text m (start_config l asked)).pc ≡ op.Lose
        → HasFailed g classes number k text (steps code text m (start_config l asked)) }
    ensures goes_on { (exact : Bool) (g : Grammar) (classes : Classes) (code : CodeLists) (number : Text → ℕ)
        (points : List Point) → op_at code [] 0 ≡ op.Fail → AreLaid exact g classes code number points
        → (k : Task) (l n w : ℕ) → IsPoint points k l n w → 0 < w
        → op_at code [] n ≡ op.Halt → op_at code [] w ≡ op.Lose
        → (text : List ℕ) → IsUtf8 text → ((i : ℕ) → get_or text i 0 < 256)
        → (asked : Places) → MayAsk exact text asked
        → (m : ℕ) → (IsEnd code (steps code text m (start_config l asked)).pc → ⊥)
        → (o : Outcome) (d : Does g classes k (start_of text) o) → m < 8 * size d }
{}

/// In such code, a run from the start of a text that comes to an end, and whose calls are recorded, has the
/// attempts of an outcome of the task at the place that is asked for: the rules that an error of pest names.
pub fn runs_have_attempts()
    ensures { (exact : Bool) (g : Grammar) (classes : Classes) (code : CodeLists) (number : Text → ℕ)
        (points : List Point) → op_at code [] 0 ≡ op.Fail → AreLaid exact g classes code number points
        → (k : Task) (l n w : ℕ) → IsPoint points k l n w → 0 < w
        → op_at code [] n ≡ op.Halt → op_at code [] w ≡ op.Lose
        → (text : List ℕ) → IsUtf8 text → ((i : ℕ) → get_or text i 0 < 256)
        → (asked : Places) → MayAsk exact text asked
        → (m : ℕ) → IsEnd code (steps code text m (traced_start l asked)).pc
        → HasAttempts g classes number k text (steps code text m (traced_start l asked)) }
{}

/// A call of a rule comes to `PEEK` or `POP` on the empty stack only if a rule calls that.
pub fn only_rules_read_stack()
    ensures { (g : Grammar) (classes : Classes) (m k : Mode) (n x : Text) (r : Rule) → rule_of g n ≡ Some r
        → (s t : State) (i : ℕ) → ComesTo g classes (Run m (Ident n)) s i (Run k (Ident x)) t
        → IsEmptyRead g x t → InRules g (Ident x) }
{}

/// The last names of the paths of a failure are the names that are expected, in the same order.
pub fn paths_end_in_expected_names()
    ensures { (g : Grammar) (classes : Classes) (k : Task) (s : State) (o : Outcome) (place : ℕ)
        → (d : Does g classes k s o) → map last_name (paths_at place d) ≡ expected_at place d }
{}

/// If the operation 0 is `Fail`, the operation `Text` of a text matches it as the expression of a literal
/// does.
pub fn text_operation_matches_literal()
    ensures { (code : CodeLists) (number : Text → ℕ) → op_at code [] 0 ≡ op.Fail
        → (l n w i : ℕ) (b : List ℕ) → IsUtf8 b → text_of code i ≡ b → op_at code [] l ≡ op.Text i n w
        → Performs code number l n w (text_outcome nat_eq (chars b)) in_silence }
{}

/// If the operation 0 is `Fail`, the operation `AnyCase` of a text matches it as a literal in any case
/// does.
pub fn any_case_operation_matches_literal()
    ensures { (code : CodeLists) (number : Text → ℕ) → op_at code [] 0 ≡ op.Fail
        → (l n w i : ℕ) (b : List ℕ) → IsUtf8 b → text_of code i ≡ b → op_at code [] l ≡ op.AnyCase i n w
        → Performs code number l n w (text_outcome eq_ignore_ascii_case (chars b)) in_silence }
{}

/// If the operation 0 is `Fail`, three operations `Text` match a newline: of a line feed, of a carriage
/// return before one, and of a carriage return.
pub fn text_operations_match_newline()
    ensures { (code : CodeLists) (number : Text → ℕ) → op_at code [] 0 ≡ op.Fail → (l j k n w : ℕ)
        → MatchesText code l (codes "\n") n j → MatchesText code j (codes "\r\n") n k
        → MatchesText code k (codes "\r") n w → Performs code number l n w newline_outcome in_silence }
{}

/// If the operation 0 is `Fail`, the operation `Until` of some texts goes on to the first of them.
pub fn until_operation_finds_text()
    ensures { (code : CodeLists) (firsts list : ℕ) (ts : List Text) → Searches code firsts list ts
        → (number : Text → ℕ) → op_at code [] 0 ≡ op.Fail → (l n w : ℕ)
        → op_at code [] l ≡ op.Until firsts list n
        → Performs code number l n w (λ s. Success (moved (distance ts s.rest) s) None') in_silence }
{}

/// If the operation 0 is `Fail`, the operation `Nested` of two texts, not empty and of fewer than 256
/// bytes, takes a comment.
pub fn nested_operation_takes_comment()
    ensures { (code : CodeLists) (number : Text → ℕ) → op_at code [] 0 ≡ op.Fail
        → (l n w i j : ℕ) (opening closing : List ℕ) → IsUtf8 opening → IsUtf8 closing
        → can_delimit opening ≡ true → can_delimit closing ≡ true
        → text_of code i ≡ opening → text_of code j ≡ closing → op_at code [] l ≡ op.Nested i j n w
        → Performs code number l n w (comment_outcome (chars opening) (chars closing)) in_silence }
{}

/// If nothing is skipped, the body of a rule `opening ~ (name | !closing ~ any)* ~ closing`, whose calls
/// give no token, takes a comment, with the comments within it; so the operation `Nested` does its task.
pub fn comment_rule_takes_comment()
    ensures { (g : Grammar) (classes : Classes) (m : Mode) (name : Text) (r : Rule)
        → IsTight g classes m → rule_of g name ≡ Some r → body_mode r m ≡ m → gives_token r.type_of m ≡ false
        → (opening closing : Text) (any : Expression) → 0 < length opening → 0 < length closing
        → HasOutcome g classes (Run m any) (character_outcome (λ c. true)) in_silence
        → IsCommentBody name opening closing any r.body
        → HasOutcome g classes (Run m r.body) (comment_outcome opening closing) in_silence }
{}

/// If the operation 0 is `Fail`, the operation `One` of a set matches one character of it.
pub fn one_operation_matches_character()
    ensures { (code : CodeLists) (set : ℕ) (ranges : List (ℕ × ℕ)) → IsSetOf code set ranges
        → (number : Text → ℕ) → op_at code [] 0 ≡ op.Fail → (l n w : ℕ) → op_at code [] l ≡ op.One set n w
        → Performs code number l n w (character_outcome (is_covered ranges)) in_silence }
{}

/// If the operation 0 is `Fail`, the operation `All` of a set matches the characters of it that follow.
pub fn all_operation_matches_span()
    ensures { (code : CodeLists) (set : ℕ) (ranges : List (ℕ × ℕ)) → IsSetOf code set ranges
        → (number : Text → ℕ) → op_at code [] 0 ≡ op.Fail → (l n w : ℕ) → op_at code [] l ≡ op.All set n
        → Performs code number l n w (skip_set (is_covered ranges)) in_silence }
{}

/// If the operation 0 is `Fail`, the operation `Start` matches at the start of a text alone.
pub fn start_operation_matches_start()
    ensures { (code : CodeLists) (number : Text → ℕ) → op_at code [] 0 ≡ op.Fail
        → (l n w : ℕ) → op_at code [] l ≡ op.Start n w
        → Performs code number l n w (λ s. if s.position == 0 then Success s None' else Failure) in_silence }
{}

/// If the operation 0 is `Fail`, the operation `End` matches at the end of a text alone, as `EOI` does in
/// Atomic.
pub fn end_operation_matches_end()
    ensures { (code : CodeLists) (number : Text → ℕ) → op_at code [] 0 ≡ op.Fail
        → (l n w : ℕ) → op_at code [] l ≡ op.End n w
        → Performs code number l n w (λ s. end_outcome AtomicMode s.rest s) in_silence }
{}

/// If the operation 0 is `Fail`, the operations `End`, `Leaf` and `Miss` match the end of a text as
/// `EOI` does in a mode that gives its tree.
pub fn end_operations_give_tree()
    ensures { (code : CodeLists) (number : Text → ℕ) → op_at code [] 0 ≡ op.Fail
        → (m : Mode) (l n w leaf note : ℕ) → seen_from m ≡ true → op_at code [] l ≡ op.End leaf note
        → op_at code [] leaf ≡ op.Leaf (number (codes "EOI")) n
        → op_at code [] note ≡ op.Miss (number (codes "EOI")) w
        → Performs code number l n w (λ s. end_outcome m s.rest s)
        (λ asked s. end_failures asked s (end_outcome m s.rest s)) }
{}

/// If the operation 0 is `Fail`, the operations on the stack match what the expressions do. `Peek` and
/// `Pop` stay where they are on the empty stack, where `PEEK` and `POP` have no outcome.
pub fn stack_operations_match_stack()
    ensures push_text { (code : CodeLists) (number : Text → ℕ) → op_at code [] 0 ≡ op.Fail
        → (l n w i : ℕ) (b : List ℕ) → IsUtf8 b → text_of code i ≡ b → op_at code [] l ≡ op.PushText i n
        → Performs code number l n w (λ s. Success (with_top (chars b) s) None') in_silence }
    ensures peek { (code : CodeLists) (number : Text → ℕ) → op_at code [] 0 ≡ op.Fail
        → (l n w : ℕ) → op_at code [] l ≡ op.Peek n w
        → MayPerform code number l n w (λ s. peek_outcome s.stack s) }
    ensures pop { (code : CodeLists) (number : Text → ℕ) → op_at code [] 0 ≡ op.Fail
        → (l n w : ℕ) → op_at code [] l ≡ op.Pop n w
        → MayPerform code number l n w (λ s. pop_outcome s.stack s) }
    ensures discard { (code : CodeLists) (number : Text → ℕ) → op_at code [] 0 ≡ op.Fail
        → (l n w : ℕ) → op_at code [] l ≡ op.Discard n w
        → Performs code number l n w (λ s. drop_outcome s.stack s) in_silence }
    ensures peek_all { (code : CodeLists) (number : Text → ℕ) → op_at code [] 0 ≡ op.Fail
        → (l n w : ℕ) → op_at code [] l ≡ op.PeekAll n w
        → Performs code number l n w (λ s. text_outcome nat_eq (concatenated s.stack) s) in_silence }
    ensures pop_all { (code : CodeLists) (number : Text → ℕ) → op_at code [] 0 ≡ op.Fail
        → (l n w : ℕ) → op_at code [] l ≡ op.PopAll n w
        → Performs code number l n w
        (λ s. with_stack [] (text_outcome nat_eq (concatenated s.stack) s)) in_silence }
    ensures slice { (code : CodeLists) (number : Text → ℕ) → op_at code [] 0 ≡ op.Fail
        → (l n w : ℕ) (i : ℤ) (j : Option ℤ) → op_at code [] l ≡ op.Slice i j n w
        → Performs code number l n w (slice_outcome i j) in_silence }
{}

/// A choice of two expressions that match one character of a set matches one of both sets.
pub fn choice_matches_union()
    ensures { (g : Grammar) (classes : Classes) (m : Mode) (a b : Expression) (f h : ℕ → Bool)
        → HasOutcome g classes (Run m a) (character_outcome f) in_silence
        → HasOutcome g classes (Run m b) (character_outcome h) in_silence
        → HasOutcome g classes (Run m (Choice a b)) (character_outcome (λ c. f c || h c)) in_silence }
{}

/// If nothing is skipped, `!a ~ b` of two such expressions matches one character of the second set that is
/// not of the first.
pub fn negation_matches_difference()
    ensures { (g : Grammar) (classes : Classes) (m : Mode) (a b : Expression) (f h : ℕ → Bool)
        → IsTight g classes m → HasOutcome g classes (Run m a) (character_outcome f) in_silence
        → HasOutcome g classes (Run m b) (character_outcome h) in_silence
        → HasOutcome g classes (Run m (Seq (NegPred a) b))
        (character_outcome (λ c. not (f c) && h c)) in_silence }
{}

/// If nothing is skipped, a repetition of such an expression matches the characters of the set that
/// follow.
pub fn repetition_matches_span()
    ensures { (g : Grammar) (classes : Classes) (m : Mode) (e : Expression) (f : ℕ → Bool)
        → IsTight g classes m → HasOutcome g classes (Run m e) (character_outcome f) in_silence
        → HasOutcome g classes (Run m (Rep e)) (skip_set f) in_silence }
{}

/// A call without a token of a rule whose body is such an expression matches one character of the set.
pub fn silent_call_matches_character()
    ensures { (g : Grammar) (classes : Classes) (m : Mode) (x : Text) (r : Rule) (f : ℕ → Bool)
        → rule_of g x ≡ Some r → gives_token r.type_of m ≡ false
        → HasOutcome g classes (Run (body_mode r m) r.body) (character_outcome f) in_silence
        → HasOutcome g classes (Run m (Ident x)) (character_outcome f) in_silence }
{}
