//! Laws of what stands before a text, each a function that does nothing and ensures the law.

ghost use Rattle.std.specs.Prelude.{◌≡◌, ◌≢◌, ◌↔◌, ◌≤◌, ℕ, true, List, [], ◌∷◌, ◌++◌, codes, count_by};
ghost use Rattle.std.specs.Prelude.{length, map};
ghost use Rattle.std.specs.Prelude.{Option, None};
ghost use Rattle.std.specs.List.{All};
ghost use Rattle.x_text.specs.Limits.{most_text};
ghost use Rattle.x_text.specs.Text.{is_line_feed};
ghost use Rattle.x_lex.specs.declared.kind.Kind.{Kind};
ghost use Rattle.x_trees.specs.Tree.{Definition};
ghost use Rattle.x_rules.specs.Results.{AreResults, Outcome, no_names};
ghost use Rattle.x_rules.specs.declared.fault.RuleCode.TheVariants.{Unknown};
ghost use Rattle.x_compile.specs.Compile.{Item, IsCompilation, definitions_of, faults_of};
ghost use Rattle.x_compile.specs.Known.{KnownText, known_definitions, known_names, nothing_known};
ghost use Rattle.x_compile.specs.declared.fault.FaultCode.TheVariants.{Rule};
ghost use Rattle.x_session.specs.Session.{Compiles};
ghost use Rattle.x_session.specs.Typed.{all_definitions};
ghost use Rattle.x_prelude.specs.Before.{Defines, IsBefore, IsKnownOf, IsPrelude, StandsBefore};
ghost use Rattle.x_prelude.specs.CTypes.{c_type};
ghost use Rattle.x_prelude.specs.Lacking.{lacking, name_of};
ghost use Rattle.x_prelude.specs.declared.definition.FromC.{FromC};
ghost use Rattle.x_prelude_laws.specs.AsOne.{but_last, told, told_behind};
ghost use Rattle.x_prelude_laws.specs.Over.{DeclareNoneLacking, IsFaultless};
ghost use Rattle.x_prelude_laws.specs.Plain.{ArePlain};
ghost use Rattle.x_prelude_laws.specs.Wholes.{EndsWhole};

/// Where any name may be taken from C, and the known files end whole, a text lacks no name over what stands
/// before it (`names`), and none of its faults is that of an undeclared name (`faults`).
pub fn nothing_is_lacking()
    ensures names { (files : List ℕ) (from : FromC) (text : List ℕ) (known : KnownText)
        (tokens : List (Kind × ℕ)) (items : List Item) → from.foreign ≡ true → EndsWhole files
        → length text ≤ most_text → IsBefore files from text known → IsCompilation known text tokens items
        → lacking (known_names known) (definitions_of items) ≡ [] }
    ensures faults { (files : List ℕ) (from : FromC) (text : List ℕ) (known : KnownText)
        (tokens : List (Kind × ℕ)) (items : List Item) → from.foreign ≡ true → EndsWhole files
        → length text ≤ most_text → IsBefore files from text known → IsCompilation known text tokens items
        → All (λ f. f.code ≢ Rule Unknown) (faults_of text items) }
{}

/// Where C's own types may be taken, and the known files end whole, no name that a text lacks over what
/// stands before it is that of such a type.
pub fn no_type_is_lacking()
    ensures { (files : List ℕ) (from : FromC) (text : List ℕ) (known : KnownText)
        (tokens : List (Kind × ℕ)) (items : List Item) → from.types ≡ true → EndsWhole files
        → length text ≤ most_text → IsBefore files from text known → IsCompilation known text tokens items
        → All (λ o. c_type (name_of o) ≡ None) (lacking (known_names known) (definitions_of items)) }
{}

/// What stands before a text ends whole where the known files do (`behind`), and so it does without files,
/// since the empty text ends whole (`none`).
pub fn prelude_ends_whole()
    ensures none { EndsWhole [] }
    ensures behind { (files : List ℕ) (from : FromC) (text before : List ℕ) → EndsWhole files
        → length text ≤ most_text → StandsBefore files from text before → EndsWhole before }
{}

/// Two texts that end whole do so one behind the other (`both`), and a text without a fault does so with a
/// line end behind it (`faultless`). So known files end whole that have no fault: behind those before it
/// stands what a file lacks, its text, and a line end (`next`).
pub fn files_end_whole()
    ensures both { (first second : List ℕ) → EndsWhole first → EndsWhole second
        → EndsWhole (first ++ second) }
    ensures faultless { (known : KnownText) (text : List ℕ)
        → Compiles known text (λ items. faults_of text items ≡ []) → EndsWhole (text ++ codes "\n") }
    ensures next { (files : List ℕ) (from : FromC) (known : KnownText) (text prelude : List ℕ)
        → EndsWhole files → length text ≤ most_text → IsPrelude files from text prelude
        → Compiles known text (λ items. faults_of text items ≡ [])
        → EndsWhole (files ++ prelude ++ text ++ codes "\n") }
{}

/// What stands before a text where no known files do has no fault of its own, if none of the names that the
/// text lacks ends with `__`.
pub fn prelude_is_faultless()
    ensures { (from : FromC) (text before : List ℕ) (tokens : List (Kind × ℕ)) (items : List Item)
        → length text ≤ most_text
        → (from.foreign ≡ true
        → Defines text (λ definitions. ArePlain (lacking (known_names nothing_known) definitions)))
        → StandsBefore [] from text before → IsCompilation nothing_known before tokens items
        → faults_of before items ≡ [] }
{}

/// A text over a known one without a fault has its results as if both were one list: the items of the known
/// one, and behind them its own, have the results that the rules give them all (`both`). So the known items
/// have the results that they have alone, whatever stands behind them (`known`).
pub fn results_of_both()
    ensures both { (before text : List ℕ) (known : KnownText) (tokens : List (Kind × ℕ)) (items : List Item)
        → IsKnownOf before known → IsFaultless before → IsCompilation known text tokens items
        → AreResults no_names (all_definitions known items) (known.outcomes ++ map (λ i. i.result) items) }
    ensures known { (before : List ℕ) (known : KnownText) (behind : List (Option Definition))
        (results : List (Option Outcome)) → IsKnownOf before known → IsFaultless before
        → AreResults no_names (known_definitions known ++ behind) results
        → (others : List (Option Outcome)) × (results ≡ known.outcomes ++ others) }
{}

/// A known text may also have faults: the same holds exactly where the definitions behind it declare no name
/// that it lacks.
pub fn results_of_both_exactly()
    ensures both { (before text : List ℕ) (known : KnownText) (tokens : List (Kind × ℕ)) (items : List Item)
        → IsKnownOf before known → IsCompilation known text tokens items
        → AreResults no_names (all_definitions known items) (known.outcomes ++ map (λ i. i.result) items)
        ↔ DeclareNoneLacking (known_definitions known) (definitions_of items) }
    ensures known { (before : List ℕ) (known : KnownText) (behind : List (Option Definition))
        (results : List (Option Outcome)) → IsKnownOf before known
        → AreResults no_names (known_definitions known ++ behind) results
        → ((others : List (Option Outcome)) × (results ≡ known.outcomes ++ others))
        ↔ DeclareNoneLacking (known_definitions known) behind }
{}

/// Compiling a text over a known one that ends whole finds what compiling both as one text finds behind the
/// items of the known one: the same definitions; and if the known text has no fault, the same results and the
/// same faults, so many items and lines later. What stands behind the last `;` of the known text is in one
/// item with the first of the text: so the last item of the known one, which defines nothing (`last`), is
/// left out. Of a fault all is told but the number of its token, which in that item is another one.
pub fn compiled_as_one()
    ensures definitions { (before text : List ℕ) (known : KnownText) (tokens all_tokens : List (Kind × ℕ))
        (items all : List Item) → EndsWhole before → IsKnownOf before known
        → IsCompilation known text tokens items
        → IsCompilation nothing_known (before ++ text) all_tokens all
        → definitions_of all ≡ but_last (known_definitions known) ++ definitions_of items }
    ensures results { (before text : List ℕ) (known : KnownText) (tokens all_tokens : List (Kind × ℕ))
        (items all : List Item) → EndsWhole before → IsKnownOf before known → IsFaultless before
        → IsCompilation known text tokens items
        → IsCompilation nothing_known (before ++ text) all_tokens all
        → map (λ i. i.result) all ≡ but_last known.outcomes ++ map (λ i. i.result) items }
    ensures faults { (before text : List ℕ) (known : KnownText) (tokens all_tokens : List (Kind × ℕ))
        (items all : List Item) → EndsWhole before → IsKnownOf before known → IsFaultless before
        → IsCompilation known text tokens items
        → IsCompilation nothing_known (before ++ text) all_tokens all
        → map told (faults_of (before ++ text) all)
        ≡ map (told_behind (length (but_last (known_definitions known))) (count_by is_line_feed before))
        (faults_of text items) }
    ensures last { (before : List ℕ) (known : KnownText) → EndsWhole before → IsKnownOf before known
        → before ≢ [] → (known_definitions known ≡ but_last (known_definitions known) ++ None ∷ [])
        × (known.outcomes ≡ but_last known.outcomes ++ None ∷ []) }
{}

/// A known text that ends whole may also have faults: the results are those of both as one text exactly where
/// the text declares no name that the known one lacks (`results`), and there the faults of both as one are
/// those of the known text and then those of the text (`faults`).
pub fn compiled_as_one_exactly()
    ensures results { (before text : List ℕ) (known : KnownText) (tokens all_tokens : List (Kind × ℕ))
        (items all : List Item) → EndsWhole before → IsKnownOf before known
        → IsCompilation known text tokens items
        → IsCompilation nothing_known (before ++ text) all_tokens all
        → (map (λ i. i.result) all ≡ but_last known.outcomes ++ map (λ i. i.result) items)
        ↔ DeclareNoneLacking (known_definitions known) (definitions_of items) }
    ensures faults { (before text : List ℕ) (known : KnownText)
        (own_tokens tokens all_tokens : List (Kind × ℕ)) (own items all : List Item) → EndsWhole before
        → IsKnownOf before known → DeclareNoneLacking (known_definitions known) (definitions_of items)
        → IsCompilation nothing_known before own_tokens own → IsCompilation known text tokens items
        → IsCompilation nothing_known (before ++ text) all_tokens all
        → map told (faults_of (before ++ text) all) ≡ map told (faults_of before own)
        ++ map (told_behind (length (but_last (known_definitions known))) (count_by is_line_feed before))
        (faults_of text items) }
{}
