//! Laws of what a text's types show and of what they are, each a function that does nothing and ensures the
//! law.

ghost use Rattle.std.specs.Prelude.{◌≡◌, ◌≢◌, ◌↔◌, ◌≤◌, ℕ, pos, Bool, true, List, [], length, map, slice_get};
ghost use Rattle.std.specs.Prelude.{◌∷◌, ◌++◌, ℤ, Option, Some, IsSome};
ghost use Rattle.std.specs.List.{All, IsAmong, flat_map};
ghost use Rattle.std.specs.Map.{lookup};
ghost use Rattle.std.specs.Str.{bytes_eq};
ghost use Rattle.x_text.specs.Limits.{most_text};
ghost use Rattle.x_lex.specs.declared.kind.Kind.{Kind};
ghost use Rattle.x_trees.specs.Gloss.{FixedSize, Role};
ghost use Rattle.x_trees.specs.Tree.{Declaration, Definition, Enum, Enumerator, Procedure, Value, Version};
ghost use Rattle.x_outline.specs.Bodies.{BodyAt, EnumeratorAt, ValueAt, bodies, cases_of, enumerators};
ghost use Rattle.x_rules.specs.Constants.{number_at};
ghost use Rattle.x_rules.specs.Results.{Outcome, AreResults, no_names};
ghost use Rattle.x_rules.specs.Rules.{HasRole, IsOutside, IsSwitch, size_role, value_role};
ghost use Rattle.x_rules.specs.Views.{Class, Other};
ghost use Rattle.x_rules.specs.declared.fault.RuleCode.TheVariants.{Unknown};
ghost use Rattle.x_schema.specs.ProceduresOf.{Numbered, numbers_by, numbers_from, procedures_in};
ghost use Rattle.x_schema.specs.ProceduresOf.{procedures_of, word_spelled};
ghost use Rattle.x_schema.specs.Schema.{Schema, IsProcedureAt, form_at, id_named, named_type, procedure_at};
ghost use Rattle.x_schema.specs.SchemaOf.{IsBody, case_word, number_in, numbers_of, words_from};
ghost use Rattle.x_schema.specs.Schemas.{IsSchemaOf};
ghost use Rattle.x_schema.specs.declared.schema.NamedType.{NamedType};
ghost use Rattle.x_schema.specs.declared.schema.TypeId.{TypeId};
ghost use Rattle.x_schema.specs.declared.procedure.CompactProcedure.{CompactProcedure};
ghost use Rattle.x_schema.specs.declared.procedure.ProcedureNumbers.{ProcedureNumbers};
ghost use Rattle.x_value.specs.Dumps.{IsShown};
ghost use Rattle.x_value.specs.Shown.{Node};
ghost use Rattle.x_script.specs.Answers.{Answer};
ghost use Rattle.x_compile.specs.Compile.{Item, IsCompilation, definitions_of, faults_of};
ghost use Rattle.x_compile.specs.Known.{KnownText, known_names, nothing_known};
ghost use Rattle.x_compile.specs.declared.fault.FaultCode.TheVariants.{Rule};
ghost use Rattle.x_prelude.specs.Before.{IsBefore};
ghost use Rattle.x_prelude.specs.declared.definition.FromC.{FromC};
ghost use Rattle.x_prelude_laws.specs.Wholes.{EndsWhole};
ghost use Rattle.x_script.specs.LineAnswers.{IsLineAnswer};
ghost use Rattle.x_script.specs.Script.{AreAnswered};
ghost use Rattle.x_script.specs.Situations.{How};
ghost use Rattle.x_wire.specs.MessageTexts.{Told};
ghost use Rattle.x_wire.specs.StreamTexts.{IsStreamText, IsTextOf};
ghost use Rattle.x_opening.specs.Opening.{AreRead};
ghost use Rattle.x_opening.specs.declared.known.KnownSource.{KnownSource};
ghost use Rattle.x_laws.specs.Meant.{AreFaultless, HasCase, HasEnum, HasProcedure, HasWord, IsArrayNumber};
ghost use Rattle.x_laws.specs.Meant.{IsAsDeclared, IsEnumNumber, IsFaultless, IsFirstOfNumbers};
ghost use Rattle.x_laws.specs.Meant.{IsFirstProgram, IsProgramAt, IsSizeNumber, IsTypeName, IsUnionIn};
ghost use Rattle.x_laws.specs.Meant.{IsUsedAsType, MeansType, NoneTwice};
ghost use Rattle.x_laws.specs.Meant.{cases_declared, class_seen, number_meant, sees, whole, words_meant};
ghost use Rattle.x_laws.specs.Places.{IsShownAt, PlacedNode, ShowsSlice};
ghost use Rattle.x_laws.specs.Showing.{ShowsAlike, CallsAlike};

/// Two schemas of the same definitions have types of the same names and procedures of the same numbers, and
/// show bytes by them in the same way: the same nodes, or the same refusal.
pub fn one_showing()
    ensures types { (definitions : List (Option Definition)) (s t : Schema) → IsSchemaOf definitions s
        → IsSchemaOf definitions t → (name : List ℕ) (a : TypeId) → id_named s name ≡ Some a
        → (b : TypeId) × (id_named t name ≡ Some b) × ShowsAlike s t a b }
    ensures procedures { (definitions : List (Option Definition)) (s t : Schema) → IsSchemaOf definitions s
        → IsSchemaOf definitions t → (numbers : ProcedureNumbers) (name : List ℕ) (a b : TypeId)
        → IsProcedureAt s numbers name a b → CallsAlike s t numbers name a b }
{}

/// The nodes that bytes are shown as have places among these, in one way (`one`), and the bytes that a node
/// shows as they are, those of an opaque or a string, are so many from its place on (`slices`).
pub fn bodies_in_place()
    ensures slices { (s : Schema) (id : TypeId) (bytes : List ℕ) (shown : List Node)
        → IsShown s id bytes shown → (placed : List PlacedNode) × IsShownAt s id bytes placed
        × (shown ≡ map (λ n. n.node) placed) × All (ShowsSlice bytes) placed }
    ensures one { (s : Schema) (id : TypeId) (bytes : List ℕ) (a b : List PlacedNode)
        → IsShownAt s id bytes a → IsShownAt s id bytes b → a ≡ b }
{}

/// A line of a script has one answer over a text, and the lines of a script have one list of answers, one
/// behind another.
pub fn one_answer()
    ensures line { (how : How) (text line : List ℕ) (a b : Answer) → IsLineAnswer how text line a
        → IsLineAnswer how text line b → a ≡ b }
    ensures script { (how : How) (text : List ℕ) (lines : List (List ℕ)) (a b : Answer)
        → AreAnswered how text lines a → AreAnswered how text lines b → a ≡ b }
{}

/// By two schemas of the same definitions messages one behind another have one text, and so has a stream.
pub fn one_dump()
    ensures messages { (definitions : List (Option Definition)) (s t : Schema) → IsSchemaOf definitions s
        → IsSchemaOf definitions t → (messages : List (List ℕ)) (a b : Told)
        → IsTextOf s messages a → IsTextOf t messages b → a ≡ b }
    ensures stream { (definitions : List (Option Definition)) (s t : Schema) → IsSchemaOf definitions s
        → IsSchemaOf definitions t → (stream : List ℕ) (a b : Told)
        → IsStreamText s stream a → IsStreamText t stream b → a ≡ b }
{}

/// Where a text has no fault, none of the results of its items has one, of which the laws below speak.
pub fn faultless_results()
    ensures { (text : List ℕ) (items : List Item) → faults_of text items ≡ []
        → AreFaultless (map (λ i. i.result) items) }
{}

/// In a text without a fault, before which nothing is known, a schema has a type of a name exactly where the
/// name's first declarer declares it as a type, also as that of an inline type (`declared`); and that is
/// where the name means a type by the rules (`meant`).
pub fn schema_types()
    ensures declared { (definitions : List (Option Definition)) (results : List (Option Outcome)) (s : Schema)
        → AreResults no_names definitions results → AreFaultless results → IsSchemaOf definitions s
        → (name : List ℕ) → IsSome (id_named s name) ↔ IsTypeName definitions name }
    ensures meant { (definitions : List (Option Definition)) (results : List (Option Outcome)) (s : Schema)
        → AreResults no_names definitions results → AreFaultless results → IsSchemaOf definitions s
        → (name : List ℕ) → IsSome (id_named s name) ↔ MeansType definitions results name }
{}

/// In a text without a fault, before which nothing is known, a schema is made by the numbers that names mean
/// by the rules (`names`). The number of each value, size and case is the one by which the rules go at its
/// word (`values`), and that of each enumerator the one that its name means, also without a value
/// (`enumerators`).
pub fn schema_numbers()
    ensures names { (definitions : List (Option Definition)) (results : List (Option Outcome))
        → AreResults no_names definitions results → AreFaultless results → (name : List ℕ)
        → lookup (bytes_eq name) (numbers_of definitions) ≡ number_meant definitions results name }
    ensures values { (definitions : List (Option Definition)) (results : List (Option Outcome))
        → AreResults no_names definitions results → AreFaultless results → (item : ℕ) (d : Definition)
        → slice_get definitions item ≡ Some (Some d) → (word : ℕ) (role : Role) (v : Value)
        → HasRole d word role → value_role role ≡ Some v
        → number_in (numbers_of definitions) v
        ≡ number_at (sees definitions results item d) (enumerators d) word v }
    ensures enumerators { (definitions : List (Option Definition)) (results : List (Option Outcome))
        → AreResults no_names definitions results → AreFaultless results → (item : ℕ) (d : Definition)
        → slice_get definitions item ≡ Some (Some d) → (b : BodyAt) (es : List Enumerator)
        → IsAmong (bodies d) b → b.body ≡ Enum es
        → words_from (numbers_of definitions) (Some (pos 0)) [] es
        ≡ words_meant (number_meant definitions results) [] es }
{}

/// In a text without a fault, before which nothing is known, each value, size and case has a number, by which
/// the text's types are made (`values`); that of a size is one from 0 to 2^32-1 (`sizes`), of a fixed one
/// from 1 on (`arrays`), and that of each enumerator one from -2^31 to 2^31-1 (`enumerators`).
pub fn each_number()
    ensures values { (text : List ℕ) (items : List Item) → IsFaultless text items → (item : ℕ)
        (d : Definition) → slice_get (definitions_of items) item ≡ Some (Some d) → (word : ℕ) (role : Role)
        (v : Value) → HasRole d word role → value_role role ≡ Some v
        → IsSome (number_in (numbers_of (definitions_of items)) v) }
    ensures sizes { (text : List ℕ) (items : List Item) → IsFaultless text items → (item : ℕ)
        (d : Definition) → slice_get (definitions_of items) item ≡ Some (Some d) → (word : ℕ) (role : Role)
        (v : Value) → HasRole d word role → size_role role ≡ Some v
        → IsSizeNumber (number_in (numbers_of (definitions_of items)) v) }
    ensures arrays { (text : List ℕ) (items : List Item) → IsFaultless text items → (item : ℕ)
        (d : Definition) → slice_get (definitions_of items) item ≡ Some (Some d) → (word : ℕ) (v : Value)
        → HasRole d word (FixedSize v) → IsArrayNumber (number_in (numbers_of (definitions_of items)) v) }
    ensures enumerators { (text : List ℕ) (items : List Item) → IsFaultless text items → (item : ℕ)
        (d : Definition) → slice_get (definitions_of items) item ≡ Some (Some d) → (e : EnumeratorAt)
        → IsAmong (enumerators d) e
        → IsEnumNumber (lookup (bytes_eq e.name) (numbers_of (definitions_of items))) }
{}

/// In a text without a fault, before which nothing is known, each discriminant has a class that a
/// discriminant may have (`known`), which is what its form says, by the types of the whole text: a number is
/// outside of the class exactly where no word of the form stands for it (`classes`). So each case of a union
/// has a word (`words`), no two have the same one (`once`), and at each case's word a schema's union has the
/// arm that is declared for it (`arms`): no case is left out (RFC 4506, section 4.15).
pub fn each_case()
    ensures known { (text : List ℕ) (items : List Item) → IsFaultless text items → (item : ℕ)
        (d : Definition) → slice_get (definitions_of items) item ≡ Some (Some d) → (union : BodyAt)
        → IsAmong (bodies d) union → (at : ℕ) (discriminant : Declaration) → IsSwitch union at discriminant
        → (class : Class)
        × (class_seen (definitions_of items) (map (λ i. i.result) items) item d discriminant ≡ Some class)
        × (class ≢ Other) }
    ensures classes { (text : List ℕ) (items : List Item) (s : Schema) → IsFaultless text items
        → IsSchemaOf (definitions_of items) s → (item : ℕ) (d : Definition) (union : BodyAt)
        (discriminant : Declaration) (place : ℕ)
        → IsUnionIn (definitions_of items) s item d union discriminant place → (class : Class)
        → class_seen (definitions_of items) (map (λ i. i.result) items) item d discriminant ≡ Some class
        → (z : ℤ) → (IsOutside class z → ⊥) ↔ HasWord (form_at s place) z }
    ensures words { (text : List ℕ) (items : List Item) (s : Schema) → IsFaultless text items
        → IsSchemaOf (definitions_of items) s → (item : ℕ) (d : Definition) (union : BodyAt)
        (discriminant : Declaration) (place : ℕ)
        → IsUnionIn (definitions_of items) s item d union discriminant place
        → (case : ValueAt) → IsAmong (cases_of union) case
        → IsSome (case_word (numbers_of (definitions_of items)) (form_at s place) case.value) }
    ensures once { (text : List ℕ) (items : List Item) (s : Schema) → IsFaultless text items
        → IsSchemaOf (definitions_of items) s → (item : ℕ) (d : Definition) (union : BodyAt)
        (discriminant : Declaration) (place : ℕ)
        → IsUnionIn (definitions_of items) s item d union discriminant place
        → (front rear : List ValueAt) (here : ValueAt) → cases_of union ≡ front ++ here ∷ rear
        → (other : ValueAt) → IsAmong front other
        → case_word (numbers_of (definitions_of items)) (form_at s place) other.value
        ≡ case_word (numbers_of (definitions_of items)) (form_at s place) here.value → ⊥ }
    ensures arms { (text : List ℕ) (items : List Item) (s : Schema) → IsFaultless text items
        → IsSchemaOf (definitions_of items) s → (item : ℕ) (d : Definition)
        → slice_get (definitions_of items) item ≡ Some (Some d) → (union : BodyAt) → IsAmong (bodies d) union
        → (place : ℕ) → IsBody s (whole (definitions_of items) s) union.body place
        → (case : Value) (declaration : Declaration)
        → IsAmong (cases_declared union.body) (case, declaration)
        → HasCase s (whole (definitions_of items) s) place case declaration }
{}

/// In a text without a fault, before which nothing is known, each procedure has its three numbers, of 32 bits
/// (`numbers`). A schema has, for three numbers, what is declared of the first procedure of the text that has
/// them (`first`), and nothing where none has them (`no_other`). No two versions of a program have one number
/// (`versions`), and no two procedures of a version (`procedures`), so no two procedures of a program have
/// the same three (`once`; RFC 5531, section 12.3). So a schema has each procedure of a program, where no
/// program before it in the text has its number (`programs`).
pub fn each_procedure()
    ensures numbers { (text : List ℕ) (items : List Item) → IsFaultless text items → (p : Numbered)
        → IsAmong (procedures_of (definitions_of items)) p
        → (numbers : ProcedureNumbers) × (numbers_by p ≡ Some numbers) }
    ensures first { (definitions : List (Option Definition)) (s : Schema) → IsSchemaOf definitions s
        → (p : Numbered) (numbers : ProcedureNumbers) → IsFirstOfNumbers definitions p numbers
        → HasProcedure s numbers p.procedure }
    ensures no_other { (definitions : List (Option Definition)) (s : Schema) → IsSchemaOf definitions s
        → (numbers : ProcedureNumbers) (kept : CompactProcedure) → procedure_at s numbers ≡ Some kept
        → (p : Numbered) × IsAmong (procedures_of definitions) p × (numbers_by p ≡ Some numbers) }
    ensures versions { (text : List ℕ) (items : List Item) → IsFaultless text items → (item : ℕ)
        (versions : List Version) (number : List ℕ)
        → IsProgramAt (definitions_of items) item versions number
        → NoneTwice (λ (v : Version). word_spelled v.number) versions }
    ensures procedures { (text : List ℕ) (items : List Item) → IsFaultless text items → (item : ℕ)
        (versions : List Version) (number : List ℕ)
        → IsProgramAt (definitions_of items) item versions number → (v : Version) → IsAmong versions v
        → NoneTwice (λ (p : Procedure). word_spelled p.number) v.procedures }
    ensures once { (text : List ℕ) (items : List Item) → IsFaultless text items → (item : ℕ)
        (versions : List Version) (number : List ℕ)
        → IsProgramAt (definitions_of items) item versions number
        → NoneTwice numbers_by (flat_map (procedures_in number) versions) }
    ensures programs { (text : List ℕ) (items : List Item) (s : Schema) → IsFaultless text items
        → IsSchemaOf (definitions_of items) s → (item : ℕ) (versions : List Version) (number : List ℕ)
        → IsFirstProgram (definitions_of items) item versions number → (v : Version) → IsAmong versions v
        → (p : Procedure) → IsAmong v.procedures p → (numbers : ProcedureNumbers)
        × (numbers_from (word_spelled number) (word_spelled v.number) (word_spelled p.number) ≡ Some numbers)
        × HasProcedure s numbers p }
{}

/// In a text without a fault, before which nothing is known, the type of each name is as the name's first
/// declarer declares it, and a name in it, by value or behind a link, leads to the type of that name; each
/// name that is used as a type has one.
pub fn schema_targets()
    ensures forms { (definitions : List (Option Definition)) (results : List (Option Outcome)) (s : Schema)
        → AreResults no_names definitions results → AreFaultless results → IsSchemaOf definitions s
        → (name : List ℕ) (t : NamedType) → named_type s name ≡ Some t
        → IsAsDeclared definitions s name t.form }
    ensures uses { (definitions : List (Option Definition)) (results : List (Option Outcome)) (s : Schema)
        → AreResults no_names definitions results → AreFaultless results → IsSchemaOf definitions s
        → (name : List ℕ) → IsUsedAsType definitions name → IsSome (id_named s name) }
{}

/// What `schema_types`, `schema_targets` and `schema_numbers` say, of a text that was compiled without a
/// fault, before which nothing is known, and of a schema of its definitions: that has the types that the
/// text's names declare (`types`) and mean (`meant`), each as the name's first declarer declares it
/// (`forms`), and one of each name that is used as a type (`uses`); the numbers by which it is made are those
/// that names mean by the rules (`numbers`), and those by which the rules go at a word (`values`). The words
/// of each enum are those that its names mean, also without a value (`enumerators`), and where the schema has
/// the enum it has these, each with its name (`enums`; RFC 4506, section 4.3).
pub fn types_of_text()
    ensures types { (text : List ℕ) (items : List Item) (s : Schema) → IsFaultless text items
        → IsSchemaOf (definitions_of items) s → (name : List ℕ)
        → IsSome (id_named s name) ↔ IsTypeName (definitions_of items) name }
    ensures meant { (text : List ℕ) (items : List Item) (s : Schema) → IsFaultless text items
        → IsSchemaOf (definitions_of items) s → (name : List ℕ)
        → IsSome (id_named s name) ↔ MeansType (definitions_of items) (map (λ i. i.result) items) name }
    ensures forms { (text : List ℕ) (items : List Item) (s : Schema) → IsFaultless text items
        → IsSchemaOf (definitions_of items) s → (name : List ℕ) (t : NamedType)
        → named_type s name ≡ Some t → IsAsDeclared (definitions_of items) s name t.form }
    ensures uses { (text : List ℕ) (items : List Item) (s : Schema) → IsFaultless text items
        → IsSchemaOf (definitions_of items) s → (name : List ℕ)
        → IsUsedAsType (definitions_of items) name → IsSome (id_named s name) }
    ensures numbers { (text : List ℕ) (items : List Item) → IsFaultless text items → (name : List ℕ)
        → lookup (bytes_eq name) (numbers_of (definitions_of items))
        ≡ number_meant (definitions_of items) (map (λ i. i.result) items) name }
    ensures values { (text : List ℕ) (items : List Item) → IsFaultless text items → (item : ℕ)
        (d : Definition) → slice_get (definitions_of items) item ≡ Some (Some d) → (word : ℕ) (role : Role)
        (v : Value) → HasRole d word role → value_role role ≡ Some v
        → number_in (numbers_of (definitions_of items)) v
        ≡ number_at (sees (definitions_of items) (map (λ i. i.result) items) item d) (enumerators d) word v }
    ensures enumerators { (text : List ℕ) (items : List Item) → IsFaultless text items → (item : ℕ)
        (d : Definition) → slice_get (definitions_of items) item ≡ Some (Some d) → (b : BodyAt)
        (es : List Enumerator) → IsAmong (bodies d) b → b.body ≡ Enum es
        → words_from (numbers_of (definitions_of items)) (Some (pos 0)) [] es
        ≡ words_meant (number_meant (definitions_of items) (map (λ i. i.result) items)) [] es }
    ensures enums { (text : List ℕ) (items : List Item) (s : Schema) → IsFaultless text items
        → IsSchemaOf (definitions_of items) s → (item : ℕ) (d : Definition)
        → slice_get (definitions_of items) item ≡ Some (Some d) → (b : BodyAt) (es : List Enumerator)
        → IsAmong (bodies d) b → b.body ≡ Enum es → (place : ℕ)
        → IsBody s (whole (definitions_of items) s) b.body place → HasEnum s place
        (words_meant (number_meant (definitions_of items) (map (λ i. i.result) items)) [] es) }
{}

/// Where nothing is known before a text no name is, so the laws of such texts hold of it.
pub fn no_name_is_known()
    ensures { known_names nothing_known ≡ no_names }
{}

/// Known files that were read end whole (`whole`), where none is longer than a text may be, which no
/// session's text is. So the laws of what stands before a text hold behind them: where any name may be taken
/// from C, no name of the text is undeclared (`names`).
pub fn read_files_end_whole()
    ensures whole { (from : FromC) (names : List (List ℕ)) (files : List KnownSource) (text : List ℕ)
        (is_plain : Bool) → All (λ f. length f.session.text ≤ most_text) files
        → AreRead from [] true names files text is_plain → EndsWhole text }
    ensures names { (from : FromC) (names : List (List ℕ)) (files : List KnownSource) (before : List ℕ)
        (is_plain : Bool) (text : List ℕ) (known : KnownText) (tokens : List (Kind × ℕ)) (items : List Item)
        → All (λ f. length f.session.text ≤ most_text) files
        → AreRead from [] true names files before is_plain → from.foreign ≡ true
        → length text ≤ most_text → IsBefore before from text known → IsCompilation known text tokens items
        → All (λ f. f.code ≢ Rule Unknown) (faults_of text items) }
{}
