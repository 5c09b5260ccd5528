//! Laws about programs and their tokens. Each function does nothing: its clause is what it shows.
ghost use Rattle.std.specs.Prelude.{◌≡◌, ◌↔◌, ℕ, List, Some, All, codes, true};
ghost use Rattle.tv_lex.specs.Token.{SpecToken};
ghost use Rattle.tv_lex.specs.Spaced.{IsToken};
ghost use Rattle.tv_tree.specs.Forms.{Form, NameForm, PartForm, ProgramForm, SetForm};
ghost use Rattle.tv_tree.specs.Spelled.{IsSpelled};
ghost use Rattle.tv_formula.specs.Grammar.{IsFormula};
ghost use Rattle.tv_parse.specs.Grammar.{IsProgram, IsSetTerm, IsSet, IsHead, IsNest, IsSignature, AreProps};
ghost use Rattle.tv_parse.specs.Grammar.{IsDecl, AreDecls, IsUpdate, AreUpdates, IsPiece, ArePieces};
ghost use Rattle.tv_parse.specs.Grammar.{AreFormulas, IsPart, AreParts, IsAction, IsEdge, begins_edge};
ghost use Rattle.tv_parse.specs.Kinds.{begins_formula, begins_decl, begins_update, kind_of};
ghost use Rattle.tv_phrases.specs.Repeated.{HasOne, Repeated, begins_with};
ghost use Rattle.tv_parse.specs.Reading.{program_reading};

/// The reading of tokens gives exactly the program that the grammar says.
pub fn programs_are_read()
    ensures { (ts : List SpecToken) (t : ProgramForm) → (program_reading ts ≡ Some t) ↔ IsProgram ts t }
{}

/// Tokens are those of one program at most.
pub fn one_tree()
    ensures { (ts : List SpecToken) (t u : ProgramForm) → IsProgram ts t → IsProgram ts u → t ≡ u }
{}

/// The words of a program are spelled as words of a text are, and each kind of part stands once in an action.
pub fn programs_are_spelled()
    ensures { (ts : List SpecToken) (t : ProgramForm) → IsProgram ts t → All IsToken ts → IsSpelled t }
{}

/// Each formula begins with a token that is listed among those that can begin one.
#[tactic(auto, using(crate::proofs::FormulaFronts::formula_begins))]
pub fn formulas_begin()
    ensures { (ts rest : List SpecToken) (f : Form) → IsFormula ts f rest → begins_formula ts ≡ true }
{}

/// From any place there is one set at most: one tree and one end.
pub fn one_set()
    ensures whole { HasOne IsSet }
    ensures term { HasOne IsSetTerm }
    ensures head { HasOne (λ ts (x : List ℕ × SetForm) rest. IsHead ts x.0 x.1 rest) }
{}

/// From any place there is one declaration at most, and one of each of its parts.
pub fn one_declaration()
    ensures signature { HasOne (λ ts (x : NameForm × List (List ℕ)) rest. IsSignature ts x.0 x.1 rest) }
    ensures properties { HasOne AreProps }
    ensures single { HasOne (IsNest begins_decl IsDecl) }
    ensures row { HasOne AreDecls }
{}

/// From any place there is one update at most: one tree and one end.
pub fn one_update()
    ensures single { HasOne (IsNest begins_update IsUpdate) }
    ensures row { HasOne AreUpdates }
{}

/// From any place there is one action at most, and one of each of its parts. The token in front of a part
/// tells its kind.
pub fn one_action()
    ensures piece { HasOne IsPiece }
    ensures pieces { HasOne ArePieces }
    ensures formulas { HasOne AreFormulas }
    ensures part { (ts us vs : List SpecToken) (p q : PartForm) → kind_of p ≡ kind_of q → IsPart ts p us
        → IsPart ts q vs → (p ≡ q) × (us ≡ vs) }
    ensures parts { (before : List PartForm) → HasOne (AreParts before) }
    ensures action { HasOne IsAction }
    ensures row { HasOne (Repeated (begins_with (codes "%action")) IsAction) }
{}

/// From any place there is one edge at most: one tree and one end.
pub fn one_edge()
    ensures single { HasOne IsEdge }
    ensures row { HasOne (Repeated begins_edge IsEdge) }
{}
