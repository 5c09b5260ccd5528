//! Laws about what texts mean. Each function does nothing of its own: its clauses are what it shows.

ghost use Rattle.std.specs.Prelude.{ℕ, ◌≡◌, List};
ghost use Rattle.tv_model.specs.Program.{ProgramForm};
ghost use Rattle.tv_front.specs.Meaning.{Means, IsRefused, without_place};
ghost use Rattle.tv_front.specs.ReadAgain.{ProgramsAreReadAgain};
ghost use Rattle.tv_front.specs.declared.fault.ProgramFault.{ProgramFault};

use tv_lex::one_reading;
use tv_parse::one_tree;

/// A text means one program at most, and none where it is refused.
pub fn one_meaning()
    ensures one { (text : List ℕ) (p q : ProgramForm) → Means text p → Means text q → p ≡ q }
    ensures unrefused { (text : List ℕ) (p : ProgramForm) (fault : ProgramFault) → Means text p
        → ¬ IsRefused text fault }
{
    one_reading();
    one_tree();
}

/// A text is refused for one reason, its place aside.
pub fn one_refusal()
    ensures { (text : List ℕ) (d e : ProgramFault) → IsRefused text d → IsRefused text e
        → without_place d ≡ without_place e }
{
    one_reading();
    one_tree();
}

/// The printed text of a program that was read is read as that program again.
pub fn programs_are_read_again()
    ensures { ProgramsAreReadAgain }
{}
