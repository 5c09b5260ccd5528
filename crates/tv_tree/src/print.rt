//! The printed form of a program: its tokens in order, a space or a line feed behind each.

ghost use Rattle.std.specs.Prelude.{◌≡◌, ◌++◌, ◌∷◌, [], OnOk, map, codes};
ghost use Rattle.std.specs.List.{flat_map};
ghost use Rattle.tv_tree.specs.Copies.{name_of, set_of, term_of, form_of, pred_of, decl_of, decls_of};
ghost use Rattle.tv_tree.specs.Copies.{piece_of, update_of, updates_of, part_of, action_of, edge_of};
ghost use Rattle.tv_tree.specs.Copies.{program_of};
ghost use Rattle.tv_tree.specs.Printed.{spaced, ended, words_tokens, more_tokens, one_token, params_tokens};
ghost use Rattle.tv_tree.specs.Printed.{brackets_tokens, name_tokens, sign_token, set_tokens, pair_tokens};
ghost use Rattle.tv_tree.specs.Printed.{formula_tokens};

use crate::trees::{FormulaTree, Name, SetSign, SetTerm, SetTree, Spelling};
use std::alloc::AllocError;

#[tactic(auto, unfolding(crate::specs::Printed::spaced))]
pub fn print_token(out: &mut Vec<u8>, text: &[u8]) -> Result<(), AllocError>
    ensures { OnOk result (out.new.items ≡ out.old.items ++ spaced (text.now ∷ [])) }
{
    out.extend_from_slice(text)?;
    out.push(b' ')?;
    Ok(())
}

// The last token's space becomes a line feed.
#[tactic(auto, unfolding(crate::specs::Printed::ended))]
pub fn end_line(out: &mut Vec<u8>) -> Result<(), AllocError>
    ensures { OnOk result (out.new.items ≡ ended out.old.items) }
{
    out.pop();
    out.push(b'\n')?;
    Ok(())
}

#[tactic(auto, using(crate::proofs::Texts::words_step, crate::proofs::Texts::more_done))]
pub fn print_more_words(out: &mut Vec<u8>, words: &[Spelling]) -> Result<(), AllocError>
    ensures { OnOk result
        (out.new.items ≡ out.old.items ++ spaced (more_tokens (codes ",") one_token words.now)) }
{
    for word in words {
        print_token(out, b",")?;
        print_token(out, &word.0)?;
    }
    Ok(())
}

#[tactic(auto, using(crate::proofs::Texts::spaced_push, crate::proofs::Texts::spaced_none))]
pub fn print_words(out: &mut Vec<u8>, words: &[Spelling]) -> Result<(), AllocError>
    ensures { OnOk result (out.new.items ≡ out.old.items ++ spaced (words_tokens words.now)) }
{
    if let Some((first, more)) = words.split_first() {
        print_token(out, &first.0)?;
        print_more_words(out, more)?;
    }
    Ok(())
}

#[tactic(auto, using(crate::proofs::Texts::spaced_push, crate::proofs::Texts::spaced_between))]
pub fn print_params(out: &mut Vec<u8>, params: &[Spelling]) -> Result<(), AllocError>
    ensures { OnOk result (out.new.items ≡ out.old.items ++ spaced (params_tokens params.now)) }
{
    print_token(out, b"(")?;
    print_words(out, params)?;
    print_token(out, b")")
}

#[tactic(auto, using(crate::proofs::Texts::spaced_push, crate::proofs::Texts::spaced_between))]
pub fn print_pair(out: &mut Vec<u8>, first: &Spelling, second: &Spelling) -> Result<(), AllocError>
    ensures { OnOk result (out.new.items ≡ out.old.items ++ spaced (pair_tokens first.now second.now)) }
{
    print_token(out, b"(")?;
    print_token(out, &first.0)?;
    print_token(out, b",")?;
    print_token(out, &second.0)?;
    print_token(out, b")")
}

#[tactic(auto, using(crate::proofs::Texts::spaced_push, crate::proofs::Texts::spaced_between))]
pub fn print_name(out: &mut Vec<u8>, name: &Name) -> Result<(), AllocError>
    ensures { OnOk result (out.new.items ≡ out.old.items ++ spaced (name_tokens (name_of name.now))) }
{
    print_token(out, &name.first.0)?;
    let brackets = name.brackets.as_slice();
    if !brackets.is_empty() {
        print_token(out, b"[")?;
        print_words(out, brackets)?;
        print_token(out, b"]")?;
    }
    Ok(())
}

fn sign_text(sign: SetSign) -> &'static [u8]
    ensures { result.now ≡ sign_token sign }
{
    match sign {
        SetSign::Plus => b"+",
        SetSign::Minus => b"-",
    }
}

#[cycle(set)]
#[tactic(auto, using(crate::proofs::Texts::spaced_push, crate::proofs::Texts::spaced_between, crate::proofs::Unfolds::term_of_named, crate::proofs::Unfolds::term_of_members, crate::proofs::Unfolds::term_of_paren))]
fn print_term(out: &mut Vec<u8>, term: &SetTerm) -> Result<(), AllocError>
    ensures { OnOk result (out.new.items ≡ out.old.items ++ spaced (set_tokens (term_of term.now))) }
{
    match term {
        SetTerm::Named(name) => print_token(out, &name.0),
        SetTerm::Members(members) => {
            print_token(out, b"{")?;
            print_words(out, members.as_slice())?;
            print_token(out, b"}")
        }
        SetTerm::Paren(inner) => {
            print_token(out, b"(")?;
            print_set(out, inner)?;
            print_token(out, b")")
        }
    }
}

#[cycle(set)]
#[tactic(auto, using(crate::proofs::Texts::steps_start, crate::proofs::Texts::steps_step, crate::proofs::Texts::steps_done, crate::proofs::Unfolds::set_of_steps))]
pub fn print_set(out: &mut Vec<u8>, set: &SetTree) -> Result<(), AllocError>
    ensures { OnOk result (out.new.items ≡ out.old.items ++ spaced (set_tokens (set_of set.now))) }
{
    print_term(out, &set.first)?;
    for step in &set.more {
        print_token(out, sign_text(step.sign))?;
        print_term(out, &step.term)?;
    }
    Ok(())
}

#[cycle(formula)]
#[tactic(auto, using(crate::proofs::Texts::spaced_push, crate::proofs::Texts::spaced_between))]
fn print_between(
    out: &mut Vec<u8>,
    left: &FormulaTree,
    mark: &[u8],
    right: &FormulaTree,
) -> Result<(), AllocError>
    ensures { OnOk result (out.new.items ≡ out.old.items ++ spaced
        (formula_tokens (form_of left.now) ++ mark.now ∷ formula_tokens (form_of right.now))) }
{
    print_formula(out, left)?;
    print_token(out, mark)?;
    print_formula(out, right)
}

#[cycle(formula)]
#[tactic(auto, using(crate::proofs::Texts::spaced_push, crate::proofs::Texts::spaced_between))]
fn print_conditional(
    out: &mut Vec<u8>,
    test: &FormulaTree,
    yes: &FormulaTree,
    no: &FormulaTree,
) -> Result<(), AllocError>
    ensures { OnOk result (out.new.items ≡ out.old.items ++ spaced (formula_tokens (form_of test.now)
        ++ codes "?" ∷ (formula_tokens (form_of yes.now) ++ codes ":" ∷ formula_tokens (form_of no.now)))) }
{
    print_formula(out, test)?;
    print_token(out, b"?")?;
    print_formula(out, yes)?;
    print_token(out, b":")?;
    print_formula(out, no)
}

#[tactic(auto, using(crate::proofs::Texts::spaced_push))]
fn print_words_between(
    out: &mut Vec<u8>,
    left: &Spelling,
    mark: &[u8],
    right: &Spelling,
) -> Result<(), AllocError>
    ensures { OnOk result (out.new.items ≡ out.old.items ++ spaced (left.now ∷ mark.now ∷ right.now ∷ [])) }
{
    print_token(out, &left.0)?;
    print_token(out, mark)?;
    print_token(out, &right.0)
}

#[tactic(auto, using(crate::proofs::Texts::spaced_push))]
fn print_atom(out: &mut Vec<u8>, name: &Name, arguments: &[Spelling]) -> Result<(), AllocError>
    ensures { OnOk result (out.new.items
        ≡ out.old.items ++ spaced (name_tokens (name_of name.now) ++ params_tokens arguments.now)) }
{
    print_name(out, name)?;
    print_params(out, arguments)
}

#[tactic(auto, using(crate::proofs::Texts::spaced_push, crate::proofs::Texts::spaced_between))]
fn print_closed(
    out: &mut Vec<u8>,
    name: &Name,
    mark: &[u8],
    from: &Spelling,
    to: &Spelling,
) -> Result<(), AllocError>
    ensures { OnOk result (out.new.items ≡ out.old.items ++ spaced
        (name_tokens (name_of name.now) ++ mark.now ∷ pair_tokens from.now to.now)) }
{
    print_name(out, name)?;
    print_token(out, mark)?;
    print_pair(out, from, to)
}

// What stands before the body of a closure.
#[tactic(auto, using(crate::proofs::Texts::spaced_push))]
fn print_closure_head(
    out: &mut Vec<u8>,
    from: &Spelling,
    to: &Spelling,
    left: &Spelling,
    right: &Spelling,
) -> Result<(), AllocError>
    ensures { OnOk result (out.new.items ≡ out.old.items ++ spaced
        (codes "TC" ∷ (pair_tokens from.now to.now ++ pair_tokens left.now right.now))) }
{
    print_token(out, b"TC")?;
    print_pair(out, from, to)?;
    print_pair(out, left, right)
}

#[cycle(formula)]
#[tactic(auto, using(crate::proofs::Texts::spaced_push))]
fn print_quantified(
    out: &mut Vec<u8>,
    word: &[u8],
    vars: &[Spelling],
    body: &FormulaTree,
) -> Result<(), AllocError>
    ensures { OnOk result (out.new.items ≡ out.old.items ++ spaced
        (word.now ∷ (params_tokens vars.now ++ formula_tokens (form_of body.now)))) }
{
    print_token(out, word)?;
    print_params(out, vars)?;
    print_formula(out, body)
}

#[cycle(formula)]
#[tactic(auto, using(crate::proofs::Texts::spaced_push, crate::proofs::Texts::spaced_between))]
fn print_in_parentheses(out: &mut Vec<u8>, inner: &FormulaTree) -> Result<(), AllocError>
    ensures { OnOk result (out.new.items
        ≡ out.old.items ++ spaced (codes "(" ∷ (formula_tokens (form_of inner.now) ++ codes ")" ∷ []))) }
{
    print_token(out, b"(")?;
    print_formula(out, inner)?;
    print_token(out, b")")
}

#[cycle(formula)]
#[tactic(auto, using(crate::proofs::Texts::spaced_push))]
fn print_negation(out: &mut Vec<u8>, inner: &FormulaTree) -> Result<(), AllocError>
    ensures { OnOk result
        (out.new.items ≡ out.old.items ++ spaced (codes "!" ∷ formula_tokens (form_of inner.now))) }
{
    print_token(out, b"!")?;
    print_formula(out, inner)
}

#[cycle(formula)]
#[tactic(auto, using(crate::proofs::Texts::spaced_push, crate::proofs::Texts::spaced_between, crate::proofs::Texts::closure_parts))]
pub fn print_formula(out: &mut Vec<u8>, formula: &FormulaTree) -> Result<(), AllocError>
    ensures { OnOk result (out.new.items ≡ out.old.items ++ spaced (formula_tokens (form_of formula.now))) }
{
    match formula {
        FormulaTree::Zero => print_token(out, b"0"),
        FormulaTree::One => print_token(out, b"1"),
        FormulaTree::Half => print_token(out, b"1/2"),
        FormulaTree::Same(left, right) => print_words_between(out, left, b"==", right),
        FormulaTree::Differ(left, right) => print_words_between(out, left, b"!=", right),
        FormulaTree::Atom(name, arguments) => print_atom(out, name, arguments.as_slice()),
        FormulaTree::Star(name, from, to) => print_closed(out, name, b"*", from, to),
        FormulaTree::Plus(name, from, to) => print_closed(out, name, b"+", from, to),
        FormulaTree::Paren(inner) => print_in_parentheses(out, inner),
        FormulaTree::Not(inner) => print_negation(out, inner),
        FormulaTree::And(left, right) => print_between(out, left, b"&", right),
        FormulaTree::Or(left, right) => print_between(out, left, b"|", right),
        FormulaTree::Imp(left, right) => print_between(out, left, b"->", right),
        FormulaTree::Iff(left, right) => print_between(out, left, b"<->", right),
        FormulaTree::Cond(test, yes, no) => print_conditional(out, test, yes, no),
        FormulaTree::Exists(vars, body) => print_quantified(out, b"E", vars.as_slice(), body),
        FormulaTree::Forall(vars, body) => print_quantified(out, b"A", vars.as_slice(), body),
        FormulaTree::Tc {
            from,
            to,
            left,
            right,
            body,
        } => {
            print_closure_head(out, from, to, left, right)?;
            print_formula(out, body)
        }
    }
}
