//! The values of a formula that an action sets its predicate to.

ghost use Rattle.std.specs.Prelude.{ℕ, ◌≡◌, ◌<◌, IsTrue};
ghost use Rattle.tv_model.specs.Form.{form_of, IsFree};
ghost use Rattle.tv_model.specs.Program.{program_of};
ghost use Rattle.tv_model.specs.Valid.{IsValid};
ghost use Rattle.tv_structure_form.specs.StructureForm.{IsOver};
ghost use Rattle.tv_eval.specs.AssignmentForm.{IsAssigned};
ghost use Rattle.tv_eval.specs.Formulas.{AreAssigned};
ghost use Rattle.tv_eval.specs.ScratchForm.{IsMadeFor};
ghost use Rattle.tv_test_values.specs.Setting.{IsSetting};

use super::setting::{Setting, setting_of};
use std::alloc::{AllocError, Global};
use std::test::Fail;
use tv_eval::{
    Assignment, Evaluator, Scratch, eval, made_scratches_fit, program_formulas_are_over,
};
use tv_kleene::K3;
use tv_model::{Program, free};
use tv_row::Row;
use tv_struct::Structure;

fn letter(k: K3) -> char {
    match k {
        K3::No => 'n',
        K3::Half => 'h',
        K3::Yes => 'y',
    }
}

/// The value of a formula of the program.
fn value(
    program: &Program,
    found: &Setting<'_>,
    s: &Structure,
    a: &Assignment,
    scratch: &mut Scratch,
) -> K3
    requires setting { IsSetting program.now found.now.v.0 found.now.w.0 (form_of found.now.formula.now) }
    requires over { IsOver program.now.vocab s.now }
    requires assigned { AreAssigned s.now.size a.now (form_of found.now.formula.now) }
    requires made { IsMadeFor (program_of program.now) s.now.size scratch.old }
    ensures { scratch.new ≡ scratch.old }
{
    program_formulas_are_over();
    made_scratches_fit();
    eval(found.formula, s, a, scratch)
}

/// The two variables stand for these individuals.
fn at(found: &Setting<'_>, u: u32, x: u32) -> Assignment
    requires { (found.now.v.0 < 32) × (found.now.w.0 < 32) }
    ensures v { (size : ℕ) → u < size → x < size → IsAssigned size result found.now.v.0 }
    ensures w { (size : ℕ) → x < size → IsAssigned size result found.now.w.0 }
{
    Assignment::new().with(found.v, u).with(found.w, x)
}

/// The values with v at `u` and w at each individual in turn, one by one.
fn ones(
    alloc: Global,
    program: &Program,
    found: &Setting<'_>,
    s: &Structure,
    u: u32,
    scratch: &mut Scratch,
) -> Result<String, AllocError>
    requires setting { IsSetting program.now found.now.v.0 found.now.w.0 (form_of found.now.formula.now) }
    requires over { IsOver program.now.vocab s.now }
    requires individual { u < s.now.size }
    requires made { IsMadeFor (program_of program.now) s.now.size scratch.old }
    ensures { scratch.new ≡ scratch.old }
{
    let mut text = String::new(alloc);
    for x in 0..s.size() {
        text.push(letter(value(program, found, s, &at(found, u, x), scratch)))?;
    }
    Ok(text)
}

/// The variable v stands for `u`.
fn first_at(found: &Setting<'_>, u: u32) -> Assignment
    requires { found.now.v.0 < 32 }
    ensures { (size : ℕ) → u < size → IsAssigned size result found.now.v.0 }
{
    Assignment::new().with(found.v, u)
}

/// The values with v at `u` for all individuals of w at once.
fn row_of(
    program: &Program,
    found: &Setting<'_>,
    s: &Structure,
    u: u32,
    scratch: &mut Scratch,
) -> Row
    requires setting { IsSetting program.now found.now.v.0 found.now.w.0 (form_of found.now.formula.now) }
    requires over { IsOver program.now.vocab s.now }
    requires individual { u < s.now.size }
    requires made { IsMadeFor (program_of program.now) s.now.size scratch.old }
    ensures { scratch.new ≡ scratch.old }
{
    program_formulas_are_over();
    made_scratches_fit();
    let mut e = Evaluator::new(s, scratch);
    let row = e.row(found.formula, found.w, &first_at(found, u));
    e.finish(scratch);
    row
}

fn letters(alloc: Global, row: &Row) -> Result<String, AllocError> {
    let mut text = String::new(alloc);
    for x in 0..row.size() {
        text.push(letter(row.get(x)))?;
    }
    Ok(text)
}

/// Whether values are found one by one, or for all individuals of a variable at once.
#[derive(Clone, Copy, Debug)]
pub enum Way {
    Ones,
    Rows,
}

/// The values with v at `u` and w at each individual in turn.
fn row(
    alloc: Global,
    program: &Program,
    found: &Setting<'_>,
    s: &Structure,
    u: u32,
    way: Way,
    scratch: &mut Scratch,
) -> Result<String, AllocError>
    requires setting { IsSetting program.now found.now.v.0 found.now.w.0 (form_of found.now.formula.now) }
    requires over { IsOver program.now.vocab s.now }
    requires individual { u < s.now.size }
    requires made { IsMadeFor (program_of program.now) s.now.size scratch.old }
    ensures { scratch.new ≡ scratch.old }
{
    match way {
        Way::Ones => ones(alloc, program, found, s, u, scratch),
        Way::Rows => letters(alloc, &row_of(program, found, s, u, scratch)),
    }
}

/// The values at all pairs of individuals, row by row.
fn rows(
    alloc: Global,
    program: &Program,
    found: &Setting<'_>,
    s: &Structure,
    way: Way,
    scratch: &mut Scratch,
) -> Result<String, AllocError>
    requires setting { IsSetting program.now found.now.v.0 found.now.w.0 (form_of found.now.formula.now) }
    requires over { IsOver program.now.vocab s.now }
    requires made { IsMadeFor (program_of program.now) s.now.size scratch.old }
    ensures { scratch.new ≡ scratch.old }
{
    let mut text = String::new(alloc);
    for u in 0..s.size() {
        if u > 0 {
            text.push('/')?;
        }
        text.push_str(row(alloc, program, found, s, u, way, scratch)?.as_str())?;
    }
    Ok(text)
}

/// Whether the formula speaks of neither variable.
fn is_closed(found: &Setting<'_>) -> bool
    ensures v { IsTrue result → ¬ IsFree found.now.v.0 (form_of found.now.formula.now) }
    ensures w { IsTrue result → ¬ IsFree found.now.w.0 (form_of found.now.formula.now) }
{
    !free(found.formula, found.v) && !free(found.formula, found.w)
}

/// The one value of a formula without free variables, or the values at all pairs.
pub fn values(alloc: Global, program: &Program, s: &Structure, way: Way) -> Result<String, Fail>
    requires valid { IsValid (program_of program.now) }
    requires over { IsOver program.now.vocab s.now }
{
    let found = setting_of(program)?;
    let mut scratch = Scratch::new(alloc, program, s.size())?;
    if is_closed(&found) {
        let mut text = String::new(alloc);
        text.push(letter(value(program, &found, s, &Assignment::new(), &mut scratch)))?;
        return Ok(text);
    }
    Ok(rows(alloc, program, &found, s, way, &mut scratch)?)
}
