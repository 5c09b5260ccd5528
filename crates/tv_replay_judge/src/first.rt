//! The first rule that a heap doesn't meet.

ghost use Rattle.std.specs.Prelude.{◌≡◌, All, IfOk, map};
ghost use Rattle.tv_model.specs.Program.{pred_of, program_of, rule_of};
ghost use Rattle.tv_two_valued.specs.TwoValued.{heap_of};
ghost use Rattle.tv_replay_laws.specs.JudgedRules.{IsFirstUnmet, judged_rules, rules_of_properties};
ghost use Rattle.tv_replay_judge.specs.Ready.{IsReadyToEvaluate};
ghost use Rattle.tv_replay_judge.specs.Trying.{CanJudge};

use crate::rule::meets_rule;
use std::alloc::{AllocError, Global};
use tv_eval::Scratch;
use tv_model::{Program, Rule, Rules};
use tv_struct::Structure;

/// The place of the first of the rules that the heap doesn't meet.
fn first_of(
    alloc: Global,
    s: &Structure,
    scratch: &mut Scratch,
    rules: &[Rule],
) -> Result<Option<usize>, AllocError>
    requires { All (λ rule. CanJudge s.now scratch.old (rule_of rule)) rules.now }
    ensures first { IfOk result (IsFirstUnmet (heap_of s.now) (map rule_of rules.now)) }
    ensures scratch { scratch.new ≡ scratch.old }
{
    for (n, rule) in rules.iter().enumerate() {
        if !meets_rule(alloc, s, scratch, rule)? {
            return Ok(Some(n));
        }
    }
    Ok(None)
}

/// The number of the first rule that the heap which the structure stands for doesn't meet; none where it
/// meets all. Rules are numbered from 0: those of `properties` first, which are the program's as
/// `property_rules` gives them, then the declared ones. The scratch is given back as it was.
pub fn first_unmet(
    alloc: Global,
    program: &Program,
    properties: &Rules,
    s: &Structure,
    scratch: &mut Scratch,
) -> Result<Option<u32>, AllocError>
    requires properties { map rule_of properties.now
        ≡ rules_of_properties 0 (map pred_of program.now.vocab.preds) }
    requires ready { IsReadyToEvaluate (program_of program.now) s.now scratch.old }
    ensures first { IfOk result (IsFirstUnmet (heap_of s.now) (judged_rules (program_of program.now))) }
    ensures scratch { scratch.new ≡ scratch.old }
{
    if let Some(n) = first_of(alloc, s, scratch, properties.as_slice())? {
        return Ok(Some(n as u32));
    }
    match first_of(alloc, s, scratch, program.rules.as_slice())? {
        None => Ok(None),
        Some(n) => Ok(Some((properties.len() + n) as u32)),
    }
}
