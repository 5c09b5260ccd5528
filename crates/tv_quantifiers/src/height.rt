//! How high the formulas of a program are.

ghost use Rattle.std.specs.Prelude.{◌≡◌, min, max};
ghost use Rattle.std.specs.List.{fold};
ghost use Rattle.tv_model.specs.Form.{form_of, height};
ghost use Rattle.tv_model.specs.Program.{action_of, kind_of, pre_of, retain_of, change_of, program_of};
ghost use Rattle.tv_quantifiers.specs.Heights.{kind_height, change_height, pre_height, retain_height};
ghost use Rattle.tv_quantifiers.specs.Heights.{action_height, program_height};

use tv_model::{
    Action, Change, Formula, Kind, Message, Pred, Program, Retain, Rule, Update, depth,
};

/// The height of the highest formula of the program, 0 where it has none; a height past `usize::MAX`
/// counts as that.
pub fn program_height(program: &Program) -> usize
    ensures { result ≡ min (program_height (program_of program.now)) usize.MAX }
{
    in_preds(program.vocab.preds.as_slice()).max(in_rules(program.rules.as_slice()).max(in_actions(
        program.actions.as_slice(),
    )))
}

fn in_preds(preds: &[Pred]) -> usize
    ensures { result ≡ fold (λ n pred. max n (min (kind_height (kind_of pred.kind)) usize.MAX)) 0 preds.now }
{
    preds.iter().fold(0, |n, pred| n.max(in_kind(&pred.kind)))
}

fn in_kind(kind: &Kind) -> usize
    ensures { result ≡ min (kind_height (kind_of kind.now)) usize.MAX }
{
    match kind {
        Kind::Core => 0,
        Kind::Defined { body, .. } => depth(body),
    }
}

fn in_rules(rules: &[Rule]) -> usize
    ensures { result ≡ fold (λ n rule. max n (min (height (form_of rule.body)) usize.MAX)) 0 rules.now }
{
    rules.iter().fold(0, |n, rule| n.max(depth(&rule.body)))
}

fn in_actions(actions: &[Action]) -> usize
    ensures { result
        ≡ fold (λ n action. max n (min (action_height (action_of action)) usize.MAX)) 0 actions.now }
{
    actions.iter().fold(0, |n, action| n.max(in_action(action)))
}

fn in_action(action: &Action) -> usize
    ensures { result ≡ min (action_height (action_of action.now)) usize.MAX }
{
    let focus = in_formulas(action.focus.as_slice());
    let messages = in_messages(action.messages.as_slice());
    let updates = in_updates(action.updates.as_slice());
    in_pre(&action.pre).max(focus.max(messages.max(in_retain(&action.retain).max(updates))))
}

fn in_pre(pre: &Option<Formula>) -> usize
    ensures { result ≡ min (pre_height (pre_of pre.now)) usize.MAX }
{
    match pre {
        None => 0,
        Some(f) => depth(f),
    }
}

fn in_retain(retain: &Option<Retain>) -> usize
    ensures { result ≡ min (retain_height (retain_of retain.now)) usize.MAX }
{
    match retain {
        None => 0,
        Some(r) => depth(&r.keep),
    }
}

fn in_formulas(formulas: &[Formula]) -> usize
    ensures { result ≡ fold (λ n f. max n (min (height (form_of f)) usize.MAX)) 0 formulas.now }
{
    formulas.iter().fold(0, |n, f| n.max(depth(f)))
}

fn in_messages(messages: &[Message]) -> usize
    ensures { result ≡ fold (λ n m. max n (min (height (form_of m.cond)) usize.MAX)) 0 messages.now }
{
    messages.iter().fold(0, |n, m| n.max(depth(&m.cond)))
}

fn in_updates(updates: &[Update]) -> usize
    ensures { result
        ≡ fold (λ n u. max n (min (change_height (change_of u.change)) usize.MAX)) 0 updates.now }
{
    updates.iter().fold(0, |n, u| n.max(in_change(&u.change)))
}

fn in_change(change: &Change) -> usize
    ensures { result ≡ min (change_height (change_of change.now)) usize.MAX }
{
    match change {
        Change::Free => 0,
        Change::To(f) => depth(f),
    }
}
