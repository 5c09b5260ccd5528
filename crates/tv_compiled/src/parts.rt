//! Predicates, rules and the parts of actions as text, each in a line.

ghost use Rattle.std.specs.Prelude.{◌≡◌, ◌++◌, ◌∷◌, [], OnOk, codes, map, not};
ghost use Rattle.std.specs.List.{flat_map};
ghost use Rattle.tv_model.specs.Form.{form_of, vars_of};
ghost use Rattle.tv_model.specs.Program.{head_of, kind_of, message_of, pre_of, pred_of, retain_of};
ghost use Rattle.tv_model.specs.Program.{rule_of, update_of, KCore, KDefined};
ghost use Rattle.tv_formula_text.specs.Formulas.{form_text};
ghost use Rattle.tv_compiled.specs.Parts.{flag_text, props_text, first_variables, kind_text, pred_text};
ghost use Rattle.tv_compiled.specs.Parts.{head_text, rule_text, part_text, pre_text, retain_text, more_text};
ghost use Rattle.tv_compiled.specs.Parts.{focus_text, message_text, update_text, updates_text};

use std::alloc::AllocError;
use tv_formula_text::{append_atom, append_entry, append_equality, append_formula, append_terms};
use tv_model::{Formula, Head, Kind, Message, Pred, Props, Retain, Rule, Terms, Update, Var};

/// Appends the word where the flag is true.
pub fn append_flag(out: &mut Vec<u8>, flag: bool, word: &[u8]) -> Result<(), AllocError>
    ensures { OnOk result (out.new.items ≡ out.old.items ++ flag_text flag word.now) }
{
    if flag {
        out.extend_from_slice(word)
    } else {
        Ok(())
    }
}

fn append_properties(out: &mut Vec<u8>, props: &Props) -> Result<(), AllocError>
    ensures { OnOk result (out.new.items ≡ out.old.items ++ props_text props.now) }
{
    append_flag(out, props.unique, b" unique")?;
    append_flag(out, props.function, b" function")?;
    append_flag(out, props.invfunction, b" invfunction")?;
    append_flag(out, props.transitive, b" transitive")?;
    append_flag(out, props.reflexive, b" reflexive")?;
    append_flag(out, props.symmetric, b" symmetric")
}

/// The first variables, as many as the arity.
fn first_variables(arity: u8) -> Terms
    ensures { vars_of result ≡ first_variables arity }
{
    match arity {
        0 => Terms::Zero,
        1 => Terms::One(Var(0)),
        _ => Terms::Two(Var(0), Var(1)),
    }
}

fn append_core(out: &mut Vec<u8>, pred: &Pred) -> Result<(), AllocError>
    ensures { OnOk result (out.new.items ≡ out.old.items ++ kind_text [] pred.now.name pred.now.arity KCore) }
{
    out.extend_from_slice(b"%p ")?;
    out.extend_from_slice(pred.name.as_slice())?;
    append_terms(out, first_variables(pred.arity))
}

fn append_definition(
    out: &mut Vec<u8>,
    preds: &[Pred],
    name: &[u8],
    vars: Terms,
    body: &Formula,
) -> Result<(), AllocError>
    ensures { OnOk result (out.new.items ≡ out.old.items ++ kind_text (map pred_of preds.now) name.now 0
        (KDefined (vars_of vars) (form_of body.now))) }
{
    out.extend_from_slice(b"%i ")?;
    out.extend_from_slice(name)?;
    append_terms(out, vars)?;
    out.extend_from_slice(b" = ")?;
    append_formula(out, preds, body)
}

fn append_kind(out: &mut Vec<u8>, preds: &[Pred], pred: &Pred) -> Result<(), AllocError>
    ensures { OnOk result (out.new.items ≡ out.old.items ++ kind_text
        (map pred_of preds.now) pred.now.name pred.now.arity (kind_of pred.now.kind)) }
{
    match &pred.kind {
        Kind::Core => append_core(out, pred),
        Kind::Defined { vars, body } => {
            append_definition(out, preds, pred.name.as_slice(), *vars, body)
        }
    }
}

/// Appends the declaration of a predicate.
pub fn append_pred(out: &mut Vec<u8>, preds: &[Pred], pred: &Pred) -> Result<(), AllocError>
    ensures { OnOk result
        (out.new.items ≡ out.old.items ++ pred_text (map pred_of preds.now) (pred_of pred.now)) }
{
    append_kind(out, preds, pred)?;
    append_properties(out, &pred.props)?;
    append_flag(out, !pred.abs, b" nonabs")?;
    out.extend_from_slice(b"\n")
}

fn append_head(out: &mut Vec<u8>, preds: &[Pred], head: &Head) -> Result<(), AllocError>
    ensures { OnOk result
        (out.new.items ≡ out.old.items ++ head_text (map pred_of preds.now) (head_of head.now)) }
{
    match head {
        Head::Never => out.extend_from_slice(b"0"),
        Head::Atom(flag, p, terms) => {
            append_flag(out, !*flag, b"!")?;
            append_atom(out, preds, *p, b"", *terms)
        }
        Head::Same(flag, v, w) => {
            let mark: &[u8] = if *flag { b" == " } else { b" != " };
            append_equality(out, *v, mark, *w)
        }
    }
}

/// Appends a rule.
pub fn append_rule(out: &mut Vec<u8>, preds: &[Pred], rule: &Rule) -> Result<(), AllocError>
    ensures { OnOk result
        (out.new.items ≡ out.old.items ++ rule_text (map pred_of preds.now) (rule_of rule.now)) }
{
    out.extend_from_slice(b"%r ")?;
    append_formula(out, preds, &rule.body)?;
    out.extend_from_slice(b" ==> ")?;
    append_head(out, preds, &rule.head)?;
    out.extend_from_slice(b"\n")
}

/// Appends a part of an action that is a formula behind a word.
fn append_part(
    out: &mut Vec<u8>,
    preds: &[Pred],
    word: &[u8],
    f: &Formula,
) -> Result<(), AllocError>
    ensures { OnOk result
        (out.new.items ≡ out.old.items ++ part_text (map pred_of preds.now) word.now (form_of f.now)) }
{
    out.extend_from_slice(word)?;
    append_formula(out, preds, f)?;
    out.extend_from_slice(b"\n")
}

/// Appends a precondition, if there is one.
pub fn append_precondition(
    out: &mut Vec<u8>,
    preds: &[Pred],
    pre: &Option<Formula>,
) -> Result<(), AllocError>
    ensures { OnOk result
        (out.new.items ≡ out.old.items ++ pre_text (map pred_of preds.now) (pre_of pre.now)) }
{
    match pre {
        None => Ok(()),
        Some(f) => append_part(out, preds, b"  %p ", f),
    }
}

/// Appends which individuals stay, if that is said.
pub fn append_retain(
    out: &mut Vec<u8>,
    preds: &[Pred],
    retain: &Option<Retain>,
) -> Result<(), AllocError>
    ensures { OnOk result
        (out.new.items ≡ out.old.items ++ retain_text (map pred_of preds.now) (retain_of retain.now)) }
{
    match retain {
        None => Ok(()),
        Some(retain) => append_part(out, preds, b"  %retain ", &retain.keep),
    }
}

#[tactic(auto, using(crate::proofs::Turns::more_step, crate::proofs::Turns::more_done))]
fn append_more(out: &mut Vec<u8>, preds: &[Pred], focus: &[Formula]) -> Result<(), AllocError>
    ensures { OnOk result
        (out.new.items ≡ out.old.items ++ more_text (map pred_of preds.now) (map form_of focus.now)) }
{
    for f in focus {
        out.extend_from_slice(b", ")?;
        append_formula(out, preds, f)?;
    }
    Ok(())
}

/// Appends the focus formulas, if there are any.
pub fn append_focus(out: &mut Vec<u8>, preds: &[Pred], focus: &[Formula]) -> Result<(), AllocError>
    ensures { OnOk result
        (out.new.items ≡ out.old.items ++ focus_text (map pred_of preds.now) (map form_of focus.now)) }
{
    let Some((first, more)) = focus.split_first() else {
        return Ok(());
    };
    out.extend_from_slice(b"  %f { ")?;
    append_formula(out, preds, first)?;
    append_more(out, preds, more)?;
    out.extend_from_slice(b" }\n")
}

fn append_message(out: &mut Vec<u8>, preds: &[Pred], message: &Message) -> Result<(), AllocError>
    ensures { OnOk result
        (out.new.items ≡ out.old.items ++ message_text (map pred_of preds.now) (message_of message.now)) }
{
    out.extend_from_slice(b"  %message ")?;
    append_formula(out, preds, &message.cond)?;
    out.extend_from_slice(b" -> \"")?;
    out.extend_from_slice(message.text.as_slice())?;
    out.extend_from_slice(b"\"\n")
}

/// Appends the messages.
#[tactic(auto, using(crate::proofs::Turns::messages_step, crate::proofs::Turns::messages_done))]
pub fn append_messages(
    out: &mut Vec<u8>,
    preds: &[Pred],
    messages: &[Message],
) -> Result<(), AllocError>
    ensures { OnOk result (out.new.items
        ≡ out.old.items ++ flat_map (message_text (map pred_of preds.now)) (map message_of messages.now)) }
{
    for message in messages {
        append_message(out, preds, message)?;
    }
    Ok(())
}

fn append_update(out: &mut Vec<u8>, preds: &[Pred], update: &Update) -> Result<(), AllocError>
    ensures { OnOk result
        (out.new.items ≡ out.old.items ++ update_text (map pred_of preds.now) (update_of update.now)) }
{
    out.extend_from_slice(b"    ")?;
    append_entry(out, preds, update)?;
    out.extend_from_slice(b"\n")
}

#[tactic(auto, using(crate::proofs::Turns::updates_step, crate::proofs::Turns::updates_done))]
fn append_each_update(
    out: &mut Vec<u8>,
    preds: &[Pred],
    updates: &[Update],
) -> Result<(), AllocError>
    ensures { OnOk result (out.new.items
        ≡ out.old.items ++ flat_map (update_text (map pred_of preds.now)) (map update_of updates.now)) }
{
    for update in updates {
        append_update(out, preds, update)?;
    }
    Ok(())
}

/// Appends the block of updates, if there are any.
pub fn append_updates(
    out: &mut Vec<u8>,
    preds: &[Pred],
    updates: &[Update],
) -> Result<(), AllocError>
    ensures { OnOk result
        (out.new.items ≡ out.old.items ++ updates_text (map pred_of preds.now) (map update_of updates.now)) }
{
    if updates.is_empty() {
        return Ok(());
    }
    out.extend_from_slice(b"  {\n")?;
    append_each_update(out, preds, updates)?;
    out.extend_from_slice(b"  }\n")
}
