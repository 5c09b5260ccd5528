//! Whether two programs are the same.

ghost use Rattle.std.specs.Prelude.{◌≡◌, ◌↔◌, map, IsTrue};
ghost use Rattle.tv_model.specs.Form.{form_of, vars_of};
ghost use Rattle.tv_model.specs.Program.{action_of, change_of, head_of, kind_of, message_of, pre_of, pred_of};
ghost use Rattle.tv_model.specs.Program.{picks_of, program_of, retain_of, rule_of, update_of};

use tv_model::{
    Action, Bytes, Change, Edge, Formula, Head, Kind, Message, Pred, Program, Props, Retain, Rule,
    Terms, Update, Var,
};

fn is_same_terms(ts: &Terms, us: &Terms) -> bool
    ensures { IsTrue result ↔ (vars_of ts.now ≡ vars_of us.now) }
{
    match (ts, us) {
        (Terms::Zero, Terms::Zero) => true,
        (Terms::One(v), Terms::One(w)) => v.0 == w.0,
        (Terms::Two(v, x), Terms::Two(w, y)) => v.0 == w.0 && x.0 == y.0,
        _ => false,
    }
}

fn is_same_formula(f: &Formula, g: &Formula) -> bool
    ensures { IsTrue result ↔ (form_of f.now ≡ form_of g.now) }
{
    match (f, g) {
        (Formula::Zero, Formula::Zero) | (Formula::One, Formula::One) => true,
        (Formula::Atom(p, ts), Formula::Atom(q, us)) => p.0 == q.0 && is_same_terms(ts, us),
        (Formula::IsNew(v), Formula::IsNew(w)) => v.0 == w.0,
        (Formula::Same(v, w), Formula::Same(x, y)) => v.0 == x.0 && w.0 == y.0,
        (Formula::Not(a), Formula::Not(b)) => is_same_formula(a, b),
        (Formula::And(a, b), Formula::And(c, d))
        | (Formula::Or(a, b), Formula::Or(c, d))
        | (Formula::Iff(a, b), Formula::Iff(c, d)) => {
            is_same_formula(a, c) && is_same_formula(b, d)
        }
        (Formula::Cond(a, b, c), Formula::Cond(d, e, g)) => {
            is_same_formula(a, d) && is_same_formula(b, e) && is_same_formula(c, g)
        }
        (Formula::Exists(v, a), Formula::Exists(w, b))
        | (Formula::Forall(v, a), Formula::Forall(w, b)) => v.0 == w.0 && is_same_formula(a, b),
        (
            Formula::Closure {
                from: a,
                to: b,
                left: c,
                right: d,
                body: g,
            },
            Formula::Closure {
                from: v,
                to: w,
                left: x,
                right: y,
                body: h,
            },
        ) => a.0 == v.0 && b.0 == w.0 && c.0 == x.0 && d.0 == y.0 && is_same_formula(g, h),
        _ => false,
    }
}

fn is_same_kind(a: &Kind, b: &Kind) -> bool
    ensures { IsTrue result ↔ (kind_of a.now ≡ kind_of b.now) }
{
    match (a, b) {
        (Kind::Core, Kind::Core) => true,
        (Kind::Defined { vars: v, body: f }, Kind::Defined { vars: w, body: g }) => {
            is_same_terms(v, w) && is_same_formula(f, g)
        }
        _ => false,
    }
}

fn is_same_props(a: &Props, b: &Props) -> bool
    ensures { IsTrue result ↔ (a.now ≡ b.now) }
{
    a.unique == b.unique
        && a.function == b.function
        && a.invfunction == b.invfunction
        && a.transitive == b.transitive
        && a.reflexive == b.reflexive
        && a.symmetric == b.symmetric
}

fn is_same_pred(a: &Pred, b: &Pred) -> bool
    ensures { IsTrue result ↔ (pred_of a.now ≡ pred_of b.now) }
{
    a.name == b.name
        && a.arity == b.arity
        && is_same_kind(&a.kind, &b.kind)
        && a.abs == b.abs
        && is_same_props(&a.props, &b.props)
}

fn is_same_head(a: &Head, b: &Head) -> bool
    ensures { IsTrue result ↔ (head_of a.now ≡ head_of b.now) }
{
    match (a, b) {
        (Head::Never, Head::Never) => true,
        (Head::Atom(flag, p, ts), Head::Atom(other, q, us)) => {
            flag == other && p.0 == q.0 && is_same_terms(ts, us)
        }
        (Head::Same(flag, v, w), Head::Same(other, x, y)) => {
            flag == other && v.0 == x.0 && w.0 == y.0
        }
        _ => false,
    }
}

fn is_same_rule(a: &Rule, b: &Rule) -> bool
    ensures { IsTrue result ↔ (rule_of a.now ≡ rule_of b.now) }
{
    is_same_formula(&a.body, &b.body) && is_same_head(&a.head, &b.head)
}

fn is_same_change(a: &Change, b: &Change) -> bool
    ensures { IsTrue result ↔ (change_of a.now ≡ change_of b.now) }
{
    match (a, b) {
        (Change::Free, Change::Free) => true,
        (Change::To(f), Change::To(g)) => is_same_formula(f, g),
        _ => false,
    }
}

fn is_same_update(a: &Update, b: &Update) -> bool
    ensures { IsTrue result ↔ (update_of a.now ≡ update_of b.now) }
{
    a.pred.0 == b.pred.0 && is_same_terms(&a.vars, &b.vars) && is_same_change(&a.change, &b.change)
}

fn is_same_precondition(a: &Option<Formula>, b: &Option<Formula>) -> bool
    ensures { IsTrue result ↔ (pre_of a.now ≡ pre_of b.now) }
{
    match (a, b) {
        (None, None) => true,
        (Some(f), Some(g)) => is_same_formula(f, g),
        _ => false,
    }
}

fn is_same_retain(a: &Option<Retain>, b: &Option<Retain>) -> bool
    ensures { IsTrue result ↔ (retain_of a.now ≡ retain_of b.now) }
{
    match (a, b) {
        (None, None) => true,
        (Some(r), Some(s)) => r.var.0 == s.var.0 && is_same_formula(&r.keep, &s.keep),
        _ => false,
    }
}

fn is_same_message(a: &Message, b: &Message) -> bool
    ensures { IsTrue result ↔ (message_of a.now ≡ message_of b.now) }
{
    a.text == b.text && is_same_formula(&a.cond, &b.cond)
}

fn are_same_picks(a: &[Var], b: &[Var]) -> bool
    ensures { IsTrue result ↔ (picks_of a.now ≡ picks_of b.now) }
{
    match (a, b) {
        ([], []) => true,
        ([v, vs @ ..], [w, ws @ ..]) => v.0 == w.0 && are_same_picks(vs, ws),
        _ => false,
    }
}

fn are_same_formulas(a: &[Formula], b: &[Formula]) -> bool
    ensures { IsTrue result ↔ (map form_of a.now ≡ map form_of b.now) }
{
    if a.len() != b.len() {
        return false;
    }
    for i in 0..a.len() {
        if !is_same_formula(&a[i], &b[i]) {
            return false;
        }
    }
    true
}

fn are_same_messages(a: &[Message], b: &[Message]) -> bool
    ensures { IsTrue result ↔ (map message_of a.now ≡ map message_of b.now) }
{
    if a.len() != b.len() {
        return false;
    }
    for i in 0..a.len() {
        if !is_same_message(&a[i], &b[i]) {
            return false;
        }
    }
    true
}

fn are_same_updates(a: &[Update], b: &[Update]) -> bool
    ensures { IsTrue result ↔ (map update_of a.now ≡ map update_of b.now) }
{
    if a.len() != b.len() {
        return false;
    }
    for i in 0..a.len() {
        if !is_same_update(&a[i], &b[i]) {
            return false;
        }
    }
    true
}

fn is_same_action(a: &Action, b: &Action) -> bool
    ensures { IsTrue result ↔ (action_of a.now ≡ action_of b.now) }
{
    is_same_precondition(&a.pre, &b.pre)
        && are_same_picks(a.picks.as_slice(), b.picks.as_slice())
        && are_same_formulas(a.focus.as_slice(), b.focus.as_slice())
        && are_same_messages(a.messages.as_slice(), b.messages.as_slice())
        && a.fresh == b.fresh
        && is_same_retain(&a.retain, &b.retain)
        && are_same_updates(a.updates.as_slice(), b.updates.as_slice())
}

fn are_same_actions(a: &[Action], b: &[Action]) -> bool
    ensures { IsTrue result ↔ (map action_of a.now ≡ map action_of b.now) }
{
    if a.len() != b.len() {
        return false;
    }
    for i in 0..a.len() {
        if !is_same_action(&a[i], &b[i]) {
            return false;
        }
    }
    true
}

fn are_same_preds(a: &[Pred], b: &[Pred]) -> bool
    ensures { IsTrue result ↔ (map pred_of a.now ≡ map pred_of b.now) }
{
    if a.len() != b.len() {
        return false;
    }
    for i in 0..a.len() {
        if !is_same_pred(&a[i], &b[i]) {
            return false;
        }
    }
    true
}

fn are_same_rules(a: &[Rule], b: &[Rule]) -> bool
    ensures { IsTrue result ↔ (map rule_of a.now ≡ map rule_of b.now) }
{
    if a.len() != b.len() {
        return false;
    }
    for i in 0..a.len() {
        if !is_same_rule(&a[i], &b[i]) {
            return false;
        }
    }
    true
}

fn is_same_edge(a: &Edge, b: &Edge) -> bool
    ensures { IsTrue result ↔ (a.now ≡ b.now) }
{
    a.from == b.from && a.action == b.action && a.to == b.to
}

fn are_same_edges(a: &[Edge], b: &[Edge]) -> bool
    ensures { IsTrue result ↔ (a.now ≡ b.now) }
{
    if a.len() != b.len() {
        return false;
    }
    for i in 0..a.len() {
        if !is_same_edge(&a[i], &b[i]) {
            return false;
        }
    }
    true
}

fn is_same_name(a: &Bytes, b: &Bytes) -> bool
    ensures { IsTrue result ↔ (a.now ≡ b.now) }
{
    a == b
}

fn are_same_names(a: &[Bytes], b: &[Bytes]) -> bool
    ensures { IsTrue result ↔ (a.now ≡ b.now) }
{
    if a.len() != b.len() {
        return false;
    }
    for i in 0..a.len() {
        if !is_same_name(&a[i], &b[i]) {
            return false;
        }
    }
    true
}

/// Whether two programs are the same, names and texts too.
pub(crate) fn is_same_program(a: &Program, b: &Program) -> bool
    ensures { IsTrue result ↔ (program_of a.now ≡ program_of b.now) }
{
    are_same_preds(a.vocab.preds.as_slice(), b.vocab.preds.as_slice())
        && are_same_rules(a.rules.as_slice(), b.rules.as_slice())
        && are_same_actions(a.actions.as_slice(), b.actions.as_slice())
        && are_same_edges(a.edges.as_slice(), b.edges.as_slice())
        && are_same_names(a.nodes.as_slice(), b.nodes.as_slice())
}
