//! Programs as short texts.
use std::alloc::Global;
use tv_model::{
    Action, Change, Edge, Formula, Head, Kind, Pred, PredId, Program, Props, Retain, Rule, Terms,
    Update, Var,
};

/// A text that is written from its front to its end. Where memory runs out it is lost, and says so at the
/// end.
#[derive(Drop)]
pub struct Shown {
    alloc: Global,
    bytes: Vec<u8>,
    lost: bool,
}

impl Shown {
    pub fn new(alloc: Global) -> Shown {
        Shown {
            alloc,
            bytes: Vec::new(alloc),
            lost: false,
        }
    }

    /// The text, or `lost`.
    pub fn text(&self) -> &[u8] {
        if self.lost { b"lost" } else { &self.bytes }
    }
}

pub fn put(out: &mut Shown, part: &[u8]) {
    if out.bytes.extend_from_slice(part).is_err() {
        out.lost = true;
    }
}

pub fn put_number(out: &mut Shown, number: u32) {
    match format!(in out.alloc; "{number}") {
        Ok(text) => put(out, text.as_bytes()),
        Err(_) => out.lost = true,
    }
}

fn put_var(out: &mut Shown, var: Var) {
    put_number(out, u32::from(var.0));
}

fn put_pair(out: &mut Shown, left: Var, mark: &[u8], right: Var) {
    put_var(out, left);
    put(out, mark);
    put_var(out, right);
}

/// Variables in parentheses.
fn put_terms(out: &mut Shown, terms: Terms) {
    put(out, b"(");
    match terms {
        Terms::Zero => {}
        Terms::One(var) => put_var(out, var),
        Terms::Two(left, right) => put_pair(out, left, b",", right),
    }
    put(out, b")");
}

fn put_atom(out: &mut Shown, pred: PredId, terms: Terms) {
    put(out, b"P");
    put_number(out, pred.0);
    put_terms(out, terms);
}

fn put_new(out: &mut Shown, var: Var) {
    put(out, b"new");
    put_terms(out, Terms::One(var));
}

fn put_bound(out: &mut Shown, mark: &[u8], var: Var) {
    put(out, mark);
    put_var(out, var);
    put(out, b" ");
}

/// Between which variables a closure goes, and which are its own.
fn put_ends(out: &mut Shown, from: Var, to: Var, left: Var, right: Var) {
    put(out, b"TC");
    put_terms(out, Terms::Two(from, to));
    put_terms(out, Terms::Two(left, right));
}

#[cycle(formula)]
fn put_both(out: &mut Shown, left: &Formula, mark: &[u8], right: &Formula) {
    put(out, b"(");
    put_formula(out, left);
    put(out, mark);
    put_formula(out, right);
    put(out, b")");
}

#[cycle(formula)]
fn put_choice(out: &mut Shown, test: &Formula, yes: &Formula, no: &Formula) {
    put(out, b"(");
    put_formula(out, test);
    put(out, b"?");
    put_formula(out, yes);
    put(out, b":");
    put_formula(out, no);
    put(out, b")");
}

#[cycle(formula)]
fn put_negated(out: &mut Shown, body: &Formula) {
    put(out, b"!");
    put_formula(out, body);
}

#[cycle(formula)]
fn put_quantified(out: &mut Shown, mark: &[u8], var: Var, body: &Formula) {
    put_bound(out, mark, var);
    put_formula(out, body);
}

#[cycle(formula)]
fn put_closure(out: &mut Shown, from: Var, to: Var, left: Var, right: Var, body: &Formula) {
    put_ends(out, from, to, left, right);
    put_formula(out, body);
}

/// A formula: `P2(0,1)` is the predicate of number 2, and variables are numbers.
#[cycle(formula)]
pub fn put_formula(out: &mut Shown, formula: &Formula) {
    match formula {
        Formula::Zero => put(out, b"0"),
        Formula::One => put(out, b"1"),
        Formula::Atom(pred, terms) => put_atom(out, *pred, *terms),
        Formula::IsNew(var) => put_new(out, *var),
        Formula::Same(left, right) => put_pair(out, *left, b"=", *right),
        Formula::Not(body) => put_negated(out, body),
        Formula::And(left, right) => put_both(out, left, b"&", right),
        Formula::Or(left, right) => put_both(out, left, b"|", right),
        Formula::Iff(left, right) => put_both(out, left, b"~", right),
        Formula::Cond(test, yes, no) => put_choice(out, test, yes, no),
        Formula::Exists(var, body) => put_quantified(out, b"E", *var, body),
        Formula::Forall(var, body) => put_quantified(out, b"A", *var, body),
        Formula::Closure {
            from,
            to,
            left,
            right,
            body,
        } => put_closure(out, *from, *to, *left, *right, body),
    }
}

fn put_if(out: &mut Shown, stands: bool, part: &[u8]) {
    if stands {
        put(out, part);
    }
}

/// A letter for each property.
fn put_props(out: &mut Shown, props: Props) {
    put_if(out, props.unique, b"U");
    put_if(out, props.function, b"F");
    put_if(out, props.invfunction, b"I");
    put_if(out, props.transitive, b"T");
    put_if(out, props.reflexive, b"R");
    put_if(out, props.symmetric, b"S");
}

fn put_kind(out: &mut Shown, kind: &Kind) {
    if let Kind::Defined { vars, body } = kind {
        put_terms(out, *vars);
        put(out, b"=");
        put_formula(out, body);
    }
}

/// A predicate: `x/1` and its properties, `-` where it isn't one of abstraction, its definition.
fn put_pred(out: &mut Shown, pred: &Pred) {
    put(out, pred.name.as_slice());
    put(out, b"/");
    put_number(out, u32::from(pred.arity));
    put_props(out, pred.props);
    put_if(out, !pred.abs, b"-");
    put_kind(out, &pred.kind);
    put(out, b";");
}

pub fn put_preds(out: &mut Shown, program: &Program) {
    for pred in program.vocab.preds.as_slice() {
        put_pred(out, pred);
    }
}

fn put_head(out: &mut Shown, head: Head) {
    match head {
        Head::Never => put(out, b"0"),
        Head::Atom(stands, pred, terms) => {
            put_if(out, !stands, b"!");
            put_atom(out, pred, terms);
        }
        Head::Same(stands, left, right) => {
            put_if(out, !stands, b"!");
            put_pair(out, left, b"=", right);
        }
    }
}

fn put_rule(out: &mut Shown, rule: &Rule) {
    put_formula(out, &rule.body);
    put(out, b"==>");
    put_head(out, rule.head);
    put(out, b";");
}

pub fn put_rules(out: &mut Shown, program: &Program) {
    for rule in program.rules.as_slice() {
        put_rule(out, rule);
    }
}

fn put_update(out: &mut Shown, update: &Update) {
    put_atom(out, update.pred, update.vars);
    put(out, b"=");
    match &update.change {
        Change::Free => put(out, b"*"),
        Change::To(formula) => put_formula(out, formula),
    }
    put(out, b";");
}

fn put_retain(out: &mut Shown, retain: &Retain) {
    put(out, b"keep");
    put_terms(out, Terms::One(retain.var));
    put_formula(out, &retain.keep);
    put(out, b";");
}

/// The precondition, and the picked variables.
fn put_pre(out: &mut Shown, action: &Action) {
    if let Some(pre) = &action.pre {
        put(out, b"pre ");
        put_formula(out, pre);
        put(out, b";");
    }
    for var in action.picks.as_slice() {
        put_bound(out, b"pick", *var);
    }
}

fn put_focus(out: &mut Shown, action: &Action) {
    for formula in action.focus.as_slice() {
        put(out, b"focus ");
        put_formula(out, formula);
        put(out, b";");
    }
}

fn put_messages(out: &mut Shown, action: &Action) {
    for message in action.messages.as_slice() {
        put(out, b"say ");
        put_formula(out, &message.cond);
        put(out, b" ");
        put(out, message.text.as_slice());
        put(out, b";");
    }
}

fn put_updates(out: &mut Shown, action: &Action) {
    for update in action.updates.as_slice() {
        put_update(out, update);
    }
}

fn put_action(out: &mut Shown, action: &Action) {
    put(out, b"{");
    put_focus(out, action);
    put_pre(out, action);
    put_messages(out, action);
    put_if(out, action.fresh, b"new;");
    if let Some(retain) = &action.retain {
        put_retain(out, retain);
    }
    put_updates(out, action);
    put(out, b"}");
}

pub fn put_actions(out: &mut Shown, program: &Program) {
    for action in program.actions.as_slice() {
        put_action(out, action);
    }
}

fn put_edge(out: &mut Shown, edge: Edge) {
    put_number(out, edge.from);
    put(out, b">");
    put_number(out, edge.action);
    put(out, b">");
    put_number(out, edge.to);
    put(out, b";");
}

pub fn put_graph(out: &mut Shown, program: &Program) {
    for node in program.nodes.as_slice() {
        put(out, node.as_slice());
        put(out, b";");
    }
    for edge in program.edges.as_slice() {
        put_edge(out, *edge);
    }
}

/// How many predicates, rules, actions, edges and nodes there are, up to 100,000 each.
pub fn put_sizes(out: &mut Shown, program: &Program) {
    let sizes = [
        program.vocab.preds.len(),
        program.rules.len(),
        program.actions.len(),
        program.edges.len(),
        program.nodes.len(),
    ];
    for size in sizes {
        put_number(out, size.min(100_000) as u32);
        put(out, b";");
    }
}
