//! The lines of a printed program.

ghost use Rattle.std.specs.Prelude.{◌≡◌, ◌++◌, ◌∷◌, [], OnOk, IfOk, map, codes};
ghost use Rattle.std.specs.List.{flat_map};
ghost use Rattle.tv_tree.specs.Forms.{PredForm};
ghost use Rattle.tv_tree.specs.Copies.{name_of, set_of, form_of, pred_of_body, pred_of, decl_of, decls_of};
ghost use Rattle.tv_tree.specs.Copies.{piece_of, single_of, update_of, updates_of, part_of, action_of};
ghost use Rattle.tv_tree.specs.Copies.{edge_of, program_of};
ghost use Rattle.tv_tree.specs.Printed.{spaced, text_of_lines, lone, more_tokens, body_tokens, prop_token};
ghost use Rattle.tv_tree.specs.Printed.{pred_directive, pred_tokens, set_decl_tokens, rule_tokens};
ghost use Rattle.tv_tree.specs.Printed.{foreach_tokens, nest_lines, nests_lines, decl_tokens, formula_tokens};
ghost use Rattle.tv_tree.specs.Printed.{joined_tokens, piece_tokens, pieces_tokens, update_tokens};
ghost use Rattle.tv_tree.specs.Printed.{part_lines, action_tokens, action_lines, edge_tokens, edge_lines};
ghost use Rattle.tv_tree.specs.Printed.{tail_words, tail_lines, program_text};

use crate::print::{
    end_line, print_formula, print_name, print_params, print_set, print_token, print_words,
};
use crate::trees::{
    ActionTree, Decl, Decls, EdgeTree, FormulaTree, Name, Part, Piece, PredDecl, PropWord, SetTree,
    Spelling, Spellings, Tree, UpdateTree, UpdateTrees,
};
use std::alloc::{AllocError, Global};

#[tactic(auto, using(crate::proofs::Texts::line_done))]
fn print_lone(out: &mut Vec<u8>, mark: &[u8]) -> Result<(), AllocError>
    ensures { OnOk result (out.new.items ≡ out.old.items ++ text_of_lines (lone mark.now)) }
{
    print_token(out, mark)?;
    end_line(out)
}

fn prop_text(prop: PropWord) -> &'static [u8]
    ensures { result.now ≡ prop_token prop }
{
    match prop {
        PropWord::Unique => b"unique",
        PropWord::Function => b"function",
        PropWord::Invfunction => b"invfunction",
        PropWord::Abs => b"abs",
        PropWord::Nonabs => b"nonabs",
        PropWord::Transitive => b"transitive",
        PropWord::Reflexive => b"reflexive",
        PropWord::Symmetric => b"symmetric",
        PropWord::Boxed => b"box",
        PropWord::Pointer => b"pointer",
    }
}

#[tactic(auto, using(crate::proofs::Texts::props_step, crate::proofs::Texts::props_done))]
fn print_props(out: &mut Vec<u8>, props: &[PropWord]) -> Result<(), AllocError>
    ensures { OnOk result (out.new.items ≡ out.old.items ++ spaced (map prop_token props.now)) }
{
    for prop in props {
        print_token(out, prop_text(*prop))?;
    }
    Ok(())
}

#[tactic(auto, using(crate::proofs::Texts::spaced_push, crate::proofs::Texts::spaced_none))]
fn print_body(out: &mut Vec<u8>, body: &Option<FormulaTree>) -> Result<(), AllocError>
    ensures { OnOk result (out.new.items ≡ out.old.items ++ spaced (body_tokens (pred_of_body body.now))) }
{
    match body {
        None => Ok(()),
        Some(formula) => {
            print_token(out, b"=")?;
            print_formula(out, formula)
        }
    }
}

fn pred_directive_text(body: &Option<FormulaTree>) -> &'static [u8]
    ensures { result.now ≡ pred_directive (pred_of_body body.now) }
{
    match body {
        None => b"%p",
        Some(_) => b"%i",
    }
}

#[tactic(auto, using(crate::proofs::Texts::spaced_push))]
fn print_pred(out: &mut Vec<u8>, decl: &PredDecl) -> Result<(), AllocError>
    ensures { OnOk result (out.new.items ≡ out.old.items ++ spaced (pred_tokens (pred_of decl.now))) }
{
    print_token(out, pred_directive_text(&decl.body))?;
    print_name(out, &decl.name)?;
    print_params(out, decl.params.as_slice())?;
    print_body(out, &decl.body)?;
    print_props(out, decl.props.as_slice())
}

#[tactic(auto, using(crate::proofs::Texts::spaced_push))]
fn print_set_decl(out: &mut Vec<u8>, name: &Spelling, members: &SetTree) -> Result<(), AllocError>
    ensures { OnOk result
        (out.new.items ≡ out.old.items ++ spaced (set_decl_tokens name.now (set_of members.now))) }
{
    print_token(out, b"%s")?;
    print_token(out, &name.0)?;
    print_set(out, members)
}

#[tactic(auto, using(crate::proofs::Texts::spaced_push, crate::proofs::Texts::spaced_between))]
fn print_rule(out: &mut Vec<u8>, body: &FormulaTree, head: &FormulaTree) -> Result<(), AllocError>
    ensures { OnOk result
        (out.new.items ≡ out.old.items ++ spaced (rule_tokens (form_of body.now) (form_of head.now))) }
{
    print_token(out, b"%r")?;
    print_formula(out, body)?;
    print_token(out, b"==>")?;
    print_formula(out, head)
}

// The line from `foreach` to its brace.
#[tactic(auto, using(crate::proofs::Texts::spaced_push, crate::proofs::Texts::spaced_between))]
fn print_foreach(out: &mut Vec<u8>, var: &Spelling, members: &SetTree) -> Result<(), AllocError>
    ensures { OnOk result
        (out.new.items ≡ out.old.items ++ spaced (foreach_tokens var.now (set_of members.now))) }
{
    print_token(out, b"foreach")?;
    print_token(out, b"(")?;
    print_token(out, &var.0)?;
    print_token(out, b"in")?;
    print_set(out, members)?;
    print_token(out, b")")?;
    print_token(out, b"{")
}

#[cycle(decl)]
#[tactic(auto, using(crate::proofs::Texts::line_done, crate::proofs::Texts::lines_push, crate::proofs::Unfolds::decl_of_set, crate::proofs::Unfolds::decl_of_pred, crate::proofs::Unfolds::decl_of_rule, crate::proofs::Unfolds::decl_of_foreach))]
fn print_decl(out: &mut Vec<u8>, decl: &Decl) -> Result<(), AllocError>
    ensures { OnOk result
        (out.new.items ≡ out.old.items ++ text_of_lines (nest_lines decl_tokens (decl_of decl.now))) }
{
    match decl {
        Decl::SetDecl { name, members } => {
            print_set_decl(out, name, members)?;
            end_line(out)
        }
        Decl::Pred(pred) => {
            print_pred(out, pred)?;
            end_line(out)
        }
        Decl::Rule(rule) => {
            print_rule(out, &rule.body, &rule.head)?;
            end_line(out)
        }
        Decl::Foreach { var, members, body } => {
            print_foreach(out, var, members)?;
            end_line(out)?;
            print_decls(out, body)?;
            print_lone(out, b"}")
        }
    }
}

#[cycle(decl)]
#[tactic(auto, using(crate::proofs::Texts::decl_step_lines, crate::proofs::Texts::decl_lines_done, crate::proofs::Unfolds::decls_of_items))]
fn print_decls(out: &mut Vec<u8>, decls: &Decls) -> Result<(), AllocError>
    ensures { OnOk result
        (out.new.items ≡ out.old.items ++ text_of_lines (nests_lines decl_tokens (decls_of decls.now))) }
{
    for decl in &decls.items {
        print_decl(out, decl)?;
    }
    Ok(())
}

#[tactic(auto, using(crate::proofs::Texts::quoted_done))]
fn print_quoted(out: &mut Vec<u8>, text: &[u8]) -> Result<(), AllocError>
    ensures { OnOk result
        (out.new.items ≡ out.old.items ++ spaced ((codes "\"" ++ text.now ++ codes "\"") ∷ [])) }
{
    out.push(b'"')?;
    out.extend_from_slice(text)?;
    print_token(out, b"\"")
}

fn print_piece(out: &mut Vec<u8>, piece: &Piece) -> Result<(), AllocError>
    ensures { OnOk result (out.new.items ≡ out.old.items ++ spaced (piece_tokens (piece_of piece.now))) }
{
    match piece {
        Piece::Text(text) => print_quoted(out, &text.0),
        Piece::Named(name) => print_token(out, &name.0),
    }
}

#[tactic(auto, using(crate::proofs::Texts::pieces_step, crate::proofs::Texts::pieces_done))]
fn print_more_pieces(out: &mut Vec<u8>, pieces: &[Piece]) -> Result<(), AllocError>
    ensures { OnOk result (out.new.items
        ≡ out.old.items ++ spaced (more_tokens (codes "+") piece_tokens (map piece_of pieces.now))) }
{
    for piece in pieces {
        print_token(out, b"+")?;
        print_piece(out, piece)?;
    }
    Ok(())
}

#[tactic(auto, using(crate::proofs::Texts::spaced_push, crate::proofs::Texts::pieces_none))]
fn print_pieces(out: &mut Vec<u8>, pieces: &[Piece]) -> Result<(), AllocError>
    ensures { OnOk result
        (out.new.items ≡ out.old.items ++ spaced (pieces_tokens (map piece_of pieces.now))) }
{
    if let Some((first, more)) = pieces.split_first() {
        print_piece(out, first)?;
        print_more_pieces(out, more)?;
    }
    Ok(())
}

#[tactic(auto, using(crate::proofs::Texts::formulas_step, crate::proofs::Texts::formulas_done))]
fn print_more_formulas(out: &mut Vec<u8>, formulas: &[FormulaTree]) -> Result<(), AllocError>
    ensures { OnOk result (out.new.items
        ≡ out.old.items ++ spaced (more_tokens (codes ",") formula_tokens (map form_of formulas.now))) }
{
    for formula in formulas {
        print_token(out, b",")?;
        print_formula(out, formula)?;
    }
    Ok(())
}

#[tactic(auto, using(crate::proofs::Texts::spaced_push, crate::proofs::Texts::formulas_none))]
fn print_formulas(out: &mut Vec<u8>, formulas: &[FormulaTree]) -> Result<(), AllocError>
    ensures { OnOk result (out.new.items
        ≡ out.old.items ++ spaced (joined_tokens (codes ",") formula_tokens (map form_of formulas.now))) }
{
    if let Some((first, more)) = formulas.split_first() {
        print_formula(out, first)?;
        print_more_formulas(out, more)?;
    }
    Ok(())
}

#[tactic(auto, using(crate::proofs::Texts::spaced_push, crate::proofs::Texts::spaced_between))]
fn print_single(
    out: &mut Vec<u8>,
    name: &Name,
    params: &Spellings,
    body: &FormulaTree,
) -> Result<(), AllocError>
    ensures { OnOk result
        (out.new.items ≡ out.old.items ++ spaced (update_tokens (single_of name.now params.now body.now))) }
{
    print_name(out, name)?;
    print_params(out, params.as_slice())?;
    print_token(out, b"=")?;
    print_formula(out, body)
}

#[cycle(update)]
#[tactic(auto, using(crate::proofs::Texts::line_done, crate::proofs::Texts::lines_push, crate::proofs::Unfolds::update_of_single, crate::proofs::Unfolds::update_of_foreach))]
fn print_update(out: &mut Vec<u8>, update: &UpdateTree) -> Result<(), AllocError>
    ensures { OnOk result
        (out.new.items ≡ out.old.items ++ text_of_lines (nest_lines update_tokens (update_of update.now))) }
{
    match update {
        UpdateTree::Single { name, params, body } => {
            print_single(out, name, params, body)?;
            end_line(out)
        }
        UpdateTree::Foreach { var, members, body } => {
            print_foreach(out, var, members)?;
            end_line(out)?;
            print_updates(out, body)?;
            print_lone(out, b"}")
        }
    }
}

#[cycle(update)]
#[tactic(auto, using(crate::proofs::Texts::update_step_lines, crate::proofs::Texts::update_lines_done, crate::proofs::Unfolds::updates_of_items))]
fn print_updates(out: &mut Vec<u8>, updates: &UpdateTrees) -> Result<(), AllocError>
    ensures { OnOk result (out.new.items
        ≡ out.old.items ++ text_of_lines (nests_lines update_tokens (updates_of updates.now))) }
{
    for update in &updates.items {
        print_update(out, update)?;
    }
    Ok(())
}

#[tactic(auto, using(crate::proofs::Texts::spaced_push))]
fn print_caption(out: &mut Vec<u8>, pieces: &[Piece]) -> Result<(), AllocError>
    ensures { OnOk result
        (out.new.items ≡ out.old.items ++ spaced (codes "%t" ∷ pieces_tokens (map piece_of pieces.now))) }
{
    print_token(out, b"%t")?;
    print_pieces(out, pieces)
}

#[tactic(auto, using(crate::proofs::Texts::spaced_push, crate::proofs::Texts::spaced_between))]
fn print_focus(out: &mut Vec<u8>, formulas: &[FormulaTree]) -> Result<(), AllocError>
    ensures { OnOk result (out.new.items ≡ out.old.items ++ spaced (codes "%f" ∷ codes "{"
        ∷ (joined_tokens (codes ",") formula_tokens (map form_of formulas.now) ++ codes "}" ∷ []))) }
{
    print_token(out, b"%f")?;
    print_token(out, b"{")?;
    print_formulas(out, formulas)?;
    print_token(out, b"}")
}

#[tactic(auto, using(crate::proofs::Texts::spaced_push, crate::proofs::Texts::spaced_between))]
fn print_message(out: &mut Vec<u8>, cond: &FormulaTree, pieces: &[Piece]) -> Result<(), AllocError>
    ensures { OnOk result (out.new.items ≡ out.old.items ++ spaced (codes "%message"
        ∷ (formula_tokens (form_of cond.now) ++ codes "->" ∷ pieces_tokens (map piece_of pieces.now)))) }
{
    print_token(out, b"%message")?;
    print_formula(out, cond)?;
    print_token(out, b"->")?;
    print_pieces(out, pieces)
}

#[tactic(auto, using(crate::proofs::Texts::spaced_push))]
fn print_marked(out: &mut Vec<u8>, mark: &[u8], formula: &FormulaTree) -> Result<(), AllocError>
    ensures { OnOk result
        (out.new.items ≡ out.old.items ++ spaced (mark.now ∷ formula_tokens (form_of formula.now))) }
{
    print_token(out, mark)?;
    print_formula(out, formula)
}

#[tactic(auto, using(crate::proofs::Texts::lines_push))]
fn print_block(out: &mut Vec<u8>, updates: &UpdateTrees) -> Result<(), AllocError>
    ensures { OnOk result (out.new.items ≡ out.old.items ++ text_of_lines
        (lone (codes "{") ++ nests_lines update_tokens (updates_of updates.now) ++ lone (codes "}"))) }
{
    print_lone(out, b"{")?;
    print_updates(out, updates)?;
    print_lone(out, b"}")
}

#[tactic(auto, using(crate::proofs::Texts::line_done))]
fn print_part(out: &mut Vec<u8>, part: &Part) -> Result<(), AllocError>
    ensures { OnOk result (out.new.items ≡ out.old.items ++ text_of_lines (part_lines (part_of part.now))) }
{
    match part {
        Part::Caption(pieces) => {
            print_caption(out, pieces.as_slice())?;
            end_line(out)
        }
        Part::Focus(formulas) => {
            print_focus(out, formulas.as_slice())?;
            end_line(out)
        }
        Part::Pre(formula) => {
            print_marked(out, b"%p", formula)?;
            end_line(out)
        }
        Part::Message { cond, text } => {
            print_message(out, cond, text.as_slice())?;
            end_line(out)
        }
        Part::New => print_lone(out, b"%new"),
        Part::Retain(formula) => {
            print_marked(out, b"%retain", formula)?;
            end_line(out)
        }
        Part::Block(updates) => print_block(out, updates),
    }
}

#[tactic(auto, using(crate::proofs::Texts::parts_step, crate::proofs::Texts::parts_done))]
fn print_parts(out: &mut Vec<u8>, parts: &[Part]) -> Result<(), AllocError>
    ensures { OnOk result
        (out.new.items ≡ out.old.items ++ text_of_lines (flat_map part_lines (map part_of parts.now))) }
{
    for part in parts {
        print_part(out, part)?;
    }
    Ok(())
}

// The line from `%action` to its brace.
#[tactic(auto, using(crate::proofs::Texts::spaced_push, crate::proofs::Texts::spaced_between))]
fn print_heading(out: &mut Vec<u8>, name: &Spelling, params: &[Spelling]) -> Result<(), AllocError>
    ensures { OnOk result (out.new.items ≡ out.old.items ++ spaced (action_tokens name.now params.now)) }
{
    print_token(out, b"%action")?;
    print_token(out, &name.0)?;
    print_params(out, params)?;
    print_token(out, b"{")
}

#[tactic(auto, using(crate::proofs::Texts::line_done, crate::proofs::Texts::lines_push))]
fn print_action(out: &mut Vec<u8>, action: &ActionTree) -> Result<(), AllocError>
    ensures { OnOk result
        (out.new.items ≡ out.old.items ++ text_of_lines (action_lines (action_of action.now))) }
{
    print_heading(out, &action.name, action.params.as_slice())?;
    end_line(out)?;
    print_parts(out, action.parts.as_slice())?;
    print_lone(out, b"}")
}

#[tactic(auto, using(crate::proofs::Texts::actions_step, crate::proofs::Texts::actions_done))]
fn print_actions(out: &mut Vec<u8>, actions: &[ActionTree]) -> Result<(), AllocError>
    ensures { OnOk result
        (out.new.items ≡ out.old.items ++ text_of_lines (flat_map action_lines (map action_of actions.now))) }
{
    for action in actions {
        print_action(out, action)?;
    }
    Ok(())
}

#[tactic(auto, using(crate::proofs::Texts::spaced_push, crate::proofs::Texts::spaced_between))]
fn print_edge_tokens(out: &mut Vec<u8>, edge: &EdgeTree<'_>) -> Result<(), AllocError>
    ensures { OnOk result (out.new.items ≡ out.old.items ++ spaced (edge_tokens (edge_of edge.now))) }
{
    print_token(out, edge.from)?;
    print_token(out, edge.action)?;
    print_params(out, edge.arguments.as_slice())?;
    print_token(out, edge.to)
}

/// Appends a control edge as one line of a program: its first node, its action with the arguments, its second
/// node, with single spaces and a line feed at the end.
///
/// # Errors
/// Lack of memory.
#[tactic(auto, using(crate::proofs::Texts::line_done))]
pub fn print_edge(out: &mut Vec<u8>, edge: &EdgeTree<'_>) -> Result<(), AllocError>
    ensures { OnOk result (out.new.items ≡ out.old.items ++ text_of_lines (edge_lines (edge_of edge.now))) }
{
    print_edge_tokens(out, edge)?;
    end_line(out)
}

#[tactic(auto, using(crate::proofs::Texts::edges_step, crate::proofs::Texts::edges_done))]
fn print_edges(out: &mut Vec<u8>, edges: &[EdgeTree<'_>]) -> Result<(), AllocError>
    ensures { OnOk result
        (out.new.items ≡ out.old.items ++ text_of_lines (flat_map edge_lines (map edge_of edges.now))) }
{
    for edge in edges {
        print_edge(out, edge)?;
    }
    Ok(())
}

#[tactic(auto, using(crate::proofs::Texts::line_done, crate::proofs::Texts::lines_none))]
fn print_tail_words(out: &mut Vec<u8>, words: &[Spelling]) -> Result<(), AllocError>
    ensures { OnOk result (out.new.items ≡ out.old.items ++ text_of_lines (tail_words words.now)) }
{
    if words.is_empty() {
        return Ok(());
    }
    print_words(out, words)?;
    end_line(out)
}

#[tactic(auto, using(crate::proofs::Texts::lines_push, crate::proofs::Texts::lines_none))]
fn print_tail(out: &mut Vec<u8>, tail: &Option<Spellings>) -> Result<(), AllocError>
    ensures { OnOk result (out.new.items ≡ out.old.items ++ text_of_lines (tail_lines tail.now)) }
{
    match tail {
        None => Ok(()),
        Some(words) => {
            print_lone(out, b"%%")?;
            print_tail_words(out, words.as_slice())
        }
    }
}

/// The text of a program: its tokens in order, a space behind each, or a line feed behind the last
/// of a declaration, a part, an update or an edge, behind each `%%`, and behind the braces of a
/// `foreach`, an action and a block. The `=` behind `%s` isn't written, and a third `%%` is written
/// exactly where the tree has one.
#[tactic(auto, using(crate::proofs::Texts::lines_push, crate::proofs::Texts::lines_start))]
pub fn print_program(alloc: Global, tree: &Tree<'_>) -> Result<Vec<u8>, AllocError>
    ensures { IfOk result (λ text. text.items ≡ program_text (program_of tree.now)) }
{
    let mut out = Vec::new(alloc);
    print_decls(&mut out, &tree.decls)?;
    print_lone(&mut out, b"%%")?;
    print_actions(&mut out, tree.actions.as_slice())?;
    print_lone(&mut out, b"%%")?;
    print_edges(&mut out, tree.edges.as_slice())?;
    print_tail(&mut out, &tree.tail)?;
    Ok(out)
}
