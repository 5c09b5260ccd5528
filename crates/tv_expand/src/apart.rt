//! Bodies whose parts are gone through equally often, whatever is put in for a word.

ghost use Rattle.std.specs.Prelude.{◌≡◌, not};
ghost use Rattle.tv_tree.specs.Copies.{term_of, set_of, decl_of, decls_of, update_of, updates_of};
ghost use Rattle.tv_expand.specs.Idle.{is_apart_set, is_apart_nest, is_apart};

use tv_tree::{Decl, Decls, SetTerm, SetTree, UpdateTree, UpdateTrees, is_among};

#[cycle(set)]
#[tactic(auto, using(tv_tree::proofs::Unfolds::term_of_named, tv_tree::proofs::Unfolds::term_of_members, tv_tree::proofs::Unfolds::term_of_paren))]
fn is_apart_term(word: &[u8], term: &SetTerm) -> bool
    ensures { result ≡ is_apart_set word.now (term_of term.now) }
{
    match term {
        SetTerm::Named(_) => true,
        SetTerm::Members(words) => !is_among(words.as_slice(), word),
        SetTerm::Paren(set) => is_apart_set(word, set),
    }
}

// Whether a word stands nowhere in the braces of an expression.
#[cycle(set)]
#[tactic(auto, using(crate::proofs::ApartLaws::first_apart, crate::proofs::ApartLaws::first_there, crate::proofs::ApartLaws::further_apart, crate::proofs::ApartLaws::further_there, crate::proofs::ApartLaws::all_apart_sets))]
fn is_apart_set(word: &[u8], set: &SetTree) -> bool
    ensures { result ≡ is_apart_set word.now (set_of set.now) }
{
    if !is_apart_term(word, &set.first) {
        return false;
    }
    for step in &set.more {
        if !is_apart_term(word, &step.term) {
            return false;
        }
    }
    true
}

#[cycle(decls)]
#[tactic(auto, using(tv_tree::proofs::Unfolds::decl_of_set, tv_tree::proofs::Unfolds::decl_of_pred, tv_tree::proofs::Unfolds::decl_of_rule, tv_tree::proofs::Unfolds::decl_of_foreach))]
fn is_apart_decl(word: &[u8], decl: &Decl) -> bool
    ensures { result ≡ is_apart_nest word.now (decl_of decl.now) }
{
    match decl {
        Decl::SetDecl { .. } | Decl::Pred(_) | Decl::Rule(_) => true,
        Decl::Foreach { members, body, .. } => {
            is_apart_set(word, members) && are_apart_decls(word, body)
        }
    }
}

/// Whether a word stands nowhere in the sets of the `foreach` in the declarations.
#[cycle(decls)]
#[tactic(auto, using(tv_tree::proofs::Unfolds::decls_of_items, crate::proofs::ApartLaws::apart_more, crate::proofs::ApartLaws::apart_stops, crate::proofs::ApartLaws::apart_done))]
pub fn are_apart_decls(word: &[u8], decls: &Decls) -> bool
    ensures { result ≡ is_apart word.now (decls_of decls.now) }
{
    for decl in &decls.items {
        if !is_apart_decl(word, decl) {
            return false;
        }
    }
    true
}

#[cycle(updates)]
#[tactic(auto, using(tv_tree::proofs::Unfolds::update_of_single, tv_tree::proofs::Unfolds::update_of_foreach))]
fn is_apart_update(word: &[u8], update: &UpdateTree) -> bool
    ensures { result ≡ is_apart_nest word.now (update_of update.now) }
{
    match update {
        UpdateTree::Single { .. } => true,
        UpdateTree::Foreach { members, body, .. } => {
            is_apart_set(word, members) && are_apart_updates(word, body)
        }
    }
}

/// Whether a word stands nowhere in the sets of the `foreach` in the updates.
#[cycle(updates)]
#[tactic(auto, using(tv_tree::proofs::Unfolds::updates_of_items, crate::proofs::ApartLaws::apart_more, crate::proofs::ApartLaws::apart_stops, crate::proofs::ApartLaws::apart_done))]
pub fn are_apart_updates(word: &[u8], updates: &UpdateTrees) -> bool
    ensures { result ≡ is_apart word.now (updates_of updates.now) }
{
    for update in &updates.items {
        if !is_apart_update(word, update) {
            return false;
        }
    }
    true
}
