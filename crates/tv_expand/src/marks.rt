//! Marks of rules, one for each that is written, in order.

ghost use Rattle.std.specs.Prelude.{◌≡◌, drop, get_or};
ghost use Rattle.tv_tree.specs.Copies.{decl_of, decls_of};
ghost use Rattle.tv_expand.specs.Origins.{written, written_in};

use tv_tree::{Decl, Decls};

/// The first mark, 0 where there is none.
pub fn first_mark(marks: &[u32]) -> u32
    ensures { result ≡ get_or marks.now 0 0 }
{
    match marks.first() {
        Some(mark) => *mark,
        None => 0,
    }
}

fn behind_first(marks: &[u32]) -> &[u32]
    ensures { result.now ≡ drop 1 marks.now }
{
    &marks[marks.len().min(1)..]
}

/// The marks behind those of the rules that are written in the declaration.
#[cycle(behind)]
#[tactic(auto, using(tv_tree::proofs::Unfolds::decl_of_set, tv_tree::proofs::Unfolds::decl_of_pred, tv_tree::proofs::Unfolds::decl_of_rule, tv_tree::proofs::Unfolds::decl_of_foreach))]
pub fn behind_decl<'m>(marks: &'m [u32], decl: &Decl) -> &'m [u32]
    ensures { result.now ≡ drop (written_in (decl_of decl.now)) marks.now }
{
    match decl {
        Decl::SetDecl { .. } | Decl::Pred(_) => marks,
        Decl::Rule(_) => behind_first(marks),
        Decl::Foreach { body, .. } => behind_decls(marks, body),
    }
}

#[cycle(behind)]
#[tactic(auto, using(crate::proofs::OriginLaws::behind_more, crate::proofs::OriginLaws::behind_done))]
fn behind_decls<'m>(marks: &'m [u32], decls: &Decls) -> &'m [u32]
    ensures { result.now ≡ drop (written (decls_of decls.now)) marks.now }
{
    let mut left = marks;
    if marks.is_empty() {
        return left;
    }
    for decl in &decls.items {
        left = behind_decl(left, decl);
    }
    left
}
