//! Declarations, read off the front of tokens. A `foreach` is gone down into, and lists are loops.

ghost use Rattle.std.specs.Prelude.{◌≡◌, ◌+◌, length, map, Some, None};
ghost use Rattle.std.specs.Option.{option_map};
ghost use Rattle.tv_lex.specs.Token.{spec_tokens};
ghost use Rattle.tv_phrases.specs.Reading.{GivesReading};
ghost use Rattle.tv_phrases.specs.Tokens.{after};
ghost use Rattle.tv_tree.specs.Copies.{name_of, set_of, form_of, pred_of, pred_of_body, decl_of};
ghost use Rattle.tv_tree.specs.Forms.{DPred, DSet, DRule, Single};
ghost use Rattle.tv_parse.specs.Kinds.{begins_decl};
ghost use Rattle.tv_parse.specs.Reading.{signature, props_reading, skip, set_decl, core_decl, defined_decl};
ghost use Rattle.tv_parse.specs.Reading.{rule_decl, decl_behind, decl_reading, lone, foreach_nest, nest};
ghost use Rattle.tv_parse.specs.Reading.{decl_rows};

use crate::kinds::{DeclKind, begins_decl, decl_kind, expect_behind, prop};
use crate::sets::{Head, head_at, set};
use std::alloc::Global;
use tv_formula::{formula, name_of_phrase, spelling, spellings};
use tv_lex::Token;
use tv_phrases::{PhraseError, Read, after, below, expect, identifier, name, params};
use tv_tree::trees::{Decl, Decls, FormulaTree, Name, PredDecl, PropWords, RuleDecl, Spellings};

/// A name with its parameters.
#[derive(Drop, Debug)]
pub struct Signature {
    pub name: Name,
    pub params: Spellings,
}

/// A name with its parameters, and the tokens behind it.
#[tactic(auto, unfolding(crate::specs::Reading::signature))]
pub fn signature_at<'a>(alloc: Global, bytes: &[u8], tokens: &'a [Token]) -> Read<'a, Signature>
    ensures { GivesReading (λ x. ((name_of x.0.name, x.0.params), spec_tokens bytes.now x.1.now)) result
        (signature (spec_tokens bytes.now tokens.now)) }
{
    let (phrase, behind) = name(alloc, bytes, tokens)?;
    let (words, rest) = params(alloc, bytes, behind)?;
    let name = name_of_phrase(alloc, bytes, &phrase)?;
    let params = spellings(alloc, bytes, &words)?;
    Ok((Signature { name, params }, rest))
}

// The properties of a predicate: as many as stand there.
#[tactic(auto, using(crate::proofs::Lists::props_end, tv_phrases::proofs::Repeats::many_out))]
fn props_at<'a>(alloc: Global, bytes: &[u8], tokens: &'a [Token]) -> Read<'a, PropWords>
    ensures { GivesReading (λ x. (x.0, spec_tokens bytes.now x.1.now)) result
        (props_reading (spec_tokens bytes.now tokens.now)) }
{
    let mut list = Vec::new(alloc);
    let mut left = tokens.len() + 1;
    let mut rest = tokens;
    'props: loop {
        left = below(left, rest)?;
        let Some((word, behind)) = prop(bytes, rest) else {
            return Ok((PropWords::from_vec(list), rest));
        };
        list.push(word)?;
        rest = behind;
    }
}

fn skip<'a>(bytes: &[u8], tokens: &'a [Token], mark: &[u8]) -> &'a [Token]
    ensures { spec_tokens bytes.now result.now ≡ skip mark.now (spec_tokens bytes.now tokens.now) }
{
    match after(bytes, tokens, mark) {
        Some(rest) => rest,
        None => tokens,
    }
}

#[tactic(auto, using(tv_tree::proofs::Unfolds::decl_of_set), unfolding(crate::specs::Reading::set_decl, crate::specs::Reading::lone))]
fn set_decl<'a>(alloc: Global, bytes: &[u8], tokens: &'a [Token]) -> Read<'a, Decl>
    ensures { GivesReading (λ x. (decl_of x.0, spec_tokens bytes.now x.1.now)) result
        (lone (set_decl (spec_tokens bytes.now tokens.now))) }
{
    let (word, next) = identifier(bytes, tokens)?;
    let (members, rest) = set(alloc, bytes, skip(bytes, next, b"="))?;
    let name = spelling(alloc, bytes, &word)?;
    Ok((Decl::SetDecl { name, members }, rest))
}

fn pred_decl(signature: Signature, body: Option<FormulaTree>, props: PropWords) -> PredDecl
    ensures { pred_of result ≡ record {
      name = name_of signature.name;
      params = signature.params;
      body = pred_of_body body;
      props = props;
    } }
{
    let Signature { name, params } = signature;
    PredDecl {
        name,
        params,
        body,
        props,
    }
}

#[tactic(auto, unfolding(crate::specs::Reading::core_decl))]
fn core_decl<'a>(alloc: Global, bytes: &[u8], tokens: &'a [Token]) -> Read<'a, PredDecl>
    ensures { GivesReading (λ x. (DPred (pred_of x.0), spec_tokens bytes.now x.1.now)) result
        (core_decl (spec_tokens bytes.now tokens.now)) }
{
    let (signature, behind) = signature_at(alloc, bytes, tokens)?;
    let (props, rest) = props_at(alloc, bytes, behind)?;
    Ok((pred_decl(signature, None, props), rest))
}

#[tactic(auto, unfolding(crate::specs::Reading::defined_decl))]
fn defined_decl<'a>(alloc: Global, bytes: &[u8], tokens: &'a [Token]) -> Read<'a, PredDecl>
    ensures { GivesReading (λ x. (DPred (pred_of x.0), spec_tokens bytes.now x.1.now)) result
        (defined_decl (spec_tokens bytes.now tokens.now)) }
{
    let (signature, next) = signature_at(alloc, bytes, tokens)?;
    let behind = expect(bytes, next, b"=")?;
    let (body, end) = formula(alloc, bytes, behind)?;
    let (props, rest) = props_at(alloc, bytes, end)?;
    Ok((pred_decl(signature, Some(body), props), rest))
}

#[tactic(auto, unfolding(crate::specs::Reading::rule_decl))]
fn rule_decl<'a>(alloc: Global, bytes: &[u8], tokens: &'a [Token]) -> Read<'a, RuleDecl>
    ensures { GivesReading (λ x. (DRule (form_of x.0.body) (form_of x.0.head), spec_tokens bytes.now x.1.now))
        result (rule_decl (spec_tokens bytes.now tokens.now)) }
{
    let (body, end) = formula(alloc, bytes, tokens)?;
    let behind = expect_behind(bytes, end, b"==>", true)?;
    let (head, rest) = formula(alloc, bytes, behind)?;
    Ok((RuleDecl { body, head }, rest))
}

#[tactic(auto, using(tv_tree::proofs::Unfolds::decl_of_pred, tv_tree::proofs::Unfolds::decl_of_rule), unfolding(crate::specs::Reading::lone))]
fn decl_behind<'a>(
    alloc: Global,
    bytes: &[u8],
    kind: DeclKind,
    tokens: &'a [Token],
) -> Read<'a, Decl>
    ensures { GivesReading (λ x. (decl_of x.0, spec_tokens bytes.now x.1.now)) result
        (lone (decl_behind kind (spec_tokens bytes.now tokens.now))) }
{
    match kind {
        DeclKind::Set => set_decl(alloc, bytes, tokens),
        DeclKind::Core => {
            let (pred, rest) = core_decl(alloc, bytes, tokens)?;
            Ok((Decl::Pred(pred), rest))
        }
        DeclKind::Defined => {
            let (pred, rest) = defined_decl(alloc, bytes, tokens)?;
            Ok((Decl::Pred(pred), rest))
        }
        DeclKind::Rule => {
            let (rule, rest) = rule_decl(alloc, bytes, tokens)?;
            Ok((Decl::Rule(rule), rest))
        }
    }
}

// A declaration other than a `foreach`.
#[tactic(auto, unfolding(crate::specs::Reading::decl_reading, crate::specs::Reading::lone))]
fn single_decl<'a>(alloc: Global, bytes: &[u8], tokens: &'a [Token]) -> Read<'a, Decl>
    ensures { GivesReading (λ x. (decl_of x.0, spec_tokens bytes.now x.1.now)) result
        (lone (decl_reading (spec_tokens bytes.now tokens.now))) }
{
    match decl_kind(bytes, tokens) {
        Some((kind, behind)) => decl_behind(alloc, bytes, kind, behind),
        None => Err(PhraseError::Unexpected(tokens)),
    }
}

/// Whether the last of the declarations ends in a formula.
pub fn end_in_formula(decls: &Decls) -> bool {
    match decls.items.last() {
        Some(Decl::Pred(pred)) => pred.body.is_some() && pred.props.len() == 0,
        Some(Decl::Rule(_)) => true,
        _ => false,
    }
}

#[cycle(decls)]
#[tactic(auto, using(tv_tree::proofs::Unfolds::decl_of_foreach, tv_tree::proofs::Unfolds::decls_of_items), unfolding(crate::specs::Reading::foreach_nest))]
fn foreach_at<'a>(alloc: Global, bytes: &[u8], depth: usize, tokens: &'a [Token]) -> Read<'a, Decl>
    ensures { GivesReading (λ x. (decl_of x.0, spec_tokens bytes.now x.1.now)) result
        (foreach_nest (decl_rows depth) (spec_tokens bytes.now tokens.now)) }
{
    let (Head { var, members }, behind) = head_at(alloc, bytes, tokens)?;
    let (body, end) = decls_at(alloc, bytes, depth, behind)?;
    let rest = expect_behind(bytes, end, b"}", end_in_formula(&body))?;
    Ok((Decl::Foreach { var, members, body }, rest))
}

#[cycle(decls)]
#[tactic(auto, unfolding(crate::specs::Reading::nest))]
fn decl_at<'a>(alloc: Global, bytes: &[u8], depth: usize, tokens: &'a [Token]) -> Read<'a, Decl>
    ensures { GivesReading (λ x. (decl_of x.0, spec_tokens bytes.now x.1.now)) result
        (nest decl_reading (decl_rows depth) (spec_tokens bytes.now tokens.now)) }
{
    match after(bytes, tokens, b"foreach") {
        Some(behind) => foreach_at(alloc, bytes, depth, behind),
        None => single_decl(alloc, bytes, tokens),
    }
}

#[cycle(decls)]
#[tactic(auto, using(crate::proofs::Lists::rows_end, crate::proofs::Lists::rows_break, crate::proofs::Lists::rows_out))]
fn decls_at<'a>(alloc: Global, bytes: &[u8], depth: usize, tokens: &'a [Token]) -> Read<'a, Decls>
    ensures { GivesReading (λ x. (map decl_of x.0.items.items, spec_tokens bytes.now x.1.now)) result
        (decl_rows depth (spec_tokens bytes.now tokens.now)) }
{
    let mut items = Vec::new(alloc);
    let mut left = depth;
    let mut rest = tokens;
    'decls: loop {
        left = below(left, rest)?;
        if !begins_decl(bytes, rest) {
            return Ok((Decls { items }, rest));
        }
        let (decl, behind) = decl_at(alloc, bytes, left, rest)?;
        items.push(decl)?;
        rest = behind;
    }
}

/// As many declarations as stand here, and the tokens behind them.
pub fn decls<'a>(alloc: Global, bytes: &[u8], tokens: &'a [Token]) -> Read<'a, Decls>
    ensures { GivesReading (λ x. (map decl_of x.0.items.items, spec_tokens bytes.now x.1.now)) result
        (decl_rows (length (spec_tokens bytes.now tokens.now) + 1) (spec_tokens bytes.now tokens.now)) }
{
    decls_at(alloc, bytes, tokens.len() + 1, tokens)
}
