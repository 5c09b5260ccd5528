//! What words stand for.

ghost use Rattle.std.specs.Prelude.{◌≡◌, if◌then◌else◌, fold, IfOk, OnOk};
ghost use Rattle.std.specs.Str.{bytes_eq};
ghost use Rattle.tv_flat.specs.Replaced.{bound, replaced};
ghost use Rattle.tv_flat.specs.Views.{params_of, pairs_of, binding_of};

use indexmap::IndexMap;
use std::alloc::{AllocError, Global};

/// The variable of a `foreach`, and what stands for it.
#[derive(Clone, Copy, Debug)]
pub struct Bound<'a> {
    pub word: &'a [u8],
    pub by: &'a [u8],
}

/// What stands for each parameter of an action. There may be many, so they are hashed.
pub type Params<'a> = IndexMap<&'a [u8], &'a [u8]>;

/// What words stand for at a place: the parameters, and the variables of the `foreach` around, the
/// innermost last. The latter are few, since `foreach` are nested less than 200 deep.
#[derive(Drop)]
pub struct Scope<'p, 'a> {
    pub params: &'p Params<'a>,
    pub vars: Vec<Bound<'a>>,
}

/// Binds a parameter.
pub fn put_param<'a>(
    params: &mut Params<'a>,
    word: &'a [u8],
    by: &'a [u8],
) -> Result<(), AllocError>
    ensures { OnOk result
        (params_of params.new.entries ≡ bound (params_of params.old.entries) word.now by.now) }
{
    params.insert(word, by)?;
    Ok(())
}

/// A scope with no `foreach` around.
pub fn with_params<'p, 'a>(alloc: Global, params: &'p Params<'a>) -> Scope<'p, 'a>
    ensures { binding_of result ≡ params_of params.now.entries }
{
    Scope {
        params,
        vars: Vec::new(alloc),
    }
}

fn argument<'a>(params: &Params<'a>, word: &'a [u8]) -> &'a [u8]
    ensures { result.now ≡ replaced (params_of params.now.entries) word.now }
{
    match params.get(word) {
        Some(by) => *by,
        None => word,
    }
}

fn further<'a>(bound: &Bound<'a>, word: &[u8], found: &'a [u8]) -> &'a [u8]
    ensures { result.now ≡ (if bytes_eq bound.now.word.now word.now then bound.now.by.now else found.now) }
{
    if bound.word == word { bound.by } else { found }
}

// What stands for a word, where `found` does so far. The last variable of this name counts.
#[tactic(auto, using(crate::proofs::BindingLaws::replaced_more, crate::proofs::BindingLaws::replaced_done))]
fn innermost<'a>(vars: &[Bound<'a>], word: &[u8], found: &'a [u8]) -> &'a [u8]
    ensures { result.now
        ≡ fold (λ last p. if bytes_eq p.0 word.now then p.1 else last) found.now (pairs_of vars.now) }
{
    let mut last = found;
    for bound in vars {
        last = further(bound, word, last);
    }
    last
}

/// What stands for a word.
pub fn replaced<'a>(binding: &Scope<'_, 'a>, word: &'a [u8]) -> &'a [u8]
    ensures { result.now ≡ replaced (binding_of binding.now) word.now }
{
    innermost(
        binding.vars.as_slice(),
        word,
        argument(binding.params, word),
    )
}

/// The scope inside a `foreach`, whose variable hides an outer one of its name.
#[tactic(auto, using(crate::proofs::BindingLaws::bound_var))]
pub fn bind<'p, 'a>(
    alloc: Global,
    binding: &Scope<'p, 'a>,
    word: &'a [u8],
    by: &'a [u8],
) -> Result<Scope<'p, 'a>, AllocError>
    ensures { IfOk result (λ inner. binding_of inner ≡ bound (binding_of binding.now) word.now by.now) }
{
    let mut vars = Vec::with_capacity(alloc, binding.vars.len() + 1)?;
    vars.extend_from_slice(binding.vars.as_slice())?;
    vars.push(Bound { word, by })?;
    Ok(Scope {
        params: binding.params,
        vars,
    })
}
