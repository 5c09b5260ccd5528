//! The names that a quantifier binds, one after the other and without recursion: a text may have thousands
//! of them one in the other.

ghost use Rattle.std.specs.Prelude.{◌≡◌, ◌++◌, ◌∷◌, [], IfOk};
ghost use Rattle.tv_model.specs.Form.{form_of};
ghost use Rattle.tv_names.specs.Refusal.{GivesOrRefuses, one_by_one};
ghost use Rattle.tv_names.specs.Quantifiers.{quantifier_of};
ghost use Rattle.tv_names.specs.Copies.{naming_of, place_form};
ghost use Rattle.tv_names.specs.Binding.{begun, bind, bound_form, over_all};

use crate::naming::Naming;
use crate::place::Place;
use crate::refusal::ResolveError;
use std::alloc::{AllocError, Global};
use tv_model::{Formula, Var};
use tv_tree::{Spelling, is_among};

/// A quantifier.
#[derive(Clone, Copy, Debug)]
pub enum Quantifier {
    /// Some individual.
    Exists,
    /// Every individual.
    Forall,
}

impl Quantifier {
    fn over(self, alloc: Global, v: u8, body: Formula) -> Result<Formula, AllocError>
        ensures { IfOk result (λ f. form_of f ≡ quantifier_of self v (form_of body)) }
    {
        let body = Box::new(alloc, body)?;
        Ok(match self {
            Quantifier::Exists => Formula::Exists(Var(v), body),
            Quantifier::Forall => Formula::Forall(Var(v), body),
        })
    }

    /// The formula under quantifiers over the variables, of which the first comes to stand outermost.
    #[tactic(auto, using(crate::proofs::BindingLaws::over_last))]
    pub fn over_all(
        self,
        alloc: Global,
        mut vars: Vec<u8>,
        body: Formula,
    ) -> Result<Formula, AllocError>
        ensures { IfOk result (λ f. form_of f ≡ over_all (quantifier_of self) vars.items (form_of body)) }
    {
        let mut f = body;
        while let Some(v) = vars.pop() {
            f = self.over(alloc, v, f)?;
        }
        Ok(f)
    }
}

/// The place under the quantifiers of some names, and the variables of these, in their order.
#[derive(Drop)]
pub struct Bound<'p> {
    pub place: Place<'p>,
    pub vars: Vec<u8>,
}

impl Bound<'_> {
    /// Binds a name behind the earlier ones.
    fn bind<'a>(
        &mut self,
        earlier: &[Spelling],
        name: &'a Spelling,
        naming: &mut Naming<'a>,
    ) -> Result<(), ResolveError>
        ensures { GivesOrRefuses
            (λ _. bound_form self.new (earlier.now ++ name.now ∷ []) (naming_of naming.new)) result
            (bind (bound_form self.old earlier.now (naming_of naming.old)) name.now) }
    {
        if is_among(earlier, &name.0) {
            return Err(ResolveError::NameTwice);
        }
        let v = naming.sight(&name.0)?;
        self.vars.push(v)?;
        self.place = self.place.under(v);
        Ok(())
    }
}

/// Binds the names one after the other.
pub fn bind_all<'p, 'a>(
    alloc: Global,
    place: &Place<'p>,
    names: &'a [Spelling],
    naming: &mut Naming<'a>,
) -> Result<Bound<'p>, ResolveError>
    ensures { GivesOrRefuses (λ bound. bound_form bound names.now (naming_of naming.new)) result
        (one_by_one bind (begun (place_form place.now) (naming_of naming.old)) names.now) }
{
    let mut bound = Bound {
        place: *place,
        vars: Vec::new(alloc),
    };
    for at in 0..names.len() {
        bound.bind(&names[..at], &names[at], naming)?;
    }
    Ok(bound)
}
