//! An order of definitions, found in the time that reading them takes.

ghost use Rattle.std.specs.Prelude.{◌≤◌, length};

use std::alloc::{AllocError, Global};
use tv_model::{Formula, Kind, PredId, Program};

/// Which definitions mention which predicates.
#[derive(Debug, Drop)]
struct Uses {
    /// For each predicate those whose definitions mention it, as often as they do.
    users: Vec<Vec<PredId>>,
    /// For each predicate how often its definition mentions one that has no place in the order yet.
    left: Vec<usize>,
}

impl Uses {
    /// No uses of so many predicates.
    fn new(alloc: Global, count: usize) -> Result<Uses, AllocError> {
        let mut users = Vec::with_capacity(alloc, count)?;
        for _ in 0..count {
            users.push(Vec::new(alloc))?;
        }
        Ok(Uses {
            users,
            left: vec![in alloc; 0; count]?,
        })
    }

    /// The definition of `user` mentions `used`.
    fn add(&mut self, user: PredId, used: PredId) -> Result<(), AllocError> {
        if let Some(left) = self.left.get_mut(user.0 as usize) {
            *left = left.saturating_add(1);
        }
        if let Some(users) = self.users.get_mut(used.0 as usize) {
            users.push(user)?;
        }
        Ok(())
    }

    /// The definition of `user` mentions the predicates of the formula.
    fn add_all(&mut self, user: PredId, f: &Formula) -> Result<(), AllocError> {
        match f {
            Formula::Zero | Formula::One | Formula::IsNew(_) | Formula::Same(_, _) => Ok(()),
            Formula::Atom(used, _) => self.add(user, *used),
            Formula::Not(g) | Formula::Exists(_, g) | Formula::Forall(_, g) => {
                self.add_all(user, g)
            }
            Formula::And(g, h) | Formula::Or(g, h) | Formula::Iff(g, h) => {
                self.add_all(user, g)?;
                self.add_all(user, h)
            }
            Formula::Cond(c, g, h) => {
                self.add_all(user, c)?;
                self.add_all(user, g)?;
                self.add_all(user, h)
            }
            Formula::Closure { body, .. } => self.add_all(user, body),
        }
    }
}

/// The uses of a program's definitions.
fn uses_of(alloc: Global, program: &Program) -> Result<Uses, AllocError>
    requires { length program.now.vocab.preds ≤ 512 }
{
    let preds = program.vocab.preds.as_slice();
    let mut uses = Uses::new(alloc, preds.len())?;
    for (number, pred) in preds.iter().enumerate() {
        if let Kind::Defined { body, .. } = &pred.kind {
            uses.add_all(PredId(number as u32), body)?;
        }
    }
    Ok(uses)
}

/// Puts the predicates behind the others whose definitions mention nothing.
fn push_first(left: &[usize], order: &mut Vec<PredId>) -> Result<(), AllocError> {
    for number in 0..left.len().min(512) {
        if left[number] == 0 {
            order.push(PredId(number as u32))?;
        }
    }
    Ok(())
}

/// Counts one use less, and tells whether it was the last.
fn was_last(left: &mut [usize], user: PredId) -> bool {
    match left.get_mut(user.0 as usize) {
        None => false,
        Some(left) => {
            *left = left.saturating_sub(1);
            *left == 0
        }
    }
}

/// Puts those of the users behind the others whose definitions mention nothing more that has no place.
fn push_users(
    users: &[PredId],
    left: &mut [usize],
    order: &mut Vec<PredId>,
) -> Result<(), AllocError> {
    for user in users {
        if was_last(left, *user) {
            order.push(*user)?;
        }
    }
    Ok(())
}

/// The predicates of the program, each behind those that its definition mentions; those that rest on a cycle
/// of definitions are left out. No contract speaks of it: who goes by it looks whether it is so.
pub fn likely_order(alloc: Global, program: &Program) -> Result<Vec<PredId>, AllocError>
    requires { length program.now.vocab.preds ≤ 512 }
{
    let Uses { users, mut left } = uses_of(alloc, program)?;
    let mut order = Vec::with_capacity(alloc, users.len())?;
    push_first(left.as_slice(), &mut order)?;
    for place in 0..users.len() {
        let Some(p) = order.get(place).copied() else {
            return Ok(order);
        };
        if let Some(users) = users.get(p.0 as usize) {
            push_users(users.as_slice(), left.as_mut_slice(), &mut order)?;
        }
    }
    Ok(order)
}
