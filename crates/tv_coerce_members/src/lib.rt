//! The members of a base rule: the conjuncts of its body, and the negation of its head behind them. The base
//! rule and each of its further rules have all members but one as their conjuncts, and deny that one, so what
//! is found of the members once serves the whole family.
#![tactic(auto)]

mod levels;
mod members;
mod readings;
mod shapes;

pub use levels::{Level, Levels, Step, Steps};
pub use members::{Member, Members};
pub use readings::Reading;
pub use shapes::{Shape, lay_out};
