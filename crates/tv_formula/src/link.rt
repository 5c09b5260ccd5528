//! The connectives that group from the left.

ghost use Rattle.std.specs.Prelude.{◌≡◌, IfOk};
ghost use Rattle.tv_tree.specs.Copies.{form_of};
ghost use Rattle.tv_formula.specs.Grammar.{mark_of, join};

use crate::build::boxed;
use std::alloc::{AllocError, Global};
use tv_tree::trees::FormulaTree;

/// A connective that groups from the left.
#[derive(Clone, Copy, Debug, PartialEq, Eq)]
pub enum Link {
    /// `<->`, between implications.
    Iff,
    /// `|`, between conjunctions.
    Or,
    /// `&`, between formulas with neither connectives nor quantifiers before them.
    And,
}

impl Link {
    /// How it is spelled.
    pub fn mark(self) -> &'static [u8]
        ensures { result.now ≡ mark_of self }
    {
        match self {
            Link::Iff => b"<->",
            Link::Or => b"|",
            Link::And => b"&",
        }
    }

    /// The two formulas with the connective between them.
    #[inline(never)]
    pub fn join(
        self,
        alloc: Global,
        left: Box<FormulaTree>,
        right: Box<FormulaTree>,
    ) -> Result<Box<FormulaTree>, AllocError>
        ensures { IfOk result (λ f. form_of f.value ≡ join self (form_of left.value) (form_of right.value)) }
    {
        let tree = match self {
            Link::Iff => FormulaTree::Iff(left, right),
            Link::Or => FormulaTree::Or(left, right),
            Link::And => FormulaTree::And(left, right),
        };
        boxed(alloc, tree)
    }
}
