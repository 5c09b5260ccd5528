//! The parts of a flat action, in whatever order they stand.

ghost use Rattle.std.specs.Prelude.{◌≡◌, Option, Some, None, map};
ghost use Rattle.std.specs.Option.{option_map};
ghost use Rattle.tv_tree.specs.Copies.{form_of, part_of, update_of};
ghost use Rattle.tv_vocab.specs.Actions.{focus_in, pre_in, retain_in, adds_new, updates_in};

use tv_tree::trees::{FormulaTree, Part, UpdateTree};

/// The focus formulas.
pub fn focus_in(parts: &[Part]) -> &[FormulaTree]
    ensures { map form_of result.now ≡ focus_in (map part_of parts.now) }
{
    for part in parts {
        if let Part::Focus(formulas) = part {
            return formulas.as_slice();
        }
    }
    &[]
}

/// The precondition.
pub fn pre_in(parts: &[Part]) -> Option<&FormulaTree>
    ensures { option_map (λ f. form_of f.now) result ≡ pre_in (map part_of parts.now) }
{
    for part in parts {
        if let Part::Pre(formula) = part {
            return Some(formula);
        }
    }
    None
}

/// The retain formula.
pub fn retain_in(parts: &[Part]) -> Option<&FormulaTree>
    ensures { option_map (λ f. form_of f.now) result ≡ retain_in (map part_of parts.now) }
{
    for part in parts {
        if let Part::Retain(formula) = part {
            return Some(formula);
        }
    }
    None
}

/// Whether the action adds an individual.
pub fn adds_new(parts: &[Part]) -> bool
    ensures { result ≡ adds_new (map part_of parts.now) }
{
    for part in parts {
        if let Part::New = part {
            return true;
        }
    }
    false
}

/// The updates of the block.
pub fn block_in(parts: &[Part]) -> &[UpdateTree]
    ensures { map update_of result.now ≡ updates_in (map part_of parts.now) }
{
    for part in parts {
        if let Part::Block(updates) = part {
            return updates.items.as_slice();
        }
    }
    &[]
}
