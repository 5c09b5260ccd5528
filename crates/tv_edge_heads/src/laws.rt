//! A law about heads. The function does nothing of its own: its clause is what it shows.

ghost use Rattle.tv_edge_heads.specs.Laws.{HeadsAreOne};

use tv_lex::one_reading;
use tv_parse::{one_action, one_declaration, one_edge};

/// The edges of a program have one list of heads: no edge stands in two places of its text.
pub fn heads_are_one()
    ensures { HeadsAreOne }
{
    one_reading();
    one_declaration();
    one_action();
    one_edge();
}
