//! How large formulas are.

ghost use Rattle.std.specs.Prelude.{◌≡◌, ◌+◌, ◌≤◌, min, max};
ghost use Rattle.tv_model.specs.Form.{form_of, height};
ghost use Rattle.tv_delta_laws.specs.Simple.{is_small, nodes};
ghost use Rattle.tv_delta_form.specs.Sizes.{size_of, is_small_size, zero_size, one_size, leaf_size};
ghost use Rattle.tv_delta_form.specs.Sizes.{node_over};

use crate::heads::outermost;
use tv_model::Formula;

/// The most nodes of a formula that is formed.
const MAX_NODES: u32 = 65_536;

/// The greatest height of a formula that is formed.
const MAX_HEIGHT: u32 = 1_000;

/// The size of a formula as far as the limits tell, and whether it is 0 or 1.
#[derive(Clone, Copy, Debug)]
pub struct Size {
    /// The number of its nodes; more than 65,536 count as 65,537.
    pub nodes: u32,
    /// The height of its tree; more than 1,000 counts as 1,001.
    pub height: u32,
    pub zero: bool,
    pub one: bool,
}

/// The size of 0.
pub const ZERO: Size = Size {
    nodes: 1,
    height: 1,
    zero: true,
    one: false,
};

/// The size of 1.
pub const ONE: Size = Size {
    nodes: 1,
    height: 1,
    zero: false,
    one: true,
};

/// The size of another formula without parts.
pub const LEAF: Size = Size {
    nodes: 1,
    height: 1,
    zero: false,
    one: false,
};

/// The size of one node over parts that have so many nodes together and are so high.
pub fn node_over(nodes: u32, height: u32) -> Size
    ensures { result ≡ node_over nodes height }
{
    Size {
        nodes: nodes.saturating_add(1).min(MAX_NODES + 1),
        height: height.saturating_add(1).min(MAX_HEIGHT + 1),
        zero: false,
        one: false,
    }
}

/// The size of one node over two parts.
pub fn node_over_two(s: Size, t: Size) -> Size
    ensures { result ≡ node_over (s.nodes + t.nodes) (max s.height t.height) }
{
    node_over(s.nodes.saturating_add(t.nodes), s.height.max(t.height))
}

/// The size of one node over three parts.
pub fn node_over_three(c: Size, s: Size, t: Size) -> Size
    ensures { result ≡ node_over (c.nodes + s.nodes + t.nodes) (max c.height (max s.height t.height)) }
{
    node_over(
        c.nodes.saturating_add(s.nodes).saturating_add(t.nodes),
        c.height.max(s.height.max(t.height)),
    )
}

/// How many quantifiers stand at the head of the formula, more than 65,537 counting as that, and what stands
/// under them.
fn counted(f: &Formula) -> (u32, &Formula)
    ensures nodes { min (nodes (form_of f.now)) 65537 ≡ min (nodes (form_of result.1.now) + result.0) 65537 }
    ensures height { min (height (form_of f.now)) 1001 ≡ min (height (form_of result.1.now) + result.0) 1001 }
    ensures lower { height (form_of result.1.now) ≤ height (form_of f.now) }
{
    let mut count = 0;
    let mut body = f;
    while let Some((_, g)) = outermost(body) {
        count = one_more(count);
        body = g;
    }
    (count, body)
}

fn one_more(count: u32) -> u32
    ensures { result ≡ min (count + 1) 65537 }
{
    count.saturating_add(1).min(MAX_NODES + 1)
}

/// The size of one node over so many more over a formula of this size.
fn nodes_over(count: u32, s: Size) -> Size
    ensures { result ≡ node_over (min (s.nodes + count) 65537) (min (s.height + count) 1001) }
{
    node_over(
        s.nodes.saturating_add(count).min(MAX_NODES + 1),
        s.height.saturating_add(count).min(MAX_HEIGHT + 1),
    )
}

/// The size of the formula.
#[tactic(auto, using(crate::proofs::SizeLaws::exists_counted, crate::proofs::SizeLaws::forall_counted))]
fn size_of(f: &Formula) -> Size
    ensures { result ≡ size_of (form_of f.now) }
{
    match f {
        Formula::Zero => ZERO,
        Formula::One => ONE,
        Formula::Atom(_, _) | Formula::IsNew(_) | Formula::Same(_, _) => LEAF,
        Formula::Not(g) | Formula::Closure { body: g, .. } => {
            let s = size_of(g);
            node_over(s.nodes, s.height)
        }
        Formula::Exists(_, g) | Formula::Forall(_, g) => {
            let (count, body) = counted(g);
            nodes_over(count, size_of(body))
        }
        Formula::And(g, h) | Formula::Or(g, h) | Formula::Iff(g, h) => {
            node_over_two(size_of(g), size_of(h))
        }
        Formula::Cond(c, g, h) => node_over_three(size_of(c), size_of(g), size_of(h)),
    }
}

/// Whether a formula of this size keeps both limits.
pub fn is_small_size(s: Size) -> bool
    ensures { result ≡ is_small_size s }
{
    s.nodes <= MAX_NODES && s.height <= MAX_HEIGHT
}

/// Whether the formula has at most 65,536 nodes and is at most 1,000 high.
#[tactic(auto, using(crate::proofs::SizeLaws::small_form))]
pub fn is_small(f: &Formula) -> bool
    ensures { result ≡ is_small (form_of f.now) }
{
    is_small_size(size_of(f))
}
