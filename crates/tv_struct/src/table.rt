//! The table that keeps the values of a structure.

ghost use Rattle.std.specs.Prelude.{◌≡◌, ◌<◌, ℕ, length};
ghost use Rattle.tv_structure_form.specs.TableForm.{TableForm, IsTable, HasEntry, entry, with_entry};
ghost use Rattle.tv_struct.specs.TupleForm.{tuple_of};

use tv_kleene::K3;
use tv_model::PredId;

/// A tuple of individuals, by number, in the order of a predicate's arguments.
#[derive(Clone, Copy, Debug, PartialEq, Eq)]
pub enum Tuple {
    /// The tuple of a nullary predicate.
    Zero,
    /// The tuple of a unary predicate.
    One(u32),
    /// The tuple of a binary predicate.
    Two(u32, u32),
}

/// A table of truth values: one entry for each predicate and each tuple of its arity.
pub trait Table {
    ghost table: { Self → TableForm };

    /// The number of individuals.
    fn size(&self) -> u32
        ensures size { result ≡ (table self.now).size }
        ensures one_value_each { IsTable (table self.now) };

    /// The entry of the predicate `p` at the tuple `t`.
    fn get(&self, p: PredId, t: Tuple) -> K3
        requires { HasEntry (table self.now) p.0 (tuple_of t) }
        ensures { result ≡ entry (table self.now) p.0 (tuple_of t) };

    /// Puts `k` at the entry of the predicate `p` at the tuple `t`, and changes no other.
    fn set(&mut self, p: PredId, t: Tuple, k: K3)
        requires { HasEntry (table self.old) p.0 (tuple_of t) }
        ensures { table self.new ≡ with_entry (table self.old) p.0 (tuple_of t) k };
}
