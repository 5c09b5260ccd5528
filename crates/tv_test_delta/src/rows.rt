//! Updates that are formed, worked out by the table and by a second program.

ghost use Rattle.std.specs.Prelude.{IfOk};
ghost use Rattle.tv_model.specs.Program.{program_of};
ghost use Rattle.tv_model.specs.Valid.{IsValid};

use crate::alike::are_same;
use std::alloc::Global;
use std::process::Abort;
use std::test::Fail;
use tv_delta::differenced;
use tv_model::{Program, Update};
use tv_test_reader::program;

const CORE: &str = "%p b() %p c() %p x(v) %p y(v) %p n(v, w) %p m(v, w)";

/// Rows, between them `#`, of cells, between them `@`: definitions, the parts of an action without its
/// updates, updates of defined predicates, those of core ones, and the updates that differencing puts
/// behind the latter.
const ROWS: &str = "%i d() = b() & c() @ @ @ b() = 1 @ d() = d() | (!b() & c()) #
%i d() = b() & c() @ @ @ b() = 0 @ d() = d() & !(b() & c()) #
%i d() = b() | c() @ @ @ b() = 1 @ d() = d() | (!b() & !c()) #
%i d() = b() | c() @ @ @ b() = 0 @ d() = d() & !(b() & !c()) #
%i d() = !b() @ @ @ b() = c() @ d() = d() ? !(c() & !b()) : (b() & !c()) #
%i d() = b() & c() @ @ @ b() = c() c() = b() @ d() = d()
    ? !(((b() & !c()) & c()) | (b() & (c() & !b())))
    : (((c() & !b()) & (c() ? !(c() & !b()) : (b() & !c())))
        | ((b() ? !(b() & !c()) : (c() & !b())) & (b() & !c()))) #
%i d() = E(v) x(v) @ @ @ x(v) = x(v) | y(v) @ d() = d()
    ? !((E(v) (x(v) & !(x(v) | y(v))))
        & !(E(v) (x(v) ? !(x(v) & !(x(v) | y(v))) : ((x(v) | y(v)) & !x(v)))))
    : ((E(v) ((x(v) | y(v)) & !x(v))) & !(E(v) x(v))) #
%i d() = A(v) x(v) @ @ @ x(v) = 0 @ d() = d() & !((E(v) x(v)) & (A(v) x(v))) #
%i d() = A(v) x(v) @ @ @ x(v) = 1 @ d() = d() | ((E(v) !x(v)) & (A(v) (x(v) | !x(v)))) #
%i d() = b() <-> c() @ @ @ b() = 1 @ d() = d() ? !((!b() & !c()) & (!c() | b()))
    : (((!b() | c()) & !(!b() & !c())) & (!!c() & !b())) #
%i e() = b() & c() %i d() = !e() @ @ @ b() = 1 @ e() = e() | (!b() & c()) d() = d() & !(!b() & c()) #
%i d(v) = E(w) (x(w) & n*(w, v)) @ @ @ x(v) = 0 @
    d(v) = d(v) & !((E(w) (x(w) & n*(w, v)))
        & !(E(w) ((x(w) & n*(w, v)) & !(x(w) & n*(w, v))))) #
%i d() = E(v) b() @ @ @ b() = 1 @ d() = d() | ((E(v) !b()) & !(E(v) b())) #
%i d() = b() & c() @ @ @ x(v) = 1 @ #
%i d() = b() @ %new @ @ b() = 1 @ #
%i d() = c() @ %new @ @ b() = 1 @ #
%i d() = b() @ %retain x(v) @ @ b() = 1 @ #
%i d() = b() & c() @ @ @ b() = 1/2 @ #
%i d(v, w) = n*(v, w) @ @ @ n(v, w) = 0 @ #
%i d(v) = n+(v, v) @ @ @ x(v) = 0 @ #
%i d() = b() %i e() = c() @ @ e() = 0 d() = 0 @ b() = 1 x(v) = y(v) @ d() = d() | !b() #
%i d() = E(v, w) n(v, w) @ %p x(p) & y(q) @ @ n(v, w) = n(v, w) | (v == p & w == q) @ d() = d()
    ? !((E(v) ((E(w) (n(v, w) & !(n(v, w) | (v == p & w == q))))
        & !(E(w) (n(v, w) ? !(n(v, w) & !(n(v, w) | (v == p & w == q)))
            : ((n(v, w) | (v == p & w == q)) & !n(v, w))))))
        & !(E(v) ((E(w) n(v, w))
            ? !((E(w) (n(v, w) & !(n(v, w) | (v == p & w == q))))
                & !(E(w) (n(v, w) ? !(n(v, w) & !(n(v, w) | (v == p & w == q)))
                    : ((n(v, w) | (v == p & w == q)) & !n(v, w)))))
            : ((E(w) ((n(v, w) | (v == p & w == q)) & !n(v, w))) & !(E(w) n(v, w))))))
    : ((E(v) ((E(w) ((n(v, w) | (v == p & w == q)) & !n(v, w))) & !(E(w) n(v, w))))
        & !(E(v, w) n(v, w))) #
%i d(v) = E(w) n(w, v) @ @ @ n(v, w) = E(t) n(t, v) @ d(v) = d(v)
    ? !((E(w) (n(w, v) & !(E(t) n(t, w))))
        & !(E(w) (n(w, v) ? !(n(w, v) & !(E(t) n(t, w))) : ((E(t) n(t, w)) & !n(w, v)))))
    : ((E(w) ((E(t) n(t, w)) & !n(w, v))) & !(E(w) n(w, v))) #
%i d(v) = x(v) @ %p y(p) @ @ x(v) = v == p @ d(v) = d(v) ? !(x(v) & !(v == p)) : ((v == p) & !x(v))";

/// The cell in front, and the cells behind it.
fn cell(row: &str) -> (&str, &str) {
    row.split_once('@').unwrap_or((row, ""))
}

/// The program with an action of these parts and updates.
fn with_updates(
    alloc: Global,
    declared: &str,
    parts: &str,
    updates: &str,
    more: &str,
) -> Result<Program, Fail>
    ensures { IfOk result (λ p. IsValid (program_of p)) }
{
    let declarations = format!(in alloc; "{CORE} {declared}")?;
    let action = format!(in alloc; "{parts} {{ {updates} {more} }}")?;
    program(alloc, declarations.as_str(), action.as_str())
}

pub fn first_updates(p: &Program) -> &[Update] {
    match p.actions.as_slice() {
        [] => &[],
        [action, ..] => action.updates.as_slice(),
    }
}

pub fn are_all_same(a: &[Update], b: &[Update]) -> bool {
    match (a, b) {
        ([], []) => true,
        ([x, later @ ..], [y, others @ ..]) => are_same(x, y) && are_all_same(later, others),
        _ => false,
    }
}

/// Whether differencing gives the row's updates.
fn is_met(alloc: Global, row: &str) -> Result<bool, Fail> {
    let (declared, row) = cell(row);
    let (parts, row) = cell(row);
    let (defined, row) = cell(row);
    let (core, wanted) = cell(row);
    let given = with_updates(alloc, declared, parts, defined, core)?;
    let made = differenced(alloc, &given)?;
    let meant = with_updates(alloc, declared, parts, core, wanted)?;
    Ok(are_all_same(first_updates(&made), first_updates(&meant)))
}

#[test]
fn updates_are_formed(rt: HostRuntime) -> Result<(), Fail> {
    for row in ROWS.split('#') {
        assert!(rt; is_met(rt.alloc(), row)?, "{row}");
    }
    Ok(())
}
