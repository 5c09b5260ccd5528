use std::alloc::{AllocError, Global};
use std::test::Fail;
use tv_model::{Formula, PredId, Terms, Var, copy, depth, free, mentions};

const FIRST: Var = Var(0);

const SECOND: Var = Var(1);

const LEFT: Var = Var(2);

const RIGHT: Var = Var(3);

const NEXT: PredId = PredId(7);

/// The reflexive and transitive closure of the predicate `NEXT` between the first two variables.
fn reaches(alloc: Global) -> Result<Formula, AllocError> {
    let step = Formula::Atom(NEXT, Terms::Two(LEFT, RIGHT));
    let walk = Formula::Closure {
        from: FIRST,
        to: SECOND,
        left: LEFT,
        right: RIGHT,
        body: Box::new(alloc, step)?,
    };
    Ok(Formula::Or(
        Box::new(alloc, Formula::Same(FIRST, SECOND))?,
        Box::new(alloc, walk)?,
    ))
}

/// Whether a copy is shown as its original is, and answers as it should.
fn is_copied(alloc: Global) -> Result<bool, AllocError> {
    let original = reaches(alloc)?;
    let copied = copy(alloc, &original)?;
    let shown = format!(in alloc; "{copied:?}")?;
    let is_shown = shown.as_str() == format!(in alloc; "{original:?}")?.as_str();
    let mentions_next_alone = mentions(&copied, NEXT) && !mentions(&copied, PredId(0));
    let ends_are_free = free(&copied, FIRST) && free(&copied, SECOND);
    let stops_are_bound = !free(&copied, LEFT) && !free(&copied, RIGHT);
    let is_deep = depth(&copied) == 3;
    Ok(is_shown && is_deep && mentions_next_alone && ends_are_free && stops_are_bound)
}

#[test]
fn a_copy_says_the_same(rt: HostRuntime) -> Result<(), Fail> {
    assert!(rt; is_copied(rt.alloc())?);
    Ok(())
}
