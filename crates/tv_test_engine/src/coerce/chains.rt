//! Chains of 64 and of 65 individuals under a transitive predicate: from each individual all later ones are
//! reached.

use super::coerced::coerced;
use std::alloc::{AllocError, Global};
use std::process::Abort;
use std::test::Fail;
use tv_test_reader::{individuals, program, put_list, structure};

/// The pairs of an earlier and a later individual, with the value where they aren't neighbours.
fn pairs(alloc: Global, size: u32, value: &str) -> Result<Vec<String>, AllocError> {
    let mut items = Vec::new(alloc);
    for x in 0..size {
        for u in 0..x {
            let value = if x - u == 1 { "" } else { value };
            items.push(format!(in alloc; "u{u}->u{x}{value}")?)?;
        }
    }
    Ok(items)
}

/// The structure in which these pairs have the value, neighbours are related, and no others are.
fn chain(alloc: Global, size: u32, value: &str) -> Result<String, AllocError> {
    let mut text = String::new(alloc);
    put_list(&mut text, "%n", individuals(alloc, size, "")?.as_slice())?;
    text.push_str("%p = { ")?;
    put_list(&mut text, "p", pairs(alloc, size, value)?.as_slice())?;
    text.push_str("}")?;
    Ok(text)
}

/// Whether all later individuals are reached where that is unknown at first.
fn is_closed(alloc: Global, size: u32) -> Result<bool, Fail> {
    let program = program(alloc, "%p p(v, w) transitive", "")?;
    let s = structure(alloc, &program, chain(alloc, size, ":1/2")?.as_str())?;
    let wanted = structure(alloc, &program, chain(alloc, size, "")?.as_str())?;
    match coerced(alloc, &program, &s)? {
        None => Ok(false),
        Some(found) => Ok(found == wanted),
    }
}

#[test]
fn long_chains_close(rt: HostRuntime) -> Result<(), Fail> {
    for size in [64, 65].iter() {
        let is = is_closed(rt.alloc(), *size)?;
        assert!(rt; is, "{size} individuals");
    }
    Ok(())
}
