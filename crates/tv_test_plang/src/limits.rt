//! Texts that are refused, and programs at the limits.

use crate::texts::compiled;
use std::alloc::Global;
use std::test::Fail;
use tv_plang::SourceError;

/// So many statements.
fn statements(alloc: Global, count: usize) -> Result<String, Fail> {
    let mut text = String::new(alloc);
    text.push_str("vars {x} fields {n}")?;
    for _ in 0..count {
        text.push_str(" x = x")?;
    }
    Ok(text)
}

/// So many variables, and one field.
fn variables(alloc: Global, count: usize) -> Result<String, Fail> {
    let mut text = String::new(alloc);
    text.push_str("vars {x")?;
    for i in 1..count {
        text.push_str(format!(in alloc; ", x{i}")?.as_str())?;
    }
    text.push_str("} fields {n} x = null")?;
    Ok(text)
}

/// How a text ends: compiled, or refused so.
fn ending(alloc: Global, text: &str) -> Result<&'static str, Fail> {
    Ok(match compiled(alloc, text)? {
        Ok(_) => "compiled",
        Err(SourceError::TooDeep) => "TooDeep",
        Err(SourceError::Syntax(_)) => "Syntax",
        Err(SourceError::Reserved) => "Reserved",
        Err(SourceError::NameTwice) => "NameTwice",
        Err(SourceError::NameUnknown) => "NameUnknown",
        Err(SourceError::TooMany) => "TooMany",
        Err(SourceError::Memory) => "Memory",
    })
}

/// Texts of which a name is refused.
static NAMES: [(&str, &str); 3] = [
    ("vars {x, x} fields {n} x = null", "NameTwice"),
    ("vars {x} fields {n} x = z", "NameUnknown"),
    ("vars {sm} fields {n} sm = null", "Reserved"),
];

#[test]
fn names_are_refused(rt: HostRuntime) -> Result<(), Fail> {
    for (text, wanted) in NAMES.iter() {
        assert_eq!(rt; ending(rt.alloc(), text)?, *wanted, "{text}");
    }
    Ok(())
}

fn statements_end(alloc: Global, count: usize) -> Result<&'static str, Fail> {
    let text = statements(alloc, count)?;
    ending(alloc, text.as_str())
}

fn variables_end(alloc: Global, count: usize) -> Result<&'static str, Fail> {
    let text = variables(alloc, count)?;
    ending(alloc, text.as_str())
}

/// 4,095 statements and `Exit` are 4,096 nodes.
#[test]
fn many_statements_are_refused(rt: HostRuntime) -> Result<(), Fail> {
    assert_eq!(rt; statements_end(rt.alloc(), 4095)?, "compiled");
    assert_eq!(rt; statements_end(rt.alloc(), 4096)?, "TooMany");
    Ok(())
}

/// 255 variables, a field, and 255 predicates of what they reach are 511.
#[test]
fn many_variables_are_refused(rt: HostRuntime) -> Result<(), Fail> {
    assert_eq!(rt; variables_end(rt.alloc(), 255)?, "compiled");
    assert_eq!(rt; variables_end(rt.alloc(), 256)?, "TooMany");
    Ok(())
}
