//! Programs, formulas, actions and heaps as texts.

use std::alloc::{AllocError, Global};
use std::test::Fail;
use tv_concrete::{HeapList, Tuple, Values};
use tv_front::read_program;
use tv_model::{Action, Items, Program};

/// The predicates of all rows.
const PREDICATES: &str = "%p b() %p x(v) unique %p n(v, w) %i e(v) = E(w) n(v, w)";

/// The program whose one action has these parts.
pub fn program(alloc: Global, parts: &str) -> Result<Program, Fail> {
    let text = format!(in alloc;
        "{} %% %action Act() {{ {} }} %% L Act() L",
        PREDICATES, parts
    )?;
    if text.as_str().len() > 10_000 {
        return Err(Fail::new("too long"));
    }
    let program = read_program(alloc, text.as_str().as_bytes());
    Ok(program.ok().ok_or("no program")?)
}

/// The action of a program that has one.
pub fn action(program: &Program) -> Result<&Action, Fail> {
    Ok(program.actions.as_slice().first().ok_or("no action")?)
}

/// A heap over the predicates of a program, in words: the numbers of its individuals, `p(..)` for each tuple
/// that the predicate `p` holds of, and `new(u)` for the fresh individual. Individuals are digits.
pub fn heap(alloc: Global, program: &Program, text: &str) -> Result<HeapList, AllocError> {
    let mut extents = Items::new(alloc);
    for pred in program.vocab.preds.as_slice() {
        extents.push(tuples(alloc, pred.name.as_slice(), text)?)?;
    }
    Ok(HeapList {
        individuals: individuals(alloc, text)?,
        extents,
        fresh: fresh(text),
    })
}

fn individuals(alloc: Global, text: &str) -> Result<Tuple, AllocError> {
    let mut found = Items::new(alloc);
    for word in text.split_whitespace() {
        if let [digit @ b'0'..=b'9'] = word.as_bytes() {
            found.push(number(*digit))?;
        }
    }
    Ok(found)
}

fn tuples(alloc: Global, name: &[u8], text: &str) -> Result<Items<Tuple>, AllocError> {
    let mut found = Items::new(alloc);
    for word in text.split_whitespace() {
        if let Some(arguments) = arguments(word.as_bytes(), name) {
            found.push(numbers(alloc, arguments)?)?;
        }
    }
    Ok(found)
}

fn fresh(text: &str) -> Option<u32> {
    for word in text.split_whitespace() {
        if let Some([digit, ..]) = arguments(word.as_bytes(), b"new") {
            return Some(number(*digit));
        }
    }
    None
}

/// What stands behind the parenthesis of a word with that name.
fn arguments<'a>(word: &'a [u8], name: &[u8]) -> Option<&'a [u8]> {
    match word.strip_prefix(name) {
        Some([b'(', arguments @ ..]) => Some(arguments),
        _ => None,
    }
}

fn numbers(alloc: Global, arguments: &[u8]) -> Result<Tuple, AllocError> {
    let mut found = Items::new(alloc);
    for byte in arguments {
        if byte.is_ascii_digit() {
            found.push(number(*byte))?;
        }
    }
    Ok(found)
}

fn number(digit: u8) -> u32 {
    u32::from(digit.saturating_sub(b'0'))
}

/// What the picked variables of an action stand for: individuals as digits, in order.
pub fn picked(action: &Action, text: &str) -> Values {
    let mut values = Values::blank();
    for (var, digit) in action.picks.as_slice().iter().zip(text.as_bytes()) {
        values = values.with(*var, number(*digit));
    }
    values
}
