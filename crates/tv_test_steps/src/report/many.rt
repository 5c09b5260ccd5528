//! A structure whose focus has 6,561 choices.

use super::judged::verdict;
use std::alloc::Global;
use std::test::Fail;

const LOOK: &str =
    "%p a(v) %p b(v) %p c(v) %p x(v) %% %action Look() { %f { x(v) } } %% L0 Look() L1";

const EIGHT: &str =
    "%n = {u0, u1, u2, u3, u4, u5, u6, u7} %p = { a = {u1, u3, u5, u7} b = {u2, u3, u6, u7}
    c = {u4, u5, u6, u7} x = {u0:1/2, u1:1/2, u2:1/2, u3:1/2, u4:1/2, u5:1/2, u6:1/2, u7:1/2}
    sm = {u0:1/2, u1:1/2, u2:1/2, u3:1/2, u4:1/2, u5:1/2, u6:1/2, u7:1/2} }";

const SEVEN: &str = "%n = {u0, u1, u2, u3, u4, u5, u6} %p = { a = {u1, u3, u5} b = {u2, u3, u6}
    c = {u4, u5, u6} x = {u0:1/2, u1:1/2, u2:1/2, u3:1/2, u4:1/2, u5:1/2, u6:1/2}
    sm = {u0:1/2, u1:1/2, u2:1/2, u3:1/2, u4:1/2, u5:1/2, u6:1/2} }";

/// The step of the eight meets the budget; that seven individuals don't cover eight comes before it.
fn are_met(alloc: Global) -> Result<bool, Fail> {
    let report = format!(in alloc; "tvla report 1 node L0 structures 1 {EIGHT} end")?;
    let alone = verdict(alloc, LOOK, "", report.as_str())?;
    let seven = verdict(alloc, LOOK, SEVEN, report.as_str())?;
    Ok(alone.as_str() == "splits" && seven.as_str() == "initial 0")
}

#[test]
fn steps_that_meet_a_budget(rt: HostRuntime) -> Result<(), Fail> {
    assert!(rt; are_met(rt.alloc())?);
    Ok(())
}
