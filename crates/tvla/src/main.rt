//! The program `tvla`: the analyzer over real files, standard output and standard error.
#![tactic(auto)]

mod call;

use call::called;
use std::env;
use std::process::ExitCode;
use tv_real::{RealFiles, standard};

fn main(rt: HostRuntime) -> ExitCode {
    called(
        rt.alloc(),
        env::args(&rt),
        &mut RealFiles::new(&rt),
        &mut standard(&rt),
    )
}
