//! Rows of what finite differencing makes of small programs, through the public calls of `tv_delta`.
#![tactic(auto)]

#[cfg(test)]
mod alike;
#[cfg(test)]
mod limits;
#[cfg(test)]
mod rows;
