//! Rows of source programs that are read and refused, through the public calls of `tv_source_names`.
#![tactic(auto)]

#[cfg(test)]
mod drawn;
#[cfg(test)]
mod limits;
#[cfg(test)]
mod rows;
