//! Rows of words and what they spell, of how calls end, and of the demonstration programs, through the public
//! calls of `tv_words`, `tv_status` and `tv_demo`.
#![tactic(auto)]

#[cfg(test)]
mod demos;
#[cfg(test)]
mod statuses;
#[cfg(test)]
mod words;
