//! Rows of files, include lines, tokens and places, through the public calls of `tv_outside` and `tv_lex`.

mod cells;
mod includes;
mod outside;
mod tokens;
