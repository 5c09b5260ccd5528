//! Texts to tokens.
ghost use Rattle.std.specs.Prelude.{◌≡◌, ℕ, ◌+◌, ◌<◌, ◌≤◌, ◌++◌, ◌^◌, length, drop, IfOk, IfErr, OnOk};
ghost use Rattle.tv_lex.specs.Bytes.{longest_text};
ghost use Rattle.tv_lex.specs.Pieces.{Reads, Cause, AreInOrder, placed_one};

use crate::front::{Front, behind, first_piece};
use crate::token::{LexError, Token, Tokens};
use std::alloc::{AllocError, Global};

fn push_token(list: &mut Vec<Token>, found: Front, at: usize) -> Result<(), AllocError>
    requires { at + found.len < 2 ^ 32 }
    ensures { OnOk result (list.new.items ≡ list.old.items ++ placed_one found.kind at (at + found.len)) }
{
    if let Some(kind) = found.kind {
        list.push(Token {
            kind,
            start: at as u32,
            end: (at + found.len) as u32,
        })?;
    }
    Ok(())
}

/// The tokens of a text of at most 67,108,864 bytes. A place where no token, blank or comment stands ends the
/// reading.
pub fn lex(alloc: Global, bytes: &[u8]) -> Result<Tokens, LexError>
    requires { length bytes.now ≤ longest_text }
    ensures tokens { IfOk result (λ t. Reads bytes.now (Ok t.list.items)) }
    ensures order { IfOk result (λ t. AreInOrder 0 t.list.items (length bytes.now)) }
    ensures fault { IfErr result (Cause bytes.now) }
{
    let mut list = Vec::new(alloc);
    let mut at = 0;
    while at < bytes.len() {
        let found = first_piece(behind(bytes, at))?;
        push_token(&mut list, found, at)?;
        at += found.len;
    }
    Ok(Tokens { list })
}
