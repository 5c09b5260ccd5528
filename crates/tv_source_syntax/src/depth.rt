//! How many parentheses and braces are open at once.

ghost use Rattle.std.specs.Prelude.{◌≡◌, ◌≤◌};
ghost use Rattle.tv_lex.specs.Token.{spec_token, spec_tokens};
ghost use Rattle.tv_source_syntax.specs.Depth.{opens, closes, open_after, passes_depth};

use tv_lex::{Token, text};
use tv_phrases::is_spelled;

fn opens(word: &[u8]) -> bool
    ensures { result ≡ opens word.now }
{
    is_spelled(word, b"(") || is_spelled(word, b"{")
}

fn closes(word: &[u8]) -> bool
    ensures { result ≡ closes word.now }
{
    is_spelled(word, b")") || is_spelled(word, b"}")
}

// How many are open behind the token, where so many were open before it.
fn open_after(depth: u32, bytes: &[u8], token: &Token) -> u32
    requires { depth ≤ 200 }
    ensures { result ≡ open_after depth (spec_token bytes.now token.now) }
{
    let word = text(bytes, token);
    if opens(word) {
        depth + 1
    } else if closes(word) {
        depth.saturating_sub(1)
    } else {
        depth
    }
}

/// Whether over 200 parentheses and braces are open at one place.
#[tactic(auto, using(crate::proofs::Depths::further, crate::proofs::Depths::past))]
pub fn is_too_deep(bytes: &[u8], tokens: &[Token]) -> bool
    ensures { result ≡ passes_depth 0 (spec_tokens bytes.now tokens.now) }
{
    let mut depth = 0;
    let mut rest = tokens;
    'tokens: while let Some((token, behind)) = rest.split_first() {
        depth = open_after(depth, bytes, token);
        if depth > 200 {
            return true;
        }
        rest = behind;
    }
    false
}
