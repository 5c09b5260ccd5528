//! Control edges, each behind its number, with the messages of its action.

ghost use Rattle.std.specs.Prelude.{◌≡◌, ◌++◌, IfOk, OnOk, codes, decimal, map};
ghost use Rattle.tv_model.specs.Program.{program_of, message_of};
ghost use Rattle.tv_explain_text.specs.Texts.{edge_text, edges_text, message_line, message_lines};
ghost use Rattle.tv_explain_text.specs.Texts.{messages_at, numbered_edge};

use std::alloc::{AllocError, Global};
use tv_edge_heads::head_at;
use tv_file_lines::append_numbered;
use tv_model::{Bytes, Message, Program};

/// The messages of the action of the edge that has this number.
pub fn messages_at(program: &Program, number: usize) -> &[Message]
    ensures { map message_of result.now ≡ messages_at (program_of program.now) number }
{
    let Some(edge) = program.edges.as_slice().get(number) else {
        return &[];
    };
    let Some(action) = program.actions.as_slice().get(edge.action as usize) else {
        return &[];
    };
    action.messages.as_slice()
}

/// Appends a message, behind its number.
fn append_message(out: &mut Vec<u8>, number: usize, message: &Message) -> Result<(), AllocError>
    ensures { OnOk result (out.new.items ≡ out.old.items ++ message_line number (message_of message.now)) }
{
    append_numbered(out, b"  message ", number)?;
    out.extend_from_slice(b" \"")?;
    out.extend_from_slice(message.text.as_slice())?;
    out.extend_from_slice(b"\"\n")
}

/// Appends messages, each behind its number.
fn append_messages(out: &mut Vec<u8>, messages: &[Message]) -> Result<(), AllocError>
    ensures { OnOk result (out.new.items ≡ out.old.items ++ message_lines 0 (map message_of messages.now)) }
{
    for number in 0..messages.len() {
        append_message(out, number, &messages[number])?;
    }
    Ok(())
}

/// Appends the head of an edge, behind the edge's number.
pub(crate) fn append_numbered_edge(
    out: &mut Vec<u8>,
    number: usize,
    head: &[u8],
) -> Result<(), AllocError>
    ensures { OnOk result (out.new.items ≡ out.old.items ++ numbered_edge number head.now) }
{
    append_numbered(out, b"edge ", number)?;
    out.extend_from_slice(b"  ")?;
    out.extend_from_slice(head)
}

/// Appends the line of an edge, and the messages of its action.
fn append_edge(
    out: &mut Vec<u8>,
    program: &Program,
    number: usize,
    head: &[u8],
) -> Result<(), AllocError>
    ensures { OnOk result
        (out.new.items ≡ out.old.items ++ edge_text (program_of program.now) number head.now) }
{
    append_numbered_edge(out, number, head)?;
    out.extend_from_slice(b"\n")?;
    append_messages(out, messages_at(program, number))
}

/// The control edges of a program by their heads, which are given in the edges' order; it counts from 0. Each
/// stands in a line, behind its number: `edge 3  p.tvp:8  L1 Copy_Var ( y , x ) L2`; and behind it the
/// messages of its action, each in a line: `  message 0 "null dereference of x"`.
///
/// # Errors
/// Lack of memory.
pub fn edges_text(alloc: Global, program: &Program, heads: &[Bytes]) -> Result<Vec<u8>, AllocError>
    ensures { IfOk result (λ text. text.items ≡ edges_text (program_of program.now) 0 heads.now) }
{
    let mut out = Vec::new(alloc);
    for number in 0..heads.len() {
        append_edge(&mut out, program, number, head_at(heads, number))?;
    }
    Ok(out)
}
