//! The parts of a demonstration program that grow with its number: its variables, and their walks.

ghost use Rattle.std.specs.Prelude.{◌≡◌, ◌≤◌, ◌++◌, OnOk};
ghost use Rattle.tv_demo.specs.Texts.{numbered, variables_text, set_text, copy_text, test_text, next_text};
ghost use Rattle.tv_demo.specs.Texts.{end_text, walk_text, walks_text};

use itoa::Buffer;
use std::alloc::AllocError;

/// Appends the text and the number.
#[tactic(auto, unfolding(crate::specs::Texts::numbered))]
fn write_numbered(out: &mut Vec<u8>, text: &[u8], n: u64) -> Result<(), AllocError>
    ensures { OnOk result (out.new.items ≡ out.old.items ++ numbered text.now n) }
{
    let mut digits = Buffer::new();
    out.extend_from_slice(text)?;
    out.extend_from_slice(digits.format(n).as_bytes())
}

/// Appends the variables up to the number.
fn write_variables(out: &mut Vec<u8>, number: u64) -> Result<(), AllocError>
    requires { number ≤ 16 }
    ensures { OnOk result (out.new.items ≡ out.old.items ++ variables_text number) }
{
    for i in 0..number {
        write_numbered(out, b", y", i + 1)?;
    }
    Ok(())
}

/// Appends the line of the set of variables: `x`, and `y1` up to the number.
pub fn write_set(out: &mut Vec<u8>, number: u64) -> Result<(), AllocError>
    requires { number ≤ 16 }
    ensures { OnOk result (out.new.items ≡ out.old.items ++ set_text number) }
{
    out.extend_from_slice(b"%s PVar {x")?;
    write_variables(out, number)?;
    out.extend_from_slice(b"}\n")
}

/// Appends the edge on which `yJ` goes to the head of the list.
#[tactic(auto, unfolding(crate::specs::Texts::copy_text))]
fn write_copy(out: &mut Vec<u8>, i: u64, j: u64) -> Result<(), AllocError>
    ensures { OnOk result (out.new.items ≡ out.old.items ++ copy_text i j) }
{
    write_numbered(out, b"A", i)?;
    write_numbered(out, b" Copy_Var(y", j)?;
    write_numbered(out, b", x) B", i)?;
    out.extend_from_slice(b"\n")
}

/// Appends the edge on which `yJ` is at a cell.
fn write_test(out: &mut Vec<u8>, i: u64, j: u64) -> Result<(), AllocError>
    ensures { OnOk result (out.new.items ≡ out.old.items ++ test_text i j) }
{
    write_numbered(out, b"B", i)?;
    write_numbered(out, b" Is_Not_Null_Var(y", j)?;
    write_numbered(out, b") C", i)?;
    out.extend_from_slice(b"\n")
}

/// Appends the edge on which `yJ` goes to the next cell.
fn write_next(out: &mut Vec<u8>, i: u64, j: u64) -> Result<(), AllocError>
    ensures { OnOk result (out.new.items ≡ out.old.items ++ next_text i j) }
{
    write_numbered(out, b"C", i)?;
    write_numbered(out, b" Get_Next_L(y", j)?;
    write_numbered(out, b", y", j)?;
    write_numbered(out, b") B", i)?;
    out.extend_from_slice(b"\n")
}

/// Appends the edge on which `yJ` has passed the end of the list.
fn write_end(out: &mut Vec<u8>, i: u64, j: u64) -> Result<(), AllocError>
    ensures { OnOk result (out.new.items ≡ out.old.items ++ end_text i j) }
{
    write_numbered(out, b"B", i)?;
    write_numbered(out, b" Is_Null_Var(y", j)?;
    write_numbered(out, b") A", j)?;
    out.extend_from_slice(b"\n")
}

/// Appends the edges of one walk.
fn write_walk(out: &mut Vec<u8>, i: u64, j: u64) -> Result<(), AllocError>
    ensures { OnOk result (out.new.items ≡ out.old.items ++ walk_text i j) }
{
    write_copy(out, i, j)?;
    write_test(out, i, j)?;
    write_next(out, i, j)?;
    write_end(out, i, j)
}

/// Appends the edges of that many walks.
pub fn write_walks(out: &mut Vec<u8>, number: u64) -> Result<(), AllocError>
    requires { number ≤ 16 }
    ensures { OnOk result (out.new.items ≡ out.old.items ++ walks_text number) }
{
    for i in 0..number {
        write_walk(out, i, i + 1)?;
    }
    Ok(())
}
