//! The demonstration programs: their texts, and what they mean.
use std::alloc::Global;
use std::test::Fail;
use tv_demo::demo_texts;
use tv_front::read_program;

/// How the text of the program of two walks begins, and how it ends.
const BEGINNING: &str = "%s PVar {x, y1, y2}
foreach (z in PVar) {
  %p z(v_1) unique box
}
%p n(v_1, v_2) function
";

const END: &str = "    r[n,lhs](v) = r[n,rhs](v) & !rhs(v)
  }
}
%%
A0 Copy_Var(y1, x) B0
B0 Is_Not_Null_Var(y1) C0
C0 Get_Next_L(y1, y1) B0
B0 Is_Null_Var(y1) A1
A1 Copy_Var(y2, x) B1
B1 Is_Not_Null_Var(y2) C1
C1 Get_Next_L(y2, y2) B1
B1 Is_Null_Var(y2) A2
";

const LISTS: &str = "%n = {h, u}
%p = {
  x = {h}
  n = {h->u:1/2, u->u:1/2}
  t[n] = {h->h, h->u, u->u:1/2}
  r[n,x] = {h, u}
  sm = {u:1/2}
}
";

#[test]
fn two_walks(rt: HostRuntime) -> Result<(), Fail> {
    let texts = demo_texts(rt.alloc(), 2)?;
    assert!(rt;
        texts.program.starts_with(BEGINNING.as_bytes()),
        "the beginning"
    );
    assert!(rt; texts.program.ends_with(END.as_bytes()), "the end");
    assert_eq!(rt; texts.initial.as_slice(), LISTS.as_bytes());
    Ok(())
}

/// How many predicates, rules, actions, edges and nodes the program of that many walks has, if it is one.
fn counts(alloc: Global, number: u64) -> Result<[usize; 5], Fail> {
    if number == 0 || number > 16 {
        return Err(Fail::new("no number"));
    }
    let texts = demo_texts(alloc, number)?;
    if texts.program.len() > 10_000 {
        return Err(Fail::new("too long"));
    }
    match read_program(alloc, &texts.program) {
        Ok(program) => Ok([
            program.vocab.preds.len(),
            program.rules.len(),
            program.actions.len(),
            program.edges.len(),
            program.nodes.len(),
        ]),
        Err(_) => Err(Fail::new("no program")),
    }
}

#[test]
fn each_number_means_a_program(rt: HostRuntime) -> Result<(), Fail> {
    // A walk adds a variable and what is reached from it; four actions and edges; three nodes.
    let rows: [(u64, [usize; 5]); 3] = [
        (1, [6, 2, 4, 4, 4]),
        (2, [8, 2, 8, 8, 7]),
        (16, [36, 2, 64, 64, 49]),
    ];
    for (number, want) in rows.iter() {
        let got = counts(rt.alloc(), *number)?;
        assert_eq!(rt; got.as_slice(), want.as_slice(), "at {number}");
    }
    Ok(())
}
