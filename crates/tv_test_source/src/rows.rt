//! Source programs that are read, and texts that are refused. Programs and places were worked out by hand: a
//! place is that of the first token that can't stand where it does, or of the end of the text.

use crate::drawn::answer;
use std::alloc::Global;
use std::test::Fail;

/// Texts of which none is refused, and the same with numbers for names.
static READ: [(&str, &str); 22] = [
    (
        "vars {x, y} fields {n} y = x while (y != null) { y = y->n }",
        "x y | n | 1=0 while(1!=null){ 1=1->0 } ",
    ),
    ("vars {x} fields {n} x = null", "x | n | 0=null "),
    ("vars {x} fields {n} x = new", "x | n | 0=new "),
    ("vars {x,y} fields {n} x = y", "x y | n | 0=1 "),
    ("vars {x,y} fields {m,n} x = y->n", "x y | m n | 0=1->1 "),
    ("vars {x,y} fields {m,n} y->m = x", "x y | m n | 1->0=0 "),
    (
        "vars {x,y} fields {m,n} x->n = null",
        "x y | m n | 0->1=null ",
    ),
    (
        "vars{x}fields{n}if(x==null){x=new}else{x=x->n}",
        "x | n | if(0==null){ 0=new }{ 0=0->0 } ",
    ),
    (
        "vars{x}fields{n}if(x!=null){x=new}x=null",
        "x | n | if(0!=null){ 0=new }{ } 0=null ",
    ),
    (
        "vars{x,y}fields{n}if(x==y){}else{}",
        "x y | n | if(0==1){ }{ } ",
    ),
    (
        "vars{x,y}fields{n}while(y!=x){while(*){}}",
        "x y | n | while(1!=0){ while(*){ } } ",
    ),
    (
        "vars{x}fields{n}if(*){if(*){}}else{if(*){}else{x=x}}",
        "x | n | if(*){ if(*){ }{ } }{ if(*){ }{ 0=0 } } ",
    ),
    (
        "/* a */ vars { x } // b\nfields\t{ n }\r\nx // c\n= /* d */ null",
        "x | n | 0=null ",
    ),
    (
        "vars {v1,_} fields {Null,New_} _->Null = v1",
        "v1 _ | Null New_ | 1->0=0 ",
    ),
    (
        "vars {x} fields {r,unique} x = x->unique",
        "x | r unique | 0=0->1 ",
    ),
    (
        "vars {IF} fields {Else} IF->Else = IF",
        "IF | Else | 0->0=0 ",
    ),
    (
        "vars {is_New} fields {SM} is_New->SM = null",
        "is_New | SM | 0->0=null ",
    ),
    (
        "vars {e,a,tc} fields {For} a = tc->For",
        "e a tc | For | 1=2->0 ",
    ),
    ("vars {x} fields {n} x=x x=x x=x", "x | n | 0=0 0=0 0=0 "),
    (
        "vars {x} fields {n} x=x->n x->n=x x=new",
        "x | n | 0=0->0 0->0=0 0=new ",
    ),
    (
        "vars {x} fields {n} while(x==x){x=null}",
        "x | n | while(0==0){ 0=null } ",
    ),
    (
        "vars {z, y, x} fields {c, b, a} x->a = z",
        "z y x | c b a | 2->2=0 ",
    ),
];

/// Texts that aren't of the grammar, and the place.
static UNLIKE: [(&str, &str); 52] = [
    ("", "1:1"),
    ("vars", "1:5"),
    ("fields", "1:1"),
    ("vars {}", "1:7"),
    ("vars {x", "1:8"),
    ("vars {x,", "1:9"),
    ("vars {x,}", "1:9"),
    ("vars {x y}", "1:9"),
    ("vars {x} x", "1:10"),
    ("vars {x} fields {} x = null", "1:18"),
    ("vars {x} fields {n}", "1:20"),
    ("vars {x} fields {n}\n  ", "2:3"),
    ("vars {1} fields {n} x = null", "1:7"),
    ("vars {E} fields {n} x = null", "1:7"),
    ("vars {x} fields {in} x = null", "1:18"),
    ("vars {TC} fields {n} x = null", "1:7"),
    ("vars {foreach} fields {n} x = null", "1:7"),
    ("vars {vars} fields {n} x = null", "1:7"),
    ("vars {x, if} fields {n} x = null", "1:10"),
    ("vars {x} fields {while} x = null", "1:18"),
    ("vars {x} fields {fields} x = null", "1:18"),
    ("vars {null} fields {n} x = null", "1:7"),
    ("vars {x} fields {new} x = null", "1:18"),
    ("vars {x} fields {else} x = null", "1:18"),
    ("vars {x} fields {n} x", "1:22"),
    ("vars {x} fields {n} x =", "1:24"),
    ("vars {x} fields {n} x = 1", "1:25"),
    ("vars {x} fields {n} x == x", "1:23"),
    ("vars {x} fields {n} x = new x", "1:30"),
    ("vars {x} fields {n} x = null x->", "1:33"),
    ("vars {x} fields {n} null = x", "1:21"),
    ("vars {x} fields {n} x = x->null", "1:28"),
    ("vars {x} fields {n} x = x->n->n", "1:29"),
    ("vars {x} fields {n} x->n = new", "1:28"),
    ("vars {x} fields {n} x->n = x->n", "1:29"),
    ("vars {x} fields {n} x->n x", "1:26"),
    ("vars {x} fields {n} x->if = x", "1:24"),
    ("vars {x} fields {n} x = null ,", "1:30"),
    ("vars {x} fields {n} x = null }", "1:30"),
    ("vars {x} fields {n} { x = null }", "1:21"),
    ("vars {x} fields {n} else { }", "1:21"),
    ("vars {x} fields {n} if x == null { }", "1:24"),
    ("vars {x} fields {n} if (x) { }", "1:26"),
    ("vars {x} fields {n} if () { }", "1:25"),
    ("vars {x} fields {n} if (null == x) { }", "1:25"),
    ("vars {x} fields {n} if (x = null) { }", "1:27"),
    ("vars {x} fields {n} if (x == new) { }", "1:30"),
    ("vars {x} fields {n} if (*) x = null", "1:28"),
    ("vars {x} fields {n} if (*) { } else x = null", "1:37"),
    ("vars {x} fields {n} if (*) { } else if (*) { }", "1:37"),
    ("vars {x} fields {n} while (*) { x = null", "1:41"),
    ("vars {x} fields {n} while (*) { }\nelse { }", "2:1"),
];

/// Texts of the grammar of which a name is refused.
static NAMES: [(&str, &str); 22] = [
    ("vars {x, x} fields {n} x = null", "NameTwice"),
    ("vars {x} fields {n} x = z", "NameUnknown"),
    ("vars {sm} fields {n} sm = null", "Reserved"),
    ("vars {x} fields {isNew} x = null", "Reserved"),
    ("vars {x, isNew} fields {x} x = null", "Reserved"),
    ("vars {x, x, sm} fields {n} x = null", "NameTwice"),
    ("vars {x} fields {n, sm, n} x = null", "Reserved"),
    ("vars {x} fields {x} x = null", "NameTwice"),
    ("vars {x} fields {n, m, n} y = null", "NameTwice"),
    ("vars {x} fields {n, x} y = null", "NameTwice"),
    ("vars {x} fields {n} n = null", "NameUnknown"),
    ("vars {x} fields {n} x = n", "NameUnknown"),
    ("vars {x} fields {n} x = x->x", "NameUnknown"),
    ("vars {x} fields {n} x->x = x", "NameUnknown"),
    ("vars {x} fields {n} x->n = n", "NameUnknown"),
    ("vars {x} fields {n} y->n = null", "NameUnknown"),
    ("vars {x} fields {n} sm = null", "NameUnknown"),
    ("vars {x} fields {n} if (y == null) { }", "NameUnknown"),
    ("vars {x} fields {n} if (x == n) { }", "NameUnknown"),
    (
        "vars {x} fields {n} while (*) { x = null y = null }",
        "NameUnknown",
    ),
    (
        "vars {x} fields {n} if (*) { } else { x = x->m }",
        "NameUnknown",
    ),
    ("vars {x} fields {n} x = X", "NameUnknown"),
];

fn agrees(alloc: Global, text: &str, wanted: &str) -> Result<bool, Fail> {
    let bytes = text.as_bytes();
    if bytes.len() > 10_000 {
        return Err(Fail::new("too long"));
    }
    let found = answer(alloc, bytes)?;
    Ok(found.as_str() == wanted)
}

/// The first text that isn't read as wanted.
fn first_wrong(
    alloc: Global,
    rows: &[(&'static str, &'static str)],
) -> Result<Option<&'static str>, Fail> {
    for (text, wanted) in rows {
        if !agrees(alloc, text, wanted)? {
            return Ok(Some(text));
        }
    }
    Ok(None)
}

#[test]
fn texts_are_read_or_refused_in_order(rt: HostRuntime) -> Result<(), Fail> {
    assert_eq!(rt; first_wrong(rt.alloc(), &READ)?, None);
    assert_eq!(rt; first_wrong(rt.alloc(), &UNLIKE)?, None);
    assert_eq!(rt; first_wrong(rt.alloc(), &NAMES)?, None);
    Ok(())
}
