//! Heads of edges, and the lines of files in them, by example.

ghost use Rattle.std.specs.Prelude.{◌≤◌, length};
ghost use Rattle.tv_lex.specs.Bytes.{longest_text};

use std::alloc::Global;
use std::test::Fail;
use tv_edge_heads::edge_heads;
use tv_lex::{Gathered, MAX_TEXT, gather, lex};
use tv_model::Bytes;
use tv_outside::MemFiles;
use tv_parse::parse_program;

/// Rows, divided by `|`. A row has files, divided by `~`, each with its name in front of `=`, and behind `$`
/// the heads of the edges of the first one, each in a line. `;` stands for a line feed; those of the table
/// count for nothing.
static FILES: &[u8] = b"a=%%%%$|
a=%%;%action B() {};%%;L1 B() L2;L2 B() L3;$
a:4  L1 B ( ) L2;a:5  L2 B ( ) L3|
a=%% %action B() {} %% L1 B() L2 L3 B() L4 %% L1, L2, L3$
a:1  L1 B ( ) L2;a:1  L3 B ( ) L4|
a=%% %action B(x, y) {};%%;;/* ;; */ L1 B(x,;y);L2 // c;1 B(x, y) 2 %%$
a:6  L1 B ( x , y ) L2;a:9  1 B ( x , y ) 2|
a=// L0 B() L0;%%;%action B() {};%% // c;/* L8 B() L9;*/ L1 B() L2 // L2 B() L3;/**/ L3 B() L4$
a:6  L1 B ( ) L2;a:7  L3 B ( ) L4|
d/a=#include \"b\";%%;#include \"c\";1 B(x) 2;~d/b=%%;;%action B(x) {};;~d/c=; ;  0 B(x) 1;0 B(x) 2$
d/c:3  0 B ( x ) 1;d/c:4  0 B ( x ) 2;d/a:4  1 B ( x ) 2|
a=%% %action B(x, y) {} %%;L1 B(x,;#include \"b\";) L2;L2 B(x, y) L3;~b=y$
a:2  L1 B ( x , y ) L2;a:5  L2 B ( x , y ) L3|
a=%% %action B() {} %%;L1 B() L2;#include \"b\";B() L3 /* c */ L4 B();L5~b=;L2$
a:2  L1 B ( ) L2;b:2  L2 B ( ) L3;a:4  L4 B ( ) L5|
a=%% %action B() {} %%;#include \"b\";L2 B() L2;#include \"b\";L3 B() L3;~b=L1 B() L1$
b:1  L1 B ( ) L1;a:3  L2 B ( ) L2;b:1  L1 B ( ) L1;a:5  L3 B ( ) L3|
a=%% %action B() {} %%;#include \"b\";~b=;#include \"c\"\r;#include \"c\"~c=L1 B() L1$
c:1  L1 B ( ) L1;c:1  L1 B ( ) L1|
a=%% %action B() {} %%;#include \"d/b\";L5 B() L6~d/b=L1 B() L2;#include \"c\";L4 B() L5~d/c=L2 B() L3;L3 B() L4$
d/b:1  L1 B ( ) L2;d/c:1  L2 B ( ) L3;d/c:2  L3 B ( ) L4;d/b:3  L4 B ( ) L5;a:3  L5 B ( ) L6";

/// What stands in front of the first byte like this, and behind it.
fn parted(row: &[u8], mark: u8) -> Result<(&[u8], &[u8]), Fail> {
    let cut = row.iter().take_while(|b| **b != mark).count();
    if cut >= row.len() {
        return Err("no mark".into());
    }
    Ok((&row[..cut], &row[cut + 1..]))
}

/// The bytes but for line feeds, with a line feed for each `;`.
fn lines(alloc: Global, text: &[u8]) -> Result<Vec<u8>, Fail> {
    let mut bytes = Vec::new(alloc);
    for b in text.iter().filter(|b| **b != b'\n') {
        bytes.push(if *b == b';' { b'\n' } else { *b })?;
    }
    Ok(bytes)
}

/// The files, and the name of the first.
fn files_of(alloc: Global, text: &[u8]) -> Result<(MemFiles, String), Fail> {
    let mut names = Vec::new(alloc);
    let mut contents = Vec::new(alloc);
    for file in text.split(|b| *b == b'~') {
        let (name, content) = parted(file, b'=')?;
        let name = String::from_utf8(lines(alloc, name)?)
            .ok()
            .ok_or("no text")?;
        names.push(name)?;
        contents.push(lines(alloc, content)?)?;
    }
    if names.is_empty() || names.len() != contents.len() {
        return Err("no files".into());
    }
    let first = names[0].clone()?;
    Ok((MemFiles::new(names, contents, 7, Vec::new(alloc)), first))
}

/// The heads of the edges of a text.
fn heads(alloc: Global, gathered: &Gathered) -> Result<Vec<Bytes>, Fail>
    requires { length gathered.now.bytes.items ≤ longest_text }
{
    let Ok(tokens) = lex(alloc, &gathered.bytes) else {
        return Err("no tokens".into());
    };
    let Ok(tree) = parse_program(alloc, &gathered.bytes, &tokens) else {
        return Err("no tree".into());
    };
    Ok(edge_heads(alloc, gathered, &tokens, &tree)?)
}

/// The same of a text that isn't too long.
fn heads_in(alloc: Global, gathered: &Gathered) -> Result<Vec<Bytes>, Fail> {
    if gathered.bytes.len() > MAX_TEXT {
        return Err("too long".into());
    }
    heads(alloc, gathered)
}

/// The heads, with line feeds between.
fn joined(alloc: Global, heads: &[Bytes]) -> Result<Vec<u8>, Fail> {
    let mut out = Vec::new(alloc);
    for head in heads {
        if !out.is_empty() {
            out.push(b'\n')?;
        }
        out.extend_from_slice(head.as_slice())?;
    }
    Ok(out)
}

/// Whether the edges of the first file of a row have the heads that it says.
fn is_met(alloc: Global, row: &[u8]) -> Result<bool, Fail> {
    let (text, wanted) = parted(row, b'$')?;
    let (mut files, name) = files_of(alloc, text)?;
    let Ok(gathered) = gather(alloc, &mut files, name.as_str()) else {
        return Err("not gathered".into());
    };
    let heads = heads_in(alloc, &gathered)?;
    Ok(joined(alloc, &heads)? == lines(alloc, wanted)?)
}

#[test]
fn heads_by_example(rt: HostRuntime) -> Result<(), Fail> {
    for row in FILES.split(|byte| *byte == b'|') {
        assert!(rt; is_met(rt.alloc(), row)?, "{row:?}");
    }
    Ok(())
}
