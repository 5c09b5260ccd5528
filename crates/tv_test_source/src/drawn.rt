//! Source programs as texts, and what is read of them.

ghost use Rattle.std.specs.Prelude.{◌≤◌, length};
ghost use Rattle.tv_lex.specs.Bytes.{longest_text};

use std::alloc::{AllocError, Global};
use std::test::Fail;
use tv_lex::{LexError, lex};
use tv_model::Names;
use tv_source::{Assign, Block, Source, Statement, Test};
use tv_source_names::{SourceReadError, read_source};

/// What a text is read as. `text` isn't longer than a file may be.
pub fn read(alloc: Global, text: &[u8]) -> Result<Result<Source, SourceReadError>, Fail>
    requires { length text.now ≤ longest_text }
{
    let tokens = match lex(alloc, text) {
        Ok(tokens) => tokens,
        Err(LexError::Memory) => return Err(Fail::new("no memory")),
        Err(_) => return Err(Fail::new("no tokens")),
    };
    Ok(read_source(alloc, text, &tokens))
}

fn names(alloc: Global, names: &Names) -> Result<String, AllocError> {
    let mut out = String::new(alloc);
    for name in names.as_slice() {
        for byte in name.as_slice() {
            out.push(char::from(*byte))?;
        }
        out.push(' ')?;
    }
    Ok(out)
}

/// Variables and fields by number, in the order of the text.
fn assign(alloc: Global, assign: Assign) -> Result<String, AllocError> {
    match assign {
        Assign::Null(x) => format!(in alloc; "{}=null ", x.0),
        Assign::New(x) => format!(in alloc; "{}=new ", x.0),
        Assign::Copy(x, y) => format!(in alloc; "{}={} ", x.0, y.0),
        Assign::Load(x, y, f) => format!(in alloc; "{}={}->{} ", x.0, y.0, f.0),
        Assign::Store(x, f, y) => format!(in alloc; "{}->{}={} ", x.0, f.0, y.0),
        Assign::Clear(x, f) => format!(in alloc; "{}->{}=null ", x.0, f.0),
    }
}

fn test(alloc: Global, test: Test) -> Result<String, AllocError> {
    match test {
        Test::Any => format!(in alloc; "*"),
        Test::Null(true, x) => format!(in alloc; "{}==null", x.0),
        Test::Null(false, x) => format!(in alloc; "{}!=null", x.0),
        Test::Same(true, x, y) => format!(in alloc; "{}=={}", x.0, y.0),
        Test::Same(false, x, y) => format!(in alloc; "{}!={}", x.0, y.0),
    }
}

#[cycle(statement)]
fn statement(alloc: Global, one: &Statement) -> Result<String, AllocError> {
    match one {
        Statement::Assign(a) => assign(alloc, *a),
        Statement::If(t, body, other) => {
            let test = test(alloc, *t)?;
            let first = block(alloc, body)?;
            let second = block(alloc, other)?;
            format!(in alloc; "if({test}){{ {first}}}{{ {second}}} ")
        }
        Statement::While(t, body) => {
            let test = test(alloc, *t)?;
            let inner = block(alloc, body)?;
            format!(in alloc; "while({test}){{ {inner}}} ")
        }
    }
}

#[cycle(statement)]
fn block(alloc: Global, block: &Block) -> Result<String, AllocError> {
    let mut out = String::new(alloc);
    for one in &block.items {
        let text = statement(alloc, one)?;
        out.push_str(&text)?;
    }
    Ok(out)
}

/// A source program with numbers for names, or why there is none.
pub fn answer(alloc: Global, text: &[u8]) -> Result<String, Fail>
    requires { length text.now ≤ longest_text }
{
    let found = match read(alloc, text)? {
        Ok(source) => {
            let variables = names(alloc, &source.variables)?;
            let fields = names(alloc, &source.fields)?;
            let body = block(alloc, &source.body)?;
            format!(in alloc; "{variables}| {fields}| {body}")?
        }
        Err(SourceReadError::TooDeep) => format!(in alloc; "TooDeep")?,
        Err(SourceReadError::Syntax(place)) => format!(in alloc;
            "{}:{}",
            place.line, place.column
        )?,
        Err(SourceReadError::Reserved) => format!(in alloc; "Reserved")?,
        Err(SourceReadError::NameTwice) => format!(in alloc; "NameTwice")?,
        Err(SourceReadError::NameUnknown) => format!(in alloc; "NameUnknown")?,
        Err(SourceReadError::Memory) => return Err(Fail::new("no memory")),
    };
    Ok(found)
}
