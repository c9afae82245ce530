//! Texts of each kind and each fault, whole and cut at every byte.
ghost use Rattle.std.specs.Prelude.{◌≡◌, ◌+◌, ◌<◌, ◌≤◌, length, true, IfOk};

use crate::{Expr, Kind, Next, Reader, write_string, write_symbol};
use rare_base::{Fault, Place, Reason, Text};
use std::alloc::{AllocError, Global};
use std::test::Fail;

fn show_place(alloc: Global, out: &mut Text, place: Place) -> Result<(), AllocError> {
    let shown = format!(in alloc; "@{}:{}", place.line, place.column)?;
    out.append(shown.as_bytes())
}

// What stands before the text of an atom of this kind.
fn mark(kind: Kind) -> &'static [u8] {
    match kind {
        Kind::Symbol => b"",
        Kind::Keyword => b":",
        Kind::Numeral => b"num ",
        Kind::Decimal => b"dec ",
        Kind::Binary => b"#b",
        Kind::Hex => b"#x",
        Kind::Quoted => b"str ",
        Kind::List => b"()",
    }
}

// Writes an expression with the places of its parts, each part behind a blank.
#[tactic(auto, using(crate::proofs::Counting::depth_falls))]
fn show<E: Expr>(alloc: Global, out: &mut Text, e: &E) -> Result<(), AllocError> {
    out.push(b' ')?;
    if e.kind() == Kind::List {
        out.push(b'(')?;
        for k in 0..e.len() {
            show(alloc, out, e.item(k))?;
        }
        out.append(b" )")?;
    } else {
        out.append(mark(e.kind()))?;
        out.append(e.text())?;
    }
    show_place(alloc, out, e.place())
}

// How many expressions stand in it, up to the largest number.
#[tactic(auto, using(crate::proofs::Counting::depth_falls))]
fn walk<E: Expr>(e: &E) -> usize {
    let mut n = 1usize;
    for k in 0..e.len() {
        n = n.saturating_add(walk(e.item(k)));
    }
    n
}

// Writes the next command, if there is one.
fn show_next(alloc: Global, out: &mut Text, reader: &mut Reader) -> Result<bool, AllocError>
    ensures fed { reader.new.fed ≡ reader.old.fed }
    ensures ended { reader.new.ended ≡ reader.old.ended }
    ensures less { IfOk result (λ more. more ≡ true →
        length reader.new.rest < length reader.old.rest) }
{
    match reader.next_command() {
        Ok(Next::Command(e)) => {
            show(alloc, out, &e)?;
            Ok(true)
        }
        _ => Ok(false),
    }
}

// Writes what stands behind the commands.
fn show_end(alloc: Global, out: &mut Text, reader: &mut Reader) -> Result<(), AllocError> {
    match reader.next_command() {
        Ok(Next::Finished) => out.append(b" end"),
        Err(Fault::Refused { place, reason }) => {
            out.push(b' ')?;
            out.append(reason.word().as_bytes())?;
            show_place(alloc, out, place)
        }
        _ => out.append(b" ?"),
    }
}

fn show_all(alloc: Global, out: &mut Text, reader: &mut Reader) -> Result<(), AllocError>
    ensures fed { reader.new.fed ≡ reader.old.fed }
    ensures ended { reader.new.ended ≡ reader.old.ended }
{
    'commands: while show_next(alloc, out, reader)? {}
    Ok(())
}

// The commands of a text that is fed in two pieces, and what stands behind them.
fn show_text(alloc: Global, front: &[u8], back: &[u8]) -> Result<Text, AllocError>
    requires { length front.now + length back.now < 1000 }
{
    let mut out = Text::new(alloc);
    let mut reader = Reader::new(alloc);
    reader.feed(front)?;
    show_all(alloc, &mut out, &mut reader)?;
    reader.feed(back)?;
    show_all(alloc, &mut out, &mut reader)?;
    reader.end();
    show_all(alloc, &mut out, &mut reader)?;
    show_end(alloc, &mut out, &mut reader)?;
    Ok(out)
}

// A name, a text, and what is read of it, with the places of all parts and of the fault.
const ROWS: [(&str, &[u8], &[u8]); 60] = [
    ("nothing", b"", b" end"),
    ("blanks and a comment", b" \t\r\n; a comment", b" end"),
    (
        "a comment that a carriage return ends",
        b"a ;x\r(b)",
        b" a@1:1 ( b@1:7 )@1:6 end",
    ),
    (
        "a comment that a line feed ends",
        b"(a;b)\n)",
        b" ( a@1:2 )@1:1 end",
    ),
    ("a comment with a byte of 128", b"; \x80\na", b" a@2:1 end"),
    (
        "lines and a carriage return",
        b"a\r\nb\n",
        b" a@1:1 b@2:1 end",
    ),
    ("a list", b"(a b)", b" ( a@1:2 b@1:4 )@1:1 end"),
    ("empty lists", b"()(())", b" ( )@1:1 ( ( )@1:4 )@1:3 end"),
    (
        "words without blanks",
        b"a(b)c;",
        b" a@1:1 ( b@1:3 )@1:2 c@1:5 end",
    ),
    (
        "all marks and signs",
        b"~!@$%^&*_-+=<>.?/ ",
        b" ~!@$%^&*_-+=<>.?/@1:1 end",
    ),
    ("a symbol that the end ends", b"a1", b" a1@1:1 end"),
    ("a quoted symbol", b"|abc|", b" abc@1:1 end"),
    ("a quoted symbol without bytes", b"||", b" @1:1 end"),
    (
        "a quoted symbol with control bytes",
        b"|a\x02\n|b",
        b" a\x02\n@1:1 b@2:2 end",
    ),
    (
        "a quoted symbol with a byte of 128",
        b"(|\xc3\xa4|)",
        b" ( \xc3\xa4@1:2 )@1:1 end",
    ),
    (
        "a bar inside of a text",
        b"a|b|c",
        b" a@1:1 b@1:2 c@1:5 end",
    ),
    ("a bar at the end", b"a|", b" a@1:1 OpenSymbol@1:2"),
    (
        "an open quoted symbol in a list",
        b"(p |p",
        b" OpenSymbol@1:4",
    ),
    (
        "a backslash in a quoted symbol",
        b"x |a\\b|",
        b" x@1:1 BadCharacter@1:5",
    ),
    ("a keyword of one byte", b"(:k)", b" ( :k@1:2 )@1:1 end"),
    ("a keyword that begins with a digit", b":1", b" :1@1:1 end"),
    ("a colon at the end", b":k :", b" :k@1:1 BadCharacter@1:4"),
    ("a colon before a blank", b"(: c)", b" BadCharacter@1:3"),
    ("a colon in a symbol", b"; c\n a:b", b" BadCharacter@2:3"),
    ("a numeral with zeros", b"007", b" num 007@1:1 end"),
    ("a numeral with a letter", b"(1a)", b" BadCharacter@1:3"),
    ("a decimal", b"0.50 ", b" dec 0.50@1:1 end"),
    ("a decimal without a fraction", b"1. ", b" BadCharacter@1:3"),
    ("a point at the end", b"x 1.", b" x@1:1 BadCharacter@1:3"),
    ("two points", b"1.2.3", b" BadCharacter@1:4"),
    ("a point first is a symbol", b".5", b" .5@1:1 end"),
    ("a binary", b"#b01)", b" #b01@1:1 Unbalanced@1:5"),
    ("a binary without digits", b"(#b)", b" BadCharacter@1:4"),
    ("a binary with a 2", b"#b2", b" BadCharacter@1:3"),
    ("a binary that ends in a 2", b"#b012", b" BadCharacter@1:5"),
    ("a binary cut off", b"#b", b" BadCharacter@1:1"),
    ("a hexadecimal of both cases", b"#xaF09", b" #xaF09@1:1 end"),
    ("a hexadecimal with a g", b"#x1g", b" BadCharacter@1:4"),
    ("a hexadecimal cut off", b"(#x", b" BadCharacter@1:2"),
    ("a hash alone", b"# ", b" BadCharacter@1:2"),
    ("another letter behind a hash", b"#o7", b" BadCharacter@1:2"),
    ("a string", b"\"a b\"", b" str a b@1:1 end"),
    ("a string without bytes", b"\"\"", b" str @1:1 end"),
    (
        "two quotes in a string",
        b"\"a\"\"b\"",
        b" str a\"b@1:1 end",
    ),
    (
        "quotes alone in a string",
        b"\"\"\"\"\"\"x",
        b" str \"\"@1:1 x@1:7 end",
    ),
    (
        "a string over lines",
        b"\"\r\n\" x",
        b" str \r\n@1:1 x@2:3 end",
    ),
    (
        "a string with a backslash, a bar and a byte of 128",
        b"(\"\\|\x80\")",
        b" ( str \\|\x80@1:2 )@1:1 end",
    ),
    ("a quote behind a symbol", b"a\"", b" a@1:1 OpenString@1:2"),
    ("an open string in a list", b"(a \"b)", b" OpenString@1:4"),
    (
        "a string that ends in two quotes",
        b"\"a\"\"",
        b" OpenString@1:1",
    ),
    ("a closing parenthesis alone", b")", b" Unbalanced@1:1"),
    (
        "one closing parenthesis too many",
        b"a)",
        b" a@1:1 Unbalanced@1:2",
    ),
    ("an open list", b" (a", b" Unbalanced@1:2"),
    (
        "the outermost of open lists",
        b"(a (b (c) ",
        b" Unbalanced@1:1",
    ),
    (
        "an open list that ends in a comment",
        b"(a ;)",
        b" Unbalanced@1:1",
    ),
    ("a byte of 128", b"ok \xc3\xa4", b" ok@1:1 BadCharacter@1:4"),
    (
        "a byte of 128 in a symbol",
        b"(ok\x80)",
        b" BadCharacter@1:4",
    ),
    ("a bracket", b"a [", b" a@1:1 BadCharacter@1:3"),
    ("a quote sign in a symbol", b"a'b", b" BadCharacter@1:2"),
    (
        "a fault on the second line",
        b"a\n(b\n c :)",
        b" a@1:1 BadCharacter@3:5",
    ),
];

#[test]
fn has_each_row_in_any_two_pieces(rt: HostRuntime) -> Result<(), Fail> {
    for (name, text, want) in ROWS {
        assert!(rt; text.len() < 1000);
        for cut in 0..text.len() + 1 {
            let (front, back) = text.split_at(cut);
            assert_eq!(rt;
                show_text(rt.alloc(), front, back)?.bytes(),
                want,
                "{name}, cut at {cut}"
            );
        }
    }
    Ok(())
}

#[test]
fn is_refused_as_soon_as_nothing_mends_it(rt: HostRuntime) -> Result<(), Fail> {
    let mut reader = Reader::new(rt.alloc());
    reader.feed(b"(a")?;
    assert!(rt; matches!(reader.next_command(), Ok(Next::NeedMore)));
    reader.feed(b")")?;
    assert!(rt; matches!(reader.next_command(), Ok(Next::Command(_))));
    reader.feed(b")")?;
    assert!(rt;
        matches!(
            reader.next_command(),
            Err(Fault::Refused {
                place: Place { line: 1, column: 4 },
                reason: Reason::Unbalanced
            })
        )
    );
    reader.feed(b"(")?;
    assert!(rt;
        matches!(
            reader.next_command(),
            Err(Fault::Refused {
                place: Place { line: 1, column: 4 },
                reason: Reason::Unbalanced
            })
        )
    );
    Ok(())
}

const OPEN: [u8; 5001] = [b'('; 5001];

const CLOSE: [u8; 5001] = [b')'; 5001];

// What is read of so many lists within one another.
fn read_nested(alloc: Global, levels: usize) -> Result<Result<Next, Fault>, AllocError>
    requires { levels ≤ 5001 }
{
    let mut reader = Reader::new(alloc);
    reader.feed(&OPEN[..levels])?;
    reader.feed(&CLOSE[..levels])?;
    Ok(reader.next_command())
}

#[test]
fn has_lists_as_deep_as_the_limit(rt: HostRuntime) -> Result<(), Fail> {
    let count = match read_nested(rt.alloc(), 5000)? {
        Ok(Next::Command(e)) => walk(&e),
        _ => 0,
    };
    assert_eq!(rt; count, 5000);
    let refused = matches!(
        read_nested(rt.alloc(), 5001)?,
        Err(Fault::Refused {
            place: Place {
                line: 1,
                column: 5001
            },
            reason: Reason::TooDeep
        })
    );
    assert!(rt; refused);
    Ok(())
}

#[test]
fn is_written_as_it_is_read(rt: HostRuntime) -> Result<(), Fail> {
    let mut out = Text::new(rt.alloc());
    for symbol in [&b"a-1"[..], b"a b", b"1", b"", b":k"] {
        write_symbol(&mut out, symbol)?;
    }
    for text in [&b"a b"[..], b"", b"say \"hi\""] {
        write_string(&mut out, text)?;
    }
    let want = b"a-1|a b||1||||:k|\"a b\"\"\"\"say \"\"hi\"\"\"".as_slice();
    assert_eq!(rt; out.bytes(), want);
    Ok(())
}
