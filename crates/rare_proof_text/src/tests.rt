//! Commands of proofs: what is read is shown by its words, what is refused by its place and its
//! reason.
ghost use Rattle.std.specs.Prelude.{◌<◌, length};

mod books;

use crate::{ReadCommand, ReadStep, read_command};
use rare_base::{Fault, Text};
use rare_inst::Arg;
use rare_proof::StepRule;
use rare_rule::Book;
use rare_scope::Scope;
use rare_sexpr::{Expr, Next, Reader, Sexpr};
use rare_term::Plain;
use std::alloc::{AllocError, Global};
use std::test::Fail;

// What a row says, a text, and what is answered to it.
#[derive(Clone, Copy)]
struct Row {
    name: &'static str,
    text: &'static str,
    want: &'static str,
}

// The first expression of a text.
fn expression(alloc: Global, text: &[u8]) -> Result<Option<Sexpr>, AllocError>
    requires { length text.now < 1000000 }
{
    let mut reader = Reader::new(alloc);
    reader.feed(text)?;
    reader.end();
    match reader.next_command() {
        Ok(Next::Command(e)) => Ok(Some(e)),
        _ => Ok(None),
    }
}

fn show_fault(alloc: Global, fault: Fault) -> Result<Text, AllocError> {
    match fault {
        Fault::Refused { place, reason } => {
            let (line, column) = (place.line, place.column);
            let shown = format!(in alloc; "{line}:{column} {}", reason.word())?;
            Text::of(alloc, shown.as_bytes())
        }
        Fault::Memory => Text::of(alloc, b"memory"),
    }
}

fn arg_word(arg: &Arg) -> &'static [u8] {
    match arg {
        Arg::Sort(_) => b" sort",
        Arg::Linear(_) => b" linear",
        Arg::Term(_) => b" term",
        Arg::List(_) => b" list",
    }
}

// Writes the number of a rule of the book and what its arguments are, or why there is none.
fn show_rule<E: Expr>(step: &ReadStep<'_, E>, out: &mut Text) -> Result<(), AllocError> {
    match &step.rule {
        Ok(StepRule::Rewrite { rule, args }) => {
            out.append(if *rule == 0 { b" 0" } else { b" 1" })?;
            for arg in args.items() {
                out.append(arg_word(arg))?;
            }
            Ok(())
        }
        Ok(_) => Ok(()),
        Err(fault) => {
            out.push(b' ')?;
            out.append(fault.word().as_bytes())
        }
    }
}

fn show_step<E: Expr>(alloc: Global, step: &ReadStep<'_, E>) -> Result<Text, AllocError> {
    let mut out = Text::of(alloc, b"step ")?;
    out.append(step.id)?;
    show_rule(step, &mut out)?;
    if let Some(ids) = step.premises {
        for k in 0..ids.len() {
            out.push(b' ')?;
            out.append(ids.item(k).text())?;
        }
    }
    Ok(out)
}

fn show_words(alloc: Global, words: [&[u8]; 2]) -> Result<Text, AllocError> {
    let [command, name] = words;
    let mut out = Text::of(alloc, command)?;
    out.push(b' ')?;
    out.append(name)?;
    Ok(out)
}

fn show_command<E: Expr>(alloc: Global, command: &ReadCommand<'_, E>) -> Result<Text, AllocError> {
    match command {
        ReadCommand::Define { name, .. } => show_words(alloc, [b"define", name]),
        ReadCommand::Step(step) => show_step(alloc, step),
        ReadCommand::Conclude { name, id } => {
            let mut out = show_words(alloc, [b"conclude", name])?;
            out.push(b' ')?;
            out.append(id)?;
            Ok(out)
        }
    }
}

fn show_answer(alloc: Global, book: &Book, text: &[u8]) -> Result<Text, AllocError>
    requires { length text.now < 1000000 }
{
    let Some(e) = expression(alloc, text)? else {
        return Ok(Text::new(alloc));
    };
    let scope = Scope::new(alloc);
    let mut terms = Plain::new(alloc);
    match read_command(alloc, &e, &scope, book, &mut terms) {
        Ok(command) => show_command(alloc, &command),
        Err(fault) => show_fault(alloc, fault),
    }
}

// The first row that is answered otherwise.
fn first_wrong(alloc: Global, book: &Book, rows: &[Row]) -> Result<&'static str, AllocError> {
    for row in rows {
        if row.text.len() >= 1000 {
            return Ok(row.name);
        }
        let shown = show_answer(alloc, book, row.text.as_bytes())?;
        if shown.bytes() != row.want.as_bytes() {
            return Ok(row.name);
        }
    }
    Ok("none")
}

// Commands, by their words.
const COMMANDS: [Row; 10] = [
    Row {
        name: "a definition",
        text: "(define-fun @a () Bool true)",
        want: "define @a",
    },
    Row {
        name: "a step",
        text: "(step t (cl (= true true)) :rule refl)",
        want: "step t",
    },
    Row {
        name: "a step with premises",
        text: "(step t (cl (= 1 1)) :rule trans :premises (a |b c|))",
        want: "step t a b c",
    },
    Row {
        name: "a step without any",
        text: "(|step| t (cl (= 1 1)) :rule evaluate :premises ())",
        want: "step t",
    },
    Row {
        name: "a conclusion",
        text: "(conclude let |_|)",
        want: "conclude let _",
    },
    Row {
        name: "another word",
        text: "(assert true)",
        want: "1:1 UnknownCommand",
    },
    Row {
        name: "no list",
        text: "step",
        want: "1:1 BadForm",
    },
    Row {
        name: "a list that begins with a list",
        text: "((step))",
        want: "1:1 BadForm",
    },
    Row {
        name: "a conclusion of one name",
        text: "(conclude r)",
        want: "1:1 BadForm",
    },
    Row {
        name: "a conclusion of a string",
        text: "(conclude r \"t\")",
        want: "1:13 BadForm",
    },
];

// Steps that are refused.
const STEPS: [Row; 10] = [
    Row {
        name: "six items",
        text: "(step t (cl (= zz zz)) :rule refl extra)",
        want: "1:1 BadForm",
    },
    Row {
        name: "another word for cl",
        text: "(step t (cx (= 1 1)) :rule refl)",
        want: "1:10 BadForm",
    },
    Row {
        name: "three sides",
        text: "(step t (cl (= 1 1 1)) :rule refl)",
        want: "1:13 BadForm",
    },
    Row {
        name: "two sorts before the rule",
        text: "(step t (cl (= true 1)) :rule foo)",
        want: "1:1 IllSorted",
    },
    Row {
        name: "another keyword for the rule",
        text: "(step t (cl (= 1 1)) :by refl)",
        want: "1:22 BadForm",
    },
    Row {
        name: "an unknown rule",
        text: "(step t (cl (= 1 1)) :rule foo)",
        want: "1:28 UnknownRule",
    },
    Row {
        name: "arguments where premises stand",
        text: "(step t (cl (= 1 1)) :rule refl :args (\"x\"))",
        want: "1:33 BadForm",
    },
    Row {
        name: "arguments behind premises",
        text: "(step t (cl (= 1 1)) :rule refl :premises (a) :args (\"x\"))",
        want: "1:47 BadForm",
    },
    Row {
        name: "a premise that is no symbol",
        text: "(step t (cl (= 1 1)) :rule refl :premises (a :b))",
        want: "1:46 BadForm",
    },
    Row {
        name: "premises that are no list",
        text: "(step t (cl (= 1 1)) :rule refl :premises a)",
        want: "1:43 BadForm",
    },
];

// Steps by rules of the book, by the number of the rule and its arguments.
const INSTANCES: [Row; 5] = [
    Row {
        name: "an instance",
        text: "(step t (cl (= 1 1)) :rule rare_rewrite :args (\"sw\" true false))",
        want: "step t 0 term term",
    },
    Row {
        name: "an instance of each kind of names",
        text: "(step t (cl (= 1 1)) :rule rare_rewrite :args (\"kinds\" (Array Int Bool) (+ 7 1) 0 1 #x0a (rare-list true false)))",
        want: "step t 1 sort linear linear term term list",
    },
    Row {
        name: "premises before arguments",
        text: "(step t (cl (= 1 1)) :rule rare_rewrite :premises (a b) :args (\"kinds\" Int 8 0 1 #x0a (rare-list)))",
        want: "step t 1 sort linear linear term term list a b",
    },
    Row {
        name: "a rule that is not in the book",
        text: "(step t (cl (= 1 1)) :rule rare_rewrite :args (\"swap\" zz))",
        want: "step t NoSuchRule",
    },
    Row {
        name: "another number of arguments",
        text: "(step t (cl (= 1 1)) :rule rare_rewrite :args (\"sw\" zz 1.5 p))",
        want: "step t ArgCount",
    },
];

// Steps by rules of the book that are refused.
const ARGUMENTS: [Row; 16] = [
    Row {
        name: "an instance without arguments",
        text: "(step t (cl (= 1 1)) :rule rare_rewrite)",
        want: "1:1 BadForm",
    },
    Row {
        name: "an instance without arguments of unknown terms",
        text: "(step t1 (cl (= zz p)) :rule rare_rewrite)",
        want: "1:17 UnknownSymbol",
    },
    Row {
        name: "premises without arguments",
        text: "(step t (cl (= 1 1)) :rule rare_rewrite :premises (a))",
        want: "1:1 BadForm",
    },
    Row {
        name: "a premise that is no symbol before arguments",
        text: "(step t (cl (= 1 1)) :rule rare_rewrite :premises (2) :args (\"sw\" true))",
        want: "1:52 BadForm",
    },
    Row {
        name: "another item where arguments stand",
        text: "(step t (cl (= 1 1)) :rule rare_rewrite :arg (\"sw\" true true))",
        want: "1:41 BadForm",
    },
    Row {
        name: "another item behind premises",
        text: "(step t (cl (= 1 1)) :rule rare_rewrite :premises (a) sw (\"sw\" true true))",
        want: "1:55 BadForm",
    },
    Row {
        name: "arguments before premises",
        text: "(step t (cl (= 1 1)) :rule rare_rewrite :args (\"sw\" true true) :premises (a))",
        want: "1:64 BadForm",
    },
    Row {
        name: "arguments that are no list",
        text: "(step t (cl (= 1 1)) :rule rare_rewrite :args sw)",
        want: "1:47 BadForm",
    },
    Row {
        name: "no argument",
        text: "(step t (cl (= 1 1)) :rule rare_rewrite :args ())",
        want: "1:47 BadForm",
    },
    Row {
        name: "a name that is no string",
        text: "(step t (cl (= 1 1)) :rule rare_rewrite :args (sw true true))",
        want: "1:48 BadForm",
    },
    Row {
        name: "an unknown term",
        text: "(step t (cl (= 1 1)) :rule rare_rewrite :args (\"sw\" true zz))",
        want: "1:58 UnknownSymbol",
    },
    Row {
        name: "an unknown sort",
        text: "(step t (cl (= 1 1)) :rule rare_rewrite :args (\"kinds\" S zz 0 1 #x0a (rare-list)))",
        want: "1:56 UnknownSymbol",
    },
    Row {
        name: "an unknown width",
        text: "(step t (cl (= 1 1)) :rule rare_rewrite :args (\"kinds\" Int zz 0 1 #x0a (rare-list)))",
        want: "1:60 UnknownSymbol",
    },
    Row {
        name: "a term for a list",
        text: "(step t (cl (= 1 1)) :rule rare_rewrite :args (\"kinds\" Int 8 0 1 #x0a true))",
        want: "1:71 BadForm",
    },
    Row {
        name: "another word for rare-list",
        text: "(step t (cl (= 1 1)) :rule rare_rewrite :args (\"kinds\" Int 8 0 1 #x0a (list true)))",
        want: "1:72 BadForm",
    },
    Row {
        name: "an unknown term of a list",
        text: "(step t (cl (= 1 1)) :rule rare_rewrite :args (\"kinds\" Int 8 0 1 #x0a (rare-list true zz)))",
        want: "1:87 UnknownSymbol",
    },
];

// Definitions that are refused.
const DEFINITIONS: [Row; 9] = [
    Row {
        name: "a name without @",
        text: "(define-fun f () Bool true)",
        want: "1:13 BadForm",
    },
    Row {
        name: "a reserved name",
        text: "(define-fun .f () Bool true)",
        want: "1:13 ReservedSymbol",
    },
    Row {
        name: "a word of the theories",
        text: "(define-fun and () Bool true)",
        want: "1:13 DeclaredTwice",
    },
    Row {
        name: "a name that is no symbol",
        text: "(define-fun 1 () Bool true)",
        want: "1:13 BadForm",
    },
    Row {
        name: "parameters",
        text: "(define-fun @f (x) Bool true)",
        want: "1:16 BadForm",
    },
    Row {
        name: "an unknown sort",
        text: "(define-fun @f () S true)",
        want: "1:19 UnknownSymbol",
    },
    Row {
        name: "an unknown term",
        text: "(define-fun @f () Bool s)",
        want: "1:24 UnknownSymbol",
    },
    Row {
        name: "a stated sort that is not the term's",
        text: "(define-fun @f () Int true)",
        want: "1:19 IllSorted",
    },
    Row {
        name: "a definition without a term",
        text: "(define-fun @f () Bool)",
        want: "1:1 BadForm",
    },
];

#[test]
fn commands_are_read_or_refused(rt: HostRuntime) -> Result<(), Fail> {
    let book = Book::new(rt.alloc());
    assert_eq!(rt; first_wrong(rt.alloc(), &book, &COMMANDS)?, "none");
    assert_eq!(rt; first_wrong(rt.alloc(), &book, &STEPS)?, "none");
    assert_eq!(rt; first_wrong(rt.alloc(), &book, &DEFINITIONS)?, "none");
    Ok(())
}

#[test]
fn instances_are_read_or_refused(rt: HostRuntime) -> Result<(), Fail> {
    let book = books::book(rt.alloc())?;
    assert_eq!(rt; first_wrong(rt.alloc(), &book, &INSTANCES)?, "none");
    assert_eq!(rt; first_wrong(rt.alloc(), &book, &ARGUMENTS)?, "none");
    Ok(())
}
