//! What words ask for: expectations by the rules of `clap`'s documents for flags, options and operands.
use crate::command::Command;
use crate::found::NoCommand;
use std::alloc::Global;
use std::test::Fail;

// The command of the words, as text.
fn shown(alloc: Global, words: &[&str]) -> Result<String, Fail> {
    let mut texts = Vec::new(alloc);
    for word in words {
        texts.push(String::from_str(alloc, word)?)?;
    }
    let text = match Command::read(alloc, &texts) {
        Ok(Command::CheckRaw(file)) => format!(in alloc; "check [{file}]"),
        Ok(Command::Asm(out, file)) => format!(in alloc; "asm [{out}] [{file}]"),
        Ok(Command::Dis(file)) => format!(in alloc; "dis [{file}]"),
        Ok(Command::Run(run)) => format!(in alloc;
            "run {} {:?} {:?} {} [{}]",
            run.raw, run.schedule, run.input, run.limit, run.file
        ),
        Ok(Command::Link(link)) => {
            format!(in alloc; "link [{}] [{}] {:?}", link.to, link.start, link.files)
        }
        Ok(Command::Notes(files)) => format!(in alloc; "notes {files:?}"),
        Err(NoCommand::Refused) => String::from_str(alloc, "refused"),
        Err(NoCommand::NoMemory) => String::from_str(alloc, "no memory"),
    };
    Ok(text?)
}

// The columns: the words, and what they ask for.
#[test]
fn requests(rt: HostRuntime) -> Result<(), Fail> {
    let rows: [(&[&str], &str); 68] = [
        // No verb, none of the verbs, and no help.
        (&[], "refused"),
        (&[""], "refused"),
        (&["help"], "refused"),
        (&["Dis", "a"], "refused"),
        (&["--raw", "check", "a"], "refused"),
        (&["check", "--help"], "refused"),
        (&["dis", "--version"], "refused"),
        (&["dis", "help"], "dis [help]"),
        // A flag: in any place, once, without a value, in full.
        (&["check", "--raw", "a"], "check [a]"),
        (&["check", "a", "--raw"], "check [a]"),
        (&["check", "a"], "refused"),
        (&["check", "--raw"], "refused"),
        (&["check", "--raw", "a", "b"], "refused"),
        (&["check", "--raw", "--raw", "a"], "refused"),
        (&["check", "--raw=true", "a"], "refused"),
        (&["check", "--raw=", "a"], "refused"),
        (&["check", "--ra", "a"], "refused"),
        (&["check", "-raw", "a"], "refused"),
        (&["check", "--out", "b", "--raw", "a"], "refused"),
        // `--`, `-` and the empty word.
        (&["check", "--raw", "--", "-a"], "check [-a]"),
        (&["check", "--raw", "--", "--raw"], "check [--raw]"),
        (&["check", "--raw", "--", "--"], "check [--]"),
        (&["check", "--raw", "--"], "refused"),
        (&["check", "--", "a", "--raw"], "refused"),
        (&["check", "--raw", "-"], "check [-]"),
        (&["check", "--raw", ""], "check []"),
        (&["check", "--raw", "-a"], "refused"),
        // One operand.
        (&["dis", "a"], "dis [a]"),
        (&["dis", "--", "a"], "dis [a]"),
        (&["dis", "a", "--"], "dis [a]"),
        (&["dis", "dis"], "dis [dis]"),
        (&["dis", "-1"], "refused"),
        (&["dis", "a", "b"], "refused"),
        // Operands, one or more.
        (&["notes", "a"], "notes [\"a\"]"),
        (&["notes", "b", "a", "b"], "notes [\"b\", \"a\", \"b\"]"),
        (
            &["notes", "a", "--", "-b", "--"],
            "notes [\"a\", \"-b\", \"--\"]",
        ),
        (&["notes", "-", ""], "notes [\"-\", \"\"]"),
        (&["notes"], "refused"),
        (&["notes", "--"], "refused"),
        (&["notes", "a", "-b", "c"], "refused"),
        // An option: in any place, in two words or in one, once, with a value.
        (&["asm", "--out", "b", "a"], "asm [b] [a]"),
        (&["asm", "a", "--out=b"], "asm [b] [a]"),
        (&["asm", "--out", "b", "--", "a"], "asm [b] [a]"),
        (&["asm", "--out=", "a"], "asm [] [a]"),
        (&["asm", "--out", "", "a"], "asm [] [a]"),
        (&["asm", "--out=a=b", "a"], "asm [a=b] [a]"),
        (&["asm", "--out=-b", "a"], "asm [-b] [a]"),
        (&["asm", "--out", "-", "a"], "asm [-] [a]"),
        (&["asm", "--out", "-b", "a"], "refused"),
        (&["asm", "--out", "--", "b", "a"], "refused"),
        (&["asm", "--", "a", "--out", "b"], "refused"),
        (&["asm", "--out", "b", "--out", "c", "a"], "refused"),
        (&["asm", "--out", "b"], "refused"),
        (&["asm", "a"], "refused"),
        // Options that may be left out, and a number.
        (&["run", "a"], "run false None None 1000000 [a]"),
        (&["run", "--raw", "a"], "run true None None 1000000 [a]"),
        (
            &["run", "--limit", "2", "--raw", "a"],
            "run true None None 2 [a]",
        ),
        (
            &["run", "--input", "i", "a", "--schedule=s"],
            "run false Some(\"s\") Some(\"i\") 1000000 [a]",
        ),
        (&["run", "--limit", "1", "a"], "run false None None 1 [a]"),
        (
            &["run", "--limit", "1000000", "a"],
            "run false None None 1000000 [a]",
        ),
        (&["run", "--limit", "0", "a"], "refused"),
        (&["run", "--limit", "01", "a"], "refused"),
        (&["run", "--limit", "+1", "a"], "refused"),
        (&["run", "--limit", "1000001", "a"], "refused"),
        (&["run", "--limit=-5", "a"], "refused"),
        (&["run", "--raw", "--limit", "2"], "refused"),
        // An entry that may be left out, and files in any place.
        (
            &["link", "a", "--entry", "main", "b", "--out=e"],
            "link [e] [main] [\"a\", \"b\"]",
        ),
        (&["link", "--out", "e"], "refused"),
    ];
    for (words, text) in rows {
        assert_eq!(rt; shown(rt.alloc(), words)?.as_str(), text, "for {words:?}");
    }
    Ok(())
}
