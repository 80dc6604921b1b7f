//! `asm`, over files and outputs in memory.
use super::*;
use std::test::Fail;

const ASM: &[&str] = &["asm", "--out", "b", "a"];

// The option before and behind the file, in two words and in one: `b` becomes an object, and nothing is written.
#[test]
fn objects_of_texts(rt: HostRuntime) -> Result<(), Fail> {
    let rows: [&[&str]; 4] = [
        ASM,
        &["asm", "a", "--out", "b"],
        &["asm", "--out=b", "a"],
        &["asm", "a", "--out=b"],
    ];
    for words in rows {
        let mut files = holding(rt.alloc(), b".func f; endbr64\nret; .end")?;
        files.room("b", 4096)?;
        let answer = run(rt.alloc(), words, &mut files, 1000, 1000)?;
        assert_eq!(rt; answer.status, 0);
        assert_eq!(rt; answer.out.bytes(), b"".as_slice());
        assert_eq!(rt; answer.err.bytes(), b"".as_slice());
    }
    Ok(())
}

// The columns: the words, the line on standard error, the status. There is no room for a replacement.
#[test]
fn words_of_asm(rt: HostRuntime) -> Result<(), Fail> {
    let rows: [(&[&str], &str, u8); 14] = [
        (&["asm"], "cet: words\n", 2),
        (&["asm", "a"], "cet: words\n", 2),
        (&["asm", "--out", "b"], "cet: words\n", 2),
        (&["asm", "--out", "a", "-b"], "cet: words\n", 2),
        (&["asm", "--out", "-b", "a"], "cet: words\n", 2),
        (&["asm", "--out=-b", "a"], "cet: file -b\n", 3),
        (&["asm", "--ou", "b", "a"], "cet: words\n", 2),
        (&["asm", "a", "--out"], "cet: words\n", 2),
        (&["asm", "a", "b", "--out"], "cet: words\n", 2),
        (&["asm", "--out", "b", "a", "c"], "cet: words\n", 2),
        (&["asm", "--out=b", "a", "c"], "cet: words\n", 2),
        (&["asm", "--out=b", "--out=b", "a"], "cet: words\n", 2),
        (&["asm", "--out", "b", "d"], "cet: file d\n", 3),
        (ASM, "cet: file b\n", 3),
    ];
    for (words, line, status) in rows {
        let mut files = holding(rt.alloc(), b"nop")?;
        let answer = run(rt.alloc(), words, &mut files, 1000, 1000)?;
        assert_eq!(rt; answer.err.bytes(), line.as_bytes());
        assert_eq!(rt; answer.status, status);
        assert_eq!(rt; answer.out.bytes(), b"".as_slice());
    }
    Ok(())
}

// The columns: a text, and the line on standard error; the status is 6.
#[test]
fn faults_of_texts(rt: HostRuntime) -> Result<(), Fail> {
    let rows: [(&[u8], &str); 6] = [
        (b"nop\n\nmov.2 rax, rbx\n", "cet: bad a at 3: word\n"),
        (b"push", "cet: bad a at 1: operand\n"),
        (b"movabs.1 rax, 256", "cet: bad a at 1: range\n"),
        (b"jmp.s x", "cet: bad a at 1: label\n"),
        (b"x:\nx: nop", "cet: bad a at 2: twice\n"),
        (b".func f\nret", "cet: bad a at 1: word\n"),
    ];
    for (text, line) in rows {
        let mut files = holding(rt.alloc(), text)?;
        let answer = run(rt.alloc(), ASM, &mut files, 1000, 1000)?;
        assert_eq!(rt; answer.err.bytes(), line.as_bytes(), "for {text:?}");
        assert_eq!(rt; answer.status, 6);
        assert_eq!(rt; answer.out.bytes(), b"".as_slice());
    }
    Ok(())
}
