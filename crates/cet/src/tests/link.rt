//! `link`, over files and outputs in memory. The objects are those that `asm` makes of texts.
use super::*;
use std::test::Fail;

pub(super) const LINK: &[&str] = &["link", "--out", "e", "a.o"];

const BOTH: &[&str] = &["link", "--out", "e", "a.o", "b.o"];

// The files `a` and `b` hold the texts, and `a.o` and `b.o` their objects; there is room for `e`.
pub(super) fn objects(alloc: Global, a: &[u8], b: &[u8]) -> Result<MemFiles, NoMemory> {
    let mut files = MemFiles::new(alloc);
    files.put("a", a)?;
    files.put("b", b)?;
    files.room("a.o", 4096)?;
    files.room("b.o", 4096)?;
    files.room("e", 65_536)?;
    let _ = run(alloc, &["asm", "--out", "a.o", "a"], &mut files, 1000, 0)?;
    let _ = run(alloc, &["asm", "--out", "b.o", "b"], &mut files, 1000, 0)?;
    Ok(files)
}

// The columns: two texts, the words, the output, the status.
#[test]
fn links(rt: HostRuntime) -> Result<(), Fail> {
    let rows: [(&[u8], &[u8], &[&str], &str, u8); 9] = [
        (b".global _start; .func _start; ret; .end", b"", LINK, "", 0),
        (
            b".global _start; .func _start; movabs.4 rax, @_start-5242880; ret; .end",
            b"",
            LINK,
            "overflow a.o .text 1\n",
            1,
        ),
        (
            b".global _start; .func _start; call nowhere; ret; .end",
            b"",
            LINK,
            "undefined nowhere a.o\n",
            1,
        ),
        (
            b".global _start; .func _start; call f; ret; .end",
            b".global f; .func f; ret; .end",
            BOTH,
            "",
            0,
        ),
        (
            b".global _start; .func _start; ret; .end",
            b".global _start; .func _start; ret; .end",
            BOTH,
            "duplicate _start a.o b.o\n",
            1,
        ),
        (
            b".global _start; .func _start; ret; .end",
            b"",
            &["link", "--entry", "f", "a.o", "--out=e"],
            "noentry f\n",
            1,
        ),
        (
            b".global f; .func f; ret; .end",
            b"",
            LINK,
            "noentry _start\n",
            1,
        ),
        (
            b".global f; .func f; ret; .end",
            b"",
            &["link", "--out", "e", "--entry=f", "a.o"],
            "",
            0,
        ),
        (
            b".global _start; .func _start; ret; .end",
            b".global f; .func f; call g; ret; .end",
            &["link", "--out", "e", "b.o", "a.o"],
            "undefined g b.o\n",
            1,
        ),
    ];
    for (a, b, words, text, status) in rows {
        let mut files = objects(rt.alloc(), a, b)?;
        let answer = run(rt.alloc(), words, &mut files, 1000, 1000)?;
        assert_eq!(rt; answer.out.bytes(), text.as_bytes(), "for {a:?}");
        assert_eq!(rt; answer.status, status);
        assert_eq!(rt; answer.err.bytes(), b"".as_slice());
    }
    Ok(())
}

// The columns: the words, the line on standard error, the status. `a` holds no object, and there is no room for `f`.
#[test]
fn words_and_files_of_link(rt: HostRuntime) -> Result<(), Fail> {
    let rows: [(&[&str], &str, u8); 8] = [
        (&["link"], "cet: words\n", 2),
        (&["link", "--out", "e"], "cet: words\n", 2),
        (&["link", "a.o"], "cet: words\n", 2),
        (&["link", "--out", "e", "a.o", "--entry"], "cet: words\n", 2),
        (&["link", "--out", "e", "a", "c"], "cet: file c\n", 3),
        (
            &["link", "--out", "e", "a.o", "a", "b"],
            "cet: bad a at 0: bounds\n",
            6,
        ),
        (&["link", "--out", "f", "b.o"], "noentry", 1),
        (&["link", "--out", "f", "a.o"], "cet: file f\n", 3),
    ];
    for (words, line, status) in rows {
        let mut files = objects(
            rt.alloc(),
            b".global _start; .func _start; ret; .end; .note ibt shstk",
            b".global g; .func g; ret; .end",
        )?;
        let answer = run(rt.alloc(), words, &mut files, 1000, 1000)?;
        assert_eq!(rt; answer.status, status);
        if status != 1 {
            assert_eq!(rt; answer.err.bytes(), line.as_bytes());
        }
    }
    Ok(())
}
