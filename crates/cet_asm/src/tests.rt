//! Statements that stand, and texts with the first fault of a statement. What is expected is read off the rules of the text, not off a run.
use crate::assembly::place;
use crate::error::{AsmError, AsmKind};
use std::alloc::Global;
use std::process::Abort;
use std::test::Fail;

mod objects;

// The text has this many statements, and each stands.
fn check_count(rt: &impl Abort, alloc: Global, text: &[u8], count: usize) {
    let found = match place(alloc, text) {
        Ok(placement) => placement.statements.len() == count,
        Err(_) => false,
    };
    assert!(rt; found, "{text:?}");
}

fn check_fault(rt: &impl Abort, alloc: Global, text: &[u8], line: u32, kind: AsmKind) {
    let found = match place(alloc, text) {
        Ok(_) => false,
        Err(error) => error == AsmError { line, kind },
    };
    assert!(rt; found, "{text:?}");
}

#[test]
fn statements_stand(rt: HostRuntime) -> Result<(), Fail> {
    let rows: [(&[u8], usize); 12] = [
        (b"", 0),
        (b"# no statement\n;;\n", 0),
        (b"a: b: nop", 3),
        (b".func f; throw; jmp.s f; .end", 4),
        (b".func f; .end; .func g; .end", 4),
        (
            b".section rodata; t: .word @a; .byte -128; .align 16; .off a, t",
            6,
        ),
        (
            b".section bss; .object a 8; .zero 1; .global a; .note ibt; b: .align 2",
            7,
        ),
        (b".section bss; .zero 18446744073709551615", 2),
        (b".section bss; .zero 18446744073709551608; .object a 7", 3),
        (
            b".section bss; .zero 18446744073709551615\n.section data; .zero 18446744073709551615",
            4,
        ),
        (b"call a; call a; .global b; a:", 4),
        (b"spawn_: nop", 2),
    ];
    for (text, count) in rows.iter() {
        check_count(&rt, rt.alloc(), text, *count);
    }
    Ok(())
}

#[test]
fn statements_are_wrong_or_out_of_place(rt: HostRuntime) -> Result<(), Fail> {
    let word: [&[u8]; 26] = [
        b"\nhalt",
        b"\nnop\0",
        b"\n\xff",
        b"\nmov.8\trax, rbx",
        b"\n.word0",
        b"\n.End",
        b"\na : nop",
        b"\n1a:",
        b"\nlock ret",
        b"\nnotrack ret",
        b"\nlea.2 rax, [rbx]",
        b"\nread @a, 1",
        b"nop\nmov.2 rax, rbx",
        b"nop\nthrow",
        b"nop\n.end",
        b".func f\n.func g",
        b".func f\n.section data",
        b".section data\nnop",
        b".section data\n.func f",
        b".section bss\n.word 0",
        b".section bss\n.byte 0",
        b".section bss; t:\n.off a, t",
        b"nop\nrax:",
        b".func f; .end\nrelease 0",
        b"\nlock nop; a: a:",
        b"\n.section: nop",
    ];
    for text in word {
        check_fault(&rt, rt.alloc(), text, 2, AsmKind::Word);
    }
    let operand: [&[u8]; 47] = [
        b"\ncall a+1",
        b"\nje.s a-1",
        b"\nnop \xc3\xa9",
        b"\nret 8",
        b"\nmov.8 rax, rbx,",
        b"\nmov.8 5, rax",
        b"\nmov.8 rax, [rbx+rcx]",
        b"\nmov.8 rax, [rbx+0]",
        b"\nld.8 rax, [rip]",
        b"\nld.8 rax, [ rbx]",
        b"\nmov.8 rax, @",
        b"\nmov.8 rax, @rbx",
        b"\nmov.8 rax, @a*2",
        b"\nmov.8 rax, 0x",
        b"\nmov.8 rax, +1",
        b"\nlea.8 rax, rbx",
        b"\njmp.s @a",
        b"\nnotrack jmp a",
        b"\n.section",
        b"\n.func",
        b"\n.func rax",
        b"\n.object a",
        b"\n.global",
        b"\n.word",
        b"\n.word @a+1",
        b"\n.byte @a",
        b"\n.zero a",
        b"\n.align",
        b"\n.off a",
        b"\n.note",
        b"\n.note ibt ibt",
        b"\n.note cet",
        b".func f\n.end f",
        b".func f\nland 8",
        b".func f\nrelease @a",
        b".func f\nthrow 1",
        b".func f\nswitch @a",
        b".func f\nfibermake @a, b",
        b".func f\nspawn @a",
        b"nop\nmov.8 rax",
        b"\n.section code",
        b".section data; .off a, t\nt:",
        b"t: .section data\n.off a, t",
        b".func f; .end; .section data\n.off a, f",
        b"\n.global rax",
        b"\n.note; .align 3",
        b".section data; .object t 8\n.off a, t",
    ];
    for text in operand {
        check_fault(
            &rt,
            rt.alloc(),
            text,
            line_of_operand(text),
            AsmKind::Operand,
        );
    }
    Ok(())
}

// The fault stands on line 2, but for the table that comes too late.
fn line_of_operand(text: &[u8]) -> u32 {
    if text.first() == Some(&b'.') && text.last() == Some(&b':') {
        1
    } else {
        2
    }
}

#[test]
fn numbers_pass_their_fields(rt: HostRuntime) -> Result<(), Fail> {
    let range: [&[u8]; 47] = [
        b"\n.byte -129",
        b"\n.word 18446744073709551616",
        b"\n.word -9223372036854775809",
        b"\n.zero 18446744073709551616",
        b"\n.zero -1",
        b"\n.align 0",
        b"\n.align 32",
        b"\n.section data; .object a 18446744073709551616",
        b"\nmov.1 rax, -129",
        b"\nmov.4 rax, 2147483648",
        b"\nadd.8 rax, -2147483649",
        b"\npush 2147483648",
        b"\nmovabs.1 rax, -1",
        b"\nmovabs.1 rax, 256",
        b"\nmovabs.4 rax, 4294967296",
        b"\nmovabs.8 rax, 18446744073709551616",
        b"\nmov.1 rax, @a",
        b"\nshl.8 rax, 256",
        b"\nshl.8 rax, -1",
        b"\nshl.8 rax, @a",
        b"\njmp.s $128",
        b"\nje.s $-129",
        b"\ncall $2147483648",
        b"\njmp $-2147483649",
        b"\nld.8 rax, [2147483648]",
        b"\nld.8 rax, [rbx-2147483649]",
        b"\nld.8 rax, [rbx*3]",
        b"\nld.8 rax, [rbx+rsp*1]",
        b"\nmul.1 rbx",
        b"\ncdq.1",
        b"\nmov.8 rax, @a+9223372036854775808",
        b".func f\nland 2147483616, @a",
        b".func f\nland -2147483649, @a",
        b".func f\nrelease 2147483648",
        b".func f\naction 4294967296, @a",
        b".func f\naction -1, @a",
        b".func f\nread @a, 4294967296",
        b".func f\nread @a, -1",
        b"nop\n.align 3",
        b"nop\n.byte 256",
        b"nop\nmov.1 rax, 128",
        b"nop\nlea.1 rax, [rbx]",
        b".section bss; .zero 18446744073709551615\n.zero 1",
        b".section bss; .zero 18446744073709551609\n.object a 0",
        b".section bss; .zero 18446744073709551608\n.object a 8",
        b"\nld.8 rax, [rip+@a-9223372036854775805]",
        b".section data; t: .zero 9223372036854775809\n.off a, t",
    ];
    for text in range {
        check_fault(&rt, rt.alloc(), text, 2, AsmKind::Range);
    }
    Ok(())
}

#[test]
fn names_and_notes_come_once(rt: HostRuntime) -> Result<(), Fail> {
    let twice: [&[u8]; 7] = [
        b"a:\na:",
        b".func a; .end\na:",
        b"a: .section bss\n.object a 8",
        b".section bss; .object a 8\n.section data; a:",
        b".note ibt\n.note shstk",
        b".note ibt shstk\n.func f; .note ibt",
        b"a:\nnop; a: mov.1 rax, 500",
    ];
    for text in twice {
        check_fault(&rt, rt.alloc(), text, 2, AsmKind::Twice);
    }
    // Of two faults on one line the first statement's counts, of two on one statement the first in order.
    check_fault(&rt, rt.alloc(), b"nop; a: a: bad", 1, AsmKind::Twice);
    check_fault(&rt, rt.alloc(), b"a: bad; a:", 1, AsmKind::Word);
    check_fault(
        &rt,
        rt.alloc(),
        b"a: .section bss; .object a 18446744073709551616",
        1,
        AsmKind::Range,
    );
    Ok(())
}

// So many letters.
fn letters(alloc: Global, count: usize) -> Result<Vec<u8>, Fail> {
    Ok(vec![in alloc; b'a'; count]?)
}

#[test]
fn names_have_at_most_255_bytes(rt: HostRuntime) -> Result<(), Fail> {
    let mut text = letters(rt.alloc(), 255)?;
    text.push(b':')?;
    check_count(&rt, rt.alloc(), &text, 1);
    let mut text = letters(rt.alloc(), 256)?;
    text.push(b':')?;
    check_fault(&rt, rt.alloc(), &text, 1, AsmKind::Word);
    let mut text = Vec::from_slice(rt.alloc(), b"jmp.s ")?;
    text.extend_from_slice(&letters(rt.alloc(), 256)?)?;
    check_fault(&rt, rt.alloc(), &text, 1, AsmKind::Operand);
    Ok(())
}

// So many labels, a line each, then a name that is only made global, and then one that is used.
fn labels(alloc: Global, count: u32) -> Result<String, Fail> {
    let mut text = String::new(alloc);
    for n in 0..count {
        writeln!(text, "a{n}:")?;
    }
    text.push_str(".global b; jmp.s a1\ncall c")?;
    Ok(text)
}

#[test]
fn texts_have_at_most_65535_names(rt: HostRuntime) -> Result<(), Fail> {
    let text = labels(rt.alloc(), 65_534)?;
    check_count(&rt, rt.alloc(), text.as_bytes(), 65_537);
    let text = labels(rt.alloc(), 65_535)?;
    check_fault(&rt, rt.alloc(), text.as_bytes(), 65_537, AsmKind::TooMany);
    Ok(())
}
