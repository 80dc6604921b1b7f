//! Texts with the bytes that GNU as gives for the same instructions in its own spelling, and texts with what is wrong with them.
use crate::error::SyntaxError;
use crate::keyword::head;
use crate::reading::read_statement;
use crate::statement::Statement;
use crate::template::Code;
use cet_encode::encode;
use std::process::Abort;
use std::test::Fail;

// The statement is an instruction without names that has these bytes.
fn check_bytes(rt: &impl Abort, text: &[u8], bytes: &[u8]) {
    let found = match head(text) {
        Some((keyword, rest)) => match read_statement(keyword, rest) {
            Ok(Statement::Code(Code::Long(template))) => match encode(template.insn) {
                Ok(code) => code.as_bytes() == bytes,
                Err(_) => false,
            },
            _ => false,
        },
        None => false,
    };
    assert!(rt; found, "{text:?}");
}

// What is wrong with the statement.
fn check_fault(rt: &impl Abort, text: &[u8], fault: SyntaxError) {
    let found = match head(text) {
        Some((keyword, rest)) => match read_statement(keyword, rest) {
            Ok(_) => false,
            Err(found) => found == fault,
        },
        None => fault == SyntaxError::Word,
    };
    assert!(rt; found, "{text:?}");
}

#[test]
fn instructions_have_their_bytes(rt: HostRuntime) -> Result<(), Fail> {
    let rows: [(&[u8], &[u8]); 20] = [
        (b"mov.8 rax, rbx", b"\x48\x89\xd8"),
        (b"add.8 rax ,5", b"\x48\x83\xc0\x05"),
        (b"ld.4 rcx, [rsp+8]", b"\x8b\x4c\x24\x08"),
        (b"lea.8 r8, [rax+0xFFe0]", b"\x4c\x8d\x80\xe0\xff\x00\x00"),
        (b"movabs.4 rdi, 00231", b"\xbf\xe7\x00\x00\x00"),
        (b"jmp [rbx*8+16]", b"\xff\x24\xdd\x10\x00\x00\x00"),
        (b"notrack  jmp rax", b"\x3e\xff\xe0"),
        (
            b"lock cmpxchg.8 [rip+0], rcx",
            b"\xf0\x48\x0f\xb1\x0d\x00\x00\x00\x00",
        ),
        (b"shl.4 rdx, cl", b"\xd3\xe2"),
        (b"imul.8 rax, [rbp-8], -0x3", b"\x48\x6b\x45\xf8\xfd"),
        (b"imul.4 rcx, rdx", b"\x0f\xaf\xca"),
        (b"push [rax]", b"\xff\x30"),
        (b"push -1", b"\x6a\xff"),
        (b"jne.s $-2", b"\x75\xfe"),
        (b"jmp $5", b"\xe9\x05\x00\x00\x00"),
        (b"setb rsi", b"\x40\x0f\x92\xc6"),
        (b"wrss [rax], rcx", b"\x48\x0f\x38\xf6\x08"),
        (b"mov.1 [-0], r9", b"\x44\x88\x0c\x25\x00\x00\x00\x00"),
        (b"cmovge.8 rax, [rax+rbx*4-5]", b"\x48\x0f\x4d\x44\x98\xfb"),
        (
            b"movabs.8 rcx, 18446744073709551615",
            b"\x48\xb9\xff\xff\xff\xff\xff\xff\xff\xff",
        ),
    ];
    for (text, bytes) in rows.iter() {
        check_bytes(&rt, text, bytes);
    }
    Ok(())
}

#[test]
fn wrong_statements_have_their_faults(rt: HostRuntime) -> Result<(), Fail> {
    let word: [&[u8]; 7] = [
        b"mov.2 rax, rbx",
        b"lock nop",
        b"notrack push rax",
        b"lock lock xadd.8 [rax], rcx",
        b"a b",
        b"jxx $1",
        b"rax: nop",
    ];
    for text in word {
        check_fault(&rt, text, SyntaxError::Word);
    }
    let operand: [&[u8]; 13] = [
        b"mov.8 rax",
        b"mov.8 rax, rbx,",
        b"mov.8 [rax+0], rbx",
        b"mov.8 [rax+rbx], rcx",
        b"mov.8 [rip], rcx",
        b"mov.8 [rip-0], rcx",
        b"mov.8 [rax + 8], rcx",
        b"notrack jmp a",
        b"notrack jmp $1",
        b".off a b",
        b".section code",
        b".note ibt ibt",
        b"spawn @f",
    ];
    for text in operand {
        check_fault(&rt, text, SyntaxError::Operand);
    }
    let range: [&[u8]; 12] = [
        b"mov.1 rax, 128",
        b"lea.1 rax, [rbx]",
        b"cdq.1",
        b"ld.8 rax, [rbx*3]",
        b"ld.8 rax, [rsp*1]",
        b"shl.8 rax, @x",
        b"shl.8 rax, 256",
        b"movabs.1 rax, @x",
        b"push @x+9223372036854775808",
        b"movabs.8 rax, 18446744073709551616",
        b".align 3",
        b"land 2147483616, @x",
    ];
    for text in range {
        check_fault(&rt, text, SyntaxError::Range);
    }
    Ok(())
}
