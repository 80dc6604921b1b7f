//! Texts and their objects, written and read back; and texts with their first fault. Bytes, relocations and symbols are those that GNU as
//! 2.40 makes of the same text in its own spelling, ordered by the rules of the text. P, X and W are signal.s, one_context.s and fibers.s of examples/,
//! which the tests of cet run.
ghost use Rattle.std.specs.Prelude.{IfOk};
ghost use Rattle.cet_elf.specs.Regular.{IsRegular};

use crate::assembling::assemble;
use crate::error::{AsmError, AsmKind};
use cet_elf::{Object, Section, Symbol, read_object, write_object};
use std::alloc::Global;
use std::process::Abort;
use std::test::Fail;

// A signal action, and a call through a register.
const P: &str = "\
.note ibt shstk; .global _start
.func restorer; mov.8 rax, 15; syscall; .end
.func onsig; endbr64; ret; .end
.func callee; endbr64; ret; .end
.func _start; action 10, @act; movabs.4 rax, @callee; call rax
movabs.4 rdi, 0; movabs.4 rax, 231; syscall; ud2; .end
.section rodata
act: .word @onsig; .word 0x04000000; .word @restorer; .word 0
";

// Two threads, of which one can take the one context.
const X: &str = "\
.note ibt shstk; .global _start
.func fib; endbr64; ud2; .end
.func w; switch @__cet_fibers, @__cet_fibers+8; ud2; .end
.func _start; fibermake @__cet_fibers, @fib; spawn w
switch @__cet_fibers, @__cet_fibers+16; ud2; .end
.section bss; .object __cet_fibers 24
";

// Threads, contexts, a signal, a throw past 300 frames and two branch tables.
const W: &str = "\
.note ibt shstk; .global _start
.func restorer; mov.8 rax, 15; syscall; .end
.func onsig; endbr64; inc.8 [@hits]; ret; .end
.func c0; endbr64; ret; .end
.func c1; endbr64; ret; .end
.func c2; endbr64; push rbx; pop rbx; ret; .end
.func c3; endbr64; sub.8 rsp, 8; add.8 rsp, 8; ret; .end
.func fib; endbr64
fl: switch @__cet_fibers+8, @__cet_fibers; jmp fl; .end
.func idle; endbr64; ud2; .end
.func worker
wl: switch @__cet_fibers+8, @__cet_fibers+16
movabs.4 rax, 24; syscall; jmp wl; .end
.func deep; sub.8 rdi, 1; je go; call deep; ret
go: throw; .end
.func _start; sub.8 rsp, 56; action 10, @act
fibermake @__cet_fibers, @fib; fibermake @__cet_fibers+24, @idle
spawn worker; spawn worker
switch @__cet_fibers, @__cet_fibers+8
land 0, @caught; movabs.4 rdi, 300; call deep; release 0; jmp on
caught: endbr64
on: movabs.4 rbx, 5; cmp.4 rbx, 5; ja k0; mov.4 rbx, rbx
jmp [rbx*8+@jt]
k1: endbr64; nop
k2: endbr64; nop
k3: endbr64; nop
k4: endbr64; nop
k5: endbr64; nop
k0: endbr64; and.4 rbx, 3; call [rbx*8+@ct]
movabs.4 rdi, 1; movabs.4 rsi, @msg; movabs.4 rdx, 5
movabs.4 rax, 1; syscall
movabs.4 rdi, 0; movabs.4 rax, 231; syscall; ud2; .end
.section rodata
act: .word @onsig; .word 0x04000000; .word @restorer; .word 0
jt: .word @k0; .word @k1; .word @k2; .word @k3; .word @k4; .word @k5
ct: .word @c0; .word @c1; .word @c2; .word @c3
msg: .byte 100; .byte 111; .byte 110; .byte 101; .byte 10
.section bss; .object __cet_fibers 32; .object hits 8
";

const ROWS: [(&str, &str); 14] = [
    // Nothing.
    (
        "",
        "\
.text 0:
",
    ),
    // A comment with a zero byte and bytes above 127, empty statements, labels before a statement, and no last line feed.
    (
        "# \0 \u{e9} nop\n;a:b: nop;;ret # ; nop\n;hlt",
        "\
.text 3:90c3f4
a None Local In(0) 0 0
b None Local In(0) 0 0
",
    ),
    (
        P,
        "\
.text 68:48c7c00f0000000f05f30f1efac3f30f1efac3bf0a000000be00000000ba0000000041ba08000000b80d0000000f05b800000\
000ffd0bf00000000b8e70000000f050f0b
25 10 act 0
48 10 callee 0
.rodata 32:0000000000000000000000040000000000000000000000000000000000000000
0 1 onsig 0
16 1 restorer 0
restorer Func Local In(0) 0 9
onsig Func Local In(0) 9 5
callee Func Local In(0) 14 5
act None Local In(1) 0 0
_start Func Global In(0) 19 49
note 040000001000000005000000474e5500020000c0040000000300000000000000
",
    ),
    (
        X,
        "\
.text 403:f30f1efa0f0bb80000000048870425000000004885c00f8437000000554157b90000000051f3480f1ec94883e90851488b08\
f30f0129f30f01ea4889e24889c448891425000000005959415f5dffe1f30f1efa0f0bbf00000000be00000100ba0300000041ba220002\
0049c7c0ffffffff41b900000000b8090000000f054885c00f884e0000004c8d80e0ff0000bf00000000be00000100ba01000000b8c501\
00000f054885c00f88280000004881c0f8ff0000498900b90000000049894808b90000000049894810498948184c89042500000000bf00\
000000be00000100ba0300000041ba2200020049c7c0ffffffff41b900000000b8090000000f054885c00f883d000000488db000000100\
bf000f0500ba0000000041ba0000000041b800000000b8380000000f054885c00f8510000000bd0000000041bf00000000e900000000b8\
0000000048870425000000004885c00f8437000000554157b90000000051f3480f1ec94883e90851488b08f30f0129f30f01ea4889e248\
89c448891425000000005959415f5dffe1f30f1efa0f0b
15 11 __cet_fibers 0
32 10 w 73
68 11 __cet_fibers 8
184 10 fib 0
209 11 __cet_fibers 0
320 2 w -4
333 11 __cet_fibers 0
350 10 _start 312
386 11 __cet_fibers 16
.bss 24:
fib Func Local In(0) 0 6
w Func Local In(0) 6 79
__cet_fibers Object Local In(1) 0 24
_start Func Global In(0) 85 318
note 040000001000000005000000474e5500020000c0040000000300000000000000
",
    ),
    (
        W,
        "\
.text 1054:48c7c00f0000000f05f30f1efa48ff042500000000c3f30f1efac3f30f1efac3f30f1efa535bc3f30f1efa4883ec084883c\
408c3f30f1efab80000000048870425000000004885c00f8437000000554157b90000000051f3480f1ec94883e90851488b08f30f0129f\
30f01ea4889e24889c448891425000000005959415f5dffe1f30f1efae900000000f30f1efa0f0bb80000000048870425000000004885c\
00f8437000000554157b90000000051f3480f1ec94883e90851488b08f30f0129f30f01ea4889e24889c448891425000000005959415f5\
dffe1f30f1efab8180000000f05e9000000004883ef010f8400000000e800000000c3498b4f08f3480f1ec84829c148c1e903b8ff00000\
04839c1480f42c1f3480faee84829c10f85e6ffffff498b5710498b6f20498b67184d8b3fffe24883ec38bf0a000000be00000000ba000\
0000041ba08000000b80d0000000f05bf00000000be00000100ba0300000041ba2200020049c7c0ffffffff41b900000000b8090000000\
f054885c00f884e0000004c8d80e0ff0000bf00000000be00000100ba01000000b8c50100000f054885c00f88280000004881c0f8ff000\
0498900b90000000049894808b90000000049894810498948184c89042500000000bf00000000be00000100ba0300000041ba220002004\
9c7c0ffffffff41b900000000b8090000000f054885c00f884e0000004c8d80e0ff0000bf00000000be00000100ba01000000b8c501000\
00f054885c00f88280000004881c0f8ff0000498900b90000000049894808b90000000049894810498948184c89042500000000bf00000\
000be00000100ba0300000041ba2200020049c7c0ffffffff41b900000000b8090000000f054885c00f883d000000488db000000100bf0\
00f0500ba0000000041ba0000000041b800000000b8380000000f054885c00f8510000000bd0000000041bf00000000e900000000bf000\
00000be00000100ba0300000041ba2200020049c7c0ffffffff41b900000000b8090000000f054885c00f883d000000488db000000100b\
f000f0500ba0000000041ba0000000041b800000000b8380000000f054885c00f8510000000bd0000000041bf00000000e900000000b80\
000000048870425000000004885c00f8437000000554157b90000000051f3480f1ec94883e90851488b08f30f0129f30f01ea4889e2488\
9c448891425000000005959415f5dffe1f30f1efa4c893c24f3480f1ec84889442408b8000000004889442410488964241848896c24204\
c8d3c24bf2c010000e8000000004c8b3c24e900000000f30f1efabb0500000083fb050f870000000089dbff24dd00000000f30f1efa90f\
30f1efa90f30f1efa90f30f1efa90f30f1efa90f30f1efa83e303ff14dd00000000bf01000000be00000000ba05000000b8010000000f0\
5bf00000000b8e70000000f050f0b
17 11 hits 0
65 11 __cet_fibers 8
82 10 fib 77
118 11 __cet_fibers 0
134 2 fl -4
153 11 __cet_fibers 8
170 10 worker 73
206 11 __cet_fibers 16
229 2 wl -4
239 2 go -4
244 4 deep -4
318 10 act 0
439 10 fib 0
464 11 __cet_fibers 0
567 10 idle 0
592 11 __cet_fibers 24
703 2 worker -4
814 2 worker -4
827 11 __cet_fibers 0
844 10 _start 583
880 11 __cet_fibers 8
910 10 caught 0
939 4 deep -4
948 2 on -4
966 2 k0 -4
975 11 jt 0
1014 11 ct 0
1024 10 msg 0
.rodata 117:00000000000000000000000400000000000000000000000000000000000000000000000000000000000000000000000000\
00000000000000000000000000000000000000000000000000000000000000000000000000000000000000000000000000000000000000\
0000000000000000646f6e650a
0 1 onsig 0
16 1 restorer 0
32 1 k0 0
40 1 k1 0
48 1 k2 0
56 1 k3 0
64 1 k4 0
72 1 k5 0
80 1 c0 0
88 1 c1 0
96 1 c2 0
104 1 c3 0
.bss 40:
restorer Func Local In(0) 0 9
onsig Func Local In(0) 9 13
c0 Func Local In(0) 22 5
c1 Func Local In(0) 27 5
c2 Func Local In(0) 32 7
c3 Func Local In(0) 39 13
fib Func Local In(0) 52 86
fl None Local In(0) 56 0
idle Func Local In(0) 138 6
worker Func Local In(0) 144 89
wl None Local In(0) 144 0
deep Func Local In(0) 233 75
go None Local In(0) 249 0
caught None Local In(0) 952 0
on None Local In(0) 956 0
k1 None Local In(0) 979 0
k2 None Local In(0) 984 0
k3 None Local In(0) 989 0
k4 None Local In(0) 994 0
k5 None Local In(0) 999 0
k0 None Local In(0) 1004 0
act None Local In(1) 0 0
jt None Local In(1) 32 0
ct None Local In(1) 80 0
msg None Local In(1) 112 0
__cet_fibers Object Local In(2) 0 32
hits Object Local In(2) 32 8
_start Func Global In(0) 308 746
note 040000001000000005000000474e5500020000c0040000000300000000000000
",
    ),
    // The other sites.
    (
        ".func f; land 8, @g+1; read @f-2, 4294967295; release 8; throw; .end",
        "\
.text 121:4c897c2408f3480f1ec84889442410b8000000004889442418488964242048896c24284c8d7c2408be00000000baffffffff\
b8000000000f054c8b7c2408498b4f08f3480f1ec84829c148c1e903b8ff0000004839c1480f42c1f3480faee84829c10f85e6ffffff49\
8b5710498b6f20498b67184d8b3fffe2
16 10 g 1
41 10 f -2
f Func Local In(0) 0 121
g None Global Undefined 0 0
",
    ),
    // Branches to names before and behind, and through memory.
    (
        "a: call b; call a; jmp b; je a; jmp.s a; b: jg.s b; call rbx; notrack jmp [rdx]; jmp [rax*8+@t]; call [rip+@t]",
        "\
.text 43:e800000000e800000000e9000000000f8400000000ebe97ffeffd33eff22ff24c500000000ff1500000000
1 4 b -4
6 4 a -4
11 2 b -4
17 2 a -4
33 11 t 0
39 2 t -4
a None Local In(0) 0 0
b None Local In(0) 23 0
t None Global Undefined 0 0
",
    ),
    // Names in constants and displacements.
    (
        "movabs.1 rax, 255; movabs.4 rsi, @r; movabs.8 r9, @r-1; mov.8 [rax+@b+8], @r+4; sub.4 rdx, @r-2; imul.8 rcx, rdx, @r; push @r; lea.8 rax, [rcx*2+@b-8]; ld.8 rax, [@b]",
        "\
.text 62:b0ffbe0000000049b9000000000000000048c780000000000000000081ea000000004869ca000000006800000000488d044d0\
0000000488b042500000000
3 10 r 0
9 1 r -1
20 11 b 8
24 11 r 4
30 11 r -2
37 11 r 0
42 11 r 0
50 11 b -8
58 11 b 0
r None Global Undefined 0 0
b None Global Undefined 0 0
",
    ),
    // Displacements from the end of the instruction, with constants of no byte, one and four behind.
    (
        "ld.8 rax, [rip+@b]; mov.8 [rip+@b+4], 5; add.4 [rip+@b], 1000; cmp.1 [rip+@b-3], 7; mov.8 [rip+@b], @r; shl.4 [rip+@b], 3; shl.4 [rip+@b], 1; imul.4 rcx, [rip+@b], 9",
        "\
.text 66:488b050000000048c7050000000005000000810500000000e8030000803d000000000748c7050000000000000000c12500000\
00003d125000000006b0d0000000009
3 2 b -4
10 2 b -4
20 2 b -8
30 2 b -8
38 2 b -8
42 11 r 0
48 2 b -5
55 2 b -4
61 2 b -5
b None Global Undefined 0 0
r None Global Undefined 0 0
",
    ),
    // Bounds of numbers.
    (
        ".section data; .word -9223372036854775808; .word 18446744073709551615; .byte -128; .byte 255; .zero 0; .align 4; .align 1; .byte 0x7F; .align 16; .byte -0x0",
        "\
.text 0:
.data 33:0000000000000080ffffffffffffffff80ff00007f000000000000000000000000
",
    ),
    (
        "mov.8 rax, -2147483648; push 127; push 128; movabs.4 rax, 4294967295; movabs.8 rax, 18446744073709551615; shl.8 rcx, 255; ld.8 rax, [rbx-128]; ld.8 rax, [rbx+128]; ld.8 rax, [-2147483648]",
        "\
.text 52:48c7c0000000806a7f6880000000b8ffffffff48b8ffffffffffffffff48c1e1ff488b4380488b8380000000488b042500000\
080
",
    ),
    // The order of symbols: local, global, undefined; no entry for a global name that is neither defined nor used.
    (
        "push @c; .global f; .global unused; .func f; nop; .end; .section bss; b: .zero 1; .object o 3; .section data; .byte 7; t: .off f, t; .off b, t; .section rodata; .word @b; .section bss; .object p 0; .global p; .note shstk",
        "\
.text 6:680000000090
1 11 c 0
.rodata 8:0000000000000000
0 1 b 0
.data 9:070000000000000000
1 2 f 0
5 2 b 4
.bss 16:
b None Local In(3) 0 0
o Object Local In(3) 8 3
t None Local In(2) 1 0
f Func Global In(0) 5 1
p Object Global In(3) 16 0
c None Global Undefined 0 0
note 040000001000000005000000474e5500020000c0040000000200000000000000
",
    ),
    // Short branches as far as they go, forward and back.
    (
        "jmp.s a; .zero 127; a:",
        "\
.text 129:eb7f000000000000000000000000000000000000000000000000000000000000000000000000000000000000000000000000\
00000000000000000000000000000000000000000000000000000000000000000000000000000000000000000000000000000000000000\
000000000000000000000000000000000000000000000000
a None Local In(0) 129 0
",
    ),
    (
        "a: .zero 126; je.s a",
        "\
.text 128:0000000000000000000000000000000000000000000000000000000000000000000000000000000000000000000000000000\
00000000000000000000000000000000000000000000000000000000000000000000000000000000000000000000000000000000000000\
0000000000000000000000000000000000000000007480
a None Local In(0) 0 0
",
    ),
];

fn put_hex(text: &mut String, bytes: &[u8]) -> Result<(), Fail> {
    for byte in bytes {
        write!(text, "{byte:02x}")?;
    }
    writeln!(text)?;
    Ok(())
}

// The name of the symbol of this number.
fn name_of(object: &Object, number: u32) -> Result<&str, Fail> {
    let symbol = object.symbols.get(number as usize).ok_or("no symbol")?;
    Ok(str::from_utf8(symbol.name.as_slice())?)
}

// The name, the size and the bytes; then a line for each relocation: its offset, its type, its symbol and its addend.
fn put_section(text: &mut String, object: &Object, s: &Section) -> Result<(), Fail> {
    let name = str::from_utf8(s.name.as_slice())?;
    write!(text, "{name} {}:", s.size)?;
    put_hex(text, s.bytes.as_slice())?;
    for r in s.relocations.as_slice() {
        let name = name_of(object, r.symbol)?;
        writeln!(text, "{} {} {name} {}", r.offset, r.kind, r.addend)?;
    }
    Ok(())
}

fn put_symbol(text: &mut String, s: &Symbol) -> Result<(), Fail> {
    let name = str::from_utf8(s.name.as_slice())?;
    if !name.is_empty() {
        writeln!(
            text,
            "{name} {:?} {:?} {:?} {} {}",
            s.kind, s.bind, s.place, s.value, s.size
        )?;
    }
    Ok(())
}

// The sections, the symbols that have a name, and the note.
fn told(alloc: Global, object: &Object) -> Result<String, Fail> {
    let mut text = String::new(alloc);
    for s in object.sections.as_slice() {
        put_section(&mut text, object, s)?;
    }
    for s in object.symbols.as_slice() {
        put_symbol(&mut text, s)?;
    }
    if let Some(note) = &object.notes {
        write!(text, "note ")?;
        put_hex(&mut text, note.as_slice())?;
    }
    Ok(text)
}

// The object of a text without a fault.
fn object_of(alloc: Global, text: &str) -> Result<Object, Fail>
    ensures { IfOk result IsRegular }
{
    match assemble(alloc, text.as_bytes()) {
        Ok(object) => Ok(object),
        Err(_) => Err(Fail::from("the text has a fault")),
    }
}

#[test]
fn objects_of_texts(rt: HostRuntime) -> Result<(), Fail> {
    for (text, expected) in ROWS {
        let object = object_of(rt.alloc(), text)?;
        assert_eq!(rt; told(rt.alloc(), &object)?.as_str(), expected, "{text}");
        let file = write_object(rt.alloc(), &object)?;
        assert!(rt; read_object(rt.alloc(), &file)? == object, "{text}");
    }
    Ok(())
}

fn first_fault(alloc: Global, text: &str) -> Option<AsmError> {
    match assemble(alloc, text.as_bytes()) {
        Ok(_) => None,
        Err(fault) => Some(fault),
    }
}

// The columns: a text, the line of its first fault, the fault.
#[test]
fn faults_of_whole_texts(rt: HostRuntime) -> Result<(), Fail> {
    let rows: [(&str, u32, AsmKind); 18] = [
        // Short branches: one byte too far forward and back, to another section, to no name.
        ("jmp.s a; .zero 128; a:", 1, AsmKind::Range),
        ("\na: .zero 127; je.s a", 2, AsmKind::Range),
        (
            ".section data; a: .section text\njmp.s a",
            2,
            AsmKind::Label,
        ),
        ("jmp.s a", 1, AsmKind::Label),
        (
            ".func f; throw; throw; throw; jmp.s f; .end",
            1,
            AsmKind::Range,
        ),
        // Faults of statements come first, though they stand behind.
        ("jmp.s a\nnop\nbad", 3, AsmKind::Word),
        (".func f\njmp.s a\na: a:", 3, AsmKind::Twice),
        // Then the first line, and on one line the first statement.
        ("jmp.s a\n.func f", 1, AsmKind::Label),
        (".func f\njmp.s a", 1, AsmKind::Word),
        ("a: .zero 200; jmp.s a; jmp.s b", 1, AsmKind::Range),
        ("a: .zero 200; jmp.s b; jmp.s a", 1, AsmKind::Label),
        (".func f; jmp.s a; .end; .func g", 1, AsmKind::Label),
        // A label before and behind its uses, and again in another section.
        (
            "call a; a: nop\ncall a; .section data; a:",
            2,
            AsmKind::Twice,
        ),
        (
            ".section bss; a: .object b 8\n.section text; .func b; .end",
            2,
            AsmKind::Twice,
        ),
        // More bytes than are stored.
        (
            ".section data; .zero 18446744073709551615",
            0,
            AsmKind::NoMemory,
        ),
        (
            ".zero 1000000000; .section rodata; .zero 1000000000",
            0,
            AsmKind::NoMemory,
        ),
        (
            ".section data; .zero 18446744073709551615\n.zero 1",
            2,
            AsmKind::Range,
        ),
        (".zero 1000000000\njmp.s a", 2, AsmKind::Label),
    ];
    for (text, line, kind) in rows {
        let expected = Some(AsmError { line, kind });
        assert_eq!(rt; first_fault(rt.alloc(), text), expected, "{text}");
    }
    Ok(())
}
