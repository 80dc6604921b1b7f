//! Assembly texts that are assembled, linked and run, with schedules. Events and addresses follow from the written sequences of the texts. P, X and W
//! are signal.s, one_context.s and fibers.s of examples/; the objects of all three stand in cet_asm's tests.
use super::*;

// Registers a signal action, calls a function through a register, and ends.
const P: &[u8] = b"\
.note ibt shstk; .global _start
.func restorer; mov.8 rax, 15; syscall; .end
.func onsig; endbr64; ret; .end
.func callee; endbr64; ret; .end
.func _start; action 10, @act; movabs.4 rax, @callee; call rax
movabs.4 rdi, 0; movabs.4 rax, 231; syscall; ud2; .end
.section rodata
act: .word @onsig; .word 0x04000000; .word @restorer; .word 0
";

// Two threads that come to an XCHG of the one context. The one that takes it goes on at `fib`, the other behind its `switch`.
const X: &[u8] = b"\
.note ibt shstk; .global _start
.func fib; endbr64; ud2; .end
.func w; switch @__cet_fibers, @__cet_fibers+8; ud2; .end
.func _start; fibermake @__cet_fibers, @fib; spawn w
switch @__cet_fibers, @__cet_fibers+16; ud2; .end
.section bss; .object __cet_fibers 24
";

// Threads, contexts, a signal, a throw past 300 frames and two branch tables.
const W: &[u8] = b"\
.note ibt shstk; .global _start
.func restorer; mov.8 rax, 15; syscall; .end
.func onsig; endbr64; inc.8 [@hits]; ret; .end
.func c0; endbr64; ret; .end
.func c1; endbr64; ret; .end
.func c2; endbr64; push rbx; pop rbx; ret; .end
.func c3; endbr64; sub.8 rsp, 8; add.8 rsp, 8; ret; .end
.func fib; endbr64
fl: switch @__cet_fibers+8, @__cet_fibers; jmp fl; .end
.func idle; endbr64; ud2; .end
.func worker
wl: switch @__cet_fibers+8, @__cet_fibers+16
movabs.4 rax, 24; syscall; jmp wl; .end
.func deep; sub.8 rdi, 1; je go; call deep; ret
go: throw; .end
.func _start; sub.8 rsp, 56; action 10, @act
fibermake @__cet_fibers, @fib; fibermake @__cet_fibers+24, @idle
spawn worker; spawn worker
switch @__cet_fibers, @__cet_fibers+8
land 0, @caught; movabs.4 rdi, 300; call deep; release 0; jmp on
caught: endbr64
on: movabs.4 rbx, 5; cmp.4 rbx, 5; ja k0; mov.4 rbx, rbx
jmp [rbx*8+@jt]
k1: endbr64; nop
k2: endbr64; nop
k3: endbr64; nop
k4: endbr64; nop
k5: endbr64; nop
k0: endbr64; and.4 rbx, 3; call [rbx*8+@ct]
movabs.4 rdi, 1; movabs.4 rsi, @msg; movabs.4 rdx, 5
movabs.4 rax, 1; syscall
movabs.4 rdi, 0; movabs.4 rax, 231; syscall; ud2; .end
.section rodata
act: .word @onsig; .word 0x04000000; .word @restorer; .word 0
jt: .word @k0; .word @k1; .word @k2; .word @k3; .word @k4; .word @k5
ct: .word @c0; .word @c1; .word @c2; .word @c3
msg: .byte 100; .byte 111; .byte 110; .byte 101; .byte 10
.section bss; .object __cet_fibers 32; .object hits 8
";

// Both threads of `X` before their `switch`: the main thread maps two regions for the context and one for the other thread.
const X_THREADS: &str =
    "x 7 0\ns 0 0 0x100000000\nx 7 0\ns 0 0 0x100020000\nx 17 0\ns 0 0 0x100040000\nx 8 0\ns 0 0 0x100060000\nx 2 0\nx 5 1\n";

// The files of a text, which is assembled and linked: the executable is `e`.
fn linked(alloc: Global, text: &[u8]) -> Result<MemFiles, NoMemory> {
    let mut files = MemFiles::new(alloc);
    files.put("a", text)?;
    files.room("a.o", 16_384)?;
    files.room("e", 65_536)?;
    let words: [&[&str]; 2] = [
        &["asm", "--out", "a.o", "a"],
        &["link", "--out", "e", "a.o"],
    ];
    for words in words {
        let _ = run(alloc, words, &mut files, 1000, 1000)?;
    }
    Ok(files)
}

// What is printed of the run of a text by this schedule, and the status.
fn run_of(alloc: Global, text: &[u8], schedule: &str) -> Result<Answer, NoMemory> {
    let mut files = linked(alloc, text)?;
    files.put("s", schedule.as_bytes())?;
    run(
        alloc,
        &["run", "--schedule", "s", "e"],
        &mut files,
        1000,
        1000,
    )
}

#[test]
fn schedules_of_programs(rt: HostRuntime) -> Result<(), Fail> {
    // The signal comes between the indirect CALL and its ENDBR64.
    let answer = run_of(rt.alloc(), P, "x 8 0\ng 0 10\nx 9 0\n")?;
    assert_eq!(rt;
        answer.out.bytes(),
        b"events 18 ignored 0\noutput -\nended 0\n".as_slice()
    );
    assert_eq!(rt; answer.status, 0);
    // Which thread makes its XCHG first, and which then goes on.
    let rows = [
        (
            "x 2 0\nx 2 1\nx 22 0\n",
            "events 76 ignored 0\noutput -\ndied thread 0 ud at 0x401004\n",
        ),
        (
            "x 2 0\nx 2 1\nx 3 1\n",
            "events 57 ignored 0\noutput -\ndied thread 1 ud at 0x401053\n",
        ),
        (
            "x 2 1\nx 2 0\nx 22 1\n",
            "events 76 ignored 0\noutput -\ndied thread 1 ud at 0x401004\n",
        ),
        (
            "x 2 1\nx 2 0\nx 3 0\n",
            "events 57 ignored 0\noutput -\ndied thread 0 ud at 0x401191\n",
        ),
    ];
    for (order, report) in rows {
        let schedule = format!(in rt.alloc(); "{X_THREADS}{order}")?;
        let answer = run_of(rt.alloc(), X, &schedule)?;
        assert_eq!(rt; answer.out.bytes(), report.as_bytes(), "for {order}");
        assert_eq!(rt; answer.status, 1);
    }
    Ok(())
}

// Without a schedule, and with signals in front that no action is registered for.
#[test]
fn threads_and_contexts(rt: HostRuntime) -> Result<(), Fail> {
    let mut signals = String::new(rt.alloc());
    for _ in 0..10_000u32 {
        signals.push_str("g 0 10\n")?;
    }
    for schedule in ["", signals.as_str()] {
        let answer = run_of(rt.alloc(), W, schedule)?;
        assert_eq!(rt; answer.status, 0);
        assert!(rt;
            answer
                .out
                .bytes()
                .ends_with(b"\noutput 646f6e650a\nended 0\n")
        );
    }
    Ok(())
}
