//! Each access of an instruction that no region holds, where no feature is on, and each quotient that is none. The faults are those of an x86-64
//! processor (`tools/compare_steps.py`).
use crate::tests::Faulting;
use crate::tests::Part::{Reg, Word};
use cet_isa::Fault::{Divide, Page};
use cet_isa::Reg::{Rcx, Rsp};

/// Data transfers.
pub fn moves() -> &'static [Faulting] {
    &[
        // mov byte ptr [rsi], cl
        (b"\x88\x0e", &[], Page { addr: 0x405900 }),
        // mov dword ptr [rsi], ecx
        (b"\x89\x0e", &[], Page { addr: 0x405900 }),
        // mov al, byte ptr [rbx]
        (b"\x8a\x03", &[], Page { addr: 0x404000 }),
        // mov eax, dword ptr [rbx]
        (b"\x8b\x03", &[], Page { addr: 0x404000 }),
        // mov byte ptr [rsi], 1
        (b"\xc6\x06\x01", &[], Page { addr: 0x405900 }),
        // mov dword ptr [rsi], 1
        (b"\xc7\x06\x01\x00\x00\x00", &[], Page { addr: 0x405900 }),
        // mov qword ptr [rsi], 1
        (
            b"\x48\xc7\x06\x01\x00\x00\x00",
            &[],
            Page { addr: 0x405900 },
        ),
        // movzx rax, byte ptr [rbx]
        (b"\x48\x0f\xb6\x03", &[], Page { addr: 0x404000 }),
        // movsx eax, byte ptr [rbx]
        (b"\x0f\xbe\x03", &[], Page { addr: 0x404000 }),
        // movsxd rax, dword ptr [rbx]
        (b"\x48\x63\x03", &[], Page { addr: 0x404000 }),
        // sete byte ptr [rsi]
        (b"\x0f\x94\x06", &[], Page { addr: 0x405900 }),
        // cmove eax, dword ptr [rbx]
        (b"\x0f\x44\x03", &[], Page { addr: 0x404000 }),
        // cmovne rax, qword ptr [rbx]
        (b"\x48\x0f\x45\x03", &[], Page { addr: 0x404000 }),
        // xchg byte ptr [rsi], cl
        (b"\x86\x0e", &[], Page { addr: 0x405900 }),
        // xchg qword ptr [rsi], rcx
        (b"\x48\x87\x0e", &[], Page { addr: 0x405900 }),
        // xchg dword ptr [rbx], ecx
        (b"\x87\x0b", &[], Page { addr: 0x404000 }),
        // cmpxchg dword ptr [rbx], ecx
        (b"\x0f\xb1\x0b", &[], Page { addr: 0x404000 }),
        // cmpxchg qword ptr [rsi], rcx
        (b"\x48\x0f\xb1\x0e", &[], Page { addr: 0x405900 }),
        // xadd qword ptr [rbx], rcx
        (b"\x48\x0f\xc1\x0b", &[], Page { addr: 0x404000 }),
        // xadd dword ptr [rsi], ecx
        (b"\x0f\xc1\x0e", &[], Page { addr: 0x405900 }),
    ]
}

/// Arithmetic and logic.
pub fn arithmetic() -> &'static [Faulting] {
    &[
        // add dword ptr [rbx], ecx
        (b"\x01\x0b", &[], Page { addr: 0x404000 }),
        // add byte ptr [rsi], cl
        (b"\x00\x0e", &[], Page { addr: 0x405900 }),
        // xor eax, dword ptr [rbx]
        (b"\x33\x03", &[], Page { addr: 0x404000 }),
        // sub qword ptr [rsi], 1
        (b"\x48\x83\x2e\x01", &[], Page { addr: 0x405900 }),
        // cmp byte ptr [rbx], cl
        (b"\x38\x0b", &[], Page { addr: 0x404000 }),
        // or dword ptr [rbx], 1
        (b"\x83\x0b\x01", &[], Page { addr: 0x404000 }),
        // test byte ptr [rbx], cl
        (b"\x84\x0b", &[], Page { addr: 0x404000 }),
        // test dword ptr [rbx], 1
        (b"\xf7\x03\x01\x00\x00\x00", &[], Page { addr: 0x404000 }),
        // inc qword ptr [rsi]
        (b"\x48\xff\x06", &[], Page { addr: 0x405900 }),
        // neg byte ptr [rbx]
        (b"\xf6\x1b", &[], Page { addr: 0x404000 }),
        // not dword ptr [rsi]
        (b"\xf7\x16", &[], Page { addr: 0x405900 }),
    ]
}

/// Shifts, products and quotients.
pub fn shifts() -> &'static [Faulting] {
    &[
        // shl dword ptr [rsi], 32
        (b"\xc1\x26\x20", &[], Page { addr: 0x405900 }),
        // sar qword ptr [rsi], cl
        (b"\x48\xd3\x3e", &[Reg(Rcx, 0x40)], Page { addr: 0x405900 }),
        // ror byte ptr [rbx], 1
        (b"\xd0\x0b", &[], Page { addr: 0x404000 }),
        // shr dword ptr [rbx], cl
        (b"\xd3\x2b", &[Reg(Rcx, 0)], Page { addr: 0x404000 }),
        // imul eax, dword ptr [rbx]
        (b"\x0f\xaf\x03", &[], Page { addr: 0x404000 }),
        // imul rax, qword ptr [rbx], 2
        (b"\x48\x6b\x03\x02", &[], Page { addr: 0x404000 }),
        // mul qword ptr [rbx]
        (b"\x48\xf7\x23", &[], Page { addr: 0x404000 }),
        // div qword ptr [rsi]
        (b"\x48\xf7\x36", &[], Divide),
        // idiv dword ptr [rbx]
        (b"\xf7\x3b", &[], Page { addr: 0x404000 }),
    ]
}

/// The data stack.
pub fn stack() -> &'static [Faulting] {
    &[
        // push qword ptr [rbx]
        (b"\xff\x33", &[], Page { addr: 0x404000 }),
        // push qword ptr [rdi]
        (b"\xff\x37", &[Reg(Rsp, 0x405900)], Page { addr: 0x4058f8 }),
    ]
}

/// Control transfers.
pub fn control() -> &'static [Faulting] {
    &[
        // call [rbx]
        (b"\xff\x13", &[], Page { addr: 0x404000 }),
        // call [rdi]
        (
            b"\xff\x17",
            &[Reg(Rsp, 0x403000), Word(0x403900, 0x401800)],
            Page { addr: 0x402ff8 },
        ),
        // call .+0x800
        (
            b"\xe8\xfb\x07\x00\x00",
            &[Reg(Rsp, 0x405900)],
            Page { addr: 0x4058f8 },
        ),
        // jmp [rbx]
        (b"\xff\x23", &[], Page { addr: 0x404000 }),
        // ret
        (b"\xc3", &[Reg(Rsp, 0x404000)], Page { addr: 0x404000 }),
    ]
}
