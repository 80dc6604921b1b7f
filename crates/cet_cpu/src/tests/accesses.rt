//! What the other tables leave of the loads and stores that fault, and of quotients that are none, as an x86-64 processor has them
//! (`tools/compare_steps.py`). A page that is unmapped stops the load, and one that is only read the store.
use crate::tests::Faulting;
use crate::tests::Part::Reg;
use cet_isa::Fault::{Divide, Page};
use cet_isa::Reg::{Rax, Rbp, Rcx, Rdx, Rsp};

/// Data transfers.
pub const MOVES: &[Faulting] = &[
    // xchg byte ptr [rbx], cl
    (b"\x86\x0b", &[], Page { addr: 0x404000 }),
    // cmpxchg byte ptr [rbx], cl
    (b"\x0f\xb0\x0b", &[], Page { addr: 0x404000 }),
    // cmpxchg byte ptr [rsi], cl
    (b"\x0f\xb0\x0e", &[], Page { addr: 0x405900 }),
    // lock cmpxchg byte ptr [rsi], cl
    (
        b"\xf0\x0f\xb0\x0e",
        &[Reg(Rax, 0x0)],
        Page { addr: 0x405900 },
    ),
    // xadd byte ptr [rbx], cl
    (b"\x0f\xc0\x0b", &[], Page { addr: 0x404000 }),
    // lock xadd byte ptr [rsi], cl
    (b"\xf0\x0f\xc0\x0e", &[], Page { addr: 0x405900 }),
    // xchg dword ptr [rsi], ecx
    (b"\x87\x0e", &[], Page { addr: 0x405900 }),
    // cmpxchg dword ptr [rsi], ecx
    (b"\x0f\xb1\x0e", &[], Page { addr: 0x405900 }),
    // lock cmpxchg dword ptr [rsi], ecx
    (
        b"\xf0\x0f\xb1\x0e",
        &[Reg(Rax, 0x0)],
        Page { addr: 0x405900 },
    ),
    // xadd dword ptr [rbx], ecx
    (b"\x0f\xc1\x0b", &[], Page { addr: 0x404000 }),
    // lock xadd dword ptr [rsi], ecx
    (b"\xf0\x0f\xc1\x0e", &[], Page { addr: 0x405900 }),
    // mov qword ptr [rsi], rcx
    (b"\x48\x89\x0e", &[], Page { addr: 0x405900 }),
    // mov rax, qword ptr [rbx]
    (b"\x48\x8b\x03", &[], Page { addr: 0x404000 }),
    // xchg qword ptr [rbx], rcx
    (b"\x48\x87\x0b", &[], Page { addr: 0x404000 }),
    // cmpxchg qword ptr [rbx], rcx
    (b"\x48\x0f\xb1\x0b", &[], Page { addr: 0x404000 }),
    // lock cmpxchg qword ptr [rsi], rcx
    (
        b"\xf0\x48\x0f\xb1\x0e",
        &[Reg(Rax, 0x0)],
        Page { addr: 0x405900 },
    ),
    // lock xadd qword ptr [rsi], rcx
    (b"\xf0\x48\x0f\xc1\x0e", &[], Page { addr: 0x405900 }),
    // movzx eax, byte ptr [rbx]
    (b"\x0f\xb6\x03", &[], Page { addr: 0x404000 }),
    // cmovne eax, dword ptr [rbx]
    (b"\x0f\x45\x03", &[], Page { addr: 0x404000 }),
    // movsx rax, byte ptr [rbx]
    (b"\x48\x0f\xbe\x03", &[], Page { addr: 0x404000 }),
    // cmove rax, qword ptr [rbx]
    (b"\x48\x0f\x44\x03", &[], Page { addr: 0x404000 }),
    // setne byte ptr [rbx]
    (b"\x0f\x95\x03", &[], Page { addr: 0x404000 }),
];

/// Arithmetic and logic.
pub const ARITHMETIC: &[Faulting] = &[
    // add byte ptr [rbx], cl
    (b"\x00\x0b", &[], Page { addr: 0x404000 }),
    // add eax, dword ptr [rbx]
    (b"\x03\x03", &[], Page { addr: 0x404000 }),
    // add qword ptr [rbx], 1
    (b"\x48\x83\x03\x01", &[], Page { addr: 0x404000 }),
    // add dword ptr [rsi], ecx
    (b"\x01\x0e", &[], Page { addr: 0x405900 }),
    // add byte ptr [rsi], 1
    (b"\x80\x06\x01", &[], Page { addr: 0x405900 }),
    // or dword ptr [rbx], ecx
    (b"\x09\x0b", &[], Page { addr: 0x404000 }),
    // or rax, qword ptr [rbx]
    (b"\x48\x0b\x03", &[], Page { addr: 0x404000 }),
    // or byte ptr [rbx], 1
    (b"\x80\x0b\x01", &[], Page { addr: 0x404000 }),
    // or qword ptr [rsi], rcx
    (b"\x48\x09\x0e", &[], Page { addr: 0x405900 }),
    // or dword ptr [rsi], 1
    (b"\x83\x0e\x01", &[], Page { addr: 0x405900 }),
    // adc qword ptr [rbx], rcx
    (b"\x48\x11\x0b", &[], Page { addr: 0x404000 }),
    // adc al, byte ptr [rbx]
    (b"\x12\x03", &[], Page { addr: 0x404000 }),
    // adc dword ptr [rbx], 1
    (b"\x83\x13\x01", &[], Page { addr: 0x404000 }),
    // adc byte ptr [rsi], cl
    (b"\x10\x0e", &[], Page { addr: 0x405900 }),
    // adc qword ptr [rsi], 1
    (b"\x48\x83\x16\x01", &[], Page { addr: 0x405900 }),
    // sbb byte ptr [rbx], cl
    (b"\x18\x0b", &[], Page { addr: 0x404000 }),
    // sbb eax, dword ptr [rbx]
    (b"\x1b\x03", &[], Page { addr: 0x404000 }),
    // sbb qword ptr [rbx], 1
    (b"\x48\x83\x1b\x01", &[], Page { addr: 0x404000 }),
    // sbb dword ptr [rsi], ecx
    (b"\x19\x0e", &[], Page { addr: 0x405900 }),
    // sbb byte ptr [rsi], 1
    (b"\x80\x1e\x01", &[], Page { addr: 0x405900 }),
    // and dword ptr [rbx], ecx
    (b"\x21\x0b", &[], Page { addr: 0x404000 }),
    // and rax, qword ptr [rbx]
    (b"\x48\x23\x03", &[], Page { addr: 0x404000 }),
    // and byte ptr [rbx], 1
    (b"\x80\x23\x01", &[], Page { addr: 0x404000 }),
    // and qword ptr [rsi], rcx
    (b"\x48\x21\x0e", &[], Page { addr: 0x405900 }),
    // and dword ptr [rsi], 1
    (b"\x83\x26\x01", &[], Page { addr: 0x405900 }),
    // sub qword ptr [rbx], rcx
    (b"\x48\x29\x0b", &[], Page { addr: 0x404000 }),
    // sub al, byte ptr [rbx]
    (b"\x2a\x03", &[], Page { addr: 0x404000 }),
    // sub dword ptr [rbx], 1
    (b"\x83\x2b\x01", &[], Page { addr: 0x404000 }),
    // sub byte ptr [rsi], cl
    (b"\x28\x0e", &[], Page { addr: 0x405900 }),
    // xor byte ptr [rbx], cl
    (b"\x30\x0b", &[], Page { addr: 0x404000 }),
    // xor qword ptr [rbx], 1
    (b"\x48\x83\x33\x01", &[], Page { addr: 0x404000 }),
    // xor dword ptr [rsi], ecx
    (b"\x31\x0e", &[], Page { addr: 0x405900 }),
    // xor byte ptr [rsi], 1
    (b"\x80\x36\x01", &[], Page { addr: 0x405900 }),
    // cmp dword ptr [rbx], ecx
    (b"\x39\x0b", &[], Page { addr: 0x404000 }),
    // cmp rax, qword ptr [rbx]
    (b"\x48\x3b\x03", &[], Page { addr: 0x404000 }),
    // cmp byte ptr [rbx], 1
    (b"\x80\x3b\x01", &[], Page { addr: 0x404000 }),
    // test byte ptr [rbx], 1
    (b"\xf6\x03\x01", &[], Page { addr: 0x404000 }),
    // inc byte ptr [rbx]
    (b"\xfe\x03", &[], Page { addr: 0x404000 }),
    // dec byte ptr [rsi]
    (b"\xfe\x0e", &[], Page { addr: 0x405900 }),
    // not byte ptr [rbx]
    (b"\xf6\x13", &[], Page { addr: 0x404000 }),
    // neg byte ptr [rsi]
    (b"\xf6\x1e", &[], Page { addr: 0x405900 }),
    // test dword ptr [rbx], ecx
    (b"\x85\x0b", &[], Page { addr: 0x404000 }),
    // inc dword ptr [rsi]
    (b"\xff\x06", &[], Page { addr: 0x405900 }),
    // dec dword ptr [rbx]
    (b"\xff\x0b", &[], Page { addr: 0x404000 }),
    // neg dword ptr [rbx]
    (b"\xf7\x1b", &[], Page { addr: 0x404000 }),
    // test qword ptr [rbx], rcx
    (b"\x48\x85\x0b", &[], Page { addr: 0x404000 }),
    // test qword ptr [rbx], 1
    (
        b"\x48\xf7\x03\x01\x00\x00\x00",
        &[],
        Page { addr: 0x404000 },
    ),
    // inc qword ptr [rbx]
    (b"\x48\xff\x03", &[], Page { addr: 0x404000 }),
    // dec qword ptr [rsi]
    (b"\x48\xff\x0e", &[], Page { addr: 0x405900 }),
    // not qword ptr [rbx]
    (b"\x48\xf7\x13", &[], Page { addr: 0x404000 }),
    // neg qword ptr [rsi]
    (b"\x48\xf7\x1e", &[], Page { addr: 0x405900 }),
];

/// Shifts, products and quotients.
pub const SHIFTS: &[Faulting] = &[
    // rol byte ptr [rbx], 3
    (b"\xc0\x03\x03", &[], Page { addr: 0x404000 }),
    // rol dword ptr [rbx], 3
    (b"\xc1\x03\x03", &[], Page { addr: 0x404000 }),
    // rol qword ptr [rbx], 3
    (b"\x48\xc1\x03\x03", &[], Page { addr: 0x404000 }),
    // ror byte ptr [rbx], cl
    (b"\xd2\x0b", &[], Page { addr: 0x404000 }),
    // ror dword ptr [rbx], cl
    (b"\xd3\x0b", &[], Page { addr: 0x404000 }),
    // ror qword ptr [rbx], cl
    (b"\x48\xd3\x0b", &[], Page { addr: 0x404000 }),
    // shl byte ptr [rsi], 3
    (b"\xc0\x26\x03", &[], Page { addr: 0x405900 }),
    // shl dword ptr [rsi], 3
    (b"\xc1\x26\x03", &[], Page { addr: 0x405900 }),
    // shl qword ptr [rsi], 3
    (b"\x48\xc1\x26\x03", &[], Page { addr: 0x405900 }),
    // shr byte ptr [rsi], cl
    (b"\xd2\x2e", &[], Page { addr: 0x405900 }),
    // shr dword ptr [rsi], cl
    (b"\xd3\x2e", &[], Page { addr: 0x405900 }),
    // shr qword ptr [rsi], cl
    (b"\x48\xd3\x2e", &[], Page { addr: 0x405900 }),
    // sar byte ptr [rbx], 3
    (b"\xc0\x3b\x03", &[], Page { addr: 0x404000 }),
    // sar dword ptr [rbx], 3
    (b"\xc1\x3b\x03", &[], Page { addr: 0x404000 }),
    // sar qword ptr [rbx], 3
    (b"\x48\xc1\x3b\x03", &[], Page { addr: 0x404000 }),
    // imul eax, dword ptr [rbx], 2
    (b"\x6b\x03\x02", &[], Page { addr: 0x404000 }),
    // imul eax, dword ptr [rbx], 0x11223344
    (b"\x69\x03\x44\x33\x22\x11", &[], Page { addr: 0x404000 }),
    // mul dword ptr [rbx]
    (b"\xf7\x23", &[], Page { addr: 0x404000 }),
    // imul dword ptr [rbx]
    (b"\xf7\x2b", &[], Page { addr: 0x404000 }),
    // div dword ptr [rbx]
    (b"\xf7\x33", &[], Page { addr: 0x404000 }),
    // div dword ptr [rsi]
    (b"\xf7\x36", &[], Divide),
    // div ecx
    (b"\xf7\xf1", &[Reg(Rcx, 0x0)], Divide),
    // idiv dword ptr [rsi]
    (b"\xf7\x3e", &[], Divide),
    // idiv ecx
    (b"\xf7\xf9", &[Reg(Rcx, 0x0)], Divide),
    // div dword ptr [rdi]
    (b"\xf7\x37", &[Reg(Rdx, 0x76543210)], Divide),
    // idiv ecx
    (
        b"\xf7\xf9",
        &[Reg(Rdx, u64::MAX), Reg(Rax, 0x80000000), Reg(Rcx, u64::MAX)],
        Divide,
    ),
    // imul rax, qword ptr [rbx]
    (b"\x48\x0f\xaf\x03", &[], Page { addr: 0x404000 }),
    // imul rax, qword ptr [rbx], 0x11223344
    (
        b"\x48\x69\x03\x44\x33\x22\x11",
        &[],
        Page { addr: 0x404000 },
    ),
    // imul qword ptr [rbx]
    (b"\x48\xf7\x2b", &[], Page { addr: 0x404000 }),
    // div qword ptr [rbx]
    (b"\x48\xf7\x33", &[], Page { addr: 0x404000 }),
    // idiv qword ptr [rbx]
    (b"\x48\xf7\x3b", &[], Page { addr: 0x404000 }),
    // div rcx
    (b"\x48\xf7\xf1", &[Reg(Rcx, 0x0)], Divide),
    // idiv qword ptr [rsi]
    (b"\x48\xf7\x3e", &[], Divide),
    // idiv rcx
    (b"\x48\xf7\xf9", &[Reg(Rcx, 0x0)], Divide),
    // div qword ptr [rdi]
    (b"\x48\xf7\x37", &[Reg(Rdx, 0xfedcba9876543210)], Divide),
    // idiv rcx
    (
        b"\x48\xf7\xf9",
        &[
            Reg(Rdx, u64::MAX),
            Reg(Rax, 0x8000000000000000),
            Reg(Rcx, u64::MAX),
        ],
        Divide,
    ),
];

/// The data stack and control transfers.
pub const STACK: &[Faulting] = &[
    // push rax
    (b"\x50", &[Reg(Rsp, 0x405900)], Page { addr: 0x4058f8 }),
    // push -1
    (b"\x6a\xff", &[Reg(Rsp, 0x403000)], Page { addr: 0x402ff8 }),
    // push 0x12345678
    (
        b"\x68\x78\x56\x34\x12",
        &[Reg(Rsp, 0x405900)],
        Page { addr: 0x4058f8 },
    ),
    // push qword ptr [rdi]
    (b"\xff\x37", &[Reg(Rsp, 0x403000)], Page { addr: 0x402ff8 }),
    // push qword ptr [rbx]
    (b"\xff\x33", &[Reg(Rsp, 0x403000)], Page { addr: 0x404000 }),
    // pop rax
    (b"\x58", &[Reg(Rsp, 0x404000)], Page { addr: 0x404000 }),
    // pop rsp
    (b"\x5c", &[Reg(Rsp, 0x404000)], Page { addr: 0x404000 }),
    // leave
    (b"\xc9", &[Reg(Rbp, 0x404000)], Page { addr: 0x404000 }),
    // call rax
    (b"\xff\xd0", &[Reg(Rsp, 0x403000)], Page { addr: 0x402ff8 }),
    // call rax
    (b"\xff\xd0", &[Reg(Rsp, 0x405900)], Page { addr: 0x4058f8 }),
    // call qword ptr [rdi]
    (b"\xff\x17", &[Reg(Rsp, 0x405900)], Page { addr: 0x4058f8 }),
    // call qword ptr [rbx]
    (b"\xff\x13", &[Reg(Rsp, 0x403000)], Page { addr: 0x404000 }),
    // call .+5
    (
        b"\xe8\x00\x00\x00\x00",
        &[Reg(Rsp, 0x403000)],
        Page { addr: 0x402ff8 },
    ),
    // jmp qword ptr [rsp]
    (
        b"\xff\x24\x24",
        &[Reg(Rsp, 0x404000)],
        Page { addr: 0x404000 },
    ),
    // ret
    (b"\xc3", &[Reg(Rsp, 0x402ff8)], Page { addr: 0x402ff8 }),
];
