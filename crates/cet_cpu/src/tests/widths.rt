//! Each family of instructions at each of its widths, with registers and memory, where no feature is on. Code and states are what GNU as and an
//! x86-64 processor make of the text above a row (`tools/compare_steps.py`); flags that the SDM leaves undefined are clear.
use crate::tests::Part::{Flags, Reg, Rip, Word};
use crate::tests::Single;
use cet_isa::Reg::{R15, Rax, Rbp, Rcx, Rdx, Rsp};

/// Data transfers.
pub fn moves() -> &'static [Single] {
    &[
        // mov rax, rcx
        (b"\x48\x89\xc8", &[], &[Reg(Rax, 0x8000000180000080)]),
        // mov byte ptr [rdi], cl
        (b"\x88\x0f", &[], &[Word(0x403900, 0xfedcba9876543280)]),
        // mov dword ptr [rdi], ecx
        (b"\x89\x0f", &[], &[Word(0x403900, 0xfedcba9880000080)]),
        // mov qword ptr [rdi], rcx
        (b"\x48\x89\x0f", &[], &[Word(0x403900, 0x8000000180000080)]),
        // mov al, byte ptr [rdi]
        (b"\x8a\x07", &[], &[Reg(Rax, 0x1122334455667710)]),
        // mov eax, dword ptr [rdi]
        (b"\x8b\x07", &[], &[Reg(Rax, 0x76543210)]),
        // mov rax, qword ptr [rdi]
        (b"\x48\x8b\x07", &[], &[Reg(Rax, 0xfedcba9876543210)]),
        // mov byte ptr [rdi], 0x80
        (b"\xc6\x07\x80", &[], &[Word(0x403900, 0xfedcba9876543280)]),
        // mov dword ptr [rdi], -2
        (
            b"\xc7\x07\xfe\xff\xff\xff",
            &[],
            &[Word(0x403900, 0xfedcba98fffffffe)],
        ),
        // mov qword ptr [rdi], -2
        (
            b"\x48\xc7\x07\xfe\xff\xff\xff",
            &[],
            &[Word(0x403900, 0xfffffffffffffffe)],
        ),
        // mov al, 0x80
        (b"\xb0\x80", &[], &[Reg(Rax, 0x1122334455667780)]),
        // movabs rax, 0x8000000000000001
        (
            b"\x48\xb8\x01\x00\x00\x00\x00\x00\x00\x80",
            &[],
            &[Reg(Rax, 0x8000000000000001)],
        ),
        // movzx eax, byte ptr [rdi + 7]
        (b"\x0f\xb6\x47\x07", &[], &[Reg(Rax, 0xfe)]),
        // movzx rax, cl
        (b"\x48\x0f\xb6\xc1", &[], &[Reg(Rax, 0x80)]),
        // movsx eax, byte ptr [rdi + 7]
        (b"\x0f\xbe\x47\x07", &[], &[Reg(Rax, 0xfffffffe)]),
        // movsx rax, cl
        (b"\x48\x0f\xbe\xc1", &[], &[Reg(Rax, 0xffffffffffffff80)]),
        // movsxd rax, dword ptr [rdi + 4]
        (b"\x48\x63\x47\x04", &[], &[Reg(Rax, 0xfffffffffedcba98)]),
        // lea rax, [rip + 16]
        (b"\x48\x8d\x05\x10\x00\x00\x00", &[], &[Reg(Rax, 0x401017)]),
        // lea rax, [rsp + rcx*8 - 8]
        (b"\x48\x8d\x44\xcc\xf8", &[], &[Reg(Rax, 0xc00403bf8)]),
        // lea eax, [rcx - 0x81]
        (b"\x8d\x81\x7f\xff\xff\xff", &[], &[Reg(Rax, 0x7fffffff)]),
        // cwde
        (b"\x98", &[Reg(Rax, 0x8001)], &[Reg(Rax, 0xffff8001)]),
        // sete cl
        (b"\x0f\x94\xc1", &[], &[Reg(Rcx, 0x8000000180000000)]),
        // setne byte ptr [rdi]
        (b"\x0f\x95\x07", &[], &[Word(0x403900, 0xfedcba9876543201)]),
        // cmovne eax, dword ptr [rdi]
        (b"\x0f\x45\x07", &[], &[Reg(Rax, 0x76543210)]),
        // cmove eax, dword ptr [rdi]
        (b"\x0f\x44\x07", &[], &[Reg(Rax, 0x55667788)]),
        // cmove rax, rcx
        (b"\x48\x0f\x44\xc1", &[], &[]),
        // xchg al, cl
        (
            b"\x86\xc8",
            &[],
            &[Reg(Rax, 0x1122334455667780), Reg(Rcx, 0x8000000180000088)],
        ),
        // xchg ecx, edx
        (b"\x87\xd1", &[], &[Reg(Rcx, 0), Reg(Rdx, 0x80000080)]),
        // xchg rcx, rdx
        (
            b"\x48\x87\xd1",
            &[],
            &[Reg(Rcx, 0), Reg(Rdx, 0x8000000180000080)],
        ),
        // xchg byte ptr [rdi], cl
        (
            b"\x86\x0f",
            &[],
            &[
                Reg(Rcx, 0x8000000180000010),
                Word(0x403900, 0xfedcba9876543280),
            ],
        ),
        // xchg qword ptr [rdi], rcx
        (
            b"\x48\x87\x0f",
            &[],
            &[
                Reg(Rcx, 0xfedcba9876543210),
                Word(0x403900, 0x8000000180000080),
            ],
        ),
        // cmpxchg byte ptr [rdi], cl
        (
            b"\x0f\xb0\x0f",
            &[Reg(Rax, 0x110)],
            &[Flags(2), Word(0x403900, 0xfedcba9876543280)],
        ),
        // cmpxchg byte ptr [rdi], cl
        (
            b"\x0f\xb0\x0f",
            &[],
            &[Flags(8), Reg(Rax, 0x1122334455667710)],
        ),
        // cmpxchg qword ptr [rdi], rcx
        (
            b"\x48\x0f\xb1\x0f",
            &[Reg(Rax, 0xfedcba9876543210)],
            &[Flags(2), Word(0x403900, 0x8000000180000080)],
        ),
        // lock cmpxchg qword ptr [rdi], rcx
        (
            b"\xf0\x48\x0f\xb1\x0f",
            &[],
            &[Flags(1), Reg(Rax, 0xfedcba9876543210)],
        ),
        // xadd byte ptr [rdi], cl
        (
            b"\x0f\xc0\x0f",
            &[],
            &[
                Flags(4),
                Reg(Rcx, 0x8000000180000010),
                Word(0x403900, 0xfedcba9876543290),
            ],
        ),
        // xadd dword ptr [rdi], ecx
        (
            b"\x0f\xc1\x0f",
            &[],
            &[
                Flags(4),
                Reg(Rcx, 0x76543210),
                Word(0x403900, 0xfedcba98f6543290),
            ],
        ),
    ]
}

/// Arithmetic and logic.
pub fn arithmetic() -> &'static [Single] {
    &[
        // add al, cl
        (b"\x00\xc8", &[], &[Flags(9), Reg(Rax, 0x1122334455667708)]),
        // add eax, ecx
        (b"\x01\xc8", &[], &[Flags(4), Reg(Rax, 0xd5667808)]),
        // add byte ptr [rdi], cl
        (
            b"\x00\x0f",
            &[],
            &[Flags(4), Word(0x403900, 0xfedcba9876543290)],
        ),
        // add dword ptr [rdi], ecx
        (
            b"\x01\x0f",
            &[],
            &[Flags(4), Word(0x403900, 0xfedcba98f6543290)],
        ),
        // add qword ptr [rdi], rcx
        (
            b"\x48\x01\x0f",
            &[],
            &[Flags(9), Word(0x403900, 0x7edcba99f6543290)],
        ),
        // add al, byte ptr [rdi]
        (b"\x02\x07", &[], &[Flags(4), Reg(Rax, 0x1122334455667798)]),
        // add eax, dword ptr [rdi]
        (b"\x03\x07", &[], &[Flags(12), Reg(Rax, 0xcbbaa998)]),
        // add rax, qword ptr [rdi]
        (
            b"\x48\x03\x07",
            &[],
            &[Flags(1), Reg(Rax, 0xffeeddccbbaa998)],
        ),
        // adc rax, qword ptr [rdi]
        (b"\x48\x13\x07", &[Flags(1)], &[Reg(Rax, 0xffeeddccbbaa999)]),
        // adc byte ptr [rdi], 0xef
        (
            b"\x80\x17\xef",
            &[Flags(1)],
            &[Flags(3), Word(0x403900, 0xfedcba9876543200)],
        ),
        // sbb qword ptr [rdi], rcx
        (
            b"\x48\x19\x0f",
            &[Flags(1)],
            &[Flags(0), Word(0x403900, 0x7edcba96f654318f)],
        ),
        // sbb dword ptr [rdi], 0x76543210
        (
            b"\x81\x1f\x10\x32\x54\x76",
            &[Flags(1)],
            &[Flags(5), Word(0x403900, 0xfedcba98ffffffff)],
        ),
        // sub byte ptr [rdi], 0x11
        (
            b"\x80\x2f\x11",
            &[],
            &[Flags(5), Word(0x403900, 0xfedcba98765432ff)],
        ),
        // sub dword ptr [rdi], -1
        (
            b"\x83\x2f\xff",
            &[],
            &[Flags(1), Word(0x403900, 0xfedcba9876543211)],
        ),
        // sub qword ptr [rdi], -1
        (
            b"\x48\x83\x2f\xff",
            &[],
            &[Flags(5), Word(0x403900, 0xfedcba9876543211)],
        ),
        // or dword ptr [rdi], ecx
        (
            b"\x09\x0f",
            &[Flags(9)],
            &[Flags(4), Word(0x403900, 0xfedcba98f6543290)],
        ),
        // xor eax, eax
        (b"\x31\xc0", &[Flags(15)], &[Flags(2), Reg(Rax, 0)]),
        // and qword ptr [rdi], rcx
        (
            b"\x48\x21\x0f",
            &[Flags(9)],
            &[Flags(4), Word(0x403900, 0x8000000000000000)],
        ),
        // and al, 0x80
        (
            b"\x24\x80",
            &[Flags(9)],
            &[Flags(4), Reg(Rax, 0x1122334455667780)],
        ),
        // cmp qword ptr [rsi], rcx
        (b"\x48\x39\x0e", &[], &[Flags(1)]),
        // cmp dword ptr [rsi], 1
        (b"\x83\x3e\x01", &[], &[Flags(5)]),
        // cmp rax, qword ptr [rdi]
        (b"\x48\x3b\x07", &[], &[Flags(1)]),
        // cmp eax, 0x55667788
        (b"\x3d\x88\x77\x66\x55", &[], &[Flags(2)]),
        // test dword ptr [rdi], ecx
        (b"\x85\x0f", &[Flags(9)], &[Flags(2)]),
        // test byte ptr [rsi], 1
        (b"\xf6\x06\x01", &[], &[Flags(2)]),
        // test qword ptr [rdi], -1
        (b"\x48\xf7\x07\xff\xff\xff\xff", &[], &[Flags(4)]),
        // inc eax
        (
            b"\xff\xc0",
            &[Reg(Rax, 0xffffffff7fffffff)],
            &[Flags(12), Reg(Rax, 0x80000000)],
        ),
        // dec rax
        (
            b"\x48\xff\xc8",
            &[Reg(Rax, 0)],
            &[Flags(4), Reg(Rax, u64::MAX)],
        ),
        // dec dword ptr [rdi]
        (
            b"\xff\x0f",
            &[Word(0x403900, 0x180000000)],
            &[Flags(8), Word(0x403900, 0x17fffffff)],
        ),
        // not byte ptr [rdi]
        (b"\xf6\x17", &[], &[Word(0x403900, 0xfedcba98765432ef)]),
        // neg qword ptr [rdi]
        (
            b"\x48\xf7\x1f",
            &[Word(0x403900, 0x8000000000000000)],
            &[Flags(13)],
        ),
    ]
}

/// Shifts, products and quotients.
pub fn shifts() -> &'static [Single] {
    &[
        // shl byte ptr [rdi], 4
        (
            b"\xc0\x27\x04",
            &[],
            &[Flags(3), Word(0x403900, 0xfedcba9876543200)],
        ),
        // sar rax, 63
        (
            b"\x48\xc1\xf8\x3f",
            &[Reg(Rax, 0xc000000000000000)],
            &[Flags(5), Reg(Rax, u64::MAX)],
        ),
        // shr dword ptr [rdi], 1
        (b"\xd1\x2f", &[], &[Word(0x403900, 0xfedcba983b2a1908)]),
        // shr eax, cl
        (b"\xd3\xe8", &[Reg(Rcx, 0x123)], &[Reg(Rax, 0xaaccef1)]),
        // rol rax, 8
        (
            b"\x48\xc1\xc0\x08",
            &[Flags(6)],
            &[Flags(7), Reg(Rax, 0x2233445566778811)],
        ),
        // ror byte ptr [rdi], 1
        (b"\xd0\x0f", &[], &[Word(0x403900, 0xfedcba9876543208)]),
        // rol dword ptr [rdi], cl
        (
            b"\xd3\x07",
            &[Reg(Rcx, 0x24)],
            &[Flags(1), Word(0x403900, 0xfedcba9865432107)],
        ),
        // sar byte ptr [rdi + 7], cl
        (
            b"\xd2\x7f\x07",
            &[Reg(Rcx, 9)],
            &[Flags(5), Word(0x403900, 0xffdcba9876543210)],
        ),
        // imul rax, qword ptr [rdi]
        (
            b"\x48\x0f\xaf\x07",
            &[],
            &[Flags(9), Reg(Rax, 0xe27f966b42600880)],
        ),
        // imul eax, ecx
        (b"\x0f\xaf\xc1", &[], &[Flags(9), Reg(Rax, 0xb33bc400)]),
        // imul rax, qword ptr [rdi], -2
        (b"\x48\x6b\x07\xfe", &[], &[Reg(Rax, 0x2468acf13579be0)]),
        // mul dword ptr [rdi]
        (
            b"\xf7\x27",
            &[],
            &[Flags(9), Reg(Rax, 0x42600880), Reg(Rdx, 0x2779516b)],
        ),
        // imul qword ptr [rdi]
        (
            b"\x48\xf7\x2f",
            &[],
            &[
                Flags(9),
                Reg(Rax, 0xe27f966b42600880),
                Reg(Rdx, 0xffec817a938813f2),
            ],
        ),
        // mul ecx
        (
            b"\xf7\xe1",
            &[],
            &[Flags(9), Reg(Rax, 0xb33bc400), Reg(Rdx, 0x2ab33bee)],
        ),
        // div dword ptr [rdi]
        (
            b"\xf7\x37",
            &[Reg(Rdx, 5)],
            &[Reg(Rax, 0xb), Reg(Rdx, 0x3fc850d8)],
        ),
        // idiv qword ptr [rdi]
        (
            b"\x48\xf7\x3f",
            &[Reg(Rdx, 0)],
            &[Reg(Rax, 0xfffffffffffffff1), Reg(Rdx, 0x11223344556678)],
        ),
        // idiv ecx
        (
            b"\xf7\xf9",
            &[Reg(Rax, 0xfffffff9), Reg(Rdx, 0xffffffff), Reg(Rcx, 2)],
            &[Reg(Rax, 0xfffffffd)],
        ),
    ]
}

/// The data stack.
pub fn stack() -> &'static [Single] {
    &[
        // push r15
        (
            b"\x41\x57",
            &[Reg(R15, 7)],
            &[Reg(Rsp, 0x4037f8), Word(0x4037f8, 7)],
        ),
        // push qword ptr [rdi]
        (
            b"\xff\x37",
            &[],
            &[Reg(Rsp, 0x4037f8), Word(0x4037f8, 0xfedcba9876543210)],
        ),
        // push 0x12345678
        (
            b"\x68\x78\x56\x34\x12",
            &[],
            &[Reg(Rsp, 0x4037f8), Word(0x4037f8, 0x12345678)],
        ),
        // pop r15
        (b"\x41\x5f", &[], &[Reg(Rsp, 0x403808), Reg(R15, 0x401234)]),
        // pop rbp
        (b"\x5d", &[], &[Reg(Rsp, 0x403808), Reg(Rbp, 0x401234)]),
        // leave
        (
            b"\xc9",
            &[Reg(Rbp, 0x403ff8)],
            &[Reg(Rsp, 0x404000), Reg(Rbp, 0)],
        ),
    ]
}

/// Control transfers.
pub fn control() -> &'static [Single] {
    &[
        // call [rdi]
        (
            b"\xff\x17",
            &[Word(0x403900, 0x401800)],
            &[Rip(0x401800), Reg(Rsp, 0x4037f8), Word(0x4037f8, 0x401002)],
        ),
        // call rsp
        (
            b"\xff\xd4",
            &[Reg(Rsp, 0x403800)],
            &[Rip(0x403800), Reg(Rsp, 0x4037f8), Word(0x4037f8, 0x401002)],
        ),
        // jmp [rdi]
        (b"\xff\x27", &[Word(0x403900, 0x401800)], &[Rip(0x401800)]),
        // jmp [rsp]
        (b"\xff\x24\x24", &[], &[Rip(0x401234)]),
        // ret
        (
            b"\xc3",
            &[Reg(Rsp, 0x405900)],
            &[Rip(0), Reg(Rsp, 0x405908)],
        ),
        // jl .+0x12
        (b"\x7c\x10", &[Flags(4)], &[Rip(0x401012)]),
        // jge .+0x106
        (b"\x0f\x8d\x00\x01\x00\x00", &[Flags(4)], &[]),
        // ja .+0x106
        (b"\x0f\x87\x00\x01\x00\x00", &[], &[Rip(0x401106)]),
        (b"\xe9\xfb\xff\xff\xff", &[], &[Rip(0x401000)]),
    ]
}
