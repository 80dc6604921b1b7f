//! What the other tables leave of each instruction at each width with a register and with memory, where no feature is on, as GNU as and an
//! x86-64 processor have it (`tools/compare_steps.py`).
use crate::tests::Part::{Flags, Reg, Word};
use crate::tests::Single;
use cet_isa::Reg::{R15, Rax, Rcx, Rdi, Rsp};

/// Data transfers.
pub const MOVES: &[Single] = &[
    // pause
    (b"\xf3\x90", &[], &[]),
    // xchg ax, ax
    (b"\x66\x90", &[], &[]),
    // nop dword ptr [rbx]
    (b"\x0f\x1f\x03", &[], &[]),
    // nop eax
    (b"\x0f\x1f\xc0", &[], &[]),
    (b"\x66\x2e\x0f\x1f\x84\x00\x00\x00\x00\x00", &[], &[]),
    // {load} mov al, cl
    (b"\x8a\xc1", &[], &[Reg(Rax, 0x1122334455667780)]),
    // {load} mov eax, ecx
    (b"\x8b\xc1", &[], &[Reg(Rax, 0x80000080)]),
    // {load} mov rax, rcx
    (b"\x48\x8b\xc1", &[], &[Reg(Rax, 0x8000000180000080)]),
    (b"\xc6\xc0\xfe", &[], &[Reg(Rax, 0x11223344556677fe)]),
    (b"\xc7\xc0\xfe\xff\xff\xff", &[], &[Reg(Rax, 0xfffffffe)]),
    // mov rax, 0x7fffffff
    (
        b"\x48\xc7\xc0\xff\xff\xff\x7f",
        &[],
        &[Reg(Rax, 0x7fffffff)],
    ),
    // movzx rax, byte ptr [rdi + 7]
    (b"\x48\x0f\xb6\x47\x07", &[], &[Reg(Rax, 0xfe)]),
    // movsx rax, byte ptr [rdi + 7]
    (
        b"\x48\x0f\xbe\x47\x07",
        &[],
        &[Reg(Rax, 0xfffffffffffffffe)],
    ),
    // movzx r8d, sil
    (b"\x44\x0f\xb6\xc6", &[], &[]),
    // lea rax, [0x403900]
    (
        b"\x48\x8d\x04\x25\x00\x39\x40\x00",
        &[],
        &[Reg(Rax, 0x403900)],
    ),
    // lea eax, [rip - 7]
    (b"\x8d\x05\xf9\xff\xff\xff", &[], &[Reg(Rax, 0x400fff)]),
    // lea rsp, [rsp + 8]
    (b"\x48\x8d\x64\x24\x08", &[], &[Reg(Rsp, 0x403808)]),
    // lock cmpxchg byte ptr [rdi], cl
    (
        b"\xf0\x0f\xb0\x0f",
        &[Reg(Rax, 0x1122334455667710)],
        &[Flags(2), Word(0x403900, 0xfedcba9876543280)],
    ),
    // lock cmpxchg byte ptr [rdi + 8], cl
    (
        b"\xf0\x0f\xb0\x4f\x08",
        &[],
        &[Flags(4), Reg(Rax, 0x1122334455667700)],
    ),
    // lock xadd byte ptr [rdi], cl
    (
        b"\xf0\x0f\xc0\x0f",
        &[],
        &[
            Flags(4),
            Reg(Rcx, 0x8000000180000010),
            Word(0x403900, 0xfedcba9876543290),
        ],
    ),
    // lock cmpxchg dword ptr [rdi], ecx
    (
        b"\xf0\x0f\xb1\x0f",
        &[Reg(Rax, 0x1122334476543210)],
        &[Flags(2), Word(0x403900, 0xfedcba9880000080)],
    ),
    // lock cmpxchg dword ptr [rdi + 8], ecx
    (b"\xf0\x0f\xb1\x4f\x08", &[], &[Reg(Rax, 0x0)]),
    // lock xadd dword ptr [rdi], ecx
    (
        b"\xf0\x0f\xc1\x0f",
        &[],
        &[
            Flags(4),
            Reg(Rcx, 0x76543210),
            Word(0x403900, 0xfedcba98f6543290),
        ],
    ),
    // lock cmpxchg qword ptr [rdi + 8], rcx
    (b"\xf0\x48\x0f\xb1\x4f\x08", &[], &[Reg(Rax, 0x0)]),
    // xadd qword ptr [rdi], rcx
    (
        b"\x48\x0f\xc1\x0f",
        &[],
        &[
            Flags(9),
            Reg(Rcx, 0xfedcba9876543210),
            Word(0x403900, 0x7edcba99f6543290),
        ],
    ),
    // xadd qword ptr [rdi], rdi
    (
        b"\x48\x0f\xc1\x3f",
        &[],
        &[
            Flags(4),
            Reg(Rdi, 0xfedcba9876543210),
            Word(0x403900, 0xfedcba9876946b10),
        ],
    ),
    // cmpxchg dword ptr [rdi], eax
    (b"\x0f\xb1\x07", &[], &[Flags(5), Reg(Rax, 0x76543210)]),
    // xchg ecx, ecx
    (b"\x87\xc9", &[], &[Reg(Rcx, 0x80000080)]),
    // mov sil, dil
    (b"\x40\x88\xfe", &[], &[]),
    // mov r15, qword ptr [rdi]
    (b"\x4c\x8b\x3f", &[], &[Reg(R15, 0xfedcba9876543210)]),
    // xchg rdi, qword ptr [rdi]
    (
        b"\x48\x87\x3f",
        &[],
        &[Reg(Rdi, 0xfedcba9876543210), Word(0x403900, 0x403900)],
    ),
];

/// Arithmetic and logic of two operands.
pub const ARITHMETIC: &[Single] = &[
    // add qword ptr [rdi], -0x11223344
    (
        b"\x48\x81\x07\xbc\xcc\xdd\xee",
        &[],
        &[Flags(5), Word(0x403900, 0xfedcba986531fecc)],
    ),
    // add al, -0x80
    (b"\x04\x80", &[], &[Flags(9), Reg(Rax, 0x1122334455667708)]),
    // add rcx, -1
    (
        b"\x48\x83\xc1\xff",
        &[],
        &[Flags(5), Reg(Rcx, 0x800000018000007f)],
    ),
    // or byte ptr [rdi], cl
    (
        b"\x08\x0f",
        &[Flags(9)],
        &[Flags(4), Word(0x403900, 0xfedcba9876543290)],
    ),
    // or qword ptr [rdi], rcx
    (
        b"\x48\x09\x0f",
        &[Flags(9)],
        &[Flags(4), Word(0x403900, 0xfedcba99f6543290)],
    ),
    // or eax, ecx
    (b"\x09\xc8", &[Flags(9)], &[Flags(4), Reg(Rax, 0xd5667788)]),
    // or rax, qword ptr [rdi]
    (
        b"\x48\x0b\x07",
        &[Flags(9)],
        &[Flags(4), Reg(Rax, 0xfffebbdc77767798)],
    ),
    // or byte ptr [rdi], -0x80
    (
        b"\x80\x0f\x80",
        &[Flags(9)],
        &[Flags(4), Word(0x403900, 0xfedcba9876543290)],
    ),
    // or eax, 0x7fffffff
    (
        b"\x0d\xff\xff\xff\x7f",
        &[Flags(9)],
        &[Flags(0), Reg(Rax, 0x7fffffff)],
    ),
    // or cl, 0x11
    (
        b"\x80\xc9\x11",
        &[Flags(9)],
        &[Flags(4), Reg(Rcx, 0x8000000180000091)],
    ),
    // adc byte ptr [rdi], cl
    (
        b"\x10\x0f",
        &[Flags(1)],
        &[Flags(4), Word(0x403900, 0xfedcba9876543291)],
    ),
    // adc dword ptr [rdi], ecx
    (
        b"\x11\x0f",
        &[Flags(1)],
        &[Flags(4), Word(0x403900, 0xfedcba98f6543291)],
    ),
    // adc qword ptr [rdi], rcx
    (
        b"\x48\x11\x0f",
        &[Flags(1)],
        &[Flags(9), Word(0x403900, 0x7edcba99f6543291)],
    ),
    // adc rax, rcx
    (
        b"\x48\x11\xc8",
        &[Flags(1)],
        &[Flags(4), Reg(Rax, 0x91223345d5667809)],
    ),
    // adc al, byte ptr [rdi]
    (
        b"\x12\x07",
        &[Flags(1)],
        &[Flags(4), Reg(Rax, 0x1122334455667799)],
    ),
    // adc dword ptr [rdi], 0x7fffffff
    (
        b"\x81\x17\xff\xff\xff\x7f",
        &[Flags(1)],
        &[Flags(12), Word(0x403900, 0xfedcba98f6543210)],
    ),
    // adc rax, -0x11223344
    (
        b"\x48\x15\xbc\xcc\xdd\xee",
        &[Flags(1)],
        &[Reg(Rax, 0x1122334444444445)],
    ),
    // adc ecx, -0x80
    (
        b"\x83\xd1\x80",
        &[Flags(1)],
        &[Flags(5), Reg(Rcx, 0x80000001)],
    ),
    // sbb byte ptr [rdi], cl
    (
        b"\x18\x0f",
        &[Flags(1)],
        &[Flags(13), Word(0x403900, 0xfedcba987654328f)],
    ),
    // sbb dword ptr [rdi], ecx
    (
        b"\x19\x0f",
        &[Flags(1)],
        &[Flags(13), Word(0x403900, 0xfedcba98f654318f)],
    ),
    // sbb al, cl
    (
        b"\x18\xc8",
        &[Flags(1)],
        &[Flags(0), Reg(Rax, 0x1122334455667707)],
    ),
    // sbb qword ptr [rdi], -0x11223344
    (
        b"\x48\x81\x1f\xbc\xcc\xdd\xee",
        &[Flags(1)],
        &[Flags(5), Word(0x403900, 0xfedcba9887766553)],
    ),
    // sbb al, -0x80
    (
        b"\x1c\x80",
        &[Flags(1)],
        &[Flags(0), Reg(Rax, 0x1122334455667707)],
    ),
    // sbb rcx, -1
    (b"\x48\x83\xd9\xff", &[Flags(1)], &[Flags(5)]),
    // and byte ptr [rdi], cl
    (
        b"\x20\x0f",
        &[Flags(9)],
        &[Flags(2), Word(0x403900, 0xfedcba9876543200)],
    ),
    // and dword ptr [rdi], ecx
    (
        b"\x21\x0f",
        &[Flags(9)],
        &[Flags(2), Word(0x403900, 0xfedcba9800000000)],
    ),
    // and eax, ecx
    (b"\x21\xc8", &[Flags(9)], &[Flags(0), Reg(Rax, 0x80)]),
    // and rax, qword ptr [rdi]
    (
        b"\x48\x23\x07",
        &[Flags(9)],
        &[Flags(0), Reg(Rax, 0x1000320054443200)],
    ),
    // and byte ptr [rdi], -0x80
    (
        b"\x80\x27\x80",
        &[Flags(9)],
        &[Flags(2), Word(0x403900, 0xfedcba9876543200)],
    ),
    // and eax, 0x7fffffff
    (
        b"\x25\xff\xff\xff\x7f",
        &[Flags(9)],
        &[Flags(0), Reg(Rax, 0x55667788)],
    ),
    // and cl, 0x11
    (
        b"\x80\xe1\x11",
        &[Flags(9)],
        &[Flags(2), Reg(Rcx, 0x8000000180000000)],
    ),
    // sub byte ptr [rdi], cl
    (
        b"\x28\x0f",
        &[],
        &[Flags(13), Word(0x403900, 0xfedcba9876543290)],
    ),
    // sub dword ptr [rdi], ecx
    (
        b"\x29\x0f",
        &[],
        &[Flags(13), Word(0x403900, 0xfedcba98f6543190)],
    ),
    // sub qword ptr [rdi], rcx
    (b"\x48\x29\x0f", &[], &[Word(0x403900, 0x7edcba96f6543190)]),
    // sub rax, rcx
    (
        b"\x48\x29\xc8",
        &[],
        &[Flags(13), Reg(Rax, 0x91223342d5667708)],
    ),
    // sub al, byte ptr [rdi]
    (b"\x2a\x07", &[], &[Flags(8), Reg(Rax, 0x1122334455667778)]),
    // sub dword ptr [rdi], 0x7fffffff
    (
        b"\x81\x2f\xff\xff\xff\x7f",
        &[],
        &[Flags(5), Word(0x403900, 0xfedcba98f6543211)],
    ),
    // sub rax, -0x11223344
    (
        b"\x48\x2d\xbc\xcc\xdd\xee",
        &[],
        &[Flags(1), Reg(Rax, 0x112233446688aacc)],
    ),
    // sub ecx, -0x80
    (b"\x83\xe9\x80", &[], &[Flags(5), Reg(Rcx, 0x80000100)]),
    // xor byte ptr [rdi], cl
    (
        b"\x30\x0f",
        &[Flags(9)],
        &[Flags(4), Word(0x403900, 0xfedcba9876543290)],
    ),
    // xor dword ptr [rdi], ecx
    (
        b"\x31\x0f",
        &[Flags(9)],
        &[Flags(4), Word(0x403900, 0xfedcba98f6543290)],
    ),
    // xor qword ptr [rdi], rcx
    (
        b"\x48\x31\x0f",
        &[Flags(9)],
        &[Flags(0), Word(0x403900, 0x7edcba99f6543290)],
    ),
    // xor al, cl
    (
        b"\x30\xc8",
        &[Flags(9)],
        &[Flags(0), Reg(Rax, 0x1122334455667708)],
    ),
    // xor eax, dword ptr [rdi]
    (b"\x33\x07", &[Flags(9)], &[Flags(0), Reg(Rax, 0x23324598)]),
    // xor qword ptr [rdi], -0x11223344
    (
        b"\x48\x81\x37\xbc\xcc\xdd\xee",
        &[Flags(9)],
        &[Flags(0), Word(0x403900, 0x12345679889feac)],
    ),
    // xor al, -0x80
    (
        b"\x34\x80",
        &[Flags(9)],
        &[Flags(0), Reg(Rax, 0x1122334455667708)],
    ),
    // xor rcx, -1
    (
        b"\x48\x83\xf1\xff",
        &[Flags(9)],
        &[Flags(0), Reg(Rcx, 0x7ffffffe7fffff7f)],
    ),
    // cmp byte ptr [rdi], cl
    (b"\x38\x0f", &[], &[Flags(13)]),
    // cmp dword ptr [rdi], ecx
    (b"\x39\x0f", &[], &[Flags(13)]),
    // cmp qword ptr [rdi], rcx
    (b"\x48\x39\x0f", &[], &[]),
    // cmp eax, ecx
    (b"\x39\xc8", &[], &[Flags(13)]),
    // cmp byte ptr [rdi], -0x80
    (b"\x80\x3f\x80", &[], &[Flags(13)]),
    // cmp eax, 0x7fffffff
    (b"\x3d\xff\xff\xff\x7f", &[], &[Flags(5)]),
    // cmp cl, 0x11
    (b"\x80\xf9\x11", &[], &[Flags(8)]),
    // {load} sub al, cl
    (b"\x2a\xc1", &[], &[Reg(Rax, 0x1122334455667708)]),
    // {load} adc eax, ecx
    (b"\x13\xc1", &[Flags(1)], &[Flags(4), Reg(Rax, 0xd5667809)]),
    // {load} cmp rax, rcx
    (b"\x48\x3b\xc1", &[], &[Flags(13)]),
];

/// TEST, and arithmetic and logic of one operand.
pub const TESTS: &[Single] = &[
    // test al, cl
    (b"\x84\xc8", &[Flags(9)], &[Flags(4)]),
    // test byte ptr [rdi], cl
    (b"\x84\x0f", &[Flags(9)], &[Flags(2)]),
    // test cl, -0x80
    (b"\xf6\xc1\x80", &[Flags(9)], &[Flags(4)]),
    // test al, 1
    (b"\xa8\x01", &[Flags(9)], &[Flags(2)]),
    // test byte ptr [rdi], 0x10
    (b"\xf6\x07\x10", &[Flags(9)], &[Flags(0)]),
    // test eax, ecx
    (b"\x85\xc8", &[Flags(9)], &[Flags(0)]),
    // test ecx, -0x80
    (b"\xf7\xc1\x80\xff\xff\xff", &[Flags(9)], &[Flags(4)]),
    // test eax, 1
    (b"\xa9\x01\x00\x00\x00", &[Flags(9)], &[Flags(2)]),
    // test dword ptr [rdi], 0x10
    (b"\xf7\x07\x10\x00\x00\x00", &[Flags(9)], &[Flags(0)]),
    // test rax, rcx
    (b"\x48\x85\xc8", &[Flags(9)], &[Flags(0)]),
    // test qword ptr [rdi], rcx
    (b"\x48\x85\x0f", &[Flags(9)], &[Flags(4)]),
    // test rcx, -0x80
    (b"\x48\xf7\xc1\x80\xff\xff\xff", &[Flags(9)], &[Flags(4)]),
    // test rax, 1
    (b"\x48\xa9\x01\x00\x00\x00", &[Flags(9)], &[Flags(2)]),
    // test qword ptr [rdi], 0x10
    (b"\x48\xf7\x07\x10\x00\x00\x00", &[Flags(9)], &[Flags(0)]),
    // inc cl
    (
        b"\xfe\xc1",
        &[Flags(1)],
        &[Flags(5), Reg(Rcx, 0x8000000180000081)],
    ),
    // inc ecx
    (b"\xff\xc1", &[Flags(0)], &[Flags(4), Reg(Rcx, 0x80000081)]),
    // inc dword ptr [rdi]
    (
        b"\xff\x07",
        &[Flags(1)],
        &[Word(0x403900, 0xfedcba9876543211)],
    ),
    // inc rcx
    (
        b"\x48\xff\xc1",
        &[Flags(1)],
        &[Flags(5), Reg(Rcx, 0x8000000180000081)],
    ),
    // inc qword ptr [rdi]
    (
        b"\x48\xff\x07",
        &[Flags(0)],
        &[Flags(4), Word(0x403900, 0xfedcba9876543211)],
    ),
    // dec cl
    (
        b"\xfe\xc9",
        &[Flags(1)],
        &[Flags(9), Reg(Rcx, 0x800000018000007f)],
    ),
    // dec byte ptr [rdi]
    (
        b"\xfe\x0f",
        &[Flags(0)],
        &[Word(0x403900, 0xfedcba987654320f)],
    ),
    // dec ecx
    (b"\xff\xc9", &[Flags(0)], &[Flags(4), Reg(Rcx, 0x8000007f)]),
    // dec rcx
    (
        b"\x48\xff\xc9",
        &[Flags(1)],
        &[Flags(5), Reg(Rcx, 0x800000018000007f)],
    ),
    // dec qword ptr [rdi]
    (
        b"\x48\xff\x0f",
        &[Flags(0)],
        &[Flags(4), Word(0x403900, 0xfedcba987654320f)],
    ),
    // not cl
    (b"\xf6\xd1", &[Flags(1)], &[Reg(Rcx, 0x800000018000007f)]),
    // not ecx
    (b"\xf7\xd1", &[Flags(0)], &[Reg(Rcx, 0x7fffff7f)]),
    // not dword ptr [rdi]
    (
        b"\xf7\x17",
        &[Flags(1)],
        &[Word(0x403900, 0xfedcba9889abcdef)],
    ),
    // not rcx
    (
        b"\x48\xf7\xd1",
        &[Flags(1)],
        &[Reg(Rcx, 0x7ffffffe7fffff7f)],
    ),
    // not qword ptr [rdi]
    (
        b"\x48\xf7\x17",
        &[Flags(0)],
        &[Word(0x403900, 0x123456789abcdef)],
    ),
    // neg cl
    (b"\xf6\xd9", &[Flags(1)], &[Flags(13)]),
    // neg byte ptr [rdi]
    (
        b"\xf6\x1f",
        &[Flags(0)],
        &[Flags(5), Word(0x403900, 0xfedcba98765432f0)],
    ),
    // neg ecx
    (b"\xf7\xd9", &[Flags(0)], &[Flags(1), Reg(Rcx, 0x7fffff80)]),
    // neg dword ptr [rdi]
    (
        b"\xf7\x1f",
        &[Flags(1)],
        &[Flags(5), Word(0x403900, 0xfedcba9889abcdf0)],
    ),
    // neg rcx
    (
        b"\x48\xf7\xd9",
        &[Flags(1)],
        &[Reg(Rcx, 0x7ffffffe7fffff80)],
    ),
];
