//! Shifts, products, quotients and conditions, where no feature is on, as GNU as and an x86-64 processor have them
//! (`tools/compare_steps.py`); flags that the SDM leaves undefined are clear.
use crate::tests::Part::{Flags, Reg, Rip, Word};
use crate::tests::Single;
use cet_isa::Reg::{Rax, Rcx, Rdx};

/// Shifts and rotates.
pub const SHIFTS: &[Single] = &[
    // rol byte ptr [rdi], 3
    (
        b"\xc0\x07\x03",
        &[Flags(3)],
        &[Flags(2), Word(0x403900, 0xfedcba9876543280)],
    ),
    // rol al, cl
    (
        b"\xd2\xc0",
        &[Reg(Rcx, 0x21), Flags(6)],
        &[Flags(15), Reg(Rax, 0x1122334455667711)],
    ),
    // rol eax, 1
    (b"\xd1\xc0", &[Flags(3)], &[Flags(10), Reg(Rax, 0xaaccef10)]),
    // rol qword ptr [rdi], 9
    (
        b"\x48\xc1\x07\x09",
        &[Flags(3)],
        &[Word(0x403900, 0xb97530eca86421fd)],
    ),
    // rol rax, cl
    (
        b"\x48\xd3\xc0",
        &[Reg(Rcx, 0x43), Flags(6)],
        &[Reg(Rax, 0x89119a22ab33bc40)],
    ),
    // ror al, 1
    (
        b"\xd0\xc8",
        &[Flags(3)],
        &[Flags(10), Reg(Rax, 0x1122334455667744)],
    ),
    // ror byte ptr [rdi], cl
    (
        b"\xd2\x0f",
        &[Reg(Rcx, 0x43), Flags(6)],
        &[Word(0x403900, 0xfedcba9876543202)],
    ),
    // ror dword ptr [rdi], 9
    (
        b"\xc1\x0f\x09",
        &[Flags(3)],
        &[Flags(2), Word(0x403900, 0xfedcba98083b2a19)],
    ),
    // ror eax, cl
    (
        b"\xd3\xc8",
        &[Reg(Rcx, 0x21), Flags(6)],
        &[Reg(Rax, 0x2ab33bc4)],
    ),
    // ror rax, 3
    (
        b"\x48\xc1\xc8\x03",
        &[Flags(3)],
        &[Flags(2), Reg(Rax, 0x22446688aaccef1)],
    ),
    // ror qword ptr [rdi], cl
    (
        b"\x48\xd3\x0f",
        &[Reg(Rcx, 0x5), Flags(6)],
        &[Flags(7), Word(0x403900, 0x87f6e5d4c3b2a190)],
    ),
    // shl byte ptr [rdi], 9
    (
        b"\xc0\x27\x09",
        &[Flags(3)],
        &[Flags(2), Word(0x403900, 0xfedcba9876543200)],
    ),
    // shl al, cl
    (
        b"\xd2\xe0",
        &[Reg(Rcx, 0x5), Flags(6)],
        &[Flags(3), Reg(Rax, 0x1122334455667700)],
    ),
    // shl eax, 3
    (
        b"\xc1\xe0\x03",
        &[Flags(3)],
        &[Flags(4), Reg(Rax, 0xab33bc40)],
    ),
    // shl dword ptr [rdi], cl
    (
        b"\xd3\x27",
        &[Reg(Rcx, 0x43), Flags(6)],
        &[Flags(5), Word(0x403900, 0xfedcba98b2a19080)],
    ),
    // shl qword ptr [rdi], 1
    (
        b"\x48\xd1\x27",
        &[Flags(3)],
        &[Flags(5), Word(0x403900, 0xfdb97530eca86420)],
    ),
    // shl rax, cl
    (
        b"\x48\xd3\xe0",
        &[Reg(Rcx, 0x21), Flags(6)],
        &[Flags(4), Reg(Rax, 0xaaccef1000000000)],
    ),
    // shr al, 3
    (
        b"\xc0\xe8\x03",
        &[Flags(3)],
        &[Flags(0), Reg(Rax, 0x1122334455667711)],
    ),
    // shr byte ptr [rdi], cl
    (
        b"\xd2\x2f",
        &[Reg(Rcx, 0x21), Flags(6)],
        &[Flags(0), Word(0x403900, 0xfedcba9876543208)],
    ),
    // shr rax, 9
    (
        b"\x48\xc1\xe8\x09",
        &[Flags(3)],
        &[Flags(1), Reg(Rax, 0x89119a22ab33b)],
    ),
    // shr qword ptr [rdi], cl
    (
        b"\x48\xd3\x2f",
        &[Reg(Rcx, 0x43), Flags(6)],
        &[Flags(0), Word(0x403900, 0x1fdb97530eca8642)],
    ),
    // sar byte ptr [rdi], 1
    (
        b"\xd0\x3f",
        &[Flags(3)],
        &[Flags(0), Word(0x403900, 0xfedcba9876543208)],
    ),
    // sar al, cl
    (
        b"\xd2\xf8",
        &[Reg(Rcx, 0x43), Flags(6)],
        &[Flags(4), Reg(Rax, 0x11223344556677f1)],
    ),
    // sar eax, 9
    (
        b"\xc1\xf8\x09",
        &[Flags(3)],
        &[Flags(1), Reg(Rax, 0x2ab33b)],
    ),
    // sar dword ptr [rdi], cl
    (
        b"\xd3\x3f",
        &[Reg(Rcx, 0x21), Flags(6)],
        &[Flags(0), Word(0x403900, 0xfedcba983b2a1908)],
    ),
    // sar qword ptr [rdi], 3
    (
        b"\x48\xc1\x3f\x03",
        &[Flags(3)],
        &[Flags(4), Word(0x403900, 0xffdb97530eca8642)],
    ),
    // sar rax, cl
    (
        b"\x48\xd3\xf8",
        &[Reg(Rcx, 0x5), Flags(6)],
        &[Flags(0), Reg(Rax, 0x89119a22ab33bc)],
    ),
    // sar dword ptr [rdi], 32
    (b"\xc1\x3f\x20", &[Flags(15)], &[]),
    // shl rax, 64
    (b"\x48\xc1\xe0\x40", &[Flags(15)], &[]),
    // ror al, 0x20
    (b"\xc0\xc8\x20", &[Flags(15)], &[]),
    // rol byte ptr [rdi], 8
    (b"\xc0\x07\x08", &[Flags(14)], &[Flags(6)]),
    // shr al, 9
    (
        b"\xc0\xe8\x09",
        &[Flags(1)],
        &[Flags(2), Reg(Rax, 0x1122334455667700)],
    ),
];

/// Products, quotients and extensions of the accumulator.
pub const PRODUCTS: &[Single] = &[
    // imul eax, dword ptr [rdi]
    (b"\x0f\xaf\x07", &[], &[Flags(9), Reg(Rax, 0x42600880)]),
    // imul rax, rcx
    (
        b"\x48\x0f\xaf\xc1",
        &[],
        &[Flags(9), Reg(Rax, 0x11335576b33bc400)],
    ),
    // imul eax, dword ptr [rdi], 0x11223344
    (
        b"\x69\x07\x44\x33\x22\x11",
        &[],
        &[Flags(9), Reg(Rax, 0xea767c40)],
    ),
    // imul eax, dword ptr [rdi], 3
    (b"\x6b\x07\x03", &[], &[Flags(9), Reg(Rax, 0x62fc9630)]),
    // imul eax, ecx, -0x11223344
    (
        b"\x69\xc1\xbc\xcc\xdd\xee",
        &[],
        &[Flags(9), Reg(Rax, 0x6ee65e00)],
    ),
    // imul rax, rcx, 0x11223344
    (
        b"\x48\x69\xc1\x44\x33\x22\x11",
        &[],
        &[Flags(9), Reg(Rax, 0x19b34cee9119a200)],
    ),
    // imul rax, rcx, 2
    (b"\x48\x6b\xc1\x02", &[], &[Flags(9), Reg(Rax, 0x300000100)]),
    // imul rax, qword ptr [rdi], 0x11223344
    (
        b"\x48\x69\x07\x44\x33\x22\x11",
        &[],
        &[Flags(9), Reg(Rax, 0x93e93e93ea767c40)],
    ),
    // imul ecx
    (
        b"\xf7\xe9",
        &[],
        &[Flags(9), Reg(Rax, 0xb33bc400), Reg(Rdx, 0xd54cc466)],
    ),
    // imul dword ptr [rdi]
    (
        b"\xf7\x2f",
        &[],
        &[Flags(9), Reg(Rax, 0x42600880), Reg(Rdx, 0x2779516b)],
    ),
    // idiv dword ptr [rdi]
    (
        b"\xf7\x3f",
        &[Reg(Rdx, u64::MAX)],
        &[Reg(Rax, 0xffffffff), Reg(Rdx, 0xcbbaa998)],
    ),
    // mul qword ptr [rdi]
    (
        b"\x48\xf7\x27",
        &[],
        &[
            Flags(9),
            Reg(Rax, 0xe27f966b42600880),
            Reg(Rdx, 0x110eb4bee8ee8b7a),
        ],
    ),
    // imul rcx
    (
        b"\x48\xf7\xe9",
        &[],
        &[
            Flags(9),
            Reg(Rax, 0x11335576b33bc400),
            Reg(Rdx, 0xf76ee65def00112b),
        ],
    ),
    // div rcx
    (
        b"\x48\xf7\xf1",
        &[Reg(Rdx, 0x1), Reg(Rcx, 0x7edcba9876543210)],
        &[Reg(Rax, 0x2), Reg(Rdx, 0x1368be1368be1368)],
    ),
    // div qword ptr [rdi]
    (
        b"\x48\xf7\x37",
        &[Reg(Rdx, 0x1)],
        &[Reg(Rax, 0x1), Reg(Rdx, 0x124578abdf124578)],
    ),
    // idiv rcx
    (
        b"\x48\xf7\xf9",
        &[Reg(Rdx, u64::MAX), Reg(Rcx, 0x7edcba9876543210)],
        &[Reg(Rax, u64::MAX), Reg(Rdx, 0x8ffeeddccbbaa998)],
    ),
];

/// SETcc and Jcc with each condition where it holds and where it does not.
pub const CONDITIONS: &[Single] = &[
    // seto cl
    (
        b"\x0f\x90\xc1",
        &[Flags(8)],
        &[Reg(Rcx, 0x8000000180000001)],
    ),
    // seto byte ptr [rdi]
    (
        b"\x0f\x90\x07",
        &[Flags(7)],
        &[Word(0x403900, 0xfedcba9876543200)],
    ),
    // jo .+0x12
    (b"\x70\x10", &[Flags(8)], &[Rip(0x401012)]),
    // jo .+0x106
    (b"\x0f\x80\x00\x01\x00\x00", &[Flags(7)], &[]),
    // setno byte ptr [rdi]
    (
        b"\x0f\x91\x07",
        &[Flags(7)],
        &[Word(0x403900, 0xfedcba9876543201)],
    ),
    // setno cl
    (
        b"\x0f\x91\xc1",
        &[Flags(8)],
        &[Reg(Rcx, 0x8000000180000000)],
    ),
    // jno .+0x106
    (b"\x0f\x81\x00\x01\x00\x00", &[Flags(7)], &[Rip(0x401106)]),
    // jno .+0x12
    (b"\x71\x10", &[Flags(8)], &[]),
    // setb cl
    (
        b"\x0f\x92\xc1",
        &[Flags(1)],
        &[Reg(Rcx, 0x8000000180000001)],
    ),
    // setb byte ptr [rdi]
    (
        b"\x0f\x92\x07",
        &[Flags(14)],
        &[Word(0x403900, 0xfedcba9876543200)],
    ),
    // jb .+0x12
    (b"\x72\x10", &[Flags(1)], &[Rip(0x401012)]),
    // jb .+0x106
    (b"\x0f\x82\x00\x01\x00\x00", &[Flags(14)], &[]),
    // setae byte ptr [rdi]
    (
        b"\x0f\x93\x07",
        &[Flags(14)],
        &[Word(0x403900, 0xfedcba9876543201)],
    ),
    // setae cl
    (
        b"\x0f\x93\xc1",
        &[Flags(1)],
        &[Reg(Rcx, 0x8000000180000000)],
    ),
    // jae .+0x106
    (b"\x0f\x83\x00\x01\x00\x00", &[Flags(14)], &[Rip(0x401106)]),
    // jae .+0x12
    (b"\x73\x10", &[Flags(1)], &[]),
    // je .+0x106
    (b"\x0f\x84\x00\x01\x00\x00", &[Flags(13)], &[]),
    // setne cl
    (
        b"\x0f\x95\xc1",
        &[Flags(2)],
        &[Reg(Rcx, 0x8000000180000000)],
    ),
    // jne .+0x106
    (b"\x0f\x85\x00\x01\x00\x00", &[Flags(13)], &[Rip(0x401106)]),
    // jne .+0x12
    (b"\x75\x10", &[Flags(2)], &[]),
    // setbe cl
    (
        b"\x0f\x96\xc1",
        &[Flags(2)],
        &[Reg(Rcx, 0x8000000180000001)],
    ),
    // setbe byte ptr [rdi]
    (
        b"\x0f\x96\x07",
        &[Flags(12)],
        &[Word(0x403900, 0xfedcba9876543200)],
    ),
    // jbe .+0x12
    (b"\x76\x10", &[Flags(2)], &[Rip(0x401012)]),
    // jbe .+0x106
    (b"\x0f\x86\x00\x01\x00\x00", &[Flags(12)], &[]),
    // seta byte ptr [rdi]
    (
        b"\x0f\x97\x07",
        &[Flags(12)],
        &[Word(0x403900, 0xfedcba9876543201)],
    ),
    // seta cl
    (
        b"\x0f\x97\xc1",
        &[Flags(3)],
        &[Reg(Rcx, 0x8000000180000000)],
    ),
    // ja .+0x12
    (b"\x77\x10", &[Flags(3)], &[]),
    // sets cl
    (
        b"\x0f\x98\xc1",
        &[Flags(4)],
        &[Reg(Rcx, 0x8000000180000001)],
    ),
    // sets byte ptr [rdi]
    (
        b"\x0f\x98\x07",
        &[Flags(11)],
        &[Word(0x403900, 0xfedcba9876543200)],
    ),
    // js .+0x12
    (b"\x78\x10", &[Flags(4)], &[Rip(0x401012)]),
    // js .+0x106
    (b"\x0f\x88\x00\x01\x00\x00", &[Flags(11)], &[]),
    // setns byte ptr [rdi]
    (
        b"\x0f\x99\x07",
        &[Flags(11)],
        &[Word(0x403900, 0xfedcba9876543201)],
    ),
    // setns cl
    (
        b"\x0f\x99\xc1",
        &[Flags(4)],
        &[Reg(Rcx, 0x8000000180000000)],
    ),
    // jns .+0x106
    (b"\x0f\x89\x00\x01\x00\x00", &[Flags(11)], &[Rip(0x401106)]),
    // jns .+0x12
    (b"\x79\x10", &[Flags(4)], &[]),
    // setl cl
    (
        b"\x0f\x9c\xc1",
        &[Flags(8)],
        &[Reg(Rcx, 0x8000000180000001)],
    ),
    // setl byte ptr [rdi]
    (
        b"\x0f\x9c\x07",
        &[Flags(12)],
        &[Word(0x403900, 0xfedcba9876543200)],
    ),
    // jl .+0x106
    (b"\x0f\x8c\x00\x01\x00\x00", &[Flags(12)], &[]),
    // setge byte ptr [rdi]
    (
        b"\x0f\x9d\x07",
        &[Flags(12)],
        &[Word(0x403900, 0xfedcba9876543201)],
    ),
    // setge cl
    (
        b"\x0f\x9d\xc1",
        &[Flags(4)],
        &[Reg(Rcx, 0x8000000180000000)],
    ),
    // jge .+0x12
    (b"\x7d\x10", &[Flags(4)], &[]),
    // setle cl
    (
        b"\x0f\x9e\xc1",
        &[Flags(6)],
        &[Reg(Rcx, 0x8000000180000001)],
    ),
    // setle byte ptr [rdi]
    (
        b"\x0f\x9e\x07",
        &[Flags(13)],
        &[Word(0x403900, 0xfedcba9876543200)],
    ),
    // jle .+0x12
    (b"\x7e\x10", &[Flags(6)], &[Rip(0x401012)]),
    // jle .+0x106
    (b"\x0f\x8e\x00\x01\x00\x00", &[Flags(13)], &[]),
    // setg byte ptr [rdi]
    (
        b"\x0f\x9f\x07",
        &[Flags(12)],
        &[Word(0x403900, 0xfedcba9876543201)],
    ),
    // setg cl
    (
        b"\x0f\x9f\xc1",
        &[Flags(4)],
        &[Reg(Rcx, 0x8000000180000000)],
    ),
    // jg .+0x106
    (b"\x0f\x8f\x00\x01\x00\x00", &[Flags(12)], &[Rip(0x401106)]),
    // jg .+0x12
    (b"\x7f\x10", &[Flags(4)], &[]),
];

/// CMOVcc with each condition where it holds and where it does not.
pub const CONDITIONAL_MOVES: &[Single] = &[
    // cmovo eax, ecx
    (b"\x0f\x40\xc1", &[Flags(8)], &[Reg(Rax, 0x80000080)]),
    // cmovo rax, qword ptr [rdi]
    (b"\x48\x0f\x40\x07", &[Flags(7)], &[]),
    // cmovno rax, rcx
    (
        b"\x48\x0f\x41\xc1",
        &[Flags(7)],
        &[Reg(Rax, 0x8000000180000080)],
    ),
    // cmovno eax, dword ptr [rdi]
    (b"\x0f\x41\x07", &[Flags(8)], &[Reg(Rax, 0x55667788)]),
    // cmovb eax, dword ptr [rdi]
    (b"\x0f\x42\x07", &[Flags(1)], &[Reg(Rax, 0x76543210)]),
    // cmovb rax, rcx
    (b"\x48\x0f\x42\xc1", &[Flags(14)], &[]),
    // cmovae rax, qword ptr [rdi]
    (
        b"\x48\x0f\x43\x07",
        &[Flags(14)],
        &[Reg(Rax, 0xfedcba9876543210)],
    ),
    // cmovae eax, ecx
    (b"\x0f\x43\xc1", &[Flags(1)], &[Reg(Rax, 0x55667788)]),
    // cmove rax, qword ptr [rdi]
    (b"\x48\x0f\x44\x07", &[Flags(13)], &[]),
    // cmovne rax, rcx
    (
        b"\x48\x0f\x45\xc1",
        &[Flags(13)],
        &[Reg(Rax, 0x8000000180000080)],
    ),
    // cmovbe eax, dword ptr [rdi]
    (b"\x0f\x46\x07", &[Flags(2)], &[Reg(Rax, 0x76543210)]),
    // cmovbe rax, rcx
    (b"\x48\x0f\x46\xc1", &[Flags(12)], &[]),
    // cmova rax, qword ptr [rdi]
    (
        b"\x48\x0f\x47\x07",
        &[Flags(12)],
        &[Reg(Rax, 0xfedcba9876543210)],
    ),
    // cmova eax, ecx
    (b"\x0f\x47\xc1", &[Flags(3)], &[Reg(Rax, 0x55667788)]),
    // cmovs eax, ecx
    (b"\x0f\x48\xc1", &[Flags(4)], &[Reg(Rax, 0x80000080)]),
    // cmovs rax, qword ptr [rdi]
    (b"\x48\x0f\x48\x07", &[Flags(11)], &[]),
    // cmovns rax, rcx
    (
        b"\x48\x0f\x49\xc1",
        &[Flags(11)],
        &[Reg(Rax, 0x8000000180000080)],
    ),
    // cmovns eax, dword ptr [rdi]
    (b"\x0f\x49\x07", &[Flags(4)], &[Reg(Rax, 0x55667788)]),
    // cmovl eax, dword ptr [rdi]
    (b"\x0f\x4c\x07", &[Flags(8)], &[Reg(Rax, 0x76543210)]),
    // cmovl rax, rcx
    (b"\x48\x0f\x4c\xc1", &[Flags(12)], &[]),
    // cmovge rax, qword ptr [rdi]
    (
        b"\x48\x0f\x4d\x07",
        &[Flags(12)],
        &[Reg(Rax, 0xfedcba9876543210)],
    ),
    // cmovge eax, ecx
    (b"\x0f\x4d\xc1", &[Flags(4)], &[Reg(Rax, 0x55667788)]),
    // cmovle eax, ecx
    (b"\x0f\x4e\xc1", &[Flags(6)], &[Reg(Rax, 0x80000080)]),
    // cmovle rax, qword ptr [rdi]
    (b"\x48\x0f\x4e\x07", &[Flags(13)], &[]),
    // cmovg rax, rcx
    (
        b"\x48\x0f\x4f\xc1",
        &[Flags(12)],
        &[Reg(Rax, 0x8000000180000080)],
    ),
    // cmovg eax, dword ptr [rdi]
    (b"\x0f\x4f\x07", &[Flags(4)], &[Reg(Rax, 0x55667788)]),
];
