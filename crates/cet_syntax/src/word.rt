//! The words that statements begin with.
ghost use Rattle.std.specs.Prelude.{◌≡◌, ◌≤◌, length, IsSome};
ghost use Rattle.std.specs.Str.{bytes_eq};
ghost use Rattle.cet_syntax.specs.Word.{condition_of, alu_of, unary_of, shift_of, product_of, whole_word, plain_word, shadow_word, conditional_word, unsized_word as unsized_word_of, sized_word as sized_word_of, move_word, exact_sized_word, operation_word, width_of, word_of, with_lock as locked, with_notrack as untracked};

use cet_isa::{AluOp, Cond, Insn, MulDivOp, ShiftOp, UnOp, Width};

/// What an instruction statement begins with: its name and width, which say what operands it takes.
#[derive(Clone, Copy, Debug, PartialEq, Eq)]
pub enum Word {
    /// A whole instruction, without operands.
    Whole(Insn),
    Mov(Width),
    Load(Width),
    MovAbs(Width),
    MovZx(Width),
    MovSx(Width),
    MovSxd,
    Lea(Width),
    Alu(AluOp, Width),
    AluLoad(AluOp, Width),
    Test(Width),
    Unary(UnOp, Width),
    Shift(ShiftOp, Width),
    IMul(Width),
    MulDiv(MulDivOp, Width),
    Push,
    Pop,
    Call { notrack: bool },
    Jmp { notrack: bool },
    ShortJmp,
    Jcc(Cond),
    ShortJcc(Cond),
    SetCc(Cond),
    CMov(Cond, Width),
    Xchg(Width),
    CmpXchg { width: Width, lock: bool },
    XAdd { width: Width, lock: bool },
    RdSsp,
    IncSsp,
    RstorSsp,
    WrSs,
}

/// Whether these are the bytes of the word.
pub(crate) fn is(name: &[u8], word: &[u8]) -> bool
    ensures { result ≡ bytes_eq name.now word.now }
{
    name == word
}

fn condition(name: &[u8]) -> Option<Cond>
    ensures { result ≡ condition_of name.now }
{
    match name {
        b"o" => Some(Cond::O),
        b"no" => Some(Cond::No),
        b"b" => Some(Cond::B),
        b"ae" => Some(Cond::Ae),
        b"e" => Some(Cond::E),
        b"ne" => Some(Cond::Ne),
        b"be" => Some(Cond::Be),
        b"a" => Some(Cond::A),
        b"s" => Some(Cond::S),
        b"ns" => Some(Cond::Ns),
        b"l" => Some(Cond::L),
        b"ge" => Some(Cond::Ge),
        b"le" => Some(Cond::Le),
        b"g" => Some(Cond::G),
        _ => None,
    }
}

fn alu(name: &[u8]) -> Option<AluOp>
    ensures { result ≡ alu_of name.now }
{
    match name {
        b"add" => Some(AluOp::Add),
        b"or" => Some(AluOp::Or),
        b"adc" => Some(AluOp::Adc),
        b"sbb" => Some(AluOp::Sbb),
        b"and" => Some(AluOp::And),
        b"sub" => Some(AluOp::Sub),
        b"xor" => Some(AluOp::Xor),
        b"cmp" => Some(AluOp::Cmp),
        _ => None,
    }
}

fn unary(name: &[u8]) -> Option<UnOp>
    ensures { result ≡ unary_of name.now }
{
    match name {
        b"inc" => Some(UnOp::Inc),
        b"dec" => Some(UnOp::Dec),
        b"not" => Some(UnOp::Not),
        b"neg" => Some(UnOp::Neg),
        _ => None,
    }
}

fn shift(name: &[u8]) -> Option<ShiftOp>
    ensures { result ≡ shift_of name.now }
{
    match name {
        b"rol" => Some(ShiftOp::Rol),
        b"ror" => Some(ShiftOp::Ror),
        b"shl" => Some(ShiftOp::Shl),
        b"shr" => Some(ShiftOp::Shr),
        b"sar" => Some(ShiftOp::Sar),
        _ => None,
    }
}

fn product(name: &[u8]) -> Option<MulDivOp>
    ensures { result ≡ product_of name.now }
{
    match name {
        b"mul" => Some(MulDivOp::Mul),
        b"imul1" => Some(MulDivOp::IMul1),
        b"div" => Some(MulDivOp::Div),
        b"idiv" => Some(MulDivOp::IDiv),
        _ => None,
    }
}

// Whole instructions without a width.
fn whole_word_in(name: &[u8]) -> Option<Word>
    ensures { result ≡ whole_word name.now }
{
    if is(name, b"endbr64") {
        return Some(Word::Whole(Insn::EndBr64));
    }
    if is(name, b"nop") {
        return Some(Word::Whole(Insn::Nop));
    }
    if is(name, b"ret") {
        return Some(Word::Whole(Insn::Ret));
    }
    if is(name, b"leave") {
        return Some(Word::Whole(Insn::Leave));
    }
    if is(name, b"saveprevssp") {
        return Some(Word::Whole(Insn::SavePrevSsp));
    }
    if is(name, b"syscall") {
        return Some(Word::Whole(Insn::Syscall));
    }
    if is(name, b"ud2") {
        return Some(Word::Whole(Insn::Ud2));
    }
    if is(name, b"hlt") {
        return Some(Word::Whole(Insn::Hlt));
    }
    None
}

// Words of one spelling and no width, with operands.
fn plain_word_in(name: &[u8]) -> Option<Word>
    ensures { result ≡ plain_word name.now }
{
    if is(name, b"movsxd") {
        return Some(Word::MovSxd);
    }
    if is(name, b"push") {
        return Some(Word::Push);
    }
    if is(name, b"pop") {
        return Some(Word::Pop);
    }
    if is(name, b"call") {
        return Some(Word::Call { notrack: false });
    }
    if is(name, b"jmp") {
        return Some(Word::Jmp { notrack: false });
    }
    if is(name, b"jmp.s") {
        return Some(Word::ShortJmp);
    }
    None
}

// Words of the shadow stack.
fn shadow_word_in(name: &[u8]) -> Option<Word>
    ensures { result ≡ shadow_word name.now }
{
    if is(name, b"rdssp") {
        return Some(Word::RdSsp);
    }
    if is(name, b"incssp") {
        return Some(Word::IncSsp);
    }
    if is(name, b"rstorssp") {
        return Some(Word::RstorSsp);
    }
    if is(name, b"wrss") {
        return Some(Word::WrSs);
    }
    None
}

// `set`, and `j` with a long or a short branch, each with a condition.
fn conditional(name: &[u8]) -> Option<Word>
    ensures { result ≡ conditional_word name.now }
{
    if name.starts_with(b"set") {
        return condition(&name[3..]).map(Word::SetCc);
    }
    if !name.starts_with(b"j") {
        return None;
    }
    let rest = &name[1..];
    if rest.ends_with(b".s") {
        condition(&rest[..rest.len() - 2]).map(Word::ShortJcc)
    } else {
        condition(rest).map(Word::Jcc)
    }
}

// Moves behind which a width stands.
fn sized_move(stem: &[u8], width: Width) -> Option<Word>
    ensures { result ≡ move_word stem.now width }
{
    if is(stem, b"mov") {
        return Some(Word::Mov(width));
    }
    if is(stem, b"ld") {
        return Some(Word::Load(width));
    }
    if is(stem, b"movabs") {
        return Some(Word::MovAbs(width));
    }
    if is(stem, b"movzx") {
        return Some(Word::MovZx(width));
    }
    if is(stem, b"movsx") {
        return Some(Word::MovSx(width));
    }
    if is(stem, b"lea") {
        return Some(Word::Lea(width));
    }
    None
}

// Other words of one spelling behind which a width stands.
fn sized_word(stem: &[u8], width: Width) -> Option<Word>
    ensures { result ≡ exact_sized_word stem.now width }
{
    if is(stem, b"test") {
        return Some(Word::Test(width));
    }
    if is(stem, b"imul") {
        return Some(Word::IMul(width));
    }
    if is(stem, b"cdq") {
        return Some(Word::Whole(Insn::Cdq { width }));
    }
    if is(stem, b"cdqe") {
        return Some(Word::Whole(Insn::Cdqe { width }));
    }
    if is(stem, b"xchg") {
        return Some(Word::Xchg(width));
    }
    if is(stem, b"cmpxchg") {
        return Some(Word::CmpXchg { width, lock: false });
    }
    if is(stem, b"xadd") {
        return Some(Word::XAdd { width, lock: false });
    }
    None
}

// An operation, which loads its first operand where `_ld` stands behind it; a move with a condition.
fn operation(stem: &[u8], width: Width) -> Option<Word>
    ensures { result ≡ operation_word stem.now width }
{
    if stem.starts_with(b"cmov") {
        return condition(&stem[4..]).map(|cond| Word::CMov(cond, width));
    }
    if stem.ends_with(b"_ld") {
        return alu(&stem[..stem.len() - 3]).map(|op| Word::AluLoad(op, width));
    }
    if let Some(op) = alu(stem) {
        return Some(Word::Alu(op, width));
    }
    if let Some(op) = unary(stem) {
        return Some(Word::Unary(op, width));
    }
    if let Some(op) = shift(stem) {
        return Some(Word::Shift(op, width));
    }
    product(stem).map(|op| Word::MulDiv(op, width))
}

// The width at the end of a name.
fn width(name: &[u8]) -> Option<Width>
    ensures width { result ≡ width_of name.now }
    ensures room { IsSome result → 2 ≤ length name.now }
{
    if name.ends_with(b".1") {
        return Some(Width::B1);
    }
    if name.ends_with(b".4") {
        return Some(Width::B4);
    }
    if name.ends_with(b".8") {
        return Some(Width::B8);
    }
    None
}

#[tactic(auto, unfolding(crate::specs::Word::unsized_word))]
fn unsized_word(name: &[u8]) -> Option<Word>
    ensures { result ≡ unsized_word_of name.now }
{
    if let Some(word) = whole_word_in(name) {
        return Some(word);
    }
    if let Some(word) = plain_word_in(name) {
        return Some(word);
    }
    if let Some(word) = shadow_word_in(name) {
        return Some(word);
    }
    conditional(name)
}

#[tactic(auto, unfolding(crate::specs::Word::sized_word))]
fn any_sized_word(stem: &[u8], width: Width) -> Option<Word>
    ensures { result ≡ sized_word_of stem.now width }
{
    if let Some(word) = sized_move(stem, width) {
        return Some(word);
    }
    if let Some(word) = sized_word(stem, width) {
        return Some(word);
    }
    operation(stem, width)
}

/// The word of an instruction statement.
#[tactic(auto, unfolding(crate::specs::Word::word_of))]
pub(crate) fn read_word(name: &[u8]) -> Option<Word>
    ensures { result ≡ word_of name.now }
{
    if let Some(word) = unsized_word(name) {
        return Some(word);
    }
    let width = width(name)?;
    any_sized_word(&name[..name.len() - 2], width)
}

/// The word behind `lock`.
pub(crate) fn with_lock(word: Word) -> Option<Word>
    ensures { result ≡ locked word }
{
    match word {
        Word::CmpXchg { width, .. } => Some(Word::CmpXchg { width, lock: true }),
        Word::XAdd { width, .. } => Some(Word::XAdd { width, lock: true }),
        _ => None,
    }
}

/// The word behind `notrack`.
pub(crate) fn with_notrack(word: Word) -> Option<Word>
    ensures { result ≡ untracked word }
{
    match word {
        Word::Call { .. } => Some(Word::Call { notrack: true }),
        Word::Jmp { .. } => Some(Word::Jmp { notrack: true }),
        _ => None,
    }
}
