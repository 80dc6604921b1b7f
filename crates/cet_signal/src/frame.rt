//! The frame of a signal: its place on the data stack, its words, and the registers in them. The frame is this project's own.
ghost use Rattle.std.specs.Prelude.{◌≡◌, ◌==◌, ◌&&◌, not, ◌+◌, ◌*◌, ◌≤◌, length, take, drop};
ghost use Rattle.cet_base.specs.Field.{little_endian};
ghost use Rattle.cet_machine.specs.Arithmetic.{flags_of_word};
ghost use Rattle.cet_machine.specs.Signal.{frame_address, frame, bytes_of_words, words_of_bytes, framed_regs};

use cet_base::field_u64;
use cet_cpu::flags_word;
use cet_isa::{Flags, Mode, Regs};
use cet_machine::Action;

/// The words of a frame, and their bytes.
const FRAME_WORDS: usize = 26;

pub const FRAME_SIZE: u64 = 208;

/// The bytes below rsp that a function may use, the red zone (System V x86-64 psABI, 3.2.2).
const RED_ZONE: u64 = 128;

/// What marks a frame.
pub const FRAME_MARK: u64 = 0x4345_5453_4947_4631;

/// Where the frame stands: below the red zone, so that the address above its first word is a multiple of 16.
pub fn frame_address(rsp: u64) -> u64
    ensures { result ≡ frame_address rsp }
{
    let below = rsp.wrapping_sub(RED_ZONE + FRAME_SIZE);
    below.wrapping_sub(below.wrapping_sub(8) % 16)
}

/// The words of the frame: the address that the handler returns to, the registers, rip, flags, tracker, number and mask, the mark, and three words 0.
pub fn frame(action: &Action, signo: u32, regs: &Regs) -> [u64; FRAME_WORDS]
    ensures { result ≡ frame action.now signo regs.now }
{
    let r = &regs.r;
    [
        action.restorer,
        r[0],
        r[1],
        r[2],
        r[3],
        r[4],
        r[5],
        r[6],
        r[7],
        r[8],
        r[9],
        r[10],
        r[11],
        r[12],
        r[13],
        r[14],
        r[15],
        regs.rip,
        flags_word(regs.flags),
        u64::from(regs.waiting),
        u64::from(signo),
        regs.mask,
        FRAME_MARK,
        0,
        0,
        0,
    ]
}

/// Words as bytes.
pub fn bytes_of_words(words: &[u64; FRAME_WORDS]) -> [u8; FRAME_SIZE as usize]
    ensures { result ≡ bytes_of_words words.now }
{
    let mut bytes = [0; FRAME_SIZE as usize];
    for i in 0..FRAME_WORDS {
        bytes[8 * i..8 * i + 8].copy_from_slice(&words[i].to_le_bytes());
    }
    bytes
}

/// The word of this number in a list of words of 8 bytes.
pub fn word_of(bytes: &[u8], i: usize) -> u64
    requires { 8 * i + 8 ≤ length bytes.now }
    ensures { result ≡ little_endian (take 8 (drop (8 * i) bytes.now)) }
{
    field_u64(bytes, 8 * i as u64).unwrap()
}

/// The registers that the words of a frame hold.
pub fn framed_regs(mode: Mode, ssp: u64, bytes: &[u8]) -> Regs
    requires { 208 ≤ length bytes.now }
    ensures { result ≡ framed_regs mode ssp (words_of_bytes 26 bytes.now) }
{
    let mut r = [0; 16];
    for i in 0..16 {
        r[i] = word_of(bytes, i + 1);
    }
    Regs {
        r,
        rip: word_of(bytes, 17),
        flags: flags_of_word(word_of(bytes, 18)),
        waiting: tracker_of(mode, word_of(bytes, 19)),
        ssp,
        mask: word_of(bytes, 21),
    }
}

/// Whether the tracker waits, by the frame's word.
fn tracker_of(mode: Mode, word: u64) -> bool
    ensures { result ≡ (mode.ibt && not (word == 0)) }
{
    mode.ibt && word != 0
}

/// The four flags of EFLAGS (SDM volume 1, figure 3-8).
fn flags_of_word(word: u64) -> Flags
    ensures { result ≡ flags_of_word word }
{
    Flags {
        cf: word & 1 == 1,
        zf: (word >> 6) & 1 == 1,
        sf: (word >> 7) & 1 == 1,
        of: (word >> 11) & 1 == 1,
    }
}
