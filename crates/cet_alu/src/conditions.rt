ghost use Rattle.std.specs.Prelude.{◌≡◌};
ghost use Rattle.cet_machine.specs.Arithmetic.{holds};

use cet_isa::{Cond, Flags};

/// Whether the condition holds of the flags (SDM volume 1, appendix B).
pub fn holds(cond: Cond, flags: Flags) -> bool
    ensures { result ≡ holds cond flags }
{
    let less = flags.sf != flags.of;
    match cond {
        Cond::O => flags.of,
        Cond::No => !flags.of,
        Cond::B => flags.cf,
        Cond::Ae => !flags.cf,
        Cond::E => flags.zf,
        Cond::Ne => !flags.zf,
        Cond::Be => flags.cf || flags.zf,
        Cond::A => !(flags.cf || flags.zf),
        Cond::S => flags.sf,
        Cond::Ns => !flags.sf,
        Cond::L => less,
        Cond::Ge => !less,
        Cond::Le => flags.zf || less,
        Cond::G => !(flags.zf || less),
    }
}
