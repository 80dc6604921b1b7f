//! Laws of the return from a signal, each a clause of a function that does nothing.

ghost use Rattle.cet_signal.specs.Returned.{DeliveredIsReturned, ExactlyReturned, PopKeepsFrame, StoreKeepsFrame};

/// A thread that was sent to a handler is returned as it was, where the handler kept the frame and, with SHSTK, the marked SSP: its registers, rip,
/// flags, mask and SSP, and, with IBT, whether its tracker waited.
pub fn delivered_is_returned()
    ensures returned { DeliveredIsReturned }
    ensures exactly { ExactlyReturned }
{}

/// A handler that is a RET alone keeps the frame and the marked SSP. A store keeps the frame, where the addresses are apart.
pub fn frame_is_kept()
    ensures pop { PopKeepsFrame }
    ensures store { StoreKeepsFrame }
{}
