ghost use Rattle.cet_rules.specs.Regular.{AreSegments, AreFunctions};

use crate::function::FunctionList;
use crate::segment::SegmentList;
use cet_base::Span;
use cet_note::Features;

/// A static program as it is loaded.
#[derive(Drop)]
pub struct Image {
    pub segments: SegmentList,
    /// They ascend by start, then by size.
    pub functions: FunctionList,
    /// The words that hold the shadow stack pointers of fibers that wait, or None where the program has no fibers.
    pub slots: Option<Span>,
    /// The address of the first instruction.
    pub entry: u64,
    /// What the program's property note claims.
    pub features: Features,
    pub ghost segments_regular: { AreSegments segments },
    pub ghost functions_regular: { AreFunctions functions },
}
