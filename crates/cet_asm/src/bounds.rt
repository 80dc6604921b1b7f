//! What holds of each statement that was read.
ghost use Rattle.std.specs.Prelude.{IsTrue};
ghost use Rattle.cet_asm.specs.Placing.{IsWritten};

use cet_syntax::{Directive, Site, Statement};

/// Whether a boundary is above 0 and the record of a Land has its last word in reach; both are of each statement that was read.
pub(crate) fn is_written(statement: &Statement<'_>) -> bool
    ensures { IsTrue result → IsWritten statement.now }
{
    match statement {
        Statement::Directive(Directive::Align(boundary)) => *boundary > 0,
        Statement::Site(Site::Land { record, .. }) => *record <= i32::MAX - 32,
        _ => true,
    }
}
