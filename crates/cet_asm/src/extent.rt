//! How many bytes a statement takes.
ghost use Rattle.std.specs.Prelude.{◌≡◌, ◌+◌, ◌<◌};
ghost use Rattle.cet_syntax.specs.declared.statement.Statement.TheVariants as statement;
ghost use Rattle.cet_asm.specs.Emitted.{padding as padding_of};
ghost use Rattle.cet_asm.specs.Placing.{IsAnswer, IsWritten, end_at, end_of};

use crate::error::AsmKind;
use crate::parts::{code_size, parts, parts_size};
use cet_syntax::{Code, Directive, Statement};
use std::alloc::Global;

/// How far it is from the offset to the next multiple.
pub(crate) fn padding(boundary: u64, offset: u64) -> u64
    requires { 0 < boundary }
    ensures { result ≡ padding_of boundary offset }
{
    (boundary - offset % boundary) % boundary
}

// The offset behind so many bytes. Range past 2^64 - 1.
fn behind(offset: u64, size: u64) -> Result<u64, AsmKind>
    ensures { result ≡ end_at (offset + size) }
{
    offset.checked_add(size).ok_or(AsmKind::Range)
}

fn directive_end(offset: u64, directive: &Directive<'_>) -> Result<u64, AsmKind>
    requires { IsWritten (statement.Directive directive.now) }
    ensures { result ≡ end_of offset (statement.Directive directive.now) }
{
    match directive {
        Directive::Object(_, size) => behind(behind(offset, padding(8, offset))?, *size),
        Directive::Word(_) => behind(offset, 8),
        Directive::Byte(_) => behind(offset, 1),
        Directive::Zero(size) => behind(offset, *size),
        Directive::Align(boundary) => behind(offset, padding(*boundary, offset)),
        Directive::Off { .. } => behind(offset, 4),
        _ => Ok(offset),
    }
}

/// The offset behind a statement that stands at the offset. Range exactly where it is past 2^64 - 1.
pub(crate) fn statement_end(
    alloc: Global,
    offset: u64,
    statement: &Statement<'_>,
) -> Result<u64, AsmKind>
    requires { IsWritten statement.now }
    ensures { IsAnswer result (end_of offset statement.now) }
{
    match statement {
        Statement::Code(Code::Long(template)) => behind(offset, code_size(template.insn)),
        Statement::Code(Code::Short(..)) => behind(offset, 2),
        Statement::Directive(directive) => directive_end(offset, directive),
        Statement::Site(site) => {
            let parts = parts(alloc, site)?;
            behind(offset, parts_size(&parts))
        }
    }
}
