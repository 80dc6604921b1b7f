//! Site words: their operands are as in the texts of the sequences, parted by commas.
ghost use Rattle.std.specs.Prelude.{◌≡◌};
ghost use Rattle.cet_syntax.specs.Statement.{record_field, land_of, release_of, throw_of, switch_of, fiber_make_of, spawn_of, action_of, read_of, site_of};

use crate::error::SyntaxError;
use crate::fields::reference;
use crate::keyword::SiteWord;
use crate::number::Number;
use crate::operand::{Constant, Operand};
use crate::operands::Operands;
use crate::statement::Site;

// The most that stands behind the start of a record.
const LAST_WORD: i32 = 32;

// The place of a record of 40 bytes.
fn record_place(number: Number) -> Option<i32>
    ensures { result ≡ record_field number }
{
    let place = number.as_i32()?;
    if place <= i32::MAX - LAST_WORD {
        Some(place)
    } else {
        None
    }
}

/// The site of this word with these operands.
pub(crate) fn site<'a>(word: SiteWord, operands: Operands<'a>) -> Result<Site<'a>, SyntaxError>
    ensures { result ≡ site_of word operands.entry }
{
    match word {
        SiteWord::Land => land(operands),
        SiteWord::Release => release(operands),
        SiteWord::Throw => throw(operands),
        SiteWord::Switch => switch(operands),
        SiteWord::FiberMake => fiber_make(operands),
        SiteWord::Spawn => spawn(operands),
        SiteWord::Action => action(operands),
        SiteWord::Read => read(operands),
    }
}

fn land(operands: Operands<'_>) -> Result<Site<'_>, SyntaxError>
    ensures { result ≡ land_of operands.entry }
{
    match operands {
        Operands::Two(
            Operand::Constant(Constant::Number(number)),
            Operand::Constant(Constant::Address(address)),
        ) => {
            let record = record_place(number).ok_or(SyntaxError::Range)?;
            let landing = reference(address)?;
            Ok(Site::Land { record, landing })
        }
        _ => Err(SyntaxError::Operand),
    }
}

fn release(operands: Operands<'_>) -> Result<Site<'_>, SyntaxError>
    ensures { result ≡ release_of operands.entry }
{
    match operands {
        Operands::One(Operand::Constant(Constant::Number(number))) => {
            let record = number.as_i32().ok_or(SyntaxError::Range)?;
            Ok(Site::Release { record })
        }
        _ => Err(SyntaxError::Operand),
    }
}

fn throw(operands: Operands<'_>) -> Result<Site<'_>, SyntaxError>
    ensures { result ≡ throw_of operands.entry }
{
    match operands {
        Operands::Zero => Ok(Site::Throw),
        _ => Err(SyntaxError::Operand),
    }
}

fn switch(operands: Operands<'_>) -> Result<Site<'_>, SyntaxError>
    ensures { result ≡ switch_of operands.entry }
{
    match operands {
        Operands::Two(first, second) => match first {
            Operand::Constant(Constant::Address(first)) => match second {
                Operand::Constant(Constant::Address(second)) => {
                    let taken = reference(first)?;
                    let published = reference(second)?;
                    Ok(Site::Switch { taken, published })
                }
                _ => Err(SyntaxError::Operand),
            },
            _ => Err(SyntaxError::Operand),
        },
        _ => Err(SyntaxError::Operand),
    }
}

fn fiber_make(operands: Operands<'_>) -> Result<Site<'_>, SyntaxError>
    ensures { result ≡ fiber_make_of operands.entry }
{
    match operands {
        Operands::Two(first, second) => match first {
            Operand::Constant(Constant::Address(first)) => match second {
                Operand::Constant(Constant::Address(second)) => {
                    let published = reference(first)?;
                    let function = reference(second)?;
                    Ok(Site::FiberMake {
                        published,
                        function,
                    })
                }
                _ => Err(SyntaxError::Operand),
            },
            _ => Err(SyntaxError::Operand),
        },
        _ => Err(SyntaxError::Operand),
    }
}

fn spawn(operands: Operands<'_>) -> Result<Site<'_>, SyntaxError>
    ensures { result ≡ spawn_of operands.entry }
{
    match operands {
        Operands::One(Operand::Name(function)) => Ok(Site::Spawn { function }),
        _ => Err(SyntaxError::Operand),
    }
}

fn action(operands: Operands<'_>) -> Result<Site<'_>, SyntaxError>
    ensures { result ≡ action_of operands.entry }
{
    match operands {
        Operands::Two(
            Operand::Constant(Constant::Number(number)),
            Operand::Constant(Constant::Address(address)),
        ) => {
            let signal = number.as_u32().ok_or(SyntaxError::Range)?;
            let action = reference(address)?;
            Ok(Site::Action { signal, action })
        }
        _ => Err(SyntaxError::Operand),
    }
}

fn read(operands: Operands<'_>) -> Result<Site<'_>, SyntaxError>
    ensures { result ≡ read_of operands.entry }
{
    match operands {
        Operands::Two(first, second) => match first {
            Operand::Constant(Constant::Address(address)) => match second {
                Operand::Constant(Constant::Number(number)) => {
                    let buffer = reference(address)?;
                    let size = number.as_u32().ok_or(SyntaxError::Range)?;
                    Ok(Site::Read { buffer, size })
                }
                _ => Err(SyntaxError::Operand),
            },
            _ => Err(SyntaxError::Operand),
        },
        _ => Err(SyntaxError::Operand),
    }
}
