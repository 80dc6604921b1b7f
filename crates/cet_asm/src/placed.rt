//! The statements of a text in their places.

use cet_syntax::{Name, SectionName, Statement};

/// The function around a statement.
#[derive(Drop)]
pub struct Around<'a> {
    pub name: Name<'a>,
    /// Its offset in the section.
    pub start: u64,
}

/// Where a statement stands.
#[derive(Drop)]
pub struct Spot<'a> {
    pub section: SectionName,
    /// Its offset in the section.
    pub offset: u64,
    pub around: Option<Around<'a>>,
}

/// An item of a text that was read.
#[derive(Drop)]
pub enum Step<'a> {
    Label(Name<'a>),
    States(Statement<'a>),
}

/// A statement in its place, with its line from 1.
#[derive(Drop)]
pub struct Placed<'a> {
    pub line: u32,
    pub step: Step<'a>,
    pub spot: Spot<'a>,
}
