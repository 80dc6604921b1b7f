//! Where the next statement stands.
ghost use Rattle.std.specs.Prelude.{◌≡◌, ◌+◌, ◌<◌, ◌^◌};
ghost use Rattle.cet_asm.specs.Emitted.{size_of};
ghost use Rattle.cet_asm.specs.Assembled.{first_state, spot_in, stands as stands_in, directive_stands as directive_stands_in, after, after_statement, same_section as same_section_of};
ghost use Rattle.cet_asm.specs.Placing.{state_of, size_in, step_end, takes_bytes as takes_bytes_of, with_size};

use crate::placed::{Around, Spot, Step};
use cet_syntax::{Directive, DirectiveWord, Keyword, SectionName, Statement};

/// Whether the sections are the same.
pub(crate) fn same_section(section: SectionName, other: SectionName) -> bool
    ensures { result ≡ same_section_of section other }
{
    match (section, other) {
        (SectionName::Text, SectionName::Text) => true,
        (SectionName::Rodata, SectionName::Rodata) => true,
        (SectionName::Data, SectionName::Data) => true,
        (SectionName::Bss, SectionName::Bss) => true,
        _ => false,
    }
}

/// How many bytes each section has.
#[derive(Clone, Copy, Debug, PartialEq, Eq)]
pub(crate) struct Sizes {
    pub(crate) text: u64,
    pub(crate) rodata: u64,
    pub(crate) data: u64,
    pub(crate) bss: u64,
}

impl Sizes {
    pub(crate) fn of(self, section: SectionName) -> u64
        ensures { result ≡ size_in self section }
    {
        match section {
            SectionName::Text => self.text,
            SectionName::Rodata => self.rodata,
            SectionName::Data => self.data,
            SectionName::Bss => self.bss,
        }
    }

    fn with(self, section: SectionName, size: u64) -> Sizes
        ensures { result ≡ with_size self section size }
    {
        match section {
            SectionName::Text => Sizes { text: size, ..self },
            SectionName::Rodata => Sizes {
                rodata: size,
                ..self
            },
            SectionName::Data => Sizes { data: size, ..self },
            SectionName::Bss => Sizes { bss: size, ..self },
        }
    }
}

// Whether the statement leaves the section and the function around.
fn takes_bytes(statement: &Statement<'_>) -> bool
    ensures { result ≡ takes_bytes_of statement.now }
{
    match statement {
        Statement::Directive(Directive::Section(_)) => false,
        Statement::Directive(Directive::Func(_)) => false,
        Statement::Directive(Directive::End) => false,
        _ => true,
    }
}

impl<'a> Around<'a> {
    // The same once more.
    fn copied(&self) -> Around<'a>
        ensures { result ≡ self.now }
    {
        Around {
            name: self.name.copied(),
            start: self.start,
        }
    }
}

/// The section and the function that the next statement stands in, and the bytes of each section before it.
#[derive(Drop)]
pub(crate) struct Cursor<'a> {
    section: SectionName,
    sizes: Sizes,
    around: Option<Around<'a>>,
}

impl<'a> Cursor<'a> {
    /// Before the first statement.
    pub(crate) fn new() -> Cursor<'a>
        ensures { state_of result ≡ first_state }
    {
        Cursor {
            section: SectionName::Text,
            sizes: Sizes {
                text: 0,
                rodata: 0,
                data: 0,
                bss: 0,
            },
            around: None,
        }
    }

    /// The offset of the next statement in its section.
    pub(crate) fn offset(&self) -> u64
        ensures { result ≡ (spot_in (state_of self.now)).offset }
    {
        self.sizes.of(self.section)
    }

    /// The bytes of each section before it.
    pub(crate) fn sizes(&self) -> Sizes
        ensures { result ≡ self.now.sizes }
    {
        self.sizes
    }

    /// The section of the next statement.
    pub(crate) fn section(&self) -> SectionName
        ensures { result ≡ (state_of self.now).section }
    {
        self.section
    }

    /// Where the next statement stands.
    pub(crate) fn spot(&self) -> Spot<'a>
        ensures { result ≡ spot_in (state_of self.now) }
    {
        let around = match &self.around {
            Some(around) => Some(around.copied()),
            None => None,
        };
        Spot {
            section: self.section,
            offset: self.offset(),
            around,
        }
    }

    // Whether a directive may stand here.
    fn directive_stands(&self, word: DirectiveWord) -> bool
        ensures { result ≡ directive_stands_in (state_of self.now) word }
    {
        match word {
            DirectiveWord::Section => self.around.is_none(),
            DirectiveWord::Func => {
                self.around.is_none() && same_section(self.section, SectionName::Text)
            }
            DirectiveWord::End => self.around.is_some(),
            DirectiveWord::Word | DirectiveWord::Byte | DirectiveWord::Off => {
                !same_section(self.section, SectionName::Bss)
            }
            _ => true,
        }
    }

    /// Whether a statement of this word may stand here.
    pub(crate) fn stands(&self, keyword: Keyword) -> bool
        ensures { result ≡ stands_in (state_of self.now) keyword }
    {
        match keyword {
            Keyword::Instruction(_) => same_section(self.section, SectionName::Text),
            Keyword::Site(_) => self.around.is_some(),
            Keyword::Directive(word) => self.directive_stands(word),
        }
    }

    // Goes behind a statement, which ends at `end`.
    fn pass(&mut self, statement: &Statement<'a>, end: u64)
        requires { end ≡ (spot_in (state_of self.old)).offset + size_of (spot_in (state_of self.old)).offset statement.now }
        ensures { state_of self.new ≡ after_statement (state_of self.old) statement.now }
    {
        if takes_bytes(statement) {
            self.sizes = self.sizes.with(self.section, end);
            return;
        }
        match statement {
            Statement::Directive(Directive::Section(name)) => self.section = *name,
            Statement::Directive(Directive::Func(name)) => {
                let start = self.offset();
                self.around = Some(Around {
                    name: name.copied(),
                    start,
                });
            }
            Statement::Directive(Directive::End) => self.around = None,
            _ => {}
        }
    }

    /// Goes behind an item, which ends at `end`.
    pub(crate) fn step(&mut self, step: &Step<'a>, end: u64)
        requires { end ≡ step_end (state_of self.old) step.now }
        ensures { state_of self.new ≡ after (state_of self.old) step.now }
    {
        match step {
            Step::Label(_) => {}
            Step::States(statement) => self.pass(statement, end),
        }
    }
}
