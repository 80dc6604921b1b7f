//! Laws of the forms and their texts, each the contract of a function that does nothing.

ghost use Rattle.cet_isa.specs.Law.{FormLength, OneForm, FormIsDecoded, DecodedIsForm, ShortIsProperPrefix, OutsideStays, OneHead, CanonicalIsForm, FormHasCanonical, CanonicalIsShortest};
ghost use Rattle.cet_isa.specs.TextLaw.{OneText};

/// A form has 1 to 15 bytes.
pub fn form_length()
    ensures { FormLength }
{}

/// A list is a form of at most one value, and no form is a proper prefix of another: two lists that begin with a form
/// and are equal begin with the same form of the same value.
pub fn one_form()
    ensures { OneForm }
{}

/// What begins with a form is decoded as that form's value, whatever follows.
pub fn form_is_decoded()
    ensures { FormIsDecoded }
{}

/// What is decoded begins with a form of the value, of the length told.
pub fn decoded_is_form()
    ensures { DecodedIsForm }
{}

/// Bytes that are short are a proper prefix of a form.
pub fn short_is_proper_prefix()
    ensures { ShortIsProperPrefix }
{}

/// Bytes that are outside stay outside, whatever follows them.
pub fn outside_stays()
    ensures { OutsideStays }
{}

/// At most one form, of one value and one length, stands at the head of a list.
pub fn one_head()
    ensures { OneHead }
{}

/// The canonical form of a value is a form of it.
pub fn canonical_is_form()
    ensures { CanonicalIsForm }
{}

/// A value that has a form has a canonical form; where there is none, no list is a form of the value.
pub fn form_has_canonical()
    ensures { FormHasCanonical }
{}

/// No form of a value is shorter than its canonical form, but for the opcodes of AL, EAX and RAX with a constant.
pub fn canonical_is_shortest()
    ensures { CanonicalIsShortest }
{}

/// Of the values that have a form, no two have one text.
pub fn one_text()
    ensures { OneText }
{}
