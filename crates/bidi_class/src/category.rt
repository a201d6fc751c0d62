//! The classes that go by the general category.
ghost use Rattle.std.specs.Prelude.{◌≡◌};
ghost use Rattle.ucd_category.specs.GeneralCategory.{general_category};
ghost use Rattle.bidi_class.specs.CategoryClass.{unless_mark, category_class};

use crate::class::Class;
use unicode::properties::GeneralCategory;

/// NSM for a mark, and `other` for another character.
pub(crate) fn unless_mark(c: char, other: Class) -> Class
    ensures { result ≡ unless_mark other (general_category c) }
{
    match GeneralCategory::for_char(c) {
        GeneralCategory::NonspacingMark | GeneralCategory::EnclosingMark => Class::NSM,
        _ => other,
    }
}

/// NSM for a mark, L for a letter, a number or a spacing mark, and ON for another character.
pub(crate) fn category_class(c: char) -> Class
    ensures { result ≡ category_class (general_category c) }
{
    match GeneralCategory::for_char(c) {
        GeneralCategory::NonspacingMark | GeneralCategory::EnclosingMark => Class::NSM,
        GeneralCategory::UppercaseLetter
        | GeneralCategory::LowercaseLetter
        | GeneralCategory::TitlecaseLetter
        | GeneralCategory::ModifierLetter
        | GeneralCategory::OtherLetter
        | GeneralCategory::DecimalNumber
        | GeneralCategory::LetterNumber
        | GeneralCategory::OtherNumber
        | GeneralCategory::SpacingMark => Class::L,
        _ => Class::ON,
    }
}
