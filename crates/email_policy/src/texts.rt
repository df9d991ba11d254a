// The texts of a policy source, by whose they are.
ghost use Rattle.std.specs.Prelude.{◌≡◌, ◌≤◌, length};
ghost use Rattle.std.specs.Iterator.{YieldsFirstRef, item_count};
ghost use Rattle.std.specs.List.{slice_get};
ghost use Rattle.std.specs.Option.{option_map};
ghost use Rattle.email_policy.specs.Texts.{record_of, texts_of};
ghost use Rattle.email_policy.specs.TextsLeft.{texts_left};

use crate::record::MOST_TEXTS;
use crate::source::PolicySource;

/// Whose record is asked about: that of the defaults, or of the list with this number.
#[derive(Clone, Copy, PartialEq, Eq, Debug)]
pub enum Whose {
    Defaults,
    List(usize),
}

/// A roll of a record.
#[derive(Clone, Copy, PartialEq, Eq, Debug)]
pub enum TextField {
    Cc,
    IgnoredEmails,
}

/// Text `m` of a roll; past the last text, and past the last list, there is none.
pub fn source_text<S: PolicySource>(
    source: &S,
    whose: Whose,
    field: TextField,
    m: usize,
) -> Option<&[u8]>
    ensures { option_map (λ x. x.now) result ≡ slice_get (texts_of field (record_of (S.meaning source.now) whose)) m }
{
    match (whose, field) {
        (Whose::Defaults, TextField::Cc) => source.default_cc(m),
        (Whose::Defaults, TextField::IgnoredEmails) => source.default_ignored_email(m),
        (Whose::List(n), TextField::Cc) => source.cc(n, m),
        (Whose::List(n), TextField::IgnoredEmails) => source.ignored_email(n, m),
    }
}

/// The texts of a roll from some number on.
#[derive(Drop)]
pub struct SourceTexts<'a, S> {
    source: &'a S,
    whose: Whose,
    field: TextField,
    next: usize,
}

/// The texts of a roll, one after another.
pub fn source_texts<'a, S: PolicySource>(
    source: &'a S,
    whose: Whose,
    field: TextField,
) -> SourceTexts<'a, S>
    ensures texts { texts_left S.meaning result ≡ texts_of field (record_of (S.meaning source.now) whose) }
    ensures few { length (texts_of field (record_of (S.meaning source.now) whose)) ≤ 32 }
{
    SourceTexts {
        source,
        whose,
        field,
        next: 0,
    }
}

impl<'a, S: PolicySource> Iterator for SourceTexts<'a, S> {
    type Item = &'a [u8];

    ghost next_gives = { YieldsFirstRef (texts_left S.meaning) };

    ghost remaining = { item_count (texts_left S.meaning) };

    fn next(&mut self) -> Option<&'a [u8]> {
        // a lawful policy has no more, so the source is not asked for one
        if self.next >= MOST_TEXTS {
            return None;
        }
        let text = source_text(self.source, self.whose, self.field, self.next)?;
        self.next += 1;
        Some(text)
    }
}
