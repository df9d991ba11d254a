// What is asked of a record's texts.
ghost use Rattle.std.specs.Prelude.{◌≡◌, ◌+◌};
ghost use Rattle.std.specs.Option.{option_map};
ghost use Rattle.std.specs.Result.{result_err};
ghost use Rattle.address.specs.Address.{bare};
ghost use Rattle.roll.specs.Reading.{texts_at};
ghost use Rattle.email_policy.specs.Questions.{bytes_fault, own_place};
ghost use Rattle.email_policy.specs.Reading.{cc_place, ignored_place, read_policy};
ghost use Rattle.email_policy.specs.declared.fault.PolicyFault.TheVariants.{OwnAddress};

use crate::fault::{PolicyFault, RecordFault};
use crate::fields::Record;
use address::same_bare;
use roll::{check_texts_at, read_text, read_word};

/// The place of the first text with the key's bare, in the roll at a place.
fn own_text(bytes: &[u8], at: usize, key: &[u8]) -> Option<usize>
    ensures { result ≡ own_place (bare key.now) (at + 2) (texts_at bytes.now at) }
{
    let count = read_word(bytes, at)?;
    let mut here = at + 2;
    let mut rest = &bytes[here..];
    for _ in 0..count {
        let (text, more) = read_text(rest)?;
        if same_bare(text, key) {
            return Some(here);
        }
        here += 2 + text.len();
        rest = more;
    }
    None
}

impl<'a> Record<'a> {
    /// Refuses the first byte that no text may hold, in the texts of the record.
    pub fn check_texts(&self) -> Result<(), RecordFault>
        ensures { result ≡ bytes_fault (read_policy self.now.bytes.now self.now.at) (cc_place self.now.bytes.now self.now.at) (ignored_place self.now.bytes.now self.now.at) }
    {
        if self.has(8) {
            check_texts_at(self.bytes, self.cc_place())?;
        }
        if self.has(16) {
            check_texts_at(self.bytes, self.ignored_place())?;
        }
        Ok(())
    }

    /// Refuses a cc text with the key's bare, told by where the length of the first one stands.
    pub fn check_cc(&self, key: &[u8]) -> Result<(), PolicyFault>
        ensures { result_err result ≡ option_map (λ p. OwnAddress p) (own_place (bare key.now) (cc_place self.now.bytes.now self.now.at + 2) (read_policy self.now.bytes.now self.now.at).cc) }
    {
        if !self.has(8) {
            return Ok(());
        }
        match own_text(self.bytes, self.cc_place(), key) {
            Some(place) => Err(PolicyFault::OwnAddress(place)),
            None => Ok(()),
        }
    }
}
