// Texts by their number, through a table of where they begin.
ghost use Rattle.std.specs.Prelude.{◌≡◌, ◌≤◌, ◌++◌, length};
ghost use Rattle.std.specs.List.{slice_get};
ghost use Rattle.std.specs.Option.{option_map};
ghost use Rattle.roll.specs.Views.{viewed, Views};

use crate::ends::read_word;
use crate::reading::{read_text, tail};
use arrayvec::ArrayVec;
use std::marker::Model;

/// A packed roll whose texts are found in constant time.
#[derive(Drop)]
pub struct Roll<'a> {
    bytes: &'a [u8],
    // a roll of 512 texts of 998 bytes is longer than two bytes can count
    starts: ArrayVec<u32, 512>,
}

impl<'a> Model for Roll<'a> {
    ghost use Rattle.std.specs.Prelude.{List, ℕ};
    ghost use Rattle.roll.specs.Views.{Indexes};

    ghost Value = { List ℕ };

    ghost view = { λ r. r.bytes.now };

    ghost invariant = { λ r. Indexes r.bytes.now r.starts.items };
}

impl<'a> Roll<'a> {
    /// The view of the first 512 texts, which of an incoming roll are all: reads them once, and keeps where each begins.
    pub fn new(bytes: &'a [u8]) -> Roll<'a>
        ensures bytes { result ≡ bytes.now }
        ensures all { Views bytes.now }
    {
        let count = read_word(bytes, 0).unwrap_or(0).min(512);
        let mut starts = ArrayVec::new();
        let mut here = 2;
        let mut rest = tail(bytes, here);
        for _ in 0..count {
            let Some((text, more)) = read_text(rest) else {
                break;
            };
            let _ = starts.try_push(here as u32);
            here += 2 + text.len();
            rest = more;
        }
        Roll { bytes, starts }
    }

    pub fn len(&self) -> usize
        ensures value { result ≡ length (viewed self.now) }
        ensures few { result ≤ 512 }
    {
        self.starts.len()
    }

    /// Text `n`.
    pub fn text(&self, n: usize) -> Option<&'a [u8]>
        ensures { option_map (λ x. x.now) result ≡ slice_get (viewed self.now) n }
    {
        let at = *self.starts.get(n)?;
        read_text(tail(self.bytes, at as usize)).map(|(text, _)| text)
    }
}

/// The incoming address numbered `n`, those of To first and then those of Cc.
pub fn address<'a>(to: &Roll<'a>, cc: &Roll<'a>, n: usize) -> Option<&'a [u8]>
    ensures { option_map (λ x. x.now) result ≡ slice_get (viewed to.now ++ viewed cc.now) n }
{
    let first = to.len();
    if n < first {
        to.text(n)
    } else {
        cc.text(n - first)
    }
}
