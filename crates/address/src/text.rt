// Texts: which bytes one may hold, trimming, one text in another.
ghost use Rattle.std.specs.Prelude.{◌≡◌, ◌-◌, not, position, take, drop};
ghost use Rattle.address.specs.Text.{blank, trimmed, unindented, unpadded, small, holds};
ghost use Rattle.address.specs.Text.{text_byte, text_fault};

/// A byte that no text may hold, by its place in the caller's slice.
#[derive(Clone, Copy, PartialEq, Eq, Debug)]
pub struct TextFault {
    pub place: usize,
}

fn is_text_byte(b: u8) -> bool
    ensures { result ≡ text_byte b }
{
    matches!(b, b'\t' | b' '..=b'~')
}

/// Whether a byte is tab or space.
pub fn is_blank(b: u8) -> bool
    ensures { result ≡ blank b }
{
    matches!(b, b'\t' | b' ')
}

/// Refuses the first byte that no text may hold.
pub fn check_text(text: &[u8]) -> Result<(), TextFault>
    ensures { result ≡ text_fault 0 text.now }
{
    check_text_within(text, 0, text.len())
}

/// The same of the text that stands in a slice from one place up to another, with the place counted in the slice.
pub fn check_text_within(bytes: &[u8], from: usize, to: usize) -> Result<(), TextFault>
    ensures { result ≡ text_fault from (take (to - from) (drop from bytes.now)) }
{
    match first_foreign(between(bytes, from, to)) {
        Some(i) => Err(TextFault { place: from + i }),
        None => Ok(()),
    }
}

/// The bytes from one place up to another, as far as there are any.
pub fn between(bytes: &[u8], from: usize, to: usize) -> &[u8]
    ensures { result.now ≡ take (to - from) (drop from bytes.now) }
{
    bytes.get(from..to.min(bytes.len())).unwrap_or(&[])
}

// The place of the first byte that no text may hold.
fn first_foreign(text: &[u8]) -> Option<usize>
    ensures { result ≡ position (λ b. not (text_byte b)) text.now }
{
    text.iter().position(|b| !is_text_byte(*b))
}

fn trim_start(text: &[u8]) -> &[u8]
    ensures { result.now ≡ unindented text.now }
{
    let blanks = text.iter().take_while(|b| is_blank(**b)).count();
    &text[blanks..]
}

fn trim_end(text: &[u8]) -> &[u8]
    ensures { result.now ≡ unpadded text.now }
{
    let blanks = text.iter().rev().take_while(|b| is_blank(**b)).count();
    &text[..text.len() - blanks]
}

/// The text without the blanks at its ends.
pub fn trim(text: &[u8]) -> &[u8]
    ensures { result.now ≡ trimmed text.now }
{
    trim_end(trim_start(text))
}

/// Whether `part` stands somewhere in `text`, both in small letters. The empty text stands in every text.
pub fn contains_small(text: &[u8], part: &[u8]) -> bool
    ensures { result ≡ holds (small text.now) (small part.now) }
{
    part.is_empty()
        || text
            .windows(part.len())
            .any(|here| here.eq_ignore_ascii_case(part))
}
