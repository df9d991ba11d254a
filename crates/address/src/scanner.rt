// Reading a text byte by byte, so as to know what stands outside its quoted parts.
ghost use Rattle.std.specs.Prelude.{◌≡◌, ◌<◌, length, IfSome, ◌≢◌};
ghost use Rattle.address.specs.Quoted.{next, first_outside, before_unclosed};
ghost use Rattle.address.specs.declared.scanner.Scanner.TheVariants.{Outside};

/// Where a reader stands after some bytes of a text.
#[derive(Clone, Copy, PartialEq, Eq, Debug)]
pub enum Scanner {
    Outside,
    Quoted,
    Escaped,
}

impl Scanner {
    /// Reads one byte.
    pub fn step(&mut self, b: u8)
        ensures { self.new ≡ next self.old b }
    {
        *self = match (*self, b) {
            (Scanner::Outside, b'"') => Scanner::Quoted,
            (Scanner::Outside, _) => Scanner::Outside,
            (Scanner::Quoted, b'"') => Scanner::Outside,
            (Scanner::Quoted, b'\\') => Scanner::Escaped,
            (Scanner::Quoted, _) => Scanner::Quoted,
            (Scanner::Escaped, _) => Scanner::Quoted,
        };
    }
}

// Where the quote stands that never closes, or the length where there is none.
fn unclosed(text: &[u8]) -> usize
    ensures { result ≡ before_unclosed Outside text.now }
{
    let mut state = Scanner::Outside;
    let mut opened = 0;
    for (i, b) in text.iter().enumerate() {
        if state == Scanner::Outside {
            opened = i;
        }
        state.step(*b);
    }
    if state == Scanner::Outside {
        text.len()
    } else {
        opened
    }
}

/// The place of the first `c` outside the quoted parts. From a quote that never closes on, the state stays as it is.
pub(crate) fn find_outside(text: &[u8], c: u8) -> Option<usize>
    requires some { 0 < c }
    requires no_quote { c ≢ 34 }
    ensures value { result ≡ first_outside c text.now }
    ensures bound { IfSome result (λ i. i < length text.now) }
{
    let ordinary = unclosed(text);
    let mut state = Scanner::Outside;
    for (i, b) in text.iter().enumerate() {
        if state == Scanner::Outside && *b == c {
            return Some(i);
        }
        if i < ordinary {
            state.step(*b);
        }
    }
    None
}
