// One address, of a mail or of a policy.
ghost use Rattle.std.specs.Prelude.{◌≡◌, []};
ghost use Rattle.address.specs.Address.{address_part, same_bare};
ghost use Rattle.audience.specs.Mail.{nobody};
ghost use Rattle.mail.specs.Addresses.{same_part};

use address::address_part;

/// A text and the address in it, which is found once.
#[derive(Clone, Copy)]
pub struct Mailbox<'a> {
    pub(crate) text: &'a [u8],
    pub(crate) part: &'a [u8],
    ghost found: { part.now ≡ address_part text.now },
}

impl<'a> Mailbox<'a> {
    pub fn new(text: &'a [u8]) -> Mailbox<'a>
        ensures { result.text.now ≡ text.now }
    {
        Mailbox {
            text,
            part: address_part(text),
        }
    }

    pub fn text(&self) -> &'a [u8]
        ensures { result.now ≡ self.now.text.now }
    {
        self.text
    }

    /// The address in the text.
    pub fn part(&self) -> &'a [u8]
        ensures { result.now ≡ address_part self.now.text.now }
    {
        self.part
    }

    /// Whether there is no address in the text.
    pub fn is_nobody(&self) -> bool
        ensures { result ≡ nobody self.now.text.now }
    {
        let address = self.part;
        address.is_empty()
    }

    /// Whether both have the same bare.
    pub fn same_bare(&self, other: &Mailbox<'_>) -> bool
        ensures { result ≡ same_bare self.now.text.now other.now.text.now }
    {
        other.is_at(self.part)
    }

    /// Whether this is the address, in whatever case.
    pub fn is_at(&self, part: &[u8]) -> bool
        ensures { result ≡ same_part part.now (address_part self.now.text.now) }
    {
        part.eq_ignore_ascii_case(self.part)
    }
}

/// The mailbox of the empty text, which fills what is free of a table.
impl Default for Mailbox<'_> {
    ghost is_default = { λ m. m.text.now ≡ [] };

    // a table makes one for each of its places, so no address is looked for
    fn default() -> Self {
        Mailbox {
            text: &[],
            part: &[],
        }
    }
}
