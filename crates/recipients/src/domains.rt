// List addresses.
ghost use Rattle.std.specs.Prelude.{◌≡◌, map};
ghost use Rattle.std.specs.Str.{bytes_eq};
ghost use Rattle.address.specs.Text.{small};
ghost use Rattle.address.specs.Address.{domain as domain_of};
ghost use Rattle.audience.specs.Rules.{at_known};
ghost use Rattle.mail.specs.Letters.{texts};
ghost use Rattle.recipients.specs.Choices.{at_one_of, listed_by};

use address::domain;
use mail::{Mailbox, Mailboxes};

/// An address at one of these domains is a list's.
const KNOWN_MAILING_LIST_DOMAINS: [&[u8]; 15] = [
    b"vger.kernel.org",
    b"lists.linux.dev",
    b"lists.infradead.org",
    b"lists.freedesktop.org",
    b"lists.osuosl.org",
    b"kvack.org",
    b"lists.open-mesh.org",
    b"lists.sourceforge.net",
    b"lists.oss.qualcomm.com",
    b"lists.subsurface-divelog.org",
    b"acpica.org",
    b"lists.linaro.org",
    b"lists.01.org",
    b"lists.xenproject.org",
    b"lists.ozlabs.org",
];

/// Whether two domains are the same, in whatever case.
fn same_domain(one: &[u8], other: &[u8]) -> bool
    ensures { result ≡ bytes_eq (small one.now) (small other.now) }
{
    one.eq_ignore_ascii_case(other)
}

/// Whether the address is at one of these domains.
fn is_at_one_of(domains: &[&[u8]], part: &[u8]) -> bool
    ensures { result ≡ at_known (at_one_of (map (λ x. x.now) domains.now)) (domain_of (small part.now)) }
{
    let Some(found) = domain(part) else {
        return false;
    };
    domains.iter().any(|known| same_domain(found, known))
}

/// Whether the address is a list's: that of a key, or at a known domain.
pub(crate) fn is_list_address(keys: &Mailboxes<'_, '_>, mailbox: &Mailbox<'_>) -> bool
    ensures { result ≡ listed_by (texts keys.now) mailbox.now.text.now }
{
    if keys.has(mailbox.part()) {
        return true;
    }
    is_at_one_of(&KNOWN_MAILING_LIST_DOMAINS, mailbox.part())
}
