// The address inside a text, bares and domains.
ghost use Rattle.std.specs.Prelude.{◌≡◌};
ghost use Rattle.std.specs.Option.{option_map};
ghost use Rattle.address.specs.Address.{address_part, same_bare, sides as sides_of, domain as domain_of};

use crate::scanner::find_outside;
use crate::text::trim;

/// The part of the text that is its address: what stands between the angles, or all of it.
pub fn address_part(text: &[u8]) -> &[u8]
    ensures { result.now ≡ address_part text.now }
{
    let whole = trim(text);
    let Some(i) = find_outside(whole, b'<') else {
        return whole;
    };
    let rest = &whole[i + 1..];
    let Some(n) = find_outside(rest, b'>') else {
        return whole;
    };
    trim(&rest[..n])
}

/// Whether two texts have the same bare.
pub fn same_bare(a: &[u8], b: &[u8]) -> bool
    ensures { result ≡ same_bare a.now b.now }
{
    address_part(a).eq_ignore_ascii_case(address_part(b))
}

/// What stands before the first `@` outside the quoted parts, and what follows it.
pub fn sides(part: &[u8]) -> Option<(&[u8], &[u8])>
    ensures { option_map (λ s. (s.0.now, s.1.now)) result ≡ sides_of part.now }
{
    let at = find_outside(part, b'@')?;
    Some((&part[..at], &part[at + 1..]))
}

/// What follows the first `@` outside the quoted parts.
pub fn domain(part: &[u8]) -> Option<&[u8]>
    ensures { option_map (λ x. x.now) result ≡ domain_of part.now }
{
    sides(part).map(|(_, domain)| domain)
}
