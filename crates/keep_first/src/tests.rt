// Two rolls that share nothing but the trait.
ghost use Rattle.std.specs.Prelude.{◌≡◌, ◌%◌, true, false, not, [], map, length, if◌then◌else◌, ◌==◌, nat_eq, slice_index, slice_index_or};
ghost use Rattle.std.specs.Char.{to_ascii_lowercase};
ghost use Rattle.keep_first.specs.Equivalences.{same_by_number};

use crate::{Roll, count, keep_first, standing};

#[derive(Drop)]
struct Mail<'a> {
    to: &'a [&'a [u8]],
}

// Byte k of text i, or 0 where there is none.
fn byte(mail: &Mail<'_>, i: usize, k: usize) -> u8
    ensures { result ≡ slice_index (slice_index_or (map (λ t. t.now) mail.now.to.now) i []) k }
{
    let byte = mail.to.get(i).and_then(|text| text.get(k));
    byte.copied().unwrap_or(0)
}

// Texts with the same initial are the same, in whatever case, and one that has `<` after one letter and a blank is preferred.
#[derive(Drop)]
struct Initials;

impl Roll<Mail<'_>, ()> for Initials {
    ghost classes = { λ _ mail _. record { count = length mail.to.now; takes = λ _. true; same = λ i j. (to_ascii_lowercase (slice_index (slice_index_or (map (λ t. t.now) mail.to.now) i []) 0) == to_ascii_lowercase (slice_index (slice_index_or (map (λ t. t.now) mail.to.now) j []) 0)) } };

    ghost preferred = { λ _ mail _ i. (slice_index (slice_index_or (map (λ t. t.now) mail.to.now) i []) 2 == 60) };

    ghost alike = { λ _ mail _. same_by_number (λ i. to_ascii_lowercase (slice_index (slice_index_or (map (λ t. t.now) mail.to.now) i []) 0)) };

    fn len(&self, mail: &Mail<'_>, _source: &()) -> usize {
        mail.to.len()
    }

    fn takes_part(&self, _mail: &Mail<'_>, _source: &(), _i: usize) -> bool {
        true
    }

    fn is_same(&self, mail: &Mail<'_>, _source: &(), i: usize, j: usize) -> bool {
        byte(mail, i, 0).to_ascii_lowercase() == byte(mail, j, 0).to_ascii_lowercase()
    }

    fn is_preferred(&self, mail: &Mail<'_>, _source: &(), i: usize) -> bool {
        byte(mail, i, 2) == b'<'
    }
}

#[derive(Drop)]
struct Numbers<'a> {
    all: &'a [u32],
}

fn number(numbers: &Numbers<'_>, i: usize) -> u32
    ensures { result ≡ slice_index numbers.now.all.now i }
{
    numbers.all.get(i).copied().unwrap_or(0)
}

fn remainder(n: u32, by: u32) -> u32
    ensures { result ≡ (if nat_eq by 0 then n else n % by) }
{
    if by == 0 { n } else { n % by }
}

// Numbers with the same remainder by the source are the same, 0 takes no part, and none is preferred.
#[derive(Drop)]
struct Remainders;

impl Roll<Numbers<'_>, u32> for Remainders {
    ghost classes = { λ _ numbers by. record { count = length numbers.all.now; takes = λ i. not (slice_index numbers.all.now i == 0); same = λ i j. ((if nat_eq by 0 then slice_index numbers.all.now i else slice_index numbers.all.now i % by) == (if nat_eq by 0 then slice_index numbers.all.now j else slice_index numbers.all.now j % by)) } };

    ghost preferred = { λ _ _ _ _. false };

    ghost alike = { λ _ numbers by. same_by_number (λ i. (if nat_eq by 0 then slice_index numbers.all.now i else slice_index numbers.all.now i % by)) };

    fn len(&self, numbers: &Numbers<'_>, _by: &u32) -> usize {
        numbers.all.len()
    }

    fn takes_part(&self, numbers: &Numbers<'_>, _by: &u32, i: usize) -> bool {
        number(numbers, i) != 0
    }

    fn is_same(&self, numbers: &Numbers<'_>, by: &u32, i: usize, j: usize) -> bool {
        remainder(number(numbers, i), *by) == remainder(number(numbers, j), *by)
    }

    fn is_preferred(&self, _numbers: &Numbers<'_>, _by: &u32, _i: usize) -> bool {
        false
    }
}

#[test]
fn preferred_stands_at_the_first_place(rt: HostRuntime) {
    let mail = Mail {
        to: &[b"p@y", b"q@y", b"P <p@y>"],
    };
    let mut slots = [7; 4];
    assert_eq!(rt; keep_first(&Initials, &mail, &(), &mut slots), Some(2));
    assert_eq!(rt; slots, [2, 1, 7, 7]);
    assert_eq!(rt; standing(&Initials, &mail, &(), 0), Some(2));
    assert_eq!(rt; standing(&Initials, &mail, &(), 2), None);
}

#[test]
fn too_few_slots_are_left_alone(rt: HostRuntime) {
    let mail = Mail {
        to: &[b"p@y", b"q@y", b"P <p@y>"],
    };
    let mut slots = [7; 2];
    assert_eq!(rt; keep_first(&Initials, &mail, &(), &mut slots), None);
    assert_eq!(rt; slots, [7, 7]);
}

#[test]
fn source_decides(rt: HostRuntime) {
    let numbers = Numbers {
        all: &[5, 0, 8, 3, 6],
    };
    let mut slots = [9; 5];
    assert_eq!(rt; keep_first(&Remainders, &numbers, &3, &mut slots), Some(2));
    assert_eq!(rt; slots, [0, 3, 9, 9, 9]);
    assert_eq!(rt; keep_first(&Remainders, &numbers, &4, &mut slots), Some(4));
    assert_eq!(rt; slots, [0, 2, 3, 4, 9]);
}

#[test]
fn counts_what_is_kept(rt: HostRuntime) {
    let numbers = Numbers {
        all: &[5, 0, 8, 3, 6],
    };
    assert_eq!(rt; count(&Remainders, &numbers, &3), 2);
}
