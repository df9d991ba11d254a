//! Keeps the first of each class of like places, with the first preferred one of the class in its place.
#![tactic(auto)]

ghost use Rattle.std.specs.Prelude.{◌≡◌, ◌&&◌, length};
ghost use Rattle.keep_first.specs.Model.{has_earlier, is_first, kept, stand_in_from, standing_at, kept_count, kept_slots};

mod laws;
mod roll;
#[cfg(test)]
mod tests;

pub use laws::{firsts_keep, keep_first_commutes, keep_first_keeps, stand_in_stands};
pub use roll::Roll;

// Whether place j takes part and is the same as i.
fn is_match<C, S, R: Roll<C, S>>(roll: &R, texts: &C, source: &S, i: usize, j: usize) -> bool
    ensures { result ≡ ((R.classes roll.now texts.now source.now).takes j && (R.classes roll.now texts.now source.now).same j i) }
{
    roll.takes_part(texts, source, j) && roll.is_same(texts, source, j, i)
}

// Whether a place before i that takes part is the same.
fn has_earlier<C, S, R: Roll<C, S>>(roll: &R, texts: &C, source: &S, i: usize) -> bool
    ensures { result ≡ has_earlier (R.classes roll.now texts.now source.now) i }
{
    (0..i).any(|j| is_match(roll, texts, source, i, j))
}

// Whether place i takes part and is the first of its class.
fn is_first<C, S, R: Roll<C, S>>(roll: &R, texts: &C, source: &S, i: usize) -> bool
    ensures { result ≡ is_first (R.classes roll.now texts.now source.now) i }
{
    roll.takes_part(texts, source, i) && !has_earlier(roll, texts, source, i)
}

/// How many places are kept, found without a slot. The preference does not matter for the number.
pub fn count<C, S, R: Roll<C, S>>(roll: &R, texts: &C, source: &S) -> usize
    ensures { result ≡ length (kept (R.classes roll.now texts.now source.now) (R.preferred roll.now texts.now source.now)) }
{
    (0..roll.len(texts, source))
        .filter(|i| is_first(roll, texts, source, *i))
        .count()
}

// Whether place j takes part, is the same as i and is preferred.
fn may_stand<C, S, R: Roll<C, S>>(roll: &R, texts: &C, source: &S, i: usize, j: usize) -> bool
    ensures { result ≡ ((R.classes roll.now texts.now source.now).takes j && ((R.classes roll.now texts.now source.now).same i j && R.preferred roll.now texts.now source.now j)) }
{
    roll.takes_part(texts, source, j)
        && roll.is_same(texts, source, i, j)
        && roll.is_preferred(texts, source, j)
}

// The first place from i on that may stand at i, or else i. None before a first place is the same, so none is asked.
fn stand_in<C, S, R: Roll<C, S>>(roll: &R, texts: &C, source: &S, i: usize) -> usize
    ensures { result ≡ stand_in_from (R.classes roll.now texts.now source.now) (R.preferred roll.now texts.now source.now) i }
{
    (i..roll.len(texts, source))
        .find(|j| may_stand(roll, texts, source, i, *j))
        .unwrap_or(i)
}

/// The place of what is kept at place `i`: nothing where `i` takes no part or is not the first of its class.
/// A place past the last is answered as the roll answers for it; `keep_first` asks of none.
pub fn standing<C, S, R: Roll<C, S>>(roll: &R, texts: &C, source: &S, i: usize) -> Option<usize>
    ensures { result ≡ standing_at (R.classes roll.now texts.now source.now) (R.preferred roll.now texts.now source.now) i }
{
    is_first(roll, texts, source, i).then(|| stand_in(roll, texts, source, i))
}

/// Writes the places that are kept into the first slots, and returns how many they are. Refused, with the slots as
/// they were, where there are more places than slots, or than a `u16` can number.
pub fn keep_first<C, S, R: Roll<C, S>>(
    roll: &R,
    texts: &C,
    source: &S,
    slots: &mut [u16],
) -> Option<usize>
    ensures answer { result ≡ kept_count (R.classes roll.now texts.now source.now) (R.preferred roll.now texts.now source.now) slots.old }
    ensures state { slots.new ≡ kept_slots (R.classes roll.now texts.now source.now) (R.preferred roll.now texts.now source.now) slots.old }
{
    let count = roll.len(texts, source);
    if count > slots.len() || count > 65536 {
        return None;
    }
    let mut filled = 0;
    // by number: the slots keep the numbers of the items
    for i in 0..count {
        if let Some(place) = standing(roll, texts, source, i) {
            slots[filled] = place as u16;
            filled += 1;
        }
    }
    Some(filled)
}
