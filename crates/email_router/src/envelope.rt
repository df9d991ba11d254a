// Writing an answer into the tray.
ghost use Rattle.std.specs.Prelude.{◌≡◌, ℕ, ◌+◌, ◌<◌, ◌≤◌, map, length, replicate};
ghost use Rattle.address.specs.Text.{trimmed};
ghost use Rattle.roll.specs.Packing.{pack_texts};
ghost use Rattle.roll.specs.Written.{written};
ghost use Rattle.email_policy.specs.Packing.{pack_part};
ghost use Rattle.mail.specs.Rolls.{text_at, roll_texts, mailed};
ghost use Rattle.email_router.specs.Actions.{sent_to, action_of};
ghost use Rattle.email_router.specs.Bounds.{SmallAction};
ghost use Rattle.email_router.specs.Door.{slots_needed};
ghost use Rattle.email_router.specs.Envelope.{rank_bits, send_map, nothing, pack_sent};
ghost use Rattle.email_router.specs.Given.{given, answered};

use crate::action::Action;
use crate::chosen::Recipients;
use crate::fault::RouterFault;
use crate::measure::action_len;
use address::trim;
use email_policy::PositiveReviewPolicy;
use keep_first::{Roll, keep_first};
use mail::{Candidates, Mail, Mailboxes};
use roll::{write_text, write_word};

/// Writes the texts at these places of a roll, trimmed, one after another, and gives the place after them.
fn write_texts(
    roll: &Candidates<'_>,
    mail: &Mail<'_, '_>,
    added: &Mailboxes<'_, '_>,
    places: &[u16],
    tray: &mut [u8],
    at: usize,
) -> usize
    requires room { at + length (pack_texts (map (λ i. trimmed (text_at (roll_texts roll.now mail.now added.now) i)) places.now)) ≤ length tray.old }
    ensures end { result ≡ at + length (pack_texts (map (λ i. trimmed (text_at (roll_texts roll.now mail.now added.now) i)) places.now)) }
    ensures tray { tray.new ≡ written tray.old at (pack_texts (map (λ i. trimmed (text_at (roll_texts roll.now mail.now added.now) i)) places.now)) }
{
    let mut end = at;
    for place in places {
        let text = trim(roll.text(&*mail, &*added, *place as usize));
        if let Some(next) = write_text(tray, end, text) {
            end = next;
        }
    }
    end
}

/// Writes the roll that these candidates make, unless it is empty, and gives the place after it. The slots hold its places
/// while it is written.
fn write_part(
    roll: &Candidates<'_>,
    mail: &Mail<'_, '_>,
    added: &Mailboxes<'_, '_>,
    slots: &mut [u16],
    tray: &mut [u8],
    at: usize,
) -> usize
    requires slots { slots_needed ≤ length slots.old }
    requires room { at + length (pack_part (mailed roll.now mail.now added.now)) ≤ length tray.old }
    ensures end { result ≡ at + length (pack_part (mailed roll.now mail.now added.now)) }
    ensures tray { tray.new ≡ written tray.old at (pack_part (mailed roll.now mail.now added.now)) }
{
    let Some(count) = keep_first(roll, mail, added, slots) else {
        return at;
    };
    if count == 0 {
        return at;
    }
    let Some(first) = write_word(tray, at, count) else {
        return at;
    };
    let held = &slots[..];
    write_texts(roll, mail, added, &held[0..count], tray, first)
}

fn rank_bits(rank: PositiveReviewPolicy) -> u8
    ensures value { result ≡ rank_bits rank }
    ensures small { result ≤ 16 }
{
    match rank {
        PositiveReviewPolicy::None => 0,
        PositiveReviewPolicy::Author => 8,
        PositiveReviewPolicy::All => 16,
    }
}

/// The bit map of a Send.
fn send_map(to: bool, cc: bool, rank: PositiveReviewPolicy) -> u8
    ensures { result ≡ send_map to cc rank }
{
    let to = if to { 2 } else { 0 };
    let cc = if cc { 4 } else { 0 };
    1 + (to + (cc + rank_bits(rank)))
}

/// Writes the answer to the front of the tray.
fn write_action(
    mail: &Mail<'_, '_>,
    recipients: &Recipients<'_, '_, '_>,
    action: Action,
    rank: PositiveReviewPolicy,
    slots: &mut [u16],
    tray: &mut [u8],
)
    requires action { action ≡ action_of (sent_to recipients.now mail.now) rank }
    requires slots { slots_needed ≤ length slots.old }
    requires room { length (pack_sent (sent_to recipients.now mail.now) rank) ≤ length tray.old }
    ensures { tray.new ≡ written tray.old 0 (pack_sent (sent_to recipients.now mail.now) rank) }
{
    match action {
        Action::Mute => {
            tray[0] = 0;
        }
        Action::Send { to, cc, .. } => {
            tray[0] = send_map(to.texts > 0, cc.texts > 0, rank);
            let next = write_part(&recipients.to, mail, &recipients.added, slots, tray, 1);
            write_part(&recipients.cc, mail, &recipients.added, slots, tray, next);
        }
    }
}

/// Sets every slot to 0.
fn clear(slots: &mut [u16])
    ensures { slots.new ≡ replicate (length slots.old) 0 }
{
    slots.fill(0);
}

/// Writes the answer to the front of the tray and leaves every slot 0. Where the tray is too short, nothing is changed: the
/// length was worked out before the first slot is written.
pub(crate) fn deliver(
    mail: &Mail<'_, '_>,
    recipients: &Recipients<'_, '_, '_>,
    action: Action,
    rank: PositiveReviewPolicy,
    scratch: &mut [u16],
    tray: &mut [u8],
) -> Result<usize, RouterFault>
    requires action { action ≡ action_of (sent_to recipients.now mail.now) rank }
    requires small { SmallAction action }
    requires slots { slots_needed ≤ length scratch.old }
    ensures { given result scratch.new tray.new ≡ answered (pack_sent (sent_to recipients.now mail.now) rank) scratch.old tray.old }
{
    let len = action_len(action);
    if tray.len() < len {
        return Err(RouterFault::Tray(len));
    }
    write_action(mail, recipients, action, rank, scratch, tray);
    clear(scratch);
    Ok(len)
}

/// Writes that nobody is mailed.
pub(crate) fn deliver_nothing(scratch: &mut [u16], tray: &mut [u8]) -> Result<usize, RouterFault>
    ensures { given result scratch.new tray.new ≡ answered nothing scratch.old tray.old }
{
    if tray.is_empty() {
        return Err(RouterFault::Tray(1));
    }
    tray[0] = 0;
    clear(scratch);
    Ok(1)
}
