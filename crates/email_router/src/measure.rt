// Working out an answer's sizes, with nothing written.
ghost use Rattle.std.specs.Prelude.{◌≡◌, ◌*◌, ◌≤◌};
ghost use Rattle.mail.specs.Rolls.{mailed};
ghost use Rattle.email_router.specs.Actions.{sent_to, size_of, action_of, part_size, action_size};
ghost use Rattle.email_router.specs.Bounds.{Small, SmallAction};

use crate::action::{Action, Size};
use crate::chosen::Recipients;
use address::trim;
use email_policy::PositiveReviewPolicy;
use keep_first::{Roll, standing};
use mail::{Candidates, Mail, Mailboxes};

/// The size of the roll that these candidates make.
fn measure(roll: &Candidates<'_>, mail: &Mail<'_, '_>, added: &Mailboxes<'_, '_>) -> Size
    ensures size { result ≡ size_of (mailed roll.now mail.now added.now) }
    ensures small { Small result }
{
    let mut texts = 0;
    let mut bytes = 0;
    // by number: `standing` is asked of a place
    for i in 0..roll.takes.len() {
        if let Some(place) = standing(roll, mail, added, i) {
            texts += 1;
            bytes += 2 + trim(roll.text(&*mail, &*added, place)).len();
        }
    }
    Size { texts, bytes }
}

/// The answer that mails these recipients: mute where there are none.
pub(crate) fn answer(
    mail: &Mail<'_, '_>,
    recipients: &Recipients<'_, '_, '_>,
    positive_review: PositiveReviewPolicy,
) -> Action
    ensures action { result ≡ action_of (sent_to recipients.now mail.now) positive_review }
    ensures small { SmallAction result }
{
    let to = measure(&recipients.to, mail, &recipients.added);
    let cc = measure(&recipients.cc, mail, &recipients.added);
    if to.texts + cc.texts == 0 {
        return Action::Mute;
    }
    Action::Send {
        to,
        cc,
        positive_review,
    }
}

/// The bytes of a roll of this size; an empty one is left out.
fn part_len(size: Size) -> usize
    requires { Small size }
    ensures { result ≡ part_size size }
{
    if size.texts == 0 { 0 } else { 2 + size.bytes }
}

/// The length of the answer's envelope.
pub(crate) fn action_len(action: Action) -> usize
    requires { SmallAction action }
    ensures { result ≡ action_size action }
{
    match action {
        Action::Mute => 1,
        Action::Send { to, cc, .. } => 1 + (part_len(to) + part_len(cc)),
    }
}
