// The choice itself.
ghost use Rattle.std.specs.Prelude.{◌≡◌, ◌+◌, ◌≤◌, ◌∷◌, map, length};
ghost use Rattle.audience.specs.Rules.{names};
ghost use Rattle.audience.specs.Answers.{sent, first_answer, positive_answer};
ghost use Rattle.audience.specs.Known.{known_domain};
ghost use Rattle.mail.specs.Letters.{letter, texts};
ghost use Rattle.mail.specs.Marks.{marked};
ghost use Rattle.mail.specs.Parts.{Short, text_in};
ghost use Rattle.grants.specs.Rules.{keys_of, grant_by};
ghost use Rattle.recipients.specs.Choices.{listed_by, to_marks, cc_marks};
ghost use Rattle.email_router.specs.Chosen.{Named, sent_rank, individuals, answer_action, author_alone, packed};
ghost use Rattle.email_router.specs.Door.{slots_needed};
ghost use Rattle.email_router.specs.Envelope.{pack_sent, pack_answer, pack_positive};
ghost use Rattle.email_router.specs.Given.{given, answered};

use crate::action::Action;
use crate::chosen::Recipients;
use crate::envelope::{deliver, deliver_nothing};
use crate::fault::RouterFault;
use crate::measure::answer;
use arrayvec::ArrayVec;
use email_policy::{PolicySource, PositiveReviewPolicy};
use grants::{
    Grant, MOST_ADDED, MOST_LISTS, Pass, find_named, find_replying, find_terms, gather_cc,
    is_shut_out, read_keys,
};
use mail::{Candidates, Mail, Mailbox, Mailboxes};
use recipients::{MOST_CC, MOST_TO, Policies};

/// The merged rank, or nothing where the author is shut out or a governing policy mutes.
fn merged_rank<S: PolicySource>(
    source: &S,
    mail: &Mail<'_, '_>,
    named: &[bool],
) -> Option<PositiveReviewPolicy>
    requires { named.now ≡ map (names (letter mail.now)) (S.meaning source.now).lists }
    ensures { result ≡ sent_rank (S.meaning source.now) (letter mail.now) }
{
    if is_shut_out(source, mail) {
        return None;
    }
    let terms = find_terms(source, named, Pass::First);
    if terms.mute_all {
        return None;
    }
    Some(terms.positive_review)
}

/// The tables of a grant: its cc texts, and who takes part in To and in Cc.
#[derive(Drop)]
struct Tables<'s> {
    added: ArrayVec<Mailbox<'s>, MOST_ADDED>,
    to: ArrayVec<bool, MOST_TO>,
    cc: ArrayVec<bool, MOST_CC>,
}

/// What the policies grant the mail, in tables. The marks say which lists are named.
fn choose<'s, S: PolicySource>(
    source: &'s S,
    mail: &Mail<'_, '_>,
    keys: &Mailboxes<'_, '_>,
    named: &[bool],
    pass: Pass,
) -> Tables<'s>
    requires { texts keys.now ≡ keys_of (S.meaning source.now) }
    ensures short { Short result.added.items }
    ensures added { map text_in result.added.items ≡ (grant_by pass named.now (S.meaning source.now)).cc }
    ensures to { result.to.items ≡ to_marks (keys_of (S.meaning source.now)) (letter mail.now) (grant_by pass named.now (S.meaning source.now)) (individuals (keys_of (S.meaning source.now)) (letter mail.now) (grant_by pass named.now (S.meaning source.now))) }
    ensures cc { result.cc.items ≡ cc_marks (keys_of (S.meaning source.now)) (letter mail.now) (grant_by pass named.now (S.meaning source.now)) (individuals (keys_of (S.meaning source.now)) (letter mail.now) (grant_by pass named.now (S.meaning source.now))) (marked result.to.items ((letter mail.now).author ∷ (letter mail.now).to)) }
{
    let added = gather_cc(source, named, pass);
    let lists = find_replying(source, named, pass);
    let terms = find_terms(source, named, pass);
    let cc = Mailboxes {
        entries: added.as_slice(),
    };
    let grant = Grant {
        author: terms.author,
        recipients: terms.recipients,
        every_list: terms.every_list,
        lists: lists.as_slice(),
        cc,
    };
    let policies = Policies { keys: *keys, grant };
    let individuals = policies.grants_individuals(mail);
    let to = policies.mark_to(mail, individuals);
    let cc = policies.mark_cc(mail, individuals, to.as_slice());
    Tables { added, to, cc }
}

/// Who is mailed by the tables.
fn recipients<'t, 's>(mail: &Mail<'_, '_>, tables: &'t Tables<'s>) -> Recipients<'t, 't, 's>
    requires short { Short tables.now.added.items }
    ensures to_start { result.to.start ≡ 0 }
    ensures to { result.to.takes.now ≡ tables.now.to.items }
    ensures cc_start { result.cc.start ≡ 1 + mail.now.to }
    ensures cc { result.cc.takes.now ≡ tables.now.cc.items }
    ensures added { result.added.entries.now ≡ tables.now.added.items }
{
    Recipients {
        to: Candidates {
            start: 0,
            takes: tables.to.as_slice(),
        },
        cc: Candidates {
            start: 1 + mail.to,
            takes: tables.cc.as_slice(),
        },
        added: Mailboxes {
            entries: tables.added.as_slice(),
        },
    }
}

/// Mails whom the policies grant a review.
fn send<S: PolicySource>(
    source: &S,
    mail: &Mail<'_, '_>,
    keys: &Mailboxes<'_, '_>,
    named: &[bool],
    pass: Pass,
    rank: PositiveReviewPolicy,
    scratch: &mut [u16],
    tray: &mut [u8],
) -> Result<usize, RouterFault>
    requires keys { texts keys.now ≡ keys_of (S.meaning source.now) }
    requires slots { slots_needed ≤ length scratch.old }
    ensures { given result scratch.new tray.new ≡ answered (pack_sent (sent (listed_by (keys_of (S.meaning source.now))) (letter mail.now) (grant_by pass named.now (S.meaning source.now))) rank) scratch.old tray.old }
{
    let tables = choose(source, mail, keys, named, pass);
    let chosen = recipients(mail, &tables);
    let action = answer(mail, &chosen, rank);
    deliver(mail, &chosen, action, rank, scratch, tray)
}

/// The first answer, by its sizes.
fn first_answer<S: PolicySource>(
    source: &S,
    mail: &Mail<'_, '_>,
    keys: &Mailboxes<'_, '_>,
    named: &[bool],
) -> Action
    requires { Named (S.meaning source.now) (letter mail.now) (texts keys.now) named.now }
    ensures { result ≡ answer_action (first_answer known_domain (S.meaning source.now) (letter mail.now)) }
{
    let Some(rank) = merged_rank(source, mail, named) else {
        return Action::Mute;
    };
    let tables = choose(source, mail, keys, named, Pass::First);
    answer(mail, &recipients(mail, &tables), rank)
}

/// Mails the author alone, where there is an address that is free of the bot.
fn send_to_author(
    mail: &Mail<'_, '_>,
    keys: &Mailboxes<'_, '_>,
    scratch: &mut [u16],
    tray: &mut [u8],
) -> Result<usize, RouterFault>
    requires { slots_needed ≤ length scratch.old }
    ensures { given result scratch.new tray.new ≡ answered (pack_positive (author_alone (letter mail.now))) scratch.old tray.old }
{
    let added = Mailboxes { entries: &[] };
    let grant = Grant {
        author: true,
        recipients: false,
        every_list: false,
        lists: &[],
        cc: added,
    };
    let policies = Policies { keys: *keys, grant };
    let marks = policies.mark_to(mail, false);
    let to = Candidates {
        start: 0,
        takes: &marks.as_slice()[..1],
    };
    let cc = Candidates {
        start: 1,
        takes: &[],
    };
    let alone = Recipients { to, cc, added };
    let rank = PositiveReviewPolicy::None;
    let action = answer(mail, &alone, rank);
    deliver(mail, &alone, action, rank, scratch, tray)
}

/// Mails a review with findings.
fn first<S: PolicySource>(
    source: &S,
    mail: &Mail<'_, '_>,
    keys: &Mailboxes<'_, '_>,
    named: &[bool],
    scratch: &mut [u16],
    tray: &mut [u8],
) -> Result<usize, RouterFault>
    requires named { Named (S.meaning source.now) (letter mail.now) (texts keys.now) named.now }
    requires slots { slots_needed ≤ length scratch.old }
    ensures { given result scratch.new tray.new ≡ answered (pack_answer (first_answer known_domain (S.meaning source.now) (letter mail.now))) scratch.old tray.old }
{
    let Some(rank) = merged_rank(source, mail, named) else {
        return deliver_nothing(scratch, tray);
    };
    send(source, mail, keys, named, Pass::First, rank, scratch, tray)
}

/// Mails a review without findings.
fn positive<S: PolicySource>(
    source: &S,
    mail: &Mail<'_, '_>,
    keys: &Mailboxes<'_, '_>,
    named: &[bool],
    scratch: &mut [u16],
    tray: &mut [u8],
) -> Result<usize, RouterFault>
    requires named { Named (S.meaning source.now) (letter mail.now) (texts keys.now) named.now }
    requires slots { slots_needed ≤ length scratch.old }
    ensures { given result scratch.new tray.new ≡ answered (pack_positive (positive_answer known_domain (S.meaning source.now) (letter mail.now))) scratch.old tray.old }
{
    let Action::Send {
        positive_review,
        ..
    } = first_answer(source, mail, keys, named)
    else {
        return deliver_nothing(scratch, tray);
    };
    match positive_review {
        PositiveReviewPolicy::None => deliver_nothing(scratch, tray),
        PositiveReviewPolicy::Author => send_to_author(mail, keys, scratch, tray),
        PositiveReviewPolicy::All => send(
            source,
            mail,
            keys,
            named,
            Pass::Positive,
            PositiveReviewPolicy::None,
            scratch,
            tray,
        ),
    }
}

/// Finds the lists that the mail names, and mails the review.
pub(crate) fn resolve<S: PolicySource>(
    source: &S,
    mail: &Mail<'_, '_>,
    pass: Pass,
    scratch: &mut [u16],
    tray: &mut [u8],
) -> Result<usize, RouterFault>
    requires { slots_needed ≤ length scratch.old }
    ensures { given result scratch.new tray.new ≡ answered (packed pass (S.meaning source.now) (letter mail.now)) scratch.old tray.old }
{
    let table = read_keys(source);
    let keys = Mailboxes {
        entries: table.as_slice(),
    };
    let named: ArrayVec<bool, MOST_LISTS> = find_named(&keys, mail);
    match pass {
        Pass::First => first(source, mail, &keys, named.as_slice(), scratch, tray),
        Pass::Positive => positive(source, mail, &keys, named.as_slice(), scratch, tray),
    }
}
