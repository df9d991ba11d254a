// The two public calls.
ghost use Rattle.std.specs.Prelude.{◌≡◌};
ghost use Rattle.email_policy.specs.Policy.{Policy};
ghost use Rattle.audience.specs.Known.{known_domain};
ghost use Rattle.audience.specs.Promises.{ReachesTheDue, PositiveWithinDue, Alike};
ghost use Rattle.email_router.specs.Given.{given, mail_of, first_given, positive_given, given_by};

use crate::door::check;
use crate::fault::RouterFault;
use crate::resolve::resolve;
use email_policy::PolicySource;
use grants::Pass;
use mail::{Mail, Mailbox, read_people};
use roll::Roll;

/// Asks the questions, reads the mail, and mails the review.
fn resolve_for<'m, S: PolicySource>(
    source: &S,
    to: &'m [u8],
    cc: &'m [u8],
    author: &'m [u8],
    bot: &'m [u8],
    pass: Pass,
    scratch: &mut [u16],
    tray: &mut [u8],
) -> Result<usize, RouterFault>
    ensures { given result scratch.new tray.new ≡ given_by to.now cc.now author.now bot.now (S.meaning source.now) scratch.old tray.old pass }
{
    check(to, cc, author, bot, scratch)?;
    let to = Roll::new(to);
    let cc = Roll::new(cc);
    let people = read_people(author, &to, &cc);
    let mail = Mail {
        people: people.as_slice(),
        to: to.len(),
        bot: Mailbox::new(bot),
    };
    resolve(source, &mail, pass, scratch, tray)
}

/// Who is mailed a review of a mail with these To and Cc rolls, author and bot. The answer is written to the front of the
/// tray as an envelope, whose length is returned, and every slot of the scratch is left 0. A refusal names the first fault
/// and leaves scratch and tray as they were.
pub fn resolve_recipients<S: PolicySource>(
    source: &S,
    to: &[u8],
    cc: &[u8],
    author: &[u8],
    bot: &[u8],
    scratch: &mut [u16],
    tray: &mut [u8],
) -> Result<usize, RouterFault>
    ensures given { given result scratch.new tray.new ≡ first_given to.now cc.now author.now bot.now (S.meaning source.now) scratch.old tray.old }
    ensures due { ReachesTheDue known_domain (S.meaning source.now) (mail_of to.now cc.now author.now bot.now) }
    ensures unheard { (q : Policy) → Alike (mail_of to.now cc.now author.now bot.now) (S.meaning source.now) q → first_given to.now cc.now author.now bot.now (S.meaning source.now) scratch.old tray.old ≡ first_given to.now cc.now author.now bot.now q scratch.old tray.old }
{
    resolve_for(source, to, cc, author, bot, Pass::First, scratch, tray)
}

/// Who is mailed a review without findings, under the same questions. The envelope has no rank, and nobody is the byte 0.
pub fn resolve_positive_recipients<S: PolicySource>(
    source: &S,
    to: &[u8],
    cc: &[u8],
    author: &[u8],
    bot: &[u8],
    scratch: &mut [u16],
    tray: &mut [u8],
) -> Result<usize, RouterFault>
    ensures given { given result scratch.new tray.new ≡ positive_given to.now cc.now author.now bot.now (S.meaning source.now) scratch.old tray.old }
    ensures due { PositiveWithinDue known_domain (S.meaning source.now) (mail_of to.now cc.now author.now bot.now) }
    ensures unheard { (q : Policy) → Alike (mail_of to.now cc.now author.now bot.now) (S.meaning source.now) q → positive_given to.now cc.now author.now bot.now (S.meaning source.now) scratch.old tray.old ≡ positive_given to.now cc.now author.now bot.now q scratch.old tray.old }
{
    resolve_for(source, to, cc, author, bot, Pass::Positive, scratch, tray)
}
