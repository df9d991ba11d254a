// What is asked before a call answers.
ghost use Rattle.std.specs.Prelude.{◌≡◌};
ghost use Rattle.email_router.specs.Door.{paired, not_too_long, asked};

use crate::fault::{Incoming, Person, RouterFault};
use address::check_text;
use roll::{check_roll, check_texts};

/// An author or a bot has at most so many bytes.
const LONGEST_TEXT: usize = 998;

/// One for each candidate there can be.
pub(crate) const SLOTS_NEEDED: usize = 9249;

/// A fault, with the argument that it is of.
fn of<A, E>(argument: A, told: Result<(), E>) -> Result<(), (A, E)>
where
    A: Drop,
    ensures { result ≡ paired argument told }
{
    told.map_err(|fault| (argument, fault))
}

fn check_length(person: Person, text: &[u8]) -> Result<(), RouterFault>
    ensures { result ≡ not_too_long person text.now }
{
    if text.len() > LONGEST_TEXT {
        return Err(RouterFault::TooLong(person, LONGEST_TEXT));
    }
    Ok(())
}

/// Refuses a call with its first fault, all but that of the tray.
pub(crate) fn check(
    to: &[u8],
    cc: &[u8],
    author: &[u8],
    bot: &[u8],
    scratch: &[u16],
) -> Result<(), RouterFault>
    ensures { result ≡ asked to.now cc.now author.now bot.now scratch.now }
{
    of(Incoming::To, check_roll(to))?;
    of(Incoming::Cc, check_roll(cc))?;
    check_length(Person::Author, author)?;
    check_length(Person::Bot, bot)?;
    of(Incoming::To, check_texts(to))?;
    of(Incoming::Cc, check_texts(cc))?;
    of(Person::Author, check_text(author))?;
    of(Person::Bot, check_text(bot))?;
    if scratch.len() < SLOTS_NEEDED {
        return Err(RouterFault::Scratch(SLOTS_NEEDED));
    }
    Ok(())
}
