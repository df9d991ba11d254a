//! What holds of every answer: each function proves the statement that its contract names.

ghost use Rattle.audience.specs.Promises.{EveryAnswerReachesTheDue, EveryPositiveWithinDue, UnnamedListsUnheard, OnlyTheNamedAreHeard, BotUnmailed, FewIsCovered, BlankIsNobody};
ghost use Rattle.audience.specs.Counterexamples.{NoneOfTheseHolds};
ghost use Rattle.audience.specs.Table.{WorkedExamples};

/// The first answer is mute only where it must be, and else mails exactly the bares due, each once.
pub fn answers_reach_the_due()
    ensures { EveryAnswerReachesTheDue }
{}

/// Under merged rank all, a positive answer mails only bares that are due.
pub fn positives_stay_within_the_due()
    ensures { EveryPositiveWithinDue }
{}

/// Of a list that the mail does not name, only its key and what it ignores are heard.
pub fn unnamed_lists_are_unheard()
    ensures { UnnamedListsUnheard }
{}

/// A list that the mail does not name may even come and go, if it ignores nothing new.
pub fn only_the_named_are_heard()
    ensures { OnlyTheNamedAreHeard }
{}

/// No answer mails the bot.
pub fn bot_is_never_mailed()
    ensures { BotUnmailed }
{}

/// There are few individuals exactly when as many texts as may be mailed cover them.
pub fn few_is_covered()
    ensures { FewIsCovered }
{}

/// A blank author text is nobody's.
pub fn blank_text_is_nobody()
    ensures { BlankIsNobody }
{}

/// Statements close to these are false.
pub fn neighbours_fail()
    ensures { NoneOfTheseHolds }
{}

/// The worked examples come out as they say.
pub fn examples_hold()
    ensures { WorkedExamples }
{}
