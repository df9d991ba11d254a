// What the definitions promise, each held by a function's contract.
ghost use Rattle.email_router.specs.Opened.{Opens, OpensPositive, TrayTells, AnswersApart};

/// An answer is read back from its bytes, whatever stands behind them, so that a tray tells the answer that was written
/// to it and two answers never have the same bytes.
pub fn envelopes_stand()
    ensures opens { Opens }
    ensures positive { OpensPositive }
    ensures tray { TrayTells }
    ensures apart { AnswersApart }
{}
