//! Laws of tokens: what each body has, and what it can't have beside that.
ghost use Rattle.pj_lex.specs.Laws.{OneList, TokensOrBreak, NoTokensWithABreak, OneBreak};

/// A body has its tokens in one way.
pub fn one_list()
    ensures { OneList }
{}

/// A body has tokens, or it breaks.
pub fn tokens_or_break()
    ensures { TokensOrBreak }
{}

/// A body that breaks has no tokens.
pub fn no_tokens_with_a_break()
    ensures { NoTokensWithABreak }
{}

/// A body breaks at one offset.
pub fn one_break()
    ensures { OneBreak }
{}
