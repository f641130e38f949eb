//! Laws over the definitions of this crate. Each function does nothing: its clause is the law.
ghost use Rattle.pj_legal.specs.Joining.{SessionSharesGoOn, WorkerSharesGoOn, SharesAreLegal};
ghost use Rattle.pj_legal.specs.Laws.{RunsAreLegal, CutRunsAreLegal, RunGoesOn};
ghost use Rattle.pj_legal.specs.Laws.{TextsGoOn, NamesAreUnique};
ghost use Rattle.pj_legal.specs.Laws.{OneBodyReading, BodyReadOrNot, BodyBoundOrRefused, OneBodyBound};
ghost use Rattle.pj_legal.specs.Laws.{NoBoundBodyIsRefused, OneBodyRefusal};
ghost use Rattle.pj_legal.specs.Laws.{HistoryRefusesNoBody, PortRefusesNoBody};
ghost use Rattle.pj_legal.specs.Laws.{TextsTellNumbers, LegalRepliesArePlain, NoDamageWhereTold};
ghost use Rattle.pj_legal.specs.Laws.{RepliesAreToldApart, AnnouncementsAreToldApart};
ghost use Rattle.pj_legal.specs.FixedReplies.{TextFixesReply, TextFixesReplies};

/// What one thread leaves that runs a script's statements in their order is a legal history.
pub fn runs_are_legal()
    ensures { RunsAreLegal }
{}

/// What one thread leaves that stopped behind one of a script's statements is a legal history of the script
/// up to that statement.
pub fn cut_runs()
    ensures { CutRunsAreLegal }
{}

/// A session's share of a history holds in each longer one that has no further entry of the session.
pub fn session_shares_go_on()
    ensures { SessionSharesGoOn }
{}

/// A worker's share of a history holds in each longer one that has no further entry of the worker.
pub fn worker_shares_go_on()
    ensures { WorkerSharesGoOn }
{}

/// Legality is the conjunction of shares, each of which may hold in a prefix of the history alone.
pub fn shares_are_legal()
    ensures { SharesAreLegal }
{}

/// A run goes on by one more statement.
pub fn run_goes_on()
    ensures { RunGoesOn }
{}

/// The text of one more reply stands behind those of the others.
pub fn texts_go_on()
    ensures { TextsGoOn }
{}

/// No two tables of a regular history have one name.
pub fn names_are_unique()
    ensures { NamesAreUnique }
{}

/// A body is read as one statement at most.
pub fn one_body_reading()
    ensures { OneBodyReading }
{}

/// A body is read as a statement, or can't be read.
pub fn body_read_or_not()
    ensures { BodyReadOrNot }
{}

/// A body binds, or is refused.
pub fn body_bound_or_refused()
    ensures { BodyBoundOrRefused }
{}

/// A body binds in one way at most.
pub fn one_body_bound()
    ensures { OneBodyBound }
{}

/// A body that binds isn't refused.
pub fn no_bound_body_is_refused()
    ensures { NoBoundBodyIsRefused }
{}

/// A body is refused in one way at most, with one cause and at one offset.
pub fn one_body_refusal()
    ensures { OneBodyRefusal }
{}

/// No body is refused since the journal is full.
pub fn history_refuses_no_body()
    ensures { HistoryRefusesNoBody }
{}

/// No body is refused since a port failed or since a granule is damaged: such a statement binds.
pub fn port_refuses_no_body()
    ensures { PortRefusesNoBody }
{}

/// A number of 64 bits has one text in decimal.
pub fn texts_tell_numbers()
    ensures { TextsTellNumbers }
{}

/// No name that a reply of a legal history gives has a line feed: it is a word of the statement's body.
pub fn legal_replies_are_plain()
    ensures { LegalRepliesArePlain }
{}

/// Where blobs tell their bytes, no legal reply tells of a damaged granule.
pub fn no_damage_where_told()
    ensures { NoDamageWhereTold }
{}

/// A reader of replies can tell them apart: the line and the session's name are read from a text that begins
/// with a reply, and so is what it announces, where the name that a refusal gives has no line feed.
pub fn replies_are_told_apart()
    ensures { RepliesAreToldApart }
{}

/// What a reply announces tells of which kind it is, and a refusal with its name or offset.
pub fn announcements_are_told_apart()
    ensures { AnnouncementsAreToldApart }
{}

/// A reader of replies who knows the kinds of the columns that a reply may have reads the reply itself from a
/// text that begins with it: its rows value by value, or its refusal, and where the text behind it begins.
pub fn text_fixes_reply()
    ensures { TextFixesReply }
{}

/// Two lists of replies that are both legal for one script and one history, and have one text, are equal: the
/// kinds of the columns come from the statements, or are known otherwise where blobs don't tell their bytes.
pub fn text_fixes_replies()
    ensures { TextFixesReplies }
{}
