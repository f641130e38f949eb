//! What legality says of histories that are written out (specs/Examples.antt). Each of these functions does
//! nothing: its clause is what is tested.
ghost use Rattle.server_tests.specs.Examples.{AnotherSessionMoves, WorkerDisturbsNothing, NeverEnds};
ghost use Rattle.server_tests.specs.Examples.{NeverCommits, NoReplyAtTheStart, NotOnesOwn};
ghost use Rattle.server_tests.specs.Examples.{NotFullWithRoomLeft, FullWithNoRoomLeft};

use std::test::Fail;

fn another_session_may_move_between()
    ensures { AnotherSessionMoves }
{}

fn a_worker_disturbs_no_session()
    ensures { WorkerDisturbsNothing }
{}

fn a_statement_may_never_end()
    ensures { NeverEnds }
{}

fn a_statement_that_never_ends_commits_nothing()
    ensures { NeverCommits }
{}

fn no_reply_stands_where_its_statement_began()
    ensures { NoReplyAtTheStart }
{}

fn an_entry_of_another_session_is_not_ones_own()
    ensures { NotOnesOwn }
{}

fn no_journal_is_full_with_room_left()
    ensures { NotFullWithRoomLeft }
{}

fn a_journal_is_full_with_no_room_left()
    ensures { FullWithNoRoomLeft }
{}

#[test]
fn histories_that_are_written_out(_rt: HostRuntime) -> Result<(), Fail> {
    another_session_may_move_between();
    a_worker_disturbs_no_session();
    a_statement_may_never_end();
    a_statement_that_never_ends_commits_nothing();
    no_reply_stands_where_its_statement_began();
    an_entry_of_another_session_is_not_ones_own();
    no_journal_is_full_with_room_left();
    a_journal_is_full_with_no_room_left();
    Ok(())
}
