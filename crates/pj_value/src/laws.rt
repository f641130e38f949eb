//! Laws of summaries and of their bytes. Each is the contract of a function that does nothing.
ghost use Rattle.pj_value.specs.NumberBytes.{BytesAreOfTheirNumber, NumbersAreOfTheirBytes};
ghost use Rattle.pj_value.specs.SummaryLaws.{OneSummary, EachHasOne, OrderIsFree, JoinedStand};
ghost use Rattle.pj_value.specs.SummaryLaws.{FinishedIsTheAggregate, StandingIsASummary, BytesTellApart};

/// Bytes are the bytes of their number.
pub fn bytes_are_of_their_number()
    ensures { BytesAreOfTheirNumber }
{}

/// A number that so many bytes can be is that of its bytes.
pub fn numbers_are_of_their_bytes()
    ensures { NumbersAreOfTheirBytes }
{}

/// Under each aggregate values have one summary, and no other.
pub fn values_have_one_summary()
    ensures one { OneSummary }
    ensures some { EachHasOne }
{}

/// A summary stands for values in any order.
pub fn summaries_ignore_the_order()
    ensures { OrderIsFree }
{}

/// What stands for two lists, one behind the other, depends on their summaries alone.
pub fn summaries_join()
    ensures { JoinedStand }
{}

/// A summary is finished to the aggregate of the values that it stands for.
pub fn summaries_finish()
    ensures { FinishedIsTheAggregate }
{}

/// What stands for values that code can hold is a summary that code can hold.
pub fn standing_is_a_summary()
    ensures { StandingIsASummary }
{}

/// The bytes of a state tell its summary.
pub fn bytes_tell_summaries_apart()
    ensures { BytesTellApart }
{}
