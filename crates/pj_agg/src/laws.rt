//! Laws of states. Each is the contract of a function that does nothing.
ghost use Rattle.pj_agg.specs.StateLaws.{EachStandsForValues, BytesTellSummary};
ghost use Rattle.pj_agg.specs.StateLaws.{LeastIsLeast, NoLeastOfNone, GreatestIsGreatest, NoGreatestOfNone};
ghost use Rattle.pj_agg.specs.StateLaws.{JoiningCommutes, JoiningAssociates, EqualValuesFinishAlike};

/// Each summary that code can hold stands for values that code can hold.
pub fn summaries_stand_for_values()
    ensures { EachStandsForValues }
{}

/// What is kept under `min` is the least of the values, and none only where there are none.
pub fn least_is_least()
    ensures some { LeastIsLeast }
    ensures none { NoLeastOfNone }
{}

/// What is kept under `max` is the greatest of the values, and none only where there are none.
pub fn greatest_is_greatest()
    ensures some { GreatestIsGreatest }
    ensures none { NoGreatestOfNone }
{}

/// The order in which states are joined makes no difference.
pub fn joins_ignore_the_order()
    ensures commute { JoiningCommutes }
    ensures associate { JoiningAssociates }
    ensures alike { EqualValuesFinishAlike }
{}

/// Bytes tell their summary, among those of one aggregate and kind.
pub fn bytes_tell_their_summary()
    ensures { BytesTellSummary }
{}
