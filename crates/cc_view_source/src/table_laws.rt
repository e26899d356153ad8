//! The law of tables, the contract of a function that does nothing.

ghost use Rattle.cc_view_source.specs.TableLaws.{SweepsMakeTheAnswer};

/// The sweeps of the table of a function lead to its answer, and their logs put together are its
/// log.
pub fn sweeps_make_the_answer()
    ensures { SweepsMakeTheAnswer }
{}
