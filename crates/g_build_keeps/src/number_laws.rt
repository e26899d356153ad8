//! Laws of the numbers that construction gives, each the contract of a function that does nothing.

ghost use Rattle.g_build_keeps.specs.NumberLaws.{NumbersAreFew, NumbersCountNodes};

/// The next number of each lambda of a program's graph is the number of its nodes, at any depth,
/// and so no more than the number of its values.
pub fn numbers_count_nodes()
    ensures nodes { NumbersCountNodes }
    ensures values { NumbersAreFew }
{
    g_build_def::laws::programs_are_by_number();
}
