//! Laws of the operations of a source program, each the contract of a function that does nothing.

ghost use Rattle.c_mean.specs.DefinedLaws.{ArithmeticIsDefined, NumbersAreCompared, ConversionsFitTheWidth, ConditionsAreScalar, PointersMoveWithin, OnlyPointersMove, OrderIsOfOneObject, DifferenceIsOfOneObject, EqualityIsOfLiveObjects, MembersAreWithin, LoadsFindLeaves, StoresFindLeaves};

/// An arithmetic operator has a value exactly where both operands are numbers and, of a division,
/// the divisor is not 0, and of a shift, the count is below 32 (6.5.5p5, 6.5.7p3).
pub fn arithmetic_is_defined()
    ensures { ArithmeticIsDefined }
{}

/// A comparison of integers has a value exactly where both are numbers (6.5.8p6).
pub fn numbers_are_compared()
    ensures { NumbersAreCompared }
{}

/// A conversion has a value exactly of a number, and of an address where the type has four bytes
/// (6.3.1.3, 6.3.2.3).
pub fn conversions_fit_the_width()
    ensures { ConversionsFitTheWidth }
{}

/// A condition is true or false exactly where it is a number, or a pointer that is an address
/// (6.5.13p3, 6.8.4.1p2).
pub fn conditions_are_scalar()
    ensures { ConditionsAreScalar }
{}

/// A pointer moves by whole elements exactly where its object lives and the place is within the
/// object or at its end; nothing but a pointer moves, and only by a number (6.5.6p8).
pub fn pointers_move_within()
    ensures within { PointersMoveWithin }
    ensures pointers { OnlyPointersMove }
{}

/// Two pointers are ordered, and have a difference, exactly where they are into one live object
/// (6.5.8p5, 6.5.6p9).
pub fn order_is_of_one_object()
    ensures order { OrderIsOfOneObject }
    ensures difference { DifferenceIsOfOneObject }
{}

/// Two pointers are equal or not exactly where each of them is null or into a live object; numbers
/// are compared with each other (6.5.9p6).
pub fn equality_is_of_live_objects()
    ensures { EqualityIsOfLiveObjects }
{}

/// A member has a place exactly where the object lives and the member begins within it or at its
/// end (6.5.2.3).
pub fn members_are_within()
    ensures { MembersAreWithin }
{}

/// A load has a value exactly at a leaf of its width, in a live object, that has one; a store is
/// done exactly at such a leaf, with or without a value, of an object that is not constant, where
/// the leaf can keep what is stored (6.2.4p2, 6.5p7, 6.7.3p6).
pub fn accesses_find_leaves()
    ensures loads { LoadsFindLeaves }
    ensures stores { StoresFindLeaves }
{}
