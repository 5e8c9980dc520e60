//! Laws of values as they are shown: each is a clause of a function that does nothing.

ghost use Rattle.soqe_dls.specs.ShownLaws.{OneShown, ShownIsDistinct, ShownIsSame, ShownIsSorted};

/// With the parameters in front, a value as it is shown is the same formula as the value, and well sorted where the value
/// is. Its parameters have distinct numbers, none of which is kept, and it is shown in one way.
pub fn shown_values()
    ensures same { ShownIsSame }
    ensures sorted { ShownIsSorted }
    ensures distinct { ShownIsDistinct }
    ensures one { OneShown }
{}
