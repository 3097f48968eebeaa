//! Laws of the definitions: a function has an empty body, and its contract is the law.

ghost use Rattle.tool_files.specs.Laws.{OneEnd, OneNext, SameCourse, SameOrder, SomeFirst, SomeNext};

/// Where contents are told, a command comes to one end.
pub fn one_end()
    ensures { OneEnd }
{}

/// On the bytes of files in the order of opening comes one name, one refusal or one result, and always one of them.
pub fn one_next()
    ensures one { OneNext }
    ensures first { SomeFirst }
    ensures next { SomeNext }
{}

/// What a command comes to on files is what comes on the bytes that they give, in the order of opening.
pub fn same_order()
    ensures course { SameCourse }
    ensures order { SameOrder }
{}
