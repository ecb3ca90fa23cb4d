// The kinds of a stored value, in the order in which document 01 names them. A number that is none of them is a method's.

// A proposition.
pub const PROP: usize = 0;

// A constructor.
pub const CONSTRUCTOR: usize = 1;

// A rule.
pub const RULE: usize = 2;

// A function.
pub const FUNCTION: usize = 3;

// A method.
pub const METHOD: usize = 4;
