//! The laws of types: what objects hold in each run of a well-formed program, and by which undefined steps such a run may end.
ghost use Rattle.type_safety.specs.Laws.{EachUndefinedStepIsListed, MemoryIsTyped};

use c_program::Program;

/// In each good run of a well-formed program an object of integer type holds a number, and one of pointer type an address
/// or null, where it is set (C11 6.2.6.1).
pub fn memory_is_typed(program: &Program)
    ensures { MemoryIsTyped program.now }
{}

/// Each undefined step of a run of a well-formed program is one of a closed list: in a part of its action an unset object
/// is read, an address is null, dead, or of an object of another type, an index or a moved pointer leaves its array, a
/// signed result leaves its type, a divisor is 0, a shift has no meaning, or a const object is written; or it breaks one of
/// the guidelines that end a run; or it joins or detaches a thread object that holds no thread, or joins one without a
/// result that is written; or a function ends without the result that its caller uses (C11 6.2.4, 6.3.2.3, 6.5, 6.7.3, 6.9.1, 7.26).
/// None is for want of a form or a type of an expression or an argument.
pub fn undefined_steps(program: &Program)
    ensures { EachUndefinedStepIsListed program.now }
{}
