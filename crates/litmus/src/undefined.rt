//! For each kind of undefined step, a run that it ends. Those that break a rule stand in `guidelines`.
ghost use Rattle.std.specs.Prelude.{[], ◌∷◌, pos};
ghost use Rattle.c_program.specs.declared.types.Integer.TheVariants.{Int};
ghost use Rattle.c_program.specs.declared.expression.Expr.{Constant};
ghost use Rattle.c_program.specs.declared.expression.UnaryOperator.TheVariants.{Minus};
ghost use Rattle.c_program.specs.declared.expression.BinaryOperator.TheVariants.{Add, Subtract, Multiply, Divide, Remainder, ShiftLeft};
ghost use Rattle.c_program.specs.Syntax.{Unary, Element, Forward, Back, c_int};
ghost use Rattle.litmus.specs.Pieces.{number, goes, answers, in_order};
ghost use Rattle.litmus.specs.Undefined.{Stops, computes_in, evaluates, int_max, int_min, minus_one, unset_read, null_used, null_moved, used_at_another_type, steps_from_an_array, const_written, dead_used, none_joined, none_detached, missing_result, missing_result_of_a_thread};

/// A null address is used, and one is moved by 0.
pub fn null_address()
    ensures used { Stops null_used (in_order (goes 0 ∷ goes 0 ∷ [])) }
    ensures moved { Stops null_moved (in_order (goes 0 ∷ goes 0 ∷ [])) }
{}

/// The address of an object of a call that has ended is used.
pub fn dead_address()
    ensures { Stops dead_used (in_order (goes 0 ∷ goes 0 ∷ goes 0 ∷ goes 0 ∷ goes 0 ∷ goes 0 ∷ goes 0 ∷ [])) }
{}

/// The address of an `int` is used as one of a `long`.
pub fn another_type()
    ensures { Stops used_at_another_type (in_order (goes 0 ∷ goes 0 ∷ [])) }
{}

/// An index or a moved pointer leaves an array of two elements, behind it or before it.
pub fn left_array()
    ensures index { Stops (steps_from_an_array (Element (number 2) ∷ [])) (in_order (goes 0 ∷ [])) }
    ensures forward { Stops (steps_from_an_array (Element (number 0) ∷ Forward c_int (number 2) ∷ [])) (in_order (goes 0 ∷ [])) }
    ensures back { Stops (steps_from_an_array (Element (number 0) ∷ Back c_int (number 1) ∷ [])) (in_order (goes 0 ∷ [])) }
{}

/// A sum, a difference, a product, a negation and a quotient leave `int`.
pub fn left_type()
    ensures sum { Stops (computes_in Add int_max (pos 1)) (in_order (goes 0 ∷ [])) }
    ensures difference { Stops (computes_in Subtract int_min (pos 1)) (in_order (goes 0 ∷ [])) }
    ensures product { Stops (computes_in Multiply int_max (pos 2)) (in_order (goes 0 ∷ [])) }
    ensures negation { Stops (evaluates (Unary Minus Int (Constant int_min))) (in_order (goes 0 ∷ [])) }
    ensures quotient { Stops (computes_in Divide int_min minus_one) (in_order (goes 0 ∷ [])) }
{}

/// A remainder is taken where the quotient leaves `int`.
pub fn remainder()
    ensures { Stops (computes_in Remainder int_min minus_one) (in_order (goes 0 ∷ [])) }
{}

/// A left shift leaves `int`, has a negative left operand, or a count outside the width.
pub fn left_shift()
    ensures leaves { Stops (computes_in ShiftLeft (pos 1) (pos 31)) (in_order (goes 0 ∷ [])) }
    ensures negative { Stops (computes_in ShiftLeft minus_one (pos 1)) (in_order (goes 0 ∷ [])) }
    ensures width { Stops (computes_in ShiftLeft (pos 1) (pos 32)) (in_order (goes 0 ∷ [])) }
    ensures below { Stops (computes_in ShiftLeft (pos 1) minus_one) (in_order (goes 0 ∷ [])) }
{}

/// A divisor is zero.
pub fn zero_divisor()
    ensures quotient { Stops (computes_in Divide (pos 1) (pos 0)) (in_order (goes 0 ∷ [])) }
    ensures remainder { Stops (computes_in Remainder (pos 1) (pos 0)) (in_order (goes 0 ∷ [])) }
{}

/// An unset value is read.
pub fn unset_value()
    ensures { Stops unset_read (in_order (goes 0 ∷ goes 0 ∷ [])) }
{}

/// A thread object that holds no thread is joined or detached.
pub fn no_thread()
    ensures joined { Stops none_joined (in_order (goes 0 ∷ [])) }
    ensures detached { Stops none_detached (in_order (goes 0 ∷ [])) }
{}

/// A `const` object is written through a pointer.
pub fn written_const()
    ensures { Stops const_written (in_order (goes 0 ∷ goes 0 ∷ [])) }
{}

/// A function ends without its result, which is used; and a thread does, whose result a join writes.
pub fn no_result()
    ensures of_a_call { Stops missing_result (in_order (goes 0 ∷ goes 0 ∷ [])) }
    ensures of_a_thread { Stops missing_result_of_a_thread (in_order (answers 0 0 ∷ goes 1 ∷ goes 0 ∷ [])) }
{}
