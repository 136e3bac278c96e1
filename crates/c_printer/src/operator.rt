use c_rawtree::{AssignmentOperator, BinaryOperator, Keyword, Qualifier, Step, UnaryOperator};

/// An operator between operands, and how tightly it binds (C11 6.5.5 to 6.5.14): `||` is 1, `*` is 10.
pub(crate) fn binary_token(operator: BinaryOperator) -> (&'static [u8], u8) {
    match operator {
        BinaryOperator::LogicalOr => (b"||", 1),
        BinaryOperator::LogicalAnd => (b"&&", 2),
        BinaryOperator::Or => (b"|", 3),
        BinaryOperator::Xor => (b"^", 4),
        BinaryOperator::And => (b"&", 5),
        BinaryOperator::Equal => (b"==", 6),
        BinaryOperator::NotEqual => (b"!=", 6),
        BinaryOperator::Less => (b"<", 7),
        BinaryOperator::Greater => (b">", 7),
        BinaryOperator::LessEqual => (b"<=", 7),
        BinaryOperator::GreaterEqual => (b">=", 7),
        BinaryOperator::ShiftLeft => (b"<<", 8),
        BinaryOperator::ShiftRight => (b">>", 8),
        BinaryOperator::Add => (b"+", 9),
        BinaryOperator::Subtract => (b"-", 9),
        BinaryOperator::Multiply => (b"*", 10),
        BinaryOperator::Divide => (b"/", 10),
        BinaryOperator::Remainder => (b"%", 10),
    }
}

pub(crate) fn unary_token(operator: UnaryOperator) -> &'static [u8] {
    match operator {
        UnaryOperator::Address => b"&",
        UnaryOperator::Indirection => b"*",
        UnaryOperator::Plus => b"+",
        UnaryOperator::Minus => b"-",
        UnaryOperator::Complement => b"~",
        UnaryOperator::Not => b"!",
    }
}

pub(crate) fn assignment_token(operator: AssignmentOperator) -> &'static [u8] {
    match operator {
        AssignmentOperator::Assign => b"=",
        AssignmentOperator::Multiply => b"*=",
        AssignmentOperator::Divide => b"/=",
        AssignmentOperator::Remainder => b"%=",
        AssignmentOperator::Add => b"+=",
        AssignmentOperator::Subtract => b"-=",
        AssignmentOperator::ShiftLeft => b"<<=",
        AssignmentOperator::ShiftRight => b">>=",
        AssignmentOperator::And => b"&=",
        AssignmentOperator::Xor => b"^=",
        AssignmentOperator::Or => b"|=",
    }
}

pub(crate) fn step_token(step: Step) -> &'static [u8] {
    match step {
        Step::Increment => b"++",
        Step::Decrement => b"--",
    }
}

pub(crate) fn qualifier_token(qualifier: Qualifier) -> &'static [u8] {
    match qualifier {
        Qualifier::Const => b"const",
        Qualifier::Volatile => b"volatile",
    }
}

pub(crate) fn keyword_token(keyword: Keyword) -> &'static [u8] {
    match keyword {
        Keyword::Static => b"static",
        Keyword::Extern => b"extern",
        Keyword::Inline => b"inline",
        Keyword::ThreadLocal => b"_Thread_local",
        Keyword::Const => b"const",
        Keyword::Volatile => b"volatile",
        Keyword::Atomic => b"_Atomic",
        Keyword::Void => b"void",
        Keyword::Char => b"char",
        Keyword::Short => b"short",
        Keyword::Int => b"int",
        Keyword::Long => b"long",
        Keyword::Signed => b"signed",
        Keyword::Unsigned => b"unsigned",
        Keyword::Bool => b"_Bool",
    }
}
