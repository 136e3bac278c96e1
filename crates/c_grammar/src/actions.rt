//! What each production of the grammar makes of its parts, as tools/c_grammar.py writes it from tools/c_actions.txt.

use c_nodes::{
    Action, DeclaratorAction, ExpressionAction, ExternalAction, OperandAction, SpecifierAction,
    StatementAction, SwitchAction,
};
use c_rawtree::{AssignmentOperator, BinaryOperator, Keyword, Qualifier, Step, UnaryOperator};

/// What each production makes, in the order of the productions.
#[rattlefmt::skip]
pub static ACTIONS: [Action; 234] = [
    Action::External(ExternalAction::Unit), // 0 unit = unit_1
    Action::External(ExternalAction::Externals), // 1 unit_1 = external unit_1
    Action::External(ExternalAction::NoExternals), // 2 unit_1 =
    Action::External(ExternalAction::TypeDefinition), // 3 external = "typedef" spec pointer id ";"
    Action::External(ExternalAction::Declared), // 4 external = spec external_1
    Action::External(ExternalAction::OnlyTypes), // 5 external_1 = ";"
    Action::External(ExternalAction::Named), // 6 external_1 = pointer id external_2
    Action::External(ExternalAction::FunctionBehindName), // 7 external_2 = function
    Action::External(ExternalAction::ObjectsBehindName), // 8 external_2 = objects
    Action::External(ExternalAction::Function), // 9 function = "(" param function_1 ")" function_2
    Action::External(ExternalAction::Parameters), // 10 function_1 = "," param function_1
    Action::External(ExternalAction::NoParameters), // 11 function_1 =
    Action::External(ExternalAction::NoBody), // 12 function_2 = ";"
    Action::External(ExternalAction::SomeBody), // 13 function_2 = block
    Action::External(ExternalAction::Parameter), // 14 param = spec pointer param_1
    Action::External(ExternalAction::ParameterName), // 15 param_1 = id param_2
    Action::External(ExternalAction::ParameterBound), // 16 param_2 = "[" param_3 "]"
    Action::Expression(ExpressionAction::SomeExpression), // 17 param_3 = cond
    Action::Expression(ExpressionAction::NoExpression), // 18 param_3 =
    Action::External(ExternalAction::NoParameterBound), // 19 param_2 =
    Action::External(ExternalAction::NoParameterName), // 20 param_1 =
    Action::Declarator(DeclaratorAction::Objects), // 21 objects = array objects_1 objects_2 ";"
    Action::Declarator(DeclaratorAction::Initialization), // 22 objects_1 = "=" init
    Action::Declarator(DeclaratorAction::NoInitialization), // 23 objects_1 =
    Action::Declarator(DeclaratorAction::InitDeclarators), // 24 objects_2 = "," pointer id array objects_3 objects_2
    Action::Declarator(DeclaratorAction::Initialization), // 25 objects_3 = "=" init
    Action::Declarator(DeclaratorAction::NoInitialization), // 26 objects_3 =
    Action::Declarator(DeclaratorAction::NoInitDeclarators), // 27 objects_2 =
    Action::Declarator(DeclaratorAction::Bounds), // 28 array = array_1
    Action::Declarator(DeclaratorAction::Bound), // 29 array_1 = "[" array_2 "]" array_1
    Action::Expression(ExpressionAction::SomeExpression), // 30 array_2 = cond
    Action::Expression(ExpressionAction::NoExpression), // 31 array_2 =
    Action::Declarator(DeclaratorAction::NoBounds), // 32 array_1 =
    Action::Declarator(DeclaratorAction::Pointers), // 33 pointer = pointer_1
    Action::Declarator(DeclaratorAction::Pointer), // 34 pointer_1 = "*" pointer_2 pointer_1
    Action::Declarator(DeclaratorAction::Qualifier(Qualifier::Const)), // 35 pointer_2 = "const" pointer_2
    Action::Declarator(DeclaratorAction::Qualifier(Qualifier::Volatile)), // 36 pointer_2 = "volatile" pointer_2
    Action::Declarator(DeclaratorAction::NoQualifiers), // 37 pointer_2 =
    Action::Declarator(DeclaratorAction::NoPointers), // 38 pointer_1 =
    Action::Specifier(SpecifierAction::Specifiers), // 39 spec = word spec_1
    Action::Specifier(SpecifierAction::Specifiers), // 40 spec_1 = word spec_1
    Action::Specifier(SpecifierAction::NoSpecifiers), // 41 spec_1 =
    Action::Specifier(SpecifierAction::Keyword(Keyword::Static)), // 42 word = "static"
    Action::Specifier(SpecifierAction::Keyword(Keyword::Extern)), // 43 word = "extern"
    Action::Specifier(SpecifierAction::Keyword(Keyword::Inline)), // 44 word = "inline"
    Action::Specifier(SpecifierAction::Keyword(Keyword::ThreadLocal)), // 45 word = "_Thread_local"
    Action::Specifier(SpecifierAction::Keyword(Keyword::Const)), // 46 word = "const"
    Action::Specifier(SpecifierAction::Keyword(Keyword::Volatile)), // 47 word = "volatile"
    Action::Specifier(SpecifierAction::Keyword(Keyword::Atomic)), // 48 word = "_Atomic"
    Action::Specifier(SpecifierAction::Keyword(Keyword::Void)), // 49 word = "void"
    Action::Specifier(SpecifierAction::Keyword(Keyword::Char)), // 50 word = "char"
    Action::Specifier(SpecifierAction::Keyword(Keyword::Short)), // 51 word = "short"
    Action::Specifier(SpecifierAction::Keyword(Keyword::Int)), // 52 word = "int"
    Action::Specifier(SpecifierAction::Keyword(Keyword::Long)), // 53 word = "long"
    Action::Specifier(SpecifierAction::Keyword(Keyword::Signed)), // 54 word = "signed"
    Action::Specifier(SpecifierAction::Keyword(Keyword::Unsigned)), // 55 word = "unsigned"
    Action::Specifier(SpecifierAction::Keyword(Keyword::Bool)), // 56 word = "_Bool"
    Action::Specifier(SpecifierAction::LibraryType), // 57 word = library
    Action::Specifier(SpecifierAction::TypedefName), // 58 word = ty
    Action::Specifier(SpecifierAction::Struct), // 59 word = "struct" word_1
    Action::Specifier(SpecifierAction::TaggedStructure), // 60 word_1 = tag word_2
    Action::Specifier(SpecifierAction::SomeMembers), // 61 word_2 = members
    Action::Specifier(SpecifierAction::NoMembers), // 62 word_2 =
    Action::Specifier(SpecifierAction::UntaggedStructure), // 63 word_1 = members
    Action::Specifier(SpecifierAction::Enum), // 64 word = "enum" word_3
    Action::Specifier(SpecifierAction::TaggedEnumeration), // 65 word_3 = tag word_4
    Action::Specifier(SpecifierAction::SomeEnumerators), // 66 word_4 = enums
    Action::Specifier(SpecifierAction::NoEnumerators), // 67 word_4 =
    Action::Specifier(SpecifierAction::UntaggedEnumeration), // 68 word_3 = enums
    Action::Tag, // 69 tag = id
    Action::Tag, // 70 tag = ty
    Action::Specifier(SpecifierAction::MembersInBraces), // 71 members = "{" members_1 "}"
    Action::Specifier(SpecifierAction::MemberDeclaration), // 72 members_1 = spec member members_2 ";" members_1
    Action::Specifier(SpecifierAction::Declarators), // 73 members_2 = "," member members_2
    Action::Specifier(SpecifierAction::NoDeclarators), // 74 members_2 =
    Action::Specifier(SpecifierAction::NoMoreMembers), // 75 members_1 =
    Action::Declarator(DeclaratorAction::Declarator), // 76 member = pointer id member_1
    Action::Declarator(DeclaratorAction::MemberBound), // 77 member_1 = "[" cond "]" member_1
    Action::Declarator(DeclaratorAction::NoBounds), // 78 member_1 =
    Action::Specifier(SpecifierAction::EnumeratorsInBraces), // 79 enums = "{" id enums_1 emore "}"
    Action::Expression(ExpressionAction::InitialExpression), // 80 enums_1 = "=" cond
    Action::Expression(ExpressionAction::NoExpression), // 81 enums_1 =
    Action::Specifier(SpecifierAction::EnumeratorsAgain), // 82 emore = emore_1
    Action::Specifier(SpecifierAction::EnumeratorsBehindComma), // 83 emore_1 = "," emore_2
    Action::Specifier(SpecifierAction::Enumerator), // 84 emore_2 = id emore_3 emore
    Action::Expression(ExpressionAction::InitialExpression), // 85 emore_3 = "=" cond
    Action::Expression(ExpressionAction::NoExpression), // 86 emore_3 =
    Action::Specifier(SpecifierAction::NoMoreEnumerators), // 87 emore_2 =
    Action::Specifier(SpecifierAction::NoMoreEnumerators), // 88 emore_1 =
    Action::Declarator(DeclaratorAction::InitializerExpression), // 89 init = cond
    Action::Declarator(DeclaratorAction::InitializerList), // 90 init = "{" init imore "}"
    Action::Declarator(DeclaratorAction::InitializersAgain), // 91 imore = imore_1
    Action::Declarator(DeclaratorAction::InitializersBehindComma), // 92 imore_1 = "," imore_2
    Action::Declarator(DeclaratorAction::Initializers), // 93 imore_2 = init imore
    Action::Declarator(DeclaratorAction::NoInitializers), // 94 imore_2 =
    Action::Declarator(DeclaratorAction::NoInitializers), // 95 imore_1 =
    Action::Statement(StatementAction::Block), // 96 block = "{" block_1 "}"
    Action::Statement(StatementAction::Items), // 97 block_1 = item block_1
    Action::Statement(StatementAction::NoItems), // 98 block_1 =
    Action::Statement(StatementAction::DeclarationItem), // 99 item = spec item_1
    Action::Declarator(DeclaratorAction::OnlyTypes), // 100 item_1 = ";"
    Action::Declarator(DeclaratorAction::Declarators), // 101 item_1 = pointer id objects
    Action::Statement(StatementAction::StatementItem), // 102 item = statement
    Action::Statement(StatementAction::LeaveItem), // 103 item = leave
    Action::Statement(StatementAction::BlockStatement), // 104 statement = block
    Action::Statement(StatementAction::IfStatement), // 105 statement = if
    Action::Statement(StatementAction::While), // 106 statement = "while" "(" cond ")" block
    Action::Statement(StatementAction::Do), // 107 statement = "do" block "while" "(" cond ")" ";"
    Action::Statement(StatementAction::For), // 108 statement = "for" "(" statement_1 ";" statement_2 ";" statement_3 ")" block
    Action::Statement(StatementAction::SomeForStart), // 109 statement_1 = start
    Action::Statement(StatementAction::NoForStart), // 110 statement_1 =
    Action::Expression(ExpressionAction::SomeExpression), // 111 statement_2 = cond
    Action::Expression(ExpressionAction::NoExpression), // 112 statement_2 =
    Action::Statement(StatementAction::SomeSimple), // 113 statement_3 = simple
    Action::Statement(StatementAction::NoSimple), // 114 statement_3 =
    Action::Statement(StatementAction::Switch), // 115 statement = "switch" "(" cond ")" "{" statement_4 statement_5 "}"
    Action::Switch(SwitchAction::Clauses), // 116 statement_4 = clause statement_4
    Action::Switch(SwitchAction::NoClauses), // 117 statement_4 =
    Action::Switch(SwitchAction::Default), // 118 statement_5 = "default" ":" body
    Action::Switch(SwitchAction::NoDefault), // 119 statement_5 =
    Action::Statement(StatementAction::Continue), // 120 statement = "continue" ";"
    Action::Statement(StatementAction::SimpleStatement), // 121 statement = simple ";"
    Action::Statement(StatementAction::Empty), // 122 statement = ";"
    Action::Switch(SwitchAction::Break), // 123 leave = "break" ";"
    Action::Switch(SwitchAction::Return), // 124 leave = "return" leave_1 ";"
    Action::Expression(ExpressionAction::SomeExpression), // 125 leave_1 = cond
    Action::Expression(ExpressionAction::NoExpression), // 126 leave_1 =
    Action::Statement(StatementAction::If), // 127 if = "if" "(" cond ")" block if_1
    Action::Statement(StatementAction::Else), // 128 if_1 = "else" if_2
    Action::Statement(StatementAction::OtherwiseBlock), // 129 if_2 = block
    Action::Statement(StatementAction::OtherwiseIf), // 130 if_2 = if
    Action::Statement(StatementAction::NoElse), // 131 if_1 =
    Action::Statement(StatementAction::StartDeclaration), // 132 start = spec pointer id "=" cond
    Action::Statement(StatementAction::StartSimple), // 133 start = simple
    Action::Switch(SwitchAction::Clause), // 134 clause = "case" cond ":" clause_1 body
    Action::Switch(SwitchAction::CaseLabels), // 135 clause_1 = "case" cond ":" clause_1
    Action::Switch(SwitchAction::NoCaseLabels), // 136 clause_1 =
    Action::Switch(SwitchAction::Body), // 137 body = body_1 leave
    Action::Switch(SwitchAction::Statements), // 138 body_1 = statement body_1
    Action::Switch(SwitchAction::NoStatements), // 139 body_1 =
    Action::Switch(SwitchAction::PrefixStep), // 140 simple = simple_1 unary
    Action::Expression(ExpressionAction::StepSign(Step::Increment)), // 141 simple_1 = "++"
    Action::Expression(ExpressionAction::StepSign(Step::Decrement)), // 142 simple_1 = "--"
    Action::Switch(SwitchAction::Simple), // 143 simple = cond simple_2
    Action::Switch(SwitchAction::Assignment), // 144 simple_2 = assign cond
    Action::Switch(SwitchAction::PostfixStep(Step::Increment)), // 145 simple_2 = "++"
    Action::Switch(SwitchAction::PostfixStep(Step::Decrement)), // 146 simple_2 = "--"
    Action::Switch(SwitchAction::NoSimpleRest), // 147 simple_2 =
    Action::Expression(ExpressionAction::AssignmentSign(AssignmentOperator::Assign)), // 148 assign = "="
    Action::Expression(ExpressionAction::AssignmentSign(AssignmentOperator::Multiply)), // 149 assign = "*="
    Action::Expression(ExpressionAction::AssignmentSign(AssignmentOperator::Divide)), // 150 assign = "/="
    Action::Expression(ExpressionAction::AssignmentSign(AssignmentOperator::Remainder)), // 151 assign = "%="
    Action::Expression(ExpressionAction::AssignmentSign(AssignmentOperator::Add)), // 152 assign = "+="
    Action::Expression(ExpressionAction::AssignmentSign(AssignmentOperator::Subtract)), // 153 assign = "-="
    Action::Expression(ExpressionAction::AssignmentSign(AssignmentOperator::ShiftLeft)), // 154 assign = "<<="
    Action::Expression(ExpressionAction::AssignmentSign(AssignmentOperator::ShiftRight)), // 155 assign = ">>="
    Action::Expression(ExpressionAction::AssignmentSign(AssignmentOperator::And)), // 156 assign = "&="
    Action::Expression(ExpressionAction::AssignmentSign(AssignmentOperator::Xor)), // 157 assign = "^="
    Action::Expression(ExpressionAction::AssignmentSign(AssignmentOperator::Or)), // 158 assign = "|="
    Action::Operand(OperandAction::Conditional), // 159 cond = lor cond_1
    Action::Expression(ExpressionAction::Branches), // 160 cond_1 = "?" cond ":" cond
    Action::Operand(OperandAction::NoBranches), // 161 cond_1 =
    Action::Operand(OperandAction::Binary), // 162 lor = land lor_1
    Action::Expression(ExpressionAction::Operation(BinaryOperator::LogicalOr)), // 163 lor_1 = "||" land lor_1
    Action::Operand(OperandAction::NoOperations), // 164 lor_1 =
    Action::Operand(OperandAction::Binary), // 165 land = bor land_1
    Action::Expression(ExpressionAction::Operation(BinaryOperator::LogicalAnd)), // 166 land_1 = "&&" bor land_1
    Action::Operand(OperandAction::NoOperations), // 167 land_1 =
    Action::Operand(OperandAction::Binary), // 168 bor = bxor bor_1
    Action::Expression(ExpressionAction::Operation(BinaryOperator::Or)), // 169 bor_1 = "|" bxor bor_1
    Action::Operand(OperandAction::NoOperations), // 170 bor_1 =
    Action::Operand(OperandAction::Binary), // 171 bxor = band bxor_1
    Action::Expression(ExpressionAction::Operation(BinaryOperator::Xor)), // 172 bxor_1 = "^" band bxor_1
    Action::Operand(OperandAction::NoOperations), // 173 bxor_1 =
    Action::Operand(OperandAction::Binary), // 174 band = eq band_1
    Action::Expression(ExpressionAction::Operation(BinaryOperator::And)), // 175 band_1 = "&" eq band_1
    Action::Operand(OperandAction::NoOperations), // 176 band_1 =
    Action::Operand(OperandAction::Binary), // 177 eq = rel eq_1
    Action::Expression(ExpressionAction::SignedOperation), // 178 eq_1 = eq_2 rel eq_1
    Action::Expression(ExpressionAction::Infix(BinaryOperator::Equal)), // 179 eq_2 = "=="
    Action::Expression(ExpressionAction::Infix(BinaryOperator::NotEqual)), // 180 eq_2 = "!="
    Action::Operand(OperandAction::NoOperations), // 181 eq_1 =
    Action::Operand(OperandAction::Binary), // 182 rel = shift rel_1
    Action::Expression(ExpressionAction::SignedOperation), // 183 rel_1 = rel_2 shift rel_1
    Action::Expression(ExpressionAction::Infix(BinaryOperator::Less)), // 184 rel_2 = "<"
    Action::Expression(ExpressionAction::Infix(BinaryOperator::Greater)), // 185 rel_2 = ">"
    Action::Expression(ExpressionAction::Infix(BinaryOperator::LessEqual)), // 186 rel_2 = "<="
    Action::Expression(ExpressionAction::Infix(BinaryOperator::GreaterEqual)), // 187 rel_2 = ">="
    Action::Operand(OperandAction::NoOperations), // 188 rel_1 =
    Action::Operand(OperandAction::Binary), // 189 shift = add shift_1
    Action::Expression(ExpressionAction::SignedOperation), // 190 shift_1 = shift_2 add shift_1
    Action::Expression(ExpressionAction::Infix(BinaryOperator::ShiftLeft)), // 191 shift_2 = "<<"
    Action::Expression(ExpressionAction::Infix(BinaryOperator::ShiftRight)), // 192 shift_2 = ">>"
    Action::Operand(OperandAction::NoOperations), // 193 shift_1 =
    Action::Operand(OperandAction::Binary), // 194 add = mul add_1
    Action::Expression(ExpressionAction::SignedOperation), // 195 add_1 = add_2 mul add_1
    Action::Expression(ExpressionAction::Infix(BinaryOperator::Add)), // 196 add_2 = "+"
    Action::Expression(ExpressionAction::Infix(BinaryOperator::Subtract)), // 197 add_2 = "-"
    Action::Operand(OperandAction::NoOperations), // 198 add_1 =
    Action::Operand(OperandAction::Binary), // 199 mul = unary mul_1
    Action::Expression(ExpressionAction::SignedOperation), // 200 mul_1 = mul_2 unary mul_1
    Action::Expression(ExpressionAction::Infix(BinaryOperator::Multiply)), // 201 mul_2 = "*"
    Action::Expression(ExpressionAction::Infix(BinaryOperator::Divide)), // 202 mul_2 = "/"
    Action::Expression(ExpressionAction::Infix(BinaryOperator::Remainder)), // 203 mul_2 = "%"
    Action::Operand(OperandAction::NoOperations), // 204 mul_1 =
    Action::Expression(ExpressionAction::Unary), // 205 unary = unary_1 unary
    Action::Expression(ExpressionAction::Prefix(UnaryOperator::Address)), // 206 unary_1 = "&"
    Action::Expression(ExpressionAction::Prefix(UnaryOperator::Indirection)), // 207 unary_1 = "*"
    Action::Expression(ExpressionAction::Prefix(UnaryOperator::Plus)), // 208 unary_1 = "+"
    Action::Expression(ExpressionAction::Prefix(UnaryOperator::Minus)), // 209 unary_1 = "-"
    Action::Expression(ExpressionAction::Prefix(UnaryOperator::Complement)), // 210 unary_1 = "~"
    Action::Expression(ExpressionAction::Prefix(UnaryOperator::Not)), // 211 unary_1 = "!"
    Action::Expression(ExpressionAction::Sizeof), // 212 unary = "sizeof" "(" unary_2
    Action::Expression(ExpressionAction::SizeofType), // 213 unary_2 = type ")"
    Action::Expression(ExpressionAction::SizeofExpression), // 214 unary_2 = cond ")"
    Action::Expression(ExpressionAction::Bracket), // 215 unary = "(" unary_3
    Action::Expression(ExpressionAction::Cast), // 216 unary_3 = type ")" unary
    Action::Expression(ExpressionAction::Group), // 217 unary_3 = cond ")" unary_4
    Action::Expression(ExpressionAction::Postfixes), // 218 unary_4 = post unary_4
    Action::Operand(OperandAction::NoPostfixes), // 219 unary_4 =
    Action::Operand(OperandAction::Postfixed), // 220 unary = unary_5 unary_6
    Action::Operand(OperandAction::Identifier), // 221 unary_5 = id
    Action::Operand(OperandAction::Constant), // 222 unary_5 = num
    Action::Expression(ExpressionAction::Postfixes), // 223 unary_6 = post unary_6
    Action::Operand(OperandAction::NoPostfixes), // 224 unary_6 =
    Action::Expression(ExpressionAction::TypeName), // 225 type = spec pointer
    Action::Expression(ExpressionAction::Index), // 226 post = "[" cond "]"
    Action::Expression(ExpressionAction::Call), // 227 post = "(" post_1 ")"
    Action::Expression(ExpressionAction::FirstArgument), // 228 post_1 = cond post_2
    Action::Expression(ExpressionAction::Argument), // 229 post_2 = "," cond post_2
    Action::Expression(ExpressionAction::NoArguments), // 230 post_2 =
    Action::Expression(ExpressionAction::NoArguments), // 231 post_1 =
    Action::Expression(ExpressionAction::Member), // 232 post = "." tag
    Action::Expression(ExpressionAction::Arrow), // 233 post = "->" tag
];
