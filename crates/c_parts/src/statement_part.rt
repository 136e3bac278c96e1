ghost use Rattle.std.specs.Prelude.{◌≡◌, map};
ghost use Rattle.std.specs.Option.{option_map};
ghost use Rattle.c_rawtree.specs.StatementViews.{block_view, body_view, case_label_view, clause_view, for_start_view, if_view, item_view, leave_view, otherwise_view, simple_view, statement_view};
ghost use Rattle.c_parts.specs.Kinds;
ghost use Rattle.c_parts.specs.PartData;
ghost use Rattle.c_parts.specs.PartViews.{statement_part_view, simple_rest_view};
ghost use Rattle.c_parts.specs.Reading.{kind_of, block_of, item_of, items_of, statement_of, statements_of, if_statement_of, otherwise_of, otherwise_branch_of, for_start_of, optional_for_start_of, simple_of, optional_simple_of, simple_rest_of, case_labels_of, clause_of, clauses_of, body_of, optional_body_of, leave_of};

use crate::chain::Chain;
use c_rawtree::{
    AssignmentOperator, Block, Body, CaseLabel, Clause, Expression, ForStart, If, Item, Leave,
    Otherwise, Simple, Statement, Step,
};
use misra_base::Place;

/// What makes an expression an assignment or a step (C11 6.5.16, 6.5.2.4).
#[derive(Drop)]
pub enum SimpleRest {
    Assignment {
        place: Place,
        operator: AssignmentOperator,
        value: Box<Expression>,
    },
    Step {
        place: Place,
        step: Step,
    },
}

/// A part that is a statement or stands in one (C11 6.8).
pub enum StatementPart {
    /// A compound statement.
    Block(Block),
    /// What stands in a block.
    Item(Box<Item>),
    /// All that stands in a block.
    Items(Chain<Item>),
    /// A statement.
    Statement(Box<Statement>),
    /// Statements.
    Statements(Chain<Statement>),
    /// An `if` statement.
    IfStatement(If),
    /// `else` with its branch, or nothing.
    Otherwise(Option<Otherwise>),
    /// What stands behind `else`.
    OtherwiseBranch(Otherwise),
    /// What a `for` begins with.
    ForStart(ForStart),
    /// What a `for` begins with, or nothing.
    OptionalForStart(Option<ForStart>),
    /// An expression that stands as a statement.
    Simple(Simple),
    /// An expression that stands as a statement, or nothing.
    OptionalSimple(Option<Simple>),
    /// What makes an expression an assignment or a step, or nothing.
    SimpleRest(Option<SimpleRest>),
    /// The labels of a clause.
    CaseLabels(Chain<CaseLabel>),
    /// A clause of a `switch`.
    Clause(Clause),
    /// The clauses of a `switch`.
    Clauses(Chain<Clause>),
    /// The statements of a clause.
    Body(Body),
    /// The statements of `default`, or nothing.
    OptionalBody(Option<Body>),
    /// What leaves a clause or a block.
    Leave(Leave),
}

impl Drop for StatementPart {
    fn drop(self) {
        match self {
            StatementPart::Block(_)
            | StatementPart::Item(_)
            | StatementPart::Items(_)
            | StatementPart::Statement(_)
            | StatementPart::Statements(_)
            | StatementPart::IfStatement(_)
            | StatementPart::Otherwise(_)
            | StatementPart::OtherwiseBranch(_)
            | StatementPart::ForStart(_)
            | StatementPart::OptionalForStart(_)
            | StatementPart::Simple(_)
            | StatementPart::OptionalSimple(_)
            | StatementPart::SimpleRest(_)
            | StatementPart::CaseLabels(_)
            | StatementPart::Clause(_)
            | StatementPart::Clauses(_)
            | StatementPart::Body(_)
            | StatementPart::OptionalBody(_)
            | StatementPart::Leave(_) => {}
        }
    }
}

impl StatementPart {
    /// Its content: a compound statement.
    pub fn block(self) -> Block
        requires { kind_of (PartData.statement_part (statement_part_view self)) ≡ Kinds.block }
        ensures { block_view result ≡ block_of (PartData.statement_part (statement_part_view self)) }
    {
        match self {
            StatementPart::Block(part) => part,
            _ => unreachable!(),
        }
    }

    /// Its content: what stands in a block.
    pub fn item(self) -> Item
        requires { kind_of (PartData.statement_part (statement_part_view self)) ≡ Kinds.item }
        ensures { item_view result ≡ item_of (PartData.statement_part (statement_part_view self)) }
    {
        match self {
            StatementPart::Item(part) => Box::into_inner(part),
            _ => unreachable!(),
        }
    }

    /// Its content: all that stands in a block.
    pub fn items(self) -> Chain<Item>
        requires { kind_of (PartData.statement_part (statement_part_view self)) ≡ Kinds.items }
        ensures { map item_view result ≡ items_of (PartData.statement_part (statement_part_view self)) }
    {
        match self {
            StatementPart::Items(part) => part,
            _ => unreachable!(),
        }
    }

    /// Its content: a statement.
    pub fn statement(self) -> Statement
        requires { kind_of (PartData.statement_part (statement_part_view self)) ≡ Kinds.statement }
        ensures { statement_view result ≡ statement_of (PartData.statement_part (statement_part_view self)) }
    {
        match self {
            StatementPart::Statement(part) => Box::into_inner(part),
            _ => unreachable!(),
        }
    }

    /// Its content: statements.
    pub fn statements(self) -> Chain<Statement>
        requires { kind_of (PartData.statement_part (statement_part_view self)) ≡ Kinds.statements }
        ensures { map statement_view result ≡ statements_of (PartData.statement_part (statement_part_view self)) }
    {
        match self {
            StatementPart::Statements(part) => part,
            _ => unreachable!(),
        }
    }

    /// Its content: an `if` statement.
    pub fn if_statement(self) -> If
        requires { kind_of (PartData.statement_part (statement_part_view self)) ≡ Kinds.if_statement }
        ensures { if_view result ≡ if_statement_of (PartData.statement_part (statement_part_view self)) }
    {
        match self {
            StatementPart::IfStatement(part) => part,
            _ => unreachable!(),
        }
    }

    /// Its content: `else` with its branch, or nothing.
    pub fn otherwise(self) -> Option<Otherwise>
        requires { kind_of (PartData.statement_part (statement_part_view self)) ≡ Kinds.otherwise }
        ensures { option_map otherwise_view result ≡ otherwise_of (PartData.statement_part (statement_part_view self)) }
    {
        match self {
            StatementPart::Otherwise(part) => part,
            _ => unreachable!(),
        }
    }

    /// Its content: what stands behind `else`.
    pub fn otherwise_branch(self) -> Otherwise
        requires { kind_of (PartData.statement_part (statement_part_view self)) ≡ Kinds.otherwise_branch }
        ensures { otherwise_view result ≡ otherwise_branch_of (PartData.statement_part (statement_part_view self)) }
    {
        match self {
            StatementPart::OtherwiseBranch(part) => part,
            _ => unreachable!(),
        }
    }

    /// Its content: what a `for` begins with.
    pub fn for_start(self) -> ForStart
        requires { kind_of (PartData.statement_part (statement_part_view self)) ≡ Kinds.for_start }
        ensures { for_start_view result ≡ for_start_of (PartData.statement_part (statement_part_view self)) }
    {
        match self {
            StatementPart::ForStart(part) => part,
            _ => unreachable!(),
        }
    }

    /// Its content: what a `for` begins with, or nothing.
    pub fn optional_for_start(self) -> Option<ForStart>
        requires { kind_of (PartData.statement_part (statement_part_view self)) ≡ Kinds.optional_for_start }
        ensures { option_map for_start_view result ≡ optional_for_start_of (PartData.statement_part (statement_part_view self)) }
    {
        match self {
            StatementPart::OptionalForStart(part) => part,
            _ => unreachable!(),
        }
    }

    /// Its content: an expression that stands as a statement.
    pub fn simple(self) -> Simple
        requires { kind_of (PartData.statement_part (statement_part_view self)) ≡ Kinds.simple }
        ensures { simple_view result ≡ simple_of (PartData.statement_part (statement_part_view self)) }
    {
        match self {
            StatementPart::Simple(part) => part,
            _ => unreachable!(),
        }
    }

    /// Its content: an expression that stands as a statement, or nothing.
    pub fn optional_simple(self) -> Option<Simple>
        requires { kind_of (PartData.statement_part (statement_part_view self)) ≡ Kinds.optional_simple }
        ensures { option_map simple_view result ≡ optional_simple_of (PartData.statement_part (statement_part_view self)) }
    {
        match self {
            StatementPart::OptionalSimple(part) => part,
            _ => unreachable!(),
        }
    }

    /// Its content: what makes an expression an assignment or a step, or nothing.
    pub fn simple_rest(self) -> Option<SimpleRest>
        requires { kind_of (PartData.statement_part (statement_part_view self)) ≡ Kinds.simple_rest }
        ensures { option_map simple_rest_view result ≡ simple_rest_of (PartData.statement_part (statement_part_view self)) }
    {
        match self {
            StatementPart::SimpleRest(part) => part,
            _ => unreachable!(),
        }
    }

    /// Its content: the labels of a clause.
    pub fn case_labels(self) -> Chain<CaseLabel>
        requires { kind_of (PartData.statement_part (statement_part_view self)) ≡ Kinds.case_labels }
        ensures { map case_label_view result ≡ case_labels_of (PartData.statement_part (statement_part_view self)) }
    {
        match self {
            StatementPart::CaseLabels(part) => part,
            _ => unreachable!(),
        }
    }

    /// Its content: a clause of a `switch`.
    pub fn clause(self) -> Clause
        requires { kind_of (PartData.statement_part (statement_part_view self)) ≡ Kinds.clause }
        ensures { clause_view result ≡ clause_of (PartData.statement_part (statement_part_view self)) }
    {
        match self {
            StatementPart::Clause(part) => part,
            _ => unreachable!(),
        }
    }

    /// Its content: the clauses of a `switch`.
    pub fn clauses(self) -> Chain<Clause>
        requires { kind_of (PartData.statement_part (statement_part_view self)) ≡ Kinds.clauses }
        ensures { map clause_view result ≡ clauses_of (PartData.statement_part (statement_part_view self)) }
    {
        match self {
            StatementPart::Clauses(part) => part,
            _ => unreachable!(),
        }
    }

    /// Its content: the statements of a clause.
    pub fn body(self) -> Body
        requires { kind_of (PartData.statement_part (statement_part_view self)) ≡ Kinds.body }
        ensures { body_view result ≡ body_of (PartData.statement_part (statement_part_view self)) }
    {
        match self {
            StatementPart::Body(part) => part,
            _ => unreachable!(),
        }
    }

    /// Its content: the statements of `default`, or nothing.
    pub fn optional_body(self) -> Option<Body>
        requires { kind_of (PartData.statement_part (statement_part_view self)) ≡ Kinds.optional_body }
        ensures { option_map body_view result ≡ optional_body_of (PartData.statement_part (statement_part_view self)) }
    {
        match self {
            StatementPart::OptionalBody(part) => part,
            _ => unreachable!(),
        }
    }

    /// Its content: what leaves a clause or a block.
    pub fn leave(self) -> Leave
        requires { kind_of (PartData.statement_part (statement_part_view self)) ≡ Kinds.leave }
        ensures { leave_view result ≡ leave_of (PartData.statement_part (statement_part_view self)) }
    {
        match self {
            StatementPart::Leave(part) => part,
            _ => unreachable!(),
        }
    }
}
