ghost use Rattle.std.specs.Prelude.{◌≡◌, ◌∷◌, map, IfOk};
ghost use Rattle.c_rawtree.specs.Statements;
ghost use Rattle.c_rawtree.specs.Views;
ghost use Rattle.c_rawtree.specs.Views.{specifier_view};
ghost use Rattle.c_rawtree.specs.StatementViews;
ghost use Rattle.c_rawtree.specs.StatementViews.{declaration_view, init_declarator_view, statement_view, block_view, item_view, if_view};
ghost use Rattle.c_parts.specs.PartData;
ghost use Rattle.c_parts.specs.PartViews.{leaf_view, statement_part_view, parts_view};
ghost use Rattle.c_parts.specs.Reading.{Fits};
ghost use Rattle.c_nodes.specs.declared.statement_nodes.StatementAction.TheVariants as ActionOf;
ghost use Rattle.c_nodes.specs.StatementNodes.{kinds, node};

use c_parts::{Chain, Leaf, Parts, StatementPart};
use c_rawtree::{
    Block, Declaration, ForStart, If, InitDeclarator, Item, Leave, Otherwise, Simple, Specifier,
    Statement,
};
use std::alloc::{AllocError, Global};

/// What a production of statements makes of its parts.
#[derive(Clone, Copy)]
pub enum StatementAction {
    /// `{ items }` (C11 6.8.2).
    Block,
    /// One item, and those behind it.
    Items,
    /// No more items.
    NoItems,
    /// A declaration in a block (C11 6.7).
    DeclarationItem,
    /// A statement in a block.
    StatementItem,
    /// What leaves a block.
    LeaveItem,
    /// A compound statement.
    BlockStatement,
    /// An `if` statement.
    IfStatement,
    /// `while ( condition ) body` (C11 6.8.5.1).
    While,
    /// `do body while ( condition ) ;` (C11 6.8.5.2).
    Do,
    /// `for ( [ start ] ; [ condition ] ; [ step ] ) body` (C11 6.8.5.3).
    For,
    /// `switch ( subject ) { clauses [ default : body ] }` (C11 6.8.4.2).
    Switch,
    /// `continue ;` (C11 6.8.6.2).
    Continue,
    /// An expression as a statement (C11 6.8.3).
    SimpleStatement,
    /// `;` (C11 6.8.3).
    Empty,
    /// `if ( condition ) then [ else .. ]` (C11 6.8.4.1).
    If,
    /// `else ..`
    Else,
    /// No `else`.
    NoElse,
    /// A block behind `else`.
    OtherwiseBlock,
    /// An `if` statement behind `else`.
    OtherwiseIf,
    /// What a `for` begins with.
    SomeForStart,
    /// A `for` that begins with nothing.
    NoForStart,
    /// `specifiers pointers name = value`
    StartDeclaration,
    /// An expression that a `for` begins with.
    StartSimple,
    /// An expression that might be missing.
    SomeSimple,
    /// No expression.
    NoSimple,
}

/// What the production makes of the parts.
pub(crate) fn statement_node(
    alloc: Global,
    action: StatementAction,
    parts: &mut Parts,
) -> Result<StatementPart, AllocError>
    requires { Fits (kinds action) (parts_view parts.now) }
    ensures { IfOk result (λ p. statement_part_view p ≡ node action (parts_view parts.old)) }
{
    match action {
        StatementAction::Block => Ok(StatementPart::Block(block(
            parts.leaf(),
            parts.statement_part().items(),
        ))),
        StatementAction::Items => items(
            parts.statement_part().item(),
            parts.statement_part().items(),
        ),
        StatementAction::NoItems => Ok(StatementPart::Items(Chain::new(alloc))),
        StatementAction::DeclarationItem => boxed_item(
            alloc,
            Item::Declaration(declaration(
                parts.declaration_part().specifiers(),
                parts.declaration_part().init_declarators(),
            )),
        ),
        StatementAction::StatementItem => {
            boxed_item(alloc, Item::Statement(parts.statement_part().statement()))
        }
        StatementAction::LeaveItem => {
            boxed_item(alloc, Item::Leave(parts.statement_part().leave()))
        }
        StatementAction::BlockStatement => {
            boxed_statement(alloc, Statement::Block(parts.statement_part().block()))
        }
        StatementAction::IfStatement => {
            boxed_statement(alloc, Statement::If(parts.statement_part().if_statement()))
        }
        StatementAction::While => boxed_statement(alloc, while_statement(parts)),
        StatementAction::Do => boxed_statement(alloc, do_statement(parts)),
        StatementAction::For => boxed_statement(alloc, for_statement(parts)),
        StatementAction::Switch => boxed_statement(alloc, switch_statement(parts)),
        StatementAction::Continue => boxed_statement(alloc, continue_statement(parts.leaf())),
        StatementAction::SimpleStatement => {
            boxed_statement(alloc, Statement::Simple(parts.statement_part().simple()))
        }
        StatementAction::Empty => boxed_statement(alloc, empty(parts.leaf())),
        StatementAction::If => Ok(StatementPart::IfStatement(if_statement(parts))),
        StatementAction::Else => {
            parts.leaf();
            Ok(StatementPart::Otherwise(Some(parts.statement_part().otherwise_branch())))
        }
        StatementAction::NoElse => Ok(StatementPart::Otherwise(None)),
        StatementAction::OtherwiseBlock => Ok(StatementPart::OtherwiseBranch(Otherwise::Block(
            parts.statement_part().block(),
        ))),
        StatementAction::OtherwiseIf => otherwise_if(alloc, parts.statement_part().if_statement()),
        StatementAction::SomeForStart => Ok(StatementPart::OptionalForStart(Some(
            parts.statement_part().for_start(),
        ))),
        StatementAction::NoForStart => Ok(StatementPart::OptionalForStart(None)),
        StatementAction::StartDeclaration => start_declaration(alloc, parts),
        StatementAction::StartSimple => Ok(StatementPart::ForStart(ForStart::Simple(
            parts.statement_part().simple(),
        ))),
        StatementAction::SomeSimple => Ok(StatementPart::OptionalSimple(Some(
            parts.statement_part().simple(),
        ))),
        StatementAction::NoSimple => Ok(StatementPart::OptionalSimple(None)),
    }
}

fn block(brace: Leaf, items: Chain<Item>) -> Block
    ensures { block_view result ≡ Statements.block (leaf_view brace.entry).place (StatementViews.items_of (map item_view items)) }
{
    Block {
        place: brace.place,
        items: items.into_vec(),
    }
}

fn items(one: Item, mut items: Chain<Item>) -> Result<StatementPart, AllocError>
    ensures { IfOk result (λ part. statement_part_view part ≡ PartData.items ((item_view one) ∷ (map item_view items))) }
{
    items.put_front(one)?;
    Ok(StatementPart::Items(items))
}

fn declaration(specifiers: Chain<Specifier>, declarators: Chain<InitDeclarator>) -> Declaration
    ensures { declaration_view result ≡ record { specifiers = Views.specifiers_of (map specifier_view specifiers); declarators = map init_declarator_view declarators } }
{
    Declaration {
        specifiers: specifiers.into_vec(),
        declarators: declarators.into_vec(),
    }
}

fn boxed_item(alloc: Global, item: Item) -> Result<StatementPart, AllocError>
    ensures { IfOk result (λ part. statement_part_view part ≡ PartData.item (item_view item)) }
{
    Ok(StatementPart::Item(Box::new(alloc, item)?))
}

fn boxed_statement(alloc: Global, statement: Statement) -> Result<StatementPart, AllocError>
    ensures { IfOk result (λ part. statement_part_view part ≡ PartData.statement (statement_view statement)) }
{
    Ok(StatementPart::Statement(Box::new(alloc, statement)?))
}

fn while_statement(parts: &mut Parts) -> Statement
    requires { Fits (kinds ActionOf.While) (parts_view parts.now) }
    ensures { PartData.statement (statement_view result) ≡ node ActionOf.While (parts_view parts.old) }
{
    let place = parts.leaf().place;
    parts.leaf();
    let condition = parts.expression_part().operand().expression;
    parts.leaf();
    Statement::While {
        place,
        condition,
        body: parts.statement_part().block(),
    }
}

fn do_statement(parts: &mut Parts) -> Statement
    requires { Fits (kinds ActionOf.Do) (parts_view parts.now) }
    ensures { PartData.statement (statement_view result) ≡ node ActionOf.Do (parts_view parts.old) }
{
    parts.leaf();
    let body = parts.statement_part().block();
    let place = parts.leaf().place;
    parts.leaf();
    Statement::DoWhile {
        body,
        place,
        condition: parts.expression_part().operand().expression,
    }
}

fn for_statement(parts: &mut Parts) -> Statement
    requires { Fits (kinds ActionOf.For) (parts_view parts.now) }
    ensures { PartData.statement (statement_view result) ≡ node ActionOf.For (parts_view parts.old) }
{
    let place = parts.leaf().place;
    parts.leaf();
    let start = parts.statement_part().optional_for_start();
    parts.leaf();
    let condition = parts.expression_part().optional_expression();
    parts.leaf();
    let step = parts.statement_part().optional_simple();
    parts.leaf();
    Statement::For {
        place,
        start,
        condition,
        step,
        body: parts.statement_part().block(),
    }
}

fn switch_statement(parts: &mut Parts) -> Statement
    requires { Fits (kinds ActionOf.Switch) (parts_view parts.now) }
    ensures { PartData.statement (statement_view result) ≡ node ActionOf.Switch (parts_view parts.old) }
{
    let place = parts.leaf().place;
    parts.leaf();
    let subject = parts.expression_part().operand().expression;
    parts.leaf();
    parts.leaf();
    let clauses = parts.statement_part().clauses();
    Statement::Switch {
        place,
        subject,
        clauses: clauses.into_vec(),
        default: parts.statement_part().optional_body(),
    }
}

fn continue_statement(keyword: Leaf) -> Statement
    ensures { statement_view result ≡ Statements.continue_statement (leaf_view keyword.entry).place }
{
    Statement::Continue {
        place: keyword.place,
    }
}

fn empty(semicolon: Leaf) -> Statement
    ensures { statement_view result ≡ Statements.empty_statement (leaf_view semicolon.entry).place }
{
    Statement::Empty {
        place: semicolon.place,
    }
}

fn if_statement(parts: &mut Parts) -> If
    requires { Fits (kinds ActionOf.If) (parts_view parts.now) }
    ensures { PartData.if_statement (if_view result) ≡ node ActionOf.If (parts_view parts.old) }
{
    let place = parts.leaf().place;
    parts.leaf();
    let condition = parts.expression_part().operand().expression;
    parts.leaf();
    let then = parts.statement_part().block();
    If {
        place,
        condition,
        then,
        otherwise: parts.statement_part().otherwise(),
    }
}

fn otherwise_if(alloc: Global, inner: If) -> Result<StatementPart, AllocError>
    ensures { IfOk result (λ part. statement_part_view part ≡ PartData.otherwise_branch (Statements.otherwise_if (if_view inner))) }
{
    Ok(StatementPart::OtherwiseBranch(Otherwise::If(Box::new(alloc, inner)?)))
}

fn start_declaration(alloc: Global, parts: &mut Parts) -> Result<StatementPart, AllocError>
    requires { Fits (kinds ActionOf.StartDeclaration) (parts_view parts.now) }
    ensures { IfOk result (λ part. statement_part_view part ≡ node ActionOf.StartDeclaration (parts_view parts.old)) }
{
    let specifiers = parts.declaration_part().specifiers();
    let pointers = parts.declaration_part().pointers();
    let name = parts.leaf();
    let place = parts.leaf().place;
    let value = parts.expression_part().operand().expression;
    Ok(StatementPart::ForStart(ForStart::Declaration {
        specifiers: specifiers.into_vec(),
        pointers: pointers.into_vec(),
        name: name.word(alloc)?,
        place,
        value,
    }))
}
