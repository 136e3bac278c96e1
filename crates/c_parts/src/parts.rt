ghost use Rattle.std.specs.Prelude.{◌≡◌, [], ◌∷◌, OnOk};
ghost use Rattle.c_parts.specs.Kinds;
ghost use Rattle.c_parts.specs.PartData;
ghost use Rattle.c_parts.specs.PartViews.{part_view, parts_view, leaf_view, expression_part_view, declaration_part_view, external_part_view, statement_part_view};
ghost use Rattle.c_parts.specs.Reading.{first, rest, kind_of, leaf_of};

use crate::chain::Chain;
use crate::declaration_part::DeclarationPart;
use crate::expression_part::ExpressionPart;
use crate::external_part::ExternalPart;
use crate::leaf::Leaf;
use crate::part::Part;
use crate::statement_part::StatementPart;
use misra_base::Place;
use std::alloc::{AllocError, Global};

/// The parts of a production, which are taken one by one from the first.
#[derive(Drop)]
pub struct Parts<'a> {
    pub chain: Chain<Part<'a>>,
}

impl<'a> Parts<'a> {
    /// No parts.
    pub fn new(alloc: Global) -> Parts<'a>
        ensures { parts_view result ≡ [] }
    {
        Parts {
            chain: Chain::new(alloc),
        }
    }

    /// Drops all parts, and keeps the room for them.
    pub fn clear(&mut self)
        ensures { parts_view self.new ≡ [] }
    {
        self.chain.clear();
    }

    /// Puts a part before all others.
    pub fn put_front(&mut self, part: Part<'a>) -> Result<(), AllocError>
        ensures { OnOk result (parts_view self.new ≡ part_view part.entry ∷ parts_view self.old) }
    {
        self.chain.put_front(part)
    }

    /// Takes the first part: a token without text where there is none.
    fn next(&mut self) -> Part<'a>
        ensures part { part_view result ≡ first (parts_view self.old) }
        ensures rest { parts_view self.new ≡ rest (parts_view self.old) }
    {
        match self.chain.take_front() {
            Some(part) => part,
            None => Part::Leaf(Leaf {
                place: Place { line: 1, column: 1 },
                text: &[],
            }),
        }
    }

    /// Takes the first part, a token.
    pub fn leaf(&mut self) -> Leaf<'a>
        requires { kind_of (first (parts_view self.now)) ≡ Kinds.leaf }
        ensures result { leaf_view result ≡ leaf_of (first (parts_view self.old)) }
        ensures rest { parts_view self.new ≡ rest (parts_view self.old) }
    {
        match self.next() {
            Part::Leaf(leaf) => leaf,
            _ => unreachable!(),
        }
    }

    /// Takes the first part: an expression or what stands in one.
    pub fn expression_part(&mut self) -> ExpressionPart
        requires { Kinds.IsExpression (kind_of (first (parts_view self.now))) }
        ensures part { PartData.expression_part (expression_part_view result) ≡ first (parts_view self.old) }
        ensures rest { parts_view self.new ≡ rest (parts_view self.old) }
    {
        match self.next() {
            Part::Expression(part) => part,
            _ => unreachable!(),
        }
    }

    /// Takes the first part: of a declaration.
    pub fn declaration_part(&mut self) -> DeclarationPart
        requires { Kinds.IsDeclaration (kind_of (first (parts_view self.now))) }
        ensures part { PartData.declaration_part (declaration_part_view result) ≡ first (parts_view self.old) }
        ensures rest { parts_view self.new ≡ rest (parts_view self.old) }
    {
        match self.next() {
            Part::Declaration(part) => part,
            _ => unreachable!(),
        }
    }

    /// Takes the first part: of an external declaration.
    pub fn external_part(&mut self) -> ExternalPart
        requires { Kinds.IsExternal (kind_of (first (parts_view self.now))) }
        ensures part { PartData.external_part (external_part_view result) ≡ first (parts_view self.old) }
        ensures rest { parts_view self.new ≡ rest (parts_view self.old) }
    {
        match self.next() {
            Part::External(part) => part,
            _ => unreachable!(),
        }
    }

    /// Takes the first part: of a statement.
    pub fn statement_part(&mut self) -> StatementPart
        requires { Kinds.IsStatement (kind_of (first (parts_view self.now))) }
        ensures part { PartData.statement_part (statement_part_view result) ≡ first (parts_view self.old) }
        ensures rest { parts_view self.new ≡ rest (parts_view self.old) }
    {
        match self.next() {
            Part::Statement(part) => part,
            _ => unreachable!(),
        }
    }
}
