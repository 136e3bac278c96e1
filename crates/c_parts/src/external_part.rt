ghost use Rattle.std.specs.Prelude.{◌≡◌, map};
ghost use Rattle.std.specs.Option.{option_map};
ghost use Rattle.c_rawtree.specs.Views.{bound_view};
ghost use Rattle.c_rawtree.specs.StatementViews.{block_view, external_view, parameter_view};
ghost use Rattle.c_parts.specs.Kinds;
ghost use Rattle.c_parts.specs.PartData;
ghost use Rattle.c_parts.specs.PartViews.{external_part_view, external_rest_view, function_rest_view, name_rest_view, parameter_name_view};
ghost use Rattle.c_parts.specs.Reading.{kind_of, optional_bound_of, parameter_name_of, parameter_of, parameters_of, optional_block_of, function_rest_of, name_rest_of, external_rest_of, external_of, externals_of};

use crate::chain::Chain;
use crate::declaration_part::Objects;
use c_rawtree::{Block, Bound, External, InitDeclarator, Parameter, Pointer, Word};

/// The name and the bound of a parameter.
#[derive(Drop)]
pub struct ParameterName {
    pub name: Option<Word>,
    pub bound: Option<Bound>,
}

/// What stands behind the name of a function.
#[derive(Drop)]
pub struct FunctionRest {
    pub parameters: Chain<Parameter>,
    pub body: Option<Block>,
}

/// What stands behind the first name of an external declaration.
#[derive(Drop)]
pub enum NameRest {
    Function(FunctionRest),
    Objects(Objects),
}

/// What stands behind the specifiers of an external declaration.
#[derive(Drop)]
pub enum ExternalRest {
    Declarators(Chain<InitDeclarator>),
    Function {
        pointers: Chain<Pointer>,
        name: Word,
        rest: FunctionRest,
    },
}

/// A part that is an external declaration or stands in one (C11 6.9).
pub enum ExternalPart {
    /// The bound of a parameter, or none.
    OptionalBound(Option<Bound>),
    /// The name and the bound of a parameter.
    ParameterName(ParameterName),
    /// A parameter.
    Parameter(Parameter),
    /// Parameters.
    Parameters(Chain<Parameter>),
    /// The body of a function, where it is defined.
    OptionalBlock(Option<Block>),
    /// What stands behind the name of a function.
    FunctionRest(FunctionRest),
    /// What stands behind the first name of an external declaration.
    NameRest(NameRest),
    /// What stands behind the specifiers of an external declaration.
    ExternalRest(ExternalRest),
    /// An external declaration.
    External(External),
    /// External declarations.
    Externals(Chain<External>),
}

impl Drop for ExternalPart {
    fn drop(self) {
        match self {
            ExternalPart::OptionalBound(_)
            | ExternalPart::ParameterName(_)
            | ExternalPart::Parameter(_)
            | ExternalPart::Parameters(_)
            | ExternalPart::OptionalBlock(_)
            | ExternalPart::FunctionRest(_)
            | ExternalPart::NameRest(_)
            | ExternalPart::ExternalRest(_)
            | ExternalPart::External(_)
            | ExternalPart::Externals(_) => {}
        }
    }
}

impl ExternalPart {
    /// Its content: the bound of a parameter, or none.
    pub fn optional_bound(self) -> Option<Bound>
        requires { kind_of (PartData.external_part (external_part_view self)) ≡ Kinds.optional_bound }
        ensures { option_map bound_view result ≡ optional_bound_of (PartData.external_part (external_part_view self)) }
    {
        match self {
            ExternalPart::OptionalBound(part) => part,
            _ => unreachable!(),
        }
    }

    /// Its content: the name and the bound of a parameter.
    pub fn parameter_name(self) -> ParameterName
        requires { kind_of (PartData.external_part (external_part_view self)) ≡ Kinds.parameter_name }
        ensures { parameter_name_view result ≡ parameter_name_of (PartData.external_part (external_part_view self)) }
    {
        match self {
            ExternalPart::ParameterName(part) => part,
            _ => unreachable!(),
        }
    }

    /// Its content: a parameter.
    pub fn parameter(self) -> Parameter
        requires { kind_of (PartData.external_part (external_part_view self)) ≡ Kinds.parameter }
        ensures { parameter_view result ≡ parameter_of (PartData.external_part (external_part_view self)) }
    {
        match self {
            ExternalPart::Parameter(part) => part,
            _ => unreachable!(),
        }
    }

    /// Its content: parameters.
    pub fn parameters(self) -> Chain<Parameter>
        requires { kind_of (PartData.external_part (external_part_view self)) ≡ Kinds.parameters }
        ensures { map parameter_view result ≡ parameters_of (PartData.external_part (external_part_view self)) }
    {
        match self {
            ExternalPart::Parameters(part) => part,
            _ => unreachable!(),
        }
    }

    /// Its content: the body of a function, where it is defined.
    pub fn optional_block(self) -> Option<Block>
        requires { kind_of (PartData.external_part (external_part_view self)) ≡ Kinds.optional_block }
        ensures { option_map block_view result ≡ optional_block_of (PartData.external_part (external_part_view self)) }
    {
        match self {
            ExternalPart::OptionalBlock(part) => part,
            _ => unreachable!(),
        }
    }

    /// Its content: what stands behind the name of a function.
    pub fn function_rest(self) -> FunctionRest
        requires { kind_of (PartData.external_part (external_part_view self)) ≡ Kinds.function_rest }
        ensures { function_rest_view result ≡ function_rest_of (PartData.external_part (external_part_view self)) }
    {
        match self {
            ExternalPart::FunctionRest(part) => part,
            _ => unreachable!(),
        }
    }

    /// Its content: what stands behind the first name of an external declaration.
    pub fn name_rest(self) -> NameRest
        requires { kind_of (PartData.external_part (external_part_view self)) ≡ Kinds.name_rest }
        ensures { name_rest_view result ≡ name_rest_of (PartData.external_part (external_part_view self)) }
    {
        match self {
            ExternalPart::NameRest(part) => part,
            _ => unreachable!(),
        }
    }

    /// Its content: what stands behind the specifiers of an external declaration.
    pub fn external_rest(self) -> ExternalRest
        requires { kind_of (PartData.external_part (external_part_view self)) ≡ Kinds.external_rest }
        ensures { external_rest_view result ≡ external_rest_of (PartData.external_part (external_part_view self)) }
    {
        match self {
            ExternalPart::ExternalRest(part) => part,
            _ => unreachable!(),
        }
    }

    /// Its content: an external declaration.
    pub fn external(self) -> External
        requires { kind_of (PartData.external_part (external_part_view self)) ≡ Kinds.external }
        ensures { external_view result ≡ external_of (PartData.external_part (external_part_view self)) }
    {
        match self {
            ExternalPart::External(part) => part,
            _ => unreachable!(),
        }
    }

    /// Its content: external declarations.
    pub fn externals(self) -> Chain<External>
        requires { kind_of (PartData.external_part (external_part_view self)) ≡ Kinds.externals }
        ensures { map external_view result ≡ externals_of (PartData.external_part (external_part_view self)) }
    {
        match self {
            ExternalPart::Externals(part) => part,
            _ => unreachable!(),
        }
    }
}
