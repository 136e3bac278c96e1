ghost use Rattle.std.specs.Prelude.{◌≡◌};
ghost use Rattle.desk_core.specs.Callers.{is_member_of, name_of};
ghost use Rattle.std.specs.List.{list_any};
ghost use Rattle.std.specs.Str.{bytes_eq};

use desk_tables::ProjectRow;
use misra_base::Name;
use std::alloc::AllocError;

/// Who asks. The console counts as a member of each project, and has no name.
#[derive(Debug, Drop)]
pub enum Caller {
    Console,
    Member(Name),
}

impl Caller {
    /// Whether the caller may act on the project.
    pub fn belongs_to(&self, project: &ProjectRow) -> bool
        ensures { result ≡ is_member_of self.now project.now }
    {
        match self {
            Caller::Console => true,
            Caller::Member(name) => contains(project.members.items(), name),
        }
    }

    /// The caller's name, which is empty for the console.
    pub fn name(&self) -> &[u8]
        ensures { result.now ≡ name_of self.now }
    {
        match self {
            Caller::Console => &[],
            Caller::Member(name) => name.bytes(),
        }
    }
}

impl Caller {
    ghost use Rattle.std.specs.Prelude.{IfOk};
    ghost use Rattle.desk_core.specs.Callers.{maker_of};

    /// The caller as the maker of a project.
    pub fn as_maker(&self) -> Result<Option<Name>, AllocError>
        ensures { IfOk result (λ maker. maker ≡ maker_of self.now) }
    {
        match self {
            Caller::Console => Ok(None),
            Caller::Member(name) => Ok(Some(name.clone()?)),
        }
    }
}

/// Whether the name is one of these.
pub fn contains(names: &[Name], name: &Name) -> bool
    ensures { result ≡ list_any (λ member. bytes_eq member name.now) names.now }
{
    names.iter().any(|member| member == name)
}
