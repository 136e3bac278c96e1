ghost use Rattle.std.specs.Prelude.{◌≡◌};

use desk_tables::{Command, KeepStop};
use misra_base::{Guideline, Name, Status};
use std::alloc::AllocError;

/// A part of a request that is outside its form. Where several are, the first in this order answers.
#[derive(Clone, Copy, Debug, PartialEq, Eq)]
pub enum Field {
    Caller,
    Request,
    Project,
    Name,
    Members,
    Function,
    Object,
    Reason,
    Permit,
    Entries,
}

/// Why a command is not done. All but the last two are refusals, each with what stands against the command.
#[derive(Debug, Drop)]
pub enum DeskStop {
    /// There is no project of that name.
    NoProject,
    /// A project or a permit has the name already.
    NameTaken,
    /// The project has no deviation with that id.
    NoDeviation,
    /// The deviation stands in this state, from which the command leads nowhere.
    WrongState(Status),
    /// This caller raised the deviation, and does not approve it.
    SamePerson(Name),
    /// The plan makes this guideline Mandatory, and no deviation from it is allowed.
    MandatoryNotDeviable(Guideline),
    /// The permit that is cited is for this guideline.
    PermitForOther(Guideline),
    /// There is no permit of the name that is cited.
    NoPermit,
    /// The category is less strict than the guideline may become.
    Lowered(Guideline),
    /// The guideline would become Mandatory, but so many of its deviations are approved.
    HasApprovedDeviations(u64),
    /// The caller used the request's id for this other command.
    RequestIdReused(Command),
    /// The caller is no member of the project.
    NotMember,
    /// The first field that is outside its form.
    BadText(Field),
    /// The command would pass this limit.
    LimitReached(u32),
    /// The project has no accepted revision.
    NoRevision,
    /// The keeper failed, and counted it. The command was done whole or not at all.
    KeeperFault,
    /// There was no memory. Nothing was done.
    Memory,
}

impl Field {
    ghost use Rattle.desk_core.specs.Stops.{field_name};

    /// The field as it is written.
    pub fn name(self) -> &'static str
        ensures { result.now ≡ field_name self }
    {
        match self {
            Field::Caller => "Caller",
            Field::Request => "Request",
            Field::Project => "Project",
            Field::Name => "Name",
            Field::Members => "Members",
            Field::Function => "Function",
            Field::Object => "Object",
            Field::Reason => "Reason",
            Field::Permit => "Permit",
            Field::Entries => "Entries",
        }
    }
}

impl DeskStop {
    ghost use Rattle.desk_core.specs.Stops.{stop_name, stop_number};

    /// The number of the refusal.
    pub fn number(&self) -> u8
        ensures { result ≡ stop_number self.now }
    {
        match self {
            DeskStop::NoProject => 1,
            DeskStop::NameTaken => 2,
            DeskStop::NoDeviation => 3,
            DeskStop::WrongState(_) => 4,
            DeskStop::SamePerson(_) => 5,
            DeskStop::MandatoryNotDeviable(_) => 6,
            DeskStop::PermitForOther(_) => 7,
            DeskStop::NoPermit => 8,
            DeskStop::Lowered(_) => 9,
            DeskStop::HasApprovedDeviations(_) => 10,
            DeskStop::RequestIdReused(_) => 11,
            DeskStop::NotMember => 12,
            DeskStop::BadText(_) => 13,
            DeskStop::LimitReached(_) => 14,
            DeskStop::NoRevision => 15,
            DeskStop::KeeperFault => 16,
            DeskStop::Memory => 17,
        }
    }

    /// The name of the refusal.
    pub fn name(&self) -> &'static str
        ensures { result.now ≡ stop_name self.now }
    {
        match self {
            DeskStop::NoProject => "NoProject",
            DeskStop::NameTaken => "NameTaken",
            DeskStop::NoDeviation => "NoDeviation",
            DeskStop::WrongState(_) => "WrongState",
            DeskStop::SamePerson(_) => "SamePerson",
            DeskStop::MandatoryNotDeviable(_) => "MandatoryNotDeviable",
            DeskStop::PermitForOther(_) => "PermitForOther",
            DeskStop::NoPermit => "NoPermit",
            DeskStop::Lowered(_) => "Lowered",
            DeskStop::HasApprovedDeviations(_) => "HasApprovedDeviations",
            DeskStop::RequestIdReused(_) => "RequestIdReused",
            DeskStop::NotMember => "NotMember",
            DeskStop::BadText(_) => "BadText",
            DeskStop::LimitReached(_) => "LimitReached",
            DeskStop::NoRevision => "NoRevision",
            DeskStop::KeeperFault => "KeeperFault",
            DeskStop::Memory => "Memory",
        }
    }
}

impl From<KeepStop> for DeskStop {
    ghost use Rattle.desk_core.specs.Answering.{stop_for};

    ghost from_gives = { λ stop e. e ≡ stop_for stop };

    fn from(stop: KeepStop) -> DeskStop {
        match stop {
            KeepStop::Failed => DeskStop::KeeperFault,
            KeepStop::Memory => DeskStop::Memory,
        }
    }
}

impl From<AllocError> for DeskStop {
    ghost use Rattle.desk_core.specs.declared.stop.DeskStop.TheVariants.{Memory};

    ghost from_gives = { λ _ e. e ≡ Memory };

    fn from(_: AllocError) -> DeskStop {
        DeskStop::Memory
    }
}
