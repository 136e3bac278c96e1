ghost use Rattle.std.specs.Prelude.{◌≡◌};
ghost use Rattle.desk_tables.specs.Keepable.{is_keepable, keeps_rightly};

use desk_coding::{put_change, put_kept, take_change, take_kept};
use desk_tables::{Change, Command, KeptRow, ProjectRow, Reply, Write};
use misra_base::{
    Category, Deviation, EntryList, Finding, FindingList, Form, Guideline, Kind, Name, NameList,
    Permit, Place, Plan, Status,
};
use std::alloc::{AllocError, Global};
use std::test::Fail;

/// ben approves the deviation 1 of `p` by his request `5`. The byte of the reply is missing.
const APPROVED: [u8; 34] = [
    0, 0, 0, 0, 0, 0, 0, 3, 98, 101, 110, 0, 0, 0, 0, 0, 0, 0, 1, 53, 3, 0, 0, 0, 0, 0, 0, 0, 1,
    112, 0, 0, 0, 1,
];

fn name(alloc: Global, text: &str) -> Result<Name, AllocError> {
    Name::from_bytes(alloc, text.as_bytes())
}

fn names(alloc: Global) -> Result<NameList, AllocError> {
    let mut names = Vec::new(alloc);
    names.push(name(alloc, "ann")?)?;
    names.push(name(alloc, "ben")?)?;
    Ok(NameList::from_vec(names))
}

fn row(alloc: Global, command: Command, reply: Reply) -> Result<KeptRow, AllocError> {
    Ok(KeptRow {
        caller: name(alloc, "ann")?,
        request: name(alloc, "r1")?,
        command,
        reply,
    })
}

fn plan() -> Plan {
    Plan {
        categories: [Category::Advisory; 19],
    }
}

fn making(alloc: Global) -> Result<Command, AllocError> {
    Ok(Command::MakeProject {
        name: name(alloc, "p")?,
        members: names(alloc)?,
    })
}

fn deviation(alloc: Global) -> Result<Deviation, AllocError> {
    Ok(Deviation {
        id: 7,
        guideline: Guideline::D5_1,
        function: name(alloc, "main")?,
        object: name(alloc, "t[*]")?,
        reason: name(alloc, "why")?,
        raiser: name(alloc, "ann")?,
        permit: Some(name(alloc, "permit")?),
        status: Status::Approved,
        approver: Some(name(alloc, "ben")?),
        form: Form::Pattern,
    })
}

fn findings(alloc: Global) -> Result<FindingList, AllocError> {
    let place = Place {
        line: 11,
        column: 5,
    };
    let mut found = Vec::new(alloc);
    found.push(Finding {
        guideline: Guideline::D5_1,
        place,
        other: Some(place),
        function: name(alloc, "first")?,
        object: name(alloc, "x")?,
        kind: Kind::Race,
    })?;
    Ok(FindingList::from_vec(found))
}

fn changing_commands(alloc: Global) -> Result<Vec<Command>, AllocError> {
    let mut entries = Vec::new(alloc);
    entries.push((Guideline::R15_5, Category::Disapplied))?;
    let mut commands = Vec::new(alloc);
    commands.push(making(alloc)?)?;
    commands.push(Command::Submit {
        project: name(alloc, "p")?,
        length: 262_144,
    })?;
    commands.push(Command::Raise {
        project: name(alloc, "p")?,
        guideline: Guideline::R22_20,
        function: name(alloc, "*")?,
        object: name(alloc, "x")?,
        reason: name(alloc, "why")?,
        permit: None,
    })?;
    commands.push(Command::AddPermit {
        name: name(alloc, "permit")?,
        guideline: Guideline::D5_2,
        reason: name(alloc, "why")?,
    })?;
    commands.push(Command::Recategorise {
        project: name(alloc, "p")?,
        guideline: Guideline::D5_3,
        category: Category::Mandatory,
    })?;
    commands.push(Command::ApplyPlan {
        project: name(alloc, "p")?,
        entries: EntryList::from_vec(entries),
    })?;
    Ok(commands)
}

fn short_commands(alloc: Global) -> Result<Vec<Command>, AllocError> {
    let mut commands = Vec::new(alloc);
    commands.push(Command::Approve {
        project: name(alloc, "p")?,
        deviation: 1,
    })?;
    commands.push(Command::Reject {
        project: name(alloc, "p")?,
        deviation: 2,
    })?;
    commands.push(Command::Withdraw {
        project: name(alloc, "p")?,
        deviation: 3,
    })?;
    commands.push(Command::ReadSummary {
        project: name(alloc, "p")?,
    })?;
    commands.push(Command::ReadFindings {
        project: name(alloc, "p")?,
    })?;
    commands.push(Command::ReadClaim {
        project: name(alloc, "p")?,
    })?;
    Ok(commands)
}

fn writes(alloc: Global) -> Result<Vec<Write>, AllocError> {
    let mut writes = Vec::new(alloc);
    writes.push(Write::NewProject(ProjectRow {
        name: name(alloc, "p")?,
        maker: None,
        members: names(alloc)?,
        plan: plan(),
        revision: 1,
    }))?;
    writes.push(Write::NewRevision(name(alloc, "p")?, 2, findings(alloc)?))?;
    writes.push(Write::NewDeviation(name(alloc, "p")?, deviation(alloc)?))?;
    writes.push(Write::SetDeviation(name(alloc, "p")?, deviation(alloc)?))?;
    writes.push(Write::NewPermit(Permit {
        name: name(alloc, "permit")?,
        guideline: Guideline::D5_1,
        reason: name(alloc, "why")?,
        maker: name(alloc, "ann")?,
    }))?;
    writes.push(Write::SetPlan(name(alloc, "p")?, plan()))?;
    Ok(writes)
}

fn replies(alloc: Global) -> Result<Vec<Reply>, AllocError> {
    let mut replies = Vec::new(alloc);
    replies.push(Reply::Made(name(alloc, "p")?))?;
    replies.push(Reply::Revision {
        number: 1_000_000,
        findings: 5_000_000_000,
    })?;
    replies.push(Reply::Raised(10_000))?;
    replies.push(Reply::Done)?;
    Ok(replies)
}

/// Whether the reply is one that is kept.
fn is_kept(reply: &Reply) -> bool
    ensures { result ≡ is_keepable reply.now }
{
    match reply {
        Reply::Made(_) | Reply::Revision { .. } | Reply::Raised(_) | Reply::Done => true,
        Reply::Summary { .. } | Reply::Findings { .. } | Reply::Claim { .. } => false,
    }
}

/// Whether the row that is kept, if one is, has such a reply.
fn keeps_one(kept: &Option<KeptRow>) -> bool
    ensures { result ≡ keeps_rightly kept.now }
{
    match kept {
        None => true,
        Some(row) => is_kept(&row.reply),
    }
}

/// The coding of a row that can be kept, and else no bytes.
fn kept_bytes(alloc: Global, row: &KeptRow) -> Result<Vec<u8>, AllocError> {
    if is_kept(&row.reply) {
        put_kept(alloc, row)
    } else {
        Ok(Vec::new(alloc))
    }
}

/// The coding of a change whose row can be kept, and else no bytes.
fn change_bytes(alloc: Global, change: &Change) -> Result<Vec<u8>, AllocError> {
    if keeps_one(&change.kept) {
        put_change(alloc, change)
    } else {
        Ok(Vec::new(alloc))
    }
}

/// Whether what is taken of the row's coding has that coding.
fn row_comes_back(alloc: Global, row: &KeptRow) -> Result<bool, AllocError> {
    let bytes = kept_bytes(alloc, row)?;
    match take_kept(alloc, &bytes)? {
        Some(taken) => Ok(kept_bytes(alloc, &taken)? == bytes),
        None => Ok(false),
    }
}

/// Whether what is taken of the change's coding has that coding.
fn change_comes_back(alloc: Global, change: &Change) -> Result<bool, AllocError> {
    let bytes = change_bytes(alloc, change)?;
    match take_change(alloc, &bytes)? {
        Some(taken) => Ok(change_bytes(alloc, &taken)? == bytes),
        None => Ok(false),
    }
}

/// Whether the command with each reply is taken as it was put.
fn comes_back_with_each_reply(alloc: Global, command: &Command) -> Result<bool, AllocError> {
    for reply in replies(alloc)? {
        let row = row(alloc, command.clone()?, reply)?;
        if !row_comes_back(alloc, &row)? {
            return Ok(false);
        }
    }
    Ok(true)
}

fn approval(alloc: Global) -> Result<KeptRow, AllocError> {
    Ok(KeptRow {
        caller: name(alloc, "ben")?,
        request: name(alloc, "5")?,
        command: Command::Approve {
            project: name(alloc, "p")?,
            deviation: 1,
        },
        reply: Reply::Done,
    })
}

/// ann makes `p` with members ann and ben.
fn project_made(alloc: Global) -> Result<Change, AllocError> {
    let made = Reply::Made(name(alloc, "p")?);
    Ok(Change {
        write: Write::NewProject(ProjectRow {
            name: name(alloc, "p")?,
            maker: Some(name(alloc, "ann")?),
            members: names(alloc)?,
            plan: plan(),
            revision: 0,
        }),
        kept: Some(row(alloc, making(alloc)?, made)?),
    })
}

/// The bytes of the approval, with this byte as its reply.
fn approved(alloc: Global, reply: u8) -> Result<Vec<u8>, AllocError> {
    let mut bytes = Vec::from_slice(alloc, &APPROVED)?;
    bytes.push(reply)?;
    Ok(bytes)
}

fn is_the_approval(row: &KeptRow) -> bool {
    row.caller.bytes() == "ben".as_bytes()
        && row.request.bytes() == "5".as_bytes()
        && matches!(&row.command, Command::Approve { deviation: 1, .. })
        && matches!(&row.reply, Reply::Done)
}

/// Whether bytes are an approval's row.
fn are_the_approval(alloc: Global, bytes: &[u8]) -> Result<bool, AllocError> {
    match take_kept(alloc, bytes)? {
        Some(row) => Ok(is_the_approval(&row)),
        None => Ok(false),
    }
}

#[test]
fn a_kept_approval_is_its_names_and_numbers(rt: HostRuntime) -> Result<(), Fail> {
    let alloc = rt.alloc();
    let bytes = approved(alloc, 3)?;
    assert!(rt; kept_bytes(alloc, &approval(alloc)?)? == bytes);
    assert!(rt; are_the_approval(alloc, &bytes)?);
    Ok(())
}

#[test]
fn bytes_that_are_no_row(rt: HostRuntime) -> Result<(), Fail> {
    let alloc = rt.alloc();
    assert!(rt; take_kept(alloc, &[])?.is_none());
    assert!(rt; take_kept(alloc, &APPROVED)?.is_none(), "there is no reply");
    let other = approved(alloc, 4)?;
    assert!(rt;
        take_kept(alloc, &other)?.is_none(),
        "no reply that is kept has the number 4"
    );
    let mut bytes = approved(alloc, 3)?;
    assert!(rt; take_kept(alloc, &bytes)?.is_some());
    bytes.push(0)?;
    assert!(rt;
        take_kept(alloc, &bytes)?.is_none(),
        "a byte stands behind the row"
    );
    Ok(())
}

#[test]
fn each_command_that_changes_the_tables_is_taken_as_it_was_put(
    rt: HostRuntime,
) -> Result<(), Fail> {
    let alloc = rt.alloc();
    let commands = changing_commands(alloc)?;
    for command in &commands {
        assert!(rt; comes_back_with_each_reply(alloc, command)?);
    }
    Ok(())
}

#[test]
fn each_short_command_is_taken_as_it_was_put(rt: HostRuntime) -> Result<(), Fail> {
    let alloc = rt.alloc();
    let commands = short_commands(alloc)?;
    for command in &commands {
        assert!(rt; comes_back_with_each_reply(alloc, command)?);
    }
    Ok(())
}

#[test]
fn each_write_is_taken_as_it_was_put(rt: HostRuntime) -> Result<(), Fail> {
    let alloc = rt.alloc();
    for write in writes(alloc)? {
        let change = Change { write, kept: None };
        assert!(rt; change_comes_back(alloc, &change)?);
    }
    Ok(())
}

/// 75 bytes of the project, and 72 of what is kept.
#[test]
fn a_project_made_is_147_bytes(rt: HostRuntime) -> Result<(), Fail> {
    let alloc = rt.alloc();
    let change = project_made(alloc)?;
    let bytes = change_bytes(alloc, &change)?;
    assert_eq!(rt; bytes.len(), 147);
    assert!(rt; change_comes_back(alloc, &change)?);
    Ok(())
}
