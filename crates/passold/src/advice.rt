//! What is said on standard error: what the user should know of the archive's folder, and what to do about a refusal.
use pass_host::Note;
use pass_old::{OldStatus, Status};

/// Says what its user should know of an archive's folder.
pub fn tell_note(rt: &HostRuntime, folder: &str, note: Option<Note>) {
    let _told = match note {
        Some(Note::Copied(copies)) => eprintln!(rt; "passold: {folder}: {copies}"),
        Some(Note::NoStore) => eprintln!(rt;
            "passold: {folder}: nothing is kept in it yet: see how the folder is spelled"
        ),
        Some(Note::OtherLog) => eprintln!(rt;
            "passold: {folder}: its `log` is no archive's: see how the folder is spelled"
        ),
        None => Ok(()),
    };
}

/// Says what to do about a status, by the folder of the archive that it is about.
pub fn tell_advice(rt: &HostRuntime, folder: &str, status: OldStatus) {
    let _told = match status {
        OldStatus::Same(Status::BadWords) => {
            eprintln!(rt; "passold: passold --help lists the commands")
        }
        OldStatus::Same(Status::NoObject(node)) if node.pnode.0 == 0 => {
            eprintln!(rt;
                "passold: no file of the store ever had that name: a name is a path below the folder of the run, or absolute"
            )
        }
        OldStatus::Same(Status::NoObject(_)) => {
            eprintln!(rt;
                "passold: the store has no such version: `passd DIR named NAME` lists those of a file"
            )
        }
        _ => match advice_on(status) {
            Some(advice) => eprintln!(rt; "passold: {folder}: {advice}"),
            None => Ok(()),
        },
    };
}

/// Says what to do about a pruning's status.
pub fn tell_fresh_advice(rt: &HostRuntime, archive: &str, fresh: &str, status: OldStatus) {
    let folder = match status {
        OldStatus::NotFresh | OldStatus::BadFresh { .. } | OldStatus::FreshFault => fresh,
        _ => archive,
    };
    tell_advice(rt, folder, status);
}

fn advice_on(status: OldStatus) -> Option<&'static str> {
    match status {
        OldStatus::Same(_) => None,
        OldStatus::NoVersion(_) => Some(
            "that version isn't kept: `versions P` lists those of a file",
        ),
        OldStatus::BadArchive { .. } => Some(
            "its `log` is damaged, full or no archive's, and is left as it is: take a copy of the folder that is whole",
        ),
        OldStatus::ArchiveFault => Some(
            "its files can't be read or written: see whether there is room; what was kept before stands",
        ),
        OldStatus::Lacks(_) => Some("the tar has the other versions"),
        OldStatus::NotFresh => Some("it has versions already: name a folder that is new"),
        OldStatus::BadFresh { .. } => Some(
            "its `log` is damaged, full or no archive's: name a folder that is new",
        ),
        OldStatus::FreshFault => Some(
            "its files can't be read or written: see whether there is room, and name another folder: what it has is a beginning",
        ),
        OldStatus::Unlike => Some(
            "the store isn't what was recovered as the run began: nothing was kept",
        ),
    }
}
