//! What the records of a log say of single files.
ghost use Rattle.std.specs.Prelude.{◌≡◌};
ghost use Rattle.pass_entry.specs.declared.objects.Kind.TheVariants as kinds;
ghost use Rattle.pass_plain.specs.Registries.{same_kind};
ghost use Rattle.pass_audit.specs.Courses.{step_in, is_later as is_later_step};

use pass_entry::{Kind, Pnode, Record};

/// What a record says of an object.
#[derive(Clone, Copy)]
pub(crate) enum Step {
    /// It was made.
    Made { is_file: bool },
    /// It has this version.
    Version(u64),
    /// It has this size.
    Size(u64),
    /// A block of it has this digest.
    Digest { block: u32, md5: [u8; 16] },
}

// The object is a file.
fn is_file(kind: Kind) -> bool
    ensures { result ≡ same_kind kind kinds.File }
{
    matches!(kind, Kind::File)
}

/// What a record says of the files' contents or versions, and of which object.
pub(crate) fn step_in(one: &Record) -> Option<(Pnode, Step)>
    ensures { result ≡ step_in one.now }
{
    match one {
        Record::Object { pnode, kind } => Some((
            *pnode,
            Step::Made {
                is_file: is_file(*kind),
            },
        )),
        Record::Version { node } => Some((node.pnode, Step::Version(node.version))),
        Record::Size { pnode, size } => Some((*pnode, Step::Size(*size))),
        Record::Digest { pnode, block, md5 } => Some((
            *pnode,
            Step::Digest {
                block: *block,
                md5: *md5,
            },
        )),
        Record::Name { .. } | Record::Attr { .. } | Record::Input { .. } | Record::Ceiling { .. } =>
            None,
    }
}

/// The step begins a later version.
pub(crate) fn is_later(version: u64, step: &Step) -> bool
    ensures { result ≡ is_later_step version step.now }
{
    match step {
        Step::Version(next) => version < *next,
        _ => false,
    }
}
