//! Whether two lists have the same records.
ghost use Rattle.std.specs.Prelude.{◌≡◌, ◌↔◌, IsTrue};

use pass_entry::{Record, Text};

fn same_text(a: &Text, b: &Text) -> bool
    ensures { IsTrue result ↔ (a.now ≡ b.now) }
{
    a.as_bytes() == b.as_bytes()
}

// Both are the same record.
fn same_record(a: &Record, b: &Record) -> bool
    ensures { IsTrue result ↔ (a.now ≡ b.now) }
{
    match a {
        Record::Object { pnode, kind } => match b {
            Record::Object { pnode: p, kind: k } => *pnode == *p && *kind == *k,
            _ => false,
        },
        Record::Name { pnode, name } => match b {
            Record::Name { pnode: p, name: n } => *pnode == *p && same_text(name, n),
            _ => false,
        },
        Record::Attr { node, attr, value } => match b {
            Record::Attr {
                node: n,
                attr: a,
                value: v,
            } => *node == *n && same_text(attr, a) && same_text(value, v),
            _ => false,
        },
        Record::Input { target, source } => match b {
            Record::Input {
                target: t,
                source: s,
            } => *target == *t && *source == *s,
            _ => false,
        },
        Record::Version { node } => match b {
            Record::Version { node: n } => *node == *n,
            _ => false,
        },
        Record::Size { pnode, size } => match b {
            Record::Size { pnode: p, size: s } => *pnode == *p && *size == *s,
            _ => false,
        },
        Record::Digest { pnode, block, md5 } => match b {
            Record::Digest {
                pnode: p,
                block: k,
                md5: m,
            } => *pnode == *p && *block == *k && *md5 == *m,
            _ => false,
        },
        Record::Ceiling { pnode } => match b {
            Record::Ceiling { pnode: p } => *pnode == *p,
            _ => false,
        },
    }
}

/// Both lists have the same records, in the same order.
pub(crate) fn same_list(a: &[Record], b: &[Record]) -> bool
    ensures { IsTrue result ↔ (a.now ≡ b.now) }
{
    if a.len() != b.len() {
        return false;
    }
    for place in 0..a.len() {
        if !same_record(&a[place], &b[place]) {
            return false;
        }
    }
    true
}
