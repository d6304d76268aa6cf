//! What is told of the leaves that were judged.
ghost use Rattle.std.specs.Prelude.{◌≡◌, ◌++◌, IfOk, OnOk, length, string_bytes};
ghost use Rattle.std.specs.List.{count_by};
ghost use Rattle.pass_audit.specs.Audits.{audit_text as audit_text_of, count_line, is_unknown as is_unknown_of, is_unlike as is_unlike_of, judged_line};

use crate::verdict::{Judged, Verdict};
use std::alloc::{AllocError, Global};
use std::fmt::Write;

fn is_unlike(judged: &Judged) -> bool
    ensures { result ≡ is_unlike_of judged.now }
{
    matches!(judged.verdict, Verdict::Unlike)
}

fn is_unknown(judged: &Judged) -> bool
    ensures { result ≡ is_unknown_of judged.now }
{
    matches!(judged.verdict, Verdict::Unknown)
}

// Adds the line of a leaf that isn't borne out.
fn add_line(text: &mut String, judged: &Judged) -> Result<(), AllocError>
    ensures { OnOk result (string_bytes text.new ≡ string_bytes text.old ++ judged_line judged.now) }
{
    let node = judged.node;
    match judged.verdict {
        Verdict::Borne => Ok(()),
        Verdict::Unlike => writeln!(text, "unlike {node}"),
        Verdict::Unknown => writeln!(text, "unknown {node}"),
    }
}

// How many are another content's.
fn count_unlike(all: &[Judged]) -> usize
    ensures { result ≡ count_by is_unlike_of all.now }
{
    all.iter().filter(|judged| is_unlike(judged)).count()
}

// How many the log doesn't have.
fn count_unknown(all: &[Judged]) -> usize
    ensures { result ≡ count_by is_unknown_of all.now }
{
    all.iter().filter(|judged| is_unknown(judged)).count()
}

// Adds the line of the counts.
fn add_counts(text: &mut String, all: &[Judged]) -> Result<(), AllocError>
    ensures { OnOk result (string_bytes text.new ≡ string_bytes text.old ++ count_line (length all.now) (count_by is_unlike_of all.now) (count_by is_unknown_of all.now)) }
{
    let count = all.len();
    let unlike = count_unlike(all);
    let unknown = count_unknown(all);
    writeln!(
        text,
        "checked {count} versions {unlike} unlike {unknown} unknown"
    )
}

/// A line for each leaf that isn't borne out, and one that counts.
pub fn audit_text(alloc: Global, all: &[Judged]) -> Result<String, AllocError>
    ensures { IfOk result (λ text. string_bytes text ≡ audit_text_of all.now) }
{
    let mut text = String::new(alloc);
    for judged in all {
        add_line(&mut text, judged)?;
    }
    add_counts(&mut text, all)?;
    Ok(text)
}
