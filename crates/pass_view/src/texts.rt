//! A view as a text.
ghost use Rattle.std.specs.Prelude.{◌≡◌, ◌↔◌, IfOk, Some, Err};
ghost use Rattle.pass_entry.specs.declared.objects.Node.{Node};
ghost use Rattle.pass_graph.specs.ListRanks.{HasNode};
ghost use Rattle.pass_query.specs.declared.fault.QueryFault.{QueryFault};
ghost use Rattle.pass_view.specs.Texts.{IsTableText, IsViewText, text_in};

use crate::csvs::{Table, tabulate};
use crate::dots::{dot, plain};
use crate::picture::View;
use crate::provs::prov;
use crate::selecting::select;
use pass_entry::Node;
use pass_query::QueryFault;
use pass_waldo::Index;
use std::alloc::{AllocError, Global};

/// How a view is written.
#[derive(Clone, Copy, PartialEq, Eq)]
pub enum Form {
    /// In the DOT language of Graphviz.
    Dot,
    /// In the DOT language, without the files that a system brings along.
    Plain,
    /// In PROV-JSON, after the W3C.
    Prov,
}

/// The text that shows the whole graph, or the part of it that a node came from, with that node.
pub fn view_text(
    alloc: Global,
    index: &Index,
    node: Option<Node>,
    form: Form,
) -> Result<Vec<u8>, QueryFault>
    ensures text { IfOk result (λ v. IsViewText index.now node form v.items) }
    ensures absent { (n : Node) → (result ≡ Err (QueryFault.NoObject n)) ↔ ((node ≡ Some n) × ¬ (HasNode index.now n)) }
{
    let view = select(alloc, index, node)?;
    Ok(written(alloc, view, form)?)
}

// The view in this form.
fn written(alloc: Global, view: View, form: Form) -> Result<Vec<u8>, AllocError>
    ensures { IfOk result (λ v. v.items ≡ text_in form view) }
{
    match form {
        Form::Dot => dot(alloc, &view),
        Form::Plain => dot(alloc, &plain(view)),
        Form::Prov => prov(alloc, &view),
    }
}

/// The whole graph as one of its two tables, for a store of this name.
pub fn table_text(
    alloc: Global,
    index: &Index,
    table: Table,
    store: &[u8],
) -> Result<Vec<u8>, QueryFault>
    ensures text { IfOk result (λ v. IsTableText index.now table store.now v.items) }
    // No node was asked for that could be missing.
    ensures there { (n : Node) → ¬ (result ≡ Err (QueryFault.NoObject n)) }
{
    let view = select(alloc, index, None)?;
    Ok(tabulate(alloc, &view, table, store)?)
}
