//! The versions of plan texts: which cuts and records each has a line for, and which is written.

ghost use Rattle.std.specs.Prelude.{◌≡◌};
ghost use Rattle.cert_format.specs.Versions.{is_loads, is_far, has_loads, has_cuts, has_thirds, has_line, is_asked, written_form};

use proof_tree::{Cut, Evidence, TreeNode};

/// The version of a plan text.
///
/// - Rule: docs/FORMATS.md, "Plan texts".
#[derive(Clone, Copy, Debug, PartialEq, Eq)]
pub enum Form {
    /// Each record that is closed or open by prices shows them.
    First,
    /// The different price lists stand before the tree, and records show their numbers.
    Second,
    /// As the second, with the cuts before the price lists, and with load splits.
    Third,
}

/// Whether the record is a load split.
fn is_loads(node: &TreeNode) -> bool
    ensures { result ≡ is_loads node.now }
{
    matches!(node, TreeNode::Loads { .. })
}

/// Whether the record is a leaf where a demand is far.
fn is_far(node: &TreeNode) -> bool
    ensures { result ≡ is_far node.now }
{
    matches!(node, TreeNode::Leaf(Evidence::Far { .. }))
}

/// Whether some record is a load split.
fn has_loads(nodes: &[TreeNode]) -> bool
    ensures { result ≡ has_loads nodes.now }
{
    nodes.iter().any(is_loads)
}

/// Whether there is a cut.
fn has_cuts(cuts: &[Cut]) -> bool
    ensures { result ≡ has_cuts cuts.now }
{
    match cuts {
        [] => false,
        [_, ..] => true,
    }
}

/// Whether there is a cut or a load split, for which the third version alone has lines.
fn has_thirds(cuts: &[Cut], nodes: &[TreeNode]) -> bool
    ensures { result ≡ has_thirds cuts.now nodes.now }
{
    has_cuts(cuts) || has_loads(nodes)
}

/// Whether the version has a line for the record.
pub(crate) fn has_line(form: Form, node: &TreeNode) -> bool
    ensures { result ≡ has_line form node.now }
{
    match form {
        Form::First => !is_loads(node) && !is_far(node),
        Form::Second => !is_loads(node),
        Form::Third => true,
    }
}

/// Whether the cuts and records ask for the version: a text of the third one has a cut or a load split.
pub(crate) fn is_asked(form: Form, cuts: &[Cut], nodes: &[TreeNode]) -> bool
    ensures { result ≡ is_asked form cuts.now nodes.now }
{
    match form {
        Form::First | Form::Second => true,
        Form::Third => has_thirds(cuts, nodes),
    }
}

/// The version in which a plan with these cuts and records is written.
pub(crate) fn written_form(cuts: &[Cut], nodes: &[TreeNode]) -> Form
    ensures { result ≡ written_form cuts.now nodes.now }
{
    if has_thirds(cuts, nodes) {
        Form::Third
    } else {
        Form::Second
    }
}
