ghost use Rattle.std.specs.Prelude.{◌≡◌};
ghost use Rattle.sl_edit.specs.Spans as spans;

/// What stands at the front of results that are OK (RFC 1813, section 3.3).
#[derive(Clone, Copy, Debug, PartialEq, Eq)]
pub(crate) enum Layout {
    /// The object's attributes.
    Bare,
    /// A `post_op_attr` of the object.
    Flagged,
    /// `wcc_data` of the object.
    Wcc,
    /// A handle, and a `post_op_attr` of its object.
    Handle,
    /// A `post_op_fh3`, and a `post_op_attr` of its object.
    OptionalHandle,
}

/// That of a procedure, if it is about one object.
#[tactic(auto, unfolding(crate::specs::Spans::layout_of))]
pub(crate) fn layout_of(procedure: u32) -> Option<Layout>
    ensures { result ≡ spans.layout_of procedure }
{
    match procedure {
        1 => Some(Layout::Bare),
        2 => Some(Layout::Wcc),
        3 => Some(Layout::Handle),
        4 => Some(Layout::Flagged),
        5 => Some(Layout::Flagged),
        6 => Some(Layout::Flagged),
        7 => Some(Layout::Wcc),
        8 => Some(Layout::OptionalHandle),
        9 => Some(Layout::OptionalHandle),
        10 => Some(Layout::OptionalHandle),
        11 => Some(Layout::OptionalHandle),
        15 => Some(Layout::Flagged),
        21 => Some(Layout::Wcc),
        _ => None,
    }
}
