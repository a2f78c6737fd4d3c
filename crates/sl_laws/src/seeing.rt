//! Laws of views, and of calls that are told less than whole nodes. Each function says one and does nothing.
ghost use Rattle.sl_laws.specs.Attributes.{AttributesSuffice};
ghost use Rattle.sl_laws.specs.Following.{ViewsFollow, FlushKeepsViews, FlushKeepsBytes, FlushesAreUnseen};
ghost use Rattle.sl_laws.specs.Showing.{BytesOnlyShow};

/// What GETATTR, LOOKUP, ACCESS, READ, WRITE and COMMIT answer where of files only the attributes of the views were
/// gathered, and set of them, is what they answer and change over the volume.
pub fn attributes_suffice()
    ensures { AttributesSuffice }
{}

/// The views after any changes follow from those before, whatever is unstable: so what was gathered of an object stays
/// right if it is changed as the volume is.
pub fn views_follow()
    ensures { ViewsFollow }
{}

/// A flush of any file leaves every view as it is.
pub fn flush_keeps_views()
    ensures { FlushKeepsViews }
{}

/// Whatever bytes and write verifier a call is told, it needs and changes the same, and answers the same but for these: so
/// a call may be computed before the server of the bytes is asked.
pub fn bytes_only_show()
    ensures { BytesOnlyShow }
{}

/// A flush of any file leaves the bytes of every view as they are.
pub fn flush_keeps_bytes()
    ensures { FlushKeepsBytes }
{}

/// No call tells whether a file was flushed: it answers the same, and makes the same changes.
pub fn flushes_are_unseen()
    ensures { FlushesAreUnseen }
{}
