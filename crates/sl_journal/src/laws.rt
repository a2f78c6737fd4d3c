//! What holds of the layout as a whole: each function says one law, and does nothing.
ghost use Rattle.sl_journal.specs.Laws.{BytesStandForOneList};

/// Bytes stand for at most one list of records, so that an opening can find no other.
pub fn bytes_stand_for_one_list()
    ensures { BytesStandForOneList }
{}
