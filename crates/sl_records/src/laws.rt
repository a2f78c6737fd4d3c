//! What holds of the texts of records: a function says it, and does nothing.
ghost use Rattle.sl_cells.specs.Laws.{HasOneText};
ghost use Rattle.sl_records.specs.Records.{FitsData, FitsDir, FitsLog, FitsProxy, data_at, data_text, dir_at, dir_text, log_at, log_text, proxy_at, proxy_text};

/// Each has one text, and is read from it.
pub fn texts_are_read()
    ensures proxy { HasOneText proxy_at proxy_text FitsProxy }
    ensures coordinator { HasOneText log_at log_text FitsLog }
    ensures directory { HasOneText dir_at dir_text FitsDir }
    ensures bytes { HasOneText data_at data_text FitsData }
{}
