//! What holds of the texts of cells, keys, changes and writes: a function says it, and does nothing.
ghost use Rattle.sl_cells.specs.Laws.{HasOneText};
ghost use Rattle.sl_cells.specs.Lists.{FitsList, counted_at, counted_text};
ghost use Rattle.sl_cells.specs.Reading.{attr_cell_at, change_at, key_at, name_cell_at, write_at};
ghost use Rattle.sl_cells.specs.Texts.{FitsAttrCell, FitsChange, FitsKey, FitsNameCell, FitsWrite, attr_cell_text, change_text, key_text, name_cell_text, write_text};

/// Each has one text, and is read from it.
pub fn texts_are_read()
    ensures attributes { HasOneText attr_cell_at attr_cell_text FitsAttrCell }
    ensures names { HasOneText (counted_at name_cell_at) (counted_text name_cell_text) (FitsList FitsNameCell) }
    ensures keys { HasOneText (counted_at key_at) (counted_text key_text) (FitsList FitsKey) }
    ensures changes { HasOneText (counted_at change_at) (counted_text change_text) (FitsList FitsChange) }
    ensures writes { HasOneText (counted_at write_at) (counted_text write_text) (FitsList FitsWrite) }
{}
