//! Texts, logins and labels in a column.
ghost use Rattle.std.specs.Prelude.{◌≡◌, true, IfOk};
ghost use Rattle.tail_base.specs.Labels.{is_label};
ghost use Rattle.tail_base.specs.Logins.{is_login};
ghost use Rattle.store_rows.specs.Reads.{IsReadBack};

use crate::cell::Cell;
use crate::column::Column;
use crate::same::is_same;
use crate::utf8::text_is_utf8;
use std::alloc::Global;
use tail_base::{Duplicate, Label, Login, NoMemory, Text};

impl Column for Text {
    ghost use Rattle.std.specs.Prelude.{⊤};
    ghost use Rattle.store_rows.specs.declared.cell.Cell.TheVariants.{Text as TextCell};

    ghost stored = { TextCell };

    ghost Fits = { λ _. ⊤ };

    ghost Has = { λ _. ⊤ };

    fn write(&self, alloc: Global) -> Result<Cell, NoMemory> {
        text_is_utf8(self.as_str());
        Ok(Cell::Text(self.copy(alloc)?))
    }

    fn read(alloc: Global, given: &Cell) -> Result<Option<Self>, NoMemory> {
        match given {
            Cell::Text(text) => Ok(Some(text.copy(alloc)?)),
            Cell::Null | Cell::Number(_) | Cell::Blob(_) | Cell::Other => Ok(None),
        }
    }
}

/// The login that is written as this text: capitals are in no login.
fn read_login(alloc: Global, text: &[u8]) -> Result<Option<Login>, NoMemory>
    ensures exact { IfOk result (λ found.
        IsReadBack (λ login. login) (λ login. is_login login ≡ true) text.now found) }
{
    let Some(login) = Login::read(alloc, text)? else {
        return Ok(None);
    };
    if is_same(login.as_slice(), text) {
        Ok(Some(login))
    } else {
        Ok(None)
    }
}

impl Column for Login {
    ghost use Rattle.std.specs.Prelude.{◌≡◌, true};
    ghost use Rattle.tail_base.specs.Logins.{is_login};
    ghost use Rattle.store_rows.specs.declared.cell.Cell.TheVariants.{Text as TextCell};

    ghost stored = { TextCell };

    ghost Fits = { λ login. is_login login ≡ true };

    ghost Has = { λ login. is_login login ≡ true };

    fn write(&self, alloc: Global) -> Result<Cell, NoMemory> {
        text_is_utf8(self.as_str());
        Ok(Cell::Text(Text::from_str(alloc, self.as_str())?))
    }

    fn read(alloc: Global, given: &Cell) -> Result<Option<Self>, NoMemory> {
        match given {
            Cell::Text(text) => read_login(alloc, text.as_slice()),
            Cell::Null | Cell::Number(_) | Cell::Blob(_) | Cell::Other => Ok(None),
        }
    }
}

/// The label that is written as this text.
fn read_label(alloc: Global, text: &[u8]) -> Result<Option<Label>, NoMemory>
    ensures exact { IfOk result (λ found.
        IsReadBack (λ label. label) (λ label. is_label label ≡ true) text.now found) }
{
    let Some(label) = Label::read(alloc, text)? else {
        return Ok(None);
    };
    if is_same(label.as_slice(), text) {
        Ok(Some(label))
    } else {
        Ok(None)
    }
}

impl Column for Label {
    ghost use Rattle.std.specs.Prelude.{◌≡◌, true};
    ghost use Rattle.tail_base.specs.Labels.{is_label};
    ghost use Rattle.store_rows.specs.declared.cell.Cell.TheVariants.{Text as TextCell};

    ghost stored = { TextCell };

    ghost Fits = { λ label. is_label label ≡ true };

    ghost Has = { λ label. is_label label ≡ true };

    fn write(&self, alloc: Global) -> Result<Cell, NoMemory> {
        text_is_utf8(self.as_str());
        Ok(Cell::Text(Text::from_str(alloc, self.as_str())?))
    }

    fn read(alloc: Global, given: &Cell) -> Result<Option<Self>, NoMemory> {
        match given {
            Cell::Text(text) => read_label(alloc, text.as_slice()),
            Cell::Null | Cell::Number(_) | Cell::Blob(_) | Cell::Other => Ok(None),
        }
    }
}
