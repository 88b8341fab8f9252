//! Rows of a scan, written as they are read.
ghost use Rattle.std.specs.Prelude.{◌≡◌, ◌++◌, ◌∷◌, [], false, true, map, IfOk, OnErr, OnOk};
ghost use Rattle.push_body.specs.Rows.{array_text, row_text};
ghost use Rattle.client_desk.specs.Inside.Rows.{HasRows, IsSame};

use crate::printing::print_row;
use group_history::{Json, Text};
use rebase::TakesRows;
use std::alloc::AllocError;

/// The beginning of a JSON array of rows, with commas between them.
#[derive(Drop)]
pub(crate) struct RowList {
    text: Vec<u8>,
    is_empty: bool,
}

impl RowList {
    ghost use Rattle.group_history.specs.Rows.{Rows};

    /// One without rows, written to bytes of which there are none yet.
    pub(crate) fn new(bytes: Vec<u8>) -> RowList
        requires { bytes.items ≡ [] }
        ensures { HasRows result [] }
    {
        RowList {
            text: bytes,
            is_empty: true,
        }
    }

    /// Writes what comes before a row: the bracket of the array, or a comma. Where that is refused the text is as it
    /// was.
    fn part(&mut self) -> Result<(), AllocError>
        ensures same { self.new.is_empty ≡ self.old.is_empty }
        ensures still { OnErr result (self.new.text.items ≡ self.old.text.items) }
        ensures first { self.old.is_empty ≡ true → OnOk result (self.new.text.items ≡ self.old.text.items ++ 91 ∷ []) }
        ensures next { self.old.is_empty ≡ false → OnOk result (self.new.text.items ≡ self.old.text.items ++ 44 ∷ []) }
    {
        self.text.push(if self.is_empty { b'[' } else { b',' })?;
        Ok(())
    }

    /// Adds a row. Where that is refused what was written of it is cut off.
    fn add(&mut self, key: &Text, value: &Json) -> Result<(), AllocError>
        ensures empty { OnOk result (self.new.is_empty ≡ false) }
        ensures first { self.old.is_empty ≡ true
            → OnOk result (self.new.text.items ≡ self.old.text.items ++ 91 ∷ row_text (key.now, value.now)) }
        ensures next { self.old.is_empty ≡ false
            → OnOk result (self.new.text.items ≡ self.old.text.items ++ 44 ∷ row_text (key.now, value.now)) }
        ensures still { OnErr result (IsSame self.old self.new) }
    {
        let end = self.text.len();
        self.part()?;
        if let Err(e) = print_row(key, value, &mut self.text) {
            self.text.truncate(end);
            return Err(e);
        }
        self.is_empty = false;
        Ok(())
    }

    // The array's end, behind its bracket where it has no rows.
    fn close(&mut self) -> Result<(), AllocError>
        ensures { (rows : Rows) → HasRows self.old rows
            → OnOk result (self.new.text.items ≡ array_text (map row_text rows)) }
    {
        if self.is_empty {
            self.text.push(b'[')?;
        }
        self.text.push(b']')?;
        Ok(())
    }

    /// The whole array.
    pub(crate) fn end(self) -> Result<Vec<u8>, AllocError>
        ensures { (rows : Rows) → HasRows self rows
            → IfOk result (λ text. text.items ≡ array_text (map row_text rows)) }
    {
        let mut list = self;
        list.close()?;
        let RowList { text, is_empty: _ } = list;
        Ok(text)
    }
}

impl TakesRows for RowList {
    ghost has = { HasRows };

    fn take(&mut self, key: &Text, value: &Json) -> Result<(), AllocError> {
        self.add(key, value)
    }
}
