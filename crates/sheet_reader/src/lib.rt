// The reader: a sheet and a place in it, kept together (02: the reader keeps the sheet and its place together).
#![tactic(auto)]

ghost use Rattle.std.specs.Prelude.{◌≡◌, length, leb};
ghost use Rattle.sheets.specs.Sheet.{block_at};
ghost use Rattle.sheets.specs.Counts.{counted};

use numbers::Parsed;

#[derive(Clone, Copy)]
pub struct Reader<'a> {
    pub sheet: &'a [u8],
    pub place: usize,
}

impl<'a> Reader<'a> {
    // At the start of a sheet.
    pub fn new(sheet: &'a [u8]) -> Reader<'a>
        ensures { (result.sheet ≡ sheet.entry) × (result.place ≡ 0) }
    {
        Reader { sheet, place: 0 }
    }

    // In the same sheet, at another place.
    pub fn at(self, place: usize) -> Reader<'a>
        ensures { (result.sheet ≡ self.entry.sheet) × (result.place ≡ place) }
    {
        Reader { place, ..self }
    }

    // The block that begins there, around which there is no repeat.
    pub fn block(self) -> Parsed
        ensures { result ≡ counted (block_at self.entry.sheet.now self.entry.place 0) }
    {
        sheet_entries::block(self.sheet, self.place, 0)
    }

    // Whether nothing is left.
    pub fn is_at_end(self) -> bool
        ensures { result ≡ leb (length self.entry.sheet.now) self.entry.place }
    {
        self.sheet.len() <= self.place
    }
}
