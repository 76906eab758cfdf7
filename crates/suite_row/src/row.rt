ghost use Rattle.std.specs.Prelude.{◌≡◌, length, slice_get, MatchOption, []};

use osgi_version::{List, NoMemory, Text, read_field};
use std::alloc::Global;
use std::marker::Model;

/// One row: its fields, which stand in a line with one blank between them, each spelled as `osgi_version::push_field`
/// writes it.
#[derive(Drop)]
pub struct Row {
    fields: List<Text>,
    // stands where the row has no field
    empty: Text,
    ghost is_empty: { empty ≡ [] },
}

impl Model for Row {
    ghost use Rattle.std.specs.Prelude.{List as Items, ℕ};

    ghost Value = { Items (Items ℕ) };

    ghost view = { λ a. a.fields };
}

impl Row {
    /// The row of a line. None where one of its pieces is no text's field, as the empty piece is none.
    pub fn read(alloc: Global, line: &[u8]) -> Result<Option<Row>, NoMemory> {
        let empty = Text::from_str(alloc, "")?;
        let fields = match read_fields(alloc, line)? {
            Some(fields) => fields,
            None => return Ok(None),
        };
        Ok(Some(Row { fields, empty }))
    }

    /// How many fields the row has.
    pub fn len(&self) -> usize
        ensures { result ≡ length self.now }
    {
        self.fields.len()
    }

    /// The field at this place, counted from 0. The empty text where the row has fewer.
    pub fn field(&self, place: usize) -> &Text
        ensures { MatchOption (slice_get self.now place) (result.now ≡ []) (λ field. result.now ≡ field) }
    {
        match self.fields.get(place) {
            Some(field) => field,
            None => &self.empty,
        }
    }

    /// The same as a `&str`.
    pub fn word(&self, place: usize) -> &str
        ensures { MatchOption (slice_get self.now place) (result.now ≡ []) (λ field. result.now ≡ field) }
    {
        self.field(place).as_str()
    }

    /// The number that the field has in decimal digits.
    pub fn number(&self, place: usize) -> Option<u64> {
        self.word(place).parse::<u64>().ok()
    }
}

fn read_fields(alloc: Global, line: &[u8]) -> Result<Option<List<Text>>, NoMemory> {
    let mut fields = List::new(alloc);
    for piece in line.split(|byte| *byte == b' ') {
        match read_field(alloc, piece)? {
            Some(field) => fields.push(field)?,
            None => return Ok(None),
        }
    }
    Ok(Some(fields))
}
