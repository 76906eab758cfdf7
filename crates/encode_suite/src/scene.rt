//! What the rows speak of.

use crate::problems::{push_problem, push_subsets, push_terms};
use crate::push::push_word;
use inf_reader::units_of;
use ldap_filter::{Env, EnvFault};
use osgi_version::{List, NoMemory, Text, push_number};
use props_reader::{PropsFault, read};
use std::alloc::Global;
use suite_row::Row;
use unit_catalog::{Catalog, CatalogFault};
use unit_model::Unit;

/// A catalog, and the environment.
#[derive(Drop)]
pub(crate) struct Scene {
    pub(crate) catalog: Catalog,
    pub(crate) env: Env,
}

impl Scene {
    pub(crate) fn new(alloc: Global) -> Result<Scene, NoMemory> {
        let catalog = Catalog::new(alloc)?;
        Ok(Scene {
            catalog,
            env: Env::new(alloc),
        })
    }

    /// The line that answers a row. A comment is copied.
    pub(crate) fn answer(&mut self, alloc: Global, line: &str) -> Result<Vec<u8>, NoMemory> {
        let mut answer = Vec::new(alloc);
        if line.starts_with('#') {
            push_word(&mut answer, line)?;
        } else {
            self.push_answer(&mut answer, alloc, line)?;
        }
        answer.push(b'\n')?;
        Ok(answer)
    }

    fn push_answer(
        &mut self,
        answer: &mut Vec<u8>,
        alloc: Global,
        line: &str,
    ) -> Result<(), NoMemory> {
        match Row::read(alloc, line.as_bytes())? {
            Some(row) => self.push_row(answer, alloc, &row),
            None => push_word(answer, "no row"),
        }
    }

    fn push_row(&mut self, answer: &mut Vec<u8>, alloc: Global, row: &Row) -> Result<(), NoMemory> {
        match row.word(0) {
            "new" => self.begin(answer, alloc),
            "on" => self.set(answer, row),
            "add" => self.add(answer, alloc, row.field(1)),
            "each" => self.add_numbered(answer, alloc, row),
            "terms" => push_terms(answer, alloc, self, row),
            "problem" => push_problem(answer, alloc, self, row),
            "subsets" => push_subsets(answer, alloc, self, row),
            _ => push_word(answer, "no question"),
        }
    }

    /// `new`: from here on the catalog and the environment are empty ones.
    fn begin(&mut self, answer: &mut Vec<u8>, alloc: Global) -> Result<(), NoMemory> {
        self.catalog = Catalog::new(alloc)?;
        self.env = Env::new(alloc);
        push_word(answer, "new")
    }

    /// `on KEY VALUE`: from here on the environment has this value.
    fn set(&mut self, answer: &mut Vec<u8>, row: &Row) -> Result<(), NoMemory> {
        match self.env.set(row.field(1).bytes(), row.field(2)) {
            Ok(()) => push_word(answer, "on"),
            Err(EnvFault::BadKey) => push_word(answer, "bad key"),
            Err(EnvFault::NoMemory) => Err(NoMemory),
        }
    }

    /// `each COUNT TEXT`: for each number below the count, the units of this description with it in the place of `*`
    /// stand behind those of the catalog.
    fn add_numbered(
        &mut self,
        answer: &mut Vec<u8>,
        alloc: Global,
        row: &Row,
    ) -> Result<(), NoMemory> {
        for number in 0..row.word(1).parse::<u32>().unwrap_or(0) {
            let text = numbered(alloc, row.field(2).bytes(), number)?;
            if let Some(units) = read_units(alloc, text.as_slice())? {
                add_each(&mut self.catalog, units)?;
            }
        }
        push_word(answer, "added")
    }

    /// `add TEXT`: the units of this description stand behind those of the catalog.
    fn add(&mut self, answer: &mut Vec<u8>, alloc: Global, text: &Text) -> Result<(), NoMemory> {
        match read_units(alloc, text.bytes())? {
            Some(units) => {
                add_each(&mut self.catalog, units)?;
                push_word(answer, "added")
            }
            None => push_word(answer, "refused"),
        }
    }
}

/// The text with the number in the place of each `*`.
fn numbered(alloc: Global, text: &[u8], number: u32) -> Result<Vec<u8>, NoMemory> {
    let mut numbered = Vec::new(alloc);
    for byte in text {
        if *byte == b'*' {
            push_number(&mut numbered, number)?;
        } else {
            numbered.push(*byte)?;
        }
    }
    Ok(numbered)
}

/// The units of a description in the folder `f`. None where it is refused.
fn read_units(alloc: Global, text: &[u8]) -> Result<Option<List<Unit>>, NoMemory> {
    match read(alloc, text) {
        Ok(pairs) => Ok(units_of(alloc, b"f", &pairs).ok()),
        Err(PropsFault::BadEscape { .. }) => Ok(None),
        Err(PropsFault::NoMemory) => Err(NoMemory),
    }
}

fn add_one(catalog: &mut Catalog, unit: Unit) -> Result<(), NoMemory> {
    match catalog.add(unit) {
        Ok(_) | Err(CatalogFault::Full) => Ok(()),
        Err(CatalogFault::NoMemory) => Err(NoMemory),
    }
}

fn add_each(catalog: &mut Catalog, units: List<Unit>) -> Result<(), NoMemory> {
    for unit in units.into_vec() {
        add_one(catalog, unit)?;
    }
    Ok(())
}
