//! What the rows speak of.

use crate::planning::{push_fitting, push_lines, push_plan};
use crate::push::push_word;
use crate::reasons::push_why;
use inf_reader::units_of;
use ldap_filter::{Env, EnvFault};
use osgi_version::{List, NoMemory, Text};
use props_reader::{PropsFault, read};
use std::alloc::Global;
use suite_row::Row;
use unit_catalog::{Catalog, CatalogFault};
use unit_model::Unit;

/// A catalog, and the environment.
#[derive(Drop)]
pub(crate) struct Scene {
    pub(crate) catalog: Catalog,
    pub(crate) env: Env,
}

impl Scene {
    pub(crate) fn new(alloc: Global) -> Result<Scene, NoMemory> {
        let catalog = Catalog::new(alloc)?;
        Ok(Scene {
            catalog,
            env: Env::new(alloc),
        })
    }

    /// The line that answers a row. A comment is copied.
    pub(crate) fn answer(&mut self, alloc: Global, line: &str) -> Result<Vec<u8>, NoMemory> {
        let mut answer = Vec::new(alloc);
        if line.starts_with('#') {
            push_word(&mut answer, line)?;
        } else {
            self.push_answer(&mut answer, alloc, line)?;
        }
        answer.push(b'\n')?;
        Ok(answer)
    }

    fn push_answer(
        &mut self,
        answer: &mut Vec<u8>,
        alloc: Global,
        line: &str,
    ) -> Result<(), NoMemory> {
        match Row::read(alloc, line.as_bytes())? {
            Some(row) => self.push_row(answer, alloc, &row),
            None => push_word(answer, "no row"),
        }
    }

    fn push_row(&mut self, answer: &mut Vec<u8>, alloc: Global, row: &Row) -> Result<(), NoMemory> {
        match row.word(0) {
            "new" => self.begin(answer, alloc),
            "on" => self.set(answer, row),
            "add" => self.add(answer, alloc, row.field(1)),
            "plan" => push_plan(answer, alloc, self, row),
            "lines" => push_lines(answer, alloc, self, row),
            "fits" => push_fitting(answer, alloc, self, row),
            "why" => push_why(answer, alloc, self, row),
            _ => push_word(answer, "no question"),
        }
    }

    /// `new`: from here on the catalog and the environment are empty ones.
    fn begin(&mut self, answer: &mut Vec<u8>, alloc: Global) -> Result<(), NoMemory> {
        self.catalog = Catalog::new(alloc)?;
        self.env = Env::new(alloc);
        push_word(answer, "new")
    }

    /// `on KEY VALUE`: from here on the environment has this value.
    fn set(&mut self, answer: &mut Vec<u8>, row: &Row) -> Result<(), NoMemory> {
        match self.env.set(row.field(1).bytes(), row.field(2)) {
            Ok(()) => push_word(answer, "on"),
            Err(EnvFault::BadKey) => push_word(answer, "bad key"),
            Err(EnvFault::NoMemory) => Err(NoMemory),
        }
    }

    /// `add TEXT`: the units of this description stand behind those of the catalog.
    fn add(&mut self, answer: &mut Vec<u8>, alloc: Global, text: &Text) -> Result<(), NoMemory> {
        match read_units(alloc, text)? {
            Some(units) => {
                add_each(&mut self.catalog, units)?;
                push_word(answer, "added")
            }
            None => push_word(answer, "refused"),
        }
    }
}

/// The units of a description in the folder `f`. None where it is refused.
fn read_units(alloc: Global, text: &Text) -> Result<Option<List<Unit>>, NoMemory> {
    match read(alloc, text.bytes()) {
        Ok(pairs) => Ok(units_of(alloc, b"f", &pairs).ok()),
        Err(PropsFault::BadEscape { .. }) => Ok(None),
        Err(PropsFault::NoMemory) => Err(NoMemory),
    }
}

fn add_one(catalog: &mut Catalog, unit: Unit) -> Result<(), NoMemory> {
    match catalog.add(unit) {
        Ok(_) | Err(CatalogFault::Full) => Ok(()),
        Err(CatalogFault::NoMemory) => Err(NoMemory),
    }
}

fn add_each(catalog: &mut Catalog, units: List<Unit>) -> Result<(), NoMemory> {
    for unit in units.into_vec() {
        add_one(catalog, unit)?;
    }
    Ok(())
}
