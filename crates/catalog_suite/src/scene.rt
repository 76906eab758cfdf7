//! What the rows speak of.

use crate::adding::{push_added, push_chain};
use crate::looking::{push_find, push_greatest, push_providers, push_sought, push_updater};
use crate::push::{push_found, push_word};
use crate::slicing::{push_size, push_slice};
use ldap_filter::{Env, EnvFault};
use osgi_version::NoMemory;
use std::alloc::Global;
use suite_row::Row;
use unit_catalog::Catalog;

/// A catalog, and the environment.
#[derive(Drop)]
pub(crate) struct Scene {
    pub(crate) catalog: Catalog,
    pub(crate) env: Env,
}

impl Scene {
    pub(crate) fn new(alloc: Global) -> Result<Scene, NoMemory> {
        let catalog = Catalog::new(alloc)?;
        Ok(Scene {
            catalog,
            env: Env::new(alloc),
        })
    }

    /// The line that answers a row. A comment is copied.
    pub(crate) fn answer(&mut self, alloc: Global, line: &str) -> Result<Vec<u8>, NoMemory> {
        let mut answer = Vec::new(alloc);
        if line.starts_with('#') {
            push_word(&mut answer, line)?;
        } else {
            self.push_answer(&mut answer, alloc, line)?;
        }
        answer.push(b'\n')?;
        Ok(answer)
    }

    fn push_answer(
        &mut self,
        answer: &mut Vec<u8>,
        alloc: Global,
        line: &str,
    ) -> Result<(), NoMemory> {
        match Row::read(alloc, line.as_bytes())? {
            Some(row) => self.push_row(answer, alloc, &row),
            None => push_word(answer, "no row"),
        }
    }

    fn push_row(&mut self, answer: &mut Vec<u8>, alloc: Global, row: &Row) -> Result<(), NoMemory> {
        match row.word(0) {
            "new" => self.begin(answer, alloc),
            "on" => self.set(answer, row),
            "add" => push_added(answer, alloc, &mut self.catalog, row.field(1)),
            "chain" => push_chain(answer, alloc, &mut self.catalog, row),
            _ => push_question(answer, alloc, self, row),
        }
    }

    /// `new`: from here on the catalog and the environment are empty ones.
    fn begin(&mut self, answer: &mut Vec<u8>, alloc: Global) -> Result<(), NoMemory> {
        self.catalog = Catalog::new(alloc)?;
        self.env = Env::new(alloc);
        push_word(answer, "new")
    }

    /// `on KEY VALUE`: from here on the environment has this value.
    fn set(&mut self, answer: &mut Vec<u8>, row: &Row) -> Result<(), NoMemory> {
        match self.env.set(row.field(1).bytes(), row.field(2)) {
            Ok(()) => push_word(answer, "on"),
            Err(EnvFault::BadKey) => push_word(answer, "bad key"),
            Err(EnvFault::NoMemory) => Err(NoMemory),
        }
    }
}

fn push_question(
    answer: &mut Vec<u8>,
    alloc: Global,
    scene: &Scene,
    row: &Row,
) -> Result<(), NoMemory> {
    match row.word(0) {
        "len" => push_found(answer, Some(scene.catalog.len())),
        "find" => push_find(answer, alloc, &scene.catalog, row),
        "greatest" => push_greatest(answer, scene, row),
        "updater" => push_updater(answer, alloc, scene, row),
        "providers" => push_providers(answer, &scene.catalog, row),
        "seek" => push_sought(answer, alloc, &scene.catalog, row),
        "slice" => push_slice(answer, alloc, scene, row),
        "size" => push_size(answer, alloc, scene, row),
        _ => push_word(answer, "no question"),
    }
}
