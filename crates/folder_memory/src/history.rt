ghost use Rattle.std.specs.Prelude.{◌≡◌, ◌≢◌, ◌<◌, ◌≤◌, ◌↔◌, ◌++◌, ◌∷◌, [], List, ℕ, All, Contains, IfOk, IsTrue, OnErr, OnOk, Some, length, take, vec_len, vec_capacity};
ghost use Rattle.std.specs.Option.{option_copied};
ghost use Rattle.folder_core.specs.declared.node.Node.TheVariants.{Dir};
ghost use Rattle.folder_core.specs.Folder.{IsFormed};
ghost use Rattle.folder_core.specs.Path.{IsBelow, IsPath};
ghost use Rattle.folder_core.specs.declared.node.Touch.{Touch};
ghost use Rattle.folder_memory.specs.Nodes.{map_of};

use crate::nodes::{
    Nodes, copied, copied_path, is_directory, node_at, path_from, place, shows_directory,
};
use crate::places::last_before;
use folder_core::{Name, Node, Path, Touch};
use osgi_version::{NoMemory, Twin};
use std::alloc::Global;
use std::collections::BTreeMap;

/// What a folder was told to do, and did.
#[derive(Debug, Drop)]
pub(crate) enum Event {
    Set(Touch),
    Sync,
}

ghost use Rattle.folder_memory.specs.State.{state_of};
ghost use Rattle.folder_memory.specs.declared.history.Event.TheVariants.{Set};

/// The record of a folder's calls, and what stands after them.
#[derive(Debug, Drop)]
pub(crate) struct History {
    pub(crate) events: Vec<Event>,
    /// What stands but at the root.
    pub(crate) nodes: Nodes,
    /// A directory, which stands at the root.
    root: Node,
    /// The paths that were set since the last sync.
    pub(crate) touched: Vec<Path>,
    ghost root_is: { ∥ root ≡ Dir ∥₁ },
    ghost stands: { ∥ ((path : List (List ℕ)) → (state_of events.items).now path ≡ map_of Dir nodes path) ∥₁ },
    ghost unsynced: { touched.items ≡ (state_of events.items).touched },
    ghost no_root: { ∥ ((touch : Touch) → Contains events.items (Set touch) → touch.path ≢ []) ∥₁ },
    /// A sync finds room for its mark.
    ghost room: { (touched.items ≡ [] → ⊥) → vec_len events < vec_capacity events },
}

impl History {
    ghost use Rattle.folder_memory.specs.Formed.{IsWellAt};
    ghost use Rattle.folder_memory.specs.Image.{set_all};
    ghost use Rattle.folder_memory.specs.State.{MaySync};

    pub(crate) fn new(alloc: Global) -> History
        ensures { result.events.items ≡ [] }
    {
        History {
            events: Vec::new(alloc),
            nodes: BTreeMap::new(alloc),
            root: Node::Dir,
            touched: Vec::new(alloc),
        }
    }

    /// Whether a directory stands at the path that has these names, which lead to another path.
    pub(crate) fn has_directory(&self, names: &[Name], path: &Path) -> bool
        requires formed { IsFormed (state_of self.now.events.items).now }
        requires names { IsBelow names.now path.now }
        ensures { IsTrue result ↔ ((state_of self.now.events.items).now names.now ≡ Some Dir) }
    {
        if names.is_empty() {
            return true;
        }
        match last_before(&self.nodes, path) {
            Some((place, node)) => shows_directory(names, place, node),
            None => false,
        }
    }

    /// The node at a path.
    pub(crate) fn node(&self, path: &Path) -> Option<&Node>
        ensures { (state_of self.now.events.items).now path.now ≡ option_copied result }
    {
        node_at(&self.nodes, &self.root, path)
    }

    /// Puts a node at a path, or takes the one there away. Refused, it changes nothing.
    pub(crate) fn set(&mut self, path: &Path, node: Option<&Node>) -> Result<(), NoMemory>
        requires { path.now ≢ [] }
        ensures ok { OnOk result (self.new.events.items ≡ self.old.events.items
            ++ Set (record { path = path.now; node = option_copied node.entry }) ∷ []) }
        ensures err { OnErr result (self.new.events.items ≡ self.old.events.items) }
        ensures path { IsPath path.now }
    {
        let touch = Touch {
            path: copied_path(path)?,
            node: copied(node)?,
        };
        let touched = path.copy()?;
        self.events.reserve(2)?;
        self.touched.reserve(1)?;
        place(&mut self.nodes, path, node)?;
        if self.touched.push(touched).is_err() {
            unreachable!();
        }
        if self.events.push(Event::Set(touch)).is_err() {
            unreachable!();
        }
        Ok(())
    }

    /// Marks the record, which takes no memory. Where nothing was set since the last sync, there is nothing to mark.
    pub(crate) fn sync(&mut self)
        ensures now { (state_of self.new.events.items).now ≡ (state_of self.old.events.items).now }
        ensures synced { (state_of self.new.events.items).synced ≡ (state_of self.old.events.items).now }
        ensures settled { (state_of self.new.events.items).touched ≡ [] }
        ensures mark { MaySync self.old.events.items self.new.events.items }
    {
        if self.touched.as_slice().is_empty() {
            return;
        }
        self.touched.clear();
        if self.events.push(Event::Sync).is_err() {
            unreachable!();
        }
    }

    /// How many events there were at the last sync, or none.
    fn synced_events(&self) -> usize
        ensures within { result ≤ length self.now.events.items }
        ensures synced { (state_of (take result self.now.events.items)).now ≡ (state_of self.now.events.items).synced }
    {
        let mut count = 0;
        for (place, event) in self.events.iter().enumerate() {
            if let Event::Sync = event {
                count = place + 1;
            }
        }
        count
    }

    /// What stood at the last sync, in a record of its own.
    pub(crate) fn synced(&self, alloc: Global) -> Result<History, NoMemory>
        ensures { IfOk result (λ synced. (state_of synced.events.items).now ≡ (state_of self.now.events.items).synced) }
    {
        let count = self.synced_events();
        let mut synced = History::new(alloc);
        for event in &self.events.as_slice()[..count] {
            if let Event::Set(touch) = event {
                synced.set(&touch.path, touch.node.as_ref())?;
            }
        }
        Ok(synced)
    }

    /// Sets these in turn.
    pub(crate) fn set_all(&mut self, choice: &[Touch]) -> Result<(), NoMemory>
        requires { All (λ touch. touch.path ≢ []) choice.now }
        ensures { OnOk result ((state_of self.new.events.items).now ≡ set_all (state_of self.old.events.items).now choice.now) }
    {
        for touch in choice {
            self.set(&touch.path, touch.node.as_ref())?;
        }
        Ok(())
    }

    /// Whether what stands at a path stands below a directory and may stand there.
    fn is_well_at(&self, alloc: Global, path: &Path) -> Result<bool, NoMemory>
        ensures well { IfOk result (λ well. IsTrue well ↔ IsWellAt (state_of self.now.events.items).now path.now) }
        ensures path { IsPath path.now }
    {
        let Some((_, names)) = path.names().items().split_last() else {
            return Ok(true);
        };
        let Some(node) = self.node(path) else {
            return Ok(true);
        };
        let parent = path_from(alloc, names)?;
        Ok(node.may_stand_at(path) && is_directory(self.node(&parent)))
    }

    /// Whether what stands is well formed.
    pub(crate) fn is_formed(&self, alloc: Global) -> Result<bool, NoMemory>
        ensures { IfOk result (λ formed. IsTrue formed ↔ IsFormed (state_of self.now.events.items).now) }
    {
        for path in self.nodes.keys() {
            let is_well = self.is_well_at(alloc, path)?;
            if !is_well {
                return Ok(false);
            }
        }
        Ok(true)
    }
}
