//! A unit that is read part by part.

ghost use Rattle.std.specs.Prelude.{◌≡◌, true, Some, None, IfOk, if◌then◌else◌};
ghost use Rattle.unit_lines.specs.Phases.{phase_place};
ghost use Rattle.unit_lines.specs.declared.part.Part.TheVariants as part;
ghost use Rattle.unit_text.specs.Draft.{bare, has, is_bare, ends_artifacts, ends_required, ends_provided, ends_properties, ends_touchpoint, rises, next, finished, with_update};

use ldap_filter::Filter;
use osgi_version::{List, NoMemory};
use std::alloc::Global;
use unit_lines::Part;
use unit_model::{
    ArtifactKey, Phase, PhaseText, Property, Provided, Required, Touchpoint, Unit, UnitName, Update,
};

/// The most requirements of a unit.
const MOST_REQUIRED: usize = 1024;

/// What was read of a unit. Nothing stands behind the update before the update is there.
#[derive(Drop)]
pub(crate) struct Draft {
    pub name: UnitName,
    pub singleton: bool,
    pub filter: Option<Filter>,
    pub update: Option<Update>,
    pub touchpoint: Option<Touchpoint>,
    pub properties: List<Property>,
    pub provided: List<Provided>,
    pub required: List<Required>,
    pub artifacts: List<ArtifactKey>,
    pub phases: List<PhaseText>,
}

fn is_bare<T>(list: &List<T>) -> bool
    ensures { result ≡ is_bare list.now }
{
    match list.items() {
        [] => true,
        [_, ..] => false,
    }
}

fn place(phase: Phase) -> u8
    ensures { result ≡ phase_place phase }
{
    match phase {
        Phase::Collect => 0,
        Phase::Unconfigure => 1,
        Phase::Uninstall => 2,
        Phase::Install => 3,
        Phase::Configure => 4,
    }
}

/// Whether the phase stands behind all of these.
fn rises(phases: &List<PhaseText>, text: &PhaseText) -> bool
    ensures { result ≡ rises phases.now text.now }
{
    let behind = place(text.phase);
    phases
        .items()
        .iter()
        .all(|earlier| place(earlier.phase) < behind)
}

impl Draft {
    /// A unit of which the name alone was read.
    pub fn new(alloc: Global, name: UnitName) -> Draft
        ensures { result ≡ bare name }
    {
        Draft {
            name,
            singleton: false,
            filter: None,
            update: None,
            touchpoint: None,
            properties: List::new(alloc),
            provided: List::new(alloc),
            required: List::new(alloc),
            artifacts: List::new(alloc),
            phases: List::new(alloc),
        }
    }

    /// Whether nothing stands behind the artifacts, and so on for what stands before them.
    fn ends_artifacts(&self) -> bool
        ensures { result ≡ ends_artifacts self.now }
    {
        is_bare(&self.phases)
    }

    fn ends_required(&self) -> bool
        ensures { result ≡ ends_required self.now }
    {
        is_bare(&self.artifacts) && self.ends_artifacts()
    }

    fn ends_provided(&self) -> bool
        ensures { result ≡ ends_provided self.now }
    {
        is_bare(&self.required) && self.ends_required()
    }

    fn ends_properties(&self) -> bool
        ensures { result ≡ ends_properties self.now }
    {
        is_bare(&self.provided) && self.ends_provided()
    }

    fn ends_touchpoint(&self) -> bool
        ensures { result ≡ ends_touchpoint self.now }
    {
        is_bare(&self.properties) && self.ends_properties()
    }

    fn put_singleton(&mut self) -> bool
        ensures { next self.old part.Singleton ≡ (if result then Some self.new else None) }
    {
        if self.singleton || self.filter.is_some() || self.update.is_some() {
            return false;
        }
        self.singleton = true;
        true
    }

    fn put_filter(&mut self, filter: Filter) -> bool
        ensures { next self.old (part.Filter filter) ≡ (if result then Some self.new else None) }
    {
        if self.filter.is_some() || self.update.is_some() {
            return false;
        }
        self.filter = Some(filter);
        true
    }

    fn put_update(&mut self, update: Update) -> bool
        ensures { next self.old (part.Update update) ≡ (if result then Some self.new else None) }
    {
        if self.update.is_some() {
            return false;
        }
        self.update = Some(update);
        true
    }

    fn put_touchpoint(&mut self, touchpoint: Touchpoint) -> bool
        ensures { next self.old (part.Touchpoint touchpoint) ≡ (if result then Some self.new else None) }
    {
        if self.update.is_none() || self.touchpoint.is_some() || !self.ends_touchpoint() {
            return false;
        }
        self.touchpoint = Some(touchpoint);
        true
    }

    fn put_property(&mut self, property: Property) -> Result<bool, NoMemory>
        ensures { IfOk result (λ taken. next self.old (part.Property property) ≡ (if taken then Some self.new else None)) }
    {
        if self.update.is_none() || !self.ends_properties() {
            return Ok(false);
        }
        self.properties.push(property)?;
        Ok(true)
    }

    fn put_provided(&mut self, provided: Provided) -> Result<bool, NoMemory>
        ensures { IfOk result (λ taken. next self.old (part.Provided provided) ≡ (if taken then Some self.new else None)) }
    {
        if self.update.is_none() || !self.ends_provided() {
            return Ok(false);
        }
        self.provided.push(provided)?;
        Ok(true)
    }

    fn put_required(&mut self, required: Required) -> Result<bool, NoMemory>
        ensures { IfOk result (λ taken. next self.old (part.Required required) ≡ (if taken then Some self.new else None)) }
    {
        if self.update.is_none() || !self.ends_required() || self.required.len() >= MOST_REQUIRED {
            return Ok(false);
        }
        self.required.push(required)?;
        Ok(true)
    }

    fn put_artifact(&mut self, artifact: ArtifactKey) -> Result<bool, NoMemory>
        ensures { IfOk result (λ taken. next self.old (part.Artifact artifact) ≡ (if taken then Some self.new else None)) }
    {
        if self.update.is_none() || !self.ends_artifacts() {
            return Ok(false);
        }
        self.artifacts.push(artifact)?;
        Ok(true)
    }

    fn put_phase(&mut self, phase: PhaseText) -> Result<bool, NoMemory>
        ensures { IfOk result (λ taken. next self.old (part.Phase phase) ≡ (if taken then Some self.new else None)) }
    {
        if self.update.is_none() || !rises(&self.phases, &phase) {
            return Ok(false);
        }
        self.phases.push(phase)?;
        Ok(true)
    }

    /// Puts a part behind what was read. False, and nothing changes, where no unit has the part there. The end puts
    /// nothing.
    pub fn put(&mut self, part: Part) -> Result<bool, NoMemory>
        ensures { IfOk result (λ taken. next self.old part ≡ (if taken then Some self.new else None)) }
    {
        match part {
            Part::Name(_) => Ok(false),
            Part::Singleton => Ok(self.put_singleton()),
            Part::Filter(filter) => Ok(self.put_filter(filter)),
            Part::Update(update) => Ok(self.put_update(update)),
            Part::Touchpoint(touchpoint) => Ok(self.put_touchpoint(touchpoint)),
            Part::Property(property) => self.put_property(property),
            Part::Provided(provided) => self.put_provided(provided),
            Part::Required(required) => self.put_required(required),
            Part::Artifact(artifact) => self.put_artifact(artifact),
            Part::Phase(phase) => self.put_phase(phase),
            Part::End => Ok(self.update.is_some()),
        }
    }

    /// The unit that was read, with this update in place of its own.
    pub fn with_update(self, update: Update) -> Unit
        ensures { result ≡ with_update self update }
    {
        Unit {
            name: self.name,
            singleton: self.singleton,
            filter: self.filter,
            update,
            touchpoint: self.touchpoint,
            properties: self.properties,
            provided: self.provided,
            required: self.required,
            artifacts: self.artifacts,
            phases: self.phases,
        }
    }

    /// The unit that was read. None where it has no update yet.
    pub fn finish(mut self) -> Option<Unit>
        ensures { result ≡ finished self }
    {
        match self.update.take() {
            Some(update) => Some(self.with_update(update)),
            None => None,
        }
    }
}
