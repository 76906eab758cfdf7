ghost use Rattle.std.specs.Prelude.{◌≡◌, ◌≢◌, ◌≤◌, ℕ, List as Bytes, [], ◌∷◌, IfOk, IfErr, IfSome, IfNone, OnOk};
ghost use Rattle.unit_model.specs.Profile.{IsProfile};
ghost use Rattle.folder_core.specs.Cause.{Rose};
ghost use Rattle.folder_core.specs.Step.{OnTold, Step};
ghost use Rattle.director_words.specs.Root.{IsRootWord};
ghost use Rattle.director_words.specs.Status.{CanPrint};
ghost use Rattle.director_words.specs.declared.status.Status.TheVariants as status;
ghost use Rattle.director_core.specs.Answer.{IsAsked, AsksFor, HasChild, Installs, IsAnswer};
ghost use Rattle.director_core.specs.Laid.{IsBare};
ghost use Rattle.director_core.specs.Planned.{IsReady};
ghost use Rattle.director_core.specs.Stops.{Stops};

use crate::look_up::look_up;
use crate::plan::Plan;
use crate::planning::plan_for;
use director_source::read_source;
use director_words::{Request, RequestFault, Status, read_request};
use folder_core::{After, Folder, FolderError, Path, Tree};
use osgi_version::{List, Text};
use std::alloc::Global;

/// A profile, and the word that names the unit.
#[derive(Debug, Drop)]
pub(crate) struct Asked {
    pub profile: Text,
    pub word: Text,
}

/// What the words, the folder and the source ask for, looked at in this order. Nothing is changed.
pub(crate) fn decide<F: Folder, T: Tree>(
    alloc: Global,
    words: &[Text],
    folder: &mut F,
    source: &mut T,
) -> Result<Plan, Status>
    ensures ready { IfOk result IsReady }
    ensures asked { IfOk result (λ plan. IsAsked words.now) }
    ensures found { IfOk result (λ plan. OnTold (F.told folder.old) (λ s. OnTold (T.told source.old)
        (λ files. Installs words.now s.now files plan.profile plan.unit))) }
    ensures bare { IfOk result (λ plan. OnTold (F.told folder.new) (λ s. IsBare s.now)) }
    ensures refused { IfErr result (Stops (¬ (IsAsked words.now))
        (IsAsked words.now × Rose (F.faults folder.old) (F.faults folder.new))
        (IsAsked words.now × Rose (T.faults source.old) (T.faults source.new)) (λ s. IsAsked words.now)) }
    ensures answer { IfErr result (λ s. OnTold (F.told folder.old) (λ t. OnTold (T.told source.old)
        (λ files. IsAnswer words.now t.now files s))) }
    ensures printable { IfErr result CanPrint }
    ensures stays { Step (F.told folder.old) (F.told folder.new) (λ s t. t.now ≡ s.now) }
    ensures tree { T.told source.new ≡ T.told source.old }
    ensures later_folder { F.faults folder.old ≤ F.faults folder.new }
    ensures later_source { T.faults source.old ≤ T.faults source.new }
{
    let asked = read_words(alloc, words)?;
    check_bare(alloc, folder)?;
    let catalog = read_source(alloc, source)?;
    let unit = look_up(alloc, asked.word, &catalog)?;
    let plan = plan_for(alloc, asked.profile, unit)?;
    Ok(plan)
}

/// Of the requests that words denote, the install of one root is built. All else is `Usage` for now.
fn read_words(alloc: Global, words: &[Text]) -> Result<Asked, Status>
    ensures found { IfOk result (λ asked. AsksFor words.now asked.profile asked.word) }
    ensures profile { IfOk result (λ asked. IsProfile asked.profile) }
    ensures root { IfOk result (λ asked. IsRootWord asked.word) }
    ensures refused { IfErr result (Stops (¬ (IsAsked words.now)) ⊥ ⊥ (λ s. ⊥)) }
    ensures printable { IfErr result CanPrint }
{
    match read_request(alloc, words) {
        Ok(
            Request::Install {
                profile,
                budget: _,
                roots,
            },
        ) => match only_root(roots) {
            Some(word) => Ok(Asked { profile, word }),
            None => Err(Status::Usage),
        },
        Ok(_) => Err(Status::Usage),
        Err(RequestFault::Usage) => Err(Status::Usage),
        Err(RequestFault::NoMemory) => Err(Status::NoMemory(After::Unchanged)),
    }
}

/// The root, where there is one and no other.
fn only_root(roots: List<Text>) -> Option<Text>
    ensures one { IfSome result (λ word. roots ≡ word ∷ []) }
    ensures none { IfNone result ((word : Bytes ℕ) → roots ≢ word ∷ []) }
{
    let mut words = roots.into_vec();
    let word = words.pop()?;
    if words.is_empty() { Some(word) } else { None }
}

/// A folder that isn't empty is `NotBuilt`.
fn check_bare<F: Folder>(alloc: Global, folder: &mut F) -> Result<(), Status>
    ensures bare { OnOk result (OnTold (F.told folder.old) (λ s. IsBare s.now)) }
    ensures refused { IfErr result (Stops ⊥ (Rose (F.faults folder.old) (F.faults folder.new)) ⊥
        (λ s. (s ≡ status.NotBuilt) × OnTold (F.told folder.old) (λ t. HasChild t.now))) }
    ensures printable { IfErr result CanPrint }
    ensures stays { Step (F.told folder.old) (F.told folder.new) (λ s t. t.now ≡ s.now) }
    ensures later { F.faults folder.old ≤ F.faults folder.new }
{
    let names = match folder.kids(alloc, &Path::root(alloc)) {
        Ok(names) => names,
        Err(FolderError::Failed) => return Err(Status::FolderFault(After::Unchanged)),
        Err(FolderError::NoMemory) => return Err(Status::NoMemory(After::Unchanged)),
    };
    if names.is_empty() {
        Ok(())
    } else {
        Err(Status::NotBuilt)
    }
}
