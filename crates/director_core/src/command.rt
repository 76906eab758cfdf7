ghost use Rattle.std.specs.Prelude.{◌≡◌, ◌⊎◌};
ghost use Rattle.folder_core.specs.Cause.{Rose};
ghost use Rattle.folder_core.specs.Step.{OnTold, Step};
ghost use Rattle.director_words.specs.declared.status.Status.{Status};
ghost use Rattle.director_words.specs.declared.status.Status.TheVariants as status;
ghost use Rattle.director_core.specs.Answer.{IsAsked, IsAnswer, IsPlainAnswer, IsAnswerOrFault, IsUsageOrFault, Leaves};
ghost use Rattle.director_core.specs.Causes.{HasCauses};
ghost use Rattle.director_core.specs.Durable.{IsDurable, OnCommitted};
ghost use Rattle.director_core.specs.Performs.{Adds};
ghost use Rattle.director_core.specs.Printed.{Prints};

use crate::decision::decide;
use crate::performing::perform;
use crate::refusing::refuse;
use director_words::Status;
use folder_core::{Folder, Input, Sink, Tree};
use osgi_version::Text;
use std::alloc::Global;

/// Carries out one command on the folder, over the source, and writes its lines. The words are
/// `install -p PROFILE ROOT`. The input isn't read.
pub fn run<F: Folder, T: Tree, I: Input, K: Sink>(
    alloc: Global,
    words: &[Text],
    folder: &mut F,
    source: &mut T,
    input: &mut I,
    out: &mut K,
) -> Status
    // Which answer comes is decided by the words, the folder and the source, in the order in which they are read.
    ensures answer { OnTold (F.told folder.old) (λ s. OnTold (T.told source.old)
        (λ files. IsAnswer words.now s.now files result)) }

    // No other answer comes in its place, but for a fault of the outside and want of memory.
    ensures only { OnTold (F.told folder.old) (λ s. OnTold (T.told source.old)
        (λ files. (answer : Status) → IsPlainAnswer answer → IsAnswer words.now s.now files answer → IsAnswerOrFault answer result)) }

    // Whether the words denote a request doesn't depend on what the folder and the source tell.
    ensures usage { result ≡ status.Usage → ¬ (IsAsked words.now) }
    ensures usage_only { ¬ (IsAsked words.now) → IsUsageOrFault result }

    // What stands in the folder then, and what was written.
    ensures leaves { Step (F.told folder.old) (F.told folder.new) (λ s t. OnTold (T.told source.old)
        (λ files. Leaves words.now s.now files result t.now)) }
    ensures prints { Step (K.told out.old) (K.told out.new) (λ before now. OnTold (F.told folder.old) (λ s. OnTold (T.told source.old)
        (λ files. Adds (Prints (Rose (K.faults out.old) (K.faults out.new)) words.now s.now files result) before now))) }

    // Where a state is committed, a crash leaves exactly what stands in the folder.
    ensures durable { OnCommitted result (OnTold (F.told folder.new) IsDurable) }

    // A fault is told only where its object failed in this call.
    ensures causes { HasCauses (Rose (F.faults folder.old) (F.faults folder.new)) (Rose (T.faults source.old) (T.faults source.new))
        (Rose (K.faults out.old) (K.faults out.new)) result }

    ensures source_stays { T.told source.new ≡ T.told source.old }
    ensures input_unread { input.new ≡ input.old }
{
    let _ = input;
    match decide(alloc, words, folder, source) {
        Ok(plan) => match perform(alloc, folder, out, &plan) {
            Ok(()) => Status::Done,
            Err(status) => refuse(alloc, out, status),
        },
        Err(status) => refuse(alloc, out, status),
    }
}
