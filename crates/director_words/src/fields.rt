//! The fields of a request, from the values that its words give.
ghost use Rattle.std.specs.Prelude.{◌≡◌, ◌⊎◌, ◌↔◌, ℕ, List, [], ◌∷◌, ◌≤◌, All, Some, IfOk, IfSome, IsTrue, IsErr};
ghost use Rattle.unit_model.specs.Profile.{IsProfile};
ghost use Rattle.director_words.specs.declared.request.RequestFault.TheVariants as fault;
ghost use Rattle.director_words.specs.Number.{DenotesNumber};
ghost use Rattle.director_words.specs.Pair.{IsPair};
ghost use Rattle.director_words.specs.Root.{IsRootWord};
ghost use Rattle.director_words.specs.Request.{DenotesBudget, HasProfile, HasPlan};

use crate::number::read_number;
use crate::pair::is_pair;
use crate::request::{DEFAULT_BUDGET, RequestFault};
use crate::root::Root;
use crate::values::Values;
use osgi_version::{List, NoMemory, Text};
use std::alloc::Global;
use unit_model::is_profile;

const MOST_BUDGET: u32 = 50_000;

const MOST_SIZE: u32 = 4_096;

/// What the words of a command say that looks for a plan.
#[derive(Debug, PartialEq, Eq, Drop)]
pub(crate) struct Plan {
    pub(crate) profile: Text,
    pub(crate) budget: u32,
    pub(crate) operands: List<Text>,
}

/// A plan whose words name roots.
pub(crate) fn plan_of_roots(alloc: Global, values: Values) -> Result<Plan, RequestFault>
    ensures found { IfOk result (λ plan. HasPlan IsRootWord values plan.profile plan.budget plan.operands) }
    ensures only { (plan : Plan) → HasPlan IsRootWord values plan.profile plan.budget plan.operands
        → (result ≡ Ok plan) ⊎ (result ≡ Err fault.NoMemory) }
{
    if !are_roots(alloc, values.operands.items())? {
        return Err(RequestFault::Usage);
    }
    plan_of(alloc, values)
}

/// A plan whose words are `KEY=VALUE`.
pub(crate) fn plan_of_pairs(alloc: Global, values: Values) -> Result<Plan, RequestFault>
    ensures found { IfOk result (λ plan. HasPlan IsPair values plan.profile plan.budget plan.operands) }
    ensures only { (plan : Plan) → HasPlan IsPair values plan.profile plan.budget plan.operands
        → (result ≡ Ok plan) ⊎ (result ≡ Err fault.NoMemory) }
{
    if !are_pairs(values.operands.items()) {
        return Err(RequestFault::Usage);
    }
    plan_of(alloc, values)
}

/// A plan, whatever form its words have.
fn plan_of(alloc: Global, values: Values) -> Result<Plan, RequestFault>
    ensures found { IfOk result (λ plan. HasProfile values plan.profile × DenotesBudget values.budget plan.budget × (plan.operands ≡ values.operands)) }
    ensures only { (plan : Plan) → HasProfile values plan.profile → DenotesBudget values.budget plan.budget → plan.operands ≡ values.operands
        → (result ≡ Ok plan) ⊎ (result ≡ Err fault.NoMemory) }
{
    let budget = budget_of(alloc, &values.budget)?;
    Ok(Plan {
        profile: profile_of(values.profile)?,
        budget,
        operands: values.operands,
    })
}

/// The profile, where the words name one that has the form of a profile.
pub(crate) fn profile_of(profile: Option<Text>) -> Result<Text, RequestFault>
    ensures found { IfOk result (λ named. (profile ≡ Some named) × IsProfile named) }
    ensures only { (named : List ℕ) → profile ≡ Some named → IsProfile named → result ≡ Ok named }
{
    match profile {
        Some(profile) if is_profile(profile.bytes()) => Ok(profile),
        _ => Err(RequestFault::Usage),
    }
}

fn budget_of(alloc: Global, budget: &Option<Text>) -> Result<u32, RequestFault>
    ensures found { IfOk result (DenotesBudget budget.now) }
    ensures only { (n : ℕ) → DenotesBudget budget.now n → (result ≡ Ok n) ⊎ (result ≡ Err fault.NoMemory) }
{
    match budget {
        Some(word) => number_within(alloc, word, MOST_BUDGET),
        None => Ok(DEFAULT_BUDGET),
    }
}

/// The size that the only word names.
pub(crate) fn size_of(alloc: Global, words: &[Text]) -> Result<u32, RequestFault>
    ensures found { IfOk result (λ size. ((word : List ℕ) × (words.now ≡ word ∷ []) × DenotesNumber word size) × (1 ≤ size) × (size ≤ 4096)) }
    ensures only { (size : ℕ) (word : List ℕ) → words.now ≡ word ∷ [] → DenotesNumber word size → 1 ≤ size → size ≤ 4096
        → (result ≡ Ok size) ⊎ (result ≡ Err fault.NoMemory) }
{
    match words {
        [word] => number_within(alloc, word, MOST_SIZE),
        _ => Err(RequestFault::Usage),
    }
}

/// The number that the only word names.
pub(crate) fn one_number(alloc: Global, words: &[Text]) -> Result<u32, RequestFault>
    ensures found { IfOk result (λ n. (word : List ℕ) × (words.now ≡ word ∷ []) × DenotesNumber word n) }
    ensures only { (n : ℕ) (word : List ℕ) → words.now ≡ word ∷ [] → DenotesNumber word n
        → (result ≡ Ok n) ⊎ (result ≡ Err fault.NoMemory) }
{
    match words {
        [word] => number_of(alloc, word),
        _ => Err(RequestFault::Usage),
    }
}

fn number_within(alloc: Global, word: &Text, most: u32) -> Result<u32, RequestFault>
    ensures found { IfOk result (λ n. DenotesNumber word.now n × (1 ≤ n) × (n ≤ most)) }
    ensures only { (n : ℕ) → DenotesNumber word.now n → 1 ≤ n → n ≤ most → (result ≡ Ok n) ⊎ (result ≡ Err fault.NoMemory) }
{
    let number = number_of(alloc, word)?;
    if number == 0 || number > most {
        return Err(RequestFault::Usage);
    }
    Ok(number)
}

fn number_of(alloc: Global, word: &Text) -> Result<u32, RequestFault>
    ensures found { IfOk result (DenotesNumber word.now) }
    ensures only { (n : ℕ) → DenotesNumber word.now n → (result ≡ Ok n) ⊎ (result ≡ Err fault.NoMemory) }
{
    match read_number(alloc, word.as_str())? {
        Some(number) => Ok(number),
        None => Err(RequestFault::Usage),
    }
}

fn are_roots(alloc: Global, words: &[Text]) -> Result<bool, NoMemory>
    ensures { IfOk result (λ all. IsTrue all ↔ All IsRootWord words.now) }
{
    for word in words {
        if !is_root_word(alloc, word)? {
            return Ok(false);
        }
    }
    Ok(true)
}

fn is_root_word(alloc: Global, word: &Text) -> Result<bool, NoMemory>
    ensures { IfOk result (λ is. IsTrue is ↔ IsRootWord word.now) }
{
    let root = Root::read(alloc, word.bytes())?;
    Ok(root.is_some())
}

fn are_pairs(words: &[Text]) -> bool
    ensures { IsTrue result ↔ All IsPair words.now }
{
    words.iter().all(|word| is_pair(word.bytes()))
}
