ghost use Rattle.std.specs.Prelude.{◌≡◌, ◌≢◌, ◌⊎◌, [], ◌∷◌, ◌++◌, IfOk, IfSome, IsErr, MatchOption};
ghost use Rattle.std.specs.List.{AllPass};
ghost use Rattle.osgi_version.specs.VersionText.{DenotesVersion};
ghost use Rattle.director_words.specs.Slash.{is_no_slash};

use osgi_version::{NoMemory, Text, Version, VersionFault};
use std::alloc::Global;
use unit_model::is_unit_id;

/// The unit that a word names: by its id alone, or by its id and version.
#[derive(Debug, PartialEq, Eq, Drop)]
pub struct Root {
    pub id: Text,
    pub version: Option<Version>,
}

impl Root {
    ghost use Rattle.director_words.specs.Root.{DenotesRoot};

    /// Reads `ID` or `ID/VERSION`, cut at the first `/`, where VERSION isn't empty. None is any other word.
    pub fn read(alloc: Global, word: &[u8]) -> Result<Option<Root>, NoMemory>
        ensures found { IfOk result (λ root. IfSome root (DenotesRoot word.now)) }
        // Each word of the form is read, unless memory runs out.
        ensures only { (root : Root) → DenotesRoot word.now root → (result ≡ Ok (Some root)) ⊎ IsErr result }
    {
        let (id, text) = cut_at_slash(word);
        if !is_unit_id(id) {
            return Ok(None);
        }
        let id = Text::from_ascii(alloc, id)?;
        let Some(text) = text else {
            return Ok(Some(Root { id, version: None }));
        };
        match read_version(alloc, text)? {
            Some(version) => Ok(Some(Root {
                id,
                version: Some(version),
            })),
            None => Ok(None),
        }
    }
}

/// What stands before the first `/`, and behind it where there is one.
fn cut_at_slash(word: &[u8]) -> (&[u8], Option<&[u8]>)
    ensures before { AllPass is_no_slash result.0.now }
    ensures whole { MatchOption result.1 (word.now ≡ result.0.now) (λ behind. word.now ≡ result.0.now ++ 47 ∷ behind.now) }
{
    match word.iter().position(|byte| *byte == b'/') {
        Some(at) => (&word[..at], Some(&word[at + 1..])),
        None => (word, None),
    }
}

fn read_version(alloc: Global, text: &[u8]) -> Result<Option<Version>, NoMemory>
    ensures found { IfOk result (λ version. IfSome version (λ v. (text.now ≢ []) × DenotesVersion text.now v)) }
    ensures only { (v : Version) → text.now ≢ [] → DenotesVersion text.now v → (result ≡ Ok (Some v)) ⊎ IsErr result }
{
    if text.is_empty() {
        return Ok(None);
    }
    match Version::parse(alloc, text) {
        Ok(version) => Ok(Some(version)),
        Err(VersionFault::NoMemory) => Err(NoMemory),
        Err(VersionFault::Bad { .. }) => Ok(None),
        Err(VersionFault::Raw) => Ok(None),
    }
}
