ghost use Rattle.std.specs.Prelude.{◌≡◌, ◌⊎◌, IfOk, IfErr, Ok, Err};
ghost use Rattle.osgi_version.specs.VersionOrder.{version_cmp};
ghost use Rattle.osgi_version.specs.VersionText.{DenotesVersion, IsVersionText, IsVersion, IsRaw, IsFault, version_text};
ghost use Rattle.osgi_version.specs.declared.version.Version.{Version};
ghost use Rattle.osgi_version.specs.declared.version.VersionFault.TheVariants as fault;

use crate::memory::NoMemory;
use crate::reading;
use crate::text::Text;
use crate::twin::Twin;
use std::alloc::Global;
use std::cmp::Ordering;
use thiserror::Error;

/// An OSGi version (OSGi Core, "Version"): three numbers of at most 2147483647, and a qualifier of at most 80
/// letters, digits, `_` and `-`.
#[derive(Debug, PartialEq, Eq, Drop)]
pub struct Version {
    pub major: u32,
    pub minor: u32,
    pub micro: u32,
    pub qualifier: Text,
}

/// Why a text is no version, or no range of versions.
#[derive(Clone, Copy, Debug, PartialEq, Eq, Error)]
pub enum VersionFault {
    /// The longest front of the text that some accepted text begins with has `at` bytes.
    #[error("unexpected byte {at}")]
    Bad { at: u64 },
    /// A text that begins `raw:`, of another version scheme.
    #[error("a raw version")]
    Raw,
    #[error("out of memory")]
    NoMemory,
}

impl From<NoMemory> for VersionFault {
    ghost from_gives = { λ _ e. e ≡ fault.NoMemory };

    fn from(_error: NoMemory) -> VersionFault {
        VersionFault::NoMemory
    }
}

impl Version {
    /// The version that a text denotes (OSGi Core, "Version"). White space before and after it is taken, and leading
    /// zeros are; what is missing is 0, or an empty qualifier. A text that begins `raw:` is `Raw`, and each other text
    /// outside the grammar `Bad`.
    pub fn parse(alloc: Global, text: &[u8]) -> Result<Version, VersionFault>
        ensures found { IfOk result (DenotesVersion text.now) }
        ensures form { IfOk result IsVersion }

        // Each text of the grammar is read, unless memory runs out.
        ensures only { (v : Version) → DenotesVersion text.now v → (result ≡ Ok v) ⊎ (result ≡ Err fault.NoMemory) }
        ensures raw { IsRaw text.now → result ≡ Err fault.Raw }
        ensures refused { IfErr result (IsFault IsVersionText text.now) }
    {
        if reading::is_raw(text) {
            return Err(VersionFault::Raw);
        }
        match reading::read(text) {
            Ok(reading) => Ok(reading.version(alloc, text)?),
            Err(at) => Err(VersionFault::Bad { at: at as u64 }),
        }
    }

    /// The canonical text: the three numbers, and the qualifier where it isn't empty.
    pub fn text(&self, alloc: Global) -> Result<Text, NoMemory>
        requires { IsVersion self.now }
        ensures canonical { IfOk result (λ text. text ≡ version_text self.now) }

        // It reads back.
        ensures reads_back { IfOk result (λ text. DenotesVersion text self.now) }
    {
        let numbers = format!(in alloc; "{}.{}.{}", self.major, self.minor, self.micro)?;
        if self.qualifier.bytes().is_empty() {
            return Text::from_str(alloc, numbers.as_str());
        }
        let text = format!(in alloc; "{}.{}", numbers, self.qualifier.as_str())?;
        Text::from_str(alloc, text.as_str())
    }

    /// Compares by major, minor and micro, and then by the bytes of the qualifier (OSGi Core, "Version").
    pub fn order(&self, other: &Version) -> Ordering
        ensures { result ≡ version_cmp self.now other.now }
    {
        self.major
            .cmp(&other.major)
            .then(self.minor.cmp(&other.minor))
            .then(self.micro.cmp(&other.micro))
            .then(self.qualifier.bytes().cmp(other.qualifier.bytes()))
    }
}

impl Twin for Version {
    fn copy(&self) -> Result<Version, NoMemory> {
        Ok(Version {
            major: self.major,
            minor: self.minor,
            micro: self.micro,
            qualifier: self.qualifier.copy()?,
        })
    }
}
