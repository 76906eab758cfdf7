ghost use Rattle.std.specs.Prelude.{◌≡◌, IfOk, IfErr, nat_eq};
ghost use Rattle.std.specs.Str.{IsUtf8, IsAscii};
ghost use Rattle.std.specs.Cmp.Lexicographic.{pointwise, nat_list_eq_equiv};
ghost use Rattle.std.specs.Cmp.{partial_equiv_from_equiv};
ghost use Rattle.osgi_version.specs.TextFault.{IsTextFault};

use crate::memory::NoMemory;
use crate::twin::Twin;
use std::alloc::Global;
use std::marker::Model;
use thiserror::Error;

/// Bytes that are UTF-8.
#[derive(Debug, Drop)]
pub struct Text {
    inner: String,
}

impl Model for Text {
    ghost use Rattle.std.specs.Prelude.{List, ℕ};
    ghost use Rattle.std.specs.String.{string_bytes};

    ghost Value = { List ℕ };

    ghost view = { λ a. string_bytes a.inner };
}

/// Why bytes are no text.
#[derive(Clone, Copy, Debug, PartialEq, Eq, Error)]
pub enum TextFault {
    /// The bytes aren't UTF-8. The longest front of them that is has `at` bytes.
    #[error("not UTF-8 from byte {at} on")]
    NotUtf8 { at: u64 },
    #[error("out of memory")]
    NoMemory,
}

impl Text {
    /// The text of these bytes.
    pub fn new(alloc: Global, bytes: &[u8]) -> Result<Text, TextFault>
        ensures ok { IfOk result (λ text. text ≡ bytes.now) }
        ensures utf8 { IfOk result (λ text. IsUtf8 text) }
        ensures refused { IfErr result (IsTextFault bytes.now) }
    {
        let text = match str::from_utf8(bytes) {
            Ok(text) => text,
            Err(error) => {
                return Err(TextFault::NotUtf8 {
                    at: error.valid_up_to() as u64,
                });
            }
        };
        match String::from_str(alloc, text) {
            Ok(inner) => Ok(Text { inner }),
            Err(_) => Err(TextFault::NoMemory),
        }
    }

    /// The text of bytes below 128.
    pub fn from_ascii(alloc: Global, bytes: &[u8]) -> Result<Text, NoMemory>
        requires { IsAscii bytes.now }
        ensures { IfOk result (λ text. text ≡ bytes.now) }
    {
        let Ok(text) = str::from_utf8(bytes) else {
            unreachable!()
        };
        Text::from_str(alloc, text)
    }

    /// The text of a str.
    pub fn from_str(alloc: Global, text: &str) -> Result<Text, NoMemory>
        ensures { IfOk result (λ copied. copied ≡ text.now) }
    {
        let inner = String::from_str(alloc, text)?;
        Ok(Text { inner })
    }

    /// The allocator that the text was made with.
    pub fn allocator(&self) -> Global {
        *self.inner.allocator()
    }

    pub fn bytes(&self) -> &[u8]
        ensures value { result.now ≡ self.now }
        ensures utf8 { IsUtf8 self.now }
    {
        self.inner.as_str().as_bytes()
    }

    pub fn as_str(&self) -> &str
        ensures { result.now ≡ self.now }
    {
        self.inner.as_str()
    }
}

impl Twin for Text {
    fn copy(&self) -> Result<Text, NoMemory> {
        Text::from_str(*self.inner.allocator(), self.inner.as_str())
    }
}

impl PartialEq for Text {
    ghost eq = { pointwise nat_eq };

    ghost laws = { partial_equiv_from_equiv nat_list_eq_equiv };

    fn eq(&self, other: &Text) -> bool {
        self.bytes() == other.bytes()
    }
}

impl Eq for Text {
    ghost laws = { nat_list_eq_equiv };
}
