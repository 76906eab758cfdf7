ghost use Rattle.std.specs.Prelude.{◌≡◌, IfOk};

use crate::memory::NoMemory;

/// A value that can be copied where memory allows.
pub trait Twin: Sized {
    /// An equal value.
    fn copy(&self) -> Result<Self, NoMemory>
        ensures { IfOk result (λ twin. twin ≡ self.now) };
}

impl Twin for u8 {
    fn copy(&self) -> Result<u8, NoMemory> {
        Ok(*self)
    }
}

impl Twin for u16 {
    fn copy(&self) -> Result<u16, NoMemory> {
        Ok(*self)
    }
}

impl Twin for u32 {
    fn copy(&self) -> Result<u32, NoMemory> {
        Ok(*self)
    }
}

impl Twin for u64 {
    fn copy(&self) -> Result<u64, NoMemory> {
        Ok(*self)
    }
}

impl Twin for u128 {
    fn copy(&self) -> Result<u128, NoMemory> {
        Ok(*self)
    }
}

impl Twin for usize {
    fn copy(&self) -> Result<usize, NoMemory> {
        Ok(*self)
    }
}

impl Twin for i8 {
    fn copy(&self) -> Result<i8, NoMemory> {
        Ok(*self)
    }
}

impl Twin for i16 {
    fn copy(&self) -> Result<i16, NoMemory> {
        Ok(*self)
    }
}

impl Twin for i32 {
    fn copy(&self) -> Result<i32, NoMemory> {
        Ok(*self)
    }
}

impl Twin for i64 {
    fn copy(&self) -> Result<i64, NoMemory> {
        Ok(*self)
    }
}

impl Twin for i128 {
    fn copy(&self) -> Result<i128, NoMemory> {
        Ok(*self)
    }
}

impl Twin for isize {
    fn copy(&self) -> Result<isize, NoMemory> {
        Ok(*self)
    }
}
