//! The codes of kinds and parameters, in the order of their tables.

pub(crate) const MKDIR: u16 = 0;

pub(crate) const RMDIR: u16 = 1;

pub(crate) const REMOVE: u16 = 2;

pub(crate) const COPY: u16 = 3;

pub(crate) const CLEAN_UP_COPY: u16 = 4;

pub(crate) const CHMOD: u16 = 5;

pub(crate) const LN: u16 = 6;

pub(crate) const PATH: u16 = 0;

pub(crate) const SOURCE: u16 = 1;

pub(crate) const TARGET: u16 = 2;

pub(crate) const OVERWRITE: u16 = 3;

pub(crate) const TARGET_DIR: u16 = 4;

pub(crate) const TARGET_FILE: u16 = 5;

pub(crate) const PERMISSIONS: u16 = 6;

pub(crate) const LINK_TARGET: u16 = 7;

pub(crate) const LINK_NAME: u16 = 8;
