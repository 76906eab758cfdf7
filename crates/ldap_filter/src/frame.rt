//! What is open while a filter is read.

ghost use Rattle.std.specs.Prelude.{◌≡◌, IfOk};
ghost use Rattle.ldap_filter.specs.FilterSteps.{takes, received, composite, begun};

use crate::filter::Filter;
use osgi_version::{List, NoMemory};
use sqlite_items::Boxed;
use std::alloc::Global;

/// What combines filters into one.
#[derive(Clone, Copy, Debug, PartialEq, Eq)]
pub(crate) enum Sign {
    And,
    Or,
    Not,
}

/// A filter whose `)` isn't read yet, or the whole text, with the filters in it so far.
#[derive(Debug, Drop)]
pub(crate) enum Frame {
    Whole(Option<Filter>),
    And(List<Filter>),
    Or(List<Filter>),
    Not(Option<Filter>),
}

impl Frame {
    pub(crate) fn begin(alloc: Global, sign: Sign) -> Frame
        ensures { result ≡ begun sign }
    {
        match sign {
            Sign::And => Frame::And(List::new(alloc)),
            Sign::Or => Frame::Or(List::new(alloc)),
            Sign::Not => Frame::Not(None),
        }
    }

    /// Whether a filter may stand here.
    pub(crate) fn takes(&self) -> bool
        ensures { result ≡ takes self.now }
    {
        match self {
            Frame::And(_) | Frame::Or(_) => true,
            Frame::Whole(filter) | Frame::Not(filter) => filter.is_none(),
        }
    }

    /// The frame with one more filter.
    pub(crate) fn receive(self, filter: Filter) -> Result<Frame, NoMemory>
        ensures { IfOk result (λ frame. frame ≡ received filter self) }
    {
        match self {
            Frame::Whole(_) => Ok(Frame::Whole(Some(filter))),
            Frame::And(mut filters) => {
                filters.push(filter)?;
                Ok(Frame::And(filters))
            }
            Frame::Or(mut filters) => {
                filters.push(filter)?;
                Ok(Frame::Or(filters))
            }
            Frame::Not(_) => Ok(Frame::Not(Some(filter))),
        }
    }

    /// The filter that ends here. `None` where none may.
    pub(crate) fn end(self, alloc: Global) -> Result<Option<Filter>, NoMemory>
        ensures { IfOk result (λ filter. filter ≡ composite self) }
    {
        match self {
            Frame::Whole(_) => Ok(None),
            Frame::And(filters) => Ok(Some(Filter::And(filters))),
            Frame::Or(filters) => Ok(Some(Filter::Or(filters))),
            Frame::Not(None) => Ok(None),
            Frame::Not(Some(filter)) => Ok(Some(Filter::Not(Boxed::new(alloc, filter)?))),
        }
    }
}
