//! Reading a filter's text, byte by byte.

ghost use Rattle.std.specs.Prelude.{◌≡◌, ◌<◌, ◌≤◌, ◌+◌, [], ◌∷◌, false, length, slice_index, slice_range, reverse, Some, None, option_map, IfOk, IfSome};
ghost use Rattle.std.specs.Str.{IsUtf8};
ghost use Rattle.ldap_filter.specs.EnvPairs.{lowered};
ghost use Rattle.ldap_filter.specs.FilterValue.{scan};
ghost use Rattle.ldap_filter.specs.FilterSteps.{step, test_of, received, opened, closed, entered, added, whole_in};
ghost use Rattle.ldap_filter.specs.FilterSteps as part;
ghost use Rattle.ldap_filter.specs.FilterScan.{part_in, IsScanAt};
ghost use Rattle.ldap_filter.specs.FilterReading.{frames_in, seen, IsReadTo, IsNext};
ghost use Rattle.ldap_filter.specs.declared.scan.Stage.TheVariants as stage;
ghost use Rattle.ldap_filter.specs.declared.frame.Frame.TheVariants as frame;
ghost use Rattle.ldap_filter.specs.declared.filter.Filter.TheVariants as filter;

use crate::filter::Filter;
use crate::frame::{Frame, Sign};
use crate::scan::{Move, Operator, Scan, Stage};
use crate::value::{attribute, test_of};
use osgi_version::NoMemory;
use std::alloc::Global;

/// How many frames may stand open around the one in which a filter begins: the whole text's, and one for each `(` but
/// the last of 64.
const DEEPEST: usize = 63;

/// What is read of a text.
#[derive(Debug, Drop)]
pub(crate) struct Reader {
    scan: Scan,
    /// The innermost frame that is open.
    inner: Frame,
    /// The frames around it, outermost first.
    outer: Vec<Frame>,
}

impl Reader {
    /// Nothing is read.
    pub(crate) fn new(alloc: Global) -> Reader
        ensures scan { result.scan ≡ record { stage = stage.Outside; start = 0; end = 0; value = 0 } }
        ensures frames { frames_in result ≡ frame.Whole None ∷ [] }
    {
        Reader {
            scan: Scan::new(),
            inner: Frame::Whole(None),
            outer: Vec::new(alloc),
        }
    }

    /// The filter, where the text may end here.
    pub(crate) fn whole(self, text: &[u8], at: usize) -> Option<Filter>
        ensures { result ≡ whole_in (part_in text.now at self.scan) (frames_in self) }
    {
        match (self.scan.stage, self.inner) {
            (Stage::Outside, Frame::Whole(filter)) => filter,
            _ => None,
        }
    }

    /// The reader with the byte at this place. `None` where no filter's text goes on with it.
    pub(crate) fn next(
        self,
        alloc: Global,
        text: &[u8],
        at: usize,
    ) -> Result<Option<Reader>, NoMemory>
        requires inside { at < length text.now }
        requires read { IsReadTo text.now at self }
        requires utf8 { IsUtf8 text.now }
        ensures steps { IfOk result (λ next. option_map (seen text.now (at + 1)) next ≡ step (seen text.now at self) (slice_index text.now at)) }
        ensures scanned { IfOk result (λ next. IfSome next (λ r. IsScanAt (at + 1) r.scan)) }
    {
        match self.scan.turn(text, at) {
            Move::Refuse => Ok(None),
            Move::Go(scan) => Ok(Some(self.at_scan(scan))),
            Move::Open => Ok(self.open()),
            Move::Enter(sign) => self.enter(alloc, sign),
            Move::Close => self.close(alloc),
            Move::End(operator) => Ok(Some(self.end(alloc, operator, text, at)?)),
        }
    }

    fn at_scan(self, scan: Scan) -> Reader
        ensures { result ≡ record self { scan = scan } }
    {
        Reader { scan, ..self }
    }

    fn open(self) -> Option<Reader>
        ensures { IsNext self.scan stage.Opened part.Opened (opened (frames_in self)) result }
    {
        if !self.inner.takes() {
            return None;
        }
        let scan = self.scan.at_stage(Stage::Opened);
        Some(self.at_scan(scan))
    }

    fn enter(self, alloc: Global, sign: Sign) -> Result<Option<Reader>, NoMemory>
        ensures { IfOk result (IsNext self.scan stage.Opened part.Opened (entered (frames_in self) sign)) }
    {
        let mut outer = self.outer;
        if outer.len() >= DEEPEST {
            return Ok(None);
        }
        outer.push(self.inner)?;
        Ok(Some(Reader {
            scan: self.scan.at_stage(Stage::Opened),
            inner: Frame::begin(alloc, sign),
            outer,
        }))
    }

    fn close(self, alloc: Global) -> Result<Option<Reader>, NoMemory>
        ensures { IfOk result (IsNext self.scan stage.Outside part.Outside (closed (frames_in self))) }
    {
        let Some(filter) = self.inner.end(alloc)? else {
            return Ok(None);
        };
        let mut outer = self.outer;
        let Some(inner) = outer.pop() else {
            return Ok(None);
        };
        Ok(Some(Reader {
            scan: self.scan.at_stage(Stage::Outside),
            inner: inner.receive(filter)?,
            outer,
        }))
    }

    fn end(
        self,
        alloc: Global,
        operator: Operator,
        text: &[u8],
        at: usize,
    ) -> Result<Reader, NoMemory>
        requires inside { at < length text.now }
        requires scanned { IsScanAt at self.scan }
        requires attr_utf8 { IsUtf8 (slice_range text.now self.scan.start self.scan.end) }
        requires value_utf8 { IsUtf8 (slice_range text.now self.scan.value at) }
        requires whole { scan false (slice_range text.now self.scan.value at) ≡ Some false }
        ensures scan { IfOk result (λ r. r.scan ≡ record self.scan { stage = stage.Outside }) }
        ensures frames { IfOk result (λ r. frames_in r ≡ received (filter.Item (lowered (slice_range text.now self.scan.start self.scan.end)) (test_of operator (slice_range text.now self.scan.value at))) self.inner ∷ reverse self.outer.items) }
    {
        let attr = attribute(alloc, &text[self.scan.start..self.scan.end])?;
        let test = test_of(alloc, operator, &text[self.scan.value..at])?;
        Ok(Reader {
            scan: self.scan.at_stage(Stage::Outside),
            inner: self.inner.receive(Filter::Item { attr, test })?,
            outer: self.outer,
        })
    }
}
